ghost use Rattle.std.specs.Prelude.{◌≡◌, fold, option_map};
ghost use Rattle.std.specs.List.{list_all};
ghost use Rattle.std.specs.Option.{option_copied};
ghost use Rattle.tk_shape.specs.Bound.{completed_shape, default_keys, with_key};
ghost use Rattle.tk_shape.specs.Shape.{has_key, keyed, keys_of, kind_of, many, selected_shape};

use std::alloc::{AllocError, Global};
use std::marker::Model;
use tk_types::{FirstNamed, Pair, ParamType, Text, Value};
use tk_vars::Part;

/// A shape as it is kept: of an object the pairs that have its keys, indexed.
#[derive(Drop)]
enum Form<'v> {
    One,
    Many(u128),
    Keyed(FirstNamed<'v, Pair>),
}

/// What can be taken of a value: one text, the texts of a list of so many, or those of an object with these keys. A
/// contract sees the shape alone.
#[derive(Drop)]
pub struct Shape<'v> {
    form: Form<'v>,
}

impl<'v> Model for Shape<'v> {
    ghost use Rattle.tk_shape.specs.Shape.{Shape, one, many, keyed, keys_of};
    ghost use Rattle.tk_shape.specs.declared.shape.Form.TheVariants.{One, Many, Keyed};

    ghost Value = { Shape };

    ghost view = { λ s. elim s.form [ One ↦ one | Many count ↦ many count | Keyed pairs ↦ keyed (keys_of pairs) ] };
}

/// Whether the shape of a default is of an object that has the key.
fn default_has_key(default_shape: Option<&Shape>, key: &str) -> bool
    ensures { result ≡ has_key key.now (default_keys (option_copied default_shape.entry)) }
{
    match default_shape {
        Some(shape) => shape.has_key(key),
        None => false,
    }
}

/// Whether a pair, or else the default, has the key.
fn either_has_key(pairs: &FirstNamed<'_, Pair>, default_shape: Option<&Shape>, key: &str) -> bool
    ensures { result ≡ has_key key.now (fold with_key (keys_of pairs.now) (default_keys (option_copied default_shape.entry))) }
{
    pairs.get(key).is_some() || default_has_key(default_shape, key)
}

/// Whether a pair, or else the default, has each key.
fn either_has_keys(
    pairs: &FirstNamed<'_, Pair>,
    default_shape: Option<&Shape>,
    keys: &[Text],
) -> bool
    ensures { result ≡ list_all (λ key. has_key key (fold with_key (keys_of pairs.now) (default_keys (option_copied default_shape.entry)))) keys.now }
{
    for key in keys {
        if !either_has_key(pairs, default_shape, key.as_str()) {
            return false;
        }
    }
    true
}

/// The type of what a selector takes of a list of so many texts.
fn kind_in_list(selector: &[Part<'_>], count: u128) -> Option<ParamType>
    ensures { result ≡ option_map kind_of (selected_shape selector.now (many count)) }
{
    match selector {
        [only] => match only {
            Part::Index(index) if (*index as u128) < count => Some(ParamType::Str),
            Part::Star => Some(ParamType::Arr),
            _ => None,
        },
        _ => None,
    }
}

/// The type of what a selector takes of an object with the keys of the pairs, and those that only its default has.
fn kind_in_object(
    selector: &[Part<'_>],
    pairs: &FirstNamed<'_, Pair>,
    default_shape: Option<&Shape>,
) -> Option<ParamType>
    ensures { result ≡ option_map kind_of (selected_shape selector.now (completed_shape (keyed (keys_of pairs.now)) (option_copied default_shape.entry))) }
{
    match selector {
        [only] => match only {
            Part::Name(key) if either_has_key(pairs, default_shape, key.as_str()) => {
                Some(ParamType::Str)
            }
            Part::Star => Some(ParamType::Obj),
            _ => None,
        },
        _ => None,
    }
}

impl<'v> Shape<'v> {
    ghost use Rattle.std.specs.Prelude.{IfOk};
    ghost use Rattle.tk_shape.specs.Bound.{has_keys};
    ghost use Rattle.tk_shape.specs.Shape.{has_key_of, is_of_kind, one, shape_of};

    /// The shape of one text.
    pub fn one() -> Self
        ensures { result ≡ one }
    {
        Shape { form: Form::One }
    }

    /// The shape of a list of so many texts.
    pub fn many(count: u128) -> Self
        ensures { result ≡ many count }
    {
        Shape {
            form: Form::Many(count),
        }
    }

    /// The shape of an object with the keys of these pairs. The only error is want of memory.
    pub fn keyed(alloc: Global, pairs: &'v [Pair]) -> Result<Self, AllocError>
        ensures { IfOk result (λ shape. shape ≡ keyed (keys_of pairs.now)) }
    {
        Ok(Shape {
            form: Form::Keyed(FirstNamed::new(alloc, pairs)?),
        })
    }

    /// The shape of a value. The only error is want of memory.
    pub fn of(alloc: Global, value: &'v Value) -> Result<Self, AllocError>
        ensures { IfOk result (λ shape. shape ≡ shape_of value.now) }
    {
        match value {
            Value::Str(_) => Ok(Shape::one()),
            Value::Arr(texts) => Ok(Shape::many(texts.len() as u128)),
            Value::Obj(pairs) => Shape::keyed(alloc, pairs.as_slice()),
        }
    }

    /// The same shape, for as long as this one is borrowed. The only error is want of memory.
    pub fn again(&self, alloc: Global) -> Result<Shape<'_>, AllocError>
        ensures { IfOk result (λ shape. shape ≡ self.now) }
    {
        match &self.form {
            Form::One => Ok(Shape::one()),
            Form::Many(count) => Ok(Shape::many(*count)),
            Form::Keyed(pairs) => Shape::keyed(alloc, &*pairs.items()),
        }
    }

    /// The type of the values of the shape.
    pub fn kind(&self) -> ParamType
        ensures { result ≡ kind_of self.now }
    {
        match &self.form {
            Form::One => ParamType::Str,
            Form::Many(_) => ParamType::Arr,
            Form::Keyed(_) => ParamType::Obj,
        }
    }

    /// Whether values of the shape have the type.
    pub fn is_of_kind(&self, kind: ParamType) -> bool
        ensures { result ≡ is_of_kind kind self.now }
    {
        match &self.form {
            Form::One => matches!(kind, ParamType::Str),
            Form::Many(_) => matches!(kind, ParamType::Arr),
            Form::Keyed(_) => matches!(kind, ParamType::Obj),
        }
    }

    /// Whether it is the shape of an object that has the key.
    pub fn has_key(&self, key: &str) -> bool
        ensures { result ≡ has_key_of key.now self.now }
    {
        match &self.form {
            Form::Keyed(pairs) => pairs.get(key).is_some(),
            _ => false,
        }
    }

    /// Whether each of these keys is there, or is a key of the default, if it is the shape of an object.
    pub fn has_keys(&self, default_shape: Option<&Shape>, keys: &[Text]) -> bool
        ensures { result ≡ has_keys keys.now (completed_shape self.now (option_copied default_shape.entry)) }
    {
        match &self.form {
            Form::Keyed(pairs) => either_has_keys(pairs, default_shape, keys),
            _ => true,
        }
    }

    /// The type of what a selector takes of a value of the shape, an object with the keys that only its default has.
    pub fn kind_selected(
        &self,
        default_shape: Option<&Shape>,
        selector: &[Part<'_>],
    ) -> Option<ParamType>
        ensures { result ≡ option_map kind_of (selected_shape selector.now (completed_shape self.now (option_copied default_shape.entry))) }
    {
        match &self.form {
            Form::One if selector.is_empty() => Some(ParamType::Str),
            Form::One => None,
            Form::Many(count) => kind_in_list(selector, *count),
            Form::Keyed(pairs) => kind_in_object(selector, pairs, default_shape),
        }
    }
}
