ghost use Rattle.std.specs.Prelude.{◌≡◌, ◌&&◌, ℕ, List, OnOk, IfOk, bytes_eq, cond, Some, None};
ghost use Rattle.std.specs.HashMap.{get_by};
ghost use Rattle.std.specs.Option.{option_copied, option_map, option_or};
ghost use Rattle.tk_types.specs.declared.value.Value.{Value as Whole};
ghost use Rattle.tk_types.specs.Value.{text_at};
ghost use Rattle.tk_bind.specs.Found.{found_value};
ghost use Rattle.tk_bind.specs.Selector.{selected};

use crate::found::Found;
use std::alloc::{AllocError, Global};
use std::collections::HashMap;
use std::marker::Model;
use tk_types::{FEW, FirstNamed, Pair, Text, Value};
use tk_vars::Part;

/// A value by its type, its keys indexed.
#[derive(Drop)]
enum Form<'a> {
    Text(&'a Text),
    Texts(&'a [Text]),
    Pairs(FirstNamed<'a, Pair>),
}

/// A value whose keys are found by an index. A contract sees the value.
#[derive(Drop)]
pub(crate) struct ValueIndex<'a> {
    form: Form<'a>,
}

impl<'a> Model for ValueIndex<'a> {
    ghost use Rattle.tk_types.specs.declared.value.Value.{Value as Whole};
    ghost use Rattle.tk_bind.specs.Form.{form_value};

    ghost Value = { Whole };

    ghost view = { λ index. form_value index.form };
}

/// Whether looking through the keys of a value one by one takes long.
pub(crate) fn is_long(value: &Value) -> bool {
    matches!(value, Value::Obj(pairs) if pairs.len() > FEW)
}

/// The text at a key.
fn text_at<'a>(pairs: &FirstNamed<'a, Pair>, key: &str) -> Option<&'a Text>
    ensures { option_copied result ≡ text_at key.now pairs.now }
{
    match pairs.get(key) {
        Some(pair) => Some(&pair.value),
        None => None,
    }
}

/// What a selector takes of a list.
fn of_list<'a>(selector: &[Part<'_>], texts: &'a [Text]) -> Option<Found<'a>>
    ensures { option_map found_value result ≡ selected selector.now (Whole.Arr texts.now) }
{
    match selector {
        [only] => match only {
            Part::Index(index) => texts.get(*index as usize).map(Found::Text),
            Part::Star => Some(Found::Texts(texts)),
            Part::Name(_) => None,
        },
        _ => None,
    }
}

/// What a selector takes of an object.
fn of_object<'a>(selector: &[Part<'_>], pairs: &FirstNamed<'a, Pair>) -> Option<Found<'a>>
    ensures { option_map found_value result ≡ selected selector.now (Whole.Obj pairs.now) }
{
    match selector {
        [only] => match only {
            Part::Name(key) => text_at(pairs, key.as_str()).map(Found::Text),
            Part::Star => Some(Found::Pairs(pairs.items())),
            Part::Index(_) => None,
        },
        _ => None,
    }
}

impl<'a> ValueIndex<'a> {
    /// An index of a value. Of one that isn't long it takes no memory.
    pub(crate) fn new(alloc: Global, value: &'a Value) -> Result<Self, AllocError>
        ensures { IfOk result (λ index. index ≡ value.now) }
    {
        let form = match value {
            Value::Str(text) => Form::Text(text),
            Value::Arr(texts) => Form::Texts(texts.as_slice()),
            Value::Obj(pairs) => Form::Pairs(FirstNamed::new(alloc, pairs.as_slice())?),
        };
        Ok(ValueIndex { form })
    }

    /// What a selector takes of the value, where it fits it.
    pub(crate) fn selected(&self, selector: &[Part<'_>]) -> Option<Found<'a>>
        ensures { option_map found_value result ≡ selected selector.now self.now }
    {
        match &self.form {
            Form::Text(text) if selector.is_empty() => Some(Found::Text(text)),
            Form::Text(_) => None,
            Form::Texts(texts) => of_list(selector, texts),
            Form::Pairs(pairs) => of_object(selector, pairs),
        }
    }
}

/// Adds a value under its name, unless one of that name is there.
pub(crate) fn add_named<'a>(
    values: &mut HashMap<&'a str, ValueIndex<'a>>,
    name: &'a str,
    value: ValueIndex<'a>,
) -> Result<(), AllocError>
    ensures { OnOk result ((other : List ℕ) → get_by (λ k. bytes_eq other k.now) values.new ≡ option_or (get_by (λ k. bytes_eq other k.now) values.old) (cond (bytes_eq other name.now) (Some value.entry) None)) }
{
    values.entry(name)?.or_insert(value);
    Ok(())
}
