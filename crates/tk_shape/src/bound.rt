use crate::shape::Shape;
use std::marker::Model;
use tk_types::{Named, ParamType, Text};
use tk_vars::Part;

/// The shape of a bound parameter: that of its value, and of an object the keys that only the default has. A contract
/// sees the name and the whole shape.
#[derive(Drop)]
pub struct BoundShape<'a, 'v> {
    name: &'a str,
    shape: &'a Shape<'v>,
    default_shape: Option<&'a Shape<'v>>,
}

impl<'a, 'v> Model for BoundShape<'a, 'v> {
    ghost use Rattle.std.specs.Option.{option_copied};
    ghost use Rattle.tk_shape.specs.Bound.{completed_shape};
    ghost use Rattle.tk_shape.specs.ShapeEnv.{NamedShape};

    ghost Value = { NamedShape };

    ghost view = { λ b. record { name = b.name.now; shape = completed_shape b.shape.now (option_copied b.default_shape) } };
}

impl<'a, 'v> BoundShape<'a, 'v> {
    ghost use Rattle.std.specs.Prelude.{◌≡◌, option_map};
    ghost use Rattle.std.specs.Option.{option_copied};
    ghost use Rattle.tk_shape.specs.Bound.{completed_shape, has_keys};
    ghost use Rattle.tk_shape.specs.Shape.{is_of_kind, kind_of, selected_shape};

    /// The shape under this name, with the keys that only the default has.
    pub fn new(name: &'a str, shape: &'a Shape<'v>, default_shape: Option<&'a Shape<'v>>) -> Self
        ensures { result ≡ record { name = name.now; shape = completed_shape shape.now (option_copied default_shape.entry) } }
    {
        BoundShape {
            name,
            shape,
            default_shape,
        }
    }

    /// Whether values of the shape have the type.
    pub fn is_of_kind(&self, kind: ParamType) -> bool
        ensures { result ≡ is_of_kind kind self.now.shape }
    {
        self.shape.is_of_kind(kind)
    }

    /// Whether each of these keys is there, if it is the shape of an object.
    pub fn has_keys(&self, keys: &[Text]) -> bool
        ensures { result ≡ has_keys keys.now self.now.shape }
    {
        self.shape.has_keys(self.default_shape, keys)
    }

    /// The type of what a selector takes of a value of the shape.
    pub fn kind_selected(&self, selector: &[Part<'_>]) -> Option<ParamType>
        ensures { result ≡ option_map kind_of (selected_shape selector.now self.now.shape) }
    {
        self.shape.kind_selected(self.default_shape, selector)
    }
}

impl<'a, 'v> Named for BoundShape<'a, 'v> {
    ghost name = { λ b. b.name };

    fn name(&self) -> &str {
        self.name
    }
}
