ghost use Rattle.std.specs.Prelude.{◌≡◌, ◌++◌, IfOk};
ghost use Rattle.std.specs.Option.{option_copied};
ghost use Rattle.tk_shape.specs.Bound.{first_shape};
ghost use Rattle.tk_shape.specs.ShapeEnv.{shape_named};

use crate::named::NamedShape;
use crate::shape::Shape;
use crate::wanted::WantedShape;
use std::alloc::{AllocError, Global};
use tk_types::FirstNamed;

/// Where shapes are sought, by their names: of what is given, of what is given outside and of the defaults outside.
/// Those of one lifetime are made in one function, from references of that lifetime, and sought in another.
#[derive(Drop)]
pub struct ShapeSources<'a, 'v> {
    pub given: FirstNamed<'a, NamedShape<'v>>,
    pub outer: FirstNamed<'a, NamedShape<'v>>,
    pub fallback: FirstNamed<'a, NamedShape<'v>>,
}

/// The shape of a name.
fn shape_named<'a, 'v>(shapes: &FirstNamed<'a, NamedShape<'v>>, name: &str) -> Option<&'a Shape<'v>>
    ensures { option_copied result ≡ shape_named name.now shapes.now }
{
    match shapes.get(name) {
        Some(named) => Some(named.shape()),
        None => None,
    }
}

impl<'a, 'v> ShapeSources<'a, 'v> {
    /// Indexes of these shapes. The only error is want of memory.
    pub fn new(
        alloc: Global,
        given: &'a [NamedShape<'v>],
        outer: &'a [NamedShape<'v>],
        fallback: &'a [NamedShape<'v>],
    ) -> Result<Self, AllocError>
        ensures { IfOk result (λ sources. sources ≡ record { given = given.now; outer = outer.now; fallback = fallback.now }) }
    {
        Ok(ShapeSources {
            given: FirstNamed::new(alloc, given)?,
            outer: FirstNamed::new(alloc, outer)?,
            fallback: FirstNamed::new(alloc, fallback)?,
        })
    }

    /// The first shape of a name.
    pub fn shape_named(&self, name: &str) -> Option<&'a Shape<'v>>
        ensures { option_copied result ≡ shape_named name.now (self.now.given ++ self.now.outer ++ self.now.fallback) }
    {
        if let Some(shape) = shape_named(&self.given, name) {
            return Some(shape);
        }
        if let Some(shape) = shape_named(&self.outer, name) {
            return Some(shape);
        }
        shape_named(&self.fallback, name)
    }

    /// The first of: the shape given, the one given outside, that of its own default, that of the default outside.
    pub fn first_shape(&self, wanted: &'a WantedShape<'v>) -> Option<&'a Shape<'v>>
        ensures { option_copied result ≡ first_shape wanted.now self.now.given self.now.outer self.now.fallback }
    {
        let name = wanted.spec().name.as_str();
        if let Some(shape) = shape_named(&self.given, name) {
            return Some(shape);
        }
        if let Some(shape) = shape_named(&self.outer, name) {
            return Some(shape);
        }
        if let Some(shape) = wanted.default_shape() {
            return Some(shape);
        }
        shape_named(&self.fallback, name)
    }
}
