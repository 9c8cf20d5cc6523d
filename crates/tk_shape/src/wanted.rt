ghost use Rattle.std.specs.Prelude.{◌≡◌, IfOk};
ghost use Rattle.std.specs.Option.{option_copied};
ghost use Rattle.tk_shape.specs.Bound.{default_shape};

use crate::shape::Shape;
use std::alloc::{AllocError, Global};
use std::marker::Model;
use tk_types::ParamSpec;

/// A wanted parameter with the shape of its own default, found once. A contract sees the parameter.
#[derive(Drop)]
pub struct WantedShape<'v> {
    spec: &'v ParamSpec,
    own: Option<Shape<'v>>,
}

impl<'v> Model for WantedShape<'v> {
    ghost use Rattle.std.specs.Prelude.{◌≡◌};
    ghost use Rattle.tk_types.specs.declared.value.ParamSpec.{ParamSpec};
    ghost use Rattle.tk_shape.specs.Bound.{default_shape};

    ghost Value = { ParamSpec };

    ghost view = { λ w. w.spec.now };

    ghost invariant = { λ w. w.own ≡ default_shape w.spec.now };
}

/// The shape of a parameter's own default.
fn shape_of_default(alloc: Global, spec: &ParamSpec) -> Result<Option<Shape<'_>>, AllocError>
    ensures { IfOk result (λ shape. shape ≡ default_shape spec.now) }
{
    match &spec.default_value {
        Some(value) => Ok(Some(Shape::of(alloc, value)?)),
        None => Ok(None),
    }
}

impl<'v> WantedShape<'v> {
    /// This parameter with the shape of its own default. The only error is want of memory.
    pub fn new(alloc: Global, spec: &'v ParamSpec) -> Result<Self, AllocError>
        ensures { IfOk result (λ wanted. wanted ≡ spec.now) }
    {
        Ok(WantedShape {
            spec,
            own: shape_of_default(alloc, spec)?,
        })
    }

    /// The parameter itself.
    pub fn spec(&self) -> &'v ParamSpec
        ensures { result.now ≡ self.now }
    {
        self.spec
    }

    /// The shape of its own default.
    pub fn default_shape(&self) -> Option<&Shape<'v>>
        ensures { option_copied result ≡ default_shape self.now }
    {
        self.own.as_ref()
    }
}

/// Wanted parameters with the shapes of their own defaults, in their order. The only error is want of memory.
pub fn wanted_shapes(alloc: Global, specs: &[ParamSpec]) -> Result<Vec<WantedShape<'_>>, AllocError>
    ensures { IfOk result (λ wanted. wanted.items ≡ specs.now) }
{
    let mut wanted = Vec::new(alloc);
    for spec in specs {
        wanted.push(WantedShape::new(alloc, spec)?)?;
    }
    Ok(wanted)
}
