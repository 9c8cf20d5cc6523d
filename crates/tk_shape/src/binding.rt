ghost use Rattle.std.specs.Prelude.{◌≡◌, [], ◌∷◌, ◌++◌, Ok, IfErr, IfOk, OnOk};
ghost use Rattle.tk_bind.specs.Refusal.{IsBindRefusal};
ghost use Rattle.tk_shape.specs.Bound.{bound_shape, bound_shapes, bound_to_shape};

use crate::bound::BoundShape;
use crate::shape::Shape;
use crate::sources::ShapeSources;
use crate::wanted::WantedShape;
use std::alloc::{AllocError, Global};
use tk_bind::BindError;
use tk_types::TryCopy;

/// The wanted parameter with the shape, if that has the type and each declared key.
fn bound_to<'a, 'v>(
    alloc: Global,
    wanted: &'a WantedShape<'v>,
    shape: &'a Shape<'v>,
) -> Result<BoundShape<'a, 'v>, BindError>
    ensures bound { IfOk result (λ bound. bound_to_shape wanted.now shape.now ≡ Ok bound) }
    ensures refused { IfErr result (IsBindRefusal (bound_to_shape wanted.now shape.now)) }
{
    let spec = wanted.spec();
    let bound = BoundShape::new(spec.name.as_str(), shape, wanted.default_shape());
    if !bound.is_of_kind(spec.kind) {
        return Err(BindError::WrongKind {
            name: spec.name.copy(alloc)?,
        });
    }
    if !bound.has_keys(spec.properties.as_slice()) {
        return Err(BindError::Missing {
            name: spec.name.copy(alloc)?,
        });
    }
    Ok(bound)
}

/// The wanted parameter with its shape, or why it has none, as `bound_shapes` tells it of each.
pub fn bound_shape<'a, 'v>(
    alloc: Global,
    wanted: &'a WantedShape<'v>,
    sources: &ShapeSources<'a, 'v>,
) -> Result<BoundShape<'a, 'v>, BindError>
    ensures bound { IfOk result (λ bound. bound_shape sources.now.given sources.now.outer sources.now.fallback wanted.now ≡ Ok bound) }
    ensures refused { IfErr result (IsBindRefusal (bound_shape sources.now.given sources.now.outer sources.now.fallback wanted.now)) }
{
    match sources.first_shape(wanted) {
        Some(shape) => bound_to(alloc, wanted, shape),
        None => Err(BindError::Missing {
            name: wanted.spec().name.copy(alloc)?,
        }),
    }
}

/// Adds a bound shape.
fn add<'a, 'v>(
    made: &mut Vec<BoundShape<'a, 'v>>,
    bound: BoundShape<'a, 'v>,
) -> Result<(), AllocError>
    ensures { OnOk result (made.new.items ≡ made.old.items ++ bound.entry ∷ []) }
{
    made.push(bound)?;
    Ok(())
}

/// The wanted parameters with their shapes, in their order: those of what tk_bind's `bind_params` gives, with no value
/// made. The first wanted parameter that has no shape, lacks a declared key or has a shape of another type is told; want
/// of memory is the only other error.
pub fn bound_shapes<'a, 'v>(
    alloc: Global,
    wanted: &'a [WantedShape<'v>],
    sources: &ShapeSources<'a, 'v>,
) -> Result<Vec<BoundShape<'a, 'v>>, BindError>
    ensures bound { IfOk result (λ made. bound_shapes wanted.now sources.now.given sources.now.outer sources.now.fallback ≡ Ok made.items) }
    ensures refused { IfErr result (IsBindRefusal (bound_shapes wanted.now sources.now.given sources.now.outer sources.now.fallback)) }
{
    let mut made = Vec::new(alloc);
    for spec in wanted {
        let bound = bound_shape(alloc, spec, sources)?;
        add(&mut made, bound)?;
    }
    Ok(made)
}
