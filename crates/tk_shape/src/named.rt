ghost use Rattle.std.specs.Prelude.{◌≡◌, ◌++◌, IfOk, OnOk};
ghost use Rattle.tk_shape.specs.ShapeEnv.{param_shape, shapes_of};

use crate::shape::Shape;
use std::alloc::{AllocError, Global};
use std::marker::Model;
use tk_types::{Named, Param};

/// A shape by its name.
#[derive(Drop)]
pub struct NamedShape<'v> {
    name: &'v str,
    shape: Shape<'v>,
}

impl<'v> Model for NamedShape<'v> {
    ghost use Rattle.tk_shape.specs.ShapeEnv.{NamedShape};

    ghost Value = { NamedShape };

    ghost view = { λ s. record { name = s.name.now; shape = s.shape } };
}

impl<'v> NamedShape<'v> {
    /// The shape under this name.
    pub fn new(name: &'v str, shape: Shape<'v>) -> Self
        ensures { result ≡ record { name = name.now; shape = shape.entry } }
    {
        NamedShape { name, shape }
    }

    /// The same under the same name, for as long as this one is borrowed.
    fn again(&self, alloc: Global) -> Result<NamedShape<'_>, AllocError>
        ensures { IfOk result (λ shape. shape ≡ self.now) }
    {
        Ok(NamedShape::new(&*self.name, self.shape.again(alloc)?))
    }

    /// The shape itself.
    pub fn shape(&self) -> &Shape<'v>
        ensures { result.now ≡ self.now.shape }
    {
        &self.shape
    }
}

impl<'v> Named for NamedShape<'v> {
    ghost name = { λ s. s.name };

    fn name(&self) -> &str {
        self.name
    }
}

/// The shape of a parameter.
fn param_shape(alloc: Global, param: &Param) -> Result<NamedShape<'_>, AllocError>
    ensures { IfOk result (λ shape. shape ≡ param_shape param.now) }
{
    let shape = Shape::of(alloc, &param.value)?;
    Ok(NamedShape::new(param.name.as_str(), shape))
}

/// Adds the shapes of parameters, in their order.
fn add_shapes<'v>(
    alloc: Global,
    shapes: &mut Vec<NamedShape<'v>>,
    params: &'v [Param],
) -> Result<(), AllocError>
    ensures { OnOk result (shapes.new.items ≡ shapes.old.items ++ shapes_of params.now) }
{
    for param in params {
        shapes.push(param_shape(alloc, param)?)?;
    }
    Ok(())
}

/// The shapes of parameters, in their order. The only error is want of memory.
pub fn shapes_of(alloc: Global, params: &[Param]) -> Result<Vec<NamedShape<'_>>, AllocError>
    ensures { IfOk result (λ shapes. shapes.items ≡ shapes_of params.now) }
{
    let mut shapes = Vec::new(alloc);
    add_shapes(alloc, &mut shapes, params)?;
    Ok(shapes)
}

/// The same shapes, for as long as they are borrowed.
fn again<'b>(alloc: Global, shapes: &'b [NamedShape<'_>]) -> Result<Vec<NamedShape<'b>>, AllocError>
    ensures { IfOk result (λ all. all.items ≡ shapes.now) }
{
    let mut all = Vec::new(alloc);
    for shape in shapes {
        all.push(shape.again(alloc)?)?;
    }
    Ok(all)
}

/// These shapes with those of parameters behind them, for as long as all are borrowed. The only error is want of memory.
pub fn shapes_with<'b>(
    alloc: Global,
    shapes: &'b [NamedShape<'_>],
    params: &'b [Param],
) -> Result<Vec<NamedShape<'b>>, AllocError>
    ensures { IfOk result (λ all. all.items ≡ shapes.now ++ shapes_of params.now) }
{
    let mut all = again(alloc, shapes)?;
    add_shapes(alloc, &mut all, params)?;
    Ok(all)
}
