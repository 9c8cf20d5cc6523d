ghost use Rattle.std.specs.Prelude.{◌≡◌, ◌++◌, flat_map, map, IfOk, OnOk};
ghost use Rattle.tk_verdict.specs.Available.{emitted as results_of};

use std::alloc::{AllocError, Global};
use tk_types::{Child, FirstNamed, Named, Outcome, Param};

/// The results that a child emitted.
pub(crate) fn emitted<'a>(child: &'a Child) -> &'a [Param]
    ensures { result.now ≡ results_of child.now }
{
    match &child.outcome {
        Some(Outcome::Succeeded(results)) => results.as_slice(),
        Some(Outcome::Failed { results, .. }) => results.as_slice(),
        _ => &[],
    }
}

/// A result that a child emitted.
#[derive(Clone, Copy)]
pub(crate) struct EmittedResult<'a> {
    pub(crate) param: &'a Param,
}

impl<'a> Named for EmittedResult<'a> {
    ghost name = { λ result. result.param.now.name };

    fn name(&self) -> &str {
        self.param.name.as_str()
    }
}

/// Adds the results of a child at the end.
fn add<'a>(all: &mut Vec<EmittedResult<'a>>, params: &'a [Param]) -> Result<(), AllocError>
    ensures { OnOk result (map (λ result. result.param.now) all.new.items ≡ map (λ result. result.param.now) all.old.items ++ params.now) }
{
    for param in params {
        all.push(EmittedResult { param })?;
    }
    Ok(())
}

/// All results that the children emitted, in order.
pub(crate) fn all_emitted<'a>(
    alloc: Global,
    children: &[&'a Child],
) -> Result<Vec<EmittedResult<'a>>, AllocError>
    ensures { IfOk result (λ all. map (λ result. result.param.now) all.items ≡ flat_map results_of (map (λ child. child.now) children.now)) }
{
    let mut all = Vec::new(alloc);
    for child in children {
        add(&mut all, emitted(*child))?;
    }
    Ok(all)
}

/// The results of each child, found by their names.
pub(crate) fn indexes<'a>(
    alloc: Global,
    children: &[&'a Child],
) -> Result<Vec<FirstNamed<'a, Param>>, AllocError>
    ensures { IfOk result (λ indexes. indexes.items ≡ map results_of (map (λ child. child.now) children.now)) }
{
    let mut indexes = Vec::with_capacity(alloc, children.len())?;
    for child in children {
        indexes.push(FirstNamed::new(alloc, emitted(*child))?)?;
    }
    Ok(indexes)
}
