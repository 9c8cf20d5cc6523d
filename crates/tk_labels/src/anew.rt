ghost use Rattle.std.specs.Prelude.{◌≡◌, IfOk};
ghost use Rattle.tk_labels.specs.Kept.{of_run};
ghost use Rattle.tk_verdict.specs.Labels.{labels_of};
ghost use Rattle.tk_verdict.specs.WellFormed.{IsWellFormed};

use crate::kids::copies;
use std::alloc::{AllocError, Global};
use tk_types::{Child, Facts, TryCopy, Verdict};
use tk_verdict::verdicts;

/// The facts of a run with these children.
pub(crate) fn whole(alloc: Global, run: &Facts, children: &[Child]) -> Result<Facts, AllocError>
    ensures { IfOk result (λ facts. facts ≡ of_run run.now children.now) }
{
    Ok(Facts {
        spec: run.spec.copy(alloc)?,
        stops: run.stops.copy(alloc)?,
        children: copies(alloc, children)?,
    })
}

/// The labels of a run with these children, made anew.
pub(crate) fn anew(
    alloc: Global,
    run: &Facts,
    children: &[Child],
) -> Result<Vec<Verdict>, AllocError>
    requires { IsWellFormed (of_run run.now children.now) }
    ensures { IfOk result (λ labels. labels.items ≡ labels_of (of_run run.now children.now)) }
{
    let facts = whole(alloc, run, children)?;
    let labels = verdicts(alloc, &facts)?;
    Vec::from_slice(alloc, labels.as_slice())
}
