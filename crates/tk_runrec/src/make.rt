ghost use Rattle.std.specs.Prelude.{◌≡◌, None, IfOk};
ghost use Rattle.tk_cache.specs.Views.{seen};
ghost use Rattle.tk_run_cache.specs.Labelled.{missing_in};
ghost use Rattle.tk_runrec.specs.Choice.{missing as missing_of, make_first};
ghost use Rattle.tk_runrec.specs.Found.{first_found};

use crate::children::child_name;
use crate::found::{Found, earlier};
use crate::stops::reaches;
use std::alloc::{AllocError, Global};
use tk_cache::Cache;
use tk_journal::{Act, RunState};
use tk_types::{Child, Text};

/// The child, if it has no TaskRun.
fn missing(
    alloc: Global,
    cache: &Cache,
    run: &RunState,
    child: &Child,
) -> Result<Option<Found>, AllocError>
    ensures { IfOk result (λ found. found ≡ missing_of (seen cache.now).view run.now child.now) }
{
    let name = child_name(alloc, &run.spec, child.task, child.index)?;
    if cache.task_run(name.as_str()).is_some() {
        return Ok(None);
    }
    Ok(Some(Found {
        task: child.task,
        index: child.index,
        name,
    }))
}

/// The first of the children without a TaskRun.
fn first_missing(
    alloc: Global,
    cache: &Cache,
    run: &RunState,
    children: &[Child],
) -> Result<Option<Found>, AllocError>
    ensures { IfOk result (λ found. found ≡ first_found (missing_of (seen cache.now).view run.now) None children.now) }
{
    let mut best = None;
    for child in children {
        let found = missing(alloc, cache, run, child)?;
        best = earlier(best, found);
    }
    Ok(best)
}

/// The row MakeTaskRun, of the children that have none.
#[tactic(auto, using(crate::proofs::Missing::first_among))]
pub(crate) fn make(
    alloc: Global,
    cache: &Cache,
    name: &str,
    run: &RunState,
    bare: &[Child],
) -> Result<Option<Act>, AllocError>
    requires bare { bare.now ≡ missing_in (seen cache.now).view run.now }
    ensures { IfOk result (λ act. act ≡ make_first (seen cache.now).view name.now run.now) }
{
    match first_missing(alloc, cache, run, bare)? {
        None => Ok(None),
        Some(found) => {
            let mark = reaches(run, found.task);
            Ok(Some(Act::MakeTaskRun {
                name: found.name,
                run: Text::from_str(alloc, name)?,
                task: found.task,
                index: found.index,
                mark,
            }))
        }
    }
}
