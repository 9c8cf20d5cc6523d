ghost use Rattle.std.specs.Prelude.{◌≡◌, None, option_copied, IfOk};
ghost use Rattle.tk_cache.specs.Views.{seen};
ghost use Rattle.tk_runrec.specs.Choice.{unmarked as unmarked_of, cancel as cancel_row};
ghost use Rattle.tk_runrec.specs.Found.{first_found};

use crate::found::{Found, earlier};
use crate::stops::reaches;
use std::alloc::{AllocError, Global};
use tk_cache::Cache;
use tk_journal::{Act, RunState, TaskRunState};
use tk_types::Text;

/// A child's TaskRun that a recorded stop is to end.
fn unmarked(
    alloc: Global,
    name: &str,
    run: &RunState,
    task_run: Option<&TaskRunState>,
) -> Result<Option<Found>, AllocError>
    ensures { IfOk result (λ found. found ≡ unmarked_of name.now run.now (option_copied task_run.entry)) }
{
    match task_run {
        None => Ok(None),
        Some(task_run) => {
            if task_run.closed.is_some() || task_run.marked || !reaches(run, task_run.task) {
                return Ok(None);
            }
            Ok(Some(Found {
                task: task_run.task,
                index: task_run.index,
                name: Text::from_str(alloc, name)?,
            }))
        }
    }
}

/// The first of the run's TaskRuns that a recorded stop is to end.
fn first_unmarked(
    alloc: Global,
    cache: &Cache,
    names: &[Text],
    run: &RunState,
) -> Result<Option<Found>, AllocError>
    ensures { IfOk result (λ found. found ≡ first_found (λ child. unmarked_of child run.now ((seen cache.now).view.task_run child)) None names.now) }
{
    let mut best = None;
    for place in 0..names.len() {
        let name = names[place].as_str();
        let found = unmarked(alloc, name, run, cache.task_run(name))?;
        best = earlier(best, found);
    }
    Ok(best)
}

/// The row CancelTaskRun.
pub(crate) fn cancel(
    alloc: Global,
    cache: &Cache,
    name: &str,
    run: &RunState,
) -> Result<Option<Act>, AllocError>
    ensures { IfOk result (λ act. act ≡ cancel_row (seen cache.now).view name.now run.now) }
{
    if run.stops.is_empty() {
        return Ok(None);
    }
    match first_unmarked(alloc, cache, cache.children(name), run)? {
        None => Ok(None),
        Some(found) => Ok(Some(Act::CancelTaskRun { name: found.name })),
    }
}
