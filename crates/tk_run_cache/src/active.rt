//! Whether a run can still get an entry.
ghost use Rattle.std.specs.Prelude.{◌≡◌, ℕ, List, Some, option_copied, OnOk};
ghost use Rattle.std.specs.List.{list_any};
ghost use Rattle.tk_cache.specs.Views.{seen};
ghost use Rattle.tk_run_cache.specs.Active.{IsJudged, is_open as is_open_task_run, may_get_at};

use crate::labelled_cache::LabelledCache;
use std::alloc::AllocError;
use tk_cache::Cache;
use tk_journal::{RunState, TaskRunState};
use tk_places::Places;
use tk_types::Text;

/// Whether the TaskRun is there and isn't closed.
fn is_open(task_run: Option<&TaskRunState>) -> bool
    ensures { result ≡ is_open_task_run (option_copied task_run.entry) }
{
    match task_run {
        None => false,
        Some(task_run) => task_run.closed.is_none(),
    }
}

/// Whether one of these TaskRuns is open.
fn any_open(cache: &Cache, names: &[Text]) -> bool
    ensures { result ≡ list_any (λ (name : List ℕ). is_open_task_run ((seen cache.now).view.task_run name)) names.now }
{
    names
        .iter()
        .any(|name| is_open(cache.task_run(name.as_str())))
}

/// Whether a run can get an entry. Of an open one this looks at no TaskRun.
fn may_get(cache: &Cache, name: &str, run: &RunState) -> bool
    ensures { result ≡ may_get_at (seen cache.now).view name.now (Some run.now) }
{
    if run.closed.is_none() {
        return true;
    }
    if run.stops.is_empty() {
        return false;
    }
    any_open(cache, cache.children(name))
}

/// Judges the run of a name anew, if it is there.
pub(crate) fn judge(
    cache: &LabelledCache,
    active: &mut Places,
    name: &str,
) -> Result<(), AllocError>
    ensures { OnOk result (IsJudged (seen cache.now).view name.now active.old active.new) }
{
    let Some(place) = cache.place(name) else {
        return Ok(());
    };
    let shown = cache.cache();
    let may = may_get(shown, name, shown.run_at(place));
    active.set(place, may)?;
    Ok(())
}

/// Judges the run of a name anew, if it is there, once this is one of its TaskRuns. While that is open, no other is looked at.
pub(crate) fn judge_by(
    cache: &LabelledCache,
    active: &mut Places,
    name: &str,
    task_run: &TaskRunState,
) -> Result<(), AllocError>
    ensures { OnOk result (IsJudged (seen cache.now).view name.now active.old active.new) }
{
    if !is_open(Some(task_run)) {
        return judge(cache, active, name);
    }
    let Some(place) = cache.place(name) else {
        return Ok(());
    };
    active.set(place, true)?;
    Ok(())
}
