ghost use Rattle.std.specs.Prelude.{◌≡◌, Some};
ghost use Rattle.tk_cache.specs.Views.{seen};
ghost use Rattle.tk_world.specs.Looking.{has_open_run as shows_open_run, has_open_task_run as shows_open_task_run, is_open_in, is_open_run as the_open_run};

use tk_cache::Cache;
use tk_journal::RunState;

/// Whether the run is neither closed nor pending.
fn is_open_run(run: &RunState) -> bool
    ensures { result ≡ the_open_run (Some run.now) }
{
    run.closed.is_none() && !run.pending
}

/// Whether the cache has a run that is neither closed nor pending.
fn has_open_run(cache: &Cache) -> bool
    ensures { result ≡ shows_open_run (seen cache.now).view }
{
    for place in 0..cache.run_count() {
        if is_open_run(cache.run_at(place)) {
            return true;
        }
    }
    false
}

/// Whether the cache has a TaskRun that isn't closed.
fn has_open_task_run(cache: &Cache) -> bool
    ensures { result ≡ shows_open_task_run (seen cache.now).view }
{
    for place in 0..cache.task_run_count() {
        if cache.task_run_at(place).closed.is_none() {
            return true;
        }
    }
    false
}

/// Whether something is open by what the cache shows.
pub fn is_open(cache: &Cache) -> bool
    ensures { result ≡ is_open_in (seen cache.now).view }
{
    has_open_run(cache) || has_open_task_run(cache)
}
