ghost use Rattle.std.specs.Prelude.{◌≡◌, ◌≤◌, ◌+◌, ◌↔◌, IsTrue, length};
ghost use Rattle.tk_types.specs.Limits.{most_retries, most_tasks};
ghost use Rattle.tk_journal.specs.Sound.{longest_duration};

use tk_types::{MOST_RETRIES, MOST_TASKS, RunSpec};

/// The longest timeout: a year of 365 days, in milliseconds.
const LONGEST_DURATION: u64 = 31_536_000_000;

/// Whether a run has few tasks, those of `finally` too.
pub(crate) fn has_few_tasks(spec: &RunSpec) -> bool
    ensures { IsTrue result ↔ (length spec.now.tasks + length spec.now.finally ≤ most_tasks) }
{
    let tasks = spec.tasks.len();
    tasks <= MOST_TASKS && spec.finally.len() <= MOST_TASKS - tasks
}

/// Whether a run has one body for each task.
pub(crate) fn has_one_body_each(spec: &RunSpec) -> bool
    requires { length spec.now.tasks + length spec.now.finally ≤ most_tasks }
    ensures { IsTrue result ↔ (length spec.now.bodies ≡ length spec.now.tasks + length spec.now.finally) }
{
    spec.bodies.len() == spec.tasks.len() + spec.finally.len()
}

/// Whether a timeout, in milliseconds, is a year at most.
pub(crate) fn is_short(timeout: u64) -> bool
    ensures { IsTrue result ↔ (timeout ≤ longest_duration) }
{
    timeout <= LONGEST_DURATION
}

/// Whether these are few retries.
pub(crate) fn are_few_retries(retries: u32) -> bool
    ensures { IsTrue result ↔ (retries ≤ most_retries) }
{
    retries <= MOST_RETRIES
}
