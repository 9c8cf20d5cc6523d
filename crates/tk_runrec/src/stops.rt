ghost use Rattle.std.specs.Prelude.{◌≡◌, ◌&&◌, nat_le, nat_lt, nat_eq};
ghost use Rattle.std.specs.List.{list_any, list_all};
ghost use Rattle.tk_types.specs.declared.object.Asked.{Asked as AnAsked};
ghost use Rattle.tk_types.specs.declared.run.Stop.{Stop as AStop};
ghost use Rattle.tk_types.specs.Behaviour.{level_of as level_of_stop};
ghost use Rattle.tk_journal.specs.Effects.{is_final};
ghost use Rattle.tk_journal.specs.Stops.{asked_level as level_of_asked};
ghost use Rattle.tk_runrec.specs.Tests.{starts_ready, asks_for, is_highest, is_recorded, is_above, is_reached, has_passed};

use tk_journal::RunState;
use tk_types::{Asked, RunSpec, Start, Stop};

/// The level of the stop that is asked for.
pub fn asked_level(status: Asked) -> u32
    ensures { result ≡ level_of_asked status }
{
    match status {
        Asked::Start => 0,
        Asked::StoppedRunFinally => 1,
        Asked::CancelledRunFinally => 2,
        Asked::Cancelled | Asked::TaskRunCancelled => 4,
    }
}

/// Whether the run can start.
pub fn is_startable(start: &Start) -> bool
    ensures { result ≡ starts_ready start.now }
{
    matches!(start, Start::Ready)
}

/// Whether the task is one of `finally`.
pub fn is_of_finally(spec: &RunSpec, task: u32) -> bool
    ensures { result ≡ is_final spec.now task }
{
    spec.tasks.len() <= task as usize
}

fn is_asked_for(stop: Stop, status: Asked) -> bool
    ensures { result ≡ asks_for stop status }
{
    match stop {
        Stop::StoppedRunFinally => matches!(status, Asked::StoppedRunFinally),
        Stop::CancelledRunFinally => matches!(status, Asked::CancelledRunFinally),
        Stop::Cancelled => matches!(status, Asked::Cancelled),
        _ => false,
    }
}

fn is_asked(asked: &[Asked], stop: Stop) -> bool
    ensures { result ≡ list_any (asks_for stop) asked.now }
{
    asked.iter().any(|status| is_asked_for(stop, *status))
}

fn is_none_higher(asked: &[Asked], stop: Stop) -> bool
    ensures { result ≡ list_all (λ (a : AnAsked). nat_le (level_of_asked a) (level_of_stop stop)) asked.now }
{
    asked
        .iter()
        .all(|status| asked_level(*status) <= stop.level())
}

/// Whether the stop is asked for, and no higher status is.
pub fn is_highest_asked(asked: &[Asked], stop: Stop) -> bool
    ensures { result ≡ is_highest asked.now stop }
{
    is_asked(asked, stop) && is_none_higher(asked, stop)
}

fn is_one_as_high(recorded: &[Stop], status: Asked) -> bool
    ensures { result ≡ list_any (λ (s : AStop). nat_le (level_of_asked status) (level_of_stop s)) recorded.now }
{
    recorded
        .iter()
        .any(|stop| asked_level(status) <= stop.level())
}

/// Whether the asked status is recorded, or of level 0.
pub fn was_recorded(recorded: &[Stop], status: Asked) -> bool
    ensures { result ≡ is_recorded recorded.now status }
{
    asked_level(status) == 0 || is_one_as_high(recorded, status)
}

/// Whether the stop's level is above all recorded.
pub fn is_above_all(recorded: &[Stop], stop: Stop) -> bool
    ensures { result ≡ is_above recorded.now stop }
{
    let level = stop.level();
    recorded.iter().all(|before| before.level() < level)
}

/// Whether a recorded stop reaches the task's children.
pub fn reaches(run: &RunState, task: u32) -> bool
    ensures { result ≡ is_reached run.now task }
{
    let from: u32 = if is_of_finally(&run.spec, task) { 3 } else { 2 };
    run.stops.as_slice().iter().any(|stop| from <= stop.level())
}

/// Whether the timeout, in milliseconds, is set and has passed at the moment (Tekton, PipelineRuns, Configuring a failure
/// timeout).
pub fn timed_out(start: Option<u64>, timeout: u64, moment: u64) -> bool
    ensures { result ≡ has_passed start timeout moment }
{
    match start {
        None => false,
        Some(from) => 0 < timeout && from <= moment && timeout <= moment - from,
    }
}
