ghost use Rattle.std.specs.Prelude.{IfOk};
ghost use Rattle.tk_simulate.specs.Played.{Plays};
ghost use Rattle.tk_simulate.specs.Started.{MayPlay, PlaysTo};

use crate::starting::{Started, start};
use std::alloc::{AllocError, Global};
use tk_journal::Journal;
use tk_types::Rejected;

/// The journal once all events have come, and fair rounds have closed all that isn't pending. The only error is want of
/// memory.
fn play(started: Started) -> Result<Journal, AllocError>
    requires { MayPlay started }
    ensures { IfOk result (λ journal. PlaysTo started journal.history) }
{
    let Started {
        mut world,
        scenario,
        weight,
    } = started;
    world.run(scenario.events.as_slice())?;
    world.finish(weight)?;
    Ok(world.into_journal())
}

/// The journal of an input: its runs are admitted, its Scenario's events come, and fair rounds close all that isn't
/// pending. It is refused for the first fault of the input; the only other error is want of memory.
pub fn simulate(alloc: Global, bytes: &[u8]) -> Result<Journal, Rejected>
    ensures { Plays bytes.now result }
{
    Ok(play(start(alloc, bytes)?)?)
}
