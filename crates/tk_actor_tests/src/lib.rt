//! Tests of what stands between the journal and the actors, over journals that `simulate` brings about, and a worked history.
//!
//! `journals.rt` has the journals and caches that show them, `read_tests.rt` objects at positions of them, `label_tests.rt`
//! kept labels beside labels made anew, `written_tests.rt` what is decided of entries that a file may have.
#![tactic(auto)]

#[cfg(test)]
mod journals;
#[cfg(test)]
mod label_tests;
#[cfg(test)]
mod read_tests;
#[cfg(test)]
mod written_tests;

ghost use Rattle.std.specs.Prelude.{◌∷◌};
ghost use Rattle.tk_journal.specs.Legal.{IsLegal};
ghost use Rattle.tk_actor_tests.specs.GracefulStop.{graceful_stop as history, h16, scheduled_b, LeavesStopped};

/// A run with a task `a`, a task `b` after it and a task `f` of `finally`. The first attempt of `a` fails, a user asks for
/// `StoppedRunFinally`, `a` passes at its retry, `b` is skipped, `f` runs, and the run ends False Cancelled. Scheduling
/// `b` behind the stop isn't legal.
#[tactic(auto, using(crate::proofs::GracefulStop::is_legal, crate::proofs::GracefulStop::leaves, crate::proofs::GracefulStop::b_is_not_scheduled))]
pub fn graceful_stop()
    ensures legal { IsLegal history }
    ensures ends { LeavesStopped history }
    ensures refused { IsLegal (scheduled_b ∷ h16) → ⊥ }
{}
