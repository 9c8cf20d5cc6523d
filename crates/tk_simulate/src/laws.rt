//! Laws of runs of the machine: each call promises its law and does nothing.

ghost use Rattle.tk_machine.specs.Hosts.{Script};
ghost use Rattle.tk_simulate.specs.Ends.{RunsEndByScript};
ghost use Rattle.tk_simulate.specs.Runs.{RunsAdmitNothing, RunsAreTimely, RunsAskThese};

/// Each pod ends with the exits and the results that its script gives.
pub fn runs_end_by_script()
    ensures { (script : Script) → RunsEndByScript script }
{}

/// A run begins with what its world had, and admits nothing.
pub fn runs_admit_nothing()
    ensures { (script : Script) → RunsAdmitNothing script }
{}

/// Its moments are readings of the clock.
pub fn runs_are_timely()
    ensures { (script : Script) → RunsAreTimely script }
{}

/// Only the events' asks add to the weight.
pub fn runs_ask_these()
    ensures { (script : Script) → RunsAskThese script }
{}
