//! Scenarios of a simulation: how many controllers and kubelets there are, the outcomes of attempts, and events in
//! order, each a text of words. `read_scenario` gives exactly the scenario that a value says, or the fault that comes
//! first in it.
//!
//! The forms of an event are these, with one space between two words. A is `controller` or `kubelet`, K is `runs`,
//! `taskruns` or `pods`, i is an index from 0 below the number of these actors, and the numbers n, p and m are decimal
//! digits without a sign or a leading zero, below 2^64.
//!
//! ```text
//! deliver A i K n     deliver A i all     relist A i K p
//! turn runs i         turn tasks i        turn kubelet i
//! restart A i         ask NAME STATUS     clock m            round
//! ```
//!
//! NAME is the name of an object, STATUS is `Start`, `StoppedRunFinally`, `CancelledRunFinally`, `Cancelled` or
//! `TaskRunCancelled`, and m is a moment in milliseconds that isn't before the one that the clock reads, 0 at first.
//!
//! `words.rt` reads single words (numbers, indexes, kinds, statuses, actors), `event.rt` the form of an event by its
//! number of words, `events.rt` the list while it keeps the clock's reading, `outcomes.rt` the outcomes beside an
//! ordered set of their attempts, `scenario.rt` the whole. `specs/Words.antt`, `Event.antt` and `Scenario.antt` are the
//! definitions.
#![tactic(auto)]

mod actors;
mod event;
mod events;
mod outcomes;
mod scenario;
mod words;

pub use actors::Counts;
pub use scenario::read_scenario;
