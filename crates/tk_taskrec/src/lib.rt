//! The task worker: it closes TaskRuns, opens their attempts and makes their pods. A turn tries the first act that its
//! cache justifies, and changes nothing else. Where an attempt is open and its pod isn't there, the pod's plan is made
//! from the TaskRun alone.
//!
//! `choosing.rt` has its table, by `specs/Choice.antt`; `planning.rt` makes an attempt's plan, with `words.rt` (what
//! its texts see), `texts.rt` (substituted steps) and `script.rt` (a script's first line); `worker.rt` the turn.
//! `specs/Fit.antt` says what a legal journal gives of each TaskRun, so that no call has a premise of its own.
#![tactic(auto)]

mod choosing;
pub mod laws;
pub mod planning;
mod script;
mod texts;
mod words;
mod worker;

pub use choosing::choose;
pub use worker::TaskWorker;
