//! The run worker: it closes runs, records their stops, starts them, and makes, cancels and schedules their children.
//! What it tries is computed from its cache by the definition `choice`, which goes by run in order of admission and then
//! by kind. The laws say that this is the first of all that the cache justifies for it.
//!
//! `choice.rt` has its table, by `specs/Choice.antt`, with a file for each kind of act (`close.rt`, `halt.rt` over
//! `stops.rt`, `cancel.rt`, `make.rt`, `schedule.rt`), over the labels and the children without a TaskRun that its
//! cache keeps; `children.rt` has the names of children and the tests on them. `specs/Tests.antt` has the tests on one
//! run, `proofs/Chosen.antt` ties the table to the journal's relation.
#![tactic(auto)]

mod cancel;
pub mod children;
mod choice;
pub mod close;
mod found;
pub mod halt;
pub mod laws;
mod make;
pub mod schedule;
pub mod stops;
mod worker;

pub use worker::RunWorker;
