//! What a user asks of a run while it goes on: that it start, stop or be cancelled. An ask is written at the journal's end,
//! or refused, for the first of three causes that holds there.
//!
//! `refusal.rt` has the refusals that a run and a TaskRun give, `asking.rt` reads the journal's end and writes there;
//! `specs/Ask.antt`.
#![tactic(auto)]

mod answer;
mod asking;
pub mod refusal;

pub use answer::AskAnswer;
pub use asking::{ask, refused};
