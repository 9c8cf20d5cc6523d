//! What a journal comes to in one line: how many runs it admits and how they closed, how many TaskRuns and attempts it makes,
//! and how many entries it has.
//!
//! `counting.rt` goes over them, `line.rt` writes it.
#![tactic(auto)]

mod counting;
mod line;

pub use line::summary;
