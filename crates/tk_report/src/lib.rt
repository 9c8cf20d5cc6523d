//! The report of a journal's objects at its end, as text or as JSON, and the status with which a command ends that shows
//! it.
//!
//! `end.rt` reads a journal's objects at its end, through a cache, `admitted.rt` which of them are listed; `objects.rt`
//! and `run.rt` write the text over `lines.rt` and `words.rt`; `json.rt` makes the JSON over `data.rt`, with the
//! skipped tasks of `skipped.rt`, whose `when` expressions `guards.rt` substitutes over the facts of `facts.rt`.
#![tactic(auto)]

mod admitted;
mod data;
mod end;
mod facts;
mod guards;
mod json;
mod lines;
mod objects;
mod run;
mod skipped;
mod words;

pub use end::{report, report_json, status};
pub use lines::{skip_text, write_results, write_run_line, write_skipped};
pub use words::Status;
