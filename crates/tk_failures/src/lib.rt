//! What a person is told behind the report of a run: of each TaskRun that failed or timed out, which attempt and which step
//! of it, and where its files are; and which pods' folders nobody needs any more. It promises nothing but to return; tests
//! show each sentence.
//!
//! `places.rt` finds the entries of objects by their names, `lines.rt` has the sentences, `results.rt` why results were
//! refused, `spent.rt` the pods of what closed well and what was admitted at all.
#![tactic(auto)]

mod lines;
mod places;
mod results;
mod spent;

pub use lines::failures;
pub use spent::{is_admitted, spent_pods};
