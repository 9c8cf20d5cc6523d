//! The names that the TaskRuns of an admission may have: a child's for each combination that a task of a run may get,
//! and a standalone TaskRun's own. Nothing is asked of the admission but that the matrices of its tasks have readings
//! and that each of its tasks may have few children, so they are made for an entry of a file too.
//!
//! `possible.rt` has how many children a task may have, `names.rt` their names. `specs/Children.antt` says what is asked.
//!
//! ```text
//! let mut names = List::new(alloc);
//! add_names(alloc, &mut names, &admission)?;       // r-build, r-test-0, r-test-1: behind those that were there
//! ```
#![tactic(auto)]

mod names;
mod possible;

pub use names::add_names;
pub use possible::possible_children;
