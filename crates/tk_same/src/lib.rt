//! Whether two values are the same, told without a copy of either, and exactly: the answer is true where a contract sees
//! the same value, and nowhere else.
//!
//! `same.rt` has the trait, with texts, lists and options; `values.rt` the values of runs and TaskRuns, `plans.rt` the plan
//! of a pod and what an entry closes with.
#![tactic(auto)]

mod plans;
mod same;
mod values;

pub use same::{Same, are_same};
