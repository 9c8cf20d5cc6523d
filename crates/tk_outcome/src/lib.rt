//! How a pod ends once its walk is over. Its exits are those of its steps, in order, and its walk is over where a step
//! doesn't pass or every step has an exit. The files of its declared results are then fetched and gathered, and the
//! outcome is that of its exits and its results (`specs/Walked.antt`). A fetch that fails is kept with the pod, which
//! then has no outcome by its walk. Laws say that the exits and the outcome are those that the journal allows.
//!
//! `walking.rt` has its exits, `fetching.rt` the files of its results, `ending.rt` its outcome; `specs/Walked.antt`,
//! and `Laws.antt` for what that is to the journal.
#![tactic(auto)]

mod ending;
mod fetching;
pub mod laws;
mod walking;

pub use ending::walked_outcome;
pub use walking::{broken_exit, exits, is_walked};
