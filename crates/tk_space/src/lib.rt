//! The folders of workspaces. A workspace that is bound to an `emptyDir` has a folder in that of its attempt's pod, so
//! it is fresh for each attempt; one that is bound to a claim has the claim's, which all runs of the input share. A
//! Task's texts see each declared workspace by three words. The only error here is want of memory.
//!
//! `paths.rt` has the folders of workspaces, `variables.rt` the words that texts see, `laws.rt` what lies apart.
#![tactic(auto)]

pub mod laws;
mod paths;
mod variables;

pub use paths::{folder, folders};
pub use variables::words;
