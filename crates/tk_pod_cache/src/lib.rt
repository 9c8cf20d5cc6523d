//! The cache of a kubelet: a cache, and beside it the places of the pods that nobody claimed and of those that are claimed
//! and haven't ended. They follow each entry that the cache is told of, so no turn goes over pods that are over.
//!
//! `advance.rt` moves the cache by one entry at a time, `marks.rt` judges the one pod that an entry names.
//! `specs/Marks.antt` says which pods are marked.
#![tactic(auto)]

mod advance;
mod marks;
mod pod_cache;

pub use marks::{PodMarks, is_unclaimed};
pub use pod_cache::PodCache;
