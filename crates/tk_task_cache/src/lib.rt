//! The cache of a controller: that of its run worker, and beside it the places of the TaskRuns that may give rise to an act:
//! those that aren't closed and wait for no pod. They follow each entry that the cache is told of, so a task worker looks at
//! no other TaskRun.
//!
//! `acting.rt` judges whether a TaskRun may give rise to an act. `advance.rt` moves the cache by one entry at a time
//! and judges the one TaskRun that the entry names, or whose pod it names. `specs/Acting.antt` says which TaskRuns may
//! act.
#![tactic(auto)]

mod acting;
mod advance;
mod task_cache;

pub use acting::open_attempt;
pub use task_cache::TaskCache;
