//! The cache of a run worker: a cache, and beside it the labels of each run that it shows, the children that have no
//! TaskRun yet, and the places of the runs that can still get an entry. They follow each entry that the cache is told of: a
//! run worker labels no run at its turns, and looks at none that is done. A list that goes back to an older position follows
//! all runs anew.
//!
//! `labelled_cache.rt` has a cache with what is known of each run that it shows, and `run_cache.rt` beside it the
//! places of the runs that can still get an entry. `advance.rt` moves the cache by one entry at a time, `follow.rt`
//! lets what is known follow it (`known.rt` of the runs by their names, `step.rt` of one), `children.rt` looks at the
//! TaskRuns of new children; `marking.rt` judges the one run that an entry names, or whose TaskRun it names, as
//! `active.rt` says. `specs/Labelled.antt` says what is known at a view, `Follow.antt` what an entry makes of it,
//! `Active.antt` which runs can get an entry. In `proofs/`, `Written.antt` and `Moved.antt` have what an entry of a run
//! changes, `Ended.antt` and `Owned.antt` one of a TaskRun, whose name no other child has, `Activity.antt` and
//! `Open.antt` which runs an entry lets get one.
#![tactic(auto)]

mod active;
mod advance;
mod children;
mod follow;
mod known;
mod labelled_cache;
mod marking;
mod run_cache;
mod step;

pub use run_cache::RunCache;
