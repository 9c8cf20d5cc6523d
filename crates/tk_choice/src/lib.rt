//! How a worker finds what it does, and does it: the first act that one of its objects gives rise to, tried at the
//! fronts of the worker's cache.
//!
//! `attempt.rt` tries an act at a cache's fronts; `specs/Took.antt` says what a turn comes to, by its computed choice
//! and by the journal's relation, `First.antt` what the first of several acts is.
#![tactic(auto)]

mod attempt;

pub use attempt::try_act;
