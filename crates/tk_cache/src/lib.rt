//! Caches: the objects of a journal as they stood at a front, which each kind has of its own. A cache moves its fronts by
//! the entries that it is told of, and changes its objects in place.
//!
//! `objects.rt` has the objects of one kind by their names, in order of creation, and lets one entry change them in
//! place; `advance.rt` goes from one position to a later one, `front.rt` finds the position that a delivery reaches,
//! `cache.rt` has the three fronts, `reads.rt` what is read. Beside the TaskRuns stand the runs as they are at that
//! front, since a child takes what its run had one entry earlier, and the names of each run's TaskRuns.
//! `specs/Views.antt` says what is seen, `Fronts.antt` how fronts move and when what is seen is a journal's,
//! `Written.antt` what one entry changes, `Children.antt` which TaskRuns are a run's.
#![tactic(auto)]

mod advance;
mod cache;
mod front;
pub mod laws;
mod objects;
mod reads;

pub use cache::Cache;
pub use front::{front_of, is_of, next_front};
