//! The order of the steps in an attempt. `PodWalk` is told the exit of each step that ended, and says which step is
//! next or how the walk ended: Broke at the first step that doesn't pass, Well once every step has passed. A step
//! passes with exit 0, or with any where it continues on error. Nothing here takes memory.
//!
//! `walk.rt` has the walk of an attempt's exits, which a contract sees as the steps, the bits of those that continue on
//! error, and the exits so far. `specs/Exits.antt` says when a step passes, `Walk.antt` when the walk is over and how.
#![tactic(auto)]

mod walk;

pub use walk::{PodWalk, Walked};
