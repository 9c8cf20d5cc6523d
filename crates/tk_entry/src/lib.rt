//! The entrypoint of one step: it waits for the file of the step before it, starts its order, and leaves a file of its
//! own that says how that ended. Each answer comes exactly as `specs/Entry.antt` says. A fault of the host comes where
//! a call on it failed in that turn, and from then on nothing more is done. Want of memory is the only other answer.
//!
//! `entry.rt` has the entrypoint of one step, an armed entry and whether its host failed.
#![tactic(auto)]

mod entry;

pub use entry::{EntryPoint, Turn};
