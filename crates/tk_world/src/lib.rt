//! The whole system in one place: a store, controllers and nodes with their caches, and hosts that play scripts. It takes
//! the events of a scenario one at a time, and each is a step of the machine of `tk_machine`, so that the machine's laws
//! hold of it. Fair rounds then close every run that isn't pending.
//!
//! `node.rt` has a kubelet with its cache and host, `making.rt` new ones, `moves.rt` how caches move, `looking.rt`
//! whether something is open, `world.rt` events, rounds and their ends, `stepped.rt` what an event answers.
//! `specs/Whole.antt` says what the machine has of it and what stands between calls, `Goes.antt` what calls come to; in
//! `proofs/`, `Moved`, `Worked`, `Asked`, `Played` and `Restarted` have one kind of event each, `Steps` events one
//! after the other.
#![tactic(auto)]

mod looking;
mod making;
mod moves;
mod node;
mod stepped;
mod world;

pub use looking::is_open;
pub use moves::deliver_all;
pub use stepped::Stepped;
pub use world::World;
