//! Rounds of actors that take turns with one state behind a turn lock, each in a thread of its own. Each writes its entries under
//! a number of its own. `round` cuts off a pass for each actor, lets each take up to 64 turns, and takes the passes back: then
//! the first pass owns every number again, and what stood of each actor stands over the whole journal, whatever the others wrote
//! between its turns. Nothing is said of the order in which turns come.
//!
//! `actor.rt` has what an actor is: its number, when it is ready, what stands of it, and that entries of others leave
//! both; it is asked for a turn before its pass waits, and takes it with the state in hand. `turns.rt` has the turns,
//! in threads; `handing.rt` and `back.rt` cut passes off and take them back; `rounds.rt` puts them together.
//! `specs/Notes.antt` says what an actor adds to a journal, `Standing.antt` what stands of members; in `proofs/`,
//! `Standing` has one actor's turns, `Owning` who owns which number, `Around` a whole round.
#![tactic(auto)]

mod actor;
mod back;
mod handing;
mod rounds;
mod turns;

pub use actor::{Actor, Member};
pub use rounds::round;
