//! Rounds of a bench in threads: each controller and each node takes its turns in a thread of its own, behind the turn lock.
//!
//! `leader.rt` and `worker.rt` have a controller and a node as actors of the lock, `going.rt` when they go on, `seating.rt`
//! how they take their seats and leave them, `threaded.rt` the round. `specs/Timely.antt` says what holds of the journal
//! that the lock sees as notes, `Seats.antt` what stands of a member over it, `Seating.antt` who sits where. In `proofs/`,
//! `Noting.antt` goes from entries to notes and back, `Owners.antt` says who owns which entries, `Seated.antt` has the
//! moves of members, `Rounded.antt` what a round leaves of one kind of them, `Benched.antt` of controllers and of nodes.
#![tactic(auto)]

mod going;
mod leader;
mod seating;
mod threaded;
mod worker;

pub use threaded::round;
