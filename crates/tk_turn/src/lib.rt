//! A lock whose holders take turns, in the order in which they asked. The locked state keeps a journal, and each entry has
//! an owner. A `Pass` says what its thread has seen of the journal and which owners' entries it alone writes. `take` hands
//! out a state whose journal begins with all that the pass has seen, and what follows is of other owners. `give` asks that
//! the holder only added entries of its own. `split` lends a number to a new pass, `join` takes a pass back, and `close`
//! gives the state back. Nothing is said of when a turn comes, or that it does.
//!
//! It stands on `atomic_table` alone. `journaled.rt` says what a locked state tells of itself, `pass.rt` and `held.rt`
//! are what a thread has out of its turn and in it, `lock.rt` has the calls, `table.rt` the steps on the lock's table
//! (they have no values), `laws.rt` the laws. The table has three words (tickets drawn, tickets served, the journal's
//! length) and one slot for the state. `specs/Claims.antt` has what contracts say of a pass: what it has seen and what
//! it owns, when a journal follows it (`Follows`) and when it goes on with entries of its own (`Continues`).
//! `Views.antt` says what a seat of the table knows, `Turns.antt` what every step keeps and tells, `Rule.antt` the rule
//! in the lock's own words, which a law draws from it. In `proofs/`, `Numbers` counts seats and numbers, `Seats` has
//! what the rule says of one seat, `Steps` each step on a word, `Shares` splits, joins and the end, `Implied` the rule,
//! `Calls` the same steps as the calls take them.
//!
//! ```text
//! let Ok((lock, mut pass)) = TurnLock::new(alloc, state) else { .. };  // the pass owns every number; an error has the state
//! let mine = lock.split(&mut pass, 1);                             // a pass for a thread, which alone writes entries of number 1
//! let mut held = lock.take(rt, mine);                              // waits for its turn
//! held.state().add(1, value);                                      // what it adds is of its own number
//! let mine = lock.give(held);
//! lock.join(&mut pass, mine);
//! let state = lock.close(pass);                                    // with all that was seen
//! ```
#![tactic(auto)]

pub mod held;
pub mod journaled;
pub mod laws;
pub mod lock;
pub mod pass;
mod table;

pub use held::Held;
pub use journaled::Journaled;
pub use lock::{NewError, TurnLock};
pub use pass::Pass;
