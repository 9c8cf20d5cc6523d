//! All pods that a kubelet holds. What its cache shows tells which are settled: those that are marked, or whose attempt is
//! late. `run_pods` kills what runs of these, arms every step of the others and watches each armed step once; its clauses
//! say what that may add to the host's history, which children were watched or killed, and on how many pods a call failed.
//! The conditions of a kubelet's turn (`specs/Conditions.antt`) tie the held pods, the journal and the host to each other;
//! `laws` says that they hold at the start, behind `run_pods`, and behind the entries of all others.
//!
//! `judging.rt` says which are settled (marked or late, by what is seen), `phases.rt` goes over all of them for each
//! phase of a turn, `running.rt` puts the phases together, `kills.rt` kills all. `specs/Conditions.antt` has the three
//! conditions of a kubelet's turn, `Pods.antt`, `Settling.antt`, `Watched.antt`, `Played.antt` and `Placed.antt` what
//! the phases come to, `Laws.antt` that the conditions hold again.
#![tactic(auto)]

mod judging;
mod kills;
pub mod laws;
mod phases;
mod running;

pub use judging::{Settled, judge};
pub use kills::kill_pods;
pub use running::{Ran, count_failed, run_pods};
