//! A kubelet: it claims pods, arms and watches their steps on its host, and ends them. A turn settles the pods that are
//! marked or late, runs the steps of the others, and then tries the first entry that its cache justifies: the end of a pod
//! before the claim of one, each in order of creation. `specs/Turn.antt` says what each answer tells, and
//! `specs/Ends.antt` how a pod ends. The three conditions of a turn hold again behind it.
//!
//! `choose.rt` finds the pod that it ends first, or claims first, among those that its cache marks, `ending.rt`,
//! `lost.rt` and `claim.rt` try the entry, `turning.rt` is the turn, `kubelet.rt` the type and its calls.
//! `specs/Turn.antt` says what a turn comes to, `Ends.antt` how pods end, `Choice.antt` which entry is tried,
//! `Seat.antt` what a host tells before and after.
#![tactic(auto)]

mod choose;
mod claim;
mod ending;
mod kubelet;
pub mod laws;
mod lost;
mod trying;
mod turning;

pub use kubelet::{Kubelet, KubeletTurn};
