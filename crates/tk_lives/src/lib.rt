//! What a call takes over from a history that was written before it: in which lives its kubelets begin, which pods were
//! claimed before, which Admit entries are left to add, and why it doesn't go on from a history at all.
//!
//! A kubelet begins in the life behind the greatest one that stands for its number, so no pod is claimed by it in that life,
//! and what it claims from then on was claimed by nobody before the call (`laws`).
//!
//! `lives.rt` has lives, `differing.rt` the first difference of Admit entries, by their texts, `strange.rt` the pods of
//! kubelets that a bench lacks, `finding.rt` puts them together to an `Unfit`. `specs/Lives.antt` and `Taking.antt` have the
//! definitions, `Laws.antt` the laws.
//!
//! ```text
//! match find_unfit(alloc, store.journal(), given.entries.as_slice(), nodes)? {
//!     Some(Unfit::Differs { position }) => ..,    // the file is another input's
//!     Some(Unfit::Nodes { number }) => ..,        // it needs a kubelet of this number
//!     None => ..,                                 // kubelet i begins in life greatest_life(store.journal(), i) + 1
//! }
//! ```
#![tactic(auto)]

mod differing;
mod finding;
pub mod laws;
mod lives;
mod strange;
mod unfit;

pub use differing::first_difference;
pub use finding::find_unfit;
pub use lives::{greatest_life, spent_node};
pub use strange::strange_node;
pub use unfit::Unfit;
