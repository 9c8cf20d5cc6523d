//! What it is for a written journal to be audited at each position, and what that says: an audited history is legal and right; a
//! legal one whose moments are a clock's is audited. No function decides it yet.
//!
//! `audited.rt` and `why.rt` have the answer of an audit, `laws.rt` the laws. `specs/Audit.antt` says what each reason asks of an
//! entry, `Answer.antt` what an audit answers, `Laws.antt` what the laws say. In `proofs/`, `Names` has lists of names that differ,
//! `Steps` that the reasons ask of an entry what legality does, `Lawful` the laws, `Reasons` the first reason by what the entry met
//! before it, `Worked` a history whose fifth entry is written twice.
#![tactic(auto)]

mod audited;
pub mod laws;
mod why;

pub use audited::Audited;
pub use why::Why;
