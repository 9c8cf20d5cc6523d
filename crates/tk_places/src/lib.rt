//! Sets of places in a list that grows, in ascending order.
//!
//! The standard library's ordered sets have them. `specs/Places.antt` says which places are in one, and what a set says
//! of a list of names; `proofs/Marked.antt` has what stays so when one name is judged anew.
#![tactic(auto)]

mod places;

pub use places::Places;
