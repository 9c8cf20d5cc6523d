//! Names under the name that they belong to, each group in the order in which its names came.
//!
//! A map of lists has them; `specs/Groups.antt` says which names a group has.
#![tactic(auto)]

mod groups;

pub use groups::Groups;
