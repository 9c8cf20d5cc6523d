//! Names that are taken: whether names are new among them, and what is taken once they are added. A name is found by an
//! index, so many names are looked up in time near their length.
//!
//! `taken.rt` has the names, `specs/Taken.antt` what it is to be new.
//!
//! ```text
//! let mut taken = TakenNames::new(alloc);
//! taken.are_new(alloc, names)?                     // true where they differ and none of them is taken
//! taken.add(alloc, names)?;                        // asks that they are new
//! ```
#![tactic(auto)]

mod taken;

pub use taken::TakenNames;
