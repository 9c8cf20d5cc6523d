//! The combinations of a matrix: how many there are, one of them by its index, and all of them in order. Each is
//! exactly what its definition gives: a text of each list, the first parameter varying fastest, extended by the
//! include entries that agree with it, and then the entries that agree with none.
//!
//! `size.rt` counts without memory, `listing.rt` gives one combination or all, with `indexmap` to keep named values in
//! place.
//!
//! ```text
//! let number = count(&matrix)?;               // or TooLarge, which tells how many there are
//! for index in 0..number {
//!     let params = combination(alloc, &matrix, index)?;
//! }
//! let every = all(alloc, &matrix)?;           // the same, all at once
//! ```
//!
//! `count` and both others ask that the matrix has lists (`HasLists`), `combination` an index below the count, and `all` that
//! the count isn't too large.
#![tactic(auto)]

mod choice;
mod include;
pub mod laws;
mod listing;
mod product;
mod size;

pub use listing::{all, combination};
pub use size::{TooLarge, count};
