//! What is known of a run's tasks before any child ended: the words that their texts see, whether a matrix is settled,
//! which is where none of its values refers to a result, and how many children a task may have at most.
//!
//! `words.rt` has the words that texts see, `settled.rt` whether a matrix refers to a result, `possible.rt` how many
//! children a task may have. `specs/Words.antt`, `Settled.antt` and `Possible.antt` are the definitions.
#![tactic(auto)]

pub mod laws;
mod possible;
mod settled;
mod words;

pub use possible::RunValues;
pub use settled::{ToResult, is_settled};
pub use words::{RunWords, run_words, task_words};
