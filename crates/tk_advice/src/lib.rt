//! What is said to people beside a status: of words that are no command, how the commands are called; of an input at fault,
//! what is wrong and what to do; of an object that is admitted and can't start, why; and of a status that tells no more. It
//! promises for which status something is said, and which status comes of words that can't be had; of the others nothing but to
//! return. Tests show each sentence (`tk_program_tests`).
//!
//! `sentences.rt` has a sentence for each of the 22 faults, `input.rt` chooses among them and those of `choices.rt`, which go
//! by what stands at the place; `bytes.rt` tells what bytes look like that are no JSON, `clashes.rt` which name two TaskRuns may
//! both have, `weights.rt` which run weighs most. `start_warnings.rt` says why what is admitted can't start, `culprits.rt` which
//! Task, parameter, result or workspace it is, and `beside.rt` what is said beside a report. `words.rt` tells what is wrong with
//! words that are no command, `ends.rt` what is said of a status, and `objects.rt` finds objects and places in a JSON value.
#![tactic(auto)]

mod beside;
mod bytes;
mod choices;
mod clashes;
mod culprits;
mod ends;
mod input;
mod objects;
mod sentences;
mod start_warnings;
mod weights;
mod words;

pub use beside::remarks;
pub use ends::{message, unread_words};
pub use input::advice;
pub use start_warnings::{Unready, warnings};
pub use words::{BadWords, USAGE, complaint, help, of_all};
