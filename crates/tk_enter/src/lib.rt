//! The program of an entrypoint as a call: it waits for its file, runs its command, and leaves the files that tell how that went.
//! Its words have one reading, each of its statuses comes as `specs/Enter.antt` says, and behind it no command runs on.
//!
//! `words.rt` has the words, as they are read and as they are spelled, `entering.rt` the call, `parent.rt` the process that
//! started the program, and `laws.rt` that a status tells how the program ended. `specs/Words.antt` has the form of the words,
//! `Enter.antt` what each status says, `Going.antt` what holds between two turns.
#![tactic(auto)]

mod entering;
pub mod laws;
mod parent;
mod words;

pub use entering::{Clocks, Ended, enter};
pub use parent::Parent;
pub use words::{EntryWords, PARENT, read_words};
