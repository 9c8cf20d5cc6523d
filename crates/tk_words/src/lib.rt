//! The words of the command line of `tkn`. A grammar reads them first, and alone decides that they are refused. The words that it
//! takes are then put in order, and read by a `clap` command with one level of subcommands: its only refusal is want of
//! memory, and its matches are the line.
//!
//! `scan.rt` reads them by the grammar (`specs/Line.antt`), `ordered.rt` puts those of a line in order, `command.rt` is
//! the command of `clap` (`specs/Command.antt`), `matched.rt` says what its matches are, and `by_clap.rt` joins them.
//! `proofs/Walks.antt` and `Meant.antt` show that the matches are the line, `Plain.antt` what the lines of single
//! commands say.
#![tactic(auto)]

mod by_clap;
mod command;
pub mod laws;
mod line;
mod matched;
mod ordered;
mod reading;
mod scan;

pub use line::{Line, Name};
pub use reading::read;
