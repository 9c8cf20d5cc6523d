//! The commands of the program. `tkn` carries out its words over any source, any sink and any bench, and its clauses say
//! what a caller sees; `plain` does so for those that run nothing. What is due for the bytes of an input is defined in
//! `specs/Due.antt`, over what `tk_admit` admits of them: the line of the first fault, the number of objects, or the lines
//! of a run that is decided; what `simulate` answers is defined in `specs/Answer.antt`, over the journal that `tk_simulate`
//! plays; what `run` comes to in `specs/Run.antt`, over the journal that `tk_run` brings about.
//!
//! `answer.rt` has what is due for the bytes, `due.rt` its lines, `command.rt` the words, `input.rt` and `output.rt`
//! read and write all, `carrying.rt` puts them together; `run_line.rt` has the words of `run`, `top.rt` what it
//! answers, `generate_words.rt` and `generate.rt` the same of `generate`, and `unready.rt` finds what is admitted and
//! can't start.
#![tactic(auto)]

mod answer;
mod carrying;
mod command;
mod due;
mod generate;
mod generate_words;
mod input;
mod output;
mod printing;
mod run_line;
mod top;
mod unready;

pub use carrying::{Ended, plain};
pub use command::Command;
pub use due::Due;
pub use generate_words::Generation;
pub use run_line::{RunOptions, run_words};
pub use top::tkn;
