//! A host whose armed entries are processes of their own: it starts the program of an entrypoint for each, through the host
//! below it, and reads the files by which that tells how it goes. All else it hands on to the host below. A process and its
//! command are a session of their own where the machine has `setsid`, and are told the number of the process that started them.
//! What a step's files say is told only where the history allows it, so no step starts before the one before it passed.
//!
//! `process_host.rt` has the host, `starter.rt` how a process is started, `process.rt` the process of an entry with its files,
//! `looks.rt` what those say, `exit.rt` the exit that a file tells, `ends.rt` how a process ends, `before.rt` how it went with the
//! step before, and `teller.rt` who is told what the history doesn't explain. `specs/Processes.antt` has the words and files of a
//! process, `Before.antt` when a refusal is explained.
#![tactic(auto)]

mod before;
mod ends;
mod exit;
mod looks;
mod process;
mod process_host;
mod starter;
mod teller;

pub use process_host::ProcessHost;
pub use teller::{Teller, Unexplained};
