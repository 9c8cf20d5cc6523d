//! The journal that an input comes to on a bench: its runs are admitted, the members of the bench take turns over one
//! store in rounds, and the rounds go on until every run is closed or pending. `specs/Run.antt` says what stands then,
//! whatever gates answered and whatever hosts did.
//!
//! `beginning.rt` lets members begin, `asks.rt` has what is asked and tries it at its time, `going.rt` takes rounds
//! until nothing is open, of the nodes alone while nothing is written, `killing.rt` kills what runs, `running.rt` puts
//! them together; `specs/Run.antt` says what the journal is, `Asks.antt` what is asked in it, `Begun.antt` and
//! `Going.antt` how a bench stands before and between rounds; in `proofs/`, `Starting` has the start, `Onward` rounds
//! behind rounds, `Asked` and `Refused` asks, `Members` that members ask nothing, `Lives` and `Killed` that all is
//! killed, `Came` the end.
#![tactic(auto)]

mod asks;
mod beginning;
mod going;
mod killing;
mod running;

pub use asks::AskWord;
pub use running::{Ran, run};
