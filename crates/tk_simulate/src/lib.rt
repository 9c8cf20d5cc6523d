//! `simulate`: an input's Scenario, played by a world until all that isn't pending is closed. `specs/Played.antt` says
//! what the journal is then; the laws say what that means.
//!
//! `scripts.rt` makes scripts of a Scenario's outcomes, `starting.rt` the world before the first event, `playing.rt`
//! plays it. `specs/Played.antt` says what the journal is, `Ends.antt` and `Runs.antt` what the laws say; in `proofs/`,
//! `Added` has what one event adds, `Opened` runs as events, `Given` what admission gives, `Begun` the rest.
#![tactic(auto)]

pub mod laws;
mod playing;
mod scripts;
mod starting;

pub use playing::simulate;
pub use starting::{Started, start};
