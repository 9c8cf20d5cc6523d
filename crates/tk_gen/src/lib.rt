//! Large manifests from a number: a List of one PipelineRun whose pipeline has as many tasks as are wanted, each drawn by a
//! linear congruential generator that begins with the number. The same number and size always give the same text, byte
//! for byte, so a large input is told by two numbers. Tasks follow earlier ones alone, so there is no cycle.
//!
//! `draw.rt` has the draws, `task.rt` what is drawn for a task, and its text, `generating.rt` the List, written behind
//! one another into one text. `specs/Generate.antt` is the definition; in `proofs/`, `Joined.antt` has the text of
//! tasks one behind the other, `Drawn.antt` what the law says of them.
#![tactic(auto)]

mod draw;
mod generating;
pub mod laws;
mod task;

pub use generating::generate;
