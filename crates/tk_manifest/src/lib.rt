//! The objects of an input, or what is wrong with it first. `read_objects` gives exactly the objects that the bytes of
//! an input say, in order, each with its place, or the first fault of reading them.
//!
//! An input is one object or a List of objects, as `kubectl` prints them. Each shape of value, as a step or a pipeline
//! task, has a check, which finds what is wrong first with it, and a value, which is what it says; both are definitions
//! of a few lines, and its reader gives exactly these. Of an object its version and kind go first, then its keys, then
//! its fields in the order of their table, each whole before the next, and then the choices between two fields.
//!
//! `document.rt` has the bytes with the JSON that they are, parsed once, `input.rt` the whole input, a List and its
//! items, `item.rt` what all objects share (version and kind first, then keys, metadata, spec), `kinds.rt` the kinds.
//! `task.rt`, `pipeline.rt`, `run.rt`, `parameter.rt`, `workspace.rt` and `outcomes.rt` are the shapes, `names.rt` the
//! rules of texts. Each shape has a check and a value in `specs/`, which read like its table.
#![tactic(auto)]

mod document;
mod input;
mod item;
mod kinds;
pub mod laws;
mod names;
mod outcomes;
mod parameter;
mod pipeline;
mod run;
mod task;
mod workspace;

pub use document::Document;
pub use input::read_objects;
pub use kinds::KindSet;
