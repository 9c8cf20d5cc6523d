//! What reading gives of the objects of an input: `laws::objects_are_read` says of each of them that its name, and those
//! of its parameters and pipeline tasks, keep their rules, that each Task has a step and each matrix an entry, that no
//! timeout is longer than a year, and that a run is asked for nothing but a stop.
//!
//! The laws speak in the definitions of `tk_manifest` (`specs/Read.antt`); their proofs go from fields
//! (`proofs/Fields.antt`) to Tasks, pipelines, runs and whole inputs.
#![tactic(auto)]

pub mod laws;
