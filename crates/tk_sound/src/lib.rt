//! What is admitted is a legal journal. `laws::admitted_is_legal` says it of the entries that admission gives for an input
//! without a fault, and `laws::admitted_is_sound` says of each of them that what it admits keeps the rules that the
//! journal asks of every admitted run and TaskRun: sizes, names, readings, timeouts, and that the parameters of a
//! standalone TaskRun that can start fit its body.
//!
//! `specs/Laws.antt` says what the laws say. In `proofs/`, `Kept` has what reading and the rules on one object give
//! together, `Words` which words the steps of a Task see; `Resolved` what resolving keeps of both; `Bound`, `Stars`,
//! `Values`, `Steps` and `Fitting` that the parameters of a TaskRun that can start fit its body; `SoundRuns` that each
//! run is sound; `Legal` that the entries follow one another; `Input` puts them together; `Told` has the root and the
//! weight.
#![tactic(auto)]

pub mod laws;
