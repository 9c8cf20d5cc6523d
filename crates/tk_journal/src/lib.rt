//! The journal of a store. Each entry says who wrote what, when, and how far that actor had seen the entries before it;
//! the objects are what the entries leave. A journal is legal where each entry is justified by what its actor had seen
//! and goes through at the end. The laws say that a legal journal is right at each of its positions, that it can go on
//! while something is open, and that it has at most as many entries as its weight.
//!
//! `act.rt`, `entry.rt`, `object.rt` and `admitted.rt` have the types, `journal.rt` the list of entries with its room,
//! `run_effects.rt`, `task_run_effects.rt` and `pod_effects.rt` what an entry does to an object, in place, `objects.rt`
//! the objects at a position, `laws.rt` the laws. Of `specs/`, `Effects.antt` says what an entry does, `History.antt`
//! what stands at a position and what an actor sees there (a view), `RunRows.antt`, `TaskRunRows.antt`, `PodRows.antt`
//! and `AskRows.antt` when an entry is justified (`Rows.antt` puts them together), `Legal.antt` when a journal is
//! legal, `Right.antt` when it is right and what more lasts, `Sound.antt` what admission sees to, `Plan.antt` the plan
//! of a pod, `Names.antt` the names of children, `Weight.antt` the bound on entries, `Made.antt` what an entry makes
//! and changes, `Choice.antt` which entry a worker writes first, `Progress.antt`, `Grows.antt`, `Folders.antt` and
//! `Laws.antt` what the laws say. In `proofs/`, `Labels.antt` has the laws of labels as a history takes them,
//! `Lasting.antt`, `RunLasts.antt` and `TaskRunLasts.antt` one step of the induction, `Induction.antt` the induction,
//! `Stuck.antt`, `Weighed.antt` and `Folders.antt` the other laws, `RowOne.antt` a worked run from admission to its
//! end, `PlanExamples.antt` plans of pods.
//!
//! ```text
//! let mut journal = Journal::with_room(alloc, room)?;
//! journal.push(Entry { actor, fronts, moment, act })?;             // takes no memory while there is room
//! let entry = journal.entry(1);                                    // positions begin with 1
//! let run = journal.run_at(alloc, "build-00001", journal.len())?;  // as all entries so far leave it
//! ```
//!
//! That an entry is justified is no matter of `push`: `tk_store` asks it, and the laws speak of journals in which each is.
#![tactic(auto)]

mod act;
mod admitted;
mod copies;
mod entry;
mod journal;
pub mod laws;
mod object;
mod objects;
mod pod_effects;
mod run_effects;
mod task_run_effects;
mod written;

pub use act::{Act, Admission, Closing, Skip};
pub use admitted::Admitted;
pub use entry::{Actor, Entry, Fronts};
pub use journal::Journal;
pub use object::{
    Attempt, Claim, EndedPod, Ending, Object, Plan, PodState, RunState, Scheduled, TaskRunState,
};
