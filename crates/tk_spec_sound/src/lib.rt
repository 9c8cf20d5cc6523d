//! Whether what an entry admits is sound: it keeps the rules that admission sees to, whoever wrote the entry. Nothing is
//! required of it, since it may come from a file, and the answer is exact: true where it is sound, and false where it
//! isn't. The only error is want of memory, and the time is near linear in the size of the spec.
//!
//! `admission.rt` has the call. `run.rt` goes over a PipelineRun: first sizes, timeouts and what is asked of it, then its
//! tasks among each other (`names.rt`, `graph.rt`), then each task (`task.rt`), each body (`steps.rt`) and each result.
//! `task_run.rt` goes over a standalone TaskRun. `texts.rt` has which texts have readings, `children.rt` how many
//! children a task may have, which asks that the texts of its matrix have readings, `limits.rt` the numbers. `laws.rt`
//! says that the names of what is sound can be made. `specs/Parts.antt` has the rules part by part, and
//! `proofs/Together.antt` that these are `IsSoundRun` and `IsSoundTaskRun` of `tk_journal`.
//!
//! ```text
//! is_sound(alloc, name, &asked, &admission)?       // true where it keeps the rules
//! ```
#![tactic(auto)]

mod admission;
mod children;
mod graph;
pub mod laws;
mod limits;
mod names;
mod run;
mod steps;
mod task;
mod task_run;
mod texts;

pub use admission::is_sound;
