//! Runs with all that they refer to, or why they can't start: Tasks and Pipelines are looked up once among the earlier
//! objects, parameters take their values, bodies get what they see from outside and their workspaces, and timeouts
//! become those that hold. A run that can't start has the first reason that holds, and no tasks.
//!
//! `resolver.rt` has `Resolver`, to which objects are added and which resolves the next: what was found of a run is found
//! of the next that is given values of the same shapes and the same workspaces (`again.rt`, over `known_run.rt`, `alike.rt`
//! and `same.rt`; `specs/Known.antt`). `lookup.rt` has `Earlier`, the Tasks and Pipelines that stand earlier by their names.
//! `values.rt`, `spaces.rt` and `timeouts.rt` give parameters, workspaces and timeouts, `bodies.rt` the bodies of
//! tasks, `admission.rt` what texts see at admission. `due.rt` lists the texts with what is due where each stands,
//! `uses.rt` asks a question (`questions.rt`, `misuse.rt`) of all their references, but for texts that the question
//! passes over. `asks.rt` makes of texts fewer that ask the same (`specs/Asks.antt`): each reference by its spelling,
//! once unless something stricter was due before; `known_task.rt` keeps these beside a Task, found once when it is
//! added, and `body_asks.rt` has what a body asks, by its Task or by its own texts. `settled.rt` and `beside.rt` judge
//! the combinations that are known, one at a time and by their shapes, so that no value is put together to be asked
//! about (`specs/Shapes.antt`; `proofs/ByShapes.antt` shows that the values would say the same); `run_reason.rt` goes
//! over the reasons. `specs/Run.antt` and `TaskRun.antt` are the definitions, with the reasons in their order.
#![tactic(auto)]

mod admission;
mod again;
mod alike;
mod asks;
mod beside;
mod bodies;
mod body_asks;
mod due;
mod known_run;
mod known_task;
pub mod laws;
mod lookup;
mod misuse;
mod questions;
mod reason;
mod resolver;
mod run;
mod run_reason;
mod same;
mod settled;
mod spaces;
mod spec;
mod task_run;
mod task_run_spec;
mod timeouts;
mod uses;
mod values;

pub use resolver::Resolver;
