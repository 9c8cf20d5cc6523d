//! The decision of a run, from its spec, its recorded stops and its children: the label of each task, the run's
//! condition, its results, and the bindings of the children that a task is to get. A labelling is right where each task
//! has the label that the others' give it, and an acyclic run has exactly one. `Decision` answers all of it for one run;
//! `verdicts`, `condition`, `pipeline_results` and `ready` answer one question each. The laws say that there is one
//! labelling, what stays when the facts of a run move on, and that a run goes on until all is done.
//!
//! First what is gathered once: `groups.rt` has the children of each task, `sorted.rt` orders them, `available.rt`
//! gives the results that references may take, `good.rt` which tasks are good. Then what a task's own texts give:
//! `tk_early` and `status.rt` have its variables, `guards.rt`, `combined.rt` and `own.rt` its expressions and
//! combinations and why they skip it, `parents.rt` and `missing.rt` what is asked of parents and of results. `judge.rt`
//! gives the label that children give, `tasks.rt` and `finals.rt` the label of a task of `tasks` and of `finally`,
//! `walk.rt` goes over `tasks` by rank, `labels.rt` puts `finally` behind. `finished.rt` has the rows of the condition,
//! `emit.rt` the pipeline's results, `bindings.rt` the bindings of a task that is ready; `calls.rt` has ranks and
//! children of a run, and `decision.rt` the calls, over a `Decision` that has all of it for one run; `judging.rt` lists
//! what judges one task, for crates above. `specs/Labels.antt`, `Rows.antt`, `Bindings.antt`, `Available.antt`,
//! `Words.antt` and `Condition.antt` are the definitions, `Gives.antt`, `Moves.antt` and `Progress.antt` what the laws
//! of `moves.rt`, `giving.rt` and `progress.rt` speak of. `proofs/OneLabelling.antt` has the law of one labelling once,
//! for any line that looks at the labels of parents and, in `finally`, at all labels of `tasks`. The laws of steps rest
//! on `proofs/GoodStays.antt`: a good parent has the same children after each step and stays good; with children since
//! all ended and only a task that is ready gets more, without since its guard skips it and its own parents are good.
//! Texts see results of parents alone, so what they give stays.
//!
//! ```text
//! let decision = Decision::new(alloc, &facts)?;                    // asks that the facts are well formed
//! let labels = decision.labels(alloc)?;
//! match decision.condition_with(alloc, labels.as_slice())? {
//!     Some(condition) => ..,                                       // the run is finished; `results` gives its results
//!     None => ..,                                                  // it goes on; `ready_with` has the bindings of a task
//! }
//! ```
#![tactic(auto)]

mod available;
mod bindings;
mod calls;
mod children;
mod combined;
mod decision;
mod emit;
mod emitted;
mod finals;
mod finished;
pub mod giving;
mod good;
mod groups;
mod guards;
mod judge;
pub mod judging;
mod label;
mod labels;
pub mod laws;
mod missing;
pub mod moves;
mod outcome;
mod own;
mod parents;
pub mod progress;
mod sequence;
mod sorted;
mod status;
mod tasks;
mod walk;

pub use decision::{Decision, condition, pipeline_results, ready, verdicts};
pub use finished::condition_with;
