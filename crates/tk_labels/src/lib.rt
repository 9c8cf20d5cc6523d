//! The labels of a run, kept from change to change: a stop is recorded, a task gets children, a child ends. They are those
//! that `tk_verdict` gives the facts as they stand then. The laws say which labels a change can touch.
//!
//! `change.rt` has the changes, `labels.rt` `Labels` with its calls; a contract sees it as the facts of the run.
//! `kids.rt` puts a change into the children, `labels.rt` takes it back where memory is wanting. `spans.rt` finds the
//! children of a task, which stand side by side. `relabel.rt` makes all labels after a change of one task's children:
//! it judges that task by `judge.rt`, and where those behind it see something else of it than before, `walk.rt` goes
//! over `tasks` by rank and judges each of which a parent shows something else; the others keep their labels. `anew.rt`
//! makes all labels from the facts, `ready.rt` keeps with them the first task that is Ready and whether all are done.
//! `specs/Change.antt` says what a change makes of the facts, `Kept.antt` what it asks and what `Labels` keeps,
//! `Spans.antt` where children stand, `Local.antt` what a task shows to those behind it, `Reached.antt` what a change
//! leaves as it was. The laws of `locality.rt`, `cases.rt`, `walking.rt` and `formed.rt` say on what a label depends.
//! In `proofs/`, `SameFaces.antt`, `SameFinals.antt`, `WithStop.antt`, `Shown.antt` and `Local.antt` have the laws of
//! locality, `FewResults.antt` that the results of parents suffice, `Changes.antt` what a change does to well-formed
//! facts, `KeptAfter.antt` what each change leaves, `Walks.antt` the walk, `Relabelled.antt` `finally`.
#![tactic(auto)]

mod anew;
pub mod cases;
mod change;
pub mod formed;
mod judge;
mod kids;
mod labels;
pub mod locality;
mod ready;
mod relabel;
mod spans;
mod walk;
pub mod walking;

pub use change::Change;
pub use labels::Labels;
