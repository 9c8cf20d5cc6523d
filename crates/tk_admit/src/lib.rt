//! Admission of a whole input. `admit` gives the entries by which its runs are taken in, with the weight that bounds
//! their journal, or the first fault: of reading, of one object by itself, of an object beside those before it, of the
//! names of TaskRuns, of the weight, and of what a command asks of its input. `specs/Admit.antt` is the whole of it over
//! the definitions below; the facts of a run and its Outcomes that it gives are well-formed.
//!
//! `admission.rt` goes over its parts in the order of `specs/Admit.antt`: `objects.rt` takes the objects one after the
//! other, with those before them: `taken.rt` resolves a run, `matrices.rt` looks at its matrices, `weight.rt` weighs it, and
//! `intake.rt` has what it finds so of a Pipeline without a matrix once for all its runs (`measure.rt`). `clashes.rt`
//! gathers the names of all TaskRuns that may arise, with the places of their objects, where `apart.rt` can't tell from the
//! runs' own names that none clash, `command.rt` asks what `decide` and a Scenario need, `facts.rt` puts a run and its
//! Outcomes together, `entries.rt` makes the entries. `child_set.rt` and `task_places.rt` are the indexes of children and of
//! tasks, each seen as what it holds. `specs/Taken.antt`, `Objects.antt`, `Names.antt`, `Weight.antt` and
//! `Command.antt` are the definitions, one for each part; `specs/Apart.antt` says when no names can clash,
//! `specs/Measure.antt` what is found of a Pipeline's runs, `specs/Sound.antt` what is known of a run once it is taken in, and `laws.rt` why it is.
#![tactic(auto)]

mod admission;
mod apart;
mod child_set;
mod clashes;
mod command;
mod entries;
mod facts;
mod intake;
pub mod laws;
mod matrices;
mod measure;
mod objects;
mod taken;
mod task_places;
mod weight;

pub use admission::admit;
pub use taken::Taken;
