//! The rules on one object of an input: what is wrong with it first, by rules in a fixed order, each at its places in
//! reading order. `validate` goes over them; the rules and their order stand in `specs/Validate.antt`, each rule in a
//! file of its own, and each has a call of its own that is exact by it. What `validate` passes has a reading in each of
//! its texts (law `valid_reads`); the tasks of its own pipeline are few, have names that differ, and wait for tasks that
//! there are, in an order (law `valid_pipeline`).
//!
//! Each rule of `src/rules/` has its definition in the file of its name in `specs/`. A rule is a type that says for each
//! kind of part what is wrong with it; `parts.rt` goes over the parts of an object, its own pipeline and Task, inlined
//! specs and the tasks of both lists, `rule.rt` over lists of parts at their indexes, and `sited.rt` makes each rule on
//! texts a rule on what holds them. What texts see stands in `src/seen/`: `outside.rt` and `task_seen.rt`, in up to three
//! layers (`layers.rt`: a Task's own, its pipeline task's, the pipeline's), with the context variables in `context.rt`,
//! made once for all tasks of a pipeline; `scope.rt` says it as `Names` of `tk_bind`, and `text_rule.rt` asks it of texts.
#![tactic(auto)]

pub mod laws;
mod named;
mod parts;
mod rule;
mod rules;
mod seen;
mod sited;
mod validating;

pub use rule::{Checked, Rule, check_all, check_each, check_there};
pub use rules::conflicts::check_conflicts;
pub use rules::cycle::check_cycles;
pub use rules::finally::check_finally;
pub use rules::names::check_names;
pub use rules::sizes::check_sizes;
pub use rules::texts::check_texts;
pub use rules::timeouts::check_timeouts;
pub use rules::types::check_types;
pub use rules::workspaces::check_workspaces;
pub use seen::Seen;
pub use validating::validate;
