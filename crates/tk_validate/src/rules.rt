//! The rules, each in a file of its own, and what texts may name by them.

pub(crate) mod conflicts;
pub(crate) mod cycle;
pub(crate) mod finally;
pub(crate) mod names;
pub(crate) mod sizes;
mod step_texts;
mod text_rule;
pub(crate) mod texts;
pub(crate) mod timeouts;
pub(crate) mod types;
pub(crate) mod workspaces;
