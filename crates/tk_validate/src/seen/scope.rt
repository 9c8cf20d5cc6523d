ghost use Rattle.std.specs.Prelude.{◌≡◌, option_map};
ghost use Rattle.tk_validate.specs.Texts.{unknown_of};

use crate::seen::layers::Layers;
use std::marker::Model;
use tk_bind::{Names, status_task};
use tk_graph::task_of;
use tk_types::{FirstNamed, NameSet, Text};
use tk_vars::{Part, Reference};

/// What texts that stand somewhere may name. A contract sees the scope.
#[derive(Drop)]
pub(crate) struct LayeredNames<'l> {
    pub(crate) seen: Layers<'l>,
    pub(crate) words: &'l FirstNamed<'l, Text>,
    pub(crate) paths: &'l FirstNamed<'l, Text>,
    pub(crate) tasks: &'l NameSet<'l>,
    pub(crate) results: bool,
    pub(crate) finally_results: bool,
}

impl<'l> Model for LayeredNames<'l> {
    ghost use Rattle.tk_bind.specs.declared.scope.Scope.{Scope};
    ghost use Rattle.tk_validate.specs.Scoped.{scope_with};

    ghost Value = { Scope };

    ghost view = { λ n. scope_with n.seen n.words.now n.paths.now n.tasks.now n.results n.finally_results };
}

impl<'l> Names for LayeredNames<'l> {
    ghost scope = { λ names. names };

    fn has_param(&self, name: &str) -> bool {
        self.seen.contains(name)
    }

    fn has_word(&self, key: &str) -> bool {
        self.words.contains(key) || self.paths.contains(key)
    }

    fn has_results(&self) -> bool {
        self.results
    }

    fn has_finally_results(&self) -> bool {
        self.finally_results
    }

    fn allows(&self, name: &str, selector: &[Part<'_>]) -> bool {
        self.seen.allows(name, selector)
    }
}

impl<'l> LayeredNames<'l> {
    /// The task that a reference names and that isn't there: that of a result isn't in the scope, or that of a status
    /// isn't one of these.
    pub(crate) fn unknown_of<'r, 'x>(
        &self,
        firsts: &NameSet<'_>,
        reference: &'r Reference<'x>,
    ) -> Option<&'r str>
        ensures { option_map (λ task. task.now) result ≡ unknown_of firsts.now self.now reference.now }
    {
        let parts = reference.parts.as_slice();
        if let Some(task) = task_of(parts)
            && !self.tasks.contains(task)
        {
            return Some(task);
        }
        match status_task(parts) {
            Some(task) if !firsts.contains(task.as_str()) => Some(task.as_str()),
            _ => None,
        }
    }
}
