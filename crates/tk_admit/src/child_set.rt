ghost use Rattle.std.specs.Prelude.{◌≡◌, ◌++◌, [], ◌∷◌, IfOk, OnOk};
ghost use Rattle.std.specs.List.{list_any};
ghost use Rattle.tk_admit.specs.Command.{is_same_child};

use std::alloc::{AllocError, Global};
use std::collections::BTreeSet;
use std::marker::Model;
use tk_types::OutcomesChild;

/// Children in the order in which they came, that are found by task and index. A contract sees the children.
#[derive(Drop)]
pub(crate) struct ChildSet<'a> {
    children: Vec<&'a OutcomesChild>,
    found: BTreeSet<(&'a str, u32)>,
}

impl<'a> Model for ChildSet<'a> {
    ghost use Rattle.std.specs.Prelude.{◌≡◌, List, ℕ, map};
    ghost use Rattle.std.specs.BTreeSet.{contains_by};
    ghost use Rattle.std.specs.List.{list_any};
    ghost use Rattle.tk_types.specs.declared.object.OutcomesChild.{OutcomesChild as C};
    ghost use Rattle.tk_admit.specs.Children.{against, is_of};

    ghost Value = { List C };

    ghost view = { λ set. map (λ child. child.now) set.children.items };

    ghost invariant = { λ set. (task : List ℕ) (index : ℕ)
        → contains_by (λ k. against task index k.0.now k.1) set.found ≡ list_any (is_of task index) (map (λ child. child.now) set.children.items) };
}

impl<'a> ChildSet<'a> {
    /// No child.
    pub(crate) fn new(alloc: Global) -> Self
        ensures { result ≡ [] }
    {
        ChildSet {
            children: Vec::new(alloc),
            found: BTreeSet::new(alloc),
        }
    }

    /// Adds a child, and tells whether one of its task and index was there before.
    pub(crate) fn add(&mut self, child: &'a OutcomesChild) -> Result<bool, AllocError>
        ensures was { IfOk result (λ was. was ≡ list_any (is_same_child child.now) self.old) }
        ensures added { OnOk result (self.new ≡ self.old ++ child.now ∷ []) }
    {
        self.children.push(child)?;
        match self.found.insert((child.task.as_str(), child.index)) {
            Ok(is_new) => Ok(!is_new),
            Err(_) => {
                self.children.pop();
                Err(AllocError)
            }
        }
    }
}
