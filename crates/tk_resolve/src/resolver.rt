ghost use Rattle.std.specs.Prelude.{◌≡◌, ◌∷◌, [], ◌++◌, All, Some, IfOk, OnErr, OnOk};
ghost use Rattle.tk_types.specs.declared.object.Item.{Item as I};
ghost use Rattle.tk_bind.specs.Readings.{ReadsObject, ReadsTaskSource};
ghost use Rattle.tk_resolve.specs.Known.{IsKnownRun};
ghost use Rattle.tk_resolve.specs.TaskRun.{resolved_task_run};

use crate::known_run::KnownRun;
use crate::lookup::Earlier;
use crate::task_run::resolve_task;
use std::alloc::{AllocError, Global};
use std::collections::HashMap;
use std::marker::Model;
use tk_types::{Item, TaskRunObject, TaskRunSpec};

/// The objects that stand earlier in an input, and of each Pipeline without a matrix the last run that names it and can start:
/// what was found of it is found of the next that is given values of the same shapes. A contract sees the objects, in their order.
#[derive(Drop)]
pub struct Resolver<'a> {
    pub(crate) earlier: Earlier<'a>,
    pub(crate) known: HashMap<&'a str, KnownRun<'a>>,
}

impl<'a> Model for Resolver<'a> {
    ghost use Rattle.std.specs.Prelude.{List as Items, ℕ, bytes_eq};
    ghost use Rattle.std.specs.Option.{ForSome};
    ghost use Rattle.std.specs.HashMap.{get_by};
    ghost use Rattle.tk_types.specs.declared.object.Item.{Item};
    ghost use Rattle.tk_resolve.specs.Known.{IsKnownRun};
    ghost use Rattle.tk_resolve.specs.declared.known_run.KnownRun.{KnownRun as K};

    ghost Value = { Items Item };

    ghost view = { λ resolver. resolver.earlier };

    ghost invariant = { λ resolver. (name : Items ℕ)
        → ForSome (get_by (λ k. bytes_eq name k.now) resolver.known) (λ (k : K). IsKnownRun resolver.earlier name k) };
}

impl<'a> Resolver<'a> {
    /// No object.
    pub fn new(alloc: Global) -> Self
        ensures { result ≡ [] }
    {
        Resolver {
            earlier: Earlier::new(alloc),
            known: HashMap::new(alloc),
        }
    }

    /// Adds the object that stands next; of a Task what its texts ask is found. The only error is want of memory, and
    /// nothing is added then.
    pub fn add(&mut self, alloc: Global, item: &'a Item) -> Result<(), AllocError>
        ensures added { OnOk result (self.new ≡ self.old ++ item.now ∷ []) }
        ensures kept { OnErr result (self.new ≡ self.old) }
    {
        self.earlier.add(alloc, item)
    }

    /// Keeps a run that can start under the name of its Pipeline. The only error is want of memory.
    pub(crate) fn keep(&mut self, name: &'a str, known: KnownRun<'a>) -> Result<(), AllocError>
        requires { IsKnownRun self.old name.now known }
        ensures { self.new ≡ self.old }
    {
        self.known.insert(name, known)?;
        Ok(())
    }

    /// A standalone TaskRun with the Task that it refers to among the objects that stand earlier, or with its own spec
    /// (Tekton, TaskRuns, Specifying the target Task).
    ///
    /// A TaskRun that can't start is a value like any other: its `start` has the first reason that holds, which is
    /// `CouldntGetTask`, `ParameterMissing`, `ParameterTypeMismatch` or `InvalidWorkspaceBindings`, in this order. One whose
    /// Task isn't found has an empty spec. The only error is want of memory.
    pub fn task(&self, alloc: Global, run: &TaskRunObject) -> Result<TaskRunSpec, AllocError>
        requires own { ReadsTaskSource run.now.source }
        requires earlier { All (λ (i : I). ReadsObject i.object) self.now }
        ensures { IfOk result (λ spec. spec ≡ resolved_task_run self.now run.now) }
    {
        resolve_task(alloc, run, &self.earlier)
    }
}
