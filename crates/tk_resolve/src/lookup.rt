ghost use Rattle.std.specs.Prelude.{◌≡◌, [], ◌∷◌, ◌++◌, ℕ, List, OnOk, OnErr, bytes_eq, option_map, option_copied, Some, None, cond};
ghost use Rattle.std.specs.Option.{option_or};
ghost use Rattle.std.specs.HashMap.{get_by};
ghost use Rattle.tk_resolve.specs.Lookup.{as_pipeline, as_task, pipeline_named, task_named, value_if};

use crate::known_task::KnownTask;
use std::alloc::{AllocError, Global};
use std::collections::HashMap;
use std::marker::Model;
use tk_types::{Item, ItemObject, PipelineSpec, TaskSpec};

/// The objects that stand earlier in an input, of which the Tasks and the Pipelines are found by their names; of equal
/// names the first counts. A contract sees the objects, in their order.
#[derive(Drop)]
pub(crate) struct Earlier<'a> {
    items: Vec<&'a Item>,
    tasks: HashMap<&'a str, KnownTask<'a>>,
    pipelines: HashMap<&'a str, &'a PipelineSpec>,
}

impl<'a> Model for Earlier<'a> {
    ghost use Rattle.std.specs.Prelude.{◌≡◌, List as Items, ℕ, map, bytes_eq, option_map};
    ghost use Rattle.std.specs.HashMap.{get_by};
    ghost use Rattle.tk_types.specs.declared.object.Item.{Item};
    ghost use Rattle.tk_resolve.specs.Lookup.{pipeline_named, task_named};

    ghost Value = { Items Item };

    ghost view = { λ earlier. map (λ item. item.now) earlier.items.items };

    ghost invariant = { λ earlier. ((name : Items ℕ)
        → get_by (λ k. bytes_eq name k.now) earlier.tasks ≡ task_named (map (λ item. item.now) earlier.items.items) name)
        × ((name : Items ℕ)
        → option_map (λ spec. spec.now) (get_by (λ k. bytes_eq name k.now) earlier.pipelines) ≡ pipeline_named (map (λ item. item.now) earlier.items.items) name) };
}

impl<'a> Earlier<'a> {
    /// No object.
    pub(crate) fn new(alloc: Global) -> Self
        ensures { result ≡ [] }
    {
        Earlier {
            items: Vec::new(alloc),
            tasks: HashMap::new(alloc),
            pipelines: HashMap::new(alloc),
        }
    }

    /// Adds the object that stands next; of a Task what its texts ask is found. The only error is want of memory, and
    /// nothing is added then.
    pub(crate) fn add(&mut self, alloc: Global, item: &'a Item) -> Result<(), AllocError>
        ensures added { OnOk result (self.new ≡ self.old ++ item.now ∷ []) }
        ensures kept { OnErr result (self.new ≡ self.old) }
    {
        self.items.push(item)?;
        if let Err(error) = add_object(alloc, &mut self.tasks, &mut self.pipelines, &item.object) {
            self.items.pop();
            return Err(error);
        }
        Ok(())
    }

    /// The Task of a name, with what its texts ask.
    pub(crate) fn known_task(&self, name: &str) -> Option<&KnownTask<'a>>
        ensures { option_copied result ≡ task_named self.now name.now }
    {
        self.tasks.get(name)
    }

    /// The spec of the Task of a name.
    pub(crate) fn task(&self, name: &str) -> Option<&'a TaskSpec>
        ensures { option_copied result ≡ task_named self.now name.now }
    {
        match self.known_task(name) {
            Some(task) => Some(task.spec()),
            None => None,
        }
    }

    /// The Pipeline of a name.
    pub(crate) fn pipeline(&self, name: &str) -> Option<&'a PipelineSpec>
        ensures { option_copied result ≡ pipeline_named self.now name.now }
    {
        self.pipelines.get(name).copied()
    }
}

/// Adds a thing under a name, unless the name is there.
fn add_named<'a, T: Drop>(
    found: &mut HashMap<&'a str, T>,
    name: &'a str,
    thing: T,
) -> Result<(), AllocError>
    ensures added { OnOk result ((wanted : List ℕ) → get_by (λ k. bytes_eq wanted k.now) found.new
        ≡ option_or (get_by (λ k. bytes_eq wanted k.now) found.old) (cond (bytes_eq wanted name.now) (Some thing) None)) }
    ensures kept { OnErr result ((wanted : List ℕ) → get_by (λ k. bytes_eq wanted k.now) found.new ≡ get_by (λ k. bytes_eq wanted k.now) found.old) }
{
    found.entry(name)?.or_insert(thing);
    Ok(())
}

/// Adds a Task or a Pipeline, unless there is one of its name.
fn add_object<'a>(
    alloc: Global,
    tasks: &mut HashMap<&'a str, KnownTask<'a>>,
    pipelines: &mut HashMap<&'a str, &'a PipelineSpec>,
    object: &'a ItemObject,
) -> Result<(), AllocError>
    ensures task { OnOk result ((wanted : List ℕ) → get_by (λ k. bytes_eq wanted k.now) tasks.new
        ≡ option_or (get_by (λ k. bytes_eq wanted k.now) tasks.old) (value_if wanted (as_task object.now))) }
    ensures pipeline { OnOk result ((wanted : List ℕ)
        → option_map (λ spec. spec.now) (get_by (λ k. bytes_eq wanted k.now) pipelines.new)
        ≡ option_or (option_map (λ spec. spec.now) (get_by (λ k. bytes_eq wanted k.now) pipelines.old)) (value_if wanted (as_pipeline object.now))) }
    ensures tasks_kept { OnErr result ((wanted : List ℕ) → get_by (λ k. bytes_eq wanted k.now) tasks.new ≡ get_by (λ k. bytes_eq wanted k.now) tasks.old) }
    ensures pipelines_kept { OnErr result ((wanted : List ℕ)
        → option_map (λ spec. spec.now) (get_by (λ k. bytes_eq wanted k.now) pipelines.new)
        ≡ option_map (λ spec. spec.now) (get_by (λ k. bytes_eq wanted k.now) pipelines.old)) }
{
    match object {
        ItemObject::Task { name, spec } => {
            add_named(tasks, name.as_str(), KnownTask::new(alloc, spec)?)
        }
        ItemObject::Pipeline { name, spec } => add_named(pipelines, name.as_str(), spec),
        _ => Ok(()),
    }
}
