ghost use Rattle.std.specs.Prelude.{◌≡◌, ◌&&◌, ℕ, List, IfOk, OnOk, Some, None, bytes_eq, cond};
ghost use Rattle.std.specs.Option.{option_copied, option_or};
ghost use Rattle.tk_bind.specs.Grouped.{grouped_value};
ghost use Rattle.tk_bind.specs.Substitute.{result_named};

use crate::env::Given;
use crate::value_index::{ValueIndex, add_named};
use std::alloc::{AllocError, Global};
use std::collections::HashMap;
use std::marker::Model;

/// Results, found by their tasks and then by their names, and the keys of their values by an index. A contract sees the
/// results.
#[derive(Drop)]
pub struct TaskResults<'a> {
    results: &'a [Given],
    groups: HashMap<&'a str, HashMap<&'a str, ValueIndex<'a>>>,
}

impl<'a> Model for TaskResults<'a> {
    ghost use Rattle.std.specs.Prelude.{◌≡◌, List, ℕ};
    ghost use Rattle.tk_bind.specs.declared.env.Given.{Given};
    ghost use Rattle.tk_bind.specs.Grouped.{grouped_value};
    ghost use Rattle.tk_bind.specs.Substitute.{result_named};

    ghost Value = { List Given };

    ghost view = { λ index. index.results.now };

    ghost invariant = { λ index. (task name : List ℕ) → grouped_value task name index.groups ≡ result_named task name index.results.now };
}

impl<'a> TaskResults<'a> {
    /// An index of these results.
    pub fn new(alloc: Global, results: &'a [Given]) -> Result<Self, AllocError>
        ensures { IfOk result (λ index. index ≡ results.now) }
    {
        Ok(TaskResults {
            results,
            groups: grouped(alloc, results)?,
        })
    }

    /// The value of the first result of a task with a name.
    pub(crate) fn get(&self, task: &str, name: &str) -> Option<&ValueIndex<'a>>
        ensures { option_copied result ≡ result_named task.now name.now self.now }
    {
        match self.groups.get(task) {
            Some(group) => group.get(name),
            None => None,
        }
    }
}

/// Adds a result to those of its task, unless one of its name is there.
fn add<'a>(
    alloc: Global,
    groups: &mut HashMap<&'a str, HashMap<&'a str, ValueIndex<'a>>>,
    given: &'a Given,
) -> Result<(), AllocError>
    ensures { OnOk result ((task name : List ℕ)
        → grouped_value task name groups.new ≡ option_or (grouped_value task name groups.old) (cond (bytes_eq task given.now.task && bytes_eq name given.now.name) (Some given.now.value) None)) }
{
    let value = ValueIndex::new(alloc, &given.value)?;
    let group = groups
        .entry(given.task.as_str())?
        .or_insert(HashMap::new(alloc));
    add_named(group, given.name.as_str(), value)?;
    Ok(())
}

/// The results of each task.
fn grouped<'a>(
    alloc: Global,
    results: &'a [Given],
) -> Result<HashMap<&'a str, HashMap<&'a str, ValueIndex<'a>>>, AllocError>
    ensures { IfOk result (λ groups. (task name : List ℕ) → grouped_value task name groups ≡ result_named task name results.now) }
{
    let mut groups: HashMap<&'a str, HashMap<&'a str, ValueIndex<'a>>> = HashMap::new(alloc);
    for given in results {
        add(alloc, &mut groups, given)?;
    }
    Ok(groups)
}
