ghost use Rattle.std.specs.Prelude.{◌≡◌, ◌≢◌, ◌≤◌, ◌+◌, ◌++◌, ◌↔◌, AllPairs, IfOk, IsTrue, OnOk, length, map};
ghost use Rattle.tk_types.specs.Behaviour.{tasks_of};
ghost use Rattle.tk_types.specs.Limits.{most_tasks};
ghost use Rattle.tk_types.specs.declared.task.PipelineTask.{PipelineTask as T};
ghost use Rattle.tk_names.specs.Rules.{is_dns_label as dns_label};

use std::alloc::{AllocError, Global};
use tk_names::laws::clash_is_the_first;
use tk_names::{clash, is_dns_label};
use tk_types::{List, PipelineTask, RunSpec, Text, TryCopy};

/// Whether a name is this one.
pub(crate) fn is_name(name: &Text, wanted: &str) -> bool
    ensures { IsTrue result ↔ (name.now ≡ wanted.now) }
{
    name.as_str() == wanted
}

/// Whether a name is a DNS label.
pub(crate) fn is_label(name: &Text) -> bool
    ensures { result ≡ dns_label name.now }
{
    is_dns_label(name.as_str())
}

/// Adds the names of tasks.
fn add_names(
    alloc: Global,
    names: &mut List<Text>,
    tasks: &[PipelineTask],
) -> Result<(), AllocError>
    ensures { OnOk result (names.new ≡ names.old ++ map (λ (t : T). t.name) tasks.now) }
{
    for task in tasks {
        names.push(task.name.copy(alloc)?)?;
    }
    Ok(())
}

/// The names of all tasks.
fn names_of_tasks(alloc: Global, spec: &RunSpec) -> Result<List<Text>, AllocError>
    ensures { IfOk result (λ names. names ≡ map (λ (t : T). t.name) (tasks_of spec.now)) }
{
    let mut names = List::new(alloc);
    add_names(alloc, &mut names, spec.tasks.as_slice())?;
    add_names(alloc, &mut names, spec.finally.as_slice())?;
    Ok(names)
}

/// Whether the names of a run's tasks differ, those of `finally` too. The only error is want of memory.
pub(crate) fn names_differ(alloc: Global, spec: &RunSpec) -> Result<bool, AllocError>
    requires { length spec.now.tasks + length spec.now.finally ≤ most_tasks }
    ensures { IfOk result (λ yes. IsTrue yes ↔ AllPairs (λ (a b : T). a.name ≢ b.name) (tasks_of spec.now)) }
{
    clash_is_the_first();
    let names = names_of_tasks(alloc, spec)?;
    Ok(clash(alloc, names.as_slice())?.is_none())
}
