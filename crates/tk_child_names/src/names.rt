ghost use Rattle.std.specs.Prelude.{◌≡◌, ◌≤◌, ◌++◌, All, IfOk, OnOk, flat_map};
ghost use Rattle.std.specs.Option.{ForSome};
ghost use Rattle.tk_types.specs.Behaviour.{tasks_of};
ghost use Rattle.tk_early.specs.Possible.{possible_children as possible_of_task};
ghost use Rattle.tk_names.specs.Children.{child_names as child_names_of};
ghost use Rattle.tk_journal.specs.Names.{task_run_names, task_names as names_of_task};
ghost use Rattle.tk_journal.specs.declared.act.Admission.TheVariants.{Run};
ghost use Rattle.tk_child_names.specs.Children.{HasFewChildren, HasFewEach, ReadsItsMatrix, ReadsMatrices};

use crate::possible::possible_children;
use std::alloc::{AllocError, Global};
use tk_early::RunValues;
use tk_journal::Admission;
use tk_names::child_name;
use tk_types::{List, PipelineTask, RunSpec, Text, TryCopy};

/// A number of children, which are few.
fn few(children: Option<u64>) -> Option<u32>
    requires { ForSome children (λ count. count ≤ 256) }
    ensures { result ≡ children }
{
    match children {
        Some(count) => Some(count as u32),
        None => None,
    }
}

/// How many children a task may have, which are few, where it has a matrix.
fn few_children(
    alloc: Global,
    values: &RunValues<'_>,
    task: &PipelineTask,
) -> Result<Option<u32>, AllocError>
    requires readable { ReadsItsMatrix task.now }
    requires few { HasFewChildren values.now task.now }
    ensures { IfOk result (λ children. children ≡ possible_of_task values.now task.now) }
{
    let children = possible_children(alloc, values, task)?;
    Ok(few(children))
}

/// Adds the names that the children of a task may have, of which there are at most so many where it has a matrix.
fn add_child_names(
    alloc: Global,
    names: &mut List<Text>,
    run: &str,
    task: &str,
    children: Option<u32>,
) -> Result<(), AllocError>
    ensures { OnOk result (names.new ≡ names.old ++ child_names_of run.now task.now children) }
{
    let Some(count) = children else {
        return names.push(child_name(alloc, run, task, None)?);
    };
    for index in 0..count {
        names.push(child_name(alloc, run, task, Some(index))?)?;
    }
    Ok(())
}

/// Adds the names that the TaskRuns of a task may have.
fn add_task_names(
    alloc: Global,
    names: &mut List<Text>,
    values: &RunValues<'_>,
    run: &str,
    task: &PipelineTask,
) -> Result<(), AllocError>
    requires run { run.now ≡ values.now.name }
    requires readable { ReadsItsMatrix task.now }
    requires few { HasFewChildren values.now task.now }
    ensures { OnOk result (names.new ≡ names.old ++ names_of_task values.now task.now) }
{
    let children = few_children(alloc, values, task)?;
    add_child_names(alloc, names, run, task.name.as_str(), children)
}

/// Adds the names that the TaskRuns of some tasks may have.
fn add_tasks_names(
    alloc: Global,
    names: &mut List<Text>,
    values: &RunValues<'_>,
    run: &str,
    tasks: &[PipelineTask],
) -> Result<(), AllocError>
    requires run { run.now ≡ values.now.name }
    requires readable { All ReadsItsMatrix tasks.now }
    requires few { All (HasFewChildren values.now) tasks.now }
    ensures { OnOk result (names.new ≡ names.old ++ flat_map (names_of_task values.now) tasks.now) }
{
    for task in tasks {
        add_task_names(alloc, names, values, run, task)?;
    }
    Ok(())
}

/// Adds the names that the TaskRuns of a PipelineRun may have.
fn add_run_names(alloc: Global, names: &mut List<Text>, spec: &RunSpec) -> Result<(), AllocError>
    requires readable { All ReadsItsMatrix (tasks_of spec.now) }
    requires few { All (HasFewChildren spec.now) (tasks_of spec.now) }
    ensures { OnOk result (names.new ≡ names.old ++ task_run_names (Run spec.now)) }
{
    let values = RunValues::new(alloc, spec)?;
    let run = spec.name.as_str();
    add_tasks_names(alloc, names, &values, run, spec.tasks.as_slice())?;
    add_tasks_names(alloc, names, &values, run, spec.finally.as_slice())
}

/// Adds the names that the TaskRuns of an admission may have. The only error is want of memory; some may then be added
/// (Tekton, PipelineRuns, Monitoring execution status).
pub fn add_names(
    alloc: Global,
    names: &mut List<Text>,
    admission: &Admission,
) -> Result<(), AllocError>
    requires readable { ReadsMatrices admission.now }
    requires few { HasFewEach admission.now }
    ensures { OnOk result (names.new ≡ names.old ++ task_run_names admission.now) }
{
    match admission {
        Admission::Run(spec) => add_run_names(alloc, names, spec),
        Admission::Task(spec) => names.push(spec.name.copy(alloc)?),
    }
}
