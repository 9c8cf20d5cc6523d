ghost use Rattle.std.specs.Prelude.{◌≡◌, ℕ, ◌≤◌, ◌<◌, List as L, ◌++◌, All, IsTrue, OnOk, Some, flat_map, length, map, replicate};
ghost use Rattle.std.specs.Option.{ForSome};
ghost use Rattle.tk_types.specs.Rejected.{IsRefusal, Reads};
ghost use Rattle.tk_bind.specs.Readings.{ReadsPipelineTask};
ghost use Rattle.tk_names.specs.Children.{child_names as child_names_of};
ghost use Rattle.tk_journal.specs.Names.{task_run_names, task_names as names_of_task};
ghost use Rattle.tk_admit.specs.Apart.{HasWholeNames};
ghost use Rattle.tk_admit.specs.Names.{clash_of, names_finding};
ghost use Rattle.tk_journal.specs.declared.act.Admission.TheVariants.{Run};
ghost use Rattle.tk_types.specs.Behaviour.{tasks_of};
ghost use Rattle.tk_admit.specs.Sound.{HasFewChildren, HasFewEach, IsSound, IsTaken};
ghost use Rattle.tk_admit.specs.declared.taken.Taken.{Taken as T};

use crate::apart::are_apart;
use crate::taken::Taken;
use std::alloc::{AllocError, Global};
use tk_early::RunValues;
use tk_journal::Admission;
use tk_names::{child_name, clash};
use tk_types::{
    Detail, Fault, List, Location, PipelineTask, Place, Rejected, RunSpec, Text, TryCopy, told,
};

/// A number of children, which are few.
fn few(children: Option<u64>) -> Option<u32>
    requires { ForSome children (λ count. count ≤ 256) }
    ensures { result ≡ children }
{
    match children {
        Some(count) => Some(count as u32),
        None => None,
    }
}

/// Adds the names that the children of a task may have, of which there are at most so many where it has a matrix.
fn add_child_names(
    alloc: Global,
    names: &mut List<Text>,
    run: &str,
    task: &str,
    children: Option<u32>,
) -> Result<(), AllocError>
    ensures { OnOk result (names.new ≡ names.old ++ child_names_of run.now task.now children) }
{
    let Some(count) = children else {
        return names.push(child_name(alloc, run, task, None)?);
    };
    for index in 0..count {
        names.push(child_name(alloc, run, task, Some(index))?)?;
    }
    Ok(())
}

/// Adds the names that the TaskRuns of a task may have.
fn add_task_names(
    alloc: Global,
    names: &mut List<Text>,
    values: &RunValues<'_>,
    run: &str,
    task: &PipelineTask,
) -> Result<(), AllocError>
    requires run { run.now ≡ values.now.name }
    requires readable { ReadsPipelineTask task.now }
    requires few { HasFewChildren values.now task.now }
    ensures { OnOk result (names.new ≡ names.old ++ names_of_task values.now task.now) }
{
    let children = few(values.possible_children(alloc, task)?);
    add_child_names(alloc, names, run, task.name.as_str(), children)
}

/// Adds the names that the TaskRuns of some tasks may have.
fn add_tasks_names(
    alloc: Global,
    names: &mut List<Text>,
    values: &RunValues<'_>,
    run: &str,
    tasks: &[PipelineTask],
) -> Result<(), AllocError>
    requires run { run.now ≡ values.now.name }
    requires readable { All ReadsPipelineTask tasks.now }
    requires few { All (HasFewChildren values.now) tasks.now }
    ensures { OnOk result (names.new ≡ names.old ++ flat_map (names_of_task values.now) tasks.now) }
{
    for task in tasks {
        add_task_names(alloc, names, values, run, task)?;
    }
    Ok(())
}

/// Adds the names that the TaskRuns of a PipelineRun may have.
fn add_run_names(alloc: Global, names: &mut List<Text>, spec: &RunSpec) -> Result<(), AllocError>
    requires readable { All ReadsPipelineTask (tasks_of spec.now) }
    requires few { All (HasFewChildren spec.now) (tasks_of spec.now) }
    ensures { OnOk result (names.new ≡ names.old ++ task_run_names (Run spec.now)) }
{
    let values = RunValues::new(alloc, spec)?;
    let run = spec.name.as_str();
    add_tasks_names(alloc, names, &values, run, spec.tasks.as_slice())?;
    add_tasks_names(alloc, names, &values, run, spec.finally.as_slice())
}

/// Adds the names that the TaskRuns of a run may have.
fn add_names(alloc: Global, names: &mut List<Text>, admission: &Admission) -> Result<(), AllocError>
    requires sound { IsSound admission.now }
    requires few { HasFewEach admission.now }
    ensures { OnOk result (names.new ≡ names.old ++ task_run_names admission.now) }
{
    match admission {
        Admission::Run(spec) => add_run_names(alloc, names, spec),
        Admission::Task(spec) => names.push(spec.name.copy(alloc)?),
    }
}

/// Adds a place so many times.
fn add_owners<'a>(
    owners: &mut Vec<&'a Place>,
    place: &'a Place,
    count: usize,
) -> Result<(), AllocError>
    ensures { OnOk result (map (λ p. p.now) owners.new.items ≡ map (λ p. p.now) owners.old.items ++ replicate count place.now) }
{
    for _ in 0..count {
        owners.push(place)?;
    }
    Ok(())
}

/// Adds the names that the TaskRuns of a run may have, and the place of its object for each of them.
fn add_run<'a>(
    alloc: Global,
    names: &mut List<Text>,
    owners: &mut Vec<&'a Place>,
    run: &'a Taken,
) -> Result<(), AllocError>
    requires { IsTaken run.now }
    ensures names { OnOk result (names.new ≡ names.old ++ task_run_names run.now.spec) }
    ensures owners { OnOk result (map (λ p. p.now) owners.new.items ≡ map (λ p. p.now) owners.old.items ++ map (λ (name : L ℕ). run.now.place) (task_run_names run.now.spec)) }
{
    let before = names.len();
    add_names(alloc, names, &run.spec)?;
    add_owners(owners, &run.place, names.len() - before)
}

/// Refuses a name that stood before, by the places of both objects.
fn clashing(alloc: Global, owners: &[&Place], earlier: u32, later: u32) -> Rejected
    requires earlier { earlier < length owners.now }
    requires later { later < length owners.now }
    ensures { IsRefusal (Some (clash_of (map (λ p. p.now) owners.now) (earlier, later))) result }
{
    match owners[earlier as usize].copy(alloc) {
        Ok(earlier) => {
            let place = Location::of(owners[later as usize]);
            told(alloc, Fault::NAME_CLASH, &place, Detail::Earlier(earlier))
        }
        Err(_) => Rejected::Memory,
    }
}

/// Refuses runs two of whose TaskRuns may have one name: the first name that stood before, by the places of both
/// objects. More than 2^32 names are more than memory holds. Where the runs' own names show that none clash, no name
/// is made.
pub(crate) fn check_clashes(alloc: Global, runs: &[Taken], whole: bool) -> Result<(), Rejected>
    requires taken { All IsTaken runs.now }
    requires whole { IsTrue whole → All (λ (run : T). HasWholeNames run.spec) runs.now }
    ensures { Reads (names_finding runs.now) tt result }
{
    if are_apart(alloc, runs, whole)? {
        return Ok(());
    }
    let mut names = List::new(alloc);
    let mut owners = Vec::new(alloc);
    for run in runs {
        add_run(alloc, &mut names, &mut owners, run)?;
    }
    if u32::MAX as usize <= names.len() {
        return Err(Rejected::Memory);
    }
    match clash(alloc, names.as_slice())? {
        Some((earlier, later)) => Err(clashing(alloc, owners.as_slice(), earlier, later)),
        None => Ok(()),
    }
}
