ghost use Rattle.std.specs.Prelude.{◌≡◌, ◌<◌, ◌^◌, ◌++◌, length, map, bytes_eq, IfOk, OnOk};
ghost use Rattle.std.specs.List.{flat_map, list_any, range_with_len};
ghost use Rattle.tk_types.specs.Lists.{places_where};
ghost use Rattle.tk_types.specs.declared.task.PipelineTask.{PipelineTask};
ghost use Rattle.tk_graph.specs.Index.{places_of_name};
ghost use Rattle.tk_graph.specs.Parents.{parent_names as names_of_parents, parents as parents_of};

use crate::names::Names;
use crate::references::{add_of_guards, add_of_matrix, add_of_params};
use std::alloc::{AllocError, Global};
use tk_types::{List, PipelineTask, Text, TryCopy};

/// Adds copies of some names.
fn add_copies(alloc: Global, wanted: &[Text], names: &mut List<Text>) -> Result<(), AllocError>
    ensures { OnOk result (names.new ≡ names.old ++ wanted.now) }
{
    for name in wanted {
        names.push(name.copy(alloc)?)?;
    }
    Ok(())
}

/// The names of a task's parents, in reading order.
pub(crate) fn parent_names(alloc: Global, task: &PipelineTask) -> Result<List<Text>, AllocError>
    ensures { IfOk result (λ names. names ≡ names_of_parents task.now) }
{
    let mut names = List::new(alloc);
    add_of_params(alloc, task.params.as_slice(), &mut names)?;
    add_of_matrix(alloc, &task.matrix, &mut names)?;
    add_copies(alloc, task.run_after.as_slice(), &mut names)?;
    add_of_guards(alloc, task.when.as_slice(), &mut names)?;
    Ok(names)
}

/// Whether a name is among some.
fn is_among(names: &[Text], name: &str) -> bool
    ensures { result ≡ list_any (λ other. bytes_eq other name.now) names.now }
{
    names.iter().any(|other| other.as_str() == name)
}

/// The places of the tasks that have one of these names, ascending.
fn places_named(
    alloc: Global,
    tasks: &[PipelineTask],
    names: &[Text],
) -> Result<List<u32>, AllocError>
    requires { length tasks.now < 2 ^ 32 }
    ensures { IfOk result (λ places. places ≡ places_where (λ (t : PipelineTask). list_any (λ name. bytes_eq name t.name) names.now) tasks.now) }
{
    let mut places = List::new(alloc);
    for (place, task) in tasks.iter().enumerate() {
        if is_among(names, task.name.as_str()) {
            places.push(place as u32)?;
        }
    }
    Ok(places)
}

/// The places of a task's parents, ascending and without repeats: the tasks to whose results its parameters, its matrix
/// and its `when` expressions refer, and those after which it runs (Tekton, Pipelines, Configuring the Task execution
/// order). All tasks of a name are meant where it is named. The only error is want of memory.
pub fn parents(alloc: Global, tasks: &[PipelineTask], task: u32) -> Result<List<u32>, AllocError>
    requires few { length tasks.now < 2 ^ 32 }
    requires exists { task < length tasks.now }
    ensures { IfOk result (λ places. places ≡ parents_of tasks.now task) }
{
    let names = parent_names(alloc, &tasks[task as usize])?;
    places_named(alloc, tasks, names.as_slice())
}

/// The places of some names, name by name.
fn gathered(alloc: Global, names: &Names, wanted: &[Text]) -> Result<Vec<u32>, AllocError>
    ensures { IfOk result (λ places. places.items ≡ flat_map (places_of_name names.now) wanted.now) }
{
    let mut places = Vec::new(alloc);
    for name in wanted {
        places.extend_from_slice(names.places(name.as_str()))?;
    }
    Ok(places)
}

/// The places of the tasks of some names, ascending and without repeats.
fn places_of_all(alloc: Global, names: &Names, wanted: &[Text]) -> Result<List<u32>, AllocError>
    ensures { IfOk result (λ places. places ≡ places_where (λ (t : PipelineTask). list_any (λ name. bytes_eq name t.name) wanted.now) names.now) }
{
    let mut places = gathered(alloc, names, wanted)?;
    places.sort_unstable();
    places.dedup();
    Ok(List::from_vec(places))
}

/// The parents of each task.
pub(crate) fn edges(alloc: Global, names: &Names) -> Result<List<List<u32>>, AllocError>
    ensures { IfOk result (λ above. above ≡ map (parents_of names.now) (range_with_len 0 (length names.now))) }
{
    let tasks = names.tasks();
    let mut above = List::new(alloc);
    for task in tasks {
        let wanted = parent_names(alloc, task)?;
        above.push(places_of_all(alloc, names, wanted.as_slice())?)?;
    }
    Ok(above)
}

/// The places of each task's parents, as `parents` gives them, in time near the number of tasks and parents. The
/// only error is want of memory.
pub fn all_parents(alloc: Global, tasks: &[PipelineTask]) -> Result<List<List<u32>>, AllocError>
    requires { length tasks.now < 2 ^ 32 }
    ensures { IfOk result (λ above. above ≡ map (parents_of tasks.now) (range_with_len 0 (length tasks.now))) }
{
    let names = Names::new(alloc, tasks)?;
    edges(alloc, &names)
}
