ghost use Rattle.std.specs.Prelude.{◌≡◌, ◌≢◌, ◌<◌, ◌^◌, [], None, length, map, IfOk, IfErr, OnOk};
ghost use Rattle.std.specs.List.{range_with_len};
ghost use Rattle.tk_graph.specs.Cycle.{left_of, cycle_of, cycle_names, name_at};
ghost use Rattle.tk_graph.specs.Order.{IsOrderRefusal};
ghost use Rattle.tk_graph.specs.Parents.{parents as parents_of, IsRanking};
ghost use Rattle.tk_graph.specs.Unknown.{first_unknown as first_unknown_of};

use crate::above::{all_parents, edges};
use crate::laws::acyclic;
use crate::names::Names;
use crate::refusal::OrderError;
use crate::removal::{places, remove};
use crate::unknown::first_unknown;
use crate::walk::{first_left, names_at, walk};
use std::alloc::{AllocError, Global};
use tk_types::{List, PipelineTask, Text};

/// A rank for each task, by its place.
#[derive(Drop)]
pub struct Ranks {
    pub list: List<u32>,
}

/// Ranks, or the names of the cycle that keeps tasks from having them. The only error is want of memory.
fn ranked(
    alloc: Global,
    tasks: &[PipelineTask],
    above: &[List<u32>],
) -> Result<Result<Ranks, List<Text>>, AllocError>
    requires few { length tasks.now < 2 ^ 32 }
    requires parents { above.now ≡ map (parents_of tasks.now) (range_with_len 0 (length tasks.now)) }
    ensures ranks { IfOk result (λ found. IfOk found (λ ranks. IsRanking tasks.now ranks.list)) }
    ensures left { IfOk result (λ found. IfErr found (λ names. left_of tasks.now ≢ [])) }
    ensures names { IfOk result (λ found. IfErr found (λ names. names ≡ map (name_at tasks.now) (cycle_of tasks.now))) }
{
    let ranks = remove(alloc, above)?;
    let all = places(alloc, tasks.len())?;
    let Some(first) = first_left(all.as_slice(), ranks.as_slice()) else {
        return Ok(Ok(Ranks {
            list: List::from_vec(ranks),
        }));
    };
    let cycle = walk(alloc, above, ranks.as_slice(), first)?;
    let names = names_at(alloc, tasks, cycle.as_slice())?;
    Ok(Err(names))
}

/// Ranks that rise from each parent to its child, in time near the number of tasks and parents. Refused are a name of a
/// parent that no task has, the first by the task's place and then by the order of its names, and after that a cycle:
/// from the first task that can't be ranked to its first parent that can't be, and so on until one comes twice, the
/// names from its first coming on (Tekton, Pipelines, Using the runAfter field).
pub fn order(alloc: Global, tasks: &[PipelineTask]) -> Result<Ranks, OrderError>
    requires { length tasks.now < 2 ^ 32 }
    ensures ranks { IfOk result (λ ranks. IsRanking tasks.now ranks.list) }
    ensures known { OnOk result (first_unknown_of tasks.now ≡ None) }
    ensures refused { IfErr result (IsOrderRefusal tasks.now) }
{
    let names = Names::new(alloc, tasks)?;
    if let Some((task, name)) = first_unknown(alloc, &names)? {
        return Err(OrderError::UnknownTask { task, name });
    }
    let above = edges(alloc, &names)?;
    match ranked(alloc, tasks, above.as_slice())? {
        Ok(ranks) => Ok(ranks),
        Err(names) => Err(OrderError::Cycle { names }),
    }
}

/// The names of a cycle among the tasks that can't be ranked, if there are such: from the first of them to its first
/// parent that can't be, and so on until one comes twice, the names from its first coming on. A name that no task has
/// is passed over (Tekton, Pipelines, Using the runAfter field). The only error is want of memory.
pub fn cycle(alloc: Global, tasks: &[PipelineTask]) -> Result<Option<List<Text>>, AllocError>
    requires { length tasks.now < 2 ^ 32 }
    ensures { IfOk result (λ names. names ≡ cycle_names tasks.now) }
{
    acyclic();
    let above = all_parents(alloc, tasks)?;
    match ranked(alloc, tasks, above.as_slice())? {
        Ok(_ranks) => Ok(None),
        Err(names) => Ok(Some(names)),
    }
}
