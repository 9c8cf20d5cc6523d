ghost use Rattle.std.specs.Prelude.{◌≡◌, ◌<◌, ◌^◌, length, None, IfOk};
ghost use Rattle.tk_graph.specs.Parents.{IsAcyclic, IsRanking};
ghost use Rattle.tk_graph.specs.Unknown.{first_unknown};
ghost use Rattle.tk_verdict.specs.WellFormed.{IsWellFormed};

use crate::groups::Groups;
use std::alloc::{AllocError, Global};
use tk_graph::laws::{acyclic, known_parents};
use tk_graph::{OrderError, Ranks, order};
use tk_types::{Facts, PipelineTask};

/// Ranks of tasks that have them.
fn ranks_of(alloc: Global, tasks: &[PipelineTask]) -> Result<Ranks, AllocError>
    requires few { length tasks.now < 2 ^ 32 }
    requires known { first_unknown tasks.now ≡ None }
    requires acyclic { IsAcyclic tasks.now }
    ensures { IfOk result (λ ranks. IsRanking tasks.now ranks.list) }
{
    acyclic();
    match order(alloc, tasks) {
        Ok(ranks) => Ok(ranks),
        Err(OrderError::UnknownTask { .. }) => unreachable!(),
        Err(OrderError::Cycle { .. }) => unreachable!(),
        Err(OrderError::Memory) => Err(AllocError),
    }
}

/// The children of each task of a run. The only error is want of memory.
pub fn groups_of<'f>(alloc: Global, facts: &'f Facts) -> Result<Groups<'f>, AllocError>
    requires well_formed { IsWellFormed facts.now }
    ensures { IfOk result (λ groups. groups ≡ facts.now.children) }
{
    let total = facts.spec.tasks.len() + facts.spec.finally.len();
    Groups::new(alloc, total, facts.children.as_slice())
}

/// Ranks of a run's tasks. The only error is want of memory.
pub fn ranks_of_run(alloc: Global, facts: &Facts) -> Result<Ranks, AllocError>
    requires well_formed { IsWellFormed facts.now }
    ensures { IfOk result (λ ranks. IsRanking facts.now.spec.tasks ranks.list) }
{
    known_parents();
    ranks_of(alloc, facts.spec.tasks.as_slice())
}
