ghost use Rattle.std.specs.Prelude.{◌≡◌, ◌<◌, ◌^◌, ℕ, length, map, vec_len, IfOk};
ghost use Rattle.std.specs.List.{range_with_len};
ghost use Rattle.tk_graph.specs.Parents.{parents as parents_of, IsRanking};
ghost use Rattle.tk_verdict.specs.Gathered.{IsGathered, IsReadable};
ghost use Rattle.tk_verdict.specs.Labels.{verdict_line};
ghost use Rattle.tk_verdict.specs.Verdict.{label_at};

use crate::groups::Groups;
use crate::sequence::by_rank;
use crate::tasks::judge_task;
use std::alloc::{AllocError, Global};
use tk_bind::EnvIndex;
use tk_types::{Facts, List, Verdict};

/// The labels of `tasks`, judged in the order of their ranks, so that each task's parents come before it.
pub(crate) fn walk(
    alloc: Global,
    facts: &Facts,
    groups: &Groups,
    good: &[bool],
    index: &EnvIndex,
    parents: &[List<u32>],
    ranks: &[u32],
) -> Result<Vec<Verdict>, AllocError>
    requires few { length facts.now.spec.tasks < 2 ^ 32 }
    requires readable { IsReadable facts.now }
    requires gathered { IsGathered facts.now groups.now good.now index.now }
    requires parents { parents.now ≡ map (parents_of facts.now.spec.tasks) (range_with_len 0 (length facts.now.spec.tasks)) }
    requires ranking { IsRanking facts.now.spec.tasks ranks.now }
    ensures count { IfOk result (λ labels. length labels.items ≡ length facts.now.spec.tasks) }
    ensures right { IfOk result (λ labels. (place : ℕ) → place < length facts.now.spec.tasks → label_at labels.items place ≡ verdict_line facts.now labels.items place) }
{
    let sequence = by_rank(alloc, ranks)?;
    let mut labels = waiting(alloc, ranks.len())?;
    for task in &sequence {
        let place = task.place as usize;
        let above = parents[place].as_slice();
        let label = judge_task(
            alloc,
            facts,
            groups,
            good,
            index,
            labels.as_slice(),
            above,
            task.place,
        )?;
        labels[place] = label;
    }
    Ok(labels)
}

/// As many labels, all of them waiting.
fn waiting(alloc: Global, count: usize) -> Result<Vec<Verdict>, AllocError>
    ensures { IfOk result (λ labels. vec_len labels ≡ count) }
{
    let mut labels = Vec::with_capacity(alloc, count)?;
    for _ in 0..count {
        labels.push(Verdict::Waits)?;
    }
    Ok(labels)
}
