ghost use Rattle.std.specs.Prelude.{◌≡◌, ◌<◌, ◌^◌, IfOk};
ghost use Rattle.tk_verdict.specs.Facts.{task_total};
ghost use Rattle.tk_verdict.specs.Good.{is_good_at as is_good_of_place, AreGood};

use crate::children::are_all_good;
use crate::groups::Groups;
use crate::parents::task_at;
use std::alloc::{AllocError, Global};
use tk_types::Facts;

/// Whether the task at a place has children and all are good.
fn is_good_at(facts: &Facts, groups: &Groups, place: u32) -> bool
    requires { groups.now ≡ facts.now.children }
    ensures { result ≡ is_good_of_place facts.now place }
{
    match task_at(facts, place) {
        Some(task) => are_all_good(groups.at(place), task.ignore_failure),
        None => false,
    }
}

/// Of each task, whether it has children and all are good. The only error is want of memory.
pub(crate) fn good_tasks(
    alloc: Global,
    facts: &Facts,
    groups: &Groups,
) -> Result<Vec<bool>, AllocError>
    requires few { task_total facts.now < 2 ^ 32 }
    requires same { groups.now ≡ facts.now.children }
    ensures { IfOk result (λ good. AreGood facts.now good.items) }
{
    let total = facts.spec.tasks.len() + facts.spec.finally.len();
    let mut good = Vec::with_capacity(alloc, total)?;
    for place in 0..total {
        good.push(is_good_at(facts, groups, place as u32))?;
    }
    Ok(good)
}
