ghost use Rattle.std.specs.Prelude.{◌≡◌, ◌⊎◌, ◌<◌, ◌≤◌, ◌^◌, ℕ, [], length, replicate, slice_index, All, IsTrue, IfOk, OnOk};
ghost use Rattle.std.specs.List.{range_with_len};
ghost use Rattle.tk_graph.specs.Cycle.{is_among};
ghost use Rattle.tk_graph.specs.Removal.{IsInside, IsRemoving, IsRemoved, Waits};

use crate::below::children;
use std::alloc::{AllocError, Global};
use tk_types::List;

/// Tasks removed one after the other, each after its parents.
#[derive(Drop)]
struct Removal {
    /// The rank of each task that is removed, and the number of tasks for any other.
    ranks: Vec<u32>,
    /// The tasks that are removed, in order.
    removed: Vec<u32>,
    /// How many parents of each task, from the first on, are known to be removed.
    cursors: Vec<usize>,
}

/// The first parent from a place in the list on that isn't removed, or the list's length.
pub(crate) fn next_left(parents: &[u32], ranks: &[u32], from: usize) -> usize
    requires from { from ≤ length parents.now }
    requires places { All (λ parent. parent < length ranks.now) parents.now }
    ensures least { from ≤ result }
    ensures most { result ≤ length parents.now }
    ensures passed { (k : ℕ) → from ≤ k → k < result → slice_index ranks.now (slice_index parents.now k) < length ranks.now }
    ensures stops { result < length parents.now → length ranks.now ≤ slice_index ranks.now (slice_index parents.now result) }
{
    for next in from..parents.len() {
        if ranks[parents[next] as usize] as usize >= ranks.len() {
            return next;
        }
    }
    parents.len()
}

/// Removes a task if all its parents are removed, and else leaves its cursor at one that isn't.
fn settle(above: &[List<u32>], removal: &mut Removal, task: u32) -> Result<(), AllocError>
    requires few { length above.now < 2 ^ 32 }
    requires inside { IsInside above.now }
    requires exists { task < length above.now }
    requires removing { IsRemoving above.now removal.old.ranks.items removal.old.removed.items removal.old.cursors.items }
    ensures removing { OnOk result (IsRemoving above.now removal.new.ranks.items removal.new.removed.items removal.new.cursors.items) }
    ensures more { length removal.old.removed.items ≤ length removal.new.removed.items }
    ensures settled { OnOk result ((step place : ℕ) → step ≤ length removal.old.removed.items → place < length above.now
        → (place ≡ task) ⊎ Waits above.now removal.old.ranks.items removal.old.cursors.items step place
        → Waits above.now removal.new.ranks.items removal.new.cursors.items step place) }
{
    let place = task as usize;
    if (removal.ranks[place] as usize) < removal.ranks.len() {
        return Ok(());
    }
    let parents = above[place].as_slice();
    let next = next_left(parents, removal.ranks.as_slice(), removal.cursors[place]);
    if next == parents.len() {
        let rank = removal.removed.len() as u32;
        removal.removed.push(task)?;
        removal.ranks[place] = rank;
    }
    removal.cursors[place] = next;
    Ok(())
}

/// Removes those of some tasks whose parents are all removed.
fn settle_all(above: &[List<u32>], removal: &mut Removal, tasks: &[u32]) -> Result<(), AllocError>
    requires few { length above.now < 2 ^ 32 }
    requires inside { IsInside above.now }
    requires exist { All (λ task. task < length above.now) tasks.now }
    requires removing { IsRemoving above.now removal.old.ranks.items removal.old.removed.items removal.old.cursors.items }
    ensures removing { OnOk result (IsRemoving above.now removal.new.ranks.items removal.new.removed.items removal.new.cursors.items) }
    ensures more { length removal.old.removed.items ≤ length removal.new.removed.items }
    ensures settled { OnOk result ((step place : ℕ) → step ≤ length removal.old.removed.items → place < length above.now
        → IsTrue (is_among tasks.now place) ⊎ Waits above.now removal.old.ranks.items removal.old.cursors.items step place
        → Waits above.now removal.new.ranks.items removal.new.cursors.items step place) }
{
    for task in tasks {
        settle(above, removal, *task)?;
    }
    Ok(())
}

/// Nothing is removed yet.
fn start(alloc: Global, count: usize) -> Result<Removal, AllocError>
    requires { count < 2 ^ 32 }
    ensures ranks { IfOk result (λ removal. removal.ranks.items ≡ replicate count count) }
    ensures removed { IfOk result (λ removal. removal.removed.items ≡ []) }
    ensures cursors { IfOk result (λ removal. removal.cursors.items ≡ replicate count 0) }
{
    Ok(Removal {
        ranks: vec![in alloc; count as u32; count]?,
        removed: Vec::with_capacity(alloc, count)?,
        cursors: vec![in alloc; 0; count]?,
    })
}

/// All places.
pub(crate) fn places(alloc: Global, count: usize) -> Result<Vec<u32>, AllocError>
    requires { count < 2 ^ 32 }
    ensures { IfOk result (λ places. places.items ≡ range_with_len 0 count) }
{
    let mut places = Vec::with_capacity(alloc, count)?;
    for place in 0..count as u32 {
        places.push(place)?;
    }
    Ok(places)
}

/// Removes what can be removed, each task after its parents, in time near the number of tasks and parents: the rank
/// of each task, and the number of tasks for each that is left.
pub(crate) fn remove(alloc: Global, above: &[List<u32>]) -> Result<Vec<u32>, AllocError>
    requires few { length above.now < 2 ^ 32 }
    requires inside { IsInside above.now }
    ensures { IfOk result (λ ranks. IsRemoved above.now ranks.items) }
{
    let below = children(alloc, above)?;
    let all = places(alloc, above.len())?;
    let mut removal = start(alloc, above.len())?;
    settle_all(above, &mut removal, all.as_slice())?;
    let mut next = 0;
    while next < removal.removed.len() {
        let task = removal.removed[next];
        next += 1;
        settle_all(above, &mut removal, below[task as usize].as_slice())?;
    }
    let Removal { ranks, .. } = removal;
    Ok(ranks)
}
