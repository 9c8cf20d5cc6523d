//! The labels of `tasks` after a change of one task's children: only what the change can reach is judged.

ghost use Rattle.std.specs.Prelude.{◌≡◌, ◌<◌, ℕ, false, length, map, slice_index_or, vec_len, IfOk};
ghost use Rattle.std.specs.List.{list_any, range_with_len};
ghost use Rattle.tk_types.specs.declared.run.Facts.{Facts as FactsRecord};
ghost use Rattle.tk_graph.specs.Parents.{parents as parents_of};
ghost use Rattle.tk_labels.specs.Kept.{of_run, IsRanked};
ghost use Rattle.tk_labels.specs.Reached.{IsAgain, IsNext, ShowsAlike, WasKept};
ghost use Rattle.tk_verdict.specs.Labels.{verdict_line};
ghost use Rattle.tk_verdict.specs.Verdict.{label_at as label_of_place};
ghost use Rattle.tk_verdict.specs.WellFormed.{IsWellFormed};

use crate::judge::{is_good_at, judged};
use crate::spans::Kids;
use std::alloc::{AllocError, Global};
use tk_types::{Facts, List, Verdict};
use tk_vars::laws::one_bad_offset;
use tk_verdict::judging::{Ranked, blocks, is_skipped_by_when, label_at};

/// A task that was judged: its label, and whether the tasks behind it may see something else of it than before.
#[derive(Clone, Copy)]
pub(crate) struct Told {
    pub label: Verdict,
    pub moved: bool,
}

/// Whether a task with the second label shows something else than with the first.
fn shows_other(before: Verdict, after: Verdict) -> bool
    ensures { result ≡ false → ShowsAlike before after }
{
    blocks(before) != blocks(after) || is_skipped_by_when(before) != is_skipped_by_when(after)
}

/// The task at a place judged, which had a label before the change of a task's children.
pub(crate) fn again(
    alloc: Global,
    run: &Facts,
    kids: &Kids,
    labels: &[Verdict],
    parents: &[u32],
    before: Verdict,
    place: u32,
    task: u32,
) -> Result<Told, AllocError>
    requires formed { IsWellFormed (of_run run.now kids.now) }
    requires parents { parents.now ≡ parents_of run.now.spec.tasks place }
    requires exists { place < length run.now.spec.tasks }
    ensures { IfOk result (λ told. IsAgain (of_run run.now kids.now) labels.now before place task told.label told.moved) }
{
    let label = judged(alloc, run, kids, labels, parents, place)?;
    let moved = shows_other(before, label) || (place == task && is_good_at(run, kids, place));
    Ok(Told { label, moved })
}

/// Whether one of the tasks at some places moved.
fn any_moved(moved: &[bool], places: &[u32]) -> bool
    ensures { result ≡ list_any (λ p. slice_index_or moved.now p false) places.now }
{
    places.iter().any(|place| moved.get(*place as usize).copied().unwrap_or(false))
}

/// The label of the next task: judged where it is the changed one or a parent moved, and else the one that it had.
fn next_label(
    alloc: Global,
    run: &Facts,
    kids: &Kids,
    labels: &[Verdict],
    moved: &[bool],
    parents: &[u32],
    before: Verdict,
    place: u32,
    task: u32,
) -> Result<Told, AllocError>
    requires formed { IsWellFormed (of_run run.now kids.now) }
    requires parents { parents.now ≡ parents_of run.now.spec.tasks place }
    requires exists { place < length run.now.spec.tasks }
    ensures { IfOk result (λ told. IsNext (of_run run.now kids.now) labels.now moved.now parents.now before place task told.label told.moved) }
{
    if place == task || any_moved(moved, parents) {
        return again(alloc, run, kids, labels, parents, before, place, task);
    }
    Ok(Told {
        label: before,
        moved: false,
    })
}

/// As many labels, all of them waiting.
fn waiting(alloc: Global, count: usize) -> Result<Vec<Verdict>, AllocError>
    ensures { IfOk result (λ labels. vec_len labels ≡ count) }
{
    let mut labels = Vec::with_capacity(alloc, count)?;
    for _ in 0..count {
        labels.push(Verdict::Waits)?;
    }
    Ok(labels)
}

/// As many tasks, none of which moved.
fn unmoved(alloc: Global, count: usize) -> Result<Vec<bool>, AllocError>
    ensures { IfOk result (λ moved. vec_len moved ≡ count) }
{
    let mut moved = Vec::with_capacity(alloc, count)?;
    for _ in 0..count {
        moved.push(false)?;
    }
    Ok(moved)
}

/// The labels of `tasks`, of which the task at a place got children or had one end: that task is judged again, and each
/// behind one that shows something else than before. The others keep the labels that they had. The only error is want of
/// memory.
pub(crate) fn walk(
    alloc: Global,
    run: &Facts,
    kids: &Kids,
    parents: &[List<u32>],
    sequence: &[Ranked],
    was: &[Verdict],
    task: u32,
) -> Result<Vec<Verdict>, AllocError>
    requires formed { IsWellFormed (of_run run.now kids.now) }
    requires parents { parents.now ≡ map (parents_of run.now.spec.tasks) (range_with_len 0 (length run.now.spec.tasks)) }
    requires ranked { IsRanked run.now.spec.tasks sequence.now }
    ensures count { IfOk result (λ labels. length labels.items ≡ length run.now.spec.tasks) }
    ensures right { IfOk result (λ labels. (old : FactsRecord) → WasKept old (of_run run.now kids.now) task was.now → (place : ℕ) → place < length run.now.spec.tasks
        → label_of_place labels.items place ≡ verdict_line (of_run run.now kids.now) labels.items place) }
{
    one_bad_offset();
    let mut labels = waiting(alloc, parents.len())?;
    let mut moved = unmoved(alloc, parents.len())?;
    for next in sequence {
        let place = next.place as usize;
        let above = parents[place].as_slice();
        let told = next_label(
            alloc,
            run,
            kids,
            labels.as_slice(),
            moved.as_slice(),
            above,
            label_at(was, place),
            next.place,
            task,
        )?;
        moved[place] = told.moved;
        labels[place] = told.label;
    }
    Ok(labels)
}
