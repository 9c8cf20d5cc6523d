//! All labels after a change of one task's children.

ghost use Rattle.std.specs.Prelude.{◌≡◌, ◌<◌, ◌≤◌, ◌++◌, ℕ, length, map, nat_le, replicate, set, take, IfOk, OnOk};
ghost use Rattle.std.specs.List.{list_any, range_with_len};
ghost use Rattle.tk_types.specs.declared.run.Child.{Child as ChildRecord};
ghost use Rattle.tk_types.specs.declared.run.Facts.{Facts as FactsRecord};
ghost use Rattle.tk_types.specs.declared.verdict.Verdict.TheVariants.{Waits};
ghost use Rattle.tk_graph.specs.Parents.{parents as parents_of};
ghost use Rattle.tk_labels.specs.Kept.{of_run, IsRanked};
ghost use Rattle.tk_labels.specs.Reached.{WasKept};
ghost use Rattle.tk_labels.specs.Spans.{AreSpanned};
ghost use Rattle.tk_verdict.specs.Labels.{labels_of, verdict_line};
ghost use Rattle.tk_verdict.specs.Verdict.{label_at as label_of_place};
ghost use Rattle.tk_verdict.specs.WellFormed.{IsWellFormed};

use crate::anew::anew;
use crate::spans::{Kids, Span};
use crate::walk::{again, walk};
use std::alloc::{AllocError, Global};
use tk_types::{Child, Facts, List, Verdict};
use tk_vars::laws::one_bad_offset;
use tk_verdict::judging::{Ranked, are_all_done, label_at};
use tk_verdict::laws::one_labelling;

/// Whether a task of `finally` has a child, where `tasks` has so many tasks.
fn has_late_child(children: &[Child], count: usize) -> bool
    ensures { result ≡ list_any (λ (c : ChildRecord). nat_le count c.task) children.now }
{
    children.iter().any(|child| count <= child.task as usize)
}

/// Adds labels of tasks that wait.
fn push_waits(labels: &mut Vec<Verdict>, count: usize) -> Result<(), AllocError>
    ensures { OnOk result (labels.new.items ≡ labels.old.items ++ replicate count Waits) }
{
    for _i in 0..count {
        labels.push(Verdict::Waits)?;
    }
    Ok(())
}

/// The labels of `tasks` as they were, but for that of one task.
fn but_one(
    alloc: Global,
    was: &[Verdict],
    count: usize,
    task: u32,
    label: Verdict,
) -> Result<Vec<Verdict>, AllocError>
    requires exists { task < length was.now }
    requires few { count ≤ length was.now }
    ensures { IfOk result (λ labels. labels.items ≡ take count (set was.now task label)) }
{
    let mut labels = Vec::from_slice(alloc, was)?;
    labels[task as usize] = label;
    labels.truncate(count);
    Ok(labels)
}

/// The labels of `tasks`, of which the task at a place got children or had one end. Where those behind it see of it what they
/// saw before, they keep their labels; else `walk` gives them.
fn walked(
    alloc: Global,
    run: &Facts,
    kids: &Kids,
    parents: &[List<u32>],
    sequence: &[Ranked],
    was: &[Verdict],
    task: u32,
) -> Result<Vec<Verdict>, AllocError>
    requires formed { IsWellFormed (of_run run.now kids.now) }
    requires parents { parents.now ≡ map (parents_of run.now.spec.tasks) (range_with_len 0 (length run.now.spec.tasks)) }
    requires ranked { IsRanked run.now.spec.tasks sequence.now }
    ensures count { IfOk result (λ labels. length labels.items ≡ length run.now.spec.tasks) }
    ensures right { IfOk result (λ labels. (old : FactsRecord) → WasKept old (of_run run.now kids.now) task was.now → (place : ℕ) → place < length run.now.spec.tasks
        → label_of_place labels.items place ≡ verdict_line (of_run run.now kids.now) labels.items place) }
{
    one_bad_offset();
    let place = task as usize;
    if was.len() < parents.len() || parents.len() <= place {
        return walk(alloc, run, kids, parents, sequence, was, task);
    }
    let above = parents[place].as_slice();
    let before = label_at(was, place);
    let told = again(alloc, run, kids, was, above, before, task, task)?;
    if told.moved {
        return walk(alloc, run, kids, parents, sequence, was, task);
    }
    but_one(alloc, was, parents.len(), task, told.label)
}

/// The labels of a run of which the task at a place got children or had one end: while some of `tasks` isn't done and no
/// task of `finally` has children, all of those wait; else all are made anew. The only error is want of memory.
pub(crate) fn relabelled(
    alloc: Global,
    run: &Facts,
    children: &[Child],
    spans: &[Span],
    parents: &[List<u32>],
    sequence: &[Ranked],
    was: &[Verdict],
    task: u32,
) -> Result<Vec<Verdict>, AllocError>
    requires formed { IsWellFormed (of_run run.now children.now) }
    requires spanned { AreSpanned children.now spans.now }
    requires parents { parents.now ≡ map (parents_of run.now.spec.tasks) (range_with_len 0 (length run.now.spec.tasks)) }
    requires ranked { IsRanked run.now.spec.tasks sequence.now }
    ensures { IfOk result (λ labels. (old : FactsRecord) → WasKept old (of_run run.now children.now) task was.now → labels.items ≡ labels_of (of_run run.now children.now)) }
{
    one_labelling();
    if has_late_child(children, run.spec.tasks.len()) {
        return anew(alloc, run, children);
    }
    let kids = Kids::new(children, spans);
    let mut labels = walked(alloc, run, &kids, parents, sequence, was, task)?;
    if are_all_done(labels.as_slice()) {
        return anew(alloc, run, children);
    }
    push_waits(&mut labels, run.spec.finally.len())?;
    Ok(labels)
}
