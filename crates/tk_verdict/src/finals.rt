ghost use Rattle.std.specs.Prelude.{◌≡◌, ◌<◌, ◌^◌, length, map, None, find, nat_le, IfOk, option_copied};
ghost use Rattle.std.specs.List.{list_all, range_with_len};
ghost use Rattle.tk_types.specs.declared.verdict.Verdict.TheVariants.{Ready, Waits};
ghost use Rattle.tk_verdict.specs.Bindings.{combinations_in as combinations_of};
ghost use Rattle.tk_types.specs.Behaviour.{level_of};
ghost use Rattle.tk_verdict.specs.Facts.{children_of, first_late_stop, task_total};
ghost use Rattle.tk_verdict.specs.Gathered.{final_line, final_row as row_of_final, IsGatheredFor, IsReadable};
ghost use Rattle.tk_verdict.specs.Labels.{label_by as label_of};
ghost use Rattle.tk_verdict.specs.Readings.{ReadsBody, ReadsTask};
ghost use Rattle.tk_verdict.specs.Verdict.{is_done as is_done_label};
ghost use Rattle.tk_verdict.specs.Words.{env_with, finally_env, status_words as words_of_status};

use crate::groups::Groups;
use crate::judge::label_by;
use crate::label::is_done;
use crate::missing::lacks_any_result;
use crate::own::{own_of, own_row};
use std::alloc::{AllocError, Global};
use tk_bind::{EnvIndex, Lookup};
use tk_early::task_words;
use tk_types::{Child, Facts, PipelineTask, SkipReason, Stop, TaskBody, Verdict};

/// Whether all tasks with these labels are done.
pub fn are_all_done(labels: &[Verdict]) -> bool
    ensures { result ≡ list_all is_done_label labels.now }
{
    labels.iter().all(|label| is_done(*label))
}

/// Whether a stop reaches the tasks of `finally`.
fn is_late(stop: Stop) -> bool
    ensures { result ≡ nat_le 3 (level_of stop) }
{
    matches!(
        stop,
        Stop::FinallyTimeout | Stop::Cancelled | Stop::PipelineTimeout
    )
}

/// The first stop that reaches the tasks of `finally`.
pub fn late_stop(facts: &Facts) -> Option<Stop>
    ensures { result ≡ first_late_stop facts.now }
{
    for stop in facts.stops.as_slice() {
        if is_late(*stop) {
            return Some(*stop);
        }
    }
    None
}

/// The label of a task of `finally`, as its texts stand in an environment, once all of `tasks` are done. The only error is
/// want of memory.
pub fn due_label(
    alloc: Global,
    lookup: &Lookup,
    children: &[&Child],
    task: &PipelineTask,
    body: &TaskBody,
    stop: Option<Stop>,
) -> Result<Verdict, AllocError>
    requires reads { ReadsTask task.now }
    requires reads_body { ReadsBody body.now }
    ensures { IfOk result (λ label. label ≡ label_of (map (λ c. c.now) children.now) (combinations_of lookup.now task.now) (row_of_final lookup.now task.now body.now) stop Ready) }
{
    let own = own_of(alloc, lookup, task)?;
    let row = if lacks_any_result(alloc, lookup, task)? {
        Some(SkipReason::Missing)
    } else {
        own_row(alloc, body, &own)?
    };
    label_by(
        alloc,
        children,
        &own.combined.list,
        row,
        stop,
        Verdict::Ready,
    )
}

/// The label of a task of `finally`, as its texts stand in an environment, before all of `tasks` are done. The only error is
/// want of memory.
pub fn early_label(
    alloc: Global,
    lookup: &Lookup,
    children: &[&Child],
    task: &PipelineTask,
) -> Result<Verdict, AllocError>
    requires reads { ReadsTask task.now }
    ensures { IfOk result (λ label. label ≡ label_of (map (λ c. c.now) children.now) (combinations_of lookup.now task.now) None None Waits) }
{
    if children.is_empty() {
        return label_by(alloc, children, &None, None, None, Verdict::Waits);
    }
    let own = own_of(alloc, lookup, task)?;
    label_by(
        alloc,
        children,
        &own.combined.list,
        None,
        None,
        Verdict::Waits,
    )
}

/// The label of the k-th task of `finally`, with these labels of `tasks`. The only error is want of memory.
fn judge_final(
    alloc: Global,
    facts: &Facts,
    groups: &Groups,
    index: &EnvIndex,
    labels: &[Verdict],
    k: usize,
) -> Result<Verdict, AllocError>
    requires few { task_total facts.now < 2 ^ 32 }
    requires readable { IsReadable facts.now }
    requires gathered { IsGatheredFor facts.now labels.now groups.now index.now }
    requires exists { k < length facts.now.spec.finally }
    ensures { IfOk result (λ label. label ≡ final_line facts.now labels.now k) }
{
    let place = facts.spec.tasks.len() + k;
    let task = &facts.spec.finally.as_slice()[k];
    let body = &facts.spec.bodies.as_slice()[place];
    let children = groups.at(place as u32);
    let words = task_words(alloc, &facts.spec, task)?;
    let lookup = Lookup::new(index, words.as_slice());
    if are_all_done(labels) {
        due_label(alloc, &lookup, children, task, body, late_stop(facts))
    } else {
        early_label(alloc, &lookup, children, task)
    }
}

/// The labels of the tasks of `finally`, with these labels of `tasks`. The only error is want of memory.
pub(crate) fn final_labels(
    alloc: Global,
    facts: &Facts,
    groups: &Groups,
    index: &EnvIndex,
    labels: &[Verdict],
) -> Result<Vec<Verdict>, AllocError>
    requires few { task_total facts.now < 2 ^ 32 }
    requires readable { IsReadable facts.now }
    requires gathered { IsGatheredFor facts.now labels.now groups.now index.now }
    ensures { IfOk result (λ made. made.items ≡ map (final_line facts.now labels.now) (range_with_len 0 (length facts.now.spec.finally))) }
{
    let count = facts.spec.finally.len();
    let mut made = Vec::with_capacity(alloc, count)?;
    for k in 0..count {
        made.push(judge_final(alloc, facts, groups, index, labels, k)?)?;
    }
    Ok(made)
}
