ghost use Rattle.std.specs.Prelude.{◌≡◌, ◌<◌, [], length, map, None, Some, Option, List as Items, IfOk};
ghost use Rattle.tk_types.specs.declared.value.Param.{Param as ParamRecord};
ghost use Rattle.tk_types.specs.declared.verdict.SkipReason.TheVariants.{Parent};
ghost use Rattle.tk_types.specs.declared.verdict.Verdict.{Verdict as VerdictOf};
ghost use Rattle.tk_types.specs.declared.verdict.Verdict.TheVariants.{Ready, Waits};
ghost use Rattle.tk_verdict.specs.Bindings.{combinations_in as combinations_of};
ghost use Rattle.tk_verdict.specs.Gathered.{good_row as row_of_good, labelled, IsGathered, IsReadable};
ghost use Rattle.tk_verdict.specs.Labels.{label_by as label_of, verdict_line};
ghost use Rattle.tk_graph.specs.Parents.{parents as parents_of};
ghost use Rattle.tk_verdict.specs.Own.{own_in};
ghost use Rattle.tk_verdict.specs.Readings.{ReadsBody, ReadsTask};
ghost use Rattle.tk_verdict.specs.Words.{env_with, task_env};

use crate::groups::Groups;
use crate::judge::label_by;
use crate::own::{Own, own_of, own_row};
use crate::parents::{are_good, is_blocked, lacks_result};
use std::alloc::{AllocError, Global};
use tk_bind::{EnvIndex, Lookup};
use tk_early::task_words;
use tk_types::{Child, Facts, PipelineTask, SkipReason, Stop, TaskBody, Verdict};

/// What the own texts of a task of `tasks` give.
pub(crate) fn task_own(
    alloc: Global,
    facts: &Facts,
    index: &EnvIndex,
    task: &PipelineTask,
) -> Result<Own, AllocError>
    requires reads { ReadsTask task.now }
    requires env { index.now ≡ env_with facts.now [] }
    ensures { IfOk result (λ own. own ≡ own_in (task_env facts.now task.now) task.now) }
{
    let words = task_words(alloc, &facts.spec, task)?;
    let lookup = Lookup::new(index, words.as_slice());
    own_of(alloc, &lookup, task)
}

/// Why a task whose parents are good is skipped, where it is.
fn good_row(
    alloc: Global,
    facts: &Facts,
    labels: &[Verdict],
    parents: &[u32],
    task: &PipelineTask,
    body: &TaskBody,
    own: &Own,
) -> Result<Option<SkipReason>, AllocError>
    requires reads { ReadsBody body.now }
    requires own { own.now ≡ own_in (task_env facts.now task.now) task.now }
    ensures { IfOk result (λ row. row ≡ row_of_good facts.now (labelled labels.now parents.now) task.now body.now) }
{
    if lacks_result(alloc, facts, labels, parents, task)? {
        return Ok(Some(SkipReason::Missing));
    }
    own_row(alloc, body, own)
}

/// The label of a task that has a parent by which it is skipped.
fn blocked_label(
    alloc: Global,
    children: &[&Child],
    stop: Option<Stop>,
) -> Result<Verdict, AllocError>
    ensures { IfOk result (λ label. (combinations : Option (Items (Items ParamRecord))) (next : VerdictOf)
        → label ≡ label_of (map (λ c. c.now) children.now) combinations (Some Parent) stop next) }
{
    let row = Some(SkipReason::Parent);
    label_by(alloc, children, &None, row, stop, Verdict::Waits)
}

/// The label of a task with a parent that isn't good yet, and none by which it is skipped.
fn waiting_label(
    alloc: Global,
    facts: &Facts,
    index: &EnvIndex,
    children: &[&Child],
    task: &PipelineTask,
    stop: Option<Stop>,
) -> Result<Verdict, AllocError>
    requires reads { ReadsTask task.now }
    requires env { index.now ≡ env_with facts.now [] }
    ensures { IfOk result (λ label. label ≡ label_of (map (λ c. c.now) children.now) (combinations_of (task_env facts.now task.now) task.now) None stop Waits) }
{
    if children.is_empty() {
        return label_by(alloc, children, &None, None, stop, Verdict::Waits);
    }
    let own = task_own(alloc, facts, index, task)?;
    label_by(
        alloc,
        children,
        &own.combined.list,
        None,
        stop,
        Verdict::Waits,
    )
}

/// The label of the task of `tasks` at a place, by its parents' labels. The only error is want of memory.
pub(crate) fn judge_task(
    alloc: Global,
    facts: &Facts,
    groups: &Groups,
    good: &[bool],
    index: &EnvIndex,
    labels: &[Verdict],
    parents: &[u32],
    place: u32,
) -> Result<Verdict, AllocError>
    requires readable { IsReadable facts.now }
    requires gathered { IsGathered facts.now groups.now good.now index.now }
    requires parents { parents.now ≡ parents_of facts.now.spec.tasks place }
    requires exists { place < length facts.now.spec.tasks }
    ensures { IfOk result (λ label. label ≡ verdict_line facts.now labels.now place) }
{
    let task = &facts.spec.tasks.as_slice()[place as usize];
    let body = &facts.spec.bodies.as_slice()[place as usize];
    let children = groups.at(place);
    let stop = facts.stops.as_slice().first().copied();
    if is_blocked(parents, labels) {
        return blocked_label(alloc, children, stop);
    }
    if !are_good(facts, good, labels, parents) {
        return waiting_label(alloc, facts, index, children, task, stop);
    }
    let own = task_own(alloc, facts, index, task)?;
    let row = good_row(alloc, facts, labels, parents, task, body, &own)?;
    label_by(
        alloc,
        children,
        &own.combined.list,
        row,
        stop,
        Verdict::Ready,
    )
}
