ghost use Rattle.std.specs.Prelude.{◌≡◌, ◌↔◌, All, IfOk, IsTrue};
ghost use Rattle.tk_spec_sound.specs.Parts.{HasSoundForm, IsSoundTask};

use crate::children::has_few_children;
use crate::graph::{has_entry, has_parents};
use crate::limits::{are_few_retries, is_short};
use crate::names::is_label;
use crate::texts::task_reads;
use std::alloc::{AllocError, Global};
use tk_early::RunValues;
use tk_graph::Names;
use tk_types::PipelineTask;

/// Whether a task has a label as its name, an entry in its matrix, few retries and a short timeout.
fn has_sound_form(task: &PipelineTask) -> bool
    ensures { IsTrue result ↔ HasSoundForm task.now }
{
    if !is_label(&task.name) {
        return false;
    }
    if !has_entry(task) {
        return false;
    }
    if !are_few_retries(task.retries) {
        return false;
    }
    is_short(task.timeout)
}

/// Whether a task of a run keeps the rules that are asked of each.
fn is_sound_task(
    alloc: Global,
    names: &Names,
    values: &RunValues<'_>,
    task: &PipelineTask,
) -> Result<bool, AllocError>
    requires { names.now ≡ values.now.tasks }
    ensures { IfOk result (λ yes. IsTrue yes ↔ IsSoundTask values.now task.now) }
{
    if !has_sound_form(task) {
        return Ok(false);
    }
    if !task_reads(alloc, task)? {
        return Ok(false);
    }
    if !has_parents(alloc, names, task)? {
        return Ok(false);
    }
    has_few_children(alloc, values, task)
}

/// Whether each of some tasks of a run keeps the rules that are asked of each. The only error is want of memory.
pub(crate) fn are_sound_tasks(
    alloc: Global,
    names: &Names,
    values: &RunValues<'_>,
    tasks: &[PipelineTask],
) -> Result<bool, AllocError>
    requires { names.now ≡ values.now.tasks }
    ensures { IfOk result (λ yes. IsTrue yes ↔ All (IsSoundTask values.now) tasks.now) }
{
    for task in tasks {
        if !is_sound_task(alloc, names, values, task)? {
            return Ok(false);
        }
    }
    Ok(true)
}
