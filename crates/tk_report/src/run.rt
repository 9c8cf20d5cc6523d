ghost use Rattle.std.specs.Prelude.{◌≡◌, ◌++◌, ◌<◌, ◌^◌, length, flat_map, string_bytes, IfOk, OnOk};
ghost use Rattle.std.specs.List.{enumerate_from};
ghost use Rattle.tk_types.specs.Behaviour.{tasks_of};
ghost use Rattle.tk_journal.specs.Effects.{bindings_for};
ghost use Rattle.tk_journal.specs.Names.{index_in_name, name_of_child};
ghost use Rattle.tk_cache.specs.Views.{seen};
ghost use Rattle.tk_report.specs.Objects.{HasFewChildren};
ghost use Rattle.tk_report.specs.Report.{child_at, child_lines, has_one_line as has_no_details, run_details, run_text, skip_at, task_lines};

use crate::lines::{write_child, write_results, write_run_line, write_skipped};
use crate::words::{run_reason, run_results, run_skips, run_status};
use std::alloc::{AllocError, Global};
use tk_cache::Cache;
use tk_journal::{RunState, Scheduled, Skip};
use tk_names::child_name;
use tk_types::{PipelineTask, SkipReason, Start, Text};

/// Why the task at a place was skipped, if it was.
pub(crate) fn skip_at(place: usize, skips: &[Skip]) -> Option<SkipReason>
    ensures { result ≡ skip_at place skips.now }
{
    for skip in skips {
        if skip.task as usize == place {
            return Some(skip.reason);
        }
    }
    None
}

/// How many children the task at a place has.
pub(crate) fn child_count(place: usize, scheduled: &[Scheduled]) -> usize
    ensures { result ≡ length (bindings_for place scheduled.now) }
{
    for part in scheduled {
        if part.task as usize == place {
            return part.bindings.len();
        }
    }
    0
}

/// The name of a run's child by its task and index.
pub(crate) fn name_of_child(
    alloc: Global,
    run: &RunState,
    task: &PipelineTask,
    index: u32,
) -> Result<Text, AllocError>
    ensures { IfOk result (λ name. name ≡ name_of_child run.now.spec index task.now) }
{
    let index = task.matrix.as_ref().map(|_| index);
    child_name(alloc, run.spec.name.as_str(), task.name.as_str(), index)
}

/// Writes the line of a child behind `text`, if it is there.
fn write_child_at(
    alloc: Global,
    text: &mut String,
    objects: &Cache,
    run: &RunState,
    task: &PipelineTask,
    index: u32,
) -> Result<(), AllocError>
    ensures { OnOk result (string_bytes text.new ≡ string_bytes text.old ++ child_at (seen objects.now).view run.now task.now index) }
{
    let name = name_of_child(alloc, run, task, index)?;
    match objects.task_run(name.as_str()) {
        None => Ok(()),
        Some(task_run) => {
            write_child(
                alloc,
                text,
                task.name.as_str(),
                name.as_str(),
                index,
                task_run,
            )
        }
    }
}

/// Writes the lines of the children of the task at a place behind `text`, by index.
fn write_children(
    alloc: Global,
    text: &mut String,
    objects: &Cache,
    run: &RunState,
    place: usize,
    task: &PipelineTask,
) -> Result<(), AllocError>
    requires { HasFewChildren run.now }
    ensures { OnOk result (string_bytes text.new ≡ string_bytes text.old ++ child_lines (seen objects.now).view run.now place task.now) }
{
    for index in 0..child_count(place, run.scheduled.as_slice()) {
        write_child_at(alloc, text, objects, run, task, index as u32)?;
    }
    Ok(())
}

/// Writes the lines of the task at a place behind `text`.
fn write_task(
    alloc: Global,
    text: &mut String,
    objects: &Cache,
    run: &RunState,
    place: usize,
    task: &PipelineTask,
) -> Result<(), AllocError>
    requires { HasFewChildren run.now }
    ensures { OnOk result (string_bytes text.new ≡ string_bytes text.old ++ task_lines (seen objects.now).view run.now (place, task.now)) }
{
    match skip_at(place, run_skips(run)) {
        Some(reason) => write_skipped(text, task.name.as_str(), reason),
        None => write_children(alloc, text, objects, run, place, task),
    }
}

/// Writes the lines of tasks behind `text`; the first one has this place.
fn write_tasks(
    alloc: Global,
    text: &mut String,
    objects: &Cache,
    run: &RunState,
    start: usize,
    tasks: &[PipelineTask],
) -> Result<(), AllocError>
    requires few { HasFewChildren run.now }
    requires within { start < 2 ^ 63 }
    ensures { OnOk result (string_bytes text.new ≡ string_bytes text.old ++ flat_map (task_lines (seen objects.now).view run.now) (enumerate_from start tasks.now)) }
{
    for (index, task) in tasks.iter().enumerate() {
        write_task(alloc, text, objects, run, start + index, task)?;
    }
    Ok(())
}

/// Writes the lines of all tasks of a run behind `text`, those of `finally` last.
fn write_all_tasks(
    alloc: Global,
    text: &mut String,
    objects: &Cache,
    run: &RunState,
) -> Result<(), AllocError>
    requires { HasFewChildren run.now }
    ensures { OnOk result (string_bytes text.new ≡ string_bytes text.old ++ flat_map (task_lines (seen objects.now).view run.now) (enumerate_from 0 (tasks_of run.now.spec))) }
{
    let tasks = run.spec.tasks.as_slice();
    write_tasks(alloc, text, objects, run, 0, tasks)?;
    let finally = run.spec.finally.as_slice();
    write_tasks(alloc, text, objects, run, tasks.len(), finally)
}

/// Writes the lines of a run's tasks and results behind `text`.
fn write_details(
    alloc: Global,
    text: &mut String,
    objects: &Cache,
    run: &RunState,
) -> Result<(), AllocError>
    requires { HasFewChildren run.now }
    ensures { OnOk result (string_bytes text.new ≡ string_bytes text.old ++ run_details (seen objects.now).view run.now) }
{
    write_all_tasks(alloc, text, objects, run)?;
    write_results(alloc, text, run_results(run))
}

/// Whether there is no more to say of a run: it is pending, or can't start.
fn has_one_line(run: &RunState) -> bool
    ensures { result ≡ has_no_details run.now }
{
    run.pending || matches!(run.spec.start, Start::Unstartable(_))
}

/// Writes the lines of a run behind `text`.
pub(crate) fn write_run(
    alloc: Global,
    text: &mut String,
    objects: &Cache,
    name: &str,
    run: &RunState,
) -> Result<(), AllocError>
    requires { HasFewChildren run.now }
    ensures { OnOk result (string_bytes text.new ≡ string_bytes text.old ++ run_text (seen objects.now).view name.now run.now) }
{
    write_run_line(text, name, run_status(run), run_reason(run))?;
    if has_one_line(run) {
        return Ok(());
    }
    write_details(alloc, text, objects, run)
}
