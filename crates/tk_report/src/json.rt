ghost use Rattle.std.specs.Prelude.{◌≡◌, ◌++◌, ◌<◌, ◌^◌, ◌≤◌, [], flat_map, map, IfOk, OnOk};
ghost use Rattle.std.specs.List.{enumerate_from};
ghost use Rattle.std.specs.Option.{ForSome};
ghost use Rattle.serde_json.specs.View.{view};
ghost use Rattle.tk_types.specs.Behaviour.{tasks_of};
ghost use Rattle.tk_cache.specs.Views.{seen};
ghost use Rattle.tk_report.specs.Admitted.{named};
ghost use Rattle.tk_report.specs.Json.{child_data_at, children_data, data_at, list_data, object_data, report_data, report_json_text, run_data, task_run_data};
ghost use Rattle.tk_report.specs.Objects.{ArePrintable, HasFewChildren, IsPrintable};

use crate::admitted::{Named, admitted};
use crate::data::{child_data, moment_data, results_data};
use crate::run::{child_count, name_of_child};
use crate::skipped::run_skipped;
use crate::words::{
    Status, run_reason, run_results, run_status, task_run_reason, task_run_results, task_run_status,
};
use serde_json::{Value as Json, json};
use std::alloc::{AllocError, Global};
use tk_cache::Cache;
use tk_journal::{Journal, RunState, TaskRunState};
use tk_types::{Kind, Param, PipelineTask, Text};

/// An object with its children, its skipped tasks and its results.
fn object_data(
    alloc: Global,
    kind: &str,
    name: &str,
    status: Status,
    reason: &str,
    start: Json,
    children: Vec<Json>,
    skipped: Vec<Json>,
    results: &[Param],
) -> Result<Json, AllocError>
    ensures { IfOk result (λ json. view json ≡ object_data kind.now name.now status reason.now (view start) (map view children.items) (map view skipped.items) results.now) }
{
    let results = results_data(alloc, results)?;
    let status = status.word();
    json!(in alloc; {
        "childReferences": children,
        "kind": kind,
        "name": name,
        "reason": reason,
        "results": results,
        "skippedTasks": skipped,
        "startTime": start,
        "status": status
    })
}

/// Adds a child of a task, if it is there.
fn push_child(
    alloc: Global,
    items: &mut Vec<Json>,
    objects: &Cache,
    run: &RunState,
    task: &PipelineTask,
    index: u32,
) -> Result<(), AllocError>
    ensures { OnOk result (map view items.new.items ≡ map view items.old.items ++ child_data_at (seen objects.now).view run.now task.now index) }
{
    let name = name_of_child(alloc, run, task, index)?;
    if let Some(task_run) = objects.task_run(name.as_str()) {
        items.push(child_data(alloc, task.name.as_str(), name.as_str(), index, task_run)?)?;
    }
    Ok(())
}

/// Adds the children of the task at a place, by index.
fn push_children(
    alloc: Global,
    items: &mut Vec<Json>,
    objects: &Cache,
    run: &RunState,
    place: usize,
    task: &PipelineTask,
) -> Result<(), AllocError>
    requires { HasFewChildren run.now }
    ensures { OnOk result (map view items.new.items ≡ map view items.old.items ++ children_data (seen objects.now).view run.now (place, task.now)) }
{
    for index in 0..child_count(place, run.scheduled.as_slice()) {
        push_child(alloc, items, objects, run, task, index as u32)?;
    }
    Ok(())
}

/// Adds the children of tasks; the first one has this place.
fn push_all_children(
    alloc: Global,
    items: &mut Vec<Json>,
    objects: &Cache,
    run: &RunState,
    start: usize,
    tasks: &[PipelineTask],
) -> Result<(), AllocError>
    requires few { HasFewChildren run.now }
    requires within { start < 2 ^ 63 }
    ensures { OnOk result (map view items.new.items ≡ map view items.old.items ++ flat_map (children_data (seen objects.now).view run.now) (enumerate_from start tasks.now)) }
{
    for (index, task) in tasks.iter().enumerate() {
        push_children(alloc, items, objects, run, start + index, task)?;
    }
    Ok(())
}

/// The children of a run, by task and index.
fn children_of(alloc: Global, objects: &Cache, run: &RunState) -> Result<Vec<Json>, AllocError>
    requires { HasFewChildren run.now }
    ensures { IfOk result (λ items. map view items.items ≡ flat_map (children_data (seen objects.now).view run.now) (enumerate_from 0 (tasks_of run.now.spec))) }
{
    let mut items = Vec::new(alloc);
    let tasks = run.spec.tasks.as_slice();
    push_all_children(alloc, &mut items, objects, run, 0, tasks)?;
    let finally = run.spec.finally.as_slice();
    push_all_children(alloc, &mut items, objects, run, tasks.len(), finally)?;
    Ok(items)
}

/// A run.
fn run_data(alloc: Global, objects: &Cache, name: &str, run: &RunState) -> Result<Json, AllocError>
    requires { IsPrintable (seen objects.now).view run.now }
    ensures { IfOk result (λ json. view json ≡ run_data (seen objects.now).view name.now run.now) }
{
    let start = moment_data(alloc, run.start)?;
    let children = children_of(alloc, objects, run)?;
    let skipped = run_skipped(alloc, objects, run)?;
    object_data(
        alloc,
        "PipelineRun",
        name,
        run_status(run),
        run_reason(run),
        start,
        children,
        skipped,
        run_results(run),
    )
}

/// A standalone TaskRun.
fn task_run_data(alloc: Global, name: &str, task_run: &TaskRunState) -> Result<Json, AllocError>
    ensures { IfOk result (λ json. view json ≡ task_run_data name.now task_run.now) }
{
    object_data(
        alloc,
        "TaskRun",
        name,
        task_run_status(task_run),
        task_run_reason(task_run),
        Json::Null,
        Vec::new(alloc),
        Vec::new(alloc),
        task_run_results(task_run),
    )
}

/// Adds an object, if it is there.
fn push_object(
    alloc: Global,
    items: &mut Vec<Json>,
    objects: &Cache,
    kind: Kind,
    name: &str,
) -> Result<(), AllocError>
    requires { ArePrintable (seen objects.now).view }
    ensures { OnOk result (map view items.new.items ≡ map view items.old.items ++ data_at (seen objects.now).view (kind, name.now)) }
{
    match kind {
        Kind::Runs => {
            if let Some(run) = objects.run(name) {
                items.push(run_data(alloc, objects, name, run)?)?;
            }
        }
        Kind::TaskRuns => {
            if let Some(task_run) = objects.task_run(name) {
                items.push(task_run_data(alloc, name, task_run)?)?;
            }
        }
        Kind::Pods => {}
    }
    Ok(())
}

/// The objects that are there.
fn objects_data(
    alloc: Global,
    objects: &Cache,
    found: &[Named<'_>],
) -> Result<Vec<Json>, AllocError>
    requires { ArePrintable (seen objects.now).view }
    ensures { IfOk result (λ items. map view items.items ≡ flat_map (data_at (seen objects.now).view) (map named found.now)) }
{
    let mut items = Vec::new(alloc);
    for object in found {
        push_object(alloc, &mut items, objects, object.kind, object.name)?;
    }
    Ok(items)
}

/// An array of the objects that are there.
fn array_of(alloc: Global, objects: &Cache, found: &[Named<'_>]) -> Result<Json, AllocError>
    requires { ArePrintable (seen objects.now).view }
    ensures { IfOk result (λ json. view json ≡ list_data (flat_map (data_at (seen objects.now).view) (map named found.now))) }
{
    Ok(Json::Array(objects_data(alloc, objects, found)?))
}

/// The report of the runs and standalone TaskRuns of a journal as compact JSON, one array in the order of their
/// admission, as these objects have them. The only error is want of memory.
pub(crate) fn report_json_of(
    alloc: Global,
    journal: &Journal,
    objects: &Cache,
) -> Result<Text, AllocError>
    requires { ArePrintable (seen objects.now).view }
    ensures { IfOk result (λ text. text ≡ report_json_text (seen objects.now).view journal.now.history) }
{
    let found = admitted(alloc, journal)?;
    let json = array_of(alloc, objects, found.as_slice())?;
    Ok(Text::from_string(json.to_string(alloc)?))
}
