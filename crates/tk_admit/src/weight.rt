ghost use Rattle.std.specs.Prelude.{◌≡◌, ℕ, All, IfOk, sum_by};
ghost use Rattle.std.specs.List.{zip};
ghost use Rattle.tk_journal.specs.declared.act.Admission.TheVariants.{Run, Task};
ghost use Rattle.tk_types.specs.Rejected.{Reads};
ghost use Rattle.tk_bind.specs.Readings.{ReadsPipelineTask};
ghost use Rattle.tk_early.specs.Possible.{told_count};
ghost use Rattle.tk_types.specs.Behaviour.{tasks_of};
ghost use Rattle.tk_admit.specs.Measure.{IsTallied};
ghost use Rattle.tk_admit.specs.Sound.{IsSoundRun};
ghost use Rattle.tk_journal.specs.Weight.{child_weight as weight_of_child, run_weight as weight_of_run, task_weight as weight_of_task};
ghost use Rattle.tk_admit.specs.Weight.{asks_of as asks_of_item, is_ask as is_ask_event, object_asks as asks_of_object, weight as weight_of, weight_finding};

use crate::objects::TakenRuns;
use std::alloc::{AllocError, Global};
use tk_early::RunValues;
use tk_types::{
    Detail, Event, Fault, Item, ItemObject, Location, MOST_WEIGHT, PipelineTask, Rejected, RunSpec,
    TaskBody, TaskRunSpec, told,
};

/// The weight of a TaskRun with these retries and this body.
fn child_weight(retries: u32, body: &TaskBody) -> u64
    ensures { result ≡ told_count (weight_of_child retries body.now) }
{
    let attempt = (body.spec.steps.len() as u64)
        .saturating_mul(2)
        .saturating_add(5);
    (u64::from(retries) + 1)
        .saturating_mul(attempt)
        .saturating_add(3)
}

/// The weight of the TaskRuns that a task may have.
fn task_weight(
    alloc: Global,
    values: &RunValues<'_>,
    task: &PipelineTask,
    body: &TaskBody,
) -> Result<u64, AllocError>
    requires { ReadsPipelineTask task.now }
    ensures { IfOk result (λ weight. weight ≡ told_count (weight_of_task values.now (task.now, body.now))) }
{
    let children = values.possible_children(alloc, task)?.unwrap_or(1);
    Ok(children.saturating_mul(child_weight(task.retries, body)))
}

/// The weight of the TaskRuns that the tasks of a run may have, each with its body.
fn tasks_weight(alloc: Global, spec: &RunSpec) -> Result<u64, AllocError>
    requires { All ReadsPipelineTask (tasks_of spec.now) }
    ensures { IfOk result (λ weight. weight ≡ told_count (sum_by (weight_of_task spec.now) (zip (tasks_of spec.now) spec.now.bodies))) }
{
    let values = RunValues::new(alloc, spec)?;
    let tasks = spec.tasks.as_slice().iter();
    let all = tasks.chain(spec.finally.as_slice());
    let mut total: u64 = 0;
    for (task, body) in all.zip(spec.bodies.as_slice()) {
        total = total.saturating_add(task_weight(alloc, &values, task, body)?);
    }
    Ok(total)
}

/// The weight of a PipelineRun.
pub(crate) fn pipeline_weight(alloc: Global, spec: &RunSpec) -> Result<u64, AllocError>
    requires { IsSoundRun spec.now }
    ensures { IfOk result (λ weight. weight ≡ told_count (weight_of_run (Run spec.now))) }
{
    let own = (spec.tasks.len() as u64)
        .saturating_add(spec.finally.len() as u64)
        .saturating_add(7);
    Ok(own.saturating_add(tasks_weight(alloc, spec)?))
}

/// The weight of a standalone TaskRun.
pub(crate) fn task_run_weight(spec: &TaskRunSpec) -> u64
    ensures { result ≡ told_count (weight_of_run (Task spec.now)) }
{
    child_weight(spec.retries, &spec.body).saturating_add(1)
}

/// Whether an event asks something of a run.
fn is_ask(event: &Event) -> bool
    ensures { result ≡ is_ask_event event.now }
{
    matches!(event, Event::Ask { .. })
}

/// How many asks an object has, if it is a Scenario.
fn object_asks(object: &ItemObject) -> u64
    ensures { result ≡ asks_of_object object.now }
{
    match object {
        ItemObject::Scenario { spec, .. } => {
            spec.events
                .as_slice()
                .iter()
                .filter(|event| is_ask(event))
                .count() as u64
        }
        _ => 0,
    }
}

/// How many asks the Scenarios have.
fn all_asks(items: &[Item]) -> u64
    ensures { result ≡ told_count (sum_by asks_of_item items.now) }
{
    let mut total: u64 = 0;
    for item in items {
        total = total.saturating_add(object_asks(&item.object));
    }
    total
}

/// The weight of an input with these asks besides those of its Scenarios; above 64 bits it is the greatest number.
pub(crate) fn weight(asks: u32, items: &[Item], runs: &TakenRuns) -> u64
    requires { IsTallied runs.now }
    ensures { result ≡ told_count (weight_of asks items.now runs.now.runs.items) }
{
    let asked = u64::from(asks).saturating_add(all_asks(items));
    asked.saturating_add(runs.weight)
}

/// Refuses a weight that is too great.
pub(crate) fn check_weight(alloc: Global, weight: u64) -> Result<(), Rejected>
    ensures { (total : ℕ) → weight ≡ told_count total → Reads (weight_finding total) tt result }
{
    if MOST_WEIGHT < weight {
        let detail = Detail::Sizes {
            limit: MOST_WEIGHT,
            count: weight,
        };
        return Err(told(alloc, Fault::TOO_LARGE, &Location::root(), detail));
    }
    Ok(())
}
