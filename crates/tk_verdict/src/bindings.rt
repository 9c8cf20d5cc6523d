ghost use Rattle.std.specs.Prelude.{◌≡◌, ◌<◌, ◌≤◌, ◌^◌, length, map, IfOk};
ghost use Rattle.tk_verdict.specs.Available.{available_results as results_available};
ghost use Rattle.tk_verdict.specs.Facts.{task_total};
ghost use Rattle.tk_verdict.specs.Gathered.{IsReadable};
ghost use Rattle.tk_verdict.specs.Labels.{bindings_at as bindings_of_place, bindings_in as bindings_of, labels_of, ready_bindings as bindings_of_ready};
ghost use Rattle.tk_verdict.specs.Readings.{ReadsTask};
ghost use Rattle.tk_verdict.specs.Verdict.{is_ready as is_ready_label};
ghost use Rattle.tk_verdict.specs.WellFormed.{IsWellFormed};
ghost use Rattle.tk_verdict.specs.Words.{finally_env, task_env};

use crate::combined::combinations_in;
use crate::groups::Groups;
use crate::parents::label_at;
use crate::status::status_words;
use std::alloc::{AllocError, Global};
use tk_bind::{EnvIndex, Given, Lookup};
use tk_early::task_words;
use tk_types::{Binding, Facts, List, Param, PipelineTask, TryCopy, Verdict};

/// Bindings of these parameters.
fn bindings(alloc: Global, combinations: &[List<Param>]) -> Result<List<Binding>, AllocError>
    ensures { IfOk result (λ bindings. bindings ≡ map (λ params. record { params = params }) combinations.now) }
{
    let mut made = List::new(alloc);
    for params in combinations {
        made.push(Binding {
            params: params.copy(alloc)?,
        })?;
    }
    Ok(made)
}

/// The bindings of a task's combinations in an environment. The only error is want of memory.
pub fn bindings_in(
    alloc: Global,
    lookup: &Lookup,
    task: &PipelineTask,
) -> Result<Option<List<Binding>>, AllocError>
    requires { ReadsTask task.now }
    ensures { IfOk result (λ made. made ≡ bindings_of lookup.now task.now) }
{
    let combined = combinations_in(alloc, lookup, task)?;
    match &combined.list {
        Some(combinations) => Ok(Some(bindings(alloc, combinations.as_slice())?)),
        None => Ok(None),
    }
}

/// The bindings of a task of `tasks`.
fn task_bindings(
    alloc: Global,
    facts: &Facts,
    results: &[Given],
    task: &PipelineTask,
) -> Result<Option<List<Binding>>, AllocError>
    requires reads { ReadsTask task.now }
    requires results { results.now ≡ results_available facts.now }
    ensures { IfOk result (λ made. made ≡ bindings_of (task_env facts.now task.now) task.now) }
{
    let words = task_words(alloc, &facts.spec, task)?;
    let index = EnvIndex::new(
        alloc,
        facts.spec.params.as_slice(),
        results,
        words.as_slice(),
    )?;
    let lookup = Lookup::new(&index, &[]);
    bindings_in(alloc, &lookup, task)
}

/// The bindings of a task of `finally`, with these labels of `tasks`.
fn final_bindings(
    alloc: Global,
    facts: &Facts,
    groups: &Groups,
    results: &[Given],
    labels: &[Verdict],
    task: &PipelineTask,
) -> Result<Option<List<Binding>>, AllocError>
    requires few { length facts.now.spec.tasks < 2 ^ 32 }
    requires reads { ReadsTask task.now }
    requires same { groups.now ≡ facts.now.children }
    requires results { results.now ≡ results_available facts.now }
    ensures { IfOk result (λ made. made ≡ bindings_of (finally_env facts.now labels.now task.now) task.now) }
{
    let own = task_words(alloc, &facts.spec, task)?;
    let words = status_words(alloc, facts, groups, labels)?;
    let index = EnvIndex::new(
        alloc,
        facts.spec.params.as_slice(),
        results,
        words.as_slice(),
    )?;
    let lookup = Lookup::new(&index, own.as_slice());
    bindings_in(alloc, &lookup, task)
}

/// The bindings of the task at a place, with these labels of `tasks` in front of others.
fn bindings_at(
    alloc: Global,
    facts: &Facts,
    groups: &Groups,
    results: &[Given],
    labels: &[Verdict],
    place: u32,
) -> Result<Option<List<Binding>>, AllocError>
    requires few { task_total facts.now < 2 ^ 32 }
    requires readable { IsReadable facts.now }
    requires same { groups.now ≡ facts.now.children }
    requires results { results.now ≡ results_available facts.now }
    requires long { length facts.now.spec.tasks ≤ length labels.now }
    ensures { IfOk result (λ made. made ≡ bindings_of_place facts.now labels.now place) }
{
    let tasks = facts.spec.tasks.as_slice();
    let place = place as usize;
    if place < tasks.len() {
        return task_bindings(alloc, facts, results, &tasks[place]);
    }
    let finals = facts.spec.finally.as_slice();
    let k = place - tasks.len();
    if k < finals.len() {
        let front = &labels[..tasks.len()];
        return final_bindings(alloc, facts, groups, results, front, &finals[k]);
    }
    Ok(None)
}

/// Whether the task is to get children.
fn is_ready(label: Verdict) -> bool
    ensures { result ≡ is_ready_label label }
{
    matches!(label, Verdict::Ready)
}

/// The same, where the task is Ready.
pub(crate) fn ready_bindings(
    alloc: Global,
    facts: &Facts,
    groups: &Groups,
    results: &[Given],
    labels: &[Verdict],
    task: u32,
) -> Result<Option<List<Binding>>, AllocError>
    requires well_formed { IsWellFormed facts.now }
    requires same { groups.now ≡ facts.now.children }
    requires results { results.now ≡ results_available facts.now }
    requires labels { labels.now ≡ labels_of facts.now }
    ensures { IfOk result (λ made. made ≡ bindings_of_ready facts.now labels.now task) }
{
    if !is_ready(label_at(labels, task as usize)) {
        return Ok(None);
    }
    bindings_at(alloc, facts, groups, results, labels, task)
}
