ghost use Rattle.std.specs.Prelude.{◌≡◌, ◌++◌, ◌<◌, ◌^◌, [], flat_map, map, All, IfOk, OnOk};
ghost use Rattle.std.specs.List.{enumerate_from};
ghost use Rattle.serde_json.specs.View.{view};
ghost use Rattle.tk_types.specs.Behaviour.{tasks_of};
ghost use Rattle.tk_verdict.specs.Gives.{first_labels};
ghost use Rattle.tk_verdict.specs.Readings.{ReadsTask};
ghost use Rattle.tk_verdict.specs.WellFormed.{IsWellFormed};
ghost use Rattle.tk_verdict.specs.Words.{env_with, status_words};
ghost use Rattle.tk_cache.specs.Views.{seen};
ghost use Rattle.tk_report.specs.Json.{all_skipped, skipped_data_at};
ghost use Rattle.tk_report.specs.Objects.{IsPrintable};

use crate::data::skipped_data;
use crate::facts::facts_in;
use crate::guards::{env_index, final_words, guards_shown};
use crate::run::skip_at;
use crate::words::run_skips;
use serde_json::Value as Json;
use std::alloc::{AllocError, Global};
use tk_bind::EnvIndex;
use tk_cache::Cache;
use tk_journal::{RunState, Skip};
use tk_types::{Facts, List, PipelineTask};
use tk_verdict::Decision;

/// Adds the task at a place, if it was skipped.
fn push_skipped(
    alloc: Global,
    items: &mut Vec<Json>,
    facts: &Facts,
    first: &EnvIndex,
    last: &EnvIndex,
    skips: &[Skip],
    place: usize,
    task: &PipelineTask,
) -> Result<(), AllocError>
    requires reads { ReadsTask task.now }
    requires first { first.now ≡ env_with facts.now [] }
    requires last { last.now ≡ env_with facts.now (status_words facts.now (first_labels facts.now)) }
    ensures { OnOk result (map view items.new.items ≡ map view items.old.items ++ skipped_data_at facts.now skips.now (place, task.now)) }
{
    if let Some(reason) = skip_at(place, skips) {
        let guards = guards_shown(alloc, facts, first, last, place, task)?;
        items.push(skipped_data(alloc, task.name.as_str(), reason, guards.as_slice())?)?;
    }
    Ok(())
}

/// Adds the skipped ones of tasks; the first one has this place.
fn push_all_skipped(
    alloc: Global,
    items: &mut Vec<Json>,
    facts: &Facts,
    first: &EnvIndex,
    last: &EnvIndex,
    skips: &[Skip],
    start: usize,
    tasks: &[PipelineTask],
) -> Result<(), AllocError>
    requires reads { All ReadsTask tasks.now }
    requires first { first.now ≡ env_with facts.now [] }
    requires last { last.now ≡ env_with facts.now (status_words facts.now (first_labels facts.now)) }
    requires within { start < 2 ^ 63 }
    ensures { OnOk result (map view items.new.items ≡ map view items.old.items ++ flat_map (skipped_data_at facts.now skips.now) (enumerate_from start tasks.now)) }
{
    for (index, task) in tasks.iter().enumerate() {
        push_skipped(alloc, items, facts, first, last, skips, start + index, task)?;
    }
    Ok(())
}

/// The skipped tasks of a run, as its texts stand in environments.
fn skipped_in(
    alloc: Global,
    facts: &Facts,
    first: &EnvIndex,
    last: &EnvIndex,
    skips: &[Skip],
) -> Result<Vec<Json>, AllocError>
    requires formed { IsWellFormed facts.now }
    requires first { first.now ≡ env_with facts.now [] }
    requires last { last.now ≡ env_with facts.now (status_words facts.now (first_labels facts.now)) }
    ensures { IfOk result (λ items. map view items.items ≡ flat_map (skipped_data_at facts.now skips.now) (enumerate_from 0 (tasks_of facts.now.spec))) }
{
    let mut items = Vec::new(alloc);
    let tasks = facts.spec.tasks.as_slice();
    push_all_skipped(alloc, &mut items, facts, first, last, skips, 0, tasks)?;
    let finally = facts.spec.finally.as_slice();
    push_all_skipped(
        alloc,
        &mut items,
        facts,
        first,
        last,
        skips,
        tasks.len(),
        finally,
    )?;
    Ok(items)
}

/// The skipped tasks of a run with these facts.
fn skipped_of(alloc: Global, facts: &Facts, skips: &[Skip]) -> Result<Vec<Json>, AllocError>
    requires { IsWellFormed facts.now }
    ensures { IfOk result (λ items. map view items.items ≡ flat_map (skipped_data_at facts.now skips.now) (enumerate_from 0 (tasks_of facts.now.spec))) }
{
    let decision = Decision::new(alloc, facts)?;
    let words = final_words(alloc, facts, &decision)?;
    let none = List::new(alloc);
    let first = env_index(alloc, facts, decision.given(), none.as_slice())?;
    let last = env_index(alloc, facts, decision.given(), words.as_slice())?;
    skipped_in(alloc, facts, &first, &last, skips)
}

/// The skipped tasks of a run. Where there are none, the run isn't labelled.
#[tactic(auto, using(crate::proofs::NoneSkipped::none_skipped))]
pub(crate) fn run_skipped(
    alloc: Global,
    objects: &Cache,
    run: &RunState,
) -> Result<Vec<Json>, AllocError>
    requires { IsPrintable (seen objects.now).view run.now }
    ensures { IfOk result (λ items. map view items.items ≡ all_skipped (seen objects.now).view run.now) }
{
    let skips = run_skips(run);
    if skips.is_empty() {
        return Ok(Vec::new(alloc));
    }
    let facts = facts_in(alloc, objects, run)?;
    skipped_of(alloc, &facts, skips)
}
