ghost use Rattle.std.specs.Prelude.{◌≡◌, ◌<◌, ◌^◌, length, IfOk};
ghost use Rattle.std.specs.List.{list_all};
ghost use Rattle.tk_verdict.specs.Labels.{labels_of};
ghost use Rattle.tk_journal.specs.RunRows.{facts_in};
ghost use Rattle.tk_cache.specs.Views.{seen};
ghost use Rattle.tk_runrec.specs.Choice.{all_closed, seen_children, is_over, close as close_row, closing as closing_of};
ghost use Rattle.tk_runrec.specs.Fit.{IsFit};
ghost use Rattle.tk_runrec.specs.Labels.{skips_in};
ghost use Rattle.tk_runrec.specs.Tests.{is_recorded};

use crate::children::{child_name, has_closed};
use crate::stops::{is_startable, was_recorded};
use std::alloc::{AllocError, Global};
use tk_cache::Cache;
use tk_journal::{Act, Closing, RunState, Skip};
use tk_labels::Labels;
use tk_types::{Asked, Child, Condition, List, Stop, Text, Verdict};

fn are_recorded(recorded: &[Stop], asked: &[Asked]) -> bool
    ensures { result ≡ list_all (is_recorded recorded.now) asked.now }
{
    asked.iter().all(|status| was_recorded(recorded, *status))
}

/// Whether each child's TaskRun is there and closed.
fn are_closed(
    alloc: Global,
    cache: &Cache,
    run: &RunState,
    children: &[Child],
) -> Result<bool, AllocError>
    requires children { children.now ≡ seen_children (seen cache.now).view run.now }
    ensures { IfOk result (λ closed. closed ≡ all_closed (seen cache.now).view run.now) }
{
    for child in children {
        let name = child_name(alloc, &run.spec, child.task, child.index)?;
        if !has_closed(cache.task_run(name.as_str())) {
            return Ok(false);
        }
    }
    Ok(true)
}

/// Whether all is over (Tekton, PipelineRuns, Monitoring execution status).
pub fn is_all_over(
    alloc: Global,
    cache: &Cache,
    run: &RunState,
    children: &[Child],
    kept: &Labels,
) -> Result<bool, AllocError>
    requires children { children.now ≡ seen_children (seen cache.now).view run.now }
    ensures { IfOk result (λ over. over ≡ is_over (seen cache.now).view run.now (labels_of kept.now)) }
{
    if !is_startable(&run.spec.start) {
        return Ok(true);
    }
    if run.start.is_none() || !kept.all_done() {
        return Ok(false);
    }
    if !are_recorded(run.stops.as_slice(), run.asked.as_slice()) {
        return Ok(false);
    }
    are_closed(alloc, cache, run, children)
}

/// The skipped tasks, with their reasons.
fn skips(alloc: Global, labels: &[Verdict]) -> Result<Vec<Skip>, AllocError>
    requires few { length labels.now < 2 ^ 32 }
    ensures { IfOk result (λ skips. skips.items ≡ skips_in 0 labels.now) }
{
    let mut skips = Vec::new(alloc);
    for place in 0..labels.len() {
        if let Verdict::Skipped(reason) = labels[place] {
            skips.push(Skip {
                task: place as u32,
                reason,
            })?;
        }
    }
    Ok(skips)
}

/// What a run closes with.
pub fn closing(
    alloc: Global,
    kept: &Labels,
    labels: &[Verdict],
    condition: Condition,
) -> Result<Closing, AllocError>
    requires labels { labels.now ≡ labels_of kept.now }
    requires few { length labels.now < 2 ^ 32 }
    ensures { IfOk result (λ closing. closing ≡ closing_of kept.now condition) }
{
    Ok(Closing::Run {
        condition,
        skipped: List::from_vec(skips(alloc, labels)?),
        results: kept.results(alloc)?,
    })
}

/// The row Close.
pub(crate) fn close(
    alloc: Global,
    cache: &Cache,
    name: &str,
    run: &RunState,
    children: &[Child],
    kept: &Labels,
    labels: &[Verdict],
) -> Result<Option<Act>, AllocError>
    requires fit { IsFit (seen cache.now).view run.now }
    requires children { children.now ≡ seen_children (seen cache.now).view run.now }
    requires facts { kept.now ≡ facts_in (seen cache.now).view run.now }
    requires labels { labels.now ≡ labels_of kept.now }
    ensures { IfOk result (λ act. act ≡ close_row (seen cache.now).view name.now run.now labels.now) }
{
    if run.pending || !is_all_over(alloc, cache, run, children, kept)? {
        return Ok(None);
    }
    match kept.condition(alloc)? {
        None => Ok(None),
        Some(condition) => Ok(Some(Act::Close {
            name: Text::from_str(alloc, name)?,
            closing: closing(alloc, kept, labels, condition)?,
        })),
    }
}
