ghost use Rattle.std.specs.Prelude.{◌≡◌, ◌<◌, ◌&&◌, ◌||◌, is_none, length, option_and_then, slice_get, IfOk};
ghost use Rattle.tk_verdict.specs.Labels.{labels_of};
ghost use Rattle.tk_journal.specs.RunRows.{facts_in};
ghost use Rattle.tk_choice.specs.First.{first_act};
ghost use Rattle.tk_cache.specs.Views.{seen};
ghost use Rattle.tk_run_cache.specs.Labelled.{missing_in};
ghost use Rattle.tk_runrec.specs.Choice.{seen_children, start as start_row, table, plain_act, open_act, act_of, act_named, choice};
ghost use Rattle.tk_runrec.specs.Fit.{IsFit, AreFit};
ghost use Rattle.tk_runrec.specs.Tests.{starts_ready};

use crate::cancel::cancel;
use crate::close::close;
use crate::halt::halt;
use crate::make::make;
use crate::schedule::schedule;
use crate::stops::is_startable;
use std::alloc::{AllocError, Global};
use tk_cache::Cache;
use tk_journal::{Act, RunState};
use tk_labels::Labels;
use tk_run_cache::RunCache;
use tk_types::{Child, Text, Verdict};

/// The row Start.
fn start(alloc: Global, name: &str, run: &RunState) -> Result<Option<Act>, AllocError>
    ensures { IfOk result (λ act. act ≡ start_row name.now run.now) }
{
    if is_startable(&run.spec.start) && !run.pending && run.start.is_none() {
        return Ok(Some(Act::Start {
            name: Text::from_str(alloc, name)?,
        }));
    }
    Ok(None)
}

/// The rows that look at no label.
fn without_labels(
    alloc: Global,
    cache: &Cache,
    name: &str,
    run: &RunState,
    bare: &[Child],
) -> Result<Option<Act>, AllocError>
    requires bare { bare.now ≡ missing_in (seen cache.now).view run.now }
    ensures { IfOk result (λ act. act ≡ plain_act (seen cache.now).view name.now run.now) }
{
    if let Some(act) = start(alloc, name, run)? {
        return Ok(Some(act));
    }
    if let Some(act) = cancel(alloc, cache, name, run)? {
        return Ok(Some(act));
    }
    make(alloc, cache, name, run, bare)
}

/// All rows of an open run, in order.
fn by_labels(
    alloc: Global,
    cache: &Cache,
    moment: u64,
    name: &str,
    run: &RunState,
    children: &[Child],
    bare: &[Child],
    kept: &Labels,
    labels: &[Verdict],
) -> Result<Option<Act>, AllocError>
    requires fit { IsFit (seen cache.now).view run.now }
    requires children { children.now ≡ seen_children (seen cache.now).view run.now }
    requires bare { bare.now ≡ missing_in (seen cache.now).view run.now }
    requires facts { kept.now ≡ facts_in (seen cache.now).view run.now }
    requires labels { labels.now ≡ labels_of kept.now }
    ensures { IfOk result (λ act. act ≡ first_act (table (seen cache.now).view moment name.now run.now labels.now)) }
{
    if let Some(act) = close(alloc, cache, name, run, children, kept, labels)? {
        return Ok(Some(act));
    }
    if let Some(act) = halt(alloc, moment, name, run, kept, labels)? {
        return Ok(Some(act));
    }
    if let Some(act) = without_labels(alloc, cache, name, run, bare)? {
        return Ok(Some(act));
    }
    schedule(alloc, cache, name, run, kept, labels)
}

/// Whether no row looks at a label: the run wasn't started, and is pending or can start.
fn is_unlabelled(run: &RunState) -> bool
    ensures { result ≡ (is_none run.now.start && (run.now.pending || starts_ready run.now.spec.start)) }
{
    run.start.is_none() && (run.pending || is_startable(&run.spec.start))
}

/// Of an open run, by its kept labels and its children without a TaskRun.
fn of_open(
    alloc: Global,
    cache: &Cache,
    moment: u64,
    name: &str,
    run: &RunState,
    kept: &Labels,
    bare: &[Child],
) -> Result<Option<Act>, AllocError>
    requires fit { IsFit (seen cache.now).view run.now }
    requires facts { kept.now ≡ facts_in (seen cache.now).view run.now }
    requires bare { bare.now ≡ missing_in (seen cache.now).view run.now }
    ensures { IfOk result (λ act. act ≡ open_act (seen cache.now).view moment name.now run.now) }
{
    if is_unlabelled(run) {
        return without_labels(alloc, cache, name, run, bare);
    }
    let children = kept.children();
    let labels = kept.labels();
    by_labels(
        alloc, cache, moment, name, run, children, bare, kept, labels,
    )
}

/// Of a run: a closed one only cancels what its stops reach.
fn of_run(
    alloc: Global,
    cache: &Cache,
    moment: u64,
    name: &str,
    run: &RunState,
    kept: &Labels,
    bare: &[Child],
) -> Result<Option<Act>, AllocError>
    requires fit { IsFit (seen cache.now).view run.now }
    requires facts { kept.now ≡ facts_in (seen cache.now).view run.now }
    requires bare { bare.now ≡ missing_in (seen cache.now).view run.now }
    ensures { IfOk result (λ act. act ≡ act_of (seen cache.now).view moment name.now run.now) }
{
    if run.closed.is_some() {
        return cancel(alloc, cache, name, run);
    }
    of_open(alloc, cache, moment, name, run, kept, bare)
}

/// Of the run at this place.
fn of_place(
    alloc: Global,
    cache: &RunCache,
    moment: u64,
    place: u64,
) -> Result<Option<Act>, AllocError>
    requires fit { AreFit (seen cache.now).view }
    requires within { place < length (seen cache.now).view.runs }
    ensures { IfOk result (λ act. act ≡ option_and_then (act_named (seen cache.now).view moment) (slice_get (seen cache.now).view.runs place)) }
{
    let shown = cache.cache();
    let name = shown.run_name(place);
    let run = shown.run_at(place);
    let Some(kept) = cache.labels(name) else {
        unreachable!()
    };
    let Some(bare) = cache.missing(name) else {
        unreachable!()
    };
    of_run(alloc, shown, moment, name, run, kept, bare)
}

/// How many runs a cache shows.
fn run_count(cache: &RunCache) -> u64
    ensures { result ≡ length (seen cache.now).view.runs }
{
    cache.cache().run_count()
}

/// The first act that the cache justifies at this moment, in milliseconds, of runs in order of admission. It looks at those alone
/// that can still get an entry. The only error is want of memory.
pub(crate) fn choose(
    alloc: Global,
    cache: &RunCache,
    moment: u64,
) -> Result<Option<Act>, AllocError>
    requires fit { AreFit (seen cache.now).view }
    ensures { IfOk result (λ act. act ≡ choice (seen cache.now).view moment) }
{
    let active = cache.active();
    let end = run_count(cache);
    let mut from = 0;
    while from < end {
        let Some(place) = active.next(from) else {
            return Ok(None);
        };
        if end <= place {
            return Ok(None);
        }
        let found = of_place(alloc, cache, moment, place)?;
        if found.is_some() {
            return Ok(found);
        }
        from = place + 1;
    }
    Ok(None)
}
