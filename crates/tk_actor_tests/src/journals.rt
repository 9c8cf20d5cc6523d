//! Journals of inputs that are played to their end, and caches that show them.
ghost use Rattle.std.specs.Prelude.{IfOk, OnOk};
ghost use Rattle.std.specs.Option.{ForSome};
ghost use Rattle.tk_cache.specs.Fronts.{Shows};
ghost use Rattle.tk_cache.specs.Views.{seen};
ghost use Rattle.tk_journal.specs.Legal.{IsLegal};

use std::alloc::{AllocError, Global};
use tk_cache::laws::nothing_shows;
use tk_journal::Journal;
use tk_run_cache::RunCache;
use tk_simulate::simulate;
use tk_types::Kind;

/// The journal of an input that is played to its end, where it is admitted. What `simulate` promises of it stays here.
pub(crate) fn journal_of(alloc: Global, text: &str) -> Option<Journal>
    ensures { ForSome result (λ journal. IsLegal journal.history) }
{
    match simulate(alloc, text.as_bytes()) {
        Ok(journal) => Some(journal),
        Err(_) => None,
    }
}

/// A cache that has seen nothing of a journal yet.
pub(crate) fn fresh(alloc: Global, journal: &Journal) -> RunCache
    ensures { Shows (seen result) journal.now.history }
{
    nothing_shows();
    RunCache::empty(alloc)
}

/// Shows a cache a kind as it stood at a position, or at the end.
pub(crate) fn show(
    cache: &mut RunCache,
    journal: &Journal,
    kind: Kind,
    position: u64,
) -> Result<(), AllocError>
    requires legal { IsLegal journal.now.history }
    requires shows { Shows (seen cache.old) journal.now.history }
    ensures { OnOk result (Shows (seen cache.new) journal.now.history) }
{
    cache.relist(journal, kind, position.min(journal.len()))
}

/// Delivers all runs and TaskRuns of a journal to a cache that has seen nothing of it.
pub(crate) fn delivered(alloc: Global, journal: &Journal) -> Result<RunCache, AllocError>
    requires { IsLegal journal.now.history }
    ensures { IfOk result (λ cache. Shows (seen cache) journal.now.history) }
{
    let mut cache = fresh(alloc, journal);
    cache.deliver(journal, Kind::Runs, u64::MAX)?;
    cache.deliver(journal, Kind::TaskRuns, u64::MAX)?;
    Ok(cache)
}
