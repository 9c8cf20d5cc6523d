ghost use Rattle.std.specs.Prelude.{◌≡◌, [], OnOk, OnErr};
ghost use Rattle.tk_journal.specs.Legal.{IsLegal};
ghost use Rattle.tk_cache.specs.Fronts.{Shows};
ghost use Rattle.tk_cache.specs.Views.{seen};
ghost use Rattle.tk_rounds.specs.Turning.{fronts_after};

use std::alloc::AllocError;
use tk_cache::Cache;
use tk_edge::GateTurn;
use tk_journal::Journal;
use tk_pod_cache::PodCache;
use tk_task_cache::TaskCache;

/// Moves a node's cache as its gate answered: past so many entries more of a kind, or to a position for it, or to the journal's
/// end where that is earlier. The only error is want of memory; the cache has then seen nothing.
pub(crate) fn move_cache(
    cache: &mut PodCache,
    journal: &Journal,
    given: GateTurn,
) -> Result<(), AllocError>
    requires legal { IsLegal journal.now.history }
    requires shows { Shows (seen cache.old) journal.now.history }
    ensures fronts { OnOk result (cache.new.fronts ≡ fronts_after given journal.now.history cache.old.fronts) }
    ensures shows { OnOk result (Shows (seen cache.new) journal.now.history) }
    ensures err { OnErr result (Shows (seen cache.new) []) }
{
    match given {
        GateTurn::Deliver { kind, n } => cache.deliver(journal, kind, n),
        GateTurn::Relist { kind, position } => {
            cache.relist(journal, kind, position.min(journal.len()))
        }
        GateTurn::Work | GateTurn::Pause => Ok(()),
    }
}

/// The same of a controller's cache.
pub(crate) fn move_run_cache(
    cache: &mut TaskCache,
    journal: &Journal,
    given: GateTurn,
) -> Result<(), AllocError>
    requires legal { IsLegal journal.now.history }
    requires shows { Shows (seen cache.old) journal.now.history }
    ensures fronts { OnOk result (cache.new.fronts ≡ fronts_after given journal.now.history cache.old.fronts) }
    ensures shows { OnOk result (Shows (seen cache.new) journal.now.history) }
    ensures err { OnErr result (Shows (seen cache.new) []) }
{
    match given {
        GateTurn::Deliver { kind, n } => cache.deliver(journal, kind, n),
        GateTurn::Relist { kind, position } => {
            cache.relist(journal, kind, position.min(journal.len()))
        }
        GateTurn::Work | GateTurn::Pause => Ok(()),
    }
}

/// How many entries of the journal a cache lacks: its length less the least of the fronts.
pub(crate) fn lag_of(cache: &Cache, journal: &Journal) -> u64 {
    let fronts = cache.front();
    let least = fronts.runs.min(fronts.task_runs).min(fronts.pods);
    journal.len().saturating_sub(least)
}
