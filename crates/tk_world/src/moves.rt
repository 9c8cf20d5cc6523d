ghost use Rattle.std.specs.Prelude.{◌≡◌, [], OnOk, OnErr};
ghost use Rattle.tk_journal.specs.Legal.{IsLegal};
ghost use Rattle.tk_journal.specs.Progress.{at_end};
ghost use Rattle.tk_cache.specs.Fronts.{Shows};
ghost use Rattle.tk_cache.specs.Views.{seen};
ghost use Rattle.tk_world.specs.Moves.{moved};

use std::alloc::AllocError;
use tk_cache::Cache;
use tk_journal::Journal;
use tk_pod_cache::PodCache;
use tk_task_cache::TaskCache;
use tk_types::Kind;

/// How a cache is moved.
#[derive(Clone, Copy)]
pub(crate) enum Move {
    /// Past so many entries more of the kind.
    Deliver { kind: Kind, n: u64 },
    /// To the journal's end.
    DeliverAll,
    /// To a position for the kind, or to the journal's end where that is earlier.
    Relist { kind: Kind, position: u64 },
}

/// Moves all three fronts to the journal's end. Without memory the cache is empty.
pub fn deliver_all(cache: &mut Cache, journal: &Journal) -> Result<(), AllocError>
    requires legal { IsLegal journal.now.history }
    requires shows { Shows (seen cache.old) journal.now.history }
    ensures fronts { OnOk result (cache.new.fronts ≡ at_end journal.now.history) }
    ensures shows { OnOk result (Shows (seen cache.new) journal.now.history) }
    ensures err { OnErr result (Shows (seen cache.new) []) }
{
    let end = journal.len();
    cache.relist(journal, Kind::Runs, end)?;
    cache.relist(journal, Kind::TaskRuns, end)?;
    cache.relist(journal, Kind::Pods, end)
}

/// Moves all three fronts of a node's cache to the journal's end. Without memory the cache is empty.
fn deliver_all_pods(cache: &mut PodCache, journal: &Journal) -> Result<(), AllocError>
    requires legal { IsLegal journal.now.history }
    requires shows { Shows (seen cache.old) journal.now.history }
    ensures fronts { OnOk result (cache.new.fronts ≡ at_end journal.now.history) }
    ensures shows { OnOk result (Shows (seen cache.new) journal.now.history) }
    ensures err { OnErr result (Shows (seen cache.new) []) }
{
    let end = journal.len();
    cache.relist(journal, Kind::Runs, end)?;
    cache.relist(journal, Kind::TaskRuns, end)?;
    cache.relist(journal, Kind::Pods, end)
}

/// Moves a node's cache. Without memory the cache is empty.
pub(crate) fn move_cache(
    cache: &mut PodCache,
    journal: &Journal,
    how: Move,
) -> Result<(), AllocError>
    requires legal { IsLegal journal.now.history }
    requires shows { Shows (seen cache.old) journal.now.history }
    ensures fronts { OnOk result (cache.new.fronts ≡ moved how journal.now.history cache.old.fronts) }
    ensures shows { OnOk result (Shows (seen cache.new) journal.now.history) }
    ensures err { OnErr result (Shows (seen cache.new) []) }
{
    match how {
        Move::Deliver { kind, n } => cache.deliver(journal, kind, n),
        Move::DeliverAll => deliver_all_pods(cache, journal),
        Move::Relist { kind, position } => cache.relist(journal, kind, position.min(journal.len())),
    }
}

/// Moves all three fronts of a controller's cache to the journal's end. Without memory the cache is empty.
fn deliver_all_runs(cache: &mut TaskCache, journal: &Journal) -> Result<(), AllocError>
    requires legal { IsLegal journal.now.history }
    requires shows { Shows (seen cache.old) journal.now.history }
    ensures fronts { OnOk result (cache.new.fronts ≡ at_end journal.now.history) }
    ensures shows { OnOk result (Shows (seen cache.new) journal.now.history) }
    ensures err { OnErr result (Shows (seen cache.new) []) }
{
    let end = journal.len();
    cache.relist(journal, Kind::Runs, end)?;
    cache.relist(journal, Kind::TaskRuns, end)?;
    cache.relist(journal, Kind::Pods, end)
}

/// Moves a controller's cache. Without memory the cache is empty.
pub(crate) fn move_run_cache(
    cache: &mut TaskCache,
    journal: &Journal,
    how: Move,
) -> Result<(), AllocError>
    requires legal { IsLegal journal.now.history }
    requires shows { Shows (seen cache.old) journal.now.history }
    ensures fronts { OnOk result (cache.new.fronts ≡ moved how journal.now.history cache.old.fronts) }
    ensures shows { OnOk result (Shows (seen cache.new) journal.now.history) }
    ensures err { OnErr result (Shows (seen cache.new) []) }
{
    match how {
        Move::Deliver { kind, n } => cache.deliver(journal, kind, n),
        Move::DeliverAll => deliver_all_runs(cache, journal),
        Move::Relist { kind, position } => cache.relist(journal, kind, position.min(journal.len())),
    }
}
