ghost use Rattle.std.specs.Prelude.{◌≡◌, ◌≤◌, ◌<◌, ◌+◌, ◌^◌, length, OnOk};
ghost use Rattle.tk_journal.specs.History.{past, run_of};
ghost use Rattle.tk_journal.specs.Legal.{IsLegal};
ghost use Rattle.tk_cache.specs.Children.{AreOwned};
ghost use Rattle.tk_cache.specs.Shown.{ArePods, AreRuns, AreTaskRuns, Stand};

use crate::front::is_of;
use crate::objects::{Objects, write_pod, write_run, write_task_run};
use std::alloc::{AllocError, Global};
use tk_groups::Groups;
use tk_journal::{Journal, PodState, RunState, TaskRunState};
use tk_types::Kind;

/// The runs one position further.
fn pass_run(
    alloc: Global,
    runs: &mut Objects<RunState>,
    journal: &Journal,
    place: u64,
) -> Result<(), AllocError>
    requires legal { IsLegal journal.now.history }
    requires within { place < length journal.now.history }
    requires small { place + 1 < 2 ^ 64 }
    requires shows { AreRuns (past place journal.now.history) runs.old }
    ensures { OnOk result (AreRuns (past (place + 1) journal.now.history) runs.new) }
{
    let entry = journal.entry(place + 1);
    if !is_of(Kind::Runs, &entry.act) {
        return Ok(());
    }
    write_run(alloc, runs, place + 1, entry)?;
    Ok(())
}

/// The pods one position further.
fn pass_pod(
    alloc: Global,
    pods: &mut Objects<PodState>,
    journal: &Journal,
    place: u64,
) -> Result<(), AllocError>
    requires legal { IsLegal journal.now.history }
    requires within { place < length journal.now.history }
    requires small { place + 1 < 2 ^ 64 }
    requires shows { ArePods (past place journal.now.history) pods.old }
    ensures { OnOk result (ArePods (past (place + 1) journal.now.history) pods.new) }
{
    let entry = journal.entry(place + 1);
    if !is_of(Kind::Pods, &entry.act) {
        return Ok(());
    }
    write_pod(alloc, pods, place + 1, entry)?;
    Ok(())
}

/// The runs at a position, from those at an earlier one.
pub(crate) fn advance_runs(
    alloc: Global,
    runs: &mut Objects<RunState>,
    journal: &Journal,
    from: u64,
    to: u64,
) -> Result<(), AllocError>
    requires legal { IsLegal journal.now.history }
    requires order { from ≤ to }
    requires within { to ≤ length journal.now.history }
    requires shows { AreRuns (past from journal.now.history) runs.old }
    ensures { OnOk result (AreRuns (past to journal.now.history) runs.new) }
{
    for place in from..to {
        pass_run(alloc, runs, journal, place)?;
    }
    Ok(())
}

/// The pods at a position, from those at an earlier one.
pub(crate) fn advance_pods(
    alloc: Global,
    pods: &mut Objects<PodState>,
    journal: &Journal,
    from: u64,
    to: u64,
) -> Result<(), AllocError>
    requires legal { IsLegal journal.now.history }
    requires order { from ≤ to }
    requires within { to ≤ length journal.now.history }
    requires shows { ArePods (past from journal.now.history) pods.old }
    ensures { OnOk result (ArePods (past to journal.now.history) pods.new) }
{
    for place in from..to {
        pass_pod(alloc, pods, journal, place)?;
    }
    Ok(())
}

/// The runs beside the TaskRuns one position further.
fn pass_beside(
    alloc: Global,
    runs: &mut Objects<RunState>,
    journal: &Journal,
    place: u64,
) -> Result<(), AllocError>
    requires legal { IsLegal journal.now.history }
    requires within { place < length journal.now.history }
    requires small { place + 1 < 2 ^ 64 }
    requires stand { Stand (run_of (past place journal.now.history)) runs.old }
    ensures { OnOk result (Stand (run_of (past (place + 1) journal.now.history)) runs.new) }
{
    let entry = journal.entry(place + 1);
    if !is_of(Kind::Runs, &entry.act) {
        return Ok(());
    }
    write_run(alloc, runs, place + 1, entry)?;
    Ok(())
}

/// The TaskRuns one position further, beside the runs as they stand there.
fn pass_task_run(
    alloc: Global,
    task_runs: &mut Objects<TaskRunState>,
    owned: &mut Groups,
    runs: &Objects<RunState>,
    journal: &Journal,
    place: u64,
) -> Result<(), AllocError>
    requires legal { IsLegal journal.now.history }
    requires within { place < length journal.now.history }
    requires small { place + 1 < 2 ^ 64 }
    requires runs { Stand (run_of (past place journal.now.history)) runs.now }
    requires shows { AreTaskRuns (past place journal.now.history) task_runs.old }
    requires owned { AreOwned task_runs.old owned.old }
    ensures shows { OnOk result (AreTaskRuns (past (place + 1) journal.now.history) task_runs.new) }
    ensures owned { OnOk result (AreOwned task_runs.new owned.new) }
{
    let entry = journal.entry(place + 1);
    if !is_of(Kind::TaskRuns, &entry.act) {
        return Ok(());
    }
    write_task_run(alloc, task_runs, owned, runs, place + 1, entry)?;
    Ok(())
}

/// The TaskRuns at a position, and the runs there, from those at an earlier one.
pub(crate) fn advance_task_runs(
    alloc: Global,
    task_runs: &mut Objects<TaskRunState>,
    owned: &mut Groups,
    runs: &mut Objects<RunState>,
    journal: &Journal,
    from: u64,
    to: u64,
) -> Result<(), AllocError>
    requires legal { IsLegal journal.now.history }
    requires order { from ≤ to }
    requires within { to ≤ length journal.now.history }
    requires beside { Stand (run_of (past from journal.now.history)) runs.old }
    requires shows { AreTaskRuns (past from journal.now.history) task_runs.old }
    requires owned { AreOwned task_runs.old owned.old }
    ensures beside { OnOk result (Stand (run_of (past to journal.now.history)) runs.new) }
    ensures shows { OnOk result (AreTaskRuns (past to journal.now.history) task_runs.new) }
    ensures owned { OnOk result (AreOwned task_runs.new owned.new) }
{
    for place in from..to {
        pass_task_run(alloc, task_runs, owned, runs, journal, place)?;
        pass_beside(alloc, runs, journal, place)?;
    }
    Ok(())
}
