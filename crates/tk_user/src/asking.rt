ghost use Rattle.std.specs.Prelude.{◌≡◌, None, IfOk, OnErr};
ghost use Rattle.tk_journal.specs.History.{run_of, task_run_of, version_of};
ghost use Rattle.tk_types.specs.declared.scenario.Kind.TheVariants.{Runs, TaskRuns};
ghost use Rattle.tk_user.specs.Ask.{is_for_task_run, refusal, run_refusal, task_run_refusal, ask_entry, Answered};

use crate::answer::AskAnswer;
use crate::refusal::{of_run, of_task_run};
use std::alloc::{AllocError, Global};
use tk_journal::{Act, Actor, Entry, Fronts, Journal};
use tk_store::{Store, Update};
use tk_types::{Asked, Kind, Text};

/// Whether the status is for a TaskRun.
fn is_task_run(status: Asked) -> bool
    ensures { result ≡ is_for_task_run status }
{
    matches!(status, Asked::TaskRunCancelled)
}

/// The refusal of a run at the journal's end, if any.
fn run_refused(
    alloc: Global,
    journal: &Journal,
    name: &str,
    status: Asked,
) -> Result<Option<AskAnswer>, AllocError>
    ensures { IfOk result (λ due. due ≡ run_refusal (version_of Runs name.now journal.now.history) status (run_of journal.now.history name.now)) }
{
    let end = journal.len();
    let version = journal.version_of(Kind::Runs, name, end);
    let run = journal.run_at(alloc, name, end)?;
    Ok(of_run(version, status, &run))
}

/// The refusal of a TaskRun at the journal's end, if any.
fn task_run_refused(
    alloc: Global,
    journal: &Journal,
    name: &str,
) -> Result<Option<AskAnswer>, AllocError>
    ensures { IfOk result (λ due. due ≡ task_run_refusal (version_of TaskRuns name.now journal.now.history) (task_run_of journal.now.history name.now)) }
{
    let end = journal.len();
    let version = journal.version_of(Kind::TaskRuns, name, end);
    let task_run = journal.task_run_at(alloc, name, end)?;
    Ok(of_task_run(version, &task_run))
}

/// The refusal that an ask of this status gets at the journal's end, if any. The only error is want of memory.
pub fn refused(
    alloc: Global,
    journal: &Journal,
    name: &str,
    status: Asked,
) -> Result<Option<AskAnswer>, AllocError>
    ensures { IfOk result (λ due. due ≡ refusal journal.now.history name.now status) }
{
    if is_task_run(status) {
        task_run_refused(alloc, journal, name)
    } else {
        run_refused(alloc, journal, name, status)
    }
}

/// The entry of an ask at the journal's end.
fn entry_at_end(journal: &Journal, name: Text, status: Asked, moment: u64) -> Entry
    ensures { result ≡ ask_entry journal.now.history name status moment }
{
    let end = journal.len();
    Entry {
        actor: Actor::User,
        fronts: Fronts {
            runs: end,
            task_runs: end,
            pods: end,
        },
        moment,
        act: Act::Ask { name, status },
    }
}

/// Writes the entry, which nothing refuses.
fn write(
    alloc: Global,
    store: &mut Store,
    name: &str,
    status: Asked,
    moment: u64,
) -> Result<AskAnswer, AllocError>
    requires free { refusal store.old.history name.now status ≡ None }
    ensures ok { IfOk result (λ answer. Answered None (ask_entry store.old.history name.now status moment) store.old answer store.new) }
    ensures err { OnErr result (store.new ≡ store.old) }
{
    let journal = store.journal();
    let entry = entry_at_end(journal, Text::from_str(alloc, name)?, status, moment);
    let expected = journal.version_of(entry.act.kind(), name, journal.len());
    match store.update(entry, expected) {
        Update::Ok { version } => Ok(AskAnswer::Wrote { version }),
        Update::Conflict { .. } => unreachable!(),
        Update::Memory => Err(AllocError),
    }
}

/// Asks a status of a PipelineRun, or of a standalone TaskRun that it be cancelled: the first refusal that holds at the
/// journal's end, or else the entry, which stands there (Tekton, PipelineRuns, Cancelling a PipelineRun; TaskRuns,
/// Cancelling a TaskRun). The moment is in milliseconds. The only error is want of memory, after which the store is as
/// before.
pub fn ask(
    alloc: Global,
    store: &mut Store,
    name: &str,
    status: Asked,
    moment: u64,
) -> Result<AskAnswer, AllocError>
    ensures ok { IfOk result (λ answer. Answered (refusal store.old.history name.now status) (ask_entry store.old.history name.now status moment) store.old answer store.new) }
    ensures err { OnErr result (store.new ≡ store.old) }
{
    match refused(alloc, store.journal(), name, status)? {
        Some(answer) => Ok(answer),
        None => write(alloc, store, name, status, moment),
    }
}
