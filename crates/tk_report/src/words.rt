ghost use Rattle.std.specs.Prelude.{◌≡◌, ◌++◌, Some, codes, option_copied, string_bytes, IfOk};
ghost use Rattle.tk_journal.specs.History.{outcome_of as outcome_seen};
ghost use Rattle.tk_report.specs.Words.{attempt_reason, condition_status, ending_reason as reason_of_ending, ending_results, ending_status, exit_word, outcome_reason as reason_of_outcome, open_run_reason, open_task_run_reason, outcome_words, run_condition as condition_of_run, run_reason as reason_of_run, run_results as results_of_run, run_skips as skips_of_run, run_status as status_of_run, status_word, task_run_reason as reason_of_task_run, task_run_results as results_of_task_run, task_run_status as status_of_task_run};

use std::alloc::{AllocError, Global};
use tk_journal::{Attempt, Closing, Ending, RunState, Skip, TaskRunState};
use tk_types::{Condition, Outcome, Param};

/// The status of a condition: it holds or not, or isn't known yet.
#[derive(Clone, Copy, Debug, PartialEq, Eq)]
pub enum Status {
    True,
    False,
    Unknown,
}

impl Status {
    pub fn word(self) -> &'static str
        ensures { result.now ≡ status_word self }
    {
        match self {
            Status::True => "True",
            Status::False => "False",
            Status::Unknown => "Unknown",
        }
    }
}

/// The condition of a closed run.
fn run_condition(run: &RunState) -> Option<&Condition>
    ensures { option_copied result ≡ condition_of_run run.now }
{
    match &run.closed {
        Some(Closing::Run { condition, .. }) => Some(condition),
        _ => None,
    }
}

/// The tasks that a closed run skipped.
pub(crate) fn run_skips(run: &RunState) -> &[Skip]
    ensures { result.now ≡ skips_of_run run.now }
{
    match &run.closed {
        Some(Closing::Run { skipped, .. }) => skipped.as_slice(),
        _ => &[],
    }
}

/// The results of a closed run.
pub(crate) fn run_results(run: &RunState) -> &[Param]
    ensures { result.now ≡ results_of_run run.now }
{
    match &run.closed {
        Some(Closing::Run { results, .. }) => results.as_slice(),
        _ => &[],
    }
}

/// How a run stands (Tekton, PipelineRuns, Monitoring execution status).
pub(crate) fn run_status(run: &RunState) -> Status
    ensures { result ≡ status_of_run run.now }
{
    match run_condition(run) {
        None => Status::Unknown,
        Some(condition) if condition.holds => Status::True,
        Some(_) => Status::False,
    }
}

/// The reason of an open run.
fn open_run_reason(run: &RunState) -> &'static str
    ensures { result.now ≡ open_run_reason run.now }
{
    if run.pending {
        "PipelineRunPending"
    } else if run.scheduled.is_empty() {
        "Started"
    } else {
        "Running"
    }
}

/// Why a run stands so.
pub(crate) fn run_reason(run: &RunState) -> &str
    ensures { result.now ≡ reason_of_run run.now }
{
    match run_condition(run) {
        None => open_run_reason(run),
        Some(condition) => condition.reason.as_str(),
    }
}

/// How a TaskRun stands (Tekton, TaskRuns, Monitoring execution status).
pub(crate) fn task_run_status(task_run: &TaskRunState) -> Status
    ensures { result ≡ status_of_task_run task_run.now }
{
    match &task_run.closed {
        None => Status::Unknown,
        Some(Ending::Of(Outcome::Succeeded(_))) => Status::True,
        Some(_) => Status::False,
    }
}

/// The reason of a TaskRun that ended so.
fn outcome_reason(outcome: &Outcome) -> &'static str
    ensures { result.now ≡ reason_of_outcome outcome.now }
{
    match outcome {
        Outcome::Succeeded(_) => "Succeeded",
        Outcome::Failed { .. } => "Failed",
        Outcome::TimedOut => "TaskRunTimeout",
        Outcome::Cancelled => "TaskRunCancelled",
        Outcome::Lost => "Lost",
    }
}

/// The reason of an open TaskRun.
fn open_task_run_reason(task_run: &TaskRunState) -> &'static str
    ensures { result.now ≡ open_task_run_reason task_run.now }
{
    match task_run.attempts.as_slice().last() {
        None => "Started",
        Some(attempt) if attempt.outcome.is_none() => "Running",
        Some(_) => "ToBeRetried",
    }
}

/// Why a TaskRun stands so.
pub(crate) fn task_run_reason(task_run: &TaskRunState) -> &str
    ensures { result.now ≡ reason_of_task_run task_run.now }
{
    match &task_run.closed {
        None => open_task_run_reason(task_run),
        Some(Ending::Of(outcome)) => outcome_reason(outcome),
        Some(Ending::Unstartable(reason)) => reason.as_str(),
    }
}

/// The results of a TaskRun that succeeded.
pub(crate) fn task_run_results(task_run: &TaskRunState) -> &[Param]
    ensures { result.now ≡ results_of_task_run task_run.now }
{
    match &task_run.closed {
        Some(Ending::Of(Outcome::Succeeded(results))) => results.as_slice(),
        _ => &[],
    }
}

/// How a TaskRun ended, if it did.
pub(crate) fn outcome_of(task_run: &TaskRunState) -> Option<&Outcome>
    ensures { option_copied result ≡ outcome_seen (Some task_run.now) }
{
    match &task_run.closed {
        Some(Ending::Of(outcome)) => Some(outcome),
        _ => None,
    }
}

/// The word of a failure with this exit.
fn failed(alloc: Global, exit: Option<u8>) -> Result<String, AllocError>
    ensures { IfOk result (λ text. string_bytes text ≡ codes "Failed " ++ exit_word exit) }
{
    let mut text = String::from_str(alloc, "Failed ")?;
    match exit {
        None => text.push_str("-")?,
        Some(exit) => text.push_str(exit.to_string(alloc)?.as_str())?,
    }
    Ok(text)
}

/// The words of an outcome.
pub(crate) fn outcome_words(alloc: Global, outcome: Option<&Outcome>) -> Result<String, AllocError>
    ensures { IfOk result (λ text. string_bytes text ≡ outcome_words (option_copied outcome.entry)) }
{
    match outcome {
        None => String::from_str(alloc, "Running"),
        Some(Outcome::Succeeded(_)) => String::from_str(alloc, "Succeeded"),
        Some(Outcome::Failed { exit, .. }) => failed(alloc, *exit),
        Some(Outcome::TimedOut) => String::from_str(alloc, "TimedOut"),
        Some(Outcome::Cancelled) => String::from_str(alloc, "Cancelled"),
        Some(Outcome::Lost) => String::from_str(alloc, "Lost"),
    }
}
