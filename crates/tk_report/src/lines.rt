ghost use Rattle.std.specs.Prelude.{◌≡◌, ◌++◌, flat_map, string_bytes, OnOk};
ghost use Rattle.tk_verdict.specs.Texts.{skip_text as text_of_skip, stop_text as text_of_stop};
ghost use Rattle.tk_report.specs.Report.{attempts_words, child_line, child_words, result_line, run_line, skipped_line, standing, task_run_line};

use crate::words::{Status, outcome_of, outcome_words, task_run_reason, task_run_status};
use std::alloc::{AllocError, Global};
use tk_journal::TaskRunState;
use tk_results::json_text;
use tk_types::{Param, SkipReason, Stop};

/// Why a stop skips a task.
fn stop_text(stop: Stop) -> &'static str
    ensures { result.now ≡ text_of_stop stop }
{
    match stop {
        Stop::Failure => "PipelineRun was stopping",
        Stop::StoppedRunFinally => "PipelineRun was gracefully stopped",
        Stop::CancelledRunFinally => "PipelineRun was gracefully cancelled",
        Stop::TasksTimeout => "PipelineRun Tasks timeout has been reached",
        Stop::FinallyTimeout => "PipelineRun Finally timeout has been reached",
        Stop::Cancelled => "PipelineRun was cancelled",
        Stop::PipelineTimeout => "PipelineRun timeout has been reached",
    }
}

/// Why a task is skipped (Tekton, PipelineRuns, Monitoring execution status).
pub fn skip_text(reason: SkipReason) -> &'static str
    ensures { result.now ≡ text_of_skip reason }
{
    match reason {
        SkipReason::Parent => "Parent Tasks were skipped",
        SkipReason::Missing | SkipReason::Broken => "Results were missing",
        SkipReason::When => "When Expressions evaluated to false",
        SkipReason::EmptyMatrix => "Matrix Parameters have an empty array",
        SkipReason::Stopped(stop) => stop_text(stop),
    }
}

/// Writes an object with its status and the reason behind `text`.
fn write_standing(
    text: &mut String,
    kind: &str,
    name: &str,
    status: Status,
    reason: &str,
) -> Result<(), AllocError>
    ensures { OnOk result (string_bytes text.new ≡ string_bytes text.old ++ standing kind.now name.now status reason.now) }
{
    text.push_str(kind)?;
    text.push_str(" ")?;
    text.push_str(name)?;
    text.push_str(" ")?;
    text.push_str(status.word())?;
    text.push_str(" ")?;
    text.push_str(reason)
}

/// Writes how many attempts there were behind `text`.
fn write_attempts(alloc: Global, text: &mut String, count: usize) -> Result<(), AllocError>
    ensures { OnOk result (string_bytes text.new ≡ string_bytes text.old ++ attempts_words count) }
{
    text.push_str(" attempts ")?;
    text.push_str(count.to_string(alloc)?.as_str())
}

/// Writes the first line of a run behind `text`.
pub fn write_run_line(
    text: &mut String,
    name: &str,
    status: Status,
    reason: &str,
) -> Result<(), AllocError>
    ensures { OnOk result (string_bytes text.new ≡ string_bytes text.old ++ run_line name.now status reason.now) }
{
    write_standing(text, "pipelinerun", name, status, reason)?;
    text.push_str("\n")
}

/// Writes the first line of a standalone TaskRun behind `text`.
pub(crate) fn write_task_run_line(
    alloc: Global,
    text: &mut String,
    name: &str,
    task_run: &TaskRunState,
) -> Result<(), AllocError>
    ensures { OnOk result (string_bytes text.new ≡ string_bytes text.old ++ task_run_line name.now task_run.now) }
{
    let status = task_run_status(task_run);
    write_standing(text, "taskrun", name, status, task_run_reason(task_run))?;
    write_attempts(alloc, text, task_run.attempts.len())?;
    text.push_str("\n")
}

/// Writes the name, the task and the index of a child behind `text`.
fn write_child_name(
    alloc: Global,
    text: &mut String,
    task: &str,
    name: &str,
    index: u32,
) -> Result<(), AllocError>
    ensures { OnOk result (string_bytes text.new ≡ string_bytes text.old ++ child_words task.now name.now index) }
{
    text.push_str("  taskrun ")?;
    text.push_str(name)?;
    text.push_str(" ")?;
    text.push_str(task)?;
    text.push_str(" ")?;
    text.push_str(index.to_string(alloc)?.as_str())?;
    text.push_str(" ")
}

/// Writes the line of a child of a task behind `text`.
pub(crate) fn write_child(
    alloc: Global,
    text: &mut String,
    task: &str,
    name: &str,
    index: u32,
    task_run: &TaskRunState,
) -> Result<(), AllocError>
    ensures { OnOk result (string_bytes text.new ≡ string_bytes text.old ++ child_line task.now name.now index task_run.now) }
{
    write_child_name(alloc, text, task, name, index)?;
    text.push_str(outcome_words(alloc, outcome_of(task_run))?.as_str())?;
    write_attempts(alloc, text, task_run.attempts.len())?;
    text.push_str("\n")
}

/// Writes the line of a skipped task behind `text`.
pub fn write_skipped(text: &mut String, task: &str, reason: SkipReason) -> Result<(), AllocError>
    ensures { OnOk result (string_bytes text.new ≡ string_bytes text.old ++ skipped_line task.now reason) }
{
    text.push_str("  skipped ")?;
    text.push_str(task)?;
    text.push_str(" ")?;
    text.push_str(skip_text(reason))?;
    text.push_str("\n")
}

/// Writes the line of a result behind `text`.
fn write_result(alloc: Global, text: &mut String, param: &Param) -> Result<(), AllocError>
    ensures { OnOk result (string_bytes text.new ≡ string_bytes text.old ++ result_line param.now) }
{
    text.push_str("  result ")?;
    text.push_str(param.name.as_str())?;
    text.push_str(" ")?;
    text.push_str(json_text(alloc, &param.value)?.as_str())?;
    text.push_str("\n")
}

/// Writes a line for each result behind `text`.
pub fn write_results(alloc: Global, text: &mut String, results: &[Param]) -> Result<(), AllocError>
    ensures { OnOk result (string_bytes text.new ≡ string_bytes text.old ++ flat_map result_line results.now) }
{
    for result in results {
        write_result(alloc, text, result)?;
    }
    Ok(())
}
