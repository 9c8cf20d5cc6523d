ghost use Rattle.std.specs.Prelude.{◌≡◌, ◌<◌, ◌^◌, ◌++◌, None, flat_map, string_bytes, IfOk, OnOk};
ghost use Rattle.std.specs.List.{enumerate_from};
ghost use Rattle.tk_verdict.specs.Condition.{results_of};
ghost use Rattle.tk_verdict.specs.Facts.{all_tasks};
ghost use Rattle.tk_journal.specs.Legal.{IsLegal};
ghost use Rattle.tk_report.specs.Objects.{HasMoments};
ghost use Rattle.tk_commands.specs.Answer.{reported as reported_by, reported_text as text_of_report};
ghost use Rattle.tk_commands.specs.Due.{checked as checked_objects, condition_words, decided_by, label_line, label_reason, label_word as word_of_label, rejected as due_rejected, result_line, run_line, status_of as status_of_condition, task_line};

use std::alloc::{AllocError, Global};
use tk_journal::Journal;
use tk_report::{report, report_json, skip_text, status};
use tk_results::json_text;
use tk_types::{Condition, Facts, Fault, Param, PipelineTask, Text, Verdict};
use tk_verdict::judging::label_at;

/// What a command prints, and the status with which it ends.
#[derive(Drop)]
pub struct Due {
    pub status: u8,
    pub text: Text,
}

/// The word of a label.
fn label_word(label: Verdict) -> &'static str
    ensures { result.now ≡ word_of_label label }
{
    match label {
        Verdict::Ran => "ran",
        Verdict::Skipped(_) => "skipped",
        Verdict::Runs => "runs",
        Verdict::Ready => "ready",
        Verdict::Waits => "waits",
        Verdict::Wrong => "wrong",
    }
}

/// Writes a label's reason behind `text`.
fn write_reason(text: &mut String, label: Verdict) -> Result<(), AllocError>
    ensures { OnOk result (string_bytes text.new ≡ string_bytes text.old ++ label_reason label) }
{
    match label {
        Verdict::Skipped(reason) => {
            text.push_str(" ")?;
            text.push_str(skip_text(reason))
        }
        _ => Ok(()),
    }
}

/// Writes the line of a task behind `text`.
fn write_label(text: &mut String, name: &str, label: Verdict) -> Result<(), AllocError>
    ensures { OnOk result (string_bytes text.new ≡ string_bytes text.old ++ label_line name.now label) }
{
    text.push_str("  ")?;
    text.push_str(label_word(label))?;
    text.push_str(" ")?;
    text.push_str(name)?;
    write_reason(text, label)?;
    text.push_str("\n")
}

/// Writes a condition's status and reason behind `text`.
fn write_condition(text: &mut String, condition: &Option<Condition>) -> Result<(), AllocError>
    ensures { OnOk result (string_bytes text.new ≡ string_bytes text.old ++ condition_words condition.now) }
{
    match condition {
        None => text.push_str("Unknown Running"),
        Some(condition) => {
            text.push_str(if condition.holds { "True " } else { "False " })?;
            text.push_str(condition.reason.as_str())
        }
    }
}

/// The first line of a run.
fn run_text(alloc: Global, name: &str, condition: &Option<Condition>) -> Result<String, AllocError>
    ensures { IfOk result (λ text. string_bytes text ≡ run_line name.now condition.now) }
{
    let mut text = String::from_str(alloc, "pipelinerun ")?;
    text.push_str(name)?;
    text.push_str(" ")?;
    write_condition(&mut text, condition)?;
    text.push_str("\n")?;
    Ok(text)
}

/// What is due for a fault: its line.
pub fn rejected(alloc: Global, fault: &Fault) -> Result<Due, AllocError>
    ensures { IfOk result (λ due. due ≡ due_rejected fault.now) }
{
    Ok(Due {
        status: 3,
        text: fault.line(alloc)?,
    })
}

/// The status of a condition.
fn status_of(condition: &Option<Condition>) -> u8
    ensures { result ≡ status_of_condition condition.now }
{
    match condition {
        None => 7,
        Some(condition) if condition.holds => 0,
        Some(_) => 1,
    }
}

/// Writes a line for each task with the label of its place behind `text`; the first task has this place.
fn write_labels(
    text: &mut String,
    start: usize,
    tasks: &[PipelineTask],
    labels: &[Verdict],
) -> Result<(), AllocError>
    requires { start < 2 ^ 63 }
    ensures { OnOk result (string_bytes text.new ≡ string_bytes text.old ++ flat_map (task_line labels.now) (enumerate_from start tasks.now)) }
{
    for (index, task) in tasks.iter().enumerate() {
        write_label(text, task.name.as_str(), label_at(labels, start + index))?;
    }
    Ok(())
}

/// Writes the lines of a run's tasks behind `text`, those of `finally` last.
fn write_tasks(text: &mut String, facts: &Facts, labels: &[Verdict]) -> Result<(), AllocError>
    ensures { OnOk result (string_bytes text.new ≡ string_bytes text.old ++ flat_map (task_line labels.now) (enumerate_from 0 (all_tasks facts.now))) }
{
    let tasks = facts.spec.tasks.as_slice();
    write_labels(text, 0, tasks, labels)?;
    write_labels(text, tasks.len(), facts.spec.finally.as_slice(), labels)
}

/// Writes the line of a result behind `text`.
fn write_result(alloc: Global, text: &mut String, param: &Param) -> Result<(), AllocError>
    ensures { OnOk result (string_bytes text.new ≡ string_bytes text.old ++ result_line param.now) }
{
    text.push_str("  result ")?;
    text.push_str(param.name.as_str())?;
    text.push_str(" ")?;
    text.push_str(json_text(alloc, &param.value)?.as_str())?;
    text.push_str("\n")
}

/// Writes a line for each result behind `text`.
fn write_results(alloc: Global, text: &mut String, results: &[Param]) -> Result<(), AllocError>
    ensures { OnOk result (string_bytes text.new ≡ string_bytes text.old ++ flat_map result_line results.now) }
{
    for result in results {
        write_result(alloc, text, result)?;
    }
    Ok(())
}

/// What is due for a run with these labels, this condition and these results.
pub fn decided(
    alloc: Global,
    facts: &Facts,
    labels: &[Verdict],
    condition: &Option<Condition>,
    results: &[Param],
) -> Result<Due, AllocError>
    requires { results.now ≡ results_of facts.now }
    ensures { IfOk result (λ due. due ≡ decided_by facts.now labels.now condition.now) }
{
    let mut text = run_text(alloc, facts.spec.name.as_str(), condition)?;
    write_tasks(&mut text, facts, labels)?;
    if condition.is_some() {
        write_results(alloc, &mut text, results)?;
    }
    Ok(Due {
        status: status_of(condition),
        text: Text::from_string(text),
    })
}

/// What is due for an input with so many objects.
pub fn checked(alloc: Global, objects: u64) -> Result<Due, AllocError>
    ensures { IfOk result (λ due. due ≡ checked_objects objects) }
{
    let mut text = String::from_str(alloc, "ok ")?;
    text.push_str(objects.to_string(alloc)?.as_str())?;
    text.push_str("\n")?;
    Ok(Due {
        status: 0,
        text: Text::from_string(text),
    })
}

/// The report of a journal, as text or as JSON.
fn reported_text(alloc: Global, json: bool, journal: &Journal) -> Result<Text, AllocError>
    requires legal { IsLegal journal.now.history }
    requires moments { HasMoments journal.now.history }
    ensures { IfOk result (λ text. text ≡ text_of_report json journal.now.history) }
{
    if json {
        let report = report_json(alloc, journal)?;
        let mut text = String::from_str(alloc, report.as_str())?;
        text.push_str("\n")?;
        Ok(Text::from_string(text))
    } else {
        report(alloc, journal)
    }
}

/// What is due for a journal: its report, and the status that it tells.
pub fn reported(alloc: Global, json: bool, journal: &Journal) -> Result<Due, AllocError>
    requires legal { IsLegal journal.now.history }
    requires moments { HasMoments journal.now.history }
    ensures { IfOk result (λ due. due ≡ reported_by json journal.now.history) }
{
    Ok(Due {
        status: status(alloc, journal)?,
        text: reported_text(alloc, json, journal)?,
    })
}
