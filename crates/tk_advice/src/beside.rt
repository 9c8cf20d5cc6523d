use crate::objects::{has_kind, objects_of, text_of};
use crate::start_warnings::{Unready, warnings};
use serde_json::Value;
use std::alloc::{AllocError, Global};
use tk_types::Text;

/// Whether an object with this reason can't start, where it has nothing else to show.
fn is_unready(reason: &str) -> bool {
    matches!(
        reason,
        "CouldntGetPipeline"
            | "CouldntGetTask"
            | "ParameterMissing"
            | "ParameterTypeMismatch"
            | "InvalidTaskResultReference"
            | "InvalidWorkspaceBindings"
    )
}

/// An object of a report that closed False: which one it is, and whether anything ran of it.
#[derive(Clone, Copy)]
struct Failed<'a> {
    object: Unready<'a>,
    has_run: bool,
}

/// What a line of a report says of an object that closed False for want of what it names, so far as nothing ran of it.
fn failed_line(line: &str) -> Option<Failed<'_>> {
    let (kind, rest) = line.split_once(' ')?;
    let (name, rest) = rest.split_once(" False ")?;
    let reason = match rest.split_once(' ') {
        Some((reason, _)) => reason,
        None => rest,
    };
    if (kind != "pipelinerun" && kind != "taskrun") || !is_unready(reason) {
        return None;
    }
    Some(Failed {
        object: Unready {
            is_task_run: kind == "taskrun",
            name,
            reason,
        },
        has_run: false,
    })
}

/// Says of the last of some objects that something ran of it.
fn mark_last(found: &mut Vec<Failed<'_>>) -> Result<(), AllocError> {
    if let Some(last) = found.pop() {
        found.push(Failed {
            object: last.object,
            has_run: true,
        })?;
    }
    Ok(())
}

/// The objects of a report as text that closed False for want of what they name. The lines of what ran of one are indented.
fn failed_lines<'a>(alloc: Global, report: &'a str) -> Result<Vec<Failed<'a>>, AllocError> {
    let mut found = Vec::new(alloc);
    let mut is_last = false;
    for line in report.lines() {
        if line.starts_with(' ') {
            if is_last {
                mark_last(&mut found)?;
            }
        } else {
            match failed_line(line) {
                Some(failed) => {
                    found.push(failed)?;
                    is_last = true;
                }
                None => is_last = false,
            }
        }
    }
    Ok(found)
}

/// What an object of a report as JSON says, if it closed False for want of what it names.
fn failed_object(object: &Value) -> Option<Failed<'_>> {
    let reason = text_of(object, "reason")?;
    if text_of(object, "status") != Some("False") || !is_unready(reason) {
        return None;
    }
    Some(Failed {
        object: Unready {
            is_task_run: text_of(object, "kind") == Some("TaskRun"),
            name: text_of(object, "name")?,
            reason,
        },
        has_run: text_of(object, "startTime").is_some(),
    })
}

/// The objects of a report as JSON that closed False for want of what they name.
fn failed_objects<'a>(alloc: Global, report: &'a Value) -> Result<Vec<Failed<'a>>, AllocError> {
    let mut found = Vec::new(alloc);
    if let Some(objects) = report.as_array() {
        for object in objects.as_slice() {
            if let Some(failed) = failed_object(object) {
                found.push(failed)?;
            }
        }
    }
    Ok(found)
}

/// Adds a line to what is said.
fn add_line(said: &mut String, line: &str) -> Result<(), AllocError> {
    if said.len() != 0 {
        said.push_str("\n")?;
    }
    said.push_str(line)
}

/// Whether an input is JSON without a Scenario.
fn lacks_scenario(alloc: Global, input: &[u8]) -> bool {
    match std::str::from_utf8(input) {
        Ok(text) => match Value::from_str(alloc, text) {
            Ok(input) => !has_kind(objects_of(&input), "Scenario"),
            Err(_) => false,
        },
        Err(_) => false,
    }
}

/// What to say of objects that closed False for want of what they name.
fn said_of_failed(
    alloc: Global,
    command: &str,
    failed: &[Failed<'_>],
    input: &[u8],
) -> Result<String, AllocError> {
    let mut unready = Vec::new(alloc);
    let mut lacks_results = false;
    for one in failed {
        if !one.has_run {
            unready.push(one.object)?;
        } else if one.object.reason == "InvalidTaskResultReference" {
            lacks_results = true;
        }
    }
    let mut said = warnings(alloc, unready.as_slice(), input)?;
    if lacks_results && command == "simulate" && lacks_scenario(alloc, input) {
        add_line(
            &mut said,
            "tkn: warning: results of a simulation come from a Scenario alone; add one whose `outcomes` have the `results` of the TaskRuns",
        )?;
    }
    Ok(said)
}

/// Whether an input is JSON without a run.
fn lacks_runs(alloc: Global, input: &[u8]) -> bool {
    match std::str::from_utf8(input) {
        Ok(text) => match Value::from_str(alloc, text) {
            Ok(input) => {
                let objects = objects_of(&input);
                !has_kind(objects, "PipelineRun") && !has_kind(objects, "TaskRun")
            }
            Err(_) => false,
        },
        Err(_) => false,
    }
}

/// What to say beside the report of a command.
fn beside(alloc: Global, command: &str, report: &str, input: &[u8]) -> Result<String, AllocError> {
    if report.trim() == "" || report.trim() == "[]" {
        if command != "decide" && lacks_runs(alloc, input) {
            return format!(in alloc;
                "tkn: warning: the input has no PipelineRun and no TaskRun, so there is nothing to {command}; add one"
            );
        }
        return Ok(String::new(alloc));
    }
    if report.starts_with('[') {
        return match Value::from_str(alloc, report) {
            Ok(report) => {
                let failed = failed_objects(alloc, &report)?;
                said_of_failed(alloc, command, failed.as_slice(), input)
            }
            Err(_) => Ok(String::new(alloc)),
        };
    }
    let failed = failed_lines(alloc, report)?;
    said_of_failed(alloc, command, failed.as_slice(), input)
}

/// What to say beside what `decide`, `simulate` or `run` printed for an input: of each object that can't start, why; that results
/// of a simulation come from a Scenario, where one lacks them; and that there is no run. Where there is nothing to say, none.
/// The only error is want of memory.
pub fn remarks(
    alloc: Global,
    words: &[Text],
    printed: &[u8],
    input: &[u8],
) -> Result<Option<String>, AllocError> {
    let command = match words.first() {
        Some(word) => word.as_str(),
        None => "",
    };
    if !matches!(command, "decide" | "simulate" | "run") {
        return Ok(None);
    }
    let Ok(report) = std::str::from_utf8(printed) else {
        return Ok(None);
    };
    let said = beside(alloc, command, report, input)?;
    Ok(if said.len() == 0 { None } else { Some(said) })
}
