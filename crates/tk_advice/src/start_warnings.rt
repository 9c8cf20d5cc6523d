use crate::culprits::{Among, culprit};
use crate::objects::objects_of;
use serde_json::Value;
use std::alloc::{AllocError, Global};

/// A run, or a TaskRun of its own, that is admitted and can't start: its name, and the reason that its condition will have.
#[derive(Clone, Copy)]
pub struct Unready<'a> {
    pub is_task_run: bool,
    pub name: &'a str,
    pub reason: &'a str,
}

impl<'a> Unready<'a> {
    /// Its kind.
    fn kind(self) -> &'static str {
        if self.is_task_run {
            "TaskRun"
        } else {
            "PipelineRun"
        }
    }
}

/// Why an object can't start whose reason is this, and what to do.
fn sentence(reason: &str) -> &'static str {
    match reason {
        "CouldntGetPipeline" => {
            "no Pipeline has the name in its `pipelineRef`; add it in front of it"
        }
        "CouldntGetTask" => { "no Task has the name in its `taskRef`; add it in front of it" }
        "ParameterMissing" => {
            "a parameter has no value, or a reference takes more of it than is there; give it in `params`, or declare a `default`"
        }
        "ParameterTypeMismatch" => {
            "a parameter's value isn't of its declared type; compare the two"
        }
        "InvalidTaskResultReference" => {
            "a reference takes a result that its task doesn't declare, or takes it for another type; declare it in `results` of the task"
        }
        "InvalidWorkspaceBindings" => {
            "a declared workspace isn't bound, or is bound to none of the run's; bind it in `workspaces`"
        }
        _ => "see the Tekton documentation for its reason",
    }
}

/// What is the matter with one of them, as far as the input tells.
fn matter(
    alloc: Global,
    input: Option<&Value>,
    unready: Unready<'_>,
) -> Result<Option<String>, AllocError> {
    let among = match input {
        Some(input) => Among::of(objects_of(input), unready.kind(), unready.name),
        None => None,
    };
    match among {
        Some(among) => culprit(alloc, among, unready.is_task_run, unready.reason),
        None => Ok(None),
    }
}

/// What to say of one of them.
fn warning(
    alloc: Global,
    input: Option<&Value>,
    unready: Unready<'_>,
) -> Result<String, AllocError> {
    let kind = unready.kind();
    let Unready { name, reason, .. } = unready;
    let matter = matter(alloc, input, unready)?;
    let told = match &matter {
        Some(matter) => matter.as_str(),
        None => sentence(reason),
    };
    format!(in alloc; "tkn: warning: {kind} {name} is admitted and can't start ({reason}): {told}")
}

/// What to say beside an input of which these are admitted and can't start: a line for each, none behind the last. The only
/// error is want of memory.
pub fn warnings(
    alloc: Global,
    unready: &[Unready<'_>],
    input: &[u8],
) -> Result<String, AllocError> {
    let mut said = String::new(alloc);
    let parsed = match std::str::from_utf8(input) {
        Ok(text) if !unready.is_empty() => Value::from_str(alloc, text).ok(),
        _ => None,
    };
    let mut between = "";
    for one in unready {
        let line = warning(alloc, parsed.as_ref(), *one)?;
        said.push_str(between)?;
        said.push_str(line.as_str())?;
        between = "\n";
    }
    Ok(said)
}
