use crate::objects::{body_of, list_in, named, pipeline_of, place_of, text_in, text_of};
use serde_json::Value;
use std::alloc::{AllocError, Global};

/// Objects, and the place of one of them that can't start.
#[derive(Clone, Copy)]
pub(crate) struct Among<'a> {
    pub(crate) objects: &'a [Value],
    pub(crate) place: usize,
}

/// A pipeline task, or the spec of a TaskRun, which has no name: what it says, and its Pipeline.
#[derive(Clone, Copy)]
struct Task<'a> {
    name: Option<&'a str>,
    value: &'a Value,
}

/// A text of the input as it is shown: as it is where it has letters, digits and `-_./` alone.
fn shown(alloc: Global, text: &str) -> Result<String, AllocError> {
    let is_plain = |c: char| -> bool {
        c.is_ascii_alphanumeric() || c == '-' || c == '_' || c == '.' || c == '/'
    };
    if text.chars().all(is_plain) {
        String::from_str(alloc, text)
    } else {
        format!(in alloc; "{text:?}")
    }
}

/// A task as it is named behind its Task: nothing where it has no name.
fn of_task(alloc: Global, task: Task<'_>) -> Result<String, AllocError> {
    match task.name {
        Some(name) => {
            let name = shown(alloc, name)?;
            format!(in alloc; " of pipeline task {name}")
        }
        None => Ok(String::new(alloc)),
    }
}

impl<'a> Among<'a> {
    /// Where the object stands that can't start, or none of this kind and name.
    pub(crate) fn of(objects: &'a [Value], kind: &str, name: &str) -> Option<Self> {
        let place = place_of(objects, kind, name)?;
        Some(Among { objects, place })
    }

    /// What the object says.
    fn spec(self) -> Option<&'a Value> {
        self.objects.get(self.place)?.get("spec")
    }

    /// Whether an object of a kind and a name stands in front of the place.
    fn is_before(self, kind: &str, name: &str) -> bool {
        match place_of(self.objects, kind, name) {
            Some(found) => found < self.place,
            None => false,
        }
    }

    /// What is the matter with an object of a kind that is referred to by a name, and of whom.
    fn absent(self, alloc: Global, kind: &str, name: &str, of: &str) -> Result<String, AllocError> {
        let is_there = place_of(self.objects, kind, name).is_some();
        let name = shown(alloc, name)?;
        if is_there {
            format!(in alloc; "{kind} {name}{of} stands only behind it; put it in front of it")
        } else {
            format!(in alloc; "no {kind} has the name {name}{of}; add one in front of it")
        }
    }
}

/// The tasks of a Pipeline, those of `finally` last.
fn tasks_of<'a>(alloc: Global, pipeline: &'a Value) -> Result<Vec<Task<'a>>, AllocError> {
    let mut tasks = Vec::new(alloc);
    let all = list_in(pipeline, "tasks").iter();
    for value in all.chain(list_in(pipeline, "finally")) {
        let name = text_of(value, "name");
        tasks.push(Task { name, value })?;
    }
    Ok(tasks)
}

/// The first task whose Task doesn't stand in front of an object; one whose Task stands behind goes first.
fn first_absent<'a>(among: Among<'a>, tasks: &[Task<'a>]) -> Option<(Task<'a>, &'a str)> {
    let mut found = None;
    for task in tasks {
        if let Some(name) = text_in(task.value, "taskRef", "name") {
            if !among.is_before("Task", name) {
                if place_of(among.objects, "Task", name).is_some() {
                    return Some((*task, name));
                }
                if found.is_none() {
                    found = Some((*task, name));
                }
            }
        }
    }
    found
}

/// What is the matter with the Task of one of these tasks.
fn absent_task(
    alloc: Global,
    among: Among<'_>,
    tasks: &[Task<'_>],
) -> Result<Option<String>, AllocError> {
    match first_absent(among, tasks) {
        Some((task, name)) => {
            let of = of_task(alloc, task)?;
            Ok(Some(among.absent(alloc, "Task", name, of.as_str())?))
        }
        None => Ok(None),
    }
}

/// Whether a task gives a value to a parameter of its Task, by itself or by its matrix.
fn is_given(task: &Value, name: &str) -> bool {
    if named(list_in(task, "params"), name).is_some() {
        return true;
    }
    let Some(matrix) = task.get("matrix") else {
        return false;
    };
    named(list_in(matrix, "params"), name).is_some()
        || list_in(matrix, "include")
            .iter()
            .any(|entry| named(list_in(entry, "params"), name).is_some())
}

/// The first of the declared parameters without a default to which no value is given.
fn first_missing<'a>(declarer: &'a Value, giver: &Value) -> Option<&'a str> {
    for param in list_in(declarer, "params") {
        let name = text_of(param, "name")?;
        if param.get("default").is_none() && !is_given(giver, name) {
            return Some(name);
        }
    }
    None
}

/// What is the matter with a parameter of one of these tasks.
fn missing_of_tasks(
    alloc: Global,
    among: Among<'_>,
    tasks: &[Task<'_>],
) -> Result<Option<String>, AllocError> {
    for task in tasks {
        let missing = match body_of(among.objects, task.value) {
            Some(body) => first_missing(body, task.value),
            None => None,
        };
        if let Some(name) = missing {
            let of = of_task(alloc, *task)?;
            let of = of.as_str();
            return Ok(Some(format!(in alloc;
                "parameter {name} of the Task{of} has no value; give it in `params`, or declare a `default`"
            )?));
        }
    }
    Ok(None)
}

/// The form that a value has, as a parameter's type tells it.
fn form_of(value: &Value) -> &'static str {
    if value.is_array() {
        "array"
    } else if value.is_object() {
        "object"
    } else {
        "string"
    }
}

/// The type of a declared parameter.
fn type_of(param: &Value) -> &'static str {
    match text_of(param, "type") {
        Some("array") => "array",
        Some("object") => "object",
        Some(_) => "string",
        None if param.get("properties").is_some() => "object",
        None => match param.get("default") {
            Some(value) => form_of(value),
            None => "string",
        },
    }
}

/// The first of the given parameters whose value isn't of the declared type, with both types.
fn first_mismatch<'a>(
    declarer: &'a Value,
    giver: &Value,
) -> Option<(&'a str, &'static str, &'static str)> {
    for param in list_in(declarer, "params") {
        let name = text_of(param, "name")?;
        if let Some(given) = named(list_in(giver, "params"), name) {
            let found = form_of(given.get("value")?);
            if found != type_of(param) {
                return Some((name, type_of(param), found));
            }
        }
    }
    None
}

/// What is the matter with the type of a given value.
fn mismatch(alloc: Global, declarer: &Value, giver: &Value) -> Result<Option<String>, AllocError> {
    match first_mismatch(declarer, giver) {
        Some((name, wanted, found)) => Ok(Some(format!(in alloc;
            "parameter {name} is declared of type {wanted}, and the value in `params` is of type {found}; change one of the two"
        )?)),
        None => Ok(None),
    }
}

/// The task and the result that a reference takes, of the text behind its `$(tasks.`.
fn reference(text: &str) -> Option<(&str, &str)> {
    let (inside, _) = text.split_once(')')?;
    let (task, rest) = inside.split_once(".results.")?;
    match rest.split_once('[') {
        Some((result, _)) => Some((task, result)),
        None => Some((task, rest)),
    }
}

/// Whether a list of declared results has this one, perhaps with a key of it.
fn declares(body: &Value, wanted: &str) -> bool {
    for declared in list_in(body, "results") {
        if let Some(name) = text_of(declared, "name") {
            if wanted == name {
                return true;
            }
            match wanted.strip_prefix(name) {
                Some(key) if key.starts_with('.') => return true,
                _ => {}
            }
        }
    }
    false
}

/// Whether a result is of a task of the Pipeline whose Task doesn't declare it.
fn is_undeclared(among: Among<'_>, pipeline: &Value, task: &str, wanted: &str) -> bool {
    match named(list_in(pipeline, "tasks"), task) {
        Some(task) => match body_of(among.objects, task) {
            Some(body) => !declares(body, wanted),
            None => false,
        },
        None => false,
    }
}

/// The first reference in a text to a result that isn't declared.
fn first_undeclared<'t>(
    among: Among<'_>,
    pipeline: &Value,
    text: &'t str,
) -> Option<(&'t str, &'t str)> {
    for (number, piece) in text.split("$(tasks.").enumerate() {
        if 0 < number {
            if let Some((task, result)) = reference(piece) {
                if is_undeclared(among, pipeline, task, result) {
                    return Some((task, result));
                }
            }
        }
    }
    None
}

/// What is the matter with a reference to a result in the text of a part of a Pipeline, which is called so.
fn undeclared_in(
    alloc: Global,
    among: Among<'_>,
    pipeline: &Value,
    part: &Value,
    called: &str,
) -> Result<Option<String>, AllocError> {
    let text = part.to_string(alloc)?;
    match first_undeclared(among, pipeline, text.as_str()) {
        Some((task, result)) => Ok(Some(format!(in alloc;
            "{called} takes result {result} of pipeline task {task}, whose Task doesn't declare it; declare it in its `results`, or correct the name"
        )?)),
        None => Ok(None),
    }
}

/// What is the matter with a reference to a result in a Pipeline.
fn undeclared(
    alloc: Global,
    among: Among<'_>,
    pipeline: &Value,
    tasks: &[Task<'_>],
) -> Result<Option<String>, AllocError> {
    for task in tasks {
        let name = task.name.unwrap_or("");
        let called = format!(in alloc; "pipeline task {name}")?;
        let found = undeclared_in(alloc, among, pipeline, task.value, called.as_str())?;
        if found.is_some() {
            return Ok(found);
        }
    }
    match pipeline.get("results") {
        Some(results) => undeclared_in(alloc, among, pipeline, results, "a result of the Pipeline"),
        None => Ok(None),
    }
}

/// The first of the declared workspaces that isn't optional and has no name among those that are handed on.
fn first_unbound<'a>(declarer: &'a Value, giver: &Value) -> Option<&'a str> {
    for wanted in list_in(declarer, "workspaces") {
        let name = text_of(wanted, "name")?;
        let is_optional = wanted.get("optional").and_then(Value::as_bool) == Some(true);
        if !is_optional && named(list_in(giver, "workspaces"), name).is_none() {
            return Some(name);
        }
    }
    None
}

/// What is the matter with a workspace of one of these tasks.
fn unbound_of_tasks(
    alloc: Global,
    among: Among<'_>,
    tasks: &[Task<'_>],
) -> Result<Option<String>, AllocError> {
    for task in tasks {
        let unbound = match body_of(among.objects, task.value) {
            Some(body) => first_unbound(body, task.value),
            None => None,
        };
        if let Some(name) = unbound {
            let of = of_task(alloc, *task)?;
            let of = of.as_str();
            return Ok(Some(format!(in alloc;
                "workspace {name} of the Task{of} isn't bound; bind it in `workspaces`"
            )?));
        }
    }
    Ok(None)
}

/// What is the matter with a TaskRun, by its reason.
fn of_task_run(
    alloc: Global,
    among: Among<'_>,
    spec: &Value,
    reason: &str,
) -> Result<Option<String>, AllocError> {
    let tasks = [Task {
        name: None,
        value: spec,
    }];
    match reason {
        "CouldntGetTask" => absent_task(alloc, among, &tasks),
        "ParameterMissing" => missing_of_tasks(alloc, among, &tasks),
        "InvalidWorkspaceBindings" => unbound_of_tasks(alloc, among, &tasks),
        "ParameterTypeMismatch" => match body_of(among.objects, spec) {
            Some(body) => mismatch(alloc, body, spec),
            None => Ok(None),
        },
        _ => Ok(None),
    }
}

/// What is the matter with a parameter of a PipelineRun or of its tasks.
fn missing_of_run(
    alloc: Global,
    among: Among<'_>,
    spec: &Value,
    pipeline: &Value,
    tasks: &[Task<'_>],
) -> Result<Option<String>, AllocError> {
    match first_missing(pipeline, spec) {
        Some(name) => Ok(Some(format!(in alloc;
            "parameter {name} of the Pipeline has no value; give it in the run's `params`, or declare a `default`"
        )?)),
        None => missing_of_tasks(alloc, among, tasks),
    }
}

/// What is the matter with a workspace of a PipelineRun or of its tasks.
fn unbound_of_run(
    alloc: Global,
    among: Among<'_>,
    spec: &Value,
    pipeline: &Value,
    tasks: &[Task<'_>],
) -> Result<Option<String>, AllocError> {
    match first_unbound(pipeline, spec) {
        Some(name) => Ok(Some(format!(in alloc;
            "workspace {name} of the Pipeline isn't bound; bind it in the run's `workspaces`"
        )?)),
        None => unbound_of_tasks(alloc, among, tasks),
    }
}

/// What is the matter with a PipelineRun whose Pipeline is there, by its reason.
fn of_run(
    alloc: Global,
    among: Among<'_>,
    spec: &Value,
    pipeline: &Value,
    reason: &str,
) -> Result<Option<String>, AllocError> {
    let tasks = tasks_of(alloc, pipeline)?;
    let tasks = tasks.as_slice();
    match reason {
        "CouldntGetTask" => absent_task(alloc, among, tasks),
        "ParameterMissing" => missing_of_run(alloc, among, spec, pipeline, tasks),
        "ParameterTypeMismatch" => mismatch(alloc, pipeline, spec),
        "InvalidTaskResultReference" => undeclared(alloc, among, pipeline, tasks),
        "InvalidWorkspaceBindings" => unbound_of_run(alloc, among, spec, pipeline, tasks),
        _ => Ok(None),
    }
}

/// What is the matter with an object that can't start and what to do, as far as the texts of the objects tell: which Pipeline,
/// Task, parameter, result or workspace it is, and of which pipeline task.
pub(crate) fn culprit(
    alloc: Global,
    among: Among<'_>,
    is_task_run: bool,
    reason: &str,
) -> Result<Option<String>, AllocError> {
    let Some(spec) = among.spec() else {
        return Ok(None);
    };
    if is_task_run {
        return of_task_run(alloc, among, spec, reason);
    }
    if reason == "CouldntGetPipeline" {
        return match text_in(spec, "pipelineRef", "name") {
            Some(name) => Ok(Some(among.absent(alloc, "Pipeline", name, "")?)),
            None => Ok(None),
        };
    }
    match pipeline_of(among.objects, spec) {
        Some(pipeline) => of_run(alloc, among, spec, pipeline, reason),
        None => Ok(None),
    }
}
