use crate::objects::{body_of, is_of_kind, list_in, named, objects_of, pipeline_of, text_in};
use serde_json::Value;

/// How many elements the array has that a text of the form `$(params.NAME[*])` stands for.
fn named_length(spec: &Value, pipeline: &Value, item: &Value) -> Option<u64> {
    let name = item
        .as_str()?
        .strip_prefix("$(params.")?
        .strip_suffix("[*])")?;
    let value = match named(list_in(spec, "params"), name) {
        Some(given) => given.get("value")?,
        None => named(list_in(pipeline, "params"), name)?.get("default")?,
    };
    Some(value.as_array()?.len() as u64)
}

/// How many values a parameter of a matrix has.
fn values_of(spec: &Value, pipeline: &Value, value: &Value) -> u64 {
    let Some(items) = value.as_array() else {
        return named_length(spec, pipeline, value).unwrap_or(1);
    };
    let mut count: u64 = 0;
    for item in items.as_slice() {
        count = count.saturating_add(named_length(spec, pipeline, item).unwrap_or(1));
    }
    count
}

/// How many combinations a task of a run has at most, as far as its text tells, and None where it has no matrix.
pub(crate) fn combinations(spec: &Value, pipeline: &Value, task: &Value) -> Option<u64> {
    let matrix = task.get("matrix")?;
    let mut count: u64 = 1;
    for param in list_in(matrix, "params") {
        if let Some(value) = param.get("value") {
            count = count.saturating_mul(values_of(spec, pipeline, value));
        }
    }
    let more = list_in(matrix, "include").len() as u64;
    Some(if list_in(matrix, "params").is_empty() {
        more
    } else {
        count.saturating_add(more)
    })
}

/// What a TaskRun weighs that a pipeline task, or a spec of its own, tells.
fn child_weight(objects: &[Value], task: &Value) -> u64 {
    let steps = match body_of(objects, task) {
        Some(body) => list_in(body, "steps").len() as u64,
        None => 0,
    };
    let attempts = task
        .get("retries")
        .and_then(Value::as_u64)
        .unwrap_or(0)
        .saturating_add(1);
    attempts
        .saturating_mul(steps.saturating_mul(2).saturating_add(5))
        .saturating_add(3)
}

/// What a PipelineRun weighs.
fn run_weight(objects: &[Value], spec: &Value) -> u64 {
    let Some(pipeline) = pipeline_of(objects, spec) else {
        return 7;
    };
    let tasks = list_in(pipeline, "tasks").iter();
    let mut total: u64 = 7;
    for task in tasks.chain(list_in(pipeline, "finally")) {
        let children = combinations(spec, pipeline, task).unwrap_or(1);
        let own = children.saturating_mul(child_weight(objects, task));
        total = total.saturating_add(own).saturating_add(1);
    }
    total
}

/// The kind of an object and its weight, if it is a run.
fn weighed(objects: &[Value], object: &Value) -> Option<(&'static str, u64)> {
    let spec = object.get("spec")?;
    if is_of_kind(object, "PipelineRun") {
        Some(("PipelineRun", run_weight(objects, spec)))
    } else if is_of_kind(object, "TaskRun") {
        Some(("TaskRun", child_weight(objects, spec).saturating_add(1)))
    } else {
        None
    }
}

/// What an object is called: by its name, or by the front of the one that it is given.
fn called(object: &Value) -> Option<&str> {
    match text_in(object, "metadata", "name") {
        Some(name) => Some(name),
        None => text_in(object, "metadata", "generateName"),
    }
}

/// The kind and the name of the run that weighs most, by the text of the input.
pub(crate) fn heaviest(input: &Value) -> Option<(&'static str, &str)> {
    let objects = objects_of(input);
    let mut most: u64 = 0;
    let mut found = None;
    for object in objects {
        if let Some((kind, weight)) = weighed(objects, object) {
            if most < weight {
                if let Some(name) = called(object) {
                    most = weight;
                    found = Some((kind, name));
                }
            }
        }
    }
    found
}
