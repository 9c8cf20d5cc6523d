use serde_json::Value;
use std::slice;

/// Whether a value is an object of this kind.
pub(crate) fn is_of_kind(value: &Value, kind: &str) -> bool {
    match value.get("kind").and_then(Value::as_str) {
        Some(name) => name == kind,
        None => false,
    }
}

/// The objects of an input: those of a List, or the one that it is.
pub(crate) fn objects_of(input: &Value) -> &[Value] {
    match input.get("items").and_then(Value::as_array) {
        Some(items) => items.as_slice(),
        None => slice::from_ref(input),
    }
}

/// Whether some object is of this kind.
pub(crate) fn has_kind(objects: &[Value], kind: &str) -> bool {
    objects.iter().any(|object| is_of_kind(object, kind))
}

/// The text of a member.
pub(crate) fn text_of<'a>(value: &'a Value, key: &str) -> Option<&'a str> {
    value.get(key)?.as_str()
}

/// The text of a member of a member.
pub(crate) fn text_in<'a>(value: &'a Value, outer: &str, inner: &str) -> Option<&'a str> {
    value.get(outer)?.get(inner)?.as_str()
}

/// The elements of a member, none where there is no such list.
pub(crate) fn list_in<'a>(value: &'a Value, key: &str) -> &'a [Value] {
    match value.get(key).and_then(Value::as_array) {
        Some(items) => items.as_slice(),
        None => &[],
    }
}

/// The first of these whose name is that.
pub(crate) fn named<'a>(values: &'a [Value], name: &str) -> Option<&'a Value> {
    let place = values
        .iter()
        .position(|value| text_of(value, "name") == Some(name))?;
    values.get(place)
}

/// Where among objects the first of a kind and a name stands.
pub(crate) fn place_of(objects: &[Value], kind: &str, name: &str) -> Option<usize> {
    objects.iter().position(|object| {
        is_of_kind(object, kind) && text_in(object, "metadata", "name") == Some(name)
    })
}

/// What the first object of a kind and a name says.
fn spec_of<'a>(objects: &'a [Value], kind: &str, name: &str) -> Option<&'a Value> {
    objects.get(place_of(objects, kind, name)?)?.get("spec")
}

/// What a run's spec says of its tasks, or the Pipeline that it names.
pub(crate) fn pipeline_of<'a>(objects: &'a [Value], spec: &'a Value) -> Option<&'a Value> {
    match spec.get("pipelineSpec") {
        Some(pipeline) => Some(pipeline),
        None => spec_of(objects, "Pipeline", text_in(spec, "pipelineRef", "name")?),
    }
}

/// What a pipeline task, or the spec of a TaskRun, says of its Task, or the Task that it names.
pub(crate) fn body_of<'a>(objects: &'a [Value], task: &'a Value) -> Option<&'a Value> {
    match task.get("taskSpec") {
        Some(body) => Some(body),
        None => spec_of(objects, "Task", text_in(task, "taskRef", "name")?),
    }
}

/// The element or the member to which a part of a place between two dots leads.
fn part_of<'a>(value: &'a Value, part: &str) -> Option<&'a Value> {
    let mut found = value;
    for (number, step) in part.split('[').enumerate() {
        found = if number == 0 {
            found.get(step)?
        } else {
            found.get(step.strip_suffix(']')?.parse::<usize>().ok()?)?
        };
    }
    Some(found)
}

/// The value at a place of an input, as far as its keys have no dots, brackets or spaces.
pub(crate) fn value_at<'a>(input: &'a Value, place: &str) -> Option<&'a Value> {
    let mut found = input;
    for part in place.strip_prefix("$")?.split('.') {
        if !part.is_empty() {
            found = part_of(found, part)?;
        }
    }
    Some(found)
}

/// The place above the last key of one.
pub(crate) fn above(place: &str) -> &str {
    match place.rsplit_once('.') {
        Some((front, _)) => front,
        None => place,
    }
}

/// The last key of a place, without the number of an element of it.
pub(crate) fn last_key(place: &str) -> &str {
    let last = match place.rsplit_once('.') {
        Some((_, last)) => last,
        None => place,
    };
    match last.split_once('[') {
        Some((key, _)) => key,
        None => last,
    }
}
