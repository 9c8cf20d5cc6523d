use crate::objects::{above, is_of_kind, last_key, objects_of, text_in, value_at};
use serde_json::Value;

/// Which words may stand as the status of a run at a place.
fn statuses(input: &Value, place: &str) -> &'static str {
    let object = above(above(place));
    let is_task_run = match value_at(input, object) {
        Some(object) => is_of_kind(object, "TaskRun"),
        None => false,
    };
    if is_task_run {
        "the status of a TaskRun is `TaskRunCancelled`; write that, or take the field out"
    } else {
        "the status of a PipelineRun is one of `PipelineRunPending`, `StoppedRunFinally`, `CancelledRunFinally` and `Cancelled`; write one of them, or take the field out"
    }
}

/// Which words may stand as `onError`, or what excludes the one that stands.
fn on_error(value: Option<&Value>) -> &'static str {
    match value.and_then(Value::as_str) {
        Some("continue") => {
            "`onError: continue` and `retries` exclude each other; take one of the two out"
        }
        _ => "`onError` is `continue` or `stopAndFail`",
    }
}

/// What may stand where a choice of Tekton's own objects is at fault.
fn tekton_choice(input: &Value, place: &str) -> Option<&'static str> {
    match last_key(place) {
        "type" => Some("a type is one of `string`, `array` and `object`"),
        "operator" => Some("an operator is `in` or `notin`"),
        "onError" => Some(on_error(value_at(input, place))),
        "status" => Some(statuses(input, place)),
        "script" => { Some("`command` and `script` exclude each other; take one of the two out") }
        "taskSpec" => {
            Some("`taskRef` and `taskSpec` exclude each other; take one of the two out")
        }
        "pipelineSpec" => {
            Some("`pipelineRef` and `pipelineSpec` exclude each other; take one of the two out")
        }
        "persistentVolumeClaim" => {
            Some(
                "`emptyDir` and `persistentVolumeClaim` exclude each other; take one of the two out",
            )
        }
        "workspaces" => {
            Some(
                "the Pipeline doesn't declare the workspace that is handed on here; declare it in its `workspaces`, or correct the name",
            )
        }
        _ => None,
    }
}

/// What may stand where a choice of Outcomes or of a Scenario is at fault.
fn own_choice(place: &str) -> Option<&'static str> {
    match last_key(place) {
        "stops" => {
            Some(
                "a stop is above the one before it; they are, from below, `Failure` or `StoppedRunFinally`, then `CancelledRunFinally` or `TasksTimeout`, then `FinallyTimeout`, then `Cancelled` or `PipelineTimeout`",
            )
        }
        "outcome" => {
            Some(
                "an outcome is one of `Succeeded`, `Failed`, `TimedOut`, `Cancelled`, `Lost` and `Running`",
            )
        }
        "exit" => Some("`exit` stands beside the outcome `Failed` alone; take it out"),
        "results" => {
            Some(
                "`results` stand beside the outcomes `Succeeded` and `Failed` alone; take them out",
            )
        }
        "controllers" | "kubelets" => Some("there are 1 to 8 controllers, and 1 to 8 kubelets"),
        "outcomes" => {
            Some(
                "an outcome of the same `taskRun` and `attempt` stands before this one; keep one of the two",
            )
        }
        "events" => {
            Some(
                "an event has one of the forms `deliver controller|kubelet I runs|taskruns|pods N`, `deliver controller|kubelet I all`, `relist controller|kubelet I runs|taskruns|pods N`, `turn runs|tasks|kubelet I`, `restart controller|kubelet I`, `ask NAME STATUS`, `clock MILLISECONDS` and `round`; indexes are below the number of these actors, and a clock isn't turned back",
            )
        }
        _ => None,
    }
}

/// What may stand at a place where a choice is at fault, and which fields exclude each other there.
pub(crate) fn choice(input: &Value, place: &str) -> Option<&'static str> {
    match tekton_choice(input, place) {
        Some(said) => Some(said),
        None => own_choice(place),
    }
}

/// Which command reads the kind at a place, where it isn't the one that was called.
pub(crate) fn kind(input: &Value, place: &str) -> Option<&'static str> {
    match value_at(input, place)?.as_str()? {
        "Scenario" => {
            Some(
                "a Scenario is read by `simulate` alone; call `tkn simulate`, or take the object out",
            )
        }
        "Outcomes" => {
            Some("Outcomes are read by `decide` alone; call `tkn decide`, or take the object out")
        }
        "List" => Some("a List stands in no List; put its objects into the outer one"),
        _ => None,
    }
}

/// What is missing at a place where one of two fields is wanted.
pub(crate) fn missing(place: &str) -> Option<&'static str> {
    match last_key(place) {
        "taskSpec" => Some("either `taskRef` or `taskSpec` is missing; add one of the two"),
        "pipelineSpec" => {
            Some("either `pipelineRef` or `pipelineSpec` is missing; add one of the two")
        }
        "emptyDir" => {
            Some("either `emptyDir` or `persistentVolumeClaim` is missing; add one of the two")
        }
        "name" if last_key(above(place)) == "metadata" => {
            Some("either `name` or `generateName` is missing; add one of the two")
        }
        _ => None,
    }
}

/// What is to be done where a field isn't carried out.
pub(crate) fn unsupported(place: &str) -> Option<&'static str> {
    if last_key(place) == "steps" && place.ends_with(']') {
        return Some(
            "add `command` or `script`: a step that relies on its image's own command isn't carried out",
        );
    }
    match (last_key(above(place)), last_key(place)) {
        ("taskRef" | "pipelineRef", "kind" | "apiVersion") => {
            Some(
                "a Task or a Pipeline of `tekton.dev/v1` alone can be referred to; take the field out, or correct it",
            )
        }
        _ => None,
    }
}

/// Which object stands twice of which a command takes one.
pub(crate) fn second(input: &Value, place: &str) -> Option<&'static str> {
    if place != "$" {
        return None;
    }
    let objects = objects_of(input);
    let is_twice = |kind: &str| -> bool {
        1 < objects
            .iter()
            .filter(|object| is_of_kind(object, kind))
            .count()
    };
    if is_twice("Scenario") {
        Some("one Scenario alone may stand in an input; leave out this one or the other")
    } else if is_twice("PipelineRun") {
        Some("`decide` takes one PipelineRun; leave out this one or the other")
    } else if is_twice("Outcomes") {
        Some("`decide` takes one Outcomes object; leave out this one or the other")
    } else {
        None
    }
}

/// What the default comes to where a run's timeouts have no `pipeline`.
pub(crate) fn timeouts(input: &Value, place: &str) -> Option<&'static str> {
    match text_in(value_at(input, above(place))?, "timeouts", "pipeline") {
        Some(_) => None,
        None => {
            Some(
                "the timeouts of `tasks` and `finally` are together over that of `pipeline`, which is one hour where none is written; write it, or shorten one of them",
            )
        }
    }
}
