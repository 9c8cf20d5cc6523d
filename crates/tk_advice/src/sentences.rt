/// What is wrong with an input of which a fault of this number is the first, and what to do.
pub(crate) fn sentence(number: &str) -> Option<&'static str> {
    match number {
        "1" => Some("the input isn't one JSON value; mend it"),
        "2" => Some(
            "this value has another form than its field takes; the Tekton documentation has the field's type",
        ),
        "3" => Some(
            "this apiVersion isn't read; write `tekton.dev/v1`, `tkn.local/v1` for Outcomes and a Scenario, or `v1` for a List",
        ),
        "4" => Some(
            "this kind isn't read; the kinds are PipelineRun, Pipeline, TaskRun and Task, a List of these, and Outcomes for `decide` or a Scenario for `simulate`",
        ),
        "5" => Some("the last key of the place is missing; add it"),
        "6" => Some("there is no such field; correct its spelling or remove it"),
        "7" => Some("this field of Tekton isn't carried out here; remove it"),
        "8" => Some(
            "this name breaks the rules of Kubernetes and Tekton for names; mostly lower-case letters, digits and `-` may stand",
        ),
        "9" => Some(
            "this name, which stands behind the place, is there already; rename or remove one of the two",
        ),
        "10" => Some("this isn't a duration of at most a year, as `1h30m`, `90s` or `500ms`"),
        "11" => Some("this value isn't one of those that may stand here"),
        "12" => Some(
            "no task has the name behind the place; correct it, or add the task to `tasks`",
        ),
        "13" => Some(
            "the tasks behind the place wait for one another in a circle; remove one of their `runAfter` entries or result references",
        ),
        "14" => Some(
            "this text has no valid reference at the byte behind the place; write it as `$(params.NAME)` or `$(tasks.TASK.results.NAME)`",
        ),
        "15" => Some(
            "the variable behind the place can't be seen from this text; declare it, or correct its name",
        ),
        "16" => Some(
            "a text, an array and an object are mistaken for one another here; compare the declared type with what stands",
        ),
        "17" => Some(
            "the timeouts of `tasks` and `finally` are together over that of `pipeline`; shorten one of them",
        ),
        "18" => Some(
            "the name behind the place is in conflict with a matrix; a parameter stands in `params` or in `matrix`, a matrix takes arrays, and a matrixed task's result is used with `[*]`",
        ),
        "19" => Some(
            "this can't stand here, since the tasks of `finally` run side by side behind all of `tasks`; take out `runAfter`, or the result or status that isn't known there",
        ),
        "20" => Some(
            "a TaskRun of this object would have the name of one of the object at the place behind it; rename one of the runs or tasks",
        ),
        "21" => Some(
            "here is more than the first number behind the place allows; split the input or make the part smaller",
        ),
        "22" => Some("the input is longer than 8,388,608 bytes; split it"),
        _ => None,
    }
}

/// A line `rejected NUMBER NAME`, with a place and details behind it where there are any.
#[derive(Clone, Copy, Debug, PartialEq, Eq)]
pub(crate) struct Line<'a> {
    pub(crate) number: &'a str,
    pub(crate) place: Option<&'a str>,
    pub(crate) details: Option<&'a str>,
}

/// The place and the details of what stands behind the name of a fault.
fn place_and_details(text: &str) -> (Option<&str>, Option<&str>) {
    match text.split_once(' ') {
        Some((place, details)) => (Some(place), Some(details)),
        None => (Some(text), None),
    }
}

/// The parts of such a line, and None of other lines.
pub(crate) fn parts(line: &str) -> Option<Line<'_>> {
    let told = line.trim_end().strip_prefix("rejected ")?;
    let (number, named) = told.split_once(' ')?;
    let (place, details) = match named.split_once(' ') {
        Some((_, behind)) => place_and_details(behind),
        None => (None, None),
    };
    Some(Line {
        number,
        place,
        details,
    })
}
