use crate::objects::{is_of_kind, list_in, objects_of, pipeline_of, text_in, text_of, value_at};
use crate::weights::combinations;
use serde_json::Value;
use std::alloc::{AllocError, Global};

/// The longest name that a TaskRun has; of a longer one a hash is made.
const LONGEST_NAME: usize = 63;

/// The most combinations that a matrix has.
const MOST_COMBINATIONS: u64 = 256;

/// Adds a name that isn't too long.
fn add(names: &mut Vec<String>, name: String) -> Result<(), AllocError> {
    if name.len() <= LONGEST_NAME {
        names.push(name)?;
    }
    Ok(())
}

/// Adds the names that TaskRuns of a task of this name may have, of which there are so many where it has a matrix.
fn add_task(
    alloc: Global,
    names: &mut Vec<String>,
    run: &str,
    task: &str,
    count: Option<u64>,
) -> Result<(), AllocError> {
    let Some(count) = count else {
        return add(names, format!(in alloc; "{run}-{task}")?);
    };
    for index in 0..count.min(MOST_COMBINATIONS) {
        add(names, format!(in alloc; "{run}-{task}-{index}")?)?;
    }
    Ok(())
}

/// Adds the names that TaskRuns of a PipelineRun of this name may have.
fn add_run(
    alloc: Global,
    names: &mut Vec<String>,
    run: &str,
    spec: &Value,
    pipeline: &Value,
) -> Result<(), AllocError> {
    let tasks = list_in(pipeline, "tasks").iter();
    for task in tasks.chain(list_in(pipeline, "finally")) {
        if let Some(name) = text_of(task, "name") {
            add_task(alloc, names, run, name, combinations(spec, pipeline, task))?;
        }
    }
    Ok(())
}

/// The names that TaskRuns of the object at a place may have, in order.
fn names_at(alloc: Global, input: &Value, place: &str) -> Result<Vec<String>, AllocError> {
    let mut names = Vec::new(alloc);
    let Some(object) = value_at(input, place) else {
        return Ok(names);
    };
    let (Some(name), Some(spec)) = (text_in(object, "metadata", "name"), object.get("spec")) else {
        return Ok(names);
    };
    if is_of_kind(object, "TaskRun") {
        names.push(String::from_str(alloc, name)?)?;
    } else if let Some(pipeline) = pipeline_of(objects_of(input), spec) {
        add_run(alloc, &mut names, name, spec, pipeline)?;
    }
    names.sort()?;
    Ok(names)
}

/// The first of some names in order that stands twice.
fn first_twice(names: &[String]) -> Option<&str> {
    let mut before = "";
    for name in names {
        if name.as_str() == before {
            return Some(before);
        }
        before = name.as_str();
    }
    None
}

/// The first of some names in order that is among others.
fn first_among<'a>(names: &'a [String], others: &[String]) -> Option<&'a str> {
    for name in names {
        if others.binary_search(name).is_ok() {
            return Some(name.as_str());
        }
    }
    None
}

/// A name that TaskRuns of the objects at two places, or two of the one at both, may have, as far as their texts tell.
pub(crate) fn clashing_name(
    alloc: Global,
    input: &Value,
    later: &str,
    earlier: &str,
) -> Result<Option<String>, AllocError> {
    let names = names_at(alloc, input, later)?;
    let found = if later == earlier {
        first_twice(names.as_slice())
    } else {
        let others = names_at(alloc, input, earlier)?;
        first_among(names.as_slice(), others.as_slice())
    };
    match found {
        Some(name) => Ok(Some(String::from_str(alloc, name)?)),
        None => Ok(None),
    }
}
