use crate::bytes::said_of_bytes;
use crate::choices::{choice, kind, missing, second, timeouts, unsupported};
use crate::clashes::clashing_name;
use crate::objects::{has_kind, objects_of};
use crate::sentences::{Line, parts, sentence};
use crate::weights::heaviest;
use serde_json::Value;
use std::alloc::{AllocError, Global};

/// Which of the objects that `decide` needs an input lacks.
fn lacking(input: &Value) -> Option<&'static str> {
    let objects = objects_of(input);
    if !has_kind(objects, "PipelineRun") {
        return Some("`decide` needs a PipelineRun; add one to the List");
    }
    if !has_kind(objects, "Outcomes") {
        return Some(
            "`decide` needs an Outcomes object beside the PipelineRun; add one to the List",
        );
    }
    None
}

/// What is said of a value that is no object and is the whole input.
fn whole_shape(input: &Value, place: &str) -> Option<&'static str> {
    if place == "$" && input.is_array() {
        Some(
            r#"the input is an array, where an object or a List is read; make a List of it, for example with `jq '{apiVersion: "v1", kind: "List", items: .}'`"#,
        )
    } else {
        None
    }
}

/// What is said of a fault by what stands at its place, where that says more than its number.
fn sentence_at(number: &str, place: &str, input: &Value) -> Option<&'static str> {
    match number {
        "2" => whole_shape(input, place),
        "4" => kind(input, place),
        "5" => missing(place),
        "7" => unsupported(place),
        "9" => second(input, place),
        "11" => choice(input, place),
        "17" => timeouts(input, place),
        _ => None,
    }
}

/// The sentence on a fault of an input.
fn sentence_of(line: Line<'_>, input: Option<&Value>) -> Option<&'static str> {
    let general = sentence(line.number)?;
    match (line.place, input) {
        (Some(place), Some(input)) => {
            Some(sentence_at(line.number, place, input).unwrap_or(general))
        }
        _ => Some(general),
    }
}

/// The name that TaskRuns of two objects may both have, as it is said.
fn clash_told(alloc: Global, line: Line<'_>, input: &Value) -> Result<Option<String>, AllocError> {
    let (Some(later), Some(earlier)) = (line.place, line.details) else {
        return Ok(None);
    };
    match clashing_name(alloc, input, later, earlier)? {
        Some(name) => {
            let name = name.as_str();
            Ok(Some(format!(in alloc; "; the name is {name}")?))
        }
        None => Ok(None),
    }
}

/// Which run weighs most, as it is said, where the weight is too great.
fn weight_told(alloc: Global, line: Line<'_>, input: &Value) -> Result<Option<String>, AllocError> {
    if line.place != Some("$") || !line.details.unwrap_or("").starts_with("200000 ") {
        return Ok(None);
    }
    match heaviest(input) {
        Some((kind, name)) => Ok(Some(format!(in alloc;
            "; they are the entries that the runs may write: of a run seven and one for each task, of a TaskRun three, or four where it stands alone, of each attempt five and two for each step, and one for each ask; {kind} {name} weighs most"
        )?)),
        None => Ok(None),
    }
}

/// What is said behind the place and the details.
fn more_of(
    alloc: Global,
    line: Line<'_>,
    input: Option<&Value>,
) -> Result<Option<String>, AllocError> {
    match (line.number, input) {
        ("20", Some(input)) => clash_told(alloc, line, input),
        ("21", Some(input)) => weight_told(alloc, line, input),
        _ => Ok(None),
    }
}

/// The sentence with the place and the details behind it.
fn with_place(alloc: Global, sentence: &str, line: Line<'_>) -> Result<String, AllocError> {
    let mut said = String::from_str(alloc, sentence)?;
    if let Some(place) = line.place {
        said.push_str(": ")?;
        said.push_str(place)?;
    }
    if let Some(details) = line.details {
        said.push_str(" ")?;
        said.push_str(details)?;
    }
    Ok(said)
}

/// What to say of a line, where the input is this value, if it is one.
fn said_of(
    alloc: Global,
    line: Line<'_>,
    input: Option<&Value>,
) -> Result<Option<String>, AllocError> {
    let Some(sentence) = sentence_of(line, input) else {
        return Ok(None);
    };
    let mut said = with_place(alloc, sentence, line)?;
    if let Some(more) = more_of(alloc, line, input)? {
        said.push_str(more.as_str())?;
    }
    Ok(Some(said))
}

/// What to say of an input whose line is `rejected NUMBER NAME` with its place and details: a sentence in plain words, and
/// behind it the place and the details as they stand in the line; of an input that is no JSON, what it looks like or where it
/// ends to be JSON. Of other lines there is nothing to say. The only error is want of memory.
pub fn advice(alloc: Global, line: &str, input: &[u8]) -> Result<Option<String>, AllocError> {
    let Some(line) = parts(line) else {
        return Ok(None);
    };
    let parsed = match std::str::from_utf8(input) {
        Ok(text) => Value::from_str(alloc, text).ok(),
        Err(_) => None,
    };
    if line.number == "5" && line.place == Some("$") {
        if let Some(lacking) = parsed.as_ref().and_then(lacking) {
            return Ok(Some(String::from_str(alloc, lacking)?));
        }
    }
    match said_of(alloc, line, parsed.as_ref())? {
        Some(said) if line.number == "1" => Ok(Some(said_of_bytes(alloc, said, input)?)),
        said => Ok(said),
    }
}
