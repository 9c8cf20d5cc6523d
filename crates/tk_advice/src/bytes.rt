use serde_json::Value;
use std::alloc::{AllocError, Global};

/// What makes one List of several JSON values.
const JOIN: &str = r#"`jq -s '{apiVersion: "v1", kind: "List", items: .}'`"#;

/// What is said of a comment.
const COMMENT: &str = "JSON has no comments; take them out";

/// The first line of a text that is no comment of YAML's form.
fn first_line(text: &str) -> Option<&str> {
    for line in text.lines() {
        let line = line.trim();
        if !line.is_empty() && !line.starts_with('#') {
            return Some(line);
        }
    }
    None
}

/// Whether a line begins a text of JSON that has a bracket or a quote.
fn begins_as_json(line: &str) -> bool {
    line.starts_with('{') || line.starts_with('[') || line.starts_with('"')
}

/// Whether a text begins with a line of YAML's form `key: value`, or as YAML's documents do.
fn begins_as_yaml(text: &str) -> bool {
    match first_line(text) {
        Some(line) => { !begins_as_json(line) && (line.contains(':') || line.starts_with("---")) }
        None => text.starts_with('#'),
    }
}

/// Whether a text of YAML has several documents: a line `---` behind a line that has something else.
fn has_documents(text: &str) -> bool {
    let mut has_content = false;
    for line in text.lines() {
        let line = line.trim_end();
        if has_content && line == "---" {
            return true;
        }
        has_content = has_content || (!line.is_empty() && line != "---" && !line.starts_with('#'));
    }
    false
}

/// Whether a text begins with a comment.
fn begins_with_comment(text: &str) -> bool {
    text.starts_with("//") || text.starts_with("/*") || text.starts_with('#')
}

/// What bytes that are no JSON look like, where that is plain, and what to do.
fn likeness(bytes: &[u8]) -> Option<&'static str> {
    if bytes.starts_with(b"\xEF\xBB\xBF") {
        return Some(
            "it begins with a byte order mark, which JSON doesn't have; remove its first three bytes",
        );
    }
    let text = match std::str::from_utf8(bytes) {
        Ok(text) => text.trim_start(),
        Err(_) => return Some("it isn't text in UTF-8; write it in that encoding"),
    };
    if text.is_empty() {
        return Some("it is empty; give it by `< INPUT.json` or by a pipe");
    }
    if text.starts_with('/') {
        return Some(COMMENT);
    }
    if begins_as_yaml(text) {
        return Some(if has_documents(text) {
            r#"it looks like several documents of YAML; make one List of them, for example with `yq -o json` and then `jq -s '{apiVersion: "v1", kind: "List", items: .}'`"#
        } else {
            "it looks like YAML; convert it, for example with `yq -o json`"
        });
    }
    if begins_with_comment(text) {
        return Some(COMMENT);
    }
    None
}

/// The bytes before a line and a column, both counted from 1, the column in bytes.
fn before(bytes: &[u8], line: usize, column: usize) -> &[u8] {
    let mut at_line = 1;
    let mut at_column = 1;
    for (place, byte) in bytes.iter().enumerate() {
        if line <= at_line && column <= at_column {
            return &bytes[..place];
        }
        if *byte == b'\n' {
            at_line = at_line.saturating_add(1);
            at_column = 1;
        } else {
            at_column = at_column.saturating_add(1);
        }
    }
    bytes
}

/// Whether bytes are one JSON value.
fn is_json(alloc: Global, bytes: &[u8]) -> bool {
    match std::str::from_utf8(bytes) {
        Ok(text) => Value::from_str(alloc, text).is_ok(),
        Err(_) => false,
    }
}

/// Whether the last of some bytes that is no white space is a comma.
fn ends_with_comma(bytes: &[u8]) -> bool {
    match std::str::from_utf8(bytes) {
        Ok(text) => text.trim_end().ends_with(','),
        Err(_) => false,
    }
}

/// What stands where a text ceases to be JSON: the bytes before it are given, and the first one there.
fn wrong_at(alloc: Global, front: &[u8], next: Option<u8>) -> &'static str {
    match next {
        Some(b'/' | b'#') => ", where a comment stands; JSON has no comments, take them out",
        Some(b'}' | b']') if ends_with_comma(front) => {
            ", behind a comma with which nothing follows; take the comma out"
        }
        Some(b'{' | b'[') if is_json(alloc, front) => ", where a second value begins",
        Some(_) if is_json(alloc, front) => {
            ", where something stands behind the value; take it out"
        }
        _ => "",
    }
}

/// Where a text ends to be JSON, with the parser's words on it, and what to do.
fn whereabouts(alloc: Global, text: &str) -> Result<Option<String>, AllocError> {
    let Err(error) = Value::from_str(alloc, text) else {
        return Ok(None);
    };
    let mut told = format!(in alloc; "{error}")?;
    if error.is_eof() {
        told.push_str(", where the text ends and a bracket or a quote is open; give all of it")?;
        return Ok(Some(told));
    }
    let bytes = text.as_bytes();
    let front = before(bytes, error.line(), error.column());
    let wrong = wrong_at(alloc, front, bytes.get(front.len()).copied());
    told.push_str(wrong)?;
    if wrong.ends_with("begins") {
        told.push_str("; put all objects into one List, for example with ")?;
        told.push_str(JOIN)?;
    }
    Ok(Some(told))
}

/// What to say of bytes that are no JSON.
pub(crate) fn said_of_bytes(
    alloc: Global,
    mut said: String,
    bytes: &[u8],
) -> Result<String, AllocError> {
    if let Some(likeness) = likeness(bytes) {
        said.push_str(": ")?;
        said.push_str(likeness)?;
        return Ok(said);
    }
    let told = match std::str::from_utf8(bytes) {
        Ok(text) => whereabouts(alloc, text)?,
        Err(_) => None,
    };
    if let Some(told) = told {
        said.push_str(": ")?;
        said.push_str(told.as_str())?;
    }
    Ok(said)
}
