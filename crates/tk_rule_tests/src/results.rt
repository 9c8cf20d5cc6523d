//! A result file that is read alone, and the JSON of its value.

use std::alloc::{AllocError, Global};
use std::test::Fail;
use tk_results::{ReadError, json_text, read_result};
use tk_types::{ParamType, Text};

/// A type and a file, in which `\n` stands for a line feed, and behind `=> ` the JSON of its value, or why it has none.
const FILES: &str = r#"string|say "v1.2"\n => "say \"v1.2\"\n"
array| ["a", "b"] \n => ["a","b"]
array|[1] => BadList
object|{"b":"1","a":"2","b":"3"} => {"a":"2","b":"3"}
object|["a"] => BadObject"#;

/// A type by its word.
fn kind_of(word: &str) -> ParamType {
    match word {
        "array" => ParamType::Arr,
        "object" => ParamType::Obj,
        _ => ParamType::Str,
    }
}

/// What a file reads as.
fn told(alloc: Global, line: &str) -> Result<Text, AllocError> {
    let (word, text) = line.split_once('|').unwrap_or(("", line));
    let file = text.replace(alloc, "\\n", "\n")?;
    match read_result(alloc, kind_of(word), file.as_str().as_bytes()) {
        Ok(value) => json_text(alloc, &value),
        Err(ReadError::BadText) => Text::from_str(alloc, "BadText"),
        Err(ReadError::BadList) => Text::from_str(alloc, "BadList"),
        Err(ReadError::BadObject) => Text::from_str(alloc, "BadObject"),
        Err(ReadError::Memory) => Err(AllocError),
    }
}

#[test]
fn files_are_read_by_their_types(rt: HostRuntime) -> Result<(), Fail> {
    for row in FILES.split('\n') {
        let (line, wanted) = row.split_once(" => ").unwrap_or((row, "no answer"));
        assert_eq!(rt; told(rt.alloc(), line)?.as_str(), wanted, "of {line}");
    }
    Ok(())
}
