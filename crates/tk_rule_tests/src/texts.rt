//! Texts that are checked and substituted alone.

ghost use Rattle.tk_vars.specs.Reading.{HasReading};

use crate::given::env;
use std::alloc::{AllocError, Global};
use std::test::Fail;
use tk_bind::{
    CheckError, Env, Scope, ScopeNames, SubstituteError, check_text, substitute, substitute_list,
    substitute_value,
};
use tk_results::json_text;
use tk_types::{List, ParamSpec, ParamType, Text, Value};
use tk_vars::{ScanError, scan};

/// A scope with the list `x` alone.
fn scope(alloc: Global) -> Result<Scope, AllocError> {
    let mut params = List::new(alloc);
    params.push(ParamSpec {
        name: Text::from_str(alloc, "x")?,
        kind: ParamType::Arr,
        default_value: None,
        properties: List::new(alloc),
    })?;
    Ok(Scope {
        params,
        untyped: List::new(alloc),
        tasks: List::new(alloc),
        words: List::new(alloc),
        results: false,
        finally_results: false,
        paths: List::new(alloc),
    })
}

/// What is wrong with a text, which may be a whole array where `whole` holds.
fn checked(alloc: Global, text: &str, whole: bool) -> Result<String, AllocError> {
    let scope = scope(alloc)?;
    let names = ScopeNames::new(alloc, &scope)?;
    match check_text(alloc, text, &names, whole) {
        Ok(()) => String::from_str(alloc, "good"),
        Err(CheckError::BadReference { offset }) => format!(in alloc; "bad {offset}"),
        Err(CheckError::Unknown { reference }) => {
            format!(in alloc; "unknown {}", reference.as_str())
        }
        Err(CheckError::WrongType { reference }) => {
            format!(in alloc; "wrong {}", reference.as_str())
        }
        Err(CheckError::Memory) => Err(AllocError),
    }
}

/// What a text gives alone, as an element of a list or as a value.
fn substituted(alloc: Global, form: &str, words: &str, env: &Env) -> Result<Value, SubstituteError>
    requires { HasReading words.now }
{
    match form {
        "alone" => Ok(Value::Str(substitute(alloc, words, env)?)),
        "element" => {
            let texts = [Text::from_str(alloc, words)?];
            Ok(Value::Arr(substitute_list(alloc, &texts, env)?))
        }
        _ => substitute_value(alloc, &Value::Str(Text::from_str(alloc, words)?), env),
    }
}

/// The JSON of a value, or the reference that has none.
fn shown(alloc: Global, made: Result<Value, SubstituteError>) -> Result<String, AllocError> {
    match made {
        Ok(value) => String::from_str(alloc, json_text(alloc, &value)?.as_str()),
        Err(SubstituteError::Unavailable { reference }) => {
            format!(in alloc; "no {}", reference.as_str())
        }
        Err(SubstituteError::Memory) => Err(AllocError),
    }
}

/// `whole` where `[*]` may be the whole of a text, `part` where it mayn't, or the form in which a text is substituted; the text; and behind
/// `=> ` what is wrong with it, or the JSON of what it gives.
const TEXTS: &str = r#"whole $(params.x[*]) => good
part $(params.x[*]) => wrong $(params.x[*])
whole $(params.x)$(params.q) => unknown $(params.q)
whole -$(params.x[*]) => bad 1
alone x$(params['t'])y => "x1y"
alone $(params.y)$(params.z) => no $(params.y)
alone $(params.x[*]) => no $(params.x[*])
element <$(params.t)> => ["<1>"]
element $(params.x[*]) => ["b","c"]
value $(params.t) => "1"
value $(params.x[*]) => ["b","c"]
value $(params.o[*]) => {"first":"2"}
value $(params.o.first) => "2"
value $(params.o.second) => no $(params.o.second)"#;

/// What is told of a row's text.
fn told(alloc: Global, line: &str) -> Result<String, ScanError> {
    let (form, words) = line.split_once(' ').unwrap_or((line, ""));
    if form == "whole" || form == "part" {
        return Ok(checked(alloc, words, form == "whole")?);
    }
    scan(alloc, words)?;
    let env = env(alloc)?;
    Ok(shown(alloc, substituted(alloc, form, words, &env))?)
}

#[test]
fn texts_are_checked_and_substituted(rt: HostRuntime) -> Result<(), Fail> {
    for row in TEXTS.split('\n') {
        let (line, wanted) = row.split_once(" => ").unwrap_or((row, "no answer"));
        assert_eq!(rt; told(rt.alloc(), line)?.as_str(), wanted, "of {line}");
    }
    Ok(())
}
