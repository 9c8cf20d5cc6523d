//! The shapes of parameters, and of values that refer to them.

use crate::given::env;
use std::alloc::{AllocError, Global};
use std::test::Fail;
use tk_bind::{Env, Lookup, index_of};
use tk_shape::{Shape, shapes_of, substituted_shape};
use tk_types::{ParamType, Text, Value};
use tk_vars::{ScanError, scan};

/// The type of a shape's values.
fn kind_of(shape: &Shape) -> &'static str {
    match shape.kind() {
        ParamType::Str => "text",
        ParamType::Arr => "list",
        ParamType::Obj => "object",
    }
}

/// The types of the parameters.
fn given(alloc: Global, env: &Env) -> Result<String, AllocError> {
    let mut line = String::new(alloc);
    for named in &shapes_of(alloc, env.params.as_slice())? {
        line.push_str(kind_of(named.shape()))?;
        line.push_str(" ")?;
    }
    Ok(line)
}

/// The type of what a text gives as a value.
fn taken(alloc: Global, env: &Env, words: &str) -> Result<&'static str, ScanError> {
    scan(alloc, words)?;
    let value = Value::Str(Text::from_str(alloc, words)?);
    let index = index_of(alloc, env)?;
    match substituted_shape(alloc, &Lookup::new(&index, &[]), &value)? {
        Some(shape) => Ok(kind_of(&shape)),
        None => Ok("nothing"),
    }
}

/// Texts, and behind `=> ` the type of what each gives.
const VALUES: &str = "$(params.t)y => text
$(params.x[*]) => list
$(params.o[*]) => object
$(params.o[*])$(params.z) => no reading
$(params.z) => nothing";

/// What a row's text gives.
fn told(alloc: Global, env: &Env, words: &str) -> Result<&'static str, AllocError> {
    match taken(alloc, env, words) {
        Ok(kind) => Ok(kind),
        Err(ScanError::BadReference { .. }) => Ok("no reading"),
        Err(ScanError::Memory) => Err(AllocError),
    }
}

#[test]
fn shapes_tell_types(rt: HostRuntime) -> Result<(), Fail> {
    let alloc = rt.alloc();
    let env = env(alloc)?;
    assert_eq!(rt; given(alloc, &env)?.as_str(), "text list object ");
    for row in VALUES.split('\n') {
        let (words, wanted) = row.split_once(" => ").unwrap_or((row, "no answer"));
        assert_eq!(rt; told(alloc, &env, words)?, wanted, "of {words}");
    }
    Ok(())
}
