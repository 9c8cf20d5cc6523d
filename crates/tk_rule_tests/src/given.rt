//! The parameters that texts and steps refer to.

use std::alloc::{AllocError, Global};
use tk_bind::Env;
use tk_types::{List, Pair, Param, Text, Value};

/// The list `b`, `c`.
fn list(alloc: Global) -> Result<List<Text>, AllocError> {
    let mut list = List::new(alloc);
    list.push(Text::from_str(alloc, "b")?)?;
    list.push(Text::from_str(alloc, "c")?)?;
    Ok(list)
}

/// An object whose key `first` has a text.
fn object(alloc: Global) -> Result<List<Pair>, AllocError> {
    let mut pairs = List::new(alloc);
    pairs.push(Pair {
        key: Text::from_str(alloc, "first")?,
        value: Text::from_str(alloc, "2")?,
    })?;
    Ok(pairs)
}

/// The value of a parameter: of `t` a text, of `x` a list, of `o` an object.
fn value(alloc: Global, name: &str) -> Result<Value, AllocError> {
    match name {
        "x" => Ok(Value::Arr(list(alloc)?)),
        "o" => Ok(Value::Obj(object(alloc)?)),
        _ => Ok(Value::Str(Text::from_str(alloc, "1")?)),
    }
}

/// The text `t`, the list `x` and the object `o`.
fn params(alloc: Global) -> Result<List<Param>, AllocError> {
    let mut params = List::new(alloc);
    for name in "t x o".split(' ') {
        params.push(Param {
            name: Text::from_str(alloc, name)?,
            value: value(alloc, name)?,
        })?;
    }
    Ok(params)
}

/// What has these parameters alone.
pub(crate) fn env(alloc: Global) -> Result<Env, AllocError> {
    Ok(Env {
        params: params(alloc)?,
        results: List::new(alloc),
        words: List::new(alloc),
    })
}
