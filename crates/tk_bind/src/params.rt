ghost use Rattle.std.specs.Prelude.{◌≡◌, map, All, IfOk};
ghost use Rattle.std.specs.Option.{ForSome};
ghost use Rattle.tk_types.specs.Lists.{all_some};
ghost use Rattle.tk_bind.specs.Params.{param_in, list_in, params_in, matrix_in};
ghost use Rattle.tk_bind.specs.Readings.{ReadsParam, ReadsParams, ReadsMatrix};

use crate::lookup::Lookup;
use crate::refusal::SubstituteError;
use std::alloc::{AllocError, Global};
use tk_types::{List, Matrix, Param, TryCopy, Value};

/// A parameter with the references of its value substituted, where each has a value.
pub fn param_in(alloc: Global, lookup: &Lookup, param: &Param) -> Result<Option<Param>, AllocError>
    requires { ReadsParam param.now }
    ensures { IfOk result (λ made. made ≡ param_in lookup.now param.now) }
{
    match lookup.substitute_value(alloc, &param.value) {
        Ok(value) => Ok(Some(Param {
            name: param.name.copy(alloc)?,
            value,
        })),
        Err(SubstituteError::Unavailable { .. }) => Ok(None),
        Err(SubstituteError::Memory) => Err(AllocError),
    }
}

/// A parameter of a matrix with the references of its value substituted, where each has a value and the value is a list.
pub fn list_in(alloc: Global, lookup: &Lookup, param: &Param) -> Result<Option<Param>, AllocError>
    requires { ReadsParam param.now }
    ensures { IfOk result (λ made. made ≡ list_in lookup.now param.now) }
{
    let Some(Param { name, value }) = param_in(alloc, lookup, param)? else {
        return Ok(None);
    };
    match value {
        Value::Arr(texts) => Ok(Some(Param {
            name,
            value: Value::Arr(texts),
        })),
        _ => Ok(None),
    }
}

/// Parameters with the references of their values substituted, where each has a value.
pub fn params_in(
    alloc: Global,
    lookup: &Lookup,
    params: &[Param],
) -> Result<Option<List<Param>>, AllocError>
    requires { ReadsParams params.now }
    ensures { IfOk result (λ made. made ≡ params_in lookup.now params.now) }
{
    let mut made = List::new(alloc);
    for param in params {
        match param_in(alloc, lookup, param)? {
            Some(param) => made.push(param)?,
            None => return Ok(None),
        }
    }
    Ok(Some(made))
}

fn lists_in(
    alloc: Global,
    lookup: &Lookup,
    params: &[Param],
) -> Result<Option<List<Param>>, AllocError>
    requires { ReadsParams params.now }
    ensures { IfOk result (λ made. made ≡ all_some (map (list_in lookup.now) params.now)) }
{
    let mut made = List::new(alloc);
    for param in params {
        match list_in(alloc, lookup, param)? {
            Some(param) => made.push(param)?,
            None => return Ok(None),
        }
    }
    Ok(Some(made))
}

fn entries_in(
    alloc: Global,
    lookup: &Lookup,
    entries: &[List<Param>],
) -> Result<Option<List<List<Param>>>, AllocError>
    requires { All ReadsParams entries.now }
    ensures { IfOk result (λ made. made ≡ all_some (map (params_in lookup.now) entries.now)) }
{
    let mut made = List::new(alloc);
    for entry in entries {
        match params_in(alloc, lookup, entry.as_slice())? {
            Some(entry) => made.push(entry)?,
            None => return Ok(None),
        }
    }
    Ok(Some(made))
}

/// A matrix with the references of its values substituted, where each has a value and each parameter beside the
/// include entries is a list (Tekton, Matrix, Parameters).
pub fn matrix_in(
    alloc: Global,
    lookup: &Lookup,
    matrix: &Option<Matrix>,
) -> Result<Option<Option<Matrix>>, AllocError>
    requires { ForSome matrix.now ReadsMatrix }
    ensures { IfOk result (λ made. made ≡ matrix_in lookup.now matrix.now) }
{
    let Some(matrix) = matrix else {
        return Ok(Some(None));
    };
    let Some(params) = lists_in(alloc, lookup, matrix.params.as_slice())? else {
        return Ok(None);
    };
    let Some(include) = entries_in(alloc, lookup, matrix.include.as_slice())? else {
        return Ok(None);
    };
    Ok(Some(Some(Matrix { params, include })))
}
