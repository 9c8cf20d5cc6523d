ghost use Rattle.std.specs.Prelude.{◌≡◌, [], ◌++◌, filter_map, is_none, IfOk, OnOk};
ghost use Rattle.std.specs.List.{list_any};
ghost use Rattle.tk_bind.specs.Bind.{bound_param as bound};
ghost use Rattle.tk_bind.specs.Scope.{declared};
ghost use Rattle.tk_resolve.specs.Values.{all_values, default_param, defaults, has_mismatch, has_missing, is_mismatch, is_missing, outer_value, outer_values, undeclared, valued};

use std::alloc::{AllocError, Global};
use tk_bind::{BindError, Sources, bound_param, completed, first_value};
use tk_types::{FirstNamed, List, Param, ParamSpec, TryCopy};

/// Given values with nothing outside.
fn alone<'a>(alloc: Global, given: &'a [Param]) -> Result<Sources<'a>, AllocError>
    ensures given { IfOk result (λ sources. sources.given ≡ given.now) }
    ensures outer { IfOk result (λ sources. sources.outer ≡ []) }
    ensures fallback { IfOk result (λ sources. sources.fallback ≡ []) }
{
    Ok(Sources {
        given: FirstNamed::new(alloc, given)?,
        outer: FirstNamed::new(alloc, &[])?,
        fallback: FirstNamed::new(alloc, &[])?,
    })
}

/// A declared parameter with its value, if it has one.
fn valued(
    alloc: Global,
    sources: &Sources<'_>,
    wanted: &ParamSpec,
) -> Result<Option<Param>, AllocError>
    ensures { IfOk result (λ param. param ≡ valued sources.now.given sources.now.outer sources.now.fallback wanted.now) }
{
    let Some(value) = first_value(wanted, sources) else {
        return Ok(None);
    };
    Ok(Some(Param {
        name: wanted.name.copy(alloc)?,
        value: completed(alloc, value, &wanted.default_value)?,
    }))
}

/// Adds the declared parameters that have a value.
fn push_valued(
    alloc: Global,
    params: &mut List<Param>,
    sources: &Sources<'_>,
    wanted: &[ParamSpec],
) -> Result<(), AllocError>
    ensures { OnOk result (params.new ≡ params.old ++ filter_map (valued sources.now.given sources.now.outer sources.now.fallback) wanted.now) }
{
    for spec in wanted {
        if let Some(param) = valued(alloc, sources, spec)? {
            params.push(param)?;
        }
    }
    Ok(())
}

/// Whether a value is given to no declared parameter.
fn is_undeclared(wanted: &FirstNamed<'_, ParamSpec>, param: &Param) -> bool
    ensures { result ≡ is_none (declared wanted.now param.now.name) }
{
    wanted.get(param.name.as_str()).is_none()
}

/// Adds what is given beside the declared parameters.
fn push_undeclared(
    alloc: Global,
    params: &mut List<Param>,
    wanted: &FirstNamed<'_, ParamSpec>,
    given: &[Param],
) -> Result<(), AllocError>
    ensures { OnOk result (params.new ≡ params.old ++ undeclared wanted.now given.now) }
{
    for param in given {
        if is_undeclared(wanted, param) {
            params.push(param.copy(alloc)?)?;
        }
    }
    Ok(())
}

/// The declared parameters that have a value, and what is given beside them. The only error is want of memory.
pub(crate) fn all_values(
    alloc: Global,
    wanted: &[ParamSpec],
    given: &[Param],
) -> Result<List<Param>, AllocError>
    ensures { IfOk result (λ params. params ≡ all_values wanted.now given.now) }
{
    let mut params = List::from_vec(Vec::with_capacity(alloc, wanted.len())?);
    let sources = alone(alloc, given)?;
    push_valued(alloc, &mut params, &sources, wanted)?;
    let declared = FirstNamed::new(alloc, wanted)?;
    push_undeclared(alloc, &mut params, &declared, given)?;
    Ok(params)
}

/// A given value, an object with the absent keys of its default.
fn outer_value(
    alloc: Global,
    wanted: &FirstNamed<'_, ParamSpec>,
    param: &Param,
) -> Result<Param, AllocError>
    ensures { IfOk result (λ value. value ≡ outer_value wanted.now param.now) }
{
    let Some(spec) = wanted.get(param.name.as_str()) else {
        return param.copy(alloc);
    };
    Ok(Param {
        name: param.name.copy(alloc)?,
        value: completed(alloc, &param.value, &spec.default_value)?,
    })
}

/// What is given to a run, as a spec that is inlined in a task sees it. The only error is want of memory.
pub(crate) fn outer_values(
    alloc: Global,
    wanted: &FirstNamed<'_, ParamSpec>,
    given: &[Param],
) -> Result<List<Param>, AllocError>
    ensures { IfOk result (λ values. values ≡ outer_values wanted.now given.now) }
{
    let mut values = List::from_vec(Vec::with_capacity(alloc, given.len())?);
    for param in given {
        values.push(outer_value(alloc, wanted, param)?)?;
    }
    Ok(values)
}

/// The default that a parameter is declared with.
fn default_param(alloc: Global, wanted: &ParamSpec) -> Result<Option<Param>, AllocError>
    ensures { IfOk result (λ param. param ≡ default_param wanted.now) }
{
    let Some(value) = &wanted.default_value else {
        return Ok(None);
    };
    Ok(Some(Param {
        name: wanted.name.copy(alloc)?,
        value: value.copy(alloc)?,
    }))
}

/// The defaults that parameters are declared with. The only error is want of memory.
pub(crate) fn defaults(alloc: Global, wanted: &[ParamSpec]) -> Result<List<Param>, AllocError>
    ensures { IfOk result (λ params. params ≡ defaults wanted.now) }
{
    let mut params = List::new(alloc);
    for spec in wanted {
        if let Some(param) = default_param(alloc, spec)? {
            params.push(param)?;
        }
    }
    Ok(params)
}

/// Whether a parameter has no value, or lacks a declared key.
fn is_missing(alloc: Global, sources: &Sources<'_>, wanted: &ParamSpec) -> Result<bool, AllocError>
    ensures { IfOk result (λ missing. missing ≡ is_missing (bound sources.now.given sources.now.outer sources.now.fallback wanted.now)) }
{
    match bound_param(alloc, wanted, sources) {
        Err(BindError::Missing { .. }) => Ok(true),
        Err(BindError::Memory) => Err(AllocError),
        _ => Ok(false),
    }
}

/// Whether a parameter has a value of another type.
fn is_mismatch(alloc: Global, sources: &Sources<'_>, wanted: &ParamSpec) -> Result<bool, AllocError>
    ensures { IfOk result (λ mismatch. mismatch ≡ is_mismatch (bound sources.now.given sources.now.outer sources.now.fallback wanted.now)) }
{
    match bound_param(alloc, wanted, sources) {
        Err(BindError::WrongKind { .. }) => Ok(true),
        Err(BindError::Memory) => Err(AllocError),
        _ => Ok(false),
    }
}

/// Whether some parameter has no value, or lacks a declared key.
fn any_missing(
    alloc: Global,
    sources: &Sources<'_>,
    wanted: &[ParamSpec],
) -> Result<bool, AllocError>
    ensures { IfOk result (λ any. any ≡ list_any (λ w. is_missing (bound sources.now.given sources.now.outer sources.now.fallback w)) wanted.now) }
{
    for spec in wanted {
        if is_missing(alloc, sources, spec)? {
            return Ok(true);
        }
    }
    Ok(false)
}

/// Whether some parameter has a value of another type.
fn any_mismatch(
    alloc: Global,
    sources: &Sources<'_>,
    wanted: &[ParamSpec],
) -> Result<bool, AllocError>
    ensures { IfOk result (λ any. any ≡ list_any (λ w. is_mismatch (bound sources.now.given sources.now.outer sources.now.fallback w)) wanted.now) }
{
    for spec in wanted {
        if is_mismatch(alloc, sources, spec)? {
            return Ok(true);
        }
    }
    Ok(false)
}

/// Whether some declared parameter has no value, or lacks a declared key. The only error is want of memory.
pub(crate) fn has_missing(
    alloc: Global,
    wanted: &[ParamSpec],
    given: &[Param],
) -> Result<bool, AllocError>
    ensures { IfOk result (λ has. has ≡ has_missing wanted.now given.now) }
{
    let sources = alone(alloc, given)?;
    any_missing(alloc, &sources, wanted)
}

/// Whether some declared parameter has a value of another type. The only error is want of memory.
pub(crate) fn has_mismatch(
    alloc: Global,
    wanted: &[ParamSpec],
    given: &[Param],
) -> Result<bool, AllocError>
    ensures { IfOk result (λ has. has ≡ has_mismatch wanted.now given.now) }
{
    let sources = alone(alloc, given)?;
    any_mismatch(alloc, &sources, wanted)
}
