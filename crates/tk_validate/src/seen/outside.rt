ghost use Rattle.std.specs.Prelude.{◌≡◌, ◌++◌, flat_map, IfOk, OnOk};
ghost use Rattle.tk_bind.specs.Found.{meant};
ghost use Rattle.tk_validate.specs.Seen.{declared_seen, given_seen, kind_of_star, kind_of_target, kind_of_value, lists_seen, params_seen, pipeline_seen, seen, unless_text};

use crate::named::read;
use crate::seen::{Seen, kind_seen};
use std::alloc::{AllocError, Global};
use tk_bind::{Target, key_part, target_of};
use tk_types::{FirstNamed, List, Param, ParamSpec, ParamType, PipelineSpec, Text, TryCopy, Value};
use tk_vars::whole_of;

/// A parameter that texts see.
pub(crate) fn seen(alloc: Global, name: &Text, kind: Option<ParamType>) -> Result<Seen, AllocError>
    ensures { IfOk result (λ s. s ≡ seen name.now kind) }
{
    Ok(Seen {
        name: name.copy(alloc)?,
        kind,
    })
}

/// Declared parameters. The only error is want of memory.
pub(crate) fn declared_seen(alloc: Global, params: &[ParamSpec]) -> Result<List<Seen>, AllocError>
    ensures { IfOk result (λ made. made ≡ declared_seen params.now) }
{
    let mut made = List::new(alloc);
    for param in params {
        made.push(seen(alloc, &param.name, Some(param.kind))?)?;
    }
    Ok(made)
}

/// Adds the parameters that are given to a run, whose values aren't substituted. The only error is want of memory.
pub(crate) fn add_given(
    alloc: Global,
    made: &mut List<Seen>,
    params: &[Param],
) -> Result<(), AllocError>
    ensures { OnOk result (made.new ≡ made.old ++ given_seen params.now) }
{
    for param in params {
        made.push(seen(alloc, &param.name, Some(param.value.kind()))?)?;
    }
    Ok(())
}

/// What the texts of a pipeline see: what it declares, and what is given to its run. The only error is want of memory.
pub(crate) fn pipeline_seen(
    alloc: Global,
    given: &[Param],
    pipeline: &PipelineSpec,
) -> Result<List<Seen>, AllocError>
    ensures { IfOk result (λ made. made ≡ pipeline_seen given.now pipeline.now) }
{
    let mut made = declared_seen(alloc, pipeline.params.as_slice())?;
    add_given(alloc, &mut made, given)?;
    Ok(made)
}

/// A type, but for that of texts.
fn unless_text(kind: ParamType) -> Option<ParamType>
    ensures { result ≡ unless_text kind }
{
    match kind {
        ParamType::Str => None,
        _ => Some(kind),
    }
}

/// The type of the value of a `[*]`: that of the list or of the object that it names, and of a result none is known.
fn kind_of_target(
    alloc: Global,
    outer: &FirstNamed<'_, Seen>,
    target: Target<'_>,
) -> Result<Option<ParamType>, AllocError>
    ensures { IfOk result (λ kind. kind ≡ kind_of_target outer.now (meant target.entry)) }
{
    match target {
        Target::Param { name, .. } => {
            let name = key_part(alloc, name)?;
            match kind_seen(outer, name.as_str()) {
                Some(kind) => Ok(unless_text(kind)),
                None => Ok(None),
            }
        }
        _ => Ok(None),
    }
}

/// The type that a text gives a parameter: a text, or that of the value of which it is the `[*]`.
fn kind_of_text(
    alloc: Global,
    outer: &FirstNamed<'_, Seen>,
    text: &Text,
) -> Result<Option<ParamType>, AllocError>
    ensures { IfOk result (λ kind. kind ≡ kind_of_value outer.now (Value.Str text.now)) }
{
    let Some(pieces) = read(alloc, text.as_str())? else {
        return Ok(Some(ParamType::Str));
    };
    match whole_of(pieces.as_slice()) {
        Some(reference) => kind_of_target(alloc, outer, target_of(reference.parts.as_slice())),
        None => Ok(Some(ParamType::Str)),
    }
}

/// The type that a value gives a parameter, where it is known.
fn kind_of_value(
    alloc: Global,
    outer: &FirstNamed<'_, Seen>,
    value: &Value,
) -> Result<Option<ParamType>, AllocError>
    ensures { IfOk result (λ kind. kind ≡ kind_of_value outer.now value.now) }
{
    match value {
        Value::Str(text) => kind_of_text(alloc, outer, text),
        Value::Arr(_) => Ok(Some(ParamType::Arr)),
        Value::Obj(_) => Ok(Some(ParamType::Obj)),
    }
}

/// Adds what a task gives by parameters. The only error is want of memory.
pub(crate) fn add_params(
    alloc: Global,
    made: &mut List<Seen>,
    outer: &FirstNamed<'_, Seen>,
    params: &[Param],
) -> Result<(), AllocError>
    ensures { OnOk result (made.new ≡ made.old ++ params_seen outer.now params.now) }
{
    for param in params {
        let kind = kind_of_value(alloc, outer, &param.value)?;
        made.push(seen(alloc, &param.name, kind)?)?;
    }
    Ok(())
}

/// Adds what a task gives by the lists of its matrix: a text of each. The only error is want of memory.
pub(crate) fn add_lists(
    alloc: Global,
    made: &mut List<Seen>,
    params: &[Param],
) -> Result<(), AllocError>
    ensures { OnOk result (made.new ≡ made.old ++ lists_seen params.now) }
{
    for param in params {
        made.push(seen(alloc, &param.name, Some(ParamType::Str))?)?;
    }
    Ok(())
}

/// What the entries of a matrix give, each by its own value. The only error is want of memory.
pub(crate) fn each_given(
    alloc: Global,
    outer: &FirstNamed<'_, Seen>,
    entries: &[List<Param>],
) -> Result<List<Seen>, AllocError>
    ensures { IfOk result (λ all. all ≡ flat_map (params_seen outer.now) entries.now) }
{
    let mut all = List::new(alloc);
    for entry in entries {
        add_params(alloc, &mut all, outer, entry.as_slice())?;
    }
    Ok(all)
}
