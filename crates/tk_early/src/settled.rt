ghost use Rattle.std.specs.Prelude.{◌≡◌, All, IfOk};
ghost use Rattle.std.specs.List.{list_any};
ghost use Rattle.tk_types.specs.declared.value.Pair.{Pair as PairRecord};
ghost use Rattle.tk_vars.specs.Reading.{HasReading};
ghost use Rattle.tk_vars.specs.Target.{target_of};
ghost use Rattle.tk_bind.specs.Found.{meant};
ghost use Rattle.tk_bind.specs.Readings.{ReadsMatrix, ReadsParams, ReadsPipelineTask, ReadsValue};
ghost use Rattle.tk_early.specs.Settled.{is_result, is_settled, is_to_result, matrix_awaits, params_await, text_awaits, value_awaits};

use std::alloc::{AllocError, Global};
use tk_bind::{Target, target_of};
use tk_types::{List, Matrix, Pair, Param, PipelineTask, Text, Value};
use tk_vars::{Reference, ReferenceTest, any_reference, names_no_task};

/// Whether this is a result of a task.
fn is_result(target: Target<'_>) -> bool
    ensures { result ≡ is_result (meant target.entry) }
{
    matches!(target, Target::Result { .. })
}

/// Whether a reference is to a result of a task.
#[derive(Drop)]
pub struct ToResult;

impl ReferenceTest for ToResult {
    ghost is_met = { λ t r. is_to_result r };

    fn passes_over(&self, text: &str) -> bool {
        names_no_task(text)
    }

    fn meets(&self, _alloc: Global, reference: &Reference<'_>) -> Result<bool, AllocError> {
        Ok(is_result(target_of(reference.parts.as_slice())))
    }
}

/// Whether a text refers to a result.
fn text_awaits(alloc: Global, text: &Text) -> Result<bool, AllocError>
    requires { HasReading text.now }
    ensures { IfOk result (λ awaits. awaits ≡ text_awaits text.now) }
{
    any_reference(alloc, &ToResult, text.as_str())
}

/// Whether one of some texts does.
fn texts_await(alloc: Global, texts: &[Text]) -> Result<bool, AllocError>
    requires { All HasReading texts.now }
    ensures { IfOk result (λ awaits. awaits ≡ list_any text_awaits texts.now) }
{
    for text in texts {
        if text_awaits(alloc, text)? {
            return Ok(true);
        }
    }
    Ok(false)
}

/// Whether the text of one of some pairs does.
fn pairs_await(alloc: Global, pairs: &[Pair]) -> Result<bool, AllocError>
    requires { All (λ (p : PairRecord). HasReading p.value) pairs.now }
    ensures { IfOk result (λ awaits. awaits ≡ list_any (λ (p : PairRecord). text_awaits p.value) pairs.now) }
{
    for pair in pairs {
        if text_awaits(alloc, &pair.value)? {
            return Ok(true);
        }
    }
    Ok(false)
}

/// Whether a text of a value does.
fn value_awaits(alloc: Global, value: &Value) -> Result<bool, AllocError>
    requires { ReadsValue value.now }
    ensures { IfOk result (λ awaits. awaits ≡ value_awaits value.now) }
{
    match value {
        Value::Str(text) => text_awaits(alloc, text),
        Value::Arr(texts) => texts_await(alloc, texts.as_slice()),
        Value::Obj(pairs) => pairs_await(alloc, pairs.as_slice()),
    }
}

/// Whether a text of parameters does.
fn params_await(alloc: Global, params: &[Param]) -> Result<bool, AllocError>
    requires { ReadsParams params.now }
    ensures { IfOk result (λ awaits. awaits ≡ params_await params.now) }
{
    for param in params {
        if value_awaits(alloc, &param.value)? {
            return Ok(true);
        }
    }
    Ok(false)
}

/// Whether a text of an include entry does.
fn entries_await(alloc: Global, entries: &[List<Param>]) -> Result<bool, AllocError>
    requires { All ReadsParams entries.now }
    ensures { IfOk result (λ awaits. awaits ≡ list_any params_await entries.now) }
{
    for entry in entries {
        if params_await(alloc, entry.as_slice())? {
            return Ok(true);
        }
    }
    Ok(false)
}

/// Whether a text of a matrix does.
fn matrix_awaits(alloc: Global, matrix: &Matrix) -> Result<bool, AllocError>
    requires { ReadsMatrix matrix.now }
    ensures { IfOk result (λ awaits. awaits ≡ matrix_awaits matrix.now) }
{
    Ok(
        params_await(alloc, matrix.params.as_slice())?
            || entries_await(alloc, matrix.include.as_slice())?,
    )
}

/// Whether no value of a task's matrix refers to a result. The only error is want of memory.
pub fn is_settled(alloc: Global, task: &PipelineTask) -> Result<bool, AllocError>
    requires { ReadsPipelineTask task.now }
    ensures { IfOk result (λ settled. settled ≡ is_settled task.now) }
{
    match &task.matrix {
        Some(matrix) => Ok(!matrix_awaits(alloc, matrix)?),
        None => Ok(true),
    }
}
