ghost use Rattle.std.specs.Prelude.{◌≡◌, ◌↔◌, All, IfOk, IsTrue, map};
ghost use Rattle.std.specs.Option.{ForSome};
ghost use Rattle.tk_types.specs.declared.value.Pair.{Pair as P};
ghost use Rattle.tk_bind.specs.Readings.{ReadsParams, ReadsStep, ReadsValue};
ghost use Rattle.tk_graph.specs.Results.{task_texts as texts_of_task};
ghost use Rattle.tk_vars.specs.Reading.{HasReading};

use std::alloc::{AllocError, Global};
use tk_graph::task_texts;
use tk_types::{Pair, Param, PipelineTask, Step, Text, Value};
use tk_vars::{ScanError, scan};

/// Whether a text has a reading.
fn reads(alloc: Global, text: &str) -> Result<bool, AllocError>
    ensures { IfOk result (λ yes. IsTrue yes ↔ HasReading text.now) }
{
    match scan(alloc, text) {
        Ok(_pieces) => Ok(true),
        Err(ScanError::BadReference { .. }) => Ok(false),
        Err(ScanError::Memory) => Err(AllocError),
    }
}

/// Whether each of some texts has a reading.
fn all_read(alloc: Global, texts: &[Text]) -> Result<bool, AllocError>
    ensures { IfOk result (λ yes. IsTrue yes ↔ All HasReading texts.now) }
{
    for text in texts {
        if !reads(alloc, text.as_str())? {
            return Ok(false);
        }
    }
    Ok(true)
}

/// Whether each of some texts, which stand apart, has a reading.
fn each_reads(alloc: Global, texts: &[&Text]) -> Result<bool, AllocError>
    ensures { IfOk result (λ yes. IsTrue yes ↔ All HasReading (map (λ t. t.now) texts.now)) }
{
    for text in texts {
        if !reads(alloc, text.as_str())? {
            return Ok(false);
        }
    }
    Ok(true)
}

/// Whether the value of each pair has a reading.
fn pairs_read(alloc: Global, pairs: &[Pair]) -> Result<bool, AllocError>
    ensures { IfOk result (λ yes. IsTrue yes ↔ All HasReading (map (λ (p : P). p.value) pairs.now)) }
{
    for pair in pairs {
        if !reads(alloc, pair.value.as_str())? {
            return Ok(false);
        }
    }
    Ok(true)
}

/// Whether a text, where there is one, has a reading.
fn optional_reads(alloc: Global, text: &Option<Text>) -> Result<bool, AllocError>
    ensures { IfOk result (λ yes. IsTrue yes ↔ ForSome text.now HasReading) }
{
    match text {
        Some(text) => reads(alloc, text.as_str()),
        None => Ok(true),
    }
}

/// Whether each text of a value has a reading.
fn value_reads(alloc: Global, value: &Value) -> Result<bool, AllocError>
    ensures { IfOk result (λ yes. IsTrue yes ↔ ReadsValue value.now) }
{
    match value {
        Value::Str(text) => reads(alloc, text.as_str()),
        Value::Arr(texts) => all_read(alloc, texts.as_slice()),
        Value::Obj(pairs) => pairs_read(alloc, pairs.as_slice()),
    }
}

/// Whether each text of some parameters has a reading. The only error is want of memory.
pub(crate) fn params_read(alloc: Global, params: &[Param]) -> Result<bool, AllocError>
    ensures { IfOk result (λ yes. IsTrue yes ↔ ReadsParams params.now) }
{
    for param in params {
        if !value_reads(alloc, &param.value)? {
            return Ok(false);
        }
    }
    Ok(true)
}

/// Whether each text of a task in which references are substituted has a reading. The only error is want of memory.
pub(crate) fn task_reads(alloc: Global, task: &PipelineTask) -> Result<bool, AllocError>
    ensures { IfOk result (λ yes. IsTrue yes ↔ All HasReading (texts_of_task task.now)) }
{
    let texts = task_texts(alloc, task)?;
    each_reads(alloc, texts.as_slice())
}

/// Whether each text of a step has a reading.
fn step_reads(alloc: Global, step: &Step) -> Result<bool, AllocError>
    ensures { IfOk result (λ yes. IsTrue yes ↔ ReadsStep step.now) }
{
    if !all_read(alloc, step.command.as_slice())? {
        return Ok(false);
    }
    if !all_read(alloc, step.args.as_slice())? {
        return Ok(false);
    }
    if !optional_reads(alloc, &step.script)? {
        return Ok(false);
    }
    if !pairs_read(alloc, step.env.as_slice())? {
        return Ok(false);
    }
    optional_reads(alloc, &step.dir)
}

/// Whether each text of some steps has a reading. The only error is want of memory.
pub(crate) fn steps_read(alloc: Global, steps: &[Step]) -> Result<bool, AllocError>
    ensures { IfOk result (λ yes. IsTrue yes ↔ All ReadsStep steps.now) }
{
    for step in steps {
        if !step_reads(alloc, step)? {
            return Ok(false);
        }
    }
    Ok(true)
}
