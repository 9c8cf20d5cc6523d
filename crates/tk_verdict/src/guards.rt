ghost use Rattle.std.specs.Prelude.{◌≡◌, map, All, IfOk};
ghost use Rattle.std.specs.Result.{result_ok};
ghost use Rattle.tk_types.specs.Lists.{all_some};
ghost use Rattle.tk_vars.specs.Reading.{HasReading};
ghost use Rattle.tk_bind.specs.Substitute.{substituted, substituted_list};
ghost use Rattle.tk_verdict.specs.Bindings.{guard_in, guards_in};
ghost use Rattle.tk_bind.specs.Readings.{ReadsGuard};

use std::alloc::{AllocError, Global};
use tk_bind::{Lookup, SubstituteError};
use tk_types::{List, PipelineTask, Text, When};

/// A text with its references substituted, where each has a value.
fn text_in(alloc: Global, lookup: &Lookup, text: &str) -> Result<Option<Text>, AllocError>
    requires { HasReading text.now }
    ensures { IfOk result (λ made. made ≡ result_ok (substituted lookup.now text.now)) }
{
    match lookup.substitute(alloc, text) {
        Ok(text) => Ok(Some(text)),
        Err(SubstituteError::Unavailable { .. }) => Ok(None),
        Err(SubstituteError::Memory) => Err(AllocError),
    }
}

/// A list with the references of its elements substituted, where each has a value.
fn texts_in(
    alloc: Global,
    lookup: &Lookup,
    texts: &[Text],
) -> Result<Option<List<Text>>, AllocError>
    requires { All HasReading texts.now }
    ensures { IfOk result (λ made. made ≡ result_ok (substituted_list lookup.now texts.now)) }
{
    match lookup.substitute_list(alloc, texts) {
        Ok(texts) => Ok(Some(texts)),
        Err(SubstituteError::Unavailable { .. }) => Ok(None),
        Err(SubstituteError::Memory) => Err(AllocError),
    }
}

/// A `when` expression with its references substituted, where each has a value.
fn guard_in(alloc: Global, lookup: &Lookup, guard: &When) -> Result<Option<When>, AllocError>
    requires { ReadsGuard guard.now }
    ensures { IfOk result (λ made. made ≡ guard_in lookup.now guard.now) }
{
    let Some(input) = text_in(alloc, lookup, guard.input.as_str())? else {
        return Ok(None);
    };
    let Some(values) = texts_in(alloc, lookup, guard.values.as_slice())? else {
        return Ok(None);
    };
    Ok(Some(When {
        input,
        is_member: guard.is_member,
        values,
    }))
}

/// `when` expressions with their references substituted, where each has a value.
fn all_guards_in(
    alloc: Global,
    lookup: &Lookup,
    guards: &[When],
) -> Result<Option<List<When>>, AllocError>
    requires { All ReadsGuard guards.now }
    ensures { IfOk result (λ made. made ≡ all_some (map (guard_in lookup.now) guards.now)) }
{
    let mut made = List::new(alloc);
    for guard in guards {
        match guard_in(alloc, lookup, guard)? {
            Some(guard) => made.push(guard)?,
            None => return Ok(None),
        }
    }
    Ok(Some(made))
}

/// The `when` expressions of a task with their references substituted, where each has a value. The only error is want of
/// memory.
pub(crate) fn guards_in(
    alloc: Global,
    lookup: &Lookup,
    task: &PipelineTask,
) -> Result<Option<List<When>>, AllocError>
    requires { All ReadsGuard task.now.when }
    ensures { IfOk result (λ made. made ≡ guards_in lookup.now task.now) }
{
    all_guards_in(alloc, lookup, task.when.as_slice())
}
