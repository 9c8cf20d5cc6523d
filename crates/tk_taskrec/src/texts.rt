ghost use Rattle.std.specs.Prelude.{◌≡◌, All, IfOk, map, option_map};
ghost use Rattle.std.specs.Option.{ForSome};
ghost use Rattle.std.specs.Result.{result_ok};
ghost use Rattle.tk_bind.specs.Readings.{ReadsStep};
ghost use Rattle.tk_bind.specs.Substitute.{substituted, substituted_list, substituted_pair};
ghost use Rattle.tk_journal.specs.Plan.{filled, maybe_in};
ghost use Rattle.tk_taskrec.specs.Planned.{step_of};
ghost use Rattle.tk_types.specs.Lists.{all_ok, all_some};
ghost use Rattle.tk_types.specs.declared.value.Pair.{Pair as P};
ghost use Rattle.tk_vars.specs.Reading.{HasReading};

use std::alloc::{AllocError, Global};
use tk_bind::{Lookup, SubstituteError};
use tk_types::{List, Pair, Step, Text, TryCopy};

/// A step whose texts are substituted.
#[derive(Drop)]
pub(crate) struct Filled {
    pub(crate) command: List<Text>,
    pub(crate) args: List<Text>,
    pub(crate) script: Option<Text>,
    pub(crate) env: List<Pair>,
    pub(crate) dir: Option<Text>,
}

/// A text with its references substituted, where each has a value.
fn text(alloc: Global, lookup: &Lookup, text: &str) -> Result<Option<Text>, AllocError>
    requires { HasReading text.now }
    ensures { IfOk result (λ found. found ≡ result_ok (substituted lookup.now text.now)) }
{
    match lookup.substitute(alloc, text) {
        Ok(text) => Ok(Some(text)),
        Err(SubstituteError::Unavailable { reference }) => {
            drop(reference);
            Ok(None)
        }
        Err(SubstituteError::Memory) => Err(AllocError),
    }
}

/// A list with the references of its elements substituted, where each has a value.
fn list(alloc: Global, lookup: &Lookup, texts: &[Text]) -> Result<Option<List<Text>>, AllocError>
    requires { All HasReading texts.now }
    ensures { IfOk result (λ found. found ≡ result_ok (substituted_list lookup.now texts.now)) }
{
    match lookup.substitute_list(alloc, texts) {
        Ok(texts) => Ok(Some(texts)),
        Err(SubstituteError::Unavailable { reference }) => {
            drop(reference);
            Ok(None)
        }
        Err(SubstituteError::Memory) => Err(AllocError),
    }
}

/// An optional text with its references substituted, where each has a value.
fn optional(
    alloc: Global,
    lookup: &Lookup,
    optional: &Option<Text>,
) -> Result<Option<Option<Text>>, AllocError>
    requires { ForSome optional.now HasReading }
    ensures { IfOk result (λ found. found ≡ maybe_in lookup.now optional.now) }
{
    match optional {
        Some(written) => match text(alloc, lookup, written.as_str())? {
            Some(text) => Ok(Some(Some(text))),
            None => Ok(None),
        },
        None => Ok(Some(None)),
    }
}

/// A pair with the references of its text substituted, where each has a value.
fn pair(alloc: Global, lookup: &Lookup, pair: &Pair) -> Result<Option<Pair>, AllocError>
    requires { HasReading pair.now.value }
    ensures { IfOk result (λ found. found ≡ result_ok (substituted_pair lookup.now pair.now)) }
{
    match text(alloc, lookup, pair.value.as_str())? {
        Some(value) => Ok(Some(Pair {
            key: pair.key.copy(alloc)?,
            value,
        })),
        None => Ok(None),
    }
}

/// Pairs with the references of their texts substituted, where each has a value.
fn pairs(alloc: Global, lookup: &Lookup, pairs: &[Pair]) -> Result<Option<List<Pair>>, AllocError>
    requires { All (λ (p : P). HasReading p.value) pairs.now }
    ensures { IfOk result (λ found. found ≡ result_ok (all_ok (map (substituted_pair lookup.now) pairs.now))) }
{
    let mut made = List::new(alloc);
    for written in pairs {
        match pair(alloc, lookup, written)? {
            Some(pair) => made.push(pair)?,
            None => return Ok(None),
        }
    }
    Ok(Some(made))
}

/// A step with each of its references substituted, where each has a value.
fn fill(alloc: Global, lookup: &Lookup, step: &Step) -> Result<Option<Filled>, AllocError>
    requires reads { ReadsStep step.now }
    ensures { IfOk result (λ found. option_map step_of found ≡ filled lookup.now step.now) }
{
    let Some(command) = list(alloc, lookup, step.command.as_slice())? else {
        return Ok(None);
    };
    let Some(args) = list(alloc, lookup, step.args.as_slice())? else {
        return Ok(None);
    };
    let Some(script) = optional(alloc, lookup, &step.script)? else {
        return Ok(None);
    };
    let Some(env) = pairs(alloc, lookup, step.env.as_slice())? else {
        return Ok(None);
    };
    let Some(dir) = optional(alloc, lookup, &step.dir)? else {
        return Ok(None);
    };
    Ok(Some(Filled {
        command,
        args,
        script,
        env,
        dir,
    }))
}

/// Steps with each of their references substituted, where each has a value.
pub(crate) fn fill_all(
    alloc: Global,
    lookup: &Lookup,
    steps: &[Step],
) -> Result<Option<Vec<Filled>>, AllocError>
    requires reads { All ReadsStep steps.now }
    ensures { IfOk result (λ found. option_map (λ made. map step_of made.items) found ≡ all_some (map (filled lookup.now) steps.now)) }
{
    let mut made = Vec::new(alloc);
    for step in steps {
        match fill(alloc, lookup, step)? {
            Some(filled) => made.push(filled)?,
            None => return Ok(None),
        }
    }
    Ok(Some(made))
}
