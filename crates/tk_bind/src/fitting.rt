ghost use Rattle.std.specs.Prelude.{◌≡◌, ◌++◌, ◌&&◌, is_ok, true, All, IfOk, OnOk};
ghost use Rattle.std.specs.List.{list_all};
ghost use Rattle.std.specs.Option.{ForSome, option_map_or};
ghost use Rattle.tk_types.specs.declared.value.Pair.{Pair as P};
ghost use Rattle.tk_vars.specs.Reading.{HasReading};
ghost use Rattle.tk_bind.specs.Fits.{fits, some_word, context_words, result_words, words_of_space, space_words, step_env, step_has_values};
ghost use Rattle.tk_bind.specs.Readings.{ReadsStep};
ghost use Rattle.tk_bind.specs.Substitute.{element, substituted};

use crate::bind::bind_params;
use crate::env::Env;
use crate::lookup::{Lookup, index_of};
use crate::refusal::BindError;
use std::alloc::{AllocError, Global};
use tk_types::{List, Pair, Param, ResultSpec, SpaceSpec, Step, TaskBody, Text, TryCopy};

/// A word that has a value, whatever it is.
fn some_word(alloc: Global, key: Text) -> Pair
    ensures { result ≡ some_word key }
{
    Pair {
        key,
        value: Text::new(alloc),
    }
}

/// The word of a context.
fn context_word(alloc: Global, key: &str) -> Result<Pair, AllocError>
    ensures { IfOk result (λ word. word ≡ some_word key.now) }
{
    Ok(some_word(alloc, Text::from_str(alloc, key)?))
}

/// The word of a name between two texts.
fn word_around(alloc: Global, front: &str, name: &Text, end: &str) -> Result<Pair, AllocError>
    ensures { IfOk result (λ word. word ≡ some_word (front.now ++ name.now ++ end.now)) }
{
    let length = front
        .len()
        .saturating_add(name.len())
        .saturating_add(end.len());
    let mut key = String::with_capacity(alloc, length)?;
    key.push_str(front)?;
    key.push_str(name.as_str())?;
    key.push_str(end)?;
    Ok(some_word(alloc, Text::from_string(key)))
}

/// The words of the contexts that the texts of a task see.
fn context_words(alloc: Global) -> Result<List<Pair>, AllocError>
    ensures { IfOk result (λ words. words ≡ context_words) }
{
    let words = vec![in alloc;
        context_word(alloc, "context.pipelineRun.name")?,
        context_word(alloc, "context.pipeline.name")?,
        context_word(alloc, "context.pipelineTask.retries")?,
        context_word(alloc, "context.taskRun.name")?,
        context_word(alloc, "context.task.name")?,
        context_word(alloc, "context.task.retry-count")?,
    ]?;
    Ok(List::from_vec(words))
}

/// Adds the words of results: their paths.
fn push_results(
    alloc: Global,
    words: &mut List<Pair>,
    results: &[ResultSpec],
) -> Result<(), AllocError>
    ensures { OnOk result (words.new ≡ words.old ++ result_words results.now) }
{
    for spec in results {
        words.push(word_around(alloc, "results.", &spec.name, ".path")?)?;
    }
    Ok(())
}

/// Adds the words of a workspace.
fn push_space(alloc: Global, words: &mut List<Pair>, name: &Text) -> Result<(), AllocError>
    ensures { OnOk result (words.new ≡ words.old ++ words_of_space name.now) }
{
    words.push(word_around(alloc, "workspaces.", name, ".path")?)?;
    words.push(word_around(alloc, "workspaces.", name, ".bound")?)?;
    words.push(word_around(alloc, "workspaces.", name, ".claim")?)?;
    Ok(())
}

/// Adds the words of workspaces.
fn push_spaces(
    alloc: Global,
    words: &mut List<Pair>,
    spaces: &[SpaceSpec],
) -> Result<(), AllocError>
    ensures { OnOk result (words.new ≡ words.old ++ space_words spaces.now) }
{
    for space in spaces {
        push_space(alloc, words, &space.name)?;
    }
    Ok(())
}

/// What the texts of a body's steps see, with these parameters in front. The only error is want of memory.
pub fn step_env(alloc: Global, body: &TaskBody, mut params: List<Param>) -> Result<Env, AllocError>
    ensures { IfOk result (λ env. env ≡ step_env body.now params) }
{
    params.push_all(alloc, body.outer.as_slice())?;
    params.push_all(alloc, body.fallback.as_slice())?;
    let mut words = context_words(alloc)?;
    push_results(alloc, &mut words, body.spec.results.as_slice())?;
    push_spaces(alloc, &mut words, body.spec.spaces.as_slice())?;
    Ok(Env {
        params,
        results: List::new(alloc),
        words,
    })
}

/// Whether the text, where there is one, has a value.
fn has_optional(alloc: Global, lookup: &Lookup, text: &Option<Text>) -> Result<bool, AllocError>
    requires { ForSome text.now HasReading }
    ensures { IfOk result (λ has. has ≡ option_map_or (λ t. is_ok (substituted lookup.now t)) text.now true) }
{
    match text {
        Some(text) => lookup.has_value(alloc, text.as_str()),
        None => Ok(true),
    }
}

/// Whether each element of a step's lists has a value.
fn has_step_elements(alloc: Global, lookup: &Lookup, step: &Step) -> Result<bool, AllocError>
    requires { ReadsStep step.now }
    ensures { IfOk result (λ has. has ≡ (list_all (λ text. is_ok (element lookup.now text)) step.now.command && list_all (λ text. is_ok (element lookup.now text)) step.now.args)) }
{
    if !lookup.has_elements(alloc, step.command.as_slice())? {
        return Ok(false);
    }
    lookup.has_elements(alloc, step.args.as_slice())
}

/// Whether each of a step's other texts has a value.
fn has_step_texts(alloc: Global, lookup: &Lookup, step: &Step) -> Result<bool, AllocError>
    requires { ReadsStep step.now }
    ensures { IfOk result (λ has. has ≡ (option_map_or (λ text. is_ok (substituted lookup.now text)) step.now.script true && list_all (λ (p : P). is_ok (substituted lookup.now p.value)) step.now.env && option_map_or (λ text. is_ok (substituted lookup.now text)) step.now.dir true)) }
{
    if !has_optional(alloc, lookup, &step.script)? {
        return Ok(false);
    }
    if !lookup.has_pairs(alloc, step.env.as_slice())? {
        return Ok(false);
    }
    has_optional(alloc, lookup, &step.dir)
}

/// Whether each text of a step has a value.
fn step_has_values(alloc: Global, lookup: &Lookup, step: &Step) -> Result<bool, AllocError>
    requires { ReadsStep step.now }
    ensures { IfOk result (λ has. has ≡ step_has_values lookup.now step.now) }
{
    if !has_step_elements(alloc, lookup, step)? {
        return Ok(false);
    }
    has_step_texts(alloc, lookup, step)
}

/// Whether each text of each step has a value.
fn steps_have_values(alloc: Global, lookup: &Lookup, steps: &[Step]) -> Result<bool, AllocError>
    requires { All ReadsStep steps.now }
    ensures { IfOk result (λ have. have ≡ list_all (step_has_values lookup.now) steps.now) }
{
    for step in steps {
        if !step_has_values(alloc, lookup, step)? {
            return Ok(false);
        }
    }
    Ok(true)
}

/// Whether a task's body can run with the parameters that it is given: each declared parameter has a value of its type
/// and each declared key, and each text of the steps has a value. Only want of memory is an error.
pub fn fits(alloc: Global, body: &TaskBody, given: &[Param]) -> Result<bool, AllocError>
    requires { All ReadsStep body.now.spec.steps }
    ensures { IfOk result (λ b. b ≡ fits body.now given.now) }
{
    let wanted = body.spec.params.as_slice();
    let outer = body.outer.as_slice();
    let mut params = match bind_params(alloc, wanted, given, outer, body.fallback.as_slice()) {
        Ok(bound) => bound,
        Err(BindError::Memory) => return Err(AllocError),
        Err(_) => return Ok(false),
    };
    params.push_all(alloc, given)?;
    let env = step_env(alloc, body, params)?;
    let index = index_of(alloc, &env)?;
    let lookup = Lookup::new(&index, &[]);
    steps_have_values(alloc, &lookup, body.spec.steps.as_slice())
}
