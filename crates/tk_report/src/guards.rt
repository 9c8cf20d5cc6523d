ghost use Rattle.std.specs.Prelude.{◌≡◌, [], map, All, IfOk};
ghost use Rattle.tk_vars.specs.Reading.{HasReading};
ghost use Rattle.tk_bind.specs.Readings.{ReadsGuard};
ghost use Rattle.tk_verdict.specs.Available.{available_results as results_available};
ghost use Rattle.tk_verdict.specs.Gives.{first_labels};
ghost use Rattle.tk_verdict.specs.Readings.{ReadsTask};
ghost use Rattle.tk_verdict.specs.WellFormed.{IsWellFormed};
ghost use Rattle.tk_verdict.specs.Words.{env_with, status_words as words_of_status};
ghost use Rattle.tk_report.specs.Guards.{guard_shown as shown_of_guard, guards_before as guards_before_env, guards_shown as shown_of_guards, text_shown as shown_of_text, texts_shown as shown_of_texts};

use std::alloc::{AllocError, Global};
use tk_bind::{EnvIndex, Given, Lookup, SubstituteError};
use tk_early::task_words;
use tk_types::{Facts, List, Pair, PipelineTask, Text, TryCopy, When};
use tk_verdict::Decision;

/// A text with its references substituted, or as written where one has no value.
fn text_shown(alloc: Global, lookup: &Lookup, text: &Text) -> Result<Text, AllocError>
    requires { HasReading text.now }
    ensures { IfOk result (λ shown. shown ≡ shown_of_text lookup.now text.now) }
{
    match lookup.substitute(alloc, text.as_str()) {
        Ok(text) => Ok(text),
        Err(SubstituteError::Unavailable { .. }) => Ok(text.copy(alloc)?),
        Err(SubstituteError::Memory) => Err(AllocError),
    }
}

/// A list with the references of its elements substituted, or as written where one has no value.
fn texts_shown(alloc: Global, lookup: &Lookup, texts: &List<Text>) -> Result<List<Text>, AllocError>
    requires { All HasReading texts.now }
    ensures { IfOk result (λ shown. shown ≡ shown_of_texts lookup.now texts.now) }
{
    match lookup.substitute_list(alloc, texts.as_slice()) {
        Ok(texts) => Ok(texts),
        Err(SubstituteError::Unavailable { .. }) => Ok(texts.copy(alloc)?),
        Err(SubstituteError::Memory) => Err(AllocError),
    }
}

/// A `when` expression as it is shown.
fn guard_shown(alloc: Global, lookup: &Lookup, guard: &When) -> Result<When, AllocError>
    requires { ReadsGuard guard.now }
    ensures { IfOk result (λ shown. shown ≡ shown_of_guard lookup.now guard.now) }
{
    Ok(When {
        input: text_shown(alloc, lookup, &guard.input)?,
        is_member: guard.is_member,
        values: texts_shown(alloc, lookup, &guard.values)?,
    })
}

/// `when` expressions as they are shown.
fn guards_in(alloc: Global, lookup: &Lookup, guards: &[When]) -> Result<List<When>, AllocError>
    requires { All ReadsGuard guards.now }
    ensures { IfOk result (λ shown. shown ≡ map (shown_of_guard lookup.now) guards.now) }
{
    let mut shown = List::new(alloc);
    for guard in guards {
        shown.push(guard_shown(alloc, lookup, guard)?)?;
    }
    Ok(shown)
}

/// Those of a task, with the task's own words in front of others.
fn guards_before(
    alloc: Global,
    facts: &Facts,
    index: &EnvIndex,
    task: &PipelineTask,
) -> Result<List<When>, AllocError>
    requires { ReadsTask task.now }
    ensures { IfOk result (λ shown. shown ≡ guards_before_env facts.now index.now task.now) }
{
    let words = task_words(alloc, &facts.spec, task)?;
    let lookup = Lookup::new(index, words.as_slice());
    guards_in(alloc, &lookup, task.when.as_slice())
}

/// The status variables that the texts of a run's `finally` see. The only error is want of memory.
#[tactic(auto, using(crate::proofs::Labelled::labels_suffice))]
pub(crate) fn final_words(
    alloc: Global,
    facts: &Facts,
    decision: &Decision,
) -> Result<List<Pair>, AllocError>
    requires formed { IsWellFormed facts.now }
    requires same { decision.now ≡ facts.now }
    ensures { IfOk result (λ words. words ≡ words_of_status facts.now (first_labels facts.now)) }
{
    let labels = decision.labels(alloc)?;
    decision.status_words(alloc, &labels.as_slice()[..facts.spec.tasks.len()])
}

/// What the texts of a run see of its parameters and results, with these words. The only error is want of memory.
pub(crate) fn env_index<'f, 'r, 'w>(
    alloc: Global,
    facts: &'f Facts,
    given: &'r [Given],
    words: &'w [Pair],
) -> Result<EnvIndex<'f, 'r, 'w>, AllocError>
    requires { given.now ≡ results_available facts.now }
    ensures { IfOk result (λ index. index ≡ env_with facts.now words.now) }
{
    EnvIndex::new(alloc, facts.spec.params.as_slice(), given, words)
}

/// The `when` expressions of the task at a place: substituted, or as written where a reference has no value. The only
/// error is want of memory.
#[tactic(auto, using(crate::proofs::Envs::shown_first, crate::proofs::Envs::shown_last))]
pub(crate) fn guards_shown(
    alloc: Global,
    facts: &Facts,
    first: &EnvIndex,
    last: &EnvIndex,
    place: usize,
    task: &PipelineTask,
) -> Result<List<When>, AllocError>
    requires reads { ReadsTask task.now }
    requires first { first.now ≡ env_with facts.now [] }
    requires last { last.now ≡ env_with facts.now (words_of_status facts.now (first_labels facts.now)) }
    ensures { IfOk result (λ shown. shown ≡ shown_of_guards facts.now place task.now) }
{
    if place < facts.spec.tasks.len() {
        return guards_before(alloc, facts, first, task);
    }
    guards_before(alloc, facts, last, task)
}
