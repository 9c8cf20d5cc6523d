ghost use Rattle.std.specs.Prelude.{◌≡◌, ◌≤◌, ◌++◌, ◌∷◌, IfOk, OnOk, map, flat_map, decimal, unwrap_or, []};
ghost use Rattle.tk_journal.specs.Plan.{context_words, folder_of, plan_words, pod_of_attempt, result_word, word};
ghost use Rattle.tk_space.specs.Space.{below, words_of_space};

use std::alloc::{AllocError, Global};
use tk_journal::TaskRunState;
use tk_types::{List, Pair, ResultSpec, Text, TryCopy};

/// What has this name in a folder.
pub(crate) fn below(alloc: Global, folder: &str, name: &str) -> Result<Text, AllocError>
    ensures { IfOk result (λ path. path ≡ below folder.now name.now) }
{
    let mut path = String::from_str(alloc, folder)?;
    path.push_str("/")?;
    path.push_str(name)?;
    Ok(Text::from_string(path))
}

/// A word of this value.
fn word(alloc: Global, key: &str, value: Text) -> Result<Pair, AllocError>
    ensures { IfOk result (λ pair. pair ≡ word key.now value) }
{
    Ok(Pair {
        key: Text::from_str(alloc, key)?,
        value,
    })
}

/// A text that may be missing.
fn text_or_empty(alloc: Global, text: &Option<Text>) -> Result<Text, AllocError>
    ensures { IfOk result (λ copy. copy ≡ unwrap_or text.now []) }
{
    match text {
        Some(text) => text.copy(alloc),
        None => Ok(Text::new(alloc)),
    }
}

/// A number as a text.
fn number(alloc: Global, number: u32) -> Result<Text, AllocError>
    ensures { IfOk result (λ text. text ≡ decimal number) }
{
    Ok(Text::from_string(number.to_string(alloc)?))
}

/// The words of the contexts that the texts of an attempt see.
fn context_words(
    alloc: Global,
    task_run: &TaskRunState,
    attempt: u32,
) -> Result<List<Pair>, AllocError>
    requires from_one { 1 ≤ attempt }
    ensures { IfOk result (λ words. words ≡ context_words task_run.now attempt) }
{
    let spec = &task_run.spec;
    let run = text_or_empty(alloc, &task_run.run)?;
    let words = vec![in alloc;
        word(alloc, "context.pipelineRun.name", run)?,
        word(
            alloc,
            "context.pipeline.name",
            task_run.pipeline.copy(alloc)?
        )?,
        word(
            alloc,
            "context.pipelineTask.retries",
            number(alloc, spec.retries)?
        )?,
        word(alloc, "context.taskRun.name", spec.name.copy(alloc)?)?,
        word(alloc, "context.task.name", spec.body.task_name.copy(alloc)?)?,
        word(
            alloc,
            "context.task.retry-count",
            number(alloc, attempt - 1)?
        )?,
    ]?;
    Ok(List::from_vec(words))
}

/// The word of a result: its path in a folder.
fn result_word(alloc: Global, folder: &str, spec: &ResultSpec) -> Result<Pair, AllocError>
    ensures { IfOk result (λ pair. pair ≡ result_word folder.now spec.now) }
{
    let mut key = String::from_str(alloc, "results.")?;
    key.push_str(spec.name.as_str())?;
    key.push_str(".path")?;
    let results = below(alloc, folder, "results")?;
    Ok(Pair {
        key: Text::from_string(key),
        value: below(alloc, results.as_str(), spec.name.as_str())?,
    })
}

/// Adds the words of results.
fn push_results(
    alloc: Global,
    words: &mut List<Pair>,
    folder: &str,
    results: &[ResultSpec],
) -> Result<(), AllocError>
    ensures { OnOk result (words.new ≡ words.old ++ map (result_word folder.now) results.now) }
{
    for spec in results {
        words.push(result_word(alloc, folder, spec)?)?;
    }
    Ok(())
}

/// Adds copies of words.
fn push_words(alloc: Global, words: &mut List<Pair>, more: &[Pair]) -> Result<(), AllocError>
    ensures { OnOk result (words.new ≡ words.old ++ more.now) }
{
    for pair in more {
        words.push(pair.copy(alloc)?)?;
    }
    Ok(())
}

/// The words that the texts of an attempt's steps see, in the folder of its pod.
pub(crate) fn plan_words(
    alloc: Global,
    task_run: &TaskRunState,
    attempt: u32,
    pod: &str,
    folder: &str,
) -> Result<List<Pair>, AllocError>
    requires from_one { 1 ≤ attempt }
    requires pod { pod.now ≡ pod_of_attempt task_run.now attempt }
    requires folder { folder.now ≡ folder_of task_run.now attempt }
    ensures { IfOk result (λ words. words ≡ plan_words task_run.now attempt) }
{
    let body = &task_run.spec.body;
    let mut words = context_words(alloc, task_run, attempt)?;
    push_results(alloc, &mut words, folder, body.spec.results.as_slice())?;
    let spaces = tk_space::words(
        alloc,
        task_run.root.as_str(),
        pod,
        body.spec.spaces.as_slice(),
        body.bound.as_slice(),
    )?;
    push_words(alloc, &mut words, spaces.as_slice())?;
    Ok(words)
}
