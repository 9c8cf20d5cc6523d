ghost use Rattle.std.specs.Prelude.{◌≡◌, IfOk, decimal};
ghost use Rattle.tk_early.specs.Words.{run_words, task_words, words_named, words_of, words_with};

use std::alloc::{AllocError, Global};
use std::marker::Model;
use tk_types::{List, Pair, PipelineTask, RunSpec, Text, TryCopy};

/// A word.
fn word(alloc: Global, key: &str, value: Text) -> Result<Pair, AllocError>
    ensures { IfOk result (λ word. word ≡ record { key = key.now; value = value }) }
{
    Ok(Pair {
        key: Text::from_str(alloc, key)?,
        value,
    })
}

/// A number in decimal.
fn decimal_text(alloc: Global, number: u32) -> Result<Text, AllocError>
    ensures { IfOk result (λ text. text ≡ decimal number) }
{
    let mut text = String::new(alloc);
    write!(&mut text, "{number}")?;
    Ok(Text::from_string(text))
}

/// The words of a run and a pipeline of these names.
fn words_named(alloc: Global, run: &Text, pipeline: &Text) -> Result<List<Pair>, AllocError>
    ensures { IfOk result (λ words. words ≡ words_named run.now pipeline.now) }
{
    let words = vec![in alloc;
        word(alloc, "context.pipelineRun.name", run.copy(alloc)?)?,
        word(alloc, "context.pipeline.name", pipeline.copy(alloc)?)?,
    ]?;
    Ok(List::from_vec(words))
}

/// The words of a task of so many retries in them.
fn words_with(
    alloc: Global,
    run: &Text,
    pipeline: &Text,
    retries: u32,
) -> Result<List<Pair>, AllocError>
    ensures { IfOk result (λ words. words ≡ words_with run.now pipeline.now retries) }
{
    let mut words = words_named(alloc, run, pipeline)?;
    let retries = decimal_text(alloc, retries)?;
    words.push(word(alloc, "context.pipelineTask.retries", retries)?)?;
    Ok(words)
}

/// The words that the texts of a resolved run see. The only error is want of memory.
pub fn run_words(alloc: Global, spec: &RunSpec) -> Result<List<Pair>, AllocError>
    ensures { IfOk result (λ words. words ≡ run_words spec.now) }
{
    words_named(alloc, &spec.name, &spec.pipeline)
}

/// The words that the texts of a task of a resolved run see. The only error is want of memory.
pub fn task_words(
    alloc: Global,
    spec: &RunSpec,
    task: &PipelineTask,
) -> Result<List<Pair>, AllocError>
    ensures { IfOk result (λ words. words ≡ task_words spec.now task.now) }
{
    words_with(alloc, &spec.name, &spec.pipeline, task.retries)
}

/// The words of a run and a pipeline, made once for all tasks without retries. A contract sees the two names.
#[derive(Drop)]
pub struct RunWords<'a> {
    run: &'a Text,
    pipeline: &'a Text,
    without_retries: List<Pair>,
}

impl<'a> Model for RunWords<'a> {
    ghost use Rattle.std.specs.Prelude.{◌≡◌, List as Items, ℕ};
    ghost use Rattle.tk_early.specs.Words.{words_with};

    ghost Value = { Items ℕ × Items ℕ };

    ghost view = { λ words. (words.run.now, words.pipeline.now) };

    ghost invariant = { λ words. words.without_retries ≡ words_with words.run.now words.pipeline.now 0 };
}

impl<'a> RunWords<'a> {
    /// The words of a run and a pipeline of these names. The only error is want of memory.
    pub fn new(alloc: Global, run: &'a Text, pipeline: &'a Text) -> Result<Self, AllocError>
        ensures { IfOk result (λ words. words ≡ (run.now, pipeline.now)) }
    {
        Ok(RunWords {
            run,
            pipeline,
            without_retries: words_with(alloc, run, pipeline, 0)?.share(alloc)?,
        })
    }

    /// The words that the texts of a task see. The only error is want of memory.
    pub fn of(&self, alloc: Global, task: &PipelineTask) -> Result<List<Pair>, AllocError>
        ensures { IfOk result (λ words. words ≡ words_of self.now.0 self.now.1 task.now) }
    {
        if task.retries == 0 {
            return self.without_retries.copy(alloc);
        }
        words_with(alloc, self.run, self.pipeline, task.retries)
    }
}
