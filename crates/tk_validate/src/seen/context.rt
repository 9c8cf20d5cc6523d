ghost use Rattle.std.specs.Prelude.{◌≡◌, ◌++◌, IfOk, OnOk};
ghost use Rattle.tk_validate.specs.Seen.{pipeline_context, task_context};

use std::alloc::{AllocError, Global};
use tk_types::{List, Text, TryCopy};

/// The context variables of a pipeline. The only error is want of memory.
pub(crate) fn pipeline_context(alloc: Global) -> Result<List<Text>, AllocError>
    ensures { IfOk result (λ words. words ≡ pipeline_context) }
{
    let words = vec![in alloc;
        Text::from_str(alloc, "context.pipelineRun.name")?,
        Text::from_str(alloc, "context.pipeline.name")?,
        Text::from_str(alloc, "context.pipelineTask.retries")?,
    ]?;
    Ok(List::from_vec(words))
}

/// Adds the context variables of a Task.
fn add_task_context(alloc: Global, words: &mut List<Text>) -> Result<(), AllocError>
    ensures { OnOk result (words.new ≡ words.old ++ task_context) }
{
    words.push(Text::from_str(alloc, "context.taskRun.name")?)?;
    words.push(Text::from_str(alloc, "context.task.name")?)?;
    words.push(Text::from_str(alloc, "context.task.retry-count")?)?;
    Ok(())
}

/// The context variables of the steps of a Task that stands alone.
pub(crate) fn task_context(alloc: Global) -> Result<List<Text>, AllocError>
    ensures { IfOk result (λ words. words ≡ task_context) }
{
    let mut words = List::new(alloc);
    add_task_context(alloc, &mut words)?;
    Ok(words)
}

/// The context variables of the steps of a Task that is inlined in a pipeline. They are made once for all its tasks.
#[derive(Drop)]
pub(crate) struct InlinedContext {
    words: List<Text>,
    ghost are_both: { words ≡ pipeline_context ++ task_context },
}

impl InlinedContext {
    /// The only error is want of memory.
    pub(crate) fn new(alloc: Global) -> Result<InlinedContext, AllocError> {
        let mut words = pipeline_context(alloc)?;
        add_task_context(alloc, &mut words)?;
        Ok(InlinedContext {
            words: words.share(alloc)?,
        })
    }

    /// Those of one task, which take no memory.
    pub(crate) fn words(&self, alloc: Global) -> Result<List<Text>, AllocError>
        ensures { IfOk result (λ words. words ≡ pipeline_context ++ task_context) }
    {
        self.words.copy(alloc)
    }
}
