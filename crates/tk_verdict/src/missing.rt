ghost use Rattle.std.specs.Prelude.{◌≡◌, map, All, IfOk};
ghost use Rattle.std.specs.List.{list_any};
ghost use Rattle.tk_vars.specs.Reading.{HasReading};
ghost use Rattle.tk_bind.specs.Lacking.{text_lacks};
ghost use Rattle.tk_verdict.specs.Readings.{ReadsTask};
ghost use Rattle.tk_verdict.specs.Rows.{lacks_any_result};

use std::alloc::{AllocError, Global};
use tk_bind::Lookup;
use tk_graph::task_texts;
use tk_types::{PipelineTask, Text};

/// Whether a text refers to a result that isn't available.
fn lack(alloc: Global, lookup: &Lookup, texts: &[&Text]) -> Result<bool, AllocError>
    requires { All (λ t. HasReading t.now) texts.now }
    ensures { IfOk result (λ lack. lack ≡ list_any (text_lacks lookup.now) (map (λ t. t.now) texts.now)) }
{
    for text in texts {
        if lookup.text_lacks(alloc, text.as_str())? {
            return Ok(true);
        }
    }
    Ok(false)
}

/// Whether a result to which the task refers isn't available. The only error is want of memory.
pub fn lacks_any_result(
    alloc: Global,
    lookup: &Lookup,
    task: &PipelineTask,
) -> Result<bool, AllocError>
    requires { ReadsTask task.now }
    ensures { IfOk result (λ lacks. lacks ≡ lacks_any_result lookup.now task.now) }
{
    let texts = task_texts(alloc, task)?;
    lack(alloc, lookup, texts.as_slice())
}
