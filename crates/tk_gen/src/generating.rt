ghost use Rattle.std.specs.Prelude.{◌≡◌, ◌++◌, IfOk, OnOk, string_bytes};
ghost use Rattle.tk_gen.specs.Generate.{generated, separator, tasks_from, tasks_text};

use crate::draw::Draws;
use crate::task::{draw_task, write_task};
use std::alloc::{AllocError, Global};
use tk_types::Text;

/// Writes what stands before the task of a place.
fn write_separator(place: u32, text: &mut String) -> Result<(), AllocError>
    ensures { OnOk result (string_bytes text.new ≡ string_bytes text.old ++ separator place) }
{
    if place == 0 {
        return Ok(());
    }
    text.push_str(",")
}

/// Draws the tasks of a pipeline of this size, and writes each as it is drawn.
fn write_tasks(draws: &mut Draws, size: u32, text: &mut String) -> Result<(), AllocError>
    ensures { OnOk result (string_bytes text.new ≡ string_bytes text.old ++ tasks_text (tasks_from size 0 draws.old.state)) }
{
    for place in 0..size {
        write_separator(place, text)?;
        write_task(&draw_task(draws, place), text)?;
    }
    Ok(())
}

/// A List of one PipelineRun `gen` with an inlined pipeline of `size` tasks, which are named `t0`, `t1` and so on: compact
/// JSON in which the keys of each object stand in byte order, without a newline at its end. A `size` is at least 1 where the
/// text is to be admitted, since a pipeline has a task.
///
/// What is drawn follows from `number` alone. A state begins as `number`; each draw of `k` makes it
/// `(state * 1103515245 + 12345) mod 2147483648`, and gives `(state / 65536) mod k`. For each task, in order, are drawn a
/// number of 4, of 8 and of 3. Where the first isn't 0 and the task isn't `t0`, one of as many as there are tasks before it
/// is drawn too, and its `runAfter` names that task. Where the second is 0 its matrix has `p` in `x`, `y` and `z`. The third
/// are its retries. It has one step, the command `true`.
///
/// The only error is want of memory.
pub fn generate(alloc: Global, number: u32, size: u32) -> Result<Text, AllocError>
    ensures { IfOk result (λ text. text ≡ generated number size) }
{
    let mut text = String::from_str(
        alloc,
        r#"{"apiVersion":"v1","items":[{"apiVersion":"tekton.dev/v1","kind":"PipelineRun","metadata":{"name":"gen"},"spec":{"pipelineSpec":{"tasks":["#,
    )?;
    write_tasks(&mut Draws::new(number), size, &mut text)?;
    text.push_str(r#"]}}}],"kind":"List"}"#)?;
    Ok(Text::from_string(text))
}
