ghost use Rattle.std.specs.Prelude.{◌≡◌, ◌++◌, ◌&&◌, ◌==◌, not, if◌then◌else◌, Some, None, OnOk, string_bytes};
ghost use Rattle.tk_gen.specs.Generate.{matrix_text, next, one_of, parent_text, state_behind, task_of, task_text};

use crate::draw::Draws;
use std::alloc::AllocError;

/// What is drawn for a task.
#[derive(Clone, Copy)]
pub(crate) struct DrawnTask {
    /// Its place among the tasks, from 0 on, by which it is named.
    pub place: u32,
    pub has_matrix: bool,
    pub retries: u32,
    /// The place of the task behind which it runs.
    pub parent: Option<u32>,
}

/// Draws behind which task it runs, where it isn't the first and `first`, its first draw, isn't 0.
fn draw_parent(draws: &mut Draws, place: u32, first: u32) -> Option<u32>
    ensures parent { result ≡ (if not (place == 0) && not (first == 0) then Some (one_of place (next draws.old.state)) else None) }
    ensures state { draws.new.state ≡ (if not (place == 0) && not (first == 0) then next draws.old.state else draws.old.state) }
{
    if place > 0 && first > 0 {
        Some(draws.draw(place))
    } else {
        None
    }
}

/// Draws the task of a place.
pub(crate) fn draw_task(draws: &mut Draws, place: u32) -> DrawnTask
    ensures task { result ≡ task_of place draws.old.state }
    ensures state { draws.new.state ≡ state_behind place draws.old.state }
{
    let first = draws.draw(4);
    let second = draws.draw(8);
    let retries = draws.draw(3);
    let parent = draw_parent(draws, place, first);
    DrawnTask {
        place,
        has_matrix: second == 0,
        retries,
        parent,
    }
}

/// Writes a task's matrix, if it has one, and the comma behind it.
fn write_matrix(has_matrix: bool, text: &mut String) -> Result<(), AllocError>
    ensures { OnOk result (string_bytes text.new ≡ string_bytes text.old ++ matrix_text has_matrix) }
{
    if has_matrix {
        text.push_str(r#""matrix":{"params":[{"name":"p","value":["x","y","z"]}]},"#)?;
    }
    Ok(())
}

/// Writes behind which task it runs, if behind any, and the comma behind it.
fn write_parent(parent: Option<u32>, text: &mut String) -> Result<(), AllocError>
    ensures { OnOk result (string_bytes text.new ≡ string_bytes text.old ++ parent_text parent) }
{
    match parent {
        None => Ok(()),
        Some(parent) => write!(text, "\"runAfter\":[\"t{parent}\"],"),
    }
}

/// Writes a task.
pub(crate) fn write_task(task: &DrawnTask, text: &mut String) -> Result<(), AllocError>
    ensures { OnOk result (string_bytes text.new ≡ string_bytes text.old ++ task_text task.now) }
{
    text.push_str("{")?;
    write_matrix(task.has_matrix, text)?;
    write!(
        text,
        "\"name\":\"t{}\",\"retries\":{},",
        task.place, task.retries
    )?;
    write_parent(task.parent, text)?;
    text.push_str(r#""taskSpec":{"steps":[{"command":["true"]}]}}"#)
}
