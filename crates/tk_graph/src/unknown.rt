ghost use Rattle.std.specs.Prelude.{◌≡◌, ◌<◌, ◌^◌, length, find, not, option_map, IfOk};
ghost use Rattle.tk_graph.specs.Unknown.{first_unknown as first_unknown_of, is_known, unknown_name as unknown_name_of};

use crate::above::parent_names;
use crate::names::Names;
use std::alloc::{AllocError, Global};
use tk_types::{PipelineTask, Text, TryCopy};

/// The first of some names that no task has.
fn first_missing<'a>(names: &Names, wanted: &'a [Text]) -> Option<&'a Text>
    ensures { option_map (λ name. name.now) result ≡ find (λ name. not (is_known names.now name)) wanted.now }
{
    wanted.iter().find(|name| !names.contains(name.as_str()))
}

/// The first of a task's parent names that no task of these has. The task needn't be one of them. The only error is want of
/// memory.
pub fn unknown_name(
    alloc: Global,
    names: &Names,
    task: &PipelineTask,
) -> Result<Option<Text>, AllocError>
    ensures { IfOk result (λ found. found ≡ unknown_name_of names.now task.now) }
{
    let wanted = parent_names(alloc, task)?;
    match first_missing(names, wanted.as_slice()) {
        Some(name) => Ok(Some(name.copy(alloc)?)),
        None => Ok(None),
    }
}

/// The first task that names an unknown parent: its place, and the first such name.
pub(crate) fn first_unknown(alloc: Global, names: &Names) -> Result<Option<(u32, Text)>, AllocError>
    requires { length names.now < 2 ^ 32 }
    ensures { IfOk result (λ found. found ≡ first_unknown_of names.now) }
{
    let tasks = names.tasks();
    for (place, task) in tasks.iter().enumerate() {
        if let Some(name) = unknown_name(alloc, names, task)? {
            return Ok(Some((place as u32, name)));
        }
    }
    Ok(None)
}
