ghost use Rattle.std.specs.Prelude.{◌≡◌, ◌<◌, ◌^◌, find, length, map, All, Contains, IfSome, IfOk};
ghost use Rattle.tk_types.specs.declared.task.PipelineTask.{PipelineTask};
ghost use Rattle.tk_graph.specs.Cycle.{name_at};
ghost use Rattle.tk_graph.specs.Removal.{is_left, parents_at, walked_from, IsInside};

use crate::removal::next_left;
use std::alloc::{AllocError, Global};
use tk_types::{List, PipelineTask, Text, TryCopy};

/// The first of some places that is left.
pub(crate) fn first_left(places: &[u32], ranks: &[u32]) -> Option<u32>
    requires { All (λ place. place < length ranks.now) places.now }
    ensures first { result ≡ find (is_left ranks.now) places.now }
    ensures among { IfSome result (Contains places.now) }
{
    let first = next_left(places, ranks, 0);
    if first < places.len() {
        Some(places[first])
    } else {
        None
    }
}

/// Goes from a place to its first parent that is left, until a place comes twice: the places from its first coming on.
pub(crate) fn walk(
    alloc: Global,
    above: &[List<u32>],
    ranks: &[u32],
    first: u32,
) -> Result<Vec<u32>, AllocError>
    requires few { length above.now < 2 ^ 32 }
    requires inside { IsInside above.now }
    requires count { length ranks.now ≡ length above.now }
    requires exists { first < length above.now }
    ensures walked { IfOk result (λ places. places.items ≡ walked_from (parents_at above.now) (is_left ranks.now) (length above.now) first) }
    ensures places { IfOk result (λ places. All (λ place. place < length above.now) places.items) }
{
    let count = above.len();
    let mut path = Vec::new(alloc);
    let mut coming: Vec<u32> = vec![in alloc; count as u32; count]?;
    let mut place = first;
    for step in 0..count + 1 {
        let before = coming[place as usize] as usize;
        if before < step {
            return Vec::from_slice(alloc, &path.as_slice()[before..]);
        }
        coming[place as usize] = step as u32;
        path.push(place)?;
        match first_left(above[place as usize].as_slice(), ranks) {
            Some(next) => place = next,
            None => return Ok(Vec::new(alloc)),
        }
    }
    Ok(Vec::new(alloc))
}

/// The names of the tasks at some places.
pub(crate) fn names_at(
    alloc: Global,
    tasks: &[PipelineTask],
    places: &[u32],
) -> Result<List<Text>, AllocError>
    requires { All (λ place. place < length tasks.now) places.now }
    ensures { IfOk result (λ names. names ≡ map (name_at tasks.now) places.now) }
{
    let mut names = List::new(alloc);
    for place in places {
        names.push(tasks[*place as usize].name.copy(alloc)?)?;
    }
    Ok(names)
}
