ghost use Rattle.std.specs.Prelude.{◌≡◌, ◌<◌, ◌^◌, length, IfOk};
ghost use Rattle.tk_verdict.specs.Sequence.{ranked, IsSequence};

use std::alloc::{AllocError, Global};

/// A task by its place, with its rank.
#[derive(Clone, Copy)]
pub struct Ranked {
    pub rank: u32,
    pub place: u32,
}

/// The tasks in the order of their ranks.
pub fn by_rank(alloc: Global, ranks: &[u32]) -> Result<Vec<Ranked>, AllocError>
    requires few { length ranks.now < 2 ^ 32 }
    ensures { IfOk result (λ sequence. IsSequence ranks.now sequence.items) }
{
    let mut sequence = unsorted(alloc, ranks)?;
    sequence.sort_unstable_by_key(|r| r.rank);
    Ok(sequence)
}

/// The tasks with their ranks, by place.
fn unsorted(alloc: Global, ranks: &[u32]) -> Result<Vec<Ranked>, AllocError>
    requires few { length ranks.now < 2 ^ 32 }
    ensures { IfOk result (λ tasks. tasks.items ≡ ranked ranks.now) }
{
    let mut tasks = Vec::with_capacity(alloc, ranks.len())?;
    for place in 0..ranks.len() {
        tasks.push(Ranked {
            rank: ranks[place],
            place: place as u32,
        })?;
    }
    Ok(tasks)
}
