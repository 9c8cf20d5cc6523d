ghost use Rattle.std.specs.Prelude.{◌≡◌};
ghost use Rattle.tk_graph.specs.declared.refusal.OrderError.TheVariants.{Memory};

use std::alloc::AllocError;
use tk_types::{List, Text};

/// Why tasks have no order.
#[derive(Drop)]
pub enum OrderError {
    /// The task at this place is the first that names a parent that there isn't, and this is its first such name.
    UnknownTask { task: u32, name: Text },
    /// The names of tasks each of which is a parent of the one before it, and the first of the last.
    Cycle { names: List<Text> },
    /// There was not enough memory.
    Memory,
}

impl From<AllocError> for OrderError {
    ghost from_gives = { λ _ e. e ≡ Memory };

    fn from(_e: AllocError) -> OrderError {
        OrderError::Memory
    }
}
