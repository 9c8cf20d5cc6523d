use crate::order::Order;
use std::alloc::{AllocError, Global};
use tk_types::{Bytes, Text, TryCopy};

/// What an entrypoint is armed with: its order, the file that it waits for and the file that it leaves behind its
/// step, and whether the step passes with any exit (Tekton, Tasks, Specifying `onError` for a step).
#[derive(Drop)]
pub struct Arming {
    pub order: Order,
    pub wait: Text,
    pub post: Text,
    pub keep_going: bool,
}

impl TryCopy for Arming {
    fn copy(&self, alloc: Global) -> Result<Arming, AllocError> {
        Ok(Arming {
            order: self.order.copy(alloc)?,
            wait: self.wait.copy(alloc)?,
            post: self.post.copy(alloc)?,
            keep_going: self.keep_going,
        })
    }
}

/// One thing that a host did. A history is the list of them, the newest first.
#[derive(Drop)]
pub enum Event {
    /// A call of `put`, and whether it answered Ok.
    Put {
        path: Text,
        bytes: Bytes,
        answered: bool,
    },
    /// A call of `clear`, and whether it answered Ok.
    Cleared {
        folder: Text,
        answered: bool,
    },
    /// `fetch` answered so.
    Fetched {
        path: Text,
        bytes: Option<Bytes>,
    },
    /// `launch` answered Ok with this number.
    Armed {
        child: u64,
        arming: Arming,
    },
    /// `start` answered Ok with this number, or `watch` of it answered Started.
    Started {
        child: u64,
        order: Order,
    },
    /// `watch` first answered Broke without an exit.
    Refused {
        child: u64,
    },
    /// `poll` first answered Exited, or `watch` Passed or Broke with the exit.
    Exited {
        child: u64,
        exit: u8,
    },
}
