use std::alloc::{AllocError, Global};
use tk_types::{List, Pair, Text, TryCopy};

/// One step of a pod as a kubelet starts it: its words, its environment and the folder that it runs in.
#[derive(Drop)]
pub struct Order {
    pub pod: Text,
    pub step: u32,
    pub argv: List<Text>,
    pub env: List<Pair>,
    pub dir: Text,
}

impl TryCopy for Order {
    fn copy(&self, alloc: Global) -> Result<Order, AllocError> {
        Ok(Order {
            pod: self.pod.copy(alloc)?,
            step: self.step,
            argv: self.argv.copy(alloc)?,
            env: self.env.copy(alloc)?,
            dir: self.dir.copy(alloc)?,
        })
    }
}

/// What a host answers of a child: that it runs, or the exit with which it ended.
#[derive(Clone, Copy, Debug, PartialEq, Eq)]
pub enum Poll {
    Runs,
    Exited(u8),
}

/// What one turn of an entrypoint gave. `Passed` and `Broke` are answered for good: its step ended and passes, or it
/// doesn't. `Broke` without an exit: the step before it broke, so its own never started.
#[derive(Clone, Copy, Debug, PartialEq, Eq)]
pub enum Watch {
    Waits,
    Started,
    Runs,
    Passed { exit: u8 },
    Broke { exit: Option<u8> },
}
