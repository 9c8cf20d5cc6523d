/// What came of a worker's turn: the store's answer to its one choice, or Idle where it had none. Memory changes nothing.
#[derive(Clone, Copy, Debug, PartialEq, Eq)]
pub enum Turn {
    Wrote { version: u64 },
    Exists { holder: u64, version: u64 },
    Conflict { found: u64 },
    Idle,
    Memory,
}
