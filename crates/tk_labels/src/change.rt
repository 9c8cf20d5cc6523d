use tk_types::{List, Outcome, Stop};

/// One change of a run.
#[derive(Drop)]
pub enum Change {
    /// A stop is recorded behind the others.
    Stop(Stop),
    /// A task, named by its place, gets children behind the others: one for each outcome, with indexes from 0 in order. One
    /// with an outcome has ended.
    Children {
        task: u32,
        outcomes: List<Option<Outcome>>,
    },
    /// The child of a task and an index ends.
    Ended {
        task: u32,
        index: u32,
        outcome: Outcome,
    },
}
