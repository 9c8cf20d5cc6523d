use tk_types::{Child, List, Outcome, Stop};

/// One step of a run.
#[derive(Drop)]
pub(crate) enum Step {
    /// A stop is recorded.
    Stop(Stop),
    /// A task gets children with these outcomes; some of them are missing.
    Children {
        task: u32,
        outcomes: List<Option<Outcome>>,
        missing: List<Child>,
    },
    /// The child of a task and an index has a TaskRun, with this outcome.
    TaskRun {
        task: u32,
        index: u32,
        outcome: Option<Outcome>,
    },
}
