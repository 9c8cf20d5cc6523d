/// What an ask came to.
#[derive(Clone, Copy, Debug, PartialEq, Eq)]
pub enum AskAnswer {
    /// Its entry was added, at this position of the journal, from 1.
    Wrote { version: u64 },
    /// There is no PipelineRun of the name, or for `TaskRunCancelled` no standalone TaskRun.
    NoSuch,
    /// It is closed; this is its version.
    Finished { version: u64 },
    /// The status isn't above all that was asked or recorded, of which this is the greatest level: 1 to 4, and 0 for none. A
    /// `Start` comes to this where the run isn't pending.
    NotHigher { level: u32 },
}
