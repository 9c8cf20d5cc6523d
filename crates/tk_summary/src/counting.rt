//! How many entries of a journal do what is counted.
ghost use Rattle.std.specs.Prelude.{◌≡◌};
ghost use Rattle.tk_summary.specs.Summary.{count_of, holds as condition_holds, is_counted as counts_act};

use tk_journal::{Act, Admission, Closing, Journal};

/// What is counted.
#[derive(Clone, Copy)]
pub(crate) enum Counted {
    /// Runs that are admitted.
    Runs,
    /// Runs that close with the condition True.
    True,
    /// Runs that close with the condition False.
    False,
    /// TaskRuns that are admitted by themselves or made for a run.
    TaskRuns,
    /// Attempts of TaskRuns.
    Attempts,
}

/// Whether a run closes so, with its condition as is said.
fn closes(closing: &Closing, holds: bool) -> bool
    ensures { result ≡ condition_holds closing.now holds }
{
    match closing {
        Closing::Run { condition, .. } => condition.holds == holds,
        _ => false,
    }
}

/// Whether an entry does what is counted.
fn is_counted(what: Counted, act: &Act) -> bool
    ensures { result ≡ counts_act what act.now }
{
    match (what, act) {
        (
            Counted::Runs,
            Act::Admit {
                spec: Admission::Run(_),
                ..
            },
        ) => true,
        (
            Counted::TaskRuns,
            Act::Admit {
                spec: Admission::Task(_),
                ..
            },
        ) => true,
        (Counted::TaskRuns, Act::MakeTaskRun { .. }) => true,
        (Counted::Attempts, Act::OpenAttempt { .. }) => true,
        (Counted::True, Act::Close { closing, .. }) => closes(closing, true),
        (Counted::False, Act::Close { closing, .. }) => closes(closing, false),
        _ => false,
    }
}

/// How many entries of a journal do what is counted.
pub(crate) fn count(journal: &Journal, what: Counted) -> u64
    ensures { result ≡ count_of what journal.now.history }
{
    let mut count = 0;
    for place in 0..journal.len() {
        if is_counted(what, &journal.entry(place + 1).act) {
            count += 1;
        }
    }
    count
}
