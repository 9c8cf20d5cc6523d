ghost use Rattle.std.specs.Prelude.{◌≡◌, ◌≤◌, length};
ghost use Rattle.tk_journal.specs.Effects.{kind_of, same_kind};
ghost use Rattle.tk_journal.specs.History.{front_of};
ghost use Rattle.tk_cache.specs.Fronts.{next_front};

use tk_journal::{Act, Fronts, Journal};
use tk_types::Kind;

/// Whether an entry's object is of this kind.
pub fn is_of(kind: Kind, act: &Act) -> bool
    ensures { result ≡ same_kind kind (kind_of act.now) }
{
    match (kind, act.kind()) {
        (Kind::Runs, Kind::Runs) | (Kind::TaskRuns, Kind::TaskRuns) | (Kind::Pods, Kind::Pods) =>
            true,
        _ => false,
    }
}

/// A kind's front.
pub fn front_of(kind: Kind, fronts: Fronts) -> u64
    ensures { result ≡ front_of kind fronts }
{
    match kind {
        Kind::Runs => fronts.runs,
        Kind::TaskRuns => fronts.task_runs,
        Kind::Pods => fronts.pods,
    }
}

/// A kind's front after so many entries more.
pub fn next_front(journal: &Journal, kind: Kind, n: u64, front: u64) -> u64
    requires within { front ≤ length journal.now.history }
    ensures value { result ≡ next_front kind n front journal.now.history }
    ensures order { front ≤ result }
    ensures within { result ≤ length journal.now.history }
{
    let mut left = n;
    let mut at = front;
    while 0 < left && at < journal.len() {
        if is_of(kind, &journal.entry(at + 1).act) {
            left -= 1;
        }
        at += 1;
    }
    at
}
