ghost use Rattle.std.specs.Prelude.{◌≡◌, ◌∷◌, false, not, IsTrue};
ghost use Rattle.std.specs.List.{list_any};
ghost use Rattle.tk_vars.specs.Target.{references_of};
ghost use Rattle.tk_vars.specs.Task.{names_task, begins_task, begins_task_within};

use crate::splitting::split_dollar;

/// Whether a reference to a result or a status of a task may begin at a `$` with this behind it.
fn begins_task(after: &str) -> bool
    ensures { result ≡ begins_task (36 ∷ after.now) }
{
    after.as_bytes().starts_with(b"(tasks") || after.as_bytes().starts_with(b"(finally")
}

/// Whether one may begin somewhere in a text.
fn begins_task_within(text: &str) -> bool
    ensures { result ≡ begins_task_within text.now }
{
    let mut rest = text;
    while let Some((_front, after)) = split_dollar(rest) {
        if begins_task(after) {
            return true;
        }
        rest = after;
    }
    false
}

/// Whether nowhere in a text `$(tasks` or `$(finally` stands, so that none of its references is to a result or a
/// status of a task. It takes no memory, where `scan` does.
pub fn names_no_task(text: &str) -> bool
    ensures exact { result ≡ not (begins_task_within text.now) }
    ensures references { IsTrue result → list_any names_task (references_of text.now) ≡ false }
{
    !begins_task_within(text)
}
