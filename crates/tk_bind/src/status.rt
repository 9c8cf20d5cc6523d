ghost use Rattle.std.specs.Prelude.{◌≡◌, is_some};
ghost use Rattle.std.specs.Option.{option_copied};
ghost use Rattle.tk_bind.specs.Scope.{status_task, is_status_of_all, is_status, has_finally_head};

use tk_vars::{Part, Word};

/// The task of `$(tasks.TASK.status)`.
pub fn status_task<'a>(parts: &'a [Part<'a>]) -> Option<&'a Word<'a>>
    ensures { option_copied result ≡ status_task parts.now }
{
    match parts {
        [first, second, third] => match (first, second, third) {
            (Part::Name(head), Part::Name(task), Part::Name(last))
                if head.as_str() == "tasks" && last.as_str() == "status" => { Some(task) }
            _ => None,
        },
        _ => None,
    }
}

/// Whether the parts are those of such a variable.
fn has_status_task(parts: &[Part<'_>]) -> bool
    ensures { result ≡ is_some (status_task parts.now) }
{
    match parts {
        [first, second, third] => match (first, second, third) {
            (Part::Name(head), Part::Name(_), Part::Name(last)) => {
                head.as_str() == "tasks" && last.as_str() == "status"
            }
            _ => false,
        },
        _ => false,
    }
}

/// `$(tasks.status)`.
fn is_status_of_all(parts: &[Part<'_>]) -> bool
    ensures { result ≡ is_status_of_all parts.now }
{
    match parts {
        [first, second] => match (first, second) {
            (Part::Name(head), Part::Name(last)) => {
                head.as_str() == "tasks" && last.as_str() == "status"
            }
            _ => false,
        },
        _ => false,
    }
}

/// Whether the parts are those of a status variable.
pub fn is_status(parts: &[Part<'_>]) -> bool
    ensures { result ≡ is_status parts.now }
{
    is_status_of_all(parts) || has_status_task(parts)
}

/// Whether the head is `finally`.
pub fn has_finally_head(parts: &[Part<'_>]) -> bool
    ensures { result ≡ has_finally_head parts.now }
{
    match parts {
        [first, ..] => match first {
            Part::Name(head) => head.as_str() == "finally",
            _ => false,
        },
        [] => false,
    }
}
