ghost use Rattle.std.specs.Prelude.{◌≡◌, bytes_eq};
ghost use Rattle.std.specs.List.{list_any};
ghost use Rattle.tk_guard.specs.When.{is_met, all_hold};

use tk_types::{Text, When};

/// Whether every `when` expression holds, all of whose references were replaced by their values. With no expression
/// they all do (Tekton, Pipelines, Guard Task execution using when expressions).
pub fn holds(guards: &[When]) -> bool
    ensures { result ≡ all_hold guards.now }
{
    guards.iter().all(meets)
}

/// Whether the input is among the values, for `in`, or isn't, for `notin`.
fn meets(guard: &When) -> bool
    ensures { result ≡ is_met guard.now }
{
    is_among(guard.input.as_str(), guard.values.as_slice()) == guard.is_member
}

/// Whether the text is one of the values.
fn is_among(text: &str, values: &[Text]) -> bool
    ensures { result ≡ list_any (bytes_eq text.now) values.now }
{
    values.iter().any(|value| text == value.as_str())
}
