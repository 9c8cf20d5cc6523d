ghost use Rattle.std.specs.Prelude.{◌≡◌};
ghost use Rattle.tk_verdict.specs.Facts.{has_ended, is_cancelled as was_cancelled, is_failure as was_failure, is_good_where, is_running as has_no_outcome, is_success as was_success};

use tk_types::{Child, Outcome};

/// Whether the outcome is success.
fn is_success(outcome: &Outcome) -> bool
    ensures { result ≡ was_success outcome.now }
{
    matches!(outcome, Outcome::Succeeded(_))
}

/// Whether the outcome is a failure, which `onError: continue` on the pipeline task would ignore.
fn is_failure(outcome: &Outcome) -> bool
    ensures { result ≡ was_failure outcome.now }
{
    matches!(
        outcome,
        Outcome::Failed { .. } | Outcome::TimedOut | Outcome::Lost
    )
}

/// Whether the child has no outcome yet.
pub fn is_running(child: &Child) -> bool
    ensures { result ≡ has_no_outcome child.now }
{
    child.outcome.is_none()
}

/// Whether the child ended with success, or with a failure that its task ignores.
pub fn ended_well(child: &Child, ignores: bool) -> bool
    ensures { result ≡ has_ended (is_good_where ignores) child.now }
{
    match &child.outcome {
        Some(outcome) => is_success(outcome) || (ignores && is_failure(outcome)),
        None => false,
    }
}

/// Whether the child ended with a failure.
pub fn has_failed(child: &Child) -> bool
    ensures { result ≡ has_ended was_failure child.now }
{
    match &child.outcome {
        Some(outcome) => is_failure(outcome),
        None => false,
    }
}

/// Whether the child was cancelled.
pub fn was_child_cancelled(child: &Child) -> bool
    ensures { result ≡ has_ended was_cancelled child.now }
{
    matches!(child.outcome, Some(Outcome::Cancelled))
}
