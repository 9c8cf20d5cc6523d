ghost use Rattle.std.specs.Prelude.{◌≡◌};
ghost use Rattle.tk_verdict.specs.Verdict.{blocks as blocks_children, is_broken_label, is_done as is_done_label, is_skipped as is_skipped_label, is_skipped_by_when as is_refused, is_stopped_label};

use tk_types::{SkipReason, Verdict};

/// Whether a task is done: it ran or is skipped.
pub fn is_done(label: Verdict) -> bool
    ensures { result ≡ is_done_label label }
{
    matches!(label, Verdict::Ran | Verdict::Skipped(_))
}

/// Whether a task is skipped.
pub fn is_skipped(label: Verdict) -> bool
    ensures { result ≡ is_skipped_label label }
{
    matches!(label, Verdict::Skipped(_))
}

/// Whether a task is skipped since its references or bindings are broken.
pub fn is_broken(label: Verdict) -> bool
    ensures { result ≡ is_broken_label label }
{
    matches!(label, Verdict::Skipped(SkipReason::Broken))
}

/// Whether a task is skipped by a stop.
pub fn is_stopped(label: Verdict) -> bool
    ensures { result ≡ is_stopped_label label }
{
    matches!(label, Verdict::Skipped(SkipReason::Stopped(_)))
}

/// Whether a task is skipped so that the tasks behind it are too.
pub fn blocks(label: Verdict) -> bool
    ensures { result ≡ blocks_children label }
{
    matches!(
        label,
        Verdict::Skipped(
            SkipReason::Parent | SkipReason::Missing | SkipReason::Broken | SkipReason::EmptyMatrix
        )
    )
}

/// Whether a task is skipped by its own guard.
pub fn is_skipped_by_when(label: Verdict) -> bool
    ensures { result ≡ is_refused label }
{
    matches!(label, Verdict::Skipped(SkipReason::When))
}
