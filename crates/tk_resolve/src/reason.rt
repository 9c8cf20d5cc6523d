ghost use Rattle.std.specs.Prelude.{◌≡◌, IfOk};
ghost use Rattle.tk_resolve.specs.Reasons.{reason_text, start_of};

use std::alloc::{AllocError, Global};
use tk_types::{Start, Text};

/// Why a run can't start. Of several reasons the first in this order is told.
#[derive(Clone, Copy, Debug, PartialEq, Eq)]
pub(crate) enum Reason {
    CouldntGetPipeline,
    CouldntGetTask,
    ParameterMissing,
    ParameterTypeMismatch,
    InvalidTaskResultReference,
    InvalidWorkspaceBindings,
}

impl Reason {
    /// The reason as a condition tells it.
    fn text(self) -> &'static str
        ensures { result.now ≡ reason_text self }
    {
        match self {
            Reason::CouldntGetPipeline => "CouldntGetPipeline",
            Reason::CouldntGetTask => "CouldntGetTask",
            Reason::ParameterMissing => "ParameterMissing",
            Reason::ParameterTypeMismatch => "ParameterTypeMismatch",
            Reason::InvalidTaskResultReference => "InvalidTaskResultReference",
            Reason::InvalidWorkspaceBindings => "InvalidWorkspaceBindings",
        }
    }
}

/// Whether a run starts: it does unless there is a reason. The only error is want of memory.
pub(crate) fn start_of(alloc: Global, reason: Option<Reason>) -> Result<Start, AllocError>
    ensures { IfOk result (λ start. start ≡ start_of reason) }
{
    match reason {
        None => Ok(Start::Ready),
        Some(reason) => Ok(Start::Unstartable(Text::from_str(alloc, reason.text())?)),
    }
}
