ghost use Rattle.std.specs.Prelude.{◌≡◌, [], None, false, filter_map, IfOk, IsTrue, option_and_then, option_copied};
ghost use Rattle.std.specs.List.{list_any};
ghost use Rattle.std.specs.Option.{option_map_or};
ghost use Rattle.tk_vars.specs.Target.{referenced, whole_of};
ghost use Rattle.tk_vars.specs.Task.{names_task};
ghost use Rattle.tk_validate.specs.Named.{read_references, whole_read};

use std::alloc::{AllocError, Global};
use tk_vars::laws::one_bad_offset;
use tk_vars::{Pieces, ScanError, names_no_task, scan};

/// Whether it shows, before a text is read, that none of its references is to a result or a status of a task.
#[tactic(auto, using(crate::proofs::NoTask::none_read))]
pub(crate) fn reads_no_task(text: &str) -> bool
    ensures { IsTrue result → list_any names_task (read_references text.now) ≡ false }
{
    names_no_task(text)
}

/// The pieces of a text, if it has a reading.
#[tactic(auto, unfolding(crate::specs::Named::read_references, crate::specs::Named::whole_read))]
pub(crate) fn read(alloc: Global, text: &str) -> Result<Option<Pieces<'_>>, AllocError>
    ensures references { IfOk result (λ pieces. read_references text.now ≡ option_map_or (λ ps. filter_map referenced ps) pieces []) }
    ensures whole { IfOk result (λ pieces. whole_read text.now ≡ option_and_then whole_of pieces) }
{
    one_bad_offset();
    match scan(alloc, text) {
        Ok(pieces) => Ok(Some(pieces)),
        Err(ScanError::BadReference { .. }) => Ok(None),
        Err(ScanError::Memory) => Err(AllocError),
    }
}
