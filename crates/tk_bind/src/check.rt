ghost use Rattle.std.specs.Prelude.{◌≡◌, Bool, None, not, find, filter_map, IfOk, IfErr, OnOk, option_copied};
ghost use Rattle.tk_vars.specs.Offset.{bad_offset};
ghost use Rattle.tk_vars.specs.Reading.{pieces_of};
ghost use Rattle.tk_vars.specs.Target.{referenced};
ghost use Rattle.tk_bind.specs.Check.{text_fault, IsCheckRefusal};
ghost use Rattle.tk_bind.specs.declared.scope.Scope.{Scope as AScope};
ghost use Rattle.tk_bind.specs.Scope.{is_visible, is_well_typed};

use crate::names::{Names, is_visible, is_well_typed};
use crate::refusal::CheckError;
use std::alloc::{AllocError, Global};
use tk_types::Text;
use tk_vars::laws::one_bad_offset;
use tk_vars::{
    Piece, Pieces, Reference, ReferenceTest, ScanError, first_reference, is_plain, scan,
};

/// The pieces of a text that has a reading.
fn scanned(alloc: Global, text: &str) -> Result<Pieces<'_>, CheckError>
    ensures pieces { IfOk result (λ pieces. pieces ≡ pieces_of text.now) }
    ensures good { OnOk result (bad_offset text.now ≡ None) }
    ensures refused { (scope : AScope) (whole : Bool) → IfErr result (IsCheckRefusal (text_fault scope whole text.now)) }
{
    one_bad_offset();
    match scan(alloc, text) {
        Ok(pieces) => Ok(pieces),
        Err(ScanError::BadReference { offset }) => Err(CheckError::BadReference { offset }),
        Err(ScanError::Memory) => Err(CheckError::Memory),
    }
}

/// Whether a reference is to what isn't visible.
#[derive(Drop)]
struct Unseen<'n, N: Names> {
    names: &'n N,
}

impl<'n, N: Names> ReferenceTest for Unseen<'n, N> {
    ghost is_met = { λ t r. not (is_visible (N.scope t.names.now) r) };

    fn passes_over(&self, text: &str) -> bool {
        is_plain(text)
    }

    fn meets(&self, alloc: Global, reference: &Reference<'_>) -> Result<bool, AllocError> {
        Ok(!is_visible(alloc, self.names, reference)?)
    }
}

/// Whether a reference is used against its type.
#[derive(Drop)]
struct Mistyped<'n, N: Names> {
    names: &'n N,
    whole: bool,
}

impl<'n, N: Names> ReferenceTest for Mistyped<'n, N> {
    ghost is_met = { λ t r. not (is_well_typed (N.scope t.names.now) t.whole r) };

    fn passes_over(&self, text: &str) -> bool {
        is_plain(text)
    }

    fn meets(&self, alloc: Global, reference: &Reference<'_>) -> Result<bool, AllocError> {
        Ok(!is_well_typed(alloc, self.names, self.whole, reference)?)
    }
}

/// The first reference of these pieces to what isn't visible. The only error is want of memory.
pub fn first_unseen<'p, 't, N: Names>(
    alloc: Global,
    names: &N,
    pieces: &'p [Piece<'t>],
) -> Result<Option<&'p Reference<'t>>, AllocError>
    ensures { IfOk result (λ found. option_copied found ≡ find (λ r. not (is_visible (N.scope names.now) r)) (filter_map referenced pieces.now)) }
{
    first_reference(alloc, &Unseen { names }, pieces)
}

/// The first reference of these pieces that is used against its type; `whole` says whether it may be a `[*]` as a whole.
/// The only error is want of memory.
pub fn first_mistyped<'p, 't, N: Names>(
    alloc: Global,
    names: &N,
    whole: bool,
    pieces: &'p [Piece<'t>],
) -> Result<Option<&'p Reference<'t>>, AllocError>
    ensures { IfOk result (λ found. option_copied found ≡ find (λ r. not (is_well_typed (N.scope names.now) whole r)) (filter_map referenced pieces.now)) }
{
    first_reference(alloc, &Mistyped { names, whole }, pieces)
}

/// The reference as it is written.
fn spelled(alloc: Global, reference: &Reference<'_>) -> Result<Text, AllocError>
    ensures { IfOk result (λ text. text ≡ reference.now.spelling) }
{
    Text::from_str(alloc, reference.spelling.as_str())
}

/// Whether a text may stand in a scope (Tekton, Pipelines, Variable Substitutions Supported by Tasks and Pipelines);
/// `whole` says whether it may be a `[*]` as a whole.
///
/// What is told is, in this order, the byte where a reference must stand and none does, the first reference to what
/// isn't visible, or the first one that is used against its type. Want of memory is the only other error.
pub fn check_text<N: Names>(
    alloc: Global,
    text: &str,
    names: &N,
    whole: bool,
) -> Result<(), CheckError>
    ensures good { OnOk result (text_fault (N.scope names.now) whole text.now ≡ None) }
    ensures refused { IfErr result (IsCheckRefusal (text_fault (N.scope names.now) whole text.now)) }
{
    let pieces = scanned(alloc, text)?;
    if let Some(reference) = first_unseen(alloc, names, pieces.as_slice())? {
        return Err(CheckError::Unknown {
            reference: spelled(alloc, reference)?,
        });
    }
    if let Some(reference) = first_mistyped(alloc, names, whole, pieces.as_slice())? {
        return Err(CheckError::WrongType {
            reference: spelled(alloc, reference)?,
        });
    }
    Ok(())
}
