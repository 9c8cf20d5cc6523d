ghost use Rattle.std.specs.Prelude.{◌≡◌, [], ◌∷◌, false, filter_map, find, IfOk, IsTrue, option_copied};
ghost use Rattle.std.specs.List.{list_any};
ghost use Rattle.tk_vars.specs.Reading.{HasReading, pieces_of};
ghost use Rattle.tk_vars.specs.Target.{referenced, references_of};

use crate::error::ScanError;
use crate::piece::Piece;
use crate::pieces::Pieces;
use crate::reference::Reference;
use crate::scanner::scan;
use std::alloc::{AllocError, Global};

/// A test of references.
pub trait ReferenceTest {
    ghost use Rattle.std.specs.Prelude.{Bool};
    ghost use Rattle.tk_vars.specs.declared.reference.Reference.{Reference};

    /// Which references meet it.
    ghost is_met: { Self → Reference → Bool };

    /// Whether a text may be passed over unscanned: none of its references meets the test.
    fn passes_over(&self, text: &str) -> bool
        ensures { IsTrue result → list_any (is_met self.now) (references_of text.now) ≡ false };

    /// Whether a reference meets the test. The only error is want of memory.
    fn meets(&self, alloc: Global, reference: &Reference<'_>) -> Result<bool, AllocError>
        ensures { IfOk result (λ met. met ≡ is_met self.now reference.now) };
}

/// The pieces of a text that has a reading. The only error is want of memory.
pub fn known_pieces(alloc: Global, text: &str) -> Result<Pieces<'_>, AllocError>
    requires { HasReading text.now }
    ensures { IfOk result (λ pieces. pieces ≡ pieces_of text.now) }
{
    match scan(alloc, text) {
        Ok(pieces) => Ok(pieces),
        Err(ScanError::BadReference { .. }) => unreachable!(),
        Err(ScanError::Memory) => Err(AllocError),
    }
}

/// The piece's reference, if it meets the test.
fn met_in<'p, 't, T: ReferenceTest>(
    alloc: Global,
    test: &T,
    piece: &'p Piece<'t>,
) -> Result<Option<&'p Reference<'t>>, AllocError>
    ensures { IfOk result (λ found. option_copied found ≡ find (T.is_met test.now) (filter_map referenced (piece.now ∷ []))) }
{
    let Piece::Ref(reference) = piece else {
        return Ok(None);
    };
    if test.meets(alloc, reference)? {
        return Ok(Some(reference));
    }
    Ok(None)
}

/// The first reference of these pieces that meets the test. The only error is want of memory.
pub fn first_reference<'p, 't, T: ReferenceTest>(
    alloc: Global,
    test: &T,
    pieces: &'p [Piece<'t>],
) -> Result<Option<&'p Reference<'t>>, AllocError>
    ensures { IfOk result (λ found. option_copied found ≡ find (T.is_met test.now) (filter_map referenced pieces.now)) }
{
    for piece in pieces {
        if let Some(reference) = met_in(alloc, test, piece)? {
            return Ok(Some(reference));
        }
    }
    Ok(None)
}

/// Whether some reference of these pieces meets the test. The only error is want of memory.
#[tactic(auto, using(crate::proofs::WalkFacts::is_some_found))]
pub fn any_in_pieces<T: ReferenceTest>(
    alloc: Global,
    test: &T,
    pieces: &[Piece<'_>],
) -> Result<bool, AllocError>
    ensures { IfOk result (λ any. any ≡ list_any (T.is_met test.now) (filter_map referenced pieces.now)) }
{
    Ok(first_reference(alloc, test, pieces)?.is_some())
}

/// Whether some reference of a text that has a reading meets the test. The only error is want of memory.
pub fn any_reference<T: ReferenceTest>(
    alloc: Global,
    test: &T,
    text: &str,
) -> Result<bool, AllocError>
    requires { HasReading text.now }
    ensures { IfOk result (λ any. any ≡ list_any (T.is_met test.now) (references_of text.now)) }
{
    if test.passes_over(text) {
        return Ok(false);
    }
    let pieces = known_pieces(alloc, text)?;
    any_in_pieces(alloc, test, pieces.as_slice())
}
