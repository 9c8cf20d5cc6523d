ghost use Rattle.std.specs.Prelude.{◌≡◌, ◌==◌, ◌&&◌, ◌||◌, not, false, Bool, [], ◌∷◌, ◌++◌, length, OnOk, IfOk, IfErr, IsOkUnless, IsTrue, None, MatchOption, flat_map};
ghost use Rattle.std.specs.List.{list_all, list_any};
ghost use Rattle.tk_vars.specs.declared.reference.Reference.{Reference as AReference};
ghost use Rattle.tk_vars.specs.Offset.{bad_offset};
ghost use Rattle.tk_vars.specs.Target.{references_of};
ghost use Rattle.tk_vars.specs.Reading.{Reads, HasReading, pieces_of, spelling_of, ends_with_star};
ghost use Rattle.tk_vars.specs.Refusal.{IsRefusal, TellsOffset};
ghost use Rattle.tk_vars.specs.Steps.{stands_first, EndsWith, IsFirstReference, IsSplitAt, plain_pieces};

use crate::building::reference_of;
use crate::error::ScanError;
use crate::grammar::{is_reference, must_stand};
use crate::piece::Piece;
use crate::pieces::Pieces;
use crate::reference::Reference;
use crate::splitting::{behind_parenthesis, split_dollar, split_end};
use crate::word::Word;
use memchr::memchr;
use std::alloc::{AllocError, Global};

/// Whether the reference may stand there: one that ends with `[*]` only as the whole text.
fn may_stand(reference: &Reference<'_>, is_whole: bool) -> bool
    ensures { result ≡ (not (ends_with_star reference.now.parts) || is_whole) }
{
    !reference.parts.ends_with_star() || is_whole
}

fn is_whole(is_first: bool, rest: &str) -> bool
    ensures { result ≡ (is_first && (length rest.now == 0)) }
{
    is_first && rest.is_empty()
}

/// What stands in front of the rest.
fn in_front<'t>(text: &'t str, rest: &str) -> &'t str
    requires { EndsWith text.now rest.now }
    ensures { result.now ++ rest.now ≡ text.now }
{
    text.split_at(text.len() - rest.len()).0
}

/// The text from its first `$` on.
fn from_dollar<'t>(text: &'t str, before: &str, after: &str) -> &'t str
    requires { IsSplitAt 36 text.now before.now after.now }
    ensures { result.now ≡ 36 ∷ after.now }
{
    text.split_at(before.len()).1
}

/// The reference at which the text begins, and what follows the reference; behind the first byte, which is a `$`, the
/// text goes on so.
fn reference_at<'t>(
    alloc: Global,
    text: &'t str,
    after: &'t str,
    is_first: bool,
) -> Result<Option<(Reference<'t>, &'t str)>, AllocError>
    requires { text.now ≡ 36 ∷ after.now }
    ensures { IfOk result (λ found. MatchOption found (stands_first is_first (36 ∷ after.now) ≡ false) (λ f. IsFirstReference is_first (36 ∷ after.now) f.0 f.1.now)) }
{
    let Some((front, rest)) = split_end(after) else {
        return Ok(None);
    };
    let Some(inner) = behind_parenthesis(front) else {
        return Ok(None);
    };
    if !is_reference(inner.as_bytes()) {
        return Ok(None);
    }
    let reference = reference_of(alloc, in_front(text, rest), inner)?;
    if !may_stand(&reference, is_whole(is_first, rest)) {
        return Ok(None);
    }
    Ok(Some((reference, rest)))
}

/// Adds plain text, where there is some, as a piece of its own.
fn add_plain<'t>(pieces: &mut Vec<Piece<'t>>, plain: &'t str) -> Result<(), AllocError>
    ensures { OnOk result (pieces.new.items ≡ pieces.old.items ++ plain_pieces plain.now) }
{
    if plain.is_empty() {
        return Ok(());
    }
    pieces.push(Piece::Plain(Word::new(plain)))?;
    Ok(())
}

/// Whether no byte of a text is a `$`.
fn has_no_dollar(text: &str) -> bool
    ensures { result ≡ list_all (λ b. not (b == 36)) text.now }
{
    match memchr(b'$', text.as_bytes()) {
        Some(_) => false,
        None => true,
    }
}

/// Whether a text has no `$`. Such a text has a reading, and no reference stands in it.
pub fn is_plain(text: &str) -> bool
    ensures exact { result ≡ list_all (λ b. not (b == 36)) text.now }
    ensures reading { IsTrue result → bad_offset text.now ≡ None }
    ensures references { IsTrue result → references_of text.now ≡ [] }
    ensures none { IsTrue result → (test : AReference → Bool) → list_any test (references_of text.now) ≡ false }
{
    has_no_dollar(text)
}

/// Splits a text into plain pieces and references, which refer to the text (Tekton, Pipelines, Variable Substitutions Supported by Tasks and
/// Pipelines).
///
/// A `$(`, one of the heads and a `.` or `[` call for a reference. All other text stays plain, as `$(date)`,
/// `$(params)` and the first `$` of `$$(params.x)` do. A reference that ends with `[*]` is the whole text. The time is
/// linear in the text's length, and the depth of calls doesn't grow with it.
pub fn scan(alloc: Global, text: &str) -> Result<Pieces<'_>, ScanError>
    ensures reading { IfOk result (Reads text.now) }
    ensures only_reading { IfOk result (λ pieces. pieces ≡ pieces_of text.now) }
    ensures joined { IfOk result (λ pieces. flat_map spelling_of pieces ≡ text.now) }

    // Only a text without a reading has a bad offset.
    ensures refused { IfErr result (IsRefusal text.now) }
    ensures computed { IfErr result (TellsOffset text.now) }
    ensures accepted { HasReading text.now → IsOkUnless result ScanError.Memory }
{
    let mut pieces = Vec::new(alloc);
    let mut plain = text;
    let mut rest = text;
    while let Some((before, after)) = split_dollar(rest) {
        if !must_stand(after) {
            rest = after;
            continue;
        }
        let offset = text.len() - after.len() - 1;
        let from = from_dollar(rest, before, after);
        let Some((reference, behind)) = reference_at(alloc, from, after, offset == 0)? else {
            return Err(ScanError::BadReference {
                offset: offset as u64,
            });
        };
        add_plain(&mut pieces, in_front(plain, from))?;
        pieces.push(Piece::Ref(reference))?;
        plain = behind;
        rest = behind;
    }
    add_plain(&mut pieces, plain)?;
    Ok(Pieces::from_vec(pieces))
}
