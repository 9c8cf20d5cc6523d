ghost use Rattle.std.specs.Prelude.{◌≡◌, All, IfOk, is_some};
ghost use Rattle.std.specs.List.{list_all};
ghost use Rattle.std.specs.Option.{option_copied};
ghost use Rattle.tk_types.specs.declared.value.Pair.{Pair as P};
ghost use Rattle.tk_vars.specs.Reading.{HasReading};
ghost use Rattle.tk_shape.specs.ShapeEnv.{reference_shape};
ghost use Rattle.tk_shape.specs.Substituted.{element_count, has_text, has_value, have_pairs, have_texts, is_text, list_count};

use crate::taken::Shapes;
use std::alloc::{AllocError, Global};
use tk_types::{Pair, ParamType, Text};
use tk_vars::{Piece, Reference, known_pieces, whole_of};

/// Whether the reference takes a text.
fn takes_text<S: Shapes>(
    alloc: Global,
    shapes: &S,
    reference: &Reference<'_>,
) -> Result<bool, AllocError>
    ensures { IfOk result (λ takes. takes ≡ is_text (reference_shape (S.env shapes.now) reference.now)) }
{
    match shapes.kind_taken(alloc, reference)? {
        Some(ParamType::Str) => Ok(true),
        _ => Ok(false),
    }
}

/// Whether the reference takes a list.
fn takes_list<S: Shapes>(
    alloc: Global,
    shapes: &S,
    reference: &Reference<'_>,
) -> Result<bool, AllocError>
    ensures { IfOk result (λ takes. takes ≡ is_some (list_count (reference_shape (S.env shapes.now) reference.now))) }
{
    match shapes.kind_taken(alloc, reference)? {
        Some(ParamType::Arr) => Ok(true),
        _ => Ok(false),
    }
}

/// Whether the piece has a text.
fn has_text<S: Shapes>(alloc: Global, shapes: &S, piece: &Piece<'_>) -> Result<bool, AllocError>
    ensures { IfOk result (λ has. has ≡ has_text (S.env shapes.now) piece.now) }
{
    match piece {
        Piece::Plain(_) => Ok(true),
        Piece::Ref(reference) => takes_text(alloc, shapes, reference),
    }
}

/// Whether each piece has a text.
pub(crate) fn have_texts<S: Shapes>(
    alloc: Global,
    shapes: &S,
    pieces: &[Piece<'_>],
) -> Result<bool, AllocError>
    ensures { IfOk result (λ have. have ≡ have_texts (S.env shapes.now) pieces.now) }
{
    for piece in pieces {
        if !has_text(alloc, shapes, piece)? {
            return Ok(false);
        }
    }
    Ok(true)
}

/// Whether a text that has a reading has a value. The only error is want of memory.
pub fn has_value<S: Shapes>(alloc: Global, shapes: &S, text: &str) -> Result<bool, AllocError>
    requires { HasReading text.now }
    ensures { IfOk result (λ has. has ≡ has_value (S.env shapes.now) text.now) }
{
    let pieces = known_pieces(alloc, text)?;
    have_texts(alloc, shapes, pieces.as_slice())
}

/// Whether the text of each pair has a value. The only error is want of memory.
pub fn have_pairs<S: Shapes>(alloc: Global, shapes: &S, pairs: &[Pair]) -> Result<bool, AllocError>
    requires { All (λ (p : P). HasReading p.value) pairs.now }
    ensures { IfOk result (λ have. have ≡ have_pairs (S.env shapes.now) pairs.now) }
{
    for pair in pairs {
        if !has_value(alloc, shapes, pair.value.as_str())? {
            return Ok(false);
        }
    }
    Ok(true)
}

/// Whether a text that has a reading has a value as an element of a list.
fn has_element<S: Shapes>(alloc: Global, shapes: &S, text: &str) -> Result<bool, AllocError>
    requires { HasReading text.now }
    ensures { IfOk result (λ has. has ≡ is_some (element_count (S.env shapes.now) text.now)) }
{
    let pieces = known_pieces(alloc, text)?;
    match whole_of(pieces.as_slice()) {
        None => have_texts(alloc, shapes, pieces.as_slice()),
        Some(reference) => takes_list(alloc, shapes, reference),
    }
}

/// Whether each text has a value as an element of a list. The only error is want of memory.
pub fn have_elements<S: Shapes>(
    alloc: Global,
    shapes: &S,
    texts: &[Text],
) -> Result<bool, AllocError>
    requires { All HasReading texts.now }
    ensures { IfOk result (λ have. have ≡ list_all (λ text. is_some (element_count (S.env shapes.now) text)) texts.now) }
{
    for text in texts {
        if !has_element(alloc, shapes, text.as_str())? {
            return Ok(false);
        }
    }
    Ok(true)
}
