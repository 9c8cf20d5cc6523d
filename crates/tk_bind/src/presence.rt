ghost use Rattle.std.specs.Prelude.{◌≡◌, All, IfOk, is_ok, is_some, option_and_then};
ghost use Rattle.std.specs.List.{list_all};
ghost use Rattle.tk_types.specs.declared.value.Pair.{Pair as P};
ghost use Rattle.tk_vars.specs.Reading.{HasReading};
ghost use Rattle.tk_bind.specs.Substitute.{as_text, as_list, element, joined_text, piece_text, reference_value, substituted};

use crate::found::Found;
use crate::lookup::Lookup;
use std::alloc::{AllocError, Global};
use tk_types::{Pair, Text};
use tk_vars::{Piece, Reference, known_pieces, whole_of};

impl<'i, 'p, 'r, 'w, 'o> Lookup<'i, 'p, 'r, 'w, 'o> {
    /// Whether the reference takes a text.
    fn has_text(&self, alloc: Global, reference: &Reference<'_>) -> Result<bool, AllocError>
        ensures { IfOk result (λ has. has ≡ is_some (option_and_then as_text (reference_value self.now reference.now))) }
    {
        match self.reference_value(alloc, reference)? {
            Some(Found::Text(_)) => Ok(true),
            _ => Ok(false),
        }
    }

    /// Whether the reference takes a list.
    fn has_list(&self, alloc: Global, reference: &Reference<'_>) -> Result<bool, AllocError>
        ensures { IfOk result (λ has. has ≡ is_some (option_and_then as_list (reference_value self.now reference.now))) }
    {
        match self.reference_value(alloc, reference)? {
            Some(Found::Texts(_)) => Ok(true),
            _ => Ok(false),
        }
    }

    /// Whether the piece has a text.
    fn has_piece(&self, alloc: Global, piece: &Piece<'_>) -> Result<bool, AllocError>
        ensures { IfOk result (λ has. has ≡ is_ok (piece_text self.now piece.now)) }
    {
        match piece {
            Piece::Plain(_) => Ok(true),
            Piece::Ref(reference) => self.has_text(alloc, reference),
        }
    }

    /// Whether each piece has a text.
    fn has_pieces(&self, alloc: Global, pieces: &[Piece<'_>]) -> Result<bool, AllocError>
        ensures { IfOk result (λ has. has ≡ is_ok (joined_text self.now pieces.now)) }
    {
        for piece in pieces {
            if !self.has_piece(alloc, piece)? {
                return Ok(false);
            }
        }
        Ok(true)
    }

    /// Whether the text has a value.
    pub(crate) fn has_value(&self, alloc: Global, text: &str) -> Result<bool, AllocError>
        requires { HasReading text.now }
        ensures { IfOk result (λ has. has ≡ is_ok (substituted self.now text.now)) }
    {
        let pieces = known_pieces(alloc, text)?;
        self.has_pieces(alloc, pieces.as_slice())
    }

    /// Whether the text has a value as an element of a list.
    fn has_element(&self, alloc: Global, text: &str) -> Result<bool, AllocError>
        requires { HasReading text.now }
        ensures { IfOk result (λ has. has ≡ is_ok (element self.now text.now)) }
    {
        let pieces = known_pieces(alloc, text)?;
        match whole_of(pieces.as_slice()) {
            None => self.has_pieces(alloc, pieces.as_slice()),
            Some(reference) => self.has_list(alloc, reference),
        }
    }

    /// Whether each text has a value as an element of a list.
    pub(crate) fn has_elements(&self, alloc: Global, texts: &[Text]) -> Result<bool, AllocError>
        requires { All HasReading texts.now }
        ensures { IfOk result (λ has. has ≡ list_all (λ text. is_ok (element self.now text)) texts.now) }
    {
        for text in texts {
            if !self.has_element(alloc, text.as_str())? {
                return Ok(false);
            }
        }
        Ok(true)
    }

    /// Whether the text of each pair has a value.
    pub(crate) fn has_pairs(&self, alloc: Global, pairs: &[Pair]) -> Result<bool, AllocError>
        requires { All (λ (p : P). HasReading p.value) pairs.now }
        ensures { IfOk result (λ has. has ≡ list_all (λ (p : P). is_ok (substituted self.now p.value)) pairs.now) }
    {
        for pair in pairs {
            if !self.has_value(alloc, pair.value.as_str())? {
                return Ok(false);
            }
        }
        Ok(true)
    }
}
