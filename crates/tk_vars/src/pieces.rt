ghost use Rattle.std.specs.Prelude.{◌≡◌, ◌==◌, length};

use crate::piece::Piece;
use std::marker::Model;

/// The pieces of a text, that contracts see as a list.
#[derive(Debug, Drop)]
pub struct Pieces<'t> {
    items: Vec<Piece<'t>>,
}

impl<'t> Model for Pieces<'t> {
    ghost use Rattle.std.specs.Prelude.{List};
    ghost use Rattle.tk_vars.specs.declared.piece.Piece.{Piece};

    ghost Value = { List Piece };

    ghost view = { λ l. l.items.items };
}

impl<'t> Pieces<'t> {
    /// These pieces, without a copy.
    pub fn from_vec(items: Vec<Piece<'t>>) -> Self
        ensures { result ≡ items.entry.items }
    {
        Pieces { items }
    }

    /// The pieces themselves, without a copy.
    pub fn into_vec(self) -> Vec<Piece<'t>>
        ensures { result.items ≡ self.entry }
    {
        self.items
    }

    /// The pieces, borrowed.
    pub fn as_slice(&self) -> &[Piece<'t>]
        ensures { result.now ≡ self.now }
    {
        self.items.as_slice()
    }

    /// How many there are.
    pub fn len(&self) -> usize
        ensures { result ≡ length self.now }
    {
        self.items.len()
    }

    /// Whether there are none.
    pub fn is_empty(&self) -> bool
        ensures { result ≡ (length self.now == 0) }
    {
        self.items.is_empty()
    }
}
