ghost use Rattle.std.specs.Prelude.{◌≡◌, [], ◌∷◌, ◌++◌, All, IfOk, IsTrue, OnOk};
ghost use Rattle.tk_vars.specs.declared.piece.Piece.TheVariants.{Ref};
ghost use Rattle.tk_vars.specs.Reading.{HasReading, is_piece, pieces_of};
ghost use Rattle.tk_resolve.specs.Asks.{Adds, AsksTheSame, IsAlone, IsAsked};
ghost use Rattle.tk_resolve.specs.Due.{seen};

use crate::due::Due;
use std::alloc::{AllocError, Global};
use std::collections::HashMap;
use std::marker::Model;
use tk_vars::{Piece, Reference, ScanError, is_plain, scan};

/// What the references of some texts ask, each by its spelling, with the strictest that was due of it so far. A contract
/// sees what is asked.
#[derive(Drop)]
struct Asks<'t> {
    known: HashMap<&'t str, Due>,
    made: Vec<(Due, &'t str)>,
}

impl<'t> Model for Asks<'t> {
    ghost use Rattle.std.specs.Prelude.{◌≡◌, List as Items, ℕ, Contains, Some, bytes_eq};
    ghost use Rattle.std.specs.HashMap.{get_by};
    ghost use Rattle.tk_resolve.specs.declared.due.Due.{Due as D};
    ghost use Rattle.tk_resolve.specs.Due.{seen};

    ghost Value = { Items (D × Items ℕ) };

    ghost view = { λ asks. seen asks.made.items };

    ghost invariant = { λ asks. (spelling : Items ℕ) (due : D) → get_by (λ k. bytes_eq spelling k.now) asks.known ≡ Some due → Contains (seen asks.made.items) (due, spelling) };
}

impl<'t> Asks<'t> {
    /// Nothing.
    fn new(alloc: Global) -> Self
        ensures { result ≡ [] }
    {
        Asks {
            known: HashMap::new(alloc),
            made: Vec::new(alloc),
        }
    }

    /// Whether as much is asked of a spelling, or more.
    fn is_asked(&self, due: Due, spelling: &str) -> bool
        ensures { IsTrue result → IsAsked self.now due spelling.now }
    {
        match self.known.get(spelling) {
            Some(known) => known.is_as_strict_as(due),
            None => false,
        }
    }

    /// Asks this of a spelling.
    fn ask(&mut self, due: Due, spelling: &'t str) -> Result<(), AllocError>
        ensures { OnOk result (self.new ≡ self.old ++ (due, spelling.now) ∷ []) }
    {
        self.made.push((due, spelling))?;
        self.known.insert(spelling, due)?;
        Ok(())
    }

    /// Adds what a reference asks, unless that is asked.
    fn add_reference(&mut self, due: Due, reference: &Reference<'t>) -> Result<(), AllocError>
        requires { IsAlone reference.now }
        ensures { OnOk result (Adds due (Ref reference.now ∷ []) self.old self.new) }
    {
        let spelling = reference.spelling.as_str();
        if self.is_asked(due, spelling) {
            return Ok(());
        }
        self.ask(due, spelling)
    }

    /// Adds what a piece asks.
    fn add_piece(&mut self, due: Due, piece: &Piece<'t>) -> Result<(), AllocError>
        requires { IsTrue (is_piece piece.now) }
        ensures { OnOk result (Adds due (piece.now ∷ []) self.old self.new) }
    {
        match piece {
            Piece::Plain(_) => Ok(()),
            Piece::Ref(reference) => self.add_reference(due, reference),
        }
    }

    /// Adds what pieces ask.
    fn add_pieces(&mut self, due: Due, pieces: &[Piece<'t>]) -> Result<(), AllocError>
        requires { All (λ piece. IsTrue (is_piece piece)) pieces.now }
        ensures { OnOk result (Adds due pieces.now self.old self.new) }
    {
        for piece in pieces {
            self.add_piece(due, piece)?;
        }
        Ok(())
    }

    /// Adds what a text asks; one without a reading asks nothing.
    fn add_text(&mut self, alloc: Global, due: Due, text: &'t str) -> Result<(), AllocError>
        ensures { OnOk result (HasReading text.now → Adds due (pieces_of text.now) self.old self.new) }
    {
        if is_plain(text) {
            return Ok(());
        }
        match scan(alloc, text) {
            Ok(pieces) => self.add_pieces(due, pieces.as_slice()),
            Err(ScanError::BadReference { .. }) => Ok(()),
            Err(ScanError::Memory) => Err(AllocError),
        }
    }

    /// What is asked.
    fn into_made(self) -> Vec<(Due, &'t str)>
        ensures { seen result.items ≡ self.entry }
    {
        let Asks { known, made } = self;
        drop(known);
        made
    }
}

/// Of texts with what is due of each those that ask the same: each of their references by its spelling, once for what
/// is due of it unless something stricter was due before. The only error is want of memory.
pub(crate) fn asks_of<'t>(
    alloc: Global,
    texts: &[(Due, &'t str)],
) -> Result<Vec<(Due, &'t str)>, AllocError>
    ensures { IfOk result (λ asks. AsksTheSame (seen texts.now) (seen asks.items)) }
{
    let mut asks = Asks::new(alloc);
    for standing in texts {
        asks.add_text(alloc, standing.0, standing.1)?;
    }
    Ok(asks.into_made())
}
