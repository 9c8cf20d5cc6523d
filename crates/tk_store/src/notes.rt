//! A store's journal, as the turn lock sees it.
ghost use Rattle.std.specs.Prelude.{◌≡◌, ◌++◌, List};
ghost use Rattle.tk_journal.specs.declared.entry.Entry.{Entry as AnEntry};
ghost use Rattle.tk_store.specs.Notes.{notes_of};
ghost use Rattle.tk_turn.specs.Claims.{Note};

use crate::store::Store;
use tk_turn::Journaled;

impl Journaled for Store {
    ghost use Rattle.tk_store.specs.Notes.{notes_of};

    ghost journal = { λ store. notes_of store.history };

    fn length(&self) -> u64 {
        self.journal().len()
    }
}

/// Notes say all that the entries say: of one history alone they are the notes, and where they are notes of a history and
/// then others, entries were added to that history, whose notes these are.
pub fn notes_tell_entries()
    ensures same { (history other : List AnEntry) → notes_of history ≡ notes_of other → history ≡ other }
    ensures added { (new history : List AnEntry) → notes_of (new ++ history) ≡ notes_of history ++ notes_of new }
    ensures grown { (history after : List AnEntry) (rest : List Note) → notes_of after ≡ notes_of history ++ rest → (new : List AnEntry) × (after ≡ new ++ history) × (notes_of new ≡ rest) }
{}
