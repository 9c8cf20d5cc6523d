//! Laws of journal files.
ghost use Rattle.std.specs.Prelude.{◌≡◌, List, ℕ};
ghost use Rattle.tk_durable.specs.Damage.{IsDamaged};
ghost use Rattle.tk_durable.specs.Journal.{IsJournal};
ghost use Rattle.tk_journal.specs.declared.entry.Entry.{Entry};

/// A file has one journal at most.
pub fn one_journal()
    ensures { (entries others : List Entry) (file : List ℕ) → IsJournal entries file → IsJournal others file → entries ≡ others }
{}

/// A file that is damaged has none.
pub fn damaged_has_none()
    ensures { (offset : ℕ) (entries : List Entry) (file : List ℕ) → IsDamaged offset file → IsJournal entries file → ⊥ }
{}

/// The gate at fault of a damaged file is one.
pub fn one_damage()
    ensures { (offset other : ℕ) (file : List ℕ) → IsDamaged offset file → IsDamaged other file → offset ≡ other }
{}
