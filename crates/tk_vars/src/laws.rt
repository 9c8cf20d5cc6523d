//! What holds of every text.

ghost use Rattle.std.specs.Prelude.{◌≡◌, ◌⊎◌, ℕ, List as Items, Some, None};
ghost use Rattle.tk_vars.specs.declared.piece.Piece.{Piece as P};
ghost use Rattle.tk_vars.specs.Offset.{bad_offset};
ghost use Rattle.tk_vars.specs.Reading.{Reads, IsBadOffset, HasReading, pieces_of};

/// A text has at most one reading, and `pieces_of` gives it.
pub fn one_reading()
    ensures { (text : Items ℕ) (pieces : Items P) → Reads text pieces → pieces ≡ pieces_of text }
{}

/// A text has a bad offset exactly where it has no reading.
pub fn reading_or_bad_offset()
    ensures one { (text : Items ℕ) → HasReading text ⊎ ((offset : ℕ) × IsBadOffset text offset) }
    ensures not_both { (text : Items ℕ) (pieces : Items P) (offset : ℕ) → Reads text pieces → ¬ (IsBadOffset text offset) }
{}

/// A text has at most one bad offset, and `bad_offset` gives it.
pub fn one_bad_offset()
    ensures bad { (text : Items ℕ) (offset : ℕ) → IsBadOffset text offset → bad_offset text ≡ Some offset }
    ensures good { (text : Items ℕ) → HasReading text → bad_offset text ≡ None }
{}
