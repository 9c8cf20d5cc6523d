// What the lock's steps keep, in the words of its rule, and what follows for the entries of one owner.
ghost use Rattle.std.specs.Prelude.{◌≡◌, ◌++◌, ℕ, true, List, Option};
ghost use Rattle.atomic_table.specs.Table.{State};
ghost use Rattle.tk_turn.specs.Claims.{Note, Claim, Follows, owns, written_by};
ghost use Rattle.tk_turn.specs.Rule.{TurnRule};
ghost use Rattle.tk_turn.specs.Turns.{IsKept};
ghost use Rattle.tk_turn.specs.Views.{SeatView};

use crate::journaled::Journaled;

/// Whatever the steps lead to meets the rule of the turn lock.
pub fn turn_rule<S: Journaled>()
    ensures { (s : State (Option S) SeatView) → IsKept S.journal s → TurnRule S.journal s }
{}

/// Of a number that a pass owns, a journal that follows the pass has just the entries that the pass had seen.
pub fn own_entries()
    ensures { (c : Claim) (journal : List Note) (n : ℕ) → owns c n ≡ true → Follows c journal → written_by n journal ≡ written_by n c.seen }
{}

/// So behind a turn the entries of such a number are those that the pass had seen, and then those that the turn wrote.
pub fn turn_entries()
    ensures { (c : Claim) (taken new : List Note) (n : ℕ) → owns c n ≡ true → Follows c taken → written_by n (taken ++ new) ≡ written_by n c.seen ++ written_by n new }
{}
