//! The laws: each call promises its law and does nothing.
ghost use Rattle.tk_lives.specs.Laws.{AdmittedHasNoLife, ClaimsStay, FrontsAreLegal, NextLifeIsNew, NextLifeOwnsNothingBefore, TakesOver};

/// No pod of a legal history is claimed by a kubelet in a life that is greater than all that stand in it for its number.
pub fn next_life_is_new()
    ensures { NextLifeIsNew }
{}

/// A claim stays.
pub fn claims_stay()
    ensures { ClaimsStay }
{}

/// What such a life claims wasn't claimed in that history.
pub fn next_life_owns_nothing_before()
    ensures { NextLifeOwnsNothingBefore }
{}

/// A file's entries and an input's Admit entries have no difference exactly where the file has a part of these and nothing
/// else, or all of them and admits no more.
pub fn takes_over()
    ensures { TakesOver }
{}

/// In a history that only admits no life stands, so each kubelet begins in its first one.
pub fn admitted_has_no_life()
    ensures { AdmittedHasNoLife }
{}

/// A front of a legal history is legal.
pub fn fronts_are_legal()
    ensures { FrontsAreLegal }
{}
