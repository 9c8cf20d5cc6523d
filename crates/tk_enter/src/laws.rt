//! Laws of the ends of an entrypoint's program: each promises its law and does nothing.
ghost use Rattle.tk_enter.specs.Laws.{EndsAreApart, NoEndIsUsage, StatusTellsEnd};

/// A status tells how the program ended.
#[tactic(auto, using(crate::proofs::Apart::status_tells_end, crate::proofs::Apart::no_end_is_usage))]
pub fn statuses_tell_ends()
    ensures same { StatusTellsEnd }
    ensures usage { NoEndIsUsage }
{}

/// The ends exclude one another.
#[tactic(auto, using(crate::proofs::Apart::ends_are_apart))]
pub fn ends_are_apart()
    ensures { EndsAreApart }
{}
