//! Laws of fronts: each call promises its law and does nothing.
ghost use Rattle.tk_cache.specs.Fronts.{DeliveredIsAllowed, Grown, ListedIsAllowed, NothingShows};
ghost use Rattle.tk_cache.specs.Passed.{FrontsDecide, OnePasses};

/// A delivery of n entries lets at most n more stand at or before the front.
pub fn delivered_is_allowed()
    ensures { DeliveredIsAllowed }
{}

/// At most as many entries stand at or before a front as its position says.
pub fn listed_is_allowed()
    ensures { ListedIsAllowed }
{}

/// What shows an empty journal shows each journal, of which it has seen nothing.
pub fn nothing_shows()
    ensures { NothingShows }
{}

/// What shows a journal still shows it once it has grown.
pub fn grown()
    ensures { Grown }
{}

/// Of a kind whose front stands where it stood, all is seen the same.
pub fn fronts_decide()
    ensures { FrontsDecide }
{}

/// A front that goes one position further passes one entry, and of its kind the object that this names alone has changed.
pub fn one_passes()
    ensures { OnePasses }
{}
