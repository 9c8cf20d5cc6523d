//! The laws of the conditions of a kubelet's turn: each call promises its law and does nothing.
ghost use Rattle.tk_held.specs.Laws.{LegalIsPlaced, LegalIsPlanned, MovesKeep, NothingIsMet, OthersKeep};

/// Each pod of a legal journal has 1 to 32 orders of its own, in the order of their steps, and ended only once claimed.
pub fn legal_is_planned()
    ensures { LegalIsPlanned }
{}

/// The pods of a legal journal whose admitted objects have one root have their files apart from each other.
pub fn legal_is_placed()
    ensures { LegalIsPlaced }
{}

/// The conditions hold for a new kubelet.
pub fn nothing_is_met()
    ensures { NothingIsMet }
{}

/// They hold behind what a turn does for the held pods.
pub fn moves_keep()
    ensures { MovesKeep }
{}

/// They hold behind the entries of all others.
pub fn others_keep()
    ensures { OthersKeep }
{}
