//! The laws of exits and outcomes: each call promises its law and does nothing.
ghost use Rattle.tk_outcome.specs.Laws.{ExitsAreWalked, GatheredAreResults, EndsFit, NoneIsLeftOut};

/// The exits of a held pod are a walk through its plan, as the row of its EndPod asks.
pub fn exits_are_walked()
    ensures { ExitsAreWalked }
{}

/// Gathered results are declared ones, each once and with a value of its type.
pub fn gathered_are_results()
    ensures { GatheredAreResults }
{}

/// An outcome by walk and results is one that the row of the pod's EndPod allows.
pub fn ends_fit()
    ensures { EndsFit }
{}

/// Where the names of declared results differ, none is left out.
pub fn none_is_left_out()
    ensures { NoneIsLeftOut }
{}
