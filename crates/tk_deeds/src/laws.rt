//! The law of deeds: the call promises it and does nothing.

ghost use Rattle.tk_deeds.specs.Deeds.{DeedsWithinWeight};

/// Entries, and starts and ends of steps, each at most once and of a pod that was made, are together at most the weight.
pub fn deeds_within_weight()
    ensures { DeedsWithinWeight }
{}
