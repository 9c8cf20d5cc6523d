//! Laws of the choice: each call promises its law and does nothing.
ghost use Rattle.tk_taskrec.specs.Laws.{ChoiceIsFirst, NoneIsLeft, SeenIsFit};

/// What the worker finds is justified, and nothing that is justified for it comes before.
pub fn choice_is_first()
    ensures { ChoiceIsFirst }
{}

/// Where it finds nothing, nothing is justified for it.
pub fn none_is_left()
    ensures { NoneIsLeft }
{}

/// What the worker sees of a legal journal is fit to choose from.
pub fn seen_is_fit()
    ensures { SeenIsFit }
{}
