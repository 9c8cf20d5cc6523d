//! Laws of the definitions that the contracts cite.

ghost use Rattle.std.specs.Prelude.{◌≡◌};
ghost use Rattle.tk_types.specs.declared.task.Step.{Step};
ghost use Rattle.tk_bind.specs.declared.env.Env.{Env};
ghost use Rattle.tk_bind.specs.Alike.{IsAlike};
ghost use Rattle.tk_bind.specs.Fits.{step_has_values};

/// Whether the texts of a step have values hangs on the keys of the words alone, and not on their texts.
pub fn keys_decide()
    ensures { (a b : Env) (step : Step) → IsAlike a b → step_has_values a step ≡ step_has_values b step }
{}
