//! Laws of the definitions that the contracts cite.

ghost use Rattle.std.specs.Prelude.{◌↔◌, ℕ, true, false, List, All, Contains, IsTrue};
ghost use Rattle.tk_types.specs.declared.task.When.{When};
ghost use Rattle.tk_guard.specs.When.{is_met, all_hold, in_values, not_in_values};

/// An expression with `in` is met exactly where the input is one of the values, one with `notin` exactly where it
/// isn't, and the expressions of a list hold exactly where each one is met.
pub fn expressions()
    ensures member { (input : List ℕ) (values : List (List ℕ)) → IsTrue (is_met (in_values input values)) ↔ Contains values input }
    ensures no_member { (input : List ℕ) (values : List (List ℕ)) → IsTrue (is_met (not_in_values input values)) ↔ (¬ (Contains values input)) }
    ensures each { (guards : List When) → IsTrue (all_hold guards) ↔ All (λ guard. IsTrue (is_met guard)) guards }
{}
