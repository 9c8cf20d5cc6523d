//! Laws of the definitions that the contracts cite.

ghost use Rattle.std.specs.Prelude.{◌≡◌, ◌++◌, ◌∷◌, List, ℕ, Some, None};
ghost use Rattle.std.specs.List.{AllByRecursion};
ghost use Rattle.tk_types.specs.Place.{Place};
ghost use Rattle.tk_fields.specs.Keys.{Table, role_of, key_finding, first_bad_key as bad_key, IsFirstBad, IsGood};

use tk_types::Fault;

/// The fault of an object's keys is that of its first bad key: each key before it is named and not refused. There is
/// none exactly where each key is named and not refused.
pub fn first_bad_key()
    ensures bad { (table : Table) (place : Place) (keys : List (List ℕ)) (fault : Fault) → bad_key table place keys ≡ Some fault → IsFirstBad table place keys fault }
    ensures found { (table : Table) (place : Place) (before after : List (List ℕ)) (key : List ℕ) (fault : Fault) → AllByRecursion (IsGood table) before → key_finding place key (role_of table key) ≡ Some fault → bad_key table place (before ++ key ∷ after) ≡ Some fault }
    ensures none { (table : Table) (place : Place) (keys : List (List ℕ)) → bad_key table place keys ≡ None → AllByRecursion (IsGood table) keys }
    ensures good { (table : Table) (place : Place) (keys : List (List ℕ)) → AllByRecursion (IsGood table) keys → bad_key table place keys ≡ None }
{}
