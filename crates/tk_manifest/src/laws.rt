//! Laws of the definitions that the contracts cite.

ghost use Rattle.std.specs.Prelude.{◌≡◌, ◌++◌, ◌∷◌, List as Items, Some, length, suc, ℕ};
ghost use Rattle.serde_json.specs.Data.{Data};
ghost use Rattle.tk_types.specs.First.{first_in};
ghost use Rattle.tk_types.specs.Place.{Place, ◌#◌};
ghost use Rattle.tk_manifest.specs.Input.{items_from, reading_fault};
ghost use Rattle.tk_manifest.specs.Item.{item, item_at};
ghost use Rattle.tk_manifest.specs.Laws.{AllRight, IsReadingFault};

use crate::kinds::KindSet;
use tk_types::Fault;

/// What is wrong with an input is a fault 1 to 8, 10, 11 or 22, which tells nothing beside its place.
pub fn faults_of_reading()
    ensures { (kinds : KindSet) (bytes : Items ℕ) (fault : Fault) → reading_fault kinds bytes ≡ Some fault → IsReadingFault fault }
{}

/// The objects of a list stand in order, one for each element, at its place and index; what is wrong first with a list
/// is what is wrong first with an object behind those with which nothing is wrong.
pub fn lists_in_order()
    ensures count { (kinds : KindSet) (place : Place) (ds : Items Data) → length (items_from kinds place 0 ds) ≡ length ds }
    ensures object { (kinds : KindSet) (place : Place) (before after : Items Data) (d : Data) → items_from kinds place 0 (before ++ d ∷ after) ≡ items_from kinds place 0 before ++ item_at kinds (place # length before) (length before) d ∷ items_from kinds place (suc (length before)) after }
    ensures fault { (kinds : KindSet) (place : Place) (before after : Items Data) (d : Data) (fault : Fault) → AllRight kinds place 0 before → item kinds (place # length before) d ≡ Some fault → first_in (item kinds) place (before ++ d ∷ after) ≡ Some fault }
{}
