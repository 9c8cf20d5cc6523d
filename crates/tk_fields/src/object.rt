ghost use Rattle.std.specs.Prelude.{◌≡◌, Some, false, map, is_some, IfOk, IfErr};
ghost use Rattle.serde_json.specs.Data.{object as json_object};
ghost use Rattle.serde_json.specs.View.{view, members_view};
ghost use Rattle.tk_types.specs.Fault.{wrong_shape};
ghost use Rattle.tk_types.specs.Rejected.{Reads, IsRefusal};
ghost use Rattle.tk_fields.specs.Get.{is_object};
ghost use Rattle.tk_fields.specs.Keys.{rows_of};
ghost use Rattle.tk_fields.specs.Shape.{just_one as exactly_one, object_by};

use crate::table::{FieldTable, Key, check_fields};
use serde_json::{Map, Value};
use std::alloc::Global;
use tk_types::{Fault, Location, Rejected, refusal};

/// The members of an object; any other value is `WrongShape`.
pub fn object_at<'a>(
    alloc: Global,
    value: &'a Value,
    place: &Location<'_>,
) -> Result<&'a Map<String, Value>, Rejected>
    ensures ok { IfOk result (λ object. view value.now ≡ json_object (members_view object.now.entries)) }
    ensures err { IfErr result (λ e. (is_object (view value.now) ≡ false) × IsRefusal (Some (wrong_shape place.now)) e) }
{
    match value {
        Value::Object(object) => Ok(object),
        _ => Err(refusal(alloc, Fault::WRONG_SHAPE, place)),
    }
}

/// Refuses a value that is no object (`WrongShape`), and then its first key that the table doesn't name
/// (`UnknownField`) or refuses (`Unsupported`).
#[tactic(auto, unfolding(crate::specs::Shape::object_by))]
pub fn check_object<K: Key, const N: usize>(
    alloc: Global,
    value: &Value,
    table: &FieldTable<N, K>,
    place: &Location<'_>,
) -> Result<(), Rejected>
    ensures { Reads (object_by (rows_of (map K.key table.now.names) table.now.roles) place.now (view value.now)) tt result }
{
    let object = object_at(alloc, value, place)?;
    check_fields(alloc, object, table, place)
}

/// Refuses an object with neither of two fields (`MissingField`) and one with both (`BadChoice`), at the second.
#[tactic(auto, unfolding(crate::specs::Shape::just_one))]
pub fn just_one(
    alloc: Global,
    object: &Value,
    place: &Location<'_>,
    first: &str,
    second: &str,
) -> Result<(), Rejected>
    ensures { Reads (exactly_one first.now second.now place.now (view object.now)) tt result }
{
    let number = match (object.get(first), object.get(second)) {
        (None, None) => 5,
        (Some(_), Some(_)) => 11,
        _ => return Ok(()),
    };
    Err(refusal(alloc, number, &place.key(second)))
}
