ghost use Rattle.std.specs.Prelude.{◌≡◌};
ghost use Rattle.serde_json.specs.Data.{Data, null};
ghost use Rattle.serde_json.specs.View.{view};
ghost use Rattle.tk_types.specs.Rejected.{Reads};
ghost use Rattle.tk_fields.specs.Check.{Check};
ghost use Rattle.tk_fields.specs.Get.{at, field};
ghost use Rattle.tk_fields.specs.Shape.{field_finding, optional as optional_field, required as required_field};

use serde_json::Value;
use std::alloc::Global;
use tk_types::{Fault, Location, Rejected, refusal};

/// A form of JSON value: which values have it, and what they say. Its reader gives exactly that.
pub trait Reader {
    /// What a value of the form says.
    type Out: Drop;

    /// What is wrong first with a value at a place.
    ghost check: { Check };

    /// What a value says.
    ghost value_of: { Data → Self.Out };

    /// What the value says, or what is wrong with it first. The only other error is want of memory.
    fn read(alloc: Global, value: &Value, place: &Location<'_>) -> Result<Self::Out, Rejected>
        ensures { Reads (check place.now (view value.now)) (value_of (view value.now)) result };
}

/// A form of which an absent field says something: no elements, the empty text, `false`, 0.
pub trait OrEmpty: Reader {
    /// What an absent field says.
    fn empty(alloc: Global) -> Self::Out
        ensures { result ≡ Self.value_of null };
}

/// What a field says that must stand, else `MissingField` at it.
#[tactic(auto, unfolding(crate::specs::Shape::field_finding))]
pub fn required<R: Reader>(
    alloc: Global,
    object: &Value,
    place: &Location<'_>,
    key: &str,
) -> Result<R::Out, Rejected>
    ensures { Reads (field_finding place.now (view object.now) (required_field key.now R.check)) (R.value_of (at key.now (view object.now))) result }
{
    match object.get(key) {
        Some(value) => R::read(alloc, value, &place.key(key)),
        None => Err(refusal(alloc, Fault::MISSING_FIELD, &place.key(key))),
    }
}

/// What a field says, if it stands.
#[tactic(auto, unfolding(crate::specs::Shape::field_finding))]
pub fn optional<R: Reader>(
    alloc: Global,
    object: &Value,
    place: &Location<'_>,
    key: &str,
) -> Result<Option<R::Out>, Rejected>
    ensures { Reads (field_finding place.now (view object.now) (optional_field key.now R.check)) (field R.value_of key.now (view object.now)) result }
{
    match object.get(key) {
        Some(value) => Ok(Some(R::read(alloc, value, &place.key(key))?)),
        None => Ok(None),
    }
}

/// What a field says, where an absent one is empty.
#[tactic(auto, unfolding(crate::specs::Shape::field_finding))]
pub fn or_empty<R: OrEmpty>(
    alloc: Global,
    object: &Value,
    place: &Location<'_>,
    key: &str,
) -> Result<R::Out, Rejected>
    ensures { Reads (field_finding place.now (view object.now) (optional_field key.now R.Reader.check)) (R.Reader.value_of (at key.now (view object.now))) result }
{
    match object.get(key) {
        Some(value) => R::read(alloc, value, &place.key(key)),
        None => Ok(R::empty(alloc)),
    }
}
