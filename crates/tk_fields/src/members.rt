ghost use Rattle.std.specs.Prelude.{◌≡◌, List as Items, ℕ, false, map};
ghost use Rattle.serde_json.specs.Data.{Data, object as json_object};
ghost use Rattle.serde_json.specs.View.{members_view};
ghost use Rattle.tk_types.specs.Rejected.{Reads};
ghost use Rattle.tk_fields.specs.Check.{each_member, first_member};
ghost use Rattle.tk_fields.specs.Get.{members, members_of, pair};

use crate::reader::{OrEmpty, Reader};
use crate::text::AnyText;
use serde_json::{Map, Value};
use std::alloc::Global;
use std::marker::PhantomData;
use tk_types::{Fault, List, Location, Pair, Rejected, Text, refusal};

/// What a member of an object says, by its key and its value.
pub trait Entry {
    /// The form of the value.
    type Form: Reader;

    /// What the member says.
    type Out: Drop;

    /// What it says.
    ghost made: { Items ℕ → Self.Form.Out → Self.Out };

    /// What it says.
    fn make(key: Text, value: <Self::Form as Reader>::Out) -> Self::Out
        ensures { result ≡ made key value };
}

/// What the members say, in key order, each at its key; copies share them.
fn read_members<E: Entry>(
    alloc: Global,
    object: &Map<String, Value>,
    place: &Location<'_>,
) -> Result<List<E::Out>, Rejected>
    ensures { Reads (first_member E.Form.check place.now (members (json_object (members_view object.now.entries))))
        (members_of E.made E.Form.value_of (json_object (members_view object.now.entries))) result }
{
    let mut values = Vec::new(alloc);
    for (key, value) in object.iter() {
        let read = E::Form::read(alloc, value, &place.key(key.as_str()))?;
        values.push(E::make(Text::from_str(alloc, key.as_str())?, read))?;
    }
    Ok(List::from_vec(values).share(alloc)?)
}

/// An object whose keys may be any, and whose values have one form.
pub struct EachMember<E>(PhantomData<E>);

impl<E: Entry> Reader for EachMember<E> {
    type Out = List<E::Out>;

    ghost check = { each_member E.Form.check };

    ghost value_of = { members_of E.made E.Form.value_of };

    fn read(alloc: Global, value: &Value, place: &Location<'_>) -> Result<List<E::Out>, Rejected> {
        match value {
            Value::Object(object) => read_members::<E>(alloc, object, place),
            _ => Err(refusal(alloc, Fault::WRONG_SHAPE, place)),
        }
    }
}

impl<E: Entry> OrEmpty for EachMember<E> {
    fn empty(alloc: Global) -> List<E::Out> {
        List::new(alloc)
    }
}

/// A text under any key.
pub struct TextEntry;

impl Entry for TextEntry {
    type Form = AnyText;

    type Out = Pair;

    ghost made = { pair };

    fn make(key: Text, value: Text) -> Pair {
        Pair { key, value }
    }
}
