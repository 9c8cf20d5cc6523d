ghost use Rattle.std.specs.Prelude.{◌≡◌, [], ◌∷◌, codes, map};
ghost use Rattle.serde_json.specs.View.{view};
ghost use Rattle.tk_types.specs.Place.{root};
ghost use Rattle.tk_types.specs.First.{first_in};
ghost use Rattle.tk_types.specs.Rejected.{Reads};
ghost use Rattle.tk_manifest.specs.Item.{headed, headed_at, item};
ghost use Rattle.tk_manifest.specs.Input.{body, body_of, items_from, list, list_items, list_items_of, list_keys, objects_of, reading_fault, whole, whole_of};

use crate::document::Document;
use crate::item::{Heading, check_version, read_headed, read_heading, read_item};
use crate::kinds::KindSet;
use serde_json::Value as Json;
use std::alloc::Global;
use tk_fields::{check_object, elements_of, field_table};
use tk_types::{Fault, Item, List, Location, Rejected, refusal};

/// The objects of a list, in order.
fn read_items(
    alloc: Global,
    kinds: KindSet,
    items: &[Json],
    place: &Location<'_>,
) -> Result<List<Item>, Rejected>
    ensures { Reads (first_in (item kinds) place.now (map view items.now)) (items_from kinds place.now 0 (map view items.now)) result }
{
    let mut objects = List::new(alloc);
    for item in items {
        let index = objects.len() as u64;
        objects.push(read_item(alloc, kinds, index, item, &(&*place).at(index))?)?;
    }
    Ok(objects)
}

/// Refuses what is no object with the keys of a list.
#[tactic(auto, unfolding(crate::specs::Input::list_keys))]
fn check_list(alloc: Global, value: &Json, place: &Location<'_>) -> Result<(), Rejected>
    ensures { Reads (list_keys place.now (view value.now)) tt result }
{
    let table = field_table!(Used "apiVersion" "kind" "items", Ignored "metadata");
    check_object(alloc, value, &table, place)
}

/// The objects of a list's field `items`.
#[tactic(auto, unfolding(crate::specs::Input::list_items, crate::specs::Input::list_items_of, tk_fields::specs::Shape::field_finding))]
fn read_list_items(
    alloc: Global,
    kinds: KindSet,
    value: &Json,
    place: &Location<'_>,
) -> Result<List<Item>, Rejected>
    ensures { Reads (list_items kinds place.now (view value.now)) (list_items_of kinds place.now (view value.now)) result }
{
    let Some(items) = value.get("items") else {
        return Err(refusal(alloc, Fault::MISSING_FIELD, &place.key("items")));
    };
    match elements_of(items) {
        Some(items) => read_items(alloc, kinds, items, &place.key("items")),
        None => Err(refusal(alloc, Fault::WRONG_SHAPE, &place.key("items"))),
    }
}

/// The objects of a list.
#[tactic(auto, unfolding(crate::specs::Input::list))]
fn read_list(
    alloc: Global,
    kinds: KindSet,
    heading: &Heading,
    value: &Json,
    place: &Location<'_>,
) -> Result<List<Item>, Rejected>
    ensures { Reads (list kinds heading.now place.now (view value.now)) (list_items_of kinds place.now (view value.now)) result }
{
    check_version(alloc, "v1", heading.version.as_str(), place)?;
    check_list(alloc, value, place)?;
    Ok(read_list_items(alloc, kinds, value, place)?)
}

/// The list of one object.
fn read_single(
    alloc: Global,
    kinds: KindSet,
    heading: &Heading,
    value: &Json,
    place: &Location<'_>,
) -> Result<List<Item>, Rejected>
    ensures { Reads (headed kinds heading.now place.now (view value.now)) (headed_at kinds heading.now place.now 0 (view value.now) ∷ []) result }
{
    let item = read_headed(alloc, kinds, heading, 0, value, place)?;
    let mut objects = List::new(alloc);
    objects.push(item)?;
    Ok(objects)
}

/// The objects of a list, or the list of one object.
#[tactic(auto, unfolding(crate::specs::Input::body, crate::specs::Input::body_of))]
fn read_body(
    alloc: Global,
    kinds: KindSet,
    heading: &Heading,
    value: &Json,
    place: &Location<'_>,
) -> Result<List<Item>, Rejected>
    ensures { Reads (body kinds heading.now place.now (view value.now)) (body_of kinds heading.now place.now (view value.now)) result }
{
    if heading.kind.as_str() == "List" {
        read_list(alloc, kinds, heading, value, place)
    } else {
        read_single(alloc, kinds, heading, value, place)
    }
}

/// The objects of the whole input.
#[tactic(auto, unfolding(crate::specs::Input::whole, crate::specs::Input::whole_of))]
fn read_whole(alloc: Global, kinds: KindSet, value: &Json) -> Result<List<Item>, Rejected>
    ensures { Reads (whole kinds root (view value.now)) (whole_of kinds (view value.now)) result }
{
    let place = Location::root();
    let heading = read_heading(alloc, value, &place)?;
    Ok(read_body(alloc, kinds, &heading, value, &place)?)
}

/// The objects of an input, or what is wrong with it first. It is `TooLong` above 8,388,608 bytes, before anything is
/// parsed, and `BadJson` where it is no text of JSON, which is one that nests deeper than 127 too. Then it is one
/// object, or a List of objects in order. Of an object its version and kind go first, then its keys, then its fields.
/// The only other error is want of memory.
pub fn read_objects(
    alloc: Global,
    document: &Document<'_>,
    kinds: KindSet,
) -> Result<List<Item>, Rejected>
    ensures { Reads (reading_fault kinds document.now) (objects_of kinds document.now) result }
{
    if document.is_too_long() {
        return Err(refusal(alloc, Fault::TOO_LONG, &Location::root()));
    }
    match document.json() {
        Some(value) => read_whole(alloc, kinds, value),
        None => Err(refusal(alloc, Fault::BAD_JSON, &Location::root())),
    }
}
