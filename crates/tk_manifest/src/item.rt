ghost use Rattle.std.specs.Prelude.{◌≡◌, IfOk, codes};
ghost use Rattle.serde_json.specs.View.{view};
ghost use Rattle.tk_types.specs.Rejected.{Reads};
ghost use Rattle.tk_fields.specs.Check.{anything, no_object};
ghost use Rattle.tk_fields.specs.Get.{at, text_at};
ghost use Rattle.tk_fields.specs.Shape.{field_finding, required as required_field};
ghost use Rattle.tk_manifest.specs.Item.{accepted, has_version, headed, headed_at, heading, heading_of, item, item_at, kind_stands, kind_text, kind_told, metadata, name_by, naming_of, object, object_at as object_of, object_keys, object_metadata, object_spec, version_stands, version_text};
ghost use Rattle.tk_manifest.specs.Kind.{object_made};

use crate::kinds::{KindSet, ObjectKind, kind_named, read_spec, version_of};
use crate::names::{NamePrefix, ObjectName};
use crate::parameter::has_field;
use serde_json::Value as Json;
use std::alloc::{AllocError, Global};
use tk_fields::{
    AnyText, Reader, TextThat, check_object, field_table, object_at, optional, required,
};
use tk_names::generated;
use tk_types::{Fault, Item, ItemObject, Location, Rejected, Text, place_at, refusal};

/// How many names a prefix can be given.
const GENERATED_NAMES: u64 = 60_466_176;

/// What an object says of itself first.
#[derive(Drop)]
pub struct Heading {
    pub version: Text,
    pub kind: Text,
}

/// Refuses an object without a field.
#[tactic(auto, unfolding(tk_fields::specs::Shape::field_finding))]
fn check_field(alloc: Global, value: &Json, place: &Location<'_>, key: &str) -> Result<(), Rejected>
    ensures { Reads (field_finding place.now (view value.now) (required_field key.now anything)) tt result }
{
    if has_field(value, key) {
        return Ok(());
    }
    Err(refusal(alloc, Fault::MISSING_FIELD, &place.key(key)))
}

/// Refuses an object without a version.
#[tactic(auto, unfolding(crate::specs::Item::version_stands))]
fn check_version_stands(alloc: Global, value: &Json, place: &Location<'_>) -> Result<(), Rejected>
    ensures { Reads (version_stands place.now (view value.now)) tt result }
{
    check_field(alloc, value, place, "apiVersion")
}

/// Refuses an object without a kind.
#[tactic(auto, unfolding(crate::specs::Item::kind_stands))]
fn check_kind_stands(alloc: Global, value: &Json, place: &Location<'_>) -> Result<(), Rejected>
    ensures { Reads (kind_stands place.now (view value.now)) tt result }
{
    check_field(alloc, value, place, "kind")
}

/// The version of an object, which is a text.
#[tactic(auto, unfolding(crate::specs::Item::version_text))]
fn read_version(alloc: Global, value: &Json, place: &Location<'_>) -> Result<Text, Rejected>
    ensures { Reads (version_text place.now (view value.now)) (text_at (codes "apiVersion") (view value.now)) result }
{
    required::<AnyText>(alloc, value, place, "apiVersion")
}

/// The kind of an object, which is a text.
#[tactic(auto, unfolding(crate::specs::Item::kind_text))]
fn read_kind_text(alloc: Global, value: &Json, place: &Location<'_>) -> Result<Text, Rejected>
    ensures { Reads (kind_text place.now (view value.now)) (text_at (codes "kind") (view value.now)) result }
{
    required::<AnyText>(alloc, value, place, "kind")
}

/// Refuses what is no object.
fn check_shape(alloc: Global, value: &Json, place: &Location<'_>) -> Result<(), Rejected>
    ensures { Reads (no_object place.now (view value.now)) tt result }
{
    let _members = object_at(alloc, value, place)?;
    Ok(())
}

/// The version and the kind of an object, which are read before all else.
#[tactic(auto, unfolding(crate::specs::Item::heading, crate::specs::Item::heading_of))]
pub fn read_heading(alloc: Global, value: &Json, place: &Location<'_>) -> Result<Heading, Rejected>
    ensures { Reads (heading place.now (view value.now)) (heading_of (view value.now)) result }
{
    check_shape(alloc, value, place)?;
    check_version_stands(alloc, value, place)?;
    check_kind_stands(alloc, value, place)?;
    Ok(Heading {
        version: read_version(alloc, value, place)?,
        kind: read_kind_text(alloc, value, place)?,
    })
}

/// Refuses another version than the one that is due.
#[tactic(auto, unfolding(crate::specs::Item::has_version))]
pub fn check_version(
    alloc: Global,
    due: &str,
    version: &str,
    place: &Location<'_>,
) -> Result<(), Rejected>
    ensures { Reads (has_version due.now version.now place.now) tt result }
{
    if version == due {
        return Ok(());
    }
    Err(refusal(alloc, Fault::WRONG_VERSION, &place.key("apiVersion")))
}

/// The kind of an object, if it is accepted and the version is the kind's.
#[tactic(auto, unfolding(crate::specs::Item::accepted))]
fn read_kind(
    alloc: Global,
    kinds: KindSet,
    heading: &Heading,
    place: &Location<'_>,
) -> Result<ObjectKind, Rejected>
    ensures { Reads (accepted kinds heading.now place.now) (kind_told kinds heading.now.kind) result }
{
    let Some(kind) = kind_named(kinds, heading.kind.as_str()) else {
        return Err(refusal(alloc, Fault::WRONG_KIND, &place.key("kind")));
    };
    check_version(alloc, version_of(kind), heading.version.as_str(), place)?;
    Ok(kind)
}

/// The name of an object, or the prefix of one that is generated.
#[derive(Drop)]
pub enum Naming {
    Name(Text),
    Prefix(Text),
}

/// An object's metadata, of which its name matters alone.
pub struct MetadataForm;

impl Reader for MetadataForm {
    type Out = Naming;

    ghost check = { metadata };

    ghost value_of = { naming_of };

    #[tactic(auto, unfolding(crate::specs::Item::metadata, crate::specs::Item::metadata_fields, crate::specs::Item::is_named, crate::specs::Item::naming_of))]
    fn read(alloc: Global, value: &Json, place: &Location<'_>) -> Result<Naming, Rejected> {
        check_shape(alloc, value, place)?;
        let name = optional::<TextThat<ObjectName>>(alloc, value, place, "name")?;
        let prefix = optional::<TextThat<NamePrefix>>(alloc, value, place, "generateName")?;
        match (name, prefix) {
            (Some(name), _) => Ok(Naming::Name(name)),
            (None, Some(prefix)) => Ok(Naming::Prefix(prefix)),
            (None, None) => Err(refusal(alloc, Fault::MISSING_FIELD, &place.key("name"))),
        }
    }
}

/// The name of the object at an index of the input. The digits of a generated one begin anew after the last of five.
fn name_at(alloc: Global, naming: Naming, index: u64) -> Result<Text, AllocError>
    ensures { IfOk result (λ name. name ≡ name_by index naming) }
{
    match naming {
        Naming::Name(name) => Ok(name),
        Naming::Prefix(prefix) => generated(
            alloc,
            prefix.as_str(),
            (index % GENERATED_NAMES) as u32,
        ),
    }
}

/// Refuses what is no object with the keys of a Tekton object.
#[tactic(auto, unfolding(crate::specs::Item::object_keys))]
fn check_keys(alloc: Global, value: &Json, place: &Location<'_>) -> Result<(), Rejected>
    ensures { Reads (object_keys place.now (view value.now)) tt result }
{
    let table = field_table!(Used "apiVersion" "kind" "metadata" "spec", Ignored "status");
    check_object(alloc, value, &table, place)
}

/// What an object's metadata says of its name.
#[tactic(auto, unfolding(crate::specs::Item::object_metadata))]
fn read_metadata(alloc: Global, value: &Json, place: &Location<'_>) -> Result<Naming, Rejected>
    ensures { Reads (object_metadata place.now (view value.now)) (naming_of (at (codes "metadata") (view value.now))) result }
{
    required::<MetadataForm>(alloc, value, place, "metadata")
}

/// The object of a kind and a name, from its field `spec`.
#[tactic(auto, unfolding(crate::specs::Item::object_spec, tk_fields::specs::Shape::field_finding))]
fn read_spec_field(
    alloc: Global,
    kind: ObjectKind,
    name: Text,
    value: &Json,
    place: &Location<'_>,
) -> Result<ItemObject, Rejected>
    ensures { Reads (object_spec kind place.now (view value.now)) (object_made kind name (at (codes "spec") (view value.now))) result }
{
    match value.get("spec") {
        Some(spec) => read_spec(alloc, kind, name, spec, &place.key("spec")),
        None => Err(refusal(alloc, Fault::MISSING_FIELD, &place.key("spec"))),
    }
}

/// The object of a kind at an index of the input.
#[tactic(auto, unfolding(crate::specs::Item::object, crate::specs::Item::object_at))]
fn read_object(
    alloc: Global,
    kind: ObjectKind,
    index: u64,
    value: &Json,
    place: &Location<'_>,
) -> Result<ItemObject, Rejected>
    ensures { Reads (object kind place.now (view value.now)) (object_of kind index (view value.now)) result }
{
    check_keys(alloc, value, place)?;
    let naming = read_metadata(alloc, value, place)?;
    let name = name_at(alloc, naming, index)?;
    read_spec_field(alloc, kind, name, value, place)
}

/// The object of a heading, with its place.
#[tactic(auto, unfolding(crate::specs::Item::headed, crate::specs::Item::headed_at))]
pub fn read_headed(
    alloc: Global,
    kinds: KindSet,
    heading: &Heading,
    index: u64,
    value: &Json,
    place: &Location<'_>,
) -> Result<Item, Rejected>
    ensures { Reads (headed kinds heading.now place.now (view value.now)) (headed_at kinds heading.now place.now index (view value.now)) result }
{
    let kind = read_kind(alloc, kinds, heading, place)?;
    let object = read_object(alloc, kind, index, value, place)?;
    Ok(Item {
        place: place_at(alloc, place)?,
        object,
    })
}

/// The object at an index of the input, with its place.
#[tactic(auto, unfolding(crate::specs::Item::item, crate::specs::Item::item_at))]
pub fn read_item(
    alloc: Global,
    kinds: KindSet,
    index: u64,
    value: &Json,
    place: &Location<'_>,
) -> Result<Item, Rejected>
    ensures { Reads (item kinds place.now (view value.now)) (item_at kinds place.now index (view value.now)) result }
{
    let heading = read_heading(alloc, value, place)?;
    Ok(read_headed(alloc, kinds, &heading, index, value, place)?)
}
