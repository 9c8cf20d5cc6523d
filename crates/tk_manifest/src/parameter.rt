ghost use Rattle.std.specs.Prelude.{◌≡◌, ◌&&◌, codes};
ghost use Rattle.std.specs.List.{list_any};
ghost use Rattle.serde_json.specs.View.{view};
ghost use Rattle.tk_types.specs.Rejected.{Reads};
ghost use Rattle.tk_names.specs.Rules.{is_dot};
ghost use Rattle.tk_fields.specs.Get.{has, text_at};
ghost use Rattle.tk_manifest.specs.Parameter.{dotted, is_object_type, key_alone, named_value, param, param_of, param_spec, param_spec_keys, param_spec_of, pipeline_result, pipeline_result_keys, properties, property, property_names, task_result, task_result_keys, task_result_of, type_by as type_chosen, type_named, type_words, typed_name, value as value_check, value_of as value_of_data, written_type};

use crate::names::{ParamName, PipelineResultName, TaskResultName};
use serde_json::Value as Json;
use std::alloc::Global;
use tk_fields::{
    AnyText, Each, EachMember, Entry, OneOf, Reader, TextEntry, TextRule, TextThat, Words,
    check_object, field_table, optional, or_empty, required,
};
use tk_types::{
    Fault, List, Location, Param, ParamSpec, ParamType, Rejected, ResultSpec, Text, Value, refusal,
};

/// A value: a string, an array of strings or an object of strings.
pub struct ValueForm;

impl Reader for ValueForm {
    type Out = Value;

    ghost check = { value_check };

    ghost value_of = { value_of_data };

    #[tactic(auto, unfolding(crate::specs::Parameter::value, crate::specs::Parameter::value_of))]
    fn read(alloc: Global, value: &Json, place: &Location<'_>) -> Result<Value, Rejected> {
        match value {
            Json::String(_) => Ok(Value::Str(AnyText::read(alloc, value, place)?)),
            Json::Array(_) => Ok(Value::Arr(Each::<AnyText>::read(alloc, value, place)?)),
            Json::Object(_) => Ok(Value::Obj(EachMember::<TextEntry>::read(alloc, value, place)?)),
            _ => Err(refusal(alloc, Fault::WRONG_SHAPE, place)),
        }
    }
}

/// A name by a rule, and a value: the fields of parameters and of a pipeline's results.
#[tactic(auto, unfolding(crate::specs::Parameter::named_value, crate::specs::Parameter::param_of))]
fn read_named_value<N: TextRule>(
    alloc: Global,
    value: &Json,
    place: &Location<'_>,
) -> Result<Param, Rejected>
    ensures { Reads (named_value N.obeys N.fault_number place.now (view value.now)) (param_of (view value.now)) result }
{
    Ok(Param {
        name: required::<TextThat<N>>(alloc, value, place, "name")?,
        value: required::<ValueForm>(alloc, value, place, "value")?,
    })
}

/// A parameter that is given: its name and its value.
pub struct ParamForm;

impl Reader for ParamForm {
    type Out = Param;

    ghost check = { param };

    ghost value_of = { param_of };

    #[tactic(auto, unfolding(crate::specs::Parameter::param_keys))]
    fn read(alloc: Global, value: &Json, place: &Location<'_>) -> Result<Param, Rejected> {
        check_object(alloc, value, &field_table!(Used "name" "value"), place)?;
        read_named_value::<ParamName>(alloc, value, place)
    }
}

/// Refuses what is no object with the keys of a pipeline's result.
#[tactic(auto, unfolding(crate::specs::Parameter::pipeline_result_keys))]
fn check_pipeline_result(alloc: Global, value: &Json, place: &Location<'_>) -> Result<(), Rejected>
    ensures { Reads (pipeline_result_keys place.now (view value.now)) tt result }
{
    let table = field_table!(Used "name" "value", Ignored "type" "description");
    check_object(alloc, value, &table, place)
}

/// A result of a pipeline: its name and its value (Tekton, Pipelines, Emitting Results from a Pipeline).
pub struct PipelineResultForm;

impl Reader for PipelineResultForm {
    type Out = Param;

    ghost check = { pipeline_result };

    ghost value_of = { param_of };

    fn read(alloc: Global, value: &Json, place: &Location<'_>) -> Result<Param, Rejected> {
        check_pipeline_result(alloc, value, place)?;
        read_named_value::<PipelineResultName>(alloc, value, place)
    }
}

/// The types of parameters and results.
pub struct TypeWords;

impl Words for TypeWords {
    type Meaning = ParamType;

    ghost words = { type_words };

    ghost meaning = { type_named };

    fn meaning_of(word: &str) -> Option<ParamType> {
        match word {
            "string" => Some(ParamType::Str),
            "array" => Some(ParamType::Arr),
            "object" => Some(ParamType::Obj),
            _ => None,
        }
    }
}

/// A declared key of an object, perhaps with a type.
pub struct PropertyForm;

impl Reader for PropertyForm {
    type Out = Option<ParamType>;

    ghost check = { property };

    ghost value_of = { written_type };

    #[tactic(auto, unfolding(crate::specs::Parameter::property))]
    fn read(
        alloc: Global,
        value: &Json,
        place: &Location<'_>,
    ) -> Result<Option<ParamType>, Rejected> {
        let table = field_table!(Used "type", Ignored "description");
        check_object(alloc, value, &table, place)?;
        optional::<OneOf<TypeWords>>(alloc, value, place, "type")
    }
}

/// The key of a property alone.
pub struct PropertyEntry;

impl Entry for PropertyEntry {
    type Form = PropertyForm;

    type Out = Text;

    ghost made = { key_alone };

    fn make(key: Text, _kind: Option<ParamType>) -> Text {
        key
    }
}

/// The type that is written; else `object` where properties are, else the default's, else `string`.
#[tactic(auto, unfolding(crate::specs::Parameter::type_by))]
fn type_by(
    written: Option<ParamType>,
    has_properties: bool,
    default_value: &Option<Value>,
) -> ParamType
    ensures { result ≡ type_chosen written has_properties default_value.now }
{
    match (written, default_value) {
        (Some(kind), _) => kind,
        (None, _) if has_properties => ParamType::Obj,
        (None, Some(value)) => value.kind(),
        (None, None) => ParamType::Str,
    }
}

/// Whether a field is written.
pub fn has_field(value: &Json, key: &str) -> bool
    ensures { result ≡ has key.now (view value.now) }
{
    value.get(key).is_some()
}

/// The declared keys of an object.
#[tactic(auto, unfolding(crate::specs::Parameter::properties, crate::specs::Parameter::property_names))]
fn read_properties(
    alloc: Global,
    value: &Json,
    place: &Location<'_>,
) -> Result<List<Text>, Rejected>
    ensures { Reads (properties place.now (view value.now)) (property_names (view value.now)) result }
{
    or_empty::<EachMember<PropertyEntry>>(alloc, value, place, "properties")
}

/// A name by a rule, perhaps with a type.
#[tactic(auto, unfolding(crate::specs::Parameter::typed_name))]
fn read_typed_name<N: TextRule>(
    alloc: Global,
    value: &Json,
    place: &Location<'_>,
) -> Result<(Text, Option<ParamType>), Rejected>
    ensures { Reads (typed_name N.obeys N.fault_number place.now (view value.now)) (text_at (codes "name") (view value.now), written_type (view value.now)) result }
{
    let name = required::<TextThat<N>>(alloc, value, place, "name")?;
    let written = optional::<OneOf<TypeWords>>(alloc, value, place, "type")?;
    Ok((name, written))
}

/// Whether a type is `object`.
fn is_object(kind: ParamType) -> bool
    ensures { result ≡ is_object_type kind }
{
    matches!(kind, ParamType::Obj)
}

/// Whether a name has a dot.
fn has_dot(name: &str) -> bool
    ensures { result ≡ list_any is_dot name.now }
{
    name.as_bytes().iter().any(|b| *b == b'.')
}

/// Refuses an object parameter whose name has a dot.
#[tactic(auto, unfolding(crate::specs::Parameter::dotted))]
fn check_dots(
    alloc: Global,
    kind: ParamType,
    name: &str,
    place: &Location<'_>,
) -> Result<(), Rejected>
    ensures { Reads (dotted kind name.now place.now) tt result }
{
    if is_object(kind) && has_dot(name) {
        return Err(refusal(alloc, Fault::BAD_NAME, &place.key("name")));
    }
    Ok(())
}

/// Refuses what is no object with the keys of a declared parameter.
#[tactic(auto, unfolding(crate::specs::Parameter::param_spec_keys))]
fn check_param_spec(alloc: Global, value: &Json, place: &Location<'_>) -> Result<(), Rejected>
    ensures { Reads (param_spec_keys place.now (view value.now)) tt result }
{
    let table = field_table!(
        Used "name" "type" "default" "properties",
        Ignored "description",
        Refused "enum",
    );
    check_object(alloc, value, &table, place)
}

/// A parameter that is declared.
pub struct ParamSpecForm;

impl Reader for ParamSpecForm {
    type Out = ParamSpec;

    ghost check = { param_spec };

    ghost value_of = { param_spec_of };

    #[tactic(auto, unfolding(crate::specs::Parameter::param_spec, crate::specs::Parameter::param_spec_of))]
    fn read(alloc: Global, value: &Json, place: &Location<'_>) -> Result<ParamSpec, Rejected> {
        check_param_spec(alloc, value, place)?;
        let (name, written) = read_typed_name::<ParamName>(alloc, value, place)?;
        let default_value = optional::<ValueForm>(alloc, value, place, "default")?;
        let properties = read_properties(alloc, value, place)?;
        let kind = type_by(written, has_field(value, "properties"), &default_value);
        check_dots(alloc, kind, name.as_str(), place)?;
        Ok(ParamSpec {
            name,
            kind,
            default_value,
            properties,
        })
    }
}

/// Refuses what is no object with the keys of a result that a Task declares.
#[tactic(auto, unfolding(crate::specs::Parameter::task_result_keys))]
fn check_task_result(alloc: Global, value: &Json, place: &Location<'_>) -> Result<(), Rejected>
    ensures { Reads (task_result_keys place.now (view value.now)) tt result }
{
    let table = field_table!(
        Used "name" "type" "properties",
        Ignored "description",
        Refused "value",
    );
    check_object(alloc, value, &table, place)
}

/// A result that a Task declares.
pub struct TaskResultForm;

impl Reader for TaskResultForm {
    type Out = ResultSpec;

    ghost check = { task_result };

    ghost value_of = { task_result_of };

    #[tactic(auto, unfolding(crate::specs::Parameter::task_result, crate::specs::Parameter::task_result_of))]
    fn read(alloc: Global, value: &Json, place: &Location<'_>) -> Result<ResultSpec, Rejected> {
        check_task_result(alloc, value, place)?;
        let (name, written) = read_typed_name::<TaskResultName>(alloc, value, place)?;
        let _keys = read_properties(alloc, value, place)?;
        let kind = type_by(written, has_field(value, "properties"), &None);
        Ok(ResultSpec { name, kind })
    }
}
