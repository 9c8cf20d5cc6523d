ghost use Rattle.std.specs.Prelude.{◌≡◌, IfOk, map};
ghost use Rattle.serde_json.specs.Data.{string};
ghost use Rattle.serde_json.specs.View.{members_view, view};
ghost use Rattle.tk_results.specs.Written.{data_of as data_due, json_text as text_due, members_of as members_due};

use serde_json::{Map, Value as Json};
use std::alloc::{AllocError, Global};
use tk_types::{Pair, Text, Value};

/// The JSON strings of texts.
fn items_of(alloc: Global, texts: &[Text]) -> Result<Vec<Json>, AllocError>
    ensures { IfOk result (λ items. map view items.items ≡ map string texts.now) }
{
    let mut items = Vec::new(alloc);
    for text in texts {
        items.push(Json::try_from_str(alloc, text.as_str())?)?;
    }
    Ok(items)
}

/// The members of a JSON object, of pairs.
fn members_of(alloc: Global, pairs: &[Pair]) -> Result<Map<String, Json>, AllocError>
    ensures { IfOk result (λ members. members_view members.entries ≡ members_due pairs.now) }
{
    let mut members = Map::new(alloc);
    for pair in pairs {
        let value = Json::try_from_str(alloc, pair.value.as_str())?;
        serde_json::put(&mut members, alloc, pair.key.as_str(), value)?;
    }
    Ok(members)
}

/// A value as JSON.
fn data_of(alloc: Global, value: &Value) -> Result<Json, AllocError>
    ensures { IfOk result (λ json. view json ≡ data_due value.now) }
{
    match value {
        Value::Str(text) => Json::try_from_str(alloc, text.as_str()),
        Value::Arr(texts) => Ok(Json::Array(items_of(alloc, texts.as_slice())?)),
        Value::Obj(pairs) => Ok(Json::Object(members_of(alloc, pairs.as_slice())?)),
    }
}

/// A value as compact JSON, as a report prints it: a string, an array of strings or an object of strings, whose members
/// stand in the order of their keys' bytes; of two pairs of one key the last one counts. The only error is want of memory.
pub fn json_text(alloc: Global, value: &Value) -> Result<Text, AllocError>
    ensures { IfOk result (λ text. text ≡ text_due value.now) }
{
    let json = data_of(alloc, value)?;
    Ok(Text::from_string(json.to_string(alloc)?))
}
