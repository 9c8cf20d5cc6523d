ghost use Rattle.std.specs.Prelude.{◌≡◌, IfOk, option_map};
ghost use Rattle.serde_json.specs.View.{items_view, members_view, view};
ghost use Rattle.tk_results.specs.Read.{elements, list_of, members, object_of, pair_of, pairs_of, texts_of};

use serde_json::{Map, Value};
use std::alloc::{AllocError, Global};
use tk_types::{List, Pair, Text};

/// The texts that JSON values are, if all are strings.
fn texts_of(alloc: Global, items: &[Value]) -> Result<Option<List<Text>>, AllocError>
    ensures { IfOk result (λ texts. texts ≡ texts_of (elements (items_view items.now))) }
{
    let mut texts = List::new(alloc);
    for item in items {
        match item.as_str() {
            Some(text) => texts.push(Text::from_str(alloc, text)?)?,
            None => return Ok(None),
        }
    }
    Ok(Some(texts))
}

/// The pair that a member of an object is, if its value is a string.
fn pair_of(alloc: Global, key: &str, value: &Value) -> Result<Option<Pair>, AllocError>
    ensures { IfOk result (λ pair. pair ≡ pair_of (key.now, view value.now)) }
{
    match value.as_str() {
        Some(text) => Ok(Some(Pair {
            key: Text::from_str(alloc, key)?,
            value: Text::from_str(alloc, text)?,
        })),
        None => Ok(None),
    }
}

/// The pairs that the members of an object are, if all values are strings.
fn pairs_of(alloc: Global, object: &Map<String, Value>) -> Result<Option<List<Pair>>, AllocError>
    ensures { IfOk result (λ pairs. pairs ≡ pairs_of (members (members_view object.now.entries))) }
{
    let mut pairs = List::new(alloc);
    for (key, value) in object.iter() {
        match pair_of(alloc, key.as_str(), value)? {
            Some(pair) => pairs.push(pair)?,
            None => return Ok(None),
        }
    }
    Ok(Some(pairs))
}

/// The texts of a JSON array of strings.
pub(crate) fn list_of(alloc: Global, json: &Value) -> Result<Option<List<Text>>, AllocError>
    ensures { IfOk result (λ texts. texts ≡ list_of (view json.now)) }
{
    match json.as_array() {
        Some(items) => texts_of(alloc, items.as_slice()),
        None => Ok(None),
    }
}

/// The pairs of a JSON object of strings.
pub(crate) fn object_of(alloc: Global, json: &Value) -> Result<Option<List<Pair>>, AllocError>
    ensures { IfOk result (λ pairs. pairs ≡ object_of (view json.now)) }
{
    match json.as_object() {
        Some(object) => pairs_of(alloc, object),
        None => Ok(None),
    }
}
