ghost use Rattle.std.specs.Prelude.{◌≡◌, IfErr, IfOk, Ok, option_and_then};
ghost use Rattle.tk_types.specs.Json.{json_of as json_due, text_of as text_due};
ghost use Rattle.tk_results.specs.Read.{IsReadRefusal, fault_of, list_of as list_due, object_of as object_due, result_of, value_of};

use crate::refusal::ReadError;
use crate::strings::{list_of, object_of};
use std::alloc::{AllocError, Global};
use tk_types::{List, Pair, ParamType, Text, Value, json_of, text_of};

/// A text of all the bytes, if they are UTF-8.
fn text_in(alloc: Global, bytes: &[u8]) -> Result<Option<Text>, AllocError>
    ensures { IfOk result (λ text. text ≡ text_due bytes.now) }
{
    match text_of(bytes) {
        Some(text) => Ok(Some(Text::from_str(alloc, text)?)),
        None => Ok(None),
    }
}

/// The texts of bytes that are a JSON array of strings.
fn list_in(alloc: Global, bytes: &[u8]) -> Result<Option<List<Text>>, AllocError>
    ensures { IfOk result (λ texts. texts ≡ option_and_then list_due (json_due bytes.now)) }
{
    match json_of(alloc, bytes)? {
        Some(json) => list_of(alloc, &json),
        None => Ok(None),
    }
}

/// The pairs of bytes that are a JSON object of strings.
fn object_in(alloc: Global, bytes: &[u8]) -> Result<Option<List<Pair>>, AllocError>
    ensures { IfOk result (λ pairs. pairs ≡ option_and_then object_due (json_due bytes.now)) }
{
    match json_of(alloc, bytes)? {
        Some(json) => object_of(alloc, &json),
        None => Ok(None),
    }
}

/// The value of a file of this type, if its bytes are one.
pub(crate) fn value_of(
    alloc: Global,
    kind: ParamType,
    bytes: &[u8],
) -> Result<Option<Value>, AllocError>
    ensures { IfOk result (λ value. value ≡ value_of kind bytes.now) }
{
    match kind {
        ParamType::Str => Ok(text_in(alloc, bytes)?.map(Value::Str)),
        ParamType::Arr => Ok(list_in(alloc, bytes)?.map(Value::Arr)),
        ParamType::Obj => Ok(object_in(alloc, bytes)?.map(Value::Obj)),
    }
}

/// Why a file that is no value of this type is refused.
fn fault_of(kind: ParamType) -> ReadError
    ensures { result ≡ fault_of kind }
{
    match kind {
        ParamType::Str => ReadError::BadText,
        ParamType::Arr => ReadError::BadList,
        ParamType::Obj => ReadError::BadObject,
    }
}

/// The value of a result file by the result's type. A `string` is all bytes of the file, a last newline too, which have
/// to be UTF-8. An `array` is a JSON array of strings, an `object` a JSON object of strings, whose pairs stand in the
/// order of their keys' bytes; of two equal keys the last one counts (Tekton, Tasks, Emitting Results).
pub fn read_result(alloc: Global, kind: ParamType, bytes: &[u8]) -> Result<Value, ReadError>
    ensures read { IfOk result (λ value. result_of kind bytes.now ≡ Ok value) }
    ensures refused { IfErr result (IsReadRefusal (result_of kind bytes.now)) }
{
    match value_of(alloc, kind, bytes)? {
        Some(value) => Ok(value),
        None => Err(fault_of(kind)),
    }
}
