ghost use Rattle.std.specs.Prelude.{◌≡◌, All, IfOk, Some, option_map};
ghost use Rattle.tk_types.specs.declared.value.Pair.{Pair as P};
ghost use Rattle.tk_vars.specs.Reading.{HasReading, pieces_of};
ghost use Rattle.tk_bind.specs.Found.{found_value};
ghost use Rattle.tk_bind.specs.Readings.{ReadsValue, ReadsParam, ReadsParams};
ghost use Rattle.tk_shape.specs.Shape.{shape_of};
ghost use Rattle.tk_shape.specs.ShapeEnv.{reference_shape, shape_env};
ghost use Rattle.tk_shape.specs.Substituted.{element_count, list_count, pairs_shape, param_shapes, pieces_shape, shape_in, substituted_shape, texts_count};

use crate::named::NamedShape;
use crate::presence::{have_pairs, have_texts};
use crate::shape::Shape;
use std::alloc::{AllocError, Global};
use tk_bind::{Found, Lookup};
use tk_types::{Pair, Param, Text, Value};
use tk_vars::{Reference, known_pieces, whole_of};

/// How long the list is that is found, if it is one.
fn found_count(found: Found<'_>) -> Option<usize>
    ensures { result ≡ list_count (Some (shape_of (found_value found.entry))) }
{
    match found {
        Found::Texts(texts) => Some(texts.len()),
        _ => None,
    }
}

/// How long the list is that a reference takes, if it takes one.
fn list_count(
    alloc: Global,
    lookup: &Lookup,
    reference: &Reference<'_>,
) -> Result<Option<usize>, AllocError>
    ensures { IfOk result (λ count. count ≡ list_count (reference_shape (shape_env lookup.now) reference.now)) }
{
    match lookup.reference_value(alloc, reference)? {
        Some(found) => Ok(found_count(found)),
        None => Ok(None),
    }
}

/// How many texts an element of a list gives, if it has a value.
fn element_count(alloc: Global, lookup: &Lookup, text: &str) -> Result<Option<usize>, AllocError>
    requires { HasReading text.now }
    ensures { IfOk result (λ count. count ≡ element_count (shape_env lookup.now) text.now) }
{
    let pieces = known_pieces(alloc, text)?;
    if let Some(reference) = whole_of(pieces.as_slice()) {
        return list_count(alloc, lookup, reference);
    }
    if have_texts(alloc, lookup, pieces.as_slice())? {
        return Ok(Some(1));
    }
    Ok(None)
}

/// How many texts the elements of a list give, if each has a value.
fn texts_count(alloc: Global, lookup: &Lookup, texts: &[Text]) -> Result<Option<u128>, AllocError>
    requires { All HasReading texts.now }
    ensures { IfOk result (λ count. count ≡ texts_count (shape_env lookup.now) texts.now) }
{
    let mut count: u128 = 0;
    for text in texts {
        match element_count(alloc, lookup, text.as_str())? {
            Some(more) => count += more as u128,
            None => return Ok(None),
        }
    }
    Ok(Some(count))
}

/// The shape of what is found.
fn found_shape(alloc: Global, found: Found<'_>) -> Result<Shape<'_>, AllocError>
    ensures { IfOk result (λ shape. shape ≡ shape_of (found_value found.entry)) }
{
    match found {
        Found::Text(_) => Ok(Shape::one()),
        Found::Texts(texts) => Ok(Shape::many(texts.len() as u128)),
        Found::Pairs(pairs) => Shape::keyed(alloc, pairs),
    }
}

/// The shape of what a reference takes, if it takes something.
fn taken_shape<'s>(
    alloc: Global,
    lookup: &'s Lookup,
    reference: &Reference<'_>,
) -> Result<Option<Shape<'s>>, AllocError>
    ensures { IfOk result (λ shape. shape ≡ reference_shape (shape_env lookup.now) reference.now) }
{
    match lookup.reference_value(alloc, reference)? {
        Some(found) => Ok(Some(found_shape(alloc, found)?)),
        None => Ok(None),
    }
}

/// The shape of the value that a text gives as a value, if it has one.
fn text_shape<'s>(
    alloc: Global,
    lookup: &'s Lookup,
    text: &str,
) -> Result<Option<Shape<'s>>, AllocError>
    requires { HasReading text.now }
    ensures { IfOk result (λ shape. shape ≡ pieces_shape (shape_env lookup.now) (pieces_of text.now)) }
{
    let pieces = known_pieces(alloc, text)?;
    if let Some(reference) = whole_of(pieces.as_slice()) {
        return taken_shape(alloc, lookup, reference);
    }
    if have_texts(alloc, lookup, pieces.as_slice())? {
        return Ok(Some(Shape::one()));
    }
    Ok(None)
}

/// The shape of an object with its texts substituted, if each has a value.
fn pairs_shape<'s>(
    alloc: Global,
    lookup: &Lookup,
    pairs: &'s [Pair],
) -> Result<Option<Shape<'s>>, AllocError>
    requires { All (λ (p : P). HasReading p.value) pairs.now }
    ensures { IfOk result (λ shape. shape ≡ pairs_shape (shape_env lookup.now) pairs.now) }
{
    if have_pairs(alloc, lookup, pairs)? {
        return Ok(Some(Shape::keyed(alloc, pairs)?));
    }
    Ok(None)
}

/// The shape of a value with its references substituted, if each has a value. The only error is want of memory.
pub fn substituted_shape<'s>(
    alloc: Global,
    lookup: &'s Lookup,
    value: &'s Value,
) -> Result<Option<Shape<'s>>, AllocError>
    requires { ReadsValue value.now }
    ensures { IfOk result (λ shape. shape ≡ substituted_shape (shape_env lookup.now) value.now) }
{
    match value {
        Value::Str(text) => text_shape(alloc, lookup, text.as_str()),
        Value::Arr(texts) => match texts_count(alloc, lookup, texts.as_slice())? {
            Some(count) => Ok(Some(Shape::many(count))),
            None => Ok(None),
        },
        Value::Obj(pairs) => pairs_shape(alloc, lookup, pairs.as_slice()),
    }
}

/// The shape of a parameter with the references of its value substituted, if each has a value.
fn shape_in<'s>(
    alloc: Global,
    lookup: &'s Lookup,
    param: &'s Param,
) -> Result<Option<NamedShape<'s>>, AllocError>
    requires { ReadsParam param.now }
    ensures { IfOk result (λ shape. shape ≡ shape_in (shape_env lookup.now) param.now) }
{
    match substituted_shape(alloc, lookup, &param.value)? {
        Some(shape) => Ok(Some(NamedShape::new(param.name.as_str(), shape))),
        None => Ok(None),
    }
}

/// The shapes of parameters with the references of their values substituted, if each has a value: those that tk_bind's
/// `params_in` gives, with no value made. The only error is want of memory.
pub fn param_shapes<'s>(
    alloc: Global,
    lookup: &'s Lookup,
    params: &'s [Param],
) -> Result<Option<Vec<NamedShape<'s>>>, AllocError>
    requires { ReadsParams params.now }
    ensures { IfOk result (λ shapes. option_map (λ made. made.items) shapes ≡ param_shapes (shape_env lookup.now) params.now) }
{
    let mut made = Vec::new(alloc);
    for param in params {
        match shape_in(alloc, lookup, param)? {
            Some(shape) => made.push(shape)?,
            None => return Ok(None),
        }
    }
    Ok(Some(made))
}
