ghost use Rattle.std.specs.Prelude.{◌≡◌, false, true, map, MatchOption};
ghost use Rattle.serde_json.specs.View.{view};
ghost use Rattle.tk_types.specs.Rejected.{Reads};
ghost use Rattle.tk_types.specs.First.{first_in};
ghost use Rattle.tk_fields.specs.Check.{each, some_of};
ghost use Rattle.tk_fields.specs.Get.{elements, is_array, list_of};

use crate::reader::{OrEmpty, Reader};
use serde_json::Value;
use std::alloc::Global;
use std::marker::PhantomData;
use tk_types::{Fault, List, Location, Rejected, refusal};

/// The elements of an array, and None for any other value.
pub fn elements_of(value: &Value) -> Option<&[Value]>
    ensures { MatchOption result (is_array (view value.now) ≡ false) (λ items. (is_array (view value.now) ≡ true) × (elements (view value.now) ≡ map view items.now)) }
{
    match value.as_array() {
        Some(items) => Some(items.as_slice()),
        None => None,
    }
}

/// What the elements say, each at its index; copies share them.
fn read_elements<R: Reader>(
    alloc: Global,
    items: &[Value],
    place: &Location<'_>,
) -> Result<List<R::Out>, Rejected>
    ensures { Reads (first_in R.check place.now (map view items.now)) (map R.value_of (map view items.now)) result }
{
    let mut values = Vec::new(alloc);
    for item in items {
        let index = values.len() as u64;
        values.push(R::read(alloc, item, &(&*place).at(index))?)?;
    }
    Ok(List::from_vec(values).share(alloc)?)
}

/// An array of any length.
pub struct Each<R>(PhantomData<R>);

impl<R: Reader> Reader for Each<R> {
    type Out = List<R::Out>;

    ghost check = { each R.check };

    ghost value_of = { list_of R.value_of };

    fn read(alloc: Global, value: &Value, place: &Location<'_>) -> Result<List<R::Out>, Rejected> {
        match elements_of(value) {
            Some(items) => read_elements::<R>(alloc, items, place),
            None => Err(refusal(alloc, Fault::WRONG_SHAPE, place)),
        }
    }
}

impl<R: Reader> OrEmpty for Each<R> {
    fn empty(alloc: Global) -> List<R::Out> {
        List::new(alloc)
    }
}

/// An array that isn't empty; an empty one is `MissingField` at it.
pub struct SomeOf<R>(PhantomData<R>);

impl<R: Reader> Reader for SomeOf<R> {
    type Out = List<R::Out>;

    ghost check = { some_of R.check };

    ghost value_of = { list_of R.value_of };

    fn read(alloc: Global, value: &Value, place: &Location<'_>) -> Result<List<R::Out>, Rejected> {
        match elements_of(value) {
            Some([]) => Err(refusal(alloc, Fault::MISSING_FIELD, place)),
            Some(items) => read_elements::<R>(alloc, items, place),
            None => Err(refusal(alloc, Fault::WRONG_SHAPE, place)),
        }
    }
}
