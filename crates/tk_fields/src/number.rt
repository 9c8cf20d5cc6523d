ghost use Rattle.std.specs.Prelude.{◌≡◌, ◌^◌, ◌<◌, Bool, ℕ};
ghost use Rattle.tk_types.specs.Fault.{fault};
ghost use Rattle.tk_types.specs.declared.fault.Detail.TheVariants.{Nothing};
ghost use Rattle.tk_fields.specs.Check.{number_below, number_that, truth};
ghost use Rattle.tk_fields.specs.Get.{number_of, truth_of};

use crate::reader::{OrEmpty, Reader};
use serde_json::Value;
use std::alloc::Global;
use std::marker::PhantomData;
use tk_types::{Fault, Location, Rejected, refusal};

/// A truth value.
pub struct Truth;

impl Reader for Truth {
    type Out = bool;

    ghost check = { truth };

    ghost value_of = { truth_of };

    fn read(alloc: Global, value: &Value, place: &Location<'_>) -> Result<bool, Rejected> {
        match value.as_bool() {
            Some(holds) => Ok(holds),
            None => Err(refusal(alloc, Fault::WRONG_SHAPE, place)),
        }
    }
}

impl OrEmpty for Truth {
    fn empty(_alloc: Global) -> bool {
        false
    }
}

/// A whole number below 2^8.
pub struct Below8;

impl Reader for Below8 {
    type Out = u8;

    ghost check = { number_below (2 ^ 8) };

    ghost value_of = { number_of };

    fn read(alloc: Global, value: &Value, place: &Location<'_>) -> Result<u8, Rejected> {
        match value.as_u64() {
            Some(number) if number < 256 => Ok(number as u8),
            _ => Err(refusal(alloc, Fault::WRONG_SHAPE, place)),
        }
    }
}

/// A whole number below 2^32.
pub struct Below32;

impl Reader for Below32 {
    type Out = u32;

    ghost check = { number_below (2 ^ 32) };

    ghost value_of = { number_of };

    fn read(alloc: Global, value: &Value, place: &Location<'_>) -> Result<u32, Rejected> {
        match value.as_u64() {
            Some(number) if number < 4294967296 => Ok(number as u32),
            _ => Err(refusal(alloc, Fault::WRONG_SHAPE, place)),
        }
    }
}

impl OrEmpty for Below32 {
    fn empty(_alloc: Global) -> u32 {
        0
    }
}

/// A rule for whole numbers, as a range.
pub trait NumberRule {
    /// The numbers that obey it.
    ghost obeys: { ℕ → Bool };

    /// The fault of one that doesn't.
    ghost fault_number: { ℕ };

    /// Whether a number obeys the rule.
    fn is_obeyed(number: u64) -> bool
        ensures { result ≡ obeys number };

    /// The number of the fault that a number is which doesn't.
    fn number() -> u8
        ensures { result ≡ fault_number };
}

/// A whole number that obeys a rule.
pub struct NumberThat<T>(PhantomData<T>);

impl<T: NumberRule> Reader for NumberThat<T> {
    type Out = u64;

    ghost check = { number_that T.obeys (λ place. fault T.fault_number place Nothing) };

    ghost value_of = { number_of };

    fn read(alloc: Global, value: &Value, place: &Location<'_>) -> Result<u64, Rejected> {
        let Some(number) = value.as_u64() else {
            return Err(refusal(alloc, Fault::WRONG_SHAPE, place));
        };
        if !T::is_obeyed(number) {
            return Err(refusal(alloc, T::number(), place));
        }
        Ok(number)
    }
}
