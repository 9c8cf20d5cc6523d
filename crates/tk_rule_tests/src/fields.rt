//! A reader of numbers that obey a rule, which no object has.

ghost use Rattle.std.specs.Prelude.{◌&&◌, nat_le};

use serde_json::Value;
use std::alloc::{AllocError, Global};
use std::test::Fail;
use tk_fields::{NumberRule, NumberThat, optional};
use tk_types::{Location, Rejected, Text};

/// 1 to 8.
struct OneToEight;

impl NumberRule for OneToEight {
    ghost obeys = { λ n. nat_le 1 n && nat_le n 8 };

    ghost fault_number = { 11 };

    fn is_obeyed(number: u64) -> bool {
        1 <= number && number <= 8
    }

    fn number() -> u8 {
        11
    }
}

/// Objects, and behind `=> ` what is told of the field `f`.
const NUMBERS: &str = r#"{} => read
{"f": 8} => read
{"f": 9} => rejected 11 BadChoice $.f
{"f": -1} => rejected 2 WrongShape $.f"#;

/// The line of a refusal, and `read` where there is none.
fn told(alloc: Global, value: &Value) -> Result<Text, AllocError> {
    match optional::<NumberThat<OneToEight>>(alloc, value, &Location::root(), "f") {
        Ok(_) => Text::from_str(alloc, "read\n"),
        Err(Rejected::Fault(fault)) => fault.line(alloc),
        Err(Rejected::Memory) => Err(AllocError),
    }
}

#[test]
fn numbers_obey_their_rule(rt: HostRuntime) -> Result<(), Fail> {
    for row in NUMBERS.split('\n') {
        let (text, wanted) = row.split_once(" => ").unwrap_or((row, "no answer"));
        let value = Value::from_str(rt.alloc(), text)?;
        let told = told(rt.alloc(), &value)?;
        assert_eq!(rt; told.as_str().strip_suffix('\n'), Some(wanted), "of {text}");
    }
    Ok(())
}
