//! Texts that `generate` gives beside those that a program in Python made of the same rules.

use std::alloc::Global;
use std::test::Fail;
use tk_gen::generate;

/// A number and a size, and behind `=> ` the length of the text that was made of them and its checksum.
const ROWS: &str = "0 1 => 227 1508775896
0 60 => 5458 129041874
2 10 => 1058 1120522220
3 11 => 1225 1015372456
7 12 => 1200 3112918171
42 30 => 2738 711054488
1000 17 => 1627 3286024600
65536 60 => 5696 4182706044
123456789 45 => 4254 2727688061
2147483647 60 => 5827 3545629530
1 4000 => 378126 1083282693";

/// The bytes as digits to the base 31, modulo 2^32.
fn checksum(bytes: &[u8]) -> u32 {
    let mut sum = 0u32;
    for byte in bytes {
        sum = sum.wrapping_mul(31).wrapping_add(u32::from(*byte));
    }
    sum
}

/// The length and the checksum of the text of a row's number and size.
fn told(alloc: Global, given: &str) -> Result<String, Fail> {
    let (number, size) = given.split_once(' ').unwrap_or((given, ""));
    let text = generate(alloc, number.parse::<u32>()?, size.parse::<u32>()?)?;
    let (length, sum) = (text.len(), checksum(text.as_str().as_bytes()));
    Ok(format!(in alloc; "{length} {sum}")?)
}

#[test]
fn texts_are_those_of_another_program(rt: HostRuntime) -> Result<(), Fail> {
    for row in ROWS.split('\n') {
        let (given, wanted) = row.split_once(" => ").unwrap_or((row, "no answer"));
        assert_eq!(rt; told(rt.alloc(), given)?.as_str(), wanted, "of {given}");
    }
    Ok(())
}
