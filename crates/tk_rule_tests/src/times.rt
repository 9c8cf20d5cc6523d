//! Durations and moments as they are printed.

use std::alloc::{AllocError, Global};
use std::test::Fail;
use tk_time::{print_duration, print_moment};
use tk_types::Text;

/// A form and milliseconds, and behind `=> ` what they are printed as.
const PRINTED: &str = "duration 5400000 => 1h30m
duration 0 => 0
duration 61001 => 1m1s1ms
duration 31536000000 => 8760h
moment 0 => 1970-01-01T00:00:00.000Z
moment 951782400123 => 2000-02-29T00:00:00.123Z
moment 4107542399999 => 2100-02-28T23:59:59.999Z
moment 4107542400000 => 2100-03-01T00:00:00.000Z
moment 4133980799999 => 2100-12-31T23:59:59.999Z
moment 253402300799999 => 9999-12-31T23:59:59.999Z";

/// What the milliseconds of a row are printed as.
fn told(alloc: Global, line: &str) -> Result<Text, AllocError> {
    let (form, millis) = line.split_once(' ').unwrap_or((line, ""));
    let millis = millis.parse::<u64>().unwrap_or(u64::MAX);
    if form == "duration" {
        return print_duration(alloc, millis);
    }
    if millis > 253_402_300_799_999 {
        return Text::from_str(alloc, "no moment");
    }
    print_moment(alloc, millis)
}

#[test]
fn durations_and_moments_are_printed(rt: HostRuntime) -> Result<(), Fail> {
    for row in PRINTED.split('\n') {
        let (line, wanted) = row.split_once(" => ").unwrap_or((row, "no answer"));
        assert_eq!(rt; told(rt.alloc(), line)?.as_str(), wanted, "of {line}");
    }
    Ok(())
}
