ghost use Rattle.std.specs.Prelude.{◌≡◌, ◌≤◌, ◌/◌, ◌%◌, ◌∷◌, [], ◌++◌, pos, IfOk, OnOk, string_bytes};
ghost use Rattle.jiff.specs.Words.{epoch_day};
ghost use Rattle.tk_time.specs.Moment.{year_of, month_of, day_of, digit, two, three, four, date_text, clock_text, moment_text, last_moment};

use jiff::ToSpan;
use jiff::civil::{Date, date};
use std::alloc::{AllocError, Global};
use tk_types::Text;

/// The text of a moment, in milliseconds since 1970-01-01T00:00:00.000Z, as `2000-02-29T00:00:00.123Z`, up to the end
/// of the year 9999. The only error is want of memory.
pub fn print_moment(alloc: Global, millis: u64) -> Result<Text, AllocError>
    requires { millis ≤ last_moment }
    ensures { IfOk result (λ text. text ≡ moment_text millis) }
{
    let mut text = String::new(alloc);
    push_date(&mut text, millis / 86_400_000)?;
    text.push_str("T")?;
    push_clock(&mut text, millis)?;
    text.push_str(".")?;
    push_three(&mut text, millis % 1_000)?;
    text.push_str("Z")?;
    Ok(Text::from_string(text))
}

/// Writes the date of a day, counted from 1 January 1970.
fn push_date(text: &mut String, day: u64) -> Result<(), AllocError>
    requires { day ≤ 2932896 }
    ensures { OnOk result (string_bytes text.new ≡ string_bytes text.old ++ date_text (year_of day) (month_of day) (day_of day)) }
{
    let (year, month, day) = parts_of(day);
    push_four(text, year)?;
    text.push_str("-")?;
    push_two(text, month)?;
    text.push_str("-")?;
    push_two(text, day)
}

/// The year, the month and the day of the month of a day, counted from 1 January 1970.
fn parts_of(day: u64) -> (u64, u64, u64)
    requires { day ≤ 2932896 }
    ensures year { result.0 ≡ year_of day }
    ensures month { result.1 ≡ month_of day }
    ensures day { result.2 ≡ day_of day }
{
    let date = date_of(day);
    (
        u64::from(date.year().unsigned_abs()),
        u64::from(date.month().unsigned_abs()),
        u64::from(date.day().unsigned_abs()),
    )
}

/// The date of a day, counted from 1 January 1970.
fn date_of(day: u64) -> Date
    requires { day ≤ 2932896 }
    ensures { epoch_day result ≡ pos day }
{
    date(1970, 1, 1).checked_add((day as i64).days()).unwrap()
}

/// Writes the hour, the minute and the second of a moment.
fn push_clock(text: &mut String, millis: u64) -> Result<(), AllocError>
    ensures { OnOk result (string_bytes text.new ≡ string_bytes text.old ++ clock_text (millis / 3600000 % 24) (millis / 60000 % 60) (millis / 1000 % 60)) }
{
    push_two(text, millis / 3_600_000 % 24)?;
    text.push_str(":")?;
    push_two(text, millis / 60_000 % 60)?;
    text.push_str(":")?;
    push_two(text, millis / 1_000 % 60)
}

/// Writes the last four digits of a number.
fn push_four(text: &mut String, number: u64) -> Result<(), AllocError>
    ensures { OnOk result (string_bytes text.new ≡ string_bytes text.old ++ four number) }
{
    push_digit(text, number / 1_000)?;
    push_three(text, number)
}

/// Writes the last three digits of a number.
fn push_three(text: &mut String, number: u64) -> Result<(), AllocError>
    ensures { OnOk result (string_bytes text.new ≡ string_bytes text.old ++ three number) }
{
    push_digit(text, number / 100)?;
    push_two(text, number)
}

/// Writes the last two digits of a number.
fn push_two(text: &mut String, number: u64) -> Result<(), AllocError>
    ensures { OnOk result (string_bytes text.new ≡ string_bytes text.old ++ two number) }
{
    push_digit(text, number / 10)?;
    push_digit(text, number)
}

/// Writes the last digit of a number.
fn push_digit(text: &mut String, number: u64) -> Result<(), AllocError>
    ensures { OnOk result (string_bytes text.new ≡ string_bytes text.old ++ digit number ∷ []) }
{
    text.push(char::from(b'0' + (number % 10) as u8))
}
