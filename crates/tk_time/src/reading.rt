ghost use Rattle.std.specs.Prelude.{◌≡◌, ◌≤◌, ◌<◌, ◌*◌, ◌==◌, length, IfSome, option_map, option_and_then};
ghost use Rattle.std.specs.List.{prefix_len};
ghost use Rattle.std.specs.Char.{is_ascii_digit};
ghost use Rattle.tk_time.specs.Duration.{duration_of, number_of as number, unit_at as unit_in, first_part as part_in, sum_of_parts, within_limit};

/// The greatest duration, a year of 365 days in milliseconds.
const LONGEST: u64 = 31_536_000_000;

/// The milliseconds of a duration as `1h30m`: `0`, or parts of 1 to 11 digits and a unit `h`, `m`, `s` or `ms`, whose
/// sum is at most 31,536,000,000. None where the text isn't of this form, or its sum is over that. It takes no memory
/// (Tekton, PipelineRuns, Configuring a failure timeout).
pub fn read_duration(text: &str) -> Option<u64>
    ensures { result ≡ duration_of text.now }
{
    let bytes = text.as_bytes();
    match bytes {
        [] => None,
        [b'0'] => Some(0),
        [_, ..] => sum_within_limit(bytes),
    }
}

/// The sum of the parts, within the limit.
fn sum_within_limit(text: &[u8]) -> Option<u64>
    ensures { result ≡ option_and_then within_limit (sum_of_parts (length text.now) text.now) }
{
    let mut sum = 0;
    let mut rest = text;
    while !rest.is_empty() {
        let (part, after) = first_part(rest)?;
        sum += part;
        if sum > LONGEST {
            return None;
        }
        rest = after;
    }
    Some(sum)
}

/// The milliseconds of the part that the text begins with, and what follows it.
#[tactic(auto, unfolding(crate::specs::Duration::part_with))]
fn first_part(text: &[u8]) -> Option<(u64, &[u8])>
    ensures value { option_map (λ x. (x.0, x.1.now)) result ≡ part_in text.now }
    ensures bound { IfSome result (λ x. x.0 ≤ 8280000000000000000) }
    ensures shorter { IfSome result (λ x. length x.1.now < length text.now) }
{
    let count = leading_digits(text);
    if count < 1 || 11 < count {
        return None;
    }
    let (digits, after) = text.split_at(count);
    let (millis, rest) = unit_at(after)?;
    Some((number_of(digits) * millis, rest))
}

/// How many digits the text begins with.
fn leading_digits(text: &[u8]) -> usize
    ensures value { result ≡ prefix_len is_ascii_digit text.now }
    ensures within { result ≤ length text.now }
{
    text.iter().take_while(|b| b.is_ascii_digit()).count()
}

/// The number that digits write.
fn number_of(digits: &[u8]) -> u64
    requires { length digits.now ≤ 11 }
    ensures value { result ≡ number digits.now }
    ensures bound { result ≤ 2300000000000 }
{
    let mut number = 0;
    for digit in digits {
        number = number * 10 + u64::from(digit.saturating_sub(b'0'));
    }
    number
}

/// The milliseconds of the unit that the text begins with, and what follows it.
#[tactic(auto, unfolding(crate::specs::Duration::unit_at))]
fn unit_at(text: &[u8]) -> Option<(u64, &[u8])>
    ensures value { option_map (λ x. (x.0, x.1.now)) result ≡ unit_in text.now }
    ensures bound { IfSome result (λ x. x.0 ≤ 3600000) }
    ensures shorter { IfSome result (λ x. length x.1.now < length text.now) }
{
    if text.starts_with(b"h") {
        return Some((3_600_000, &text[1..]));
    }
    if text.starts_with(b"ms") {
        return Some((1, &text[2..]));
    }
    if text.starts_with(b"m") {
        return Some((60_000, &text[1..]));
    }
    if text.starts_with(b"s") {
        return Some((1_000, &text[1..]));
    }
    None
}
