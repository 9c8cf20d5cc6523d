ghost use Rattle.std.specs.Prelude.{◌≡◌, ◌++◌, IfOk, OnOk, string_bytes};
ghost use Rattle.tk_time.specs.Duration.{part_of, duration_text};

use std::alloc::{AllocError, Global};
use tk_types::Text;

/// The text of a duration of that many milliseconds, as `1h30m`: its parts in `h`, `m`, `s` and `ms` that aren't 0,
/// joined, and `0` for none. The only error is want of memory.
pub fn print_duration(alloc: Global, millis: u64) -> Result<Text, AllocError>
    ensures { IfOk result (λ text. text ≡ duration_text millis) }
{
    if millis == 0 {
        return Text::from_str(alloc, "0");
    }
    let mut text = String::new(alloc);
    push_part(alloc, &mut text, millis / 3_600_000, "h")?;
    push_part(alloc, &mut text, millis / 60_000 % 60, "m")?;
    push_part(alloc, &mut text, millis / 1_000 % 60, "s")?;
    push_part(alloc, &mut text, millis % 1_000, "ms")?;
    Ok(Text::from_string(text))
}

/// Writes a part behind the text, unless its count is 0.
fn push_part(alloc: Global, text: &mut String, count: u64, unit: &str) -> Result<(), AllocError>
    ensures { OnOk result (string_bytes text.new ≡ string_bytes text.old ++ part_of count unit.now) }
{
    if count > 0 {
        text.push_str(count.to_string(alloc)?.as_str())?;
        text.push_str(unit)?;
    }
    Ok(())
}
