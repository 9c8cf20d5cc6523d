ghost use Rattle.std.specs.Prelude.{◌≡◌, ◌^◌, ◌<◌, length, IfOk};
ghost use Rattle.tk_names.specs.Clash.{clash as clash_of};

use std::alloc::{AllocError, Global};
use std::collections::HashMap;
use tk_types::Text;

/// The least place, counted from 0, whose name stood earlier, behind the place at which it stood; None where all
/// names differ. The only error is want of memory. The time is near linear in the number of names.
pub fn clash(alloc: Global, names: &[Text]) -> Result<Option<(u32, u32)>, AllocError>
    requires { length names.now < 2 ^ 32 }
    ensures { IfOk result (λ found. found ≡ clash_of names.now) }
{
    let mut seen: HashMap<&str, u32> = HashMap::new(alloc);
    for (place, name) in names.iter().enumerate() {
        if let Some(earlier) = seen.get(name.as_str()).copied() {
            return Ok(Some((earlier, place as u32)));
        }
        seen.insert(name.as_str(), place as u32)?;
    }
    Ok(None)
}
