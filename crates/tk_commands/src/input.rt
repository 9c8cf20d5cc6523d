ghost use Rattle.std.specs.Prelude.{◌≡◌, ◌≤◌, ◌<◌, IfOk, IfSome, IsErrOf, OnOk, length, true};
ghost use Rattle.tk_types.specs.Limits.{longest_input};
ghost use Rattle.tk_commands.specs.Unread.{CountsReads};
ghost use Rattle.tk_commands.specs.declared.input.Unread.TheVariants.{Memory};

use std::alloc::{AllocError, Global};
use tk_edge::Source;
use tk_types::LONGEST_INPUT;

/// How many bytes are asked for at once.
const PIECE: usize = 65_536;

/// Why an input isn't read.
#[derive(Clone, Copy, Debug, PartialEq, Eq)]
pub enum Unread {
    Failed,
    TooLong,
    Memory,
}

impl From<AllocError> for Unread {
    ghost from_gives = { λ _ e. e ≡ Memory };

    fn from(_e: AllocError) -> Unread {
        Unread::Memory
    }
}

/// All bytes of an input, read to its end.
pub fn read_all<R: Source>(alloc: Global, input: &mut R) -> Result<Vec<u8>, Unread>
    ensures short { IfOk result (λ bytes. length bytes.items ≤ longest_input) }
    ensures ended { OnOk result (R.ended input.new ≡ true) }
    ensures bytes { IfOk result (λ bytes. IfSome (R.left input.old) (λ left. bytes.items ≡ left)) }
    ensures too_long { IsErrOf result Unread.TooLong → IfSome (R.left input.old) (λ left. longest_input < length left) }
    ensures faults { CountsReads (R.faults input.old) (R.faults input.new) result }
{
    let mut piece = [0u8; PIECE];
    let mut bytes = Vec::new(alloc);
    while bytes.len() <= LONGEST_INPUT {
        let count = match input.read(&mut piece) {
            Ok(count) => count,
            Err(_) => return Err(Unread::Failed),
        };
        if count == 0 {
            return Ok(bytes);
        }
        bytes.extend_from_slice(&piece[..count])?;
    }
    Err(Unread::TooLong)
}
