ghost use Rattle.std.specs.Prelude.{◌≡◌};
ghost use Rattle.tk_results.specs.declared.refusal.ReadError.TheVariants.{Memory as ReadMemory};
ghost use Rattle.tk_results.specs.declared.refusal.GatherError.TheVariants.{Memory as GatherMemory};

use std::alloc::AllocError;
use tk_types::Text;

/// Why a result file is no value of its type.
#[derive(Drop)]
pub enum ReadError {
    /// A file of type `string` isn't UTF-8.
    BadText,
    /// A file of type `array` isn't a JSON array of strings.
    BadList,
    /// A file of type `object` isn't a JSON object of strings.
    BadObject,
    /// There was not enough memory.
    Memory,
}

impl From<AllocError> for ReadError {
    ghost from_gives = { λ _ e. e ≡ ReadMemory };

    fn from(_e: AllocError) -> ReadError {
        ReadError::Memory
    }
}

/// Why the results of an attempt aren't gathered.
#[derive(Drop)]
pub enum GatherError {
    /// The files of the declared results hold this many bytes together; more than 2^64 - 1 are given as that number.
    TooMany { bytes: u64 },
    /// The file of this result is the first that is refused.
    Bad { name: Text },
    /// There was not enough memory.
    Memory,
}

impl From<AllocError> for GatherError {
    ghost from_gives = { λ _ e. e ≡ GatherMemory };

    fn from(_e: AllocError) -> GatherError {
        GatherError::Memory
    }
}
