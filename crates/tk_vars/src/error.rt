use std::alloc::{AllocError, AllocFailed};
use thiserror::Error;

/// Why a text was not scanned.
#[derive(Debug, Drop, Error)]
pub enum ScanError {
    /// The byte, from 0, of the first `$` at which a reference must stand and none does.
    #[error("no reference stands at byte {offset}, where one must")]
    BadReference { offset: u64 },
    /// Want of memory, which says nothing of the text.
    #[error("out of memory")]
    Memory,
}

impl From<AllocError> for ScanError {
    ghost use Rattle.std.specs.Prelude.{◌≡◌};
    ghost use Rattle.tk_vars.specs.declared.error.ScanError.TheVariants.{Memory};

    ghost from_gives = { λ _ e. e ≡ Memory };

    fn from(_error: AllocError) -> ScanError {
        ScanError::Memory
    }
}

impl<T: Drop> From<AllocFailed<T>> for ScanError {
    ghost use Rattle.std.specs.Prelude.{◌≡◌};
    ghost use Rattle.tk_vars.specs.declared.error.ScanError.TheVariants.{Memory};

    ghost from_gives = { λ _ e. e ≡ Memory };

    fn from(_error: AllocFailed<T>) -> ScanError {
        ScanError::Memory
    }
}
