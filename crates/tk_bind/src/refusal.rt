ghost use Rattle.std.specs.Prelude.{◌≡◌};
ghost use Rattle.tk_bind.specs.declared.refusal.BindError.TheVariants.{Memory as BindMemory};
ghost use Rattle.tk_bind.specs.declared.refusal.CheckError.TheVariants.{Memory as CheckMemory};
ghost use Rattle.tk_bind.specs.declared.refusal.SubstituteError.TheVariants.{Memory as SubstituteMemory};

use std::alloc::AllocError;
use tk_types::Text;

/// Why wanted parameters aren't bound: the first one that has no value, or lacks a declared key, or has a value of
/// another type.
#[derive(Drop)]
pub enum BindError {
    Missing { name: Text },
    WrongKind { name: Text },
    Memory,
}

/// Why a text may not stand in a scope: the byte offset where a reference must stand and none does, the first reference
/// to what isn't visible, or the first one that is used against its type, as written.
#[derive(Drop)]
pub enum CheckError {
    BadReference { offset: u64 },
    Unknown { reference: Text },
    WrongType { reference: Text },
    Memory,
}

/// Why a text has no value: its first reference without one, as written.
#[derive(Drop)]
pub enum SubstituteError {
    Unavailable { reference: Text },
    Memory,
}

impl From<AllocError> for BindError {
    ghost from_gives = { λ _ e. e ≡ BindMemory };

    fn from(_e: AllocError) -> BindError {
        BindError::Memory
    }
}

impl From<AllocError> for CheckError {
    ghost from_gives = { λ _ e. e ≡ CheckMemory };

    fn from(_e: AllocError) -> CheckError {
        CheckError::Memory
    }
}

impl From<AllocError> for SubstituteError {
    ghost from_gives = { λ _ e. e ≡ SubstituteMemory };

    fn from(_e: AllocError) -> SubstituteError {
        SubstituteError::Memory
    }
}
