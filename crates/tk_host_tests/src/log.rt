//! A journal of pairs, an owner and a value.
ghost use Rattle.std.specs.Prelude.{◌≡◌, ◌++◌, ◌∷◌, [], map, IfOk, MatchBool};
ghost use Rattle.tk_turn.specs.Claims.{whole};
ghost use Rattle.tk_host_tests.specs.Sample.{note_of};

use std::alloc::{AllocError, Global};
use std::test::Fail;
use tk_turn::{Journaled, NewError, Pass, TurnLock};

#[derive(Drop)]
pub(crate) struct Log {
    pub entries: Vec<(u32, u64)>,
}

impl Journaled for Log {
    ghost use Rattle.std.specs.Prelude.{map};
    ghost use Rattle.tk_host_tests.specs.Sample.{note_of};

    ghost journal = { λ s. map note_of s.entries.items };

    fn length(&self) -> u64 {
        self.entries.len() as u64
    }
}

impl Log {
    /// Adds an entry, and answers whether there was memory.
    pub(crate) fn add(&mut self, owner: u32, value: u64) -> bool
        ensures { MatchBool result (self.new.entries.items ≡ self.old.entries.items ++ (owner, value) ∷ []) (self.new.entries.items ≡ self.old.entries.items) }
    {
        self.entries.push((owner, value)).is_ok()
    }

    /// How many entries an owner has, where their values are 0, 1, 2 and so on.
    pub(crate) fn count(&self, owner: u32) -> Option<u64> {
        let mut next = 0u64;
        for entry in &self.entries {
            if entry.0 == owner {
                if entry.1 != next {
                    return None;
                }
                next = next.saturating_add(1);
            }
        }
        Some(next)
    }
}

/// A lock over an empty journal.
pub(crate) fn opened(alloc: Global) -> Result<(TurnLock<Log>, Pass), Fail>
    ensures { IfOk result (λ r. (r.1.lock ≡ r.0) × (r.1.claim ≡ whole [])) }
{
    let log = Log {
        entries: Vec::new(alloc),
    };
    match TurnLock::new(alloc, log) {
        Ok(made) => Ok(made),
        Err(NewError::Memory(_)) => Err(Fail::from(AllocError)),
    }
}
