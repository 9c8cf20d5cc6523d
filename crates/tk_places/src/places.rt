ghost use Rattle.std.specs.Prelude.{◌≡◌, [], OnOk, OnErr};
ghost use Rattle.tk_places.specs.Places.{IsNext, IsSet};

use std::alloc::{AllocError, Global};
use std::collections::BTreeSet;
use std::marker::Model;

/// A set of places.
#[derive(Drop)]
pub struct Places {
    set: BTreeSet<u64>,
}

impl Model for Places {
    ghost use Rattle.std.specs.Prelude.{List, ℕ};

    ghost Value = { List ℕ };

    ghost view = { λ p. p.set.keys };
}

impl Places {
    /// The empty set, which takes no memory.
    pub fn new(alloc: Global) -> Places
        ensures { result ≡ [] }
    {
        Places {
            set: BTreeSet::new(alloc),
        }
    }

    /// Puts a place in, or takes it out. The only error is want of memory; nothing changes then.
    pub fn set(&mut self, place: u64, is_in: bool) -> Result<(), AllocError>
        ensures ok { OnOk result (IsSet place is_in self.old self.new) }
        ensures err { OnErr result (self.new ≡ self.old) }
    {
        if is_in {
            self.set.insert(place)?;
        } else {
            self.set.remove(&place);
        }
        Ok(())
    }

    /// The first place of the set from this one on.
    pub fn next(&self, from: u64) -> Option<u64>
        ensures { IsNext from self.now result }
    {
        self.set.range(from..).next().copied()
    }
}
