ghost use Rattle.std.specs.Prelude.{◌≡◌, ◌∷◌, ◌≤◌, ◌<◌, ◌^◌, ◌-◌, ◌+◌, [], length, Some, IfOk, OnOk, OnErr};
ghost use Rattle.tk_journal.specs.Journal.{entry_at};

use crate::entry::Entry;
use std::alloc::{AllocError, Global};
use std::marker::Model;

/// A journal that contracts see as its history, the list of its entries with the newest first, and its room.
#[derive(Drop)]
pub struct Journal {
    entries: Vec<Entry>,
}

impl Model for Journal {
    ghost use Rattle.std.specs.Prelude.{reverse, vec_capacity, vec_len, ◌-◌};
    ghost use Rattle.tk_journal.specs.Journal.{Log};

    ghost Value = { Log };

    ghost view = { λ journal. record { history = reverse journal.entries.items; room = vec_capacity journal.entries - vec_len journal.entries } };
}

impl Journal {
    pub fn empty(alloc: Global) -> Self
        ensures { result.history ≡ [] }
    {
        Journal {
            entries: Vec::new(alloc),
        }
    }

    /// An empty journal with room for so many entries.
    pub fn with_room(alloc: Global, room: usize) -> Result<Self, AllocError>
        ensures empty { IfOk result (λ journal. journal.history ≡ []) }
        ensures room { IfOk result (λ journal. room ≤ journal.room) }
    {
        Ok(Journal {
            entries: Vec::with_capacity(alloc, room)?,
        })
    }

    pub fn len(&self) -> u64
        ensures value { result ≡ length self.now.history }
        ensures small { result < 2 ^ 63 }
    {
        self.entries.as_slice().len() as u64
    }

    /// For how many more entries there is room that takes no memory.
    pub fn room(&self) -> usize
        ensures { result ≡ self.now.room }
    {
        self.entries.capacity() - self.entries.len()
    }

    /// Adds an entry; one that there is room for takes no memory. After an error the journal is as before.
    pub fn push(&mut self, entry: Entry) -> Result<(), AllocError>
        ensures ok { OnOk result (self.new.history ≡ entry ∷ self.old.history) }
        ensures room { OnOk result (self.old.room ≤ self.new.room + 1) }
        ensures err { OnErr result (self.new.history ≡ self.old.history) }
        ensures full { OnErr result (self.old.room ≡ 0) }
    {
        if self.entries.push(entry).is_err() {
            return Err(AllocError);
        }
        Ok(())
    }

    /// The entry at a position, counted from 1.
    pub fn entry(&self, position: u64) -> &Entry
        requires from_one { 0 < position }
        requires within { position ≤ length self.now.history }
        ensures { entry_at position self.now.history ≡ Some result.now }
    {
        &self.entries[(position - 1) as usize]
    }
}
