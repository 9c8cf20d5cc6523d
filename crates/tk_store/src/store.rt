ghost use Rattle.std.specs.Prelude.{◌≡◌, ◌≤◌, ◌<◌, ◌↔◌, [], ◌∷◌, ◌+◌, IfOk, IsTrue, length, reverse, true, false};
ghost use Rattle.tk_journal.specs.Effects.{is_create};
ghost use Rattle.tk_journal.specs.History.{version_of};
ghost use Rattle.tk_journal.specs.Legal.{IsLegal, IsStep};
ghost use Rattle.tk_store.specs.Writes.{MayBeTried, IsCreated, IsUpdated, made_at, version_seen};

use crate::answers::{Create, Update};
use crate::index::Index;
use std::alloc::{AllocError, Global};
use std::marker::Model;
use tk_journal::{Admitted, Entry, Journal};
use tk_types::Kind;

/// A legal journal, and the index of its objects, both in room that was reserved. Contracts see it as the entries of the
/// journal, the newest first, and how many entries more take no memory.
#[derive(Drop)]
pub struct Store {
    journal: Journal,
    index: Index,
}

impl Model for Store {
    ghost use Rattle.std.specs.Prelude.{min};
    ghost use Rattle.tk_journal.specs.Legal.{IsLegal};
    ghost use Rattle.tk_store.specs.Index.{IsIndex, index_room};
    ghost use Rattle.tk_store.specs.Writes.{Stored};

    ghost Value = { Stored };

    ghost view = { λ s. record { history = s.journal.history; spare = min s.journal.room (index_room s.index) } };

    ghost invariant = { λ s. IsLegal s.journal.history × IsIndex s.journal.history s.index };
}

impl Store {
    /// The store of what was admitted, with room for as many entries more as its weight. The only error is want of memory.
    pub fn new(alloc: Global, admitted: Admitted) -> Result<Self, AllocError>
        requires legal { IsLegal (reverse admitted.entries) }
        ensures entries { IfOk result (λ store. store.history ≡ reverse admitted.entries) }
        ensures spare { IfOk result (λ store. admitted.weight ≤ store.spare) }
    {
        let Admitted {
            entries,
            weight,
            ..
        } = admitted;
        let entries = entries.into_vec()?;
        match entries.len().checked_add(weight as usize) {
            Some(room) => Store::with_entries(alloc, entries, room),
            None => {
                drop(entries);
                Err(AllocError)
            }
        }
    }

    /// A store of these entries, oldest first, with room for so many in all.
    fn with_entries(alloc: Global, entries: Vec<Entry>, room: usize) -> Result<Self, AllocError>
        requires legal { IsLegal (reverse entries.items) }
        requires room { length entries.items ≤ room }
        ensures entries { IfOk result (λ store. store.history ≡ reverse entries.items) }
        ensures spare { IfOk result (λ store. room ≤ store.spare + length entries.items) }
    {
        let mut store = Store::with_room(alloc, room)?;
        for entry in entries {
            store.add(entry);
        }
        Ok(store)
    }

    /// An empty store with room for so many entries. The only error is want of memory.
    pub fn with_room(alloc: Global, room: usize) -> Result<Self, AllocError>
        ensures empty { IfOk result (λ store. store.history ≡ []) }
        ensures spare { IfOk result (λ store. room ≤ store.spare) }
    {
        Ok(Store {
            journal: Journal::with_room(alloc, room)?,
            index: Index::with_room(alloc, room)?,
        })
    }

    /// How many entries more take no memory.
    pub fn spare(&self) -> usize
        ensures { result ≡ self.now.spare }
    {
        self.journal.room().min(self.index.room())
    }

    /// Whether an object of this kind and name was made.
    pub fn is_there(&self, kind: Kind, name: &str) -> bool
        ensures { IsTrue result ↔ (0 < made_at kind name.now self.now.history) }
    {
        self.index.known(&self.journal, kind, name).is_some()
    }

    /// The version of an object of this kind and name: the position of the last entry that wrote it, 0 where there is none.
    pub fn version(&self, kind: Kind, name: &str) -> u64
        ensures { result ≡ version_of kind name.now self.now.history }
    {
        self.index.version(&self.journal, kind, name)
    }

    /// Adds an entry that goes through at the end, in room that is there.
    pub fn add(&mut self, entry: Entry)
        requires step { IsStep self.old.history entry }
        requires spare { 0 < self.old.spare }
        ensures added { self.new.history ≡ entry ∷ self.old.history }
        ensures spare { self.old.spare ≤ self.new.spare + 1 }
    {
        if entry.act.is_create() {
            self.index.add(&self.journal, &entry);
        } else {
            self.index.write(&self.journal, &entry);
        }
        let _ = self.journal.push(entry);
    }

    /// Adds an entry that makes an object, if the object's name is free.
    pub fn create(&mut self, entry: Entry) -> Create
        requires create { is_create entry.act ≡ true }
        requires tried { MayBeTried self.old.history entry }
        ensures { IsCreated self.old entry result self.new }
    {
        let act = &entry.act;
        if let Some(known) = self.index.known(&self.journal, act.kind(), act.name()) {
            drop(entry);
            return Create::Exists {
                holder: known.made,
                version: known.version,
            };
        }
        if self.spare() == 0 {
            drop(entry);
            return Create::Memory;
        }
        self.add(entry);
        Create::Ok {
            version: self.journal.len(),
        }
    }

    /// Adds an entry that changes an object, if the object still has the expected version, which is the one at the entry's
    /// front.
    pub fn update(&mut self, entry: Entry, expected: u64) -> Update
        requires update { is_create entry.act ≡ false }
        requires tried { MayBeTried self.old.history entry }
        requires expected { expected ≡ version_seen self.old.history entry }
        ensures { IsUpdated self.old entry result self.new }
    {
        let act = &entry.act;
        let found = self.index.version(&self.journal, act.kind(), act.name());
        if found != expected {
            drop(entry);
            return Update::Conflict { found };
        }
        if self.spare() == 0 {
            drop(entry);
            return Update::Memory;
        }
        self.add(entry);
        Update::Ok {
            version: self.journal.len(),
        }
    }

    /// The journal.
    pub fn journal(&self) -> &Journal
        ensures { result.now.history ≡ self.now.history }
    {
        &self.journal
    }

    /// The journal of a store is always legal: a law for whoever holds one, which does nothing.
    pub fn legal(&self)
        ensures { IsLegal self.now.history }
    {
        let _ = &self.journal;
    }

    /// The journal itself.
    pub fn into_journal(self) -> Journal
        ensures { result.history ≡ self.history }
    {
        let Store { journal, .. } = self;
        journal
    }
}
