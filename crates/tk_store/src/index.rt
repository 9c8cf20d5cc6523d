ghost use Rattle.std.specs.Prelude.{◌≡◌, ◌≤◌, ◌<◌, ◌+◌, ◌^◌, ◌%◌, [], ◌∷◌, length, true, false, IfOk};
ghost use Rattle.tk_journal.specs.Effects.{kind_of, name_of, is_create};
ghost use Rattle.tk_journal.specs.History.{version_of};
ghost use Rattle.tk_store.specs.Index.{hash_of, walk, is_of, AreLinks, IsIndex, IsKnown, index_room};
ghost use Rattle.tk_store.specs.Writes.{made_at};

use std::alloc::{AllocError, Global};
use tk_journal::{Entry, Journal};
use tk_types::Kind;

/// Where an object was made, and the next link of its chain, an older one: its number from 1, or 0.
#[derive(Clone, Copy)]
pub(crate) struct Link {
    pub(crate) made: u64,
    pub(crate) next: u64,
}

/// Where an object was made, and its version: positions in the journal.
#[derive(Clone, Copy)]
pub(crate) struct Known {
    pub(crate) made: u64,
    pub(crate) version: u64,
}

/// The objects of a journal, found by chains of links: a name's hash gives its chain's newest link. Each object has one
/// link, and beside it its version. Names stand in the journal alone.
#[derive(Drop)]
pub(crate) struct Index {
    pub(crate) heads: Vec<u64>,
    pub(crate) links: Vec<Link>,
    pub(crate) versions: Vec<u64>,
}

/// The hash of a name.
fn hash_of(name: &str) -> u64
    ensures value { result ≡ hash_of name.now }
    ensures small { result < 2 ^ 32 }
{
    let mut hash = 0u64;
    for byte in name.as_bytes() {
        hash = (hash * 31 + u64::from(*byte)) % 4294967291;
    }
    hash
}

/// The number of the first link of a chain that is the object's, or 0.
fn found(journal: &Journal, links: &[Link], kind: Kind, name: &str, head: u64) -> u64
    requires head { head ≤ length links.now }
    requires links { AreLinks journal.now.history links.now }
    ensures value { result ≡ walk (is_of journal.now.history kind name.now) links.now (length links.now) head }
    ensures within { result ≤ length links.now }
{
    let mut at = head;
    while at != 0 {
        let link = links[(at - 1) as usize];
        if journal.entry(link.made).writes(kind, name) {
            return at;
        }
        at = link.next;
    }
    0
}

impl Index {
    /// An index of nothing, with room for so many objects.
    pub(crate) fn with_room(alloc: Global, room: usize) -> Result<Index, AllocError>
        ensures empty { IfOk result (λ index. IsIndex [] index) }
        ensures room { IfOk result (λ index. room ≤ index_room index) }
    {
        Ok(Index {
            heads: vec![in alloc; 0; room.max(1)]?,
            links: Vec::with_capacity(alloc, room)?,
            versions: Vec::with_capacity(alloc, room)?,
        })
    }

    /// How many objects more it takes without memory.
    pub(crate) fn room(&self) -> usize
        ensures { result ≡ index_room self.now }
    {
        let links = self.links.capacity() - self.links.len();
        let versions = self.versions.capacity() - self.versions.len();
        links.min(versions)
    }

    /// The place of the head of a name's chain.
    fn bucket(&self, name: &str) -> usize
        requires some { 0 < length self.now.heads.items }
        ensures { result ≡ hash_of name.now % length self.now.heads.items }
    {
        (hash_of(name) % (self.heads.len() as u64)) as usize
    }

    /// An object's version, or 0 where it isn't there.
    pub(crate) fn version(&self, journal: &Journal, kind: Kind, name: &str) -> u64
        requires { IsIndex journal.now.history self.now }
        ensures { result ≡ version_of kind name.now journal.now.history }
    {
        match self.known(journal, kind, name) {
            Some(known) => known.version,
            None => 0,
        }
    }

    /// What is known of an object, if it is there.
    pub(crate) fn known(&self, journal: &Journal, kind: Kind, name: &str) -> Option<Known>
        requires { IsIndex journal.now.history self.now }
        ensures { IsKnown (made_at kind name.now journal.now.history) (version_of kind name.now journal.now.history) result }
    {
        let head = self.heads[self.bucket(name)];
        let number = found(journal, self.links.as_slice(), kind, name, head);
        if number == 0 {
            return None;
        }
        let place = (number - 1) as usize;
        Some(Known {
            made: self.links[place].made,
            version: self.versions[place],
        })
    }

    /// Adds the object that an entry makes at the journal's end, in room that is there.
    pub(crate) fn add(&mut self, journal: &Journal, entry: &Entry)
        requires index { IsIndex journal.now.history self.old }
        requires makes { is_create entry.now.act ≡ true }
        requires room { 0 < index_room self.old }
        ensures index { IsIndex (entry.now ∷ journal.now.history) self.new }
        ensures room { index_room self.old ≤ index_room self.new + 1 }
    {
        let bucket = self.bucket(entry.act.name());
        let made = journal.len() + 1;
        let next = self.heads[bucket];
        let _ = self.links.push(Link { made, next });
        let _ = self.versions.push(made);
        self.heads[bucket] = self.links.len() as u64;
    }

    /// Sets the version of an object that is there, which an entry changes at the journal's end.
    pub(crate) fn write(&mut self, journal: &Journal, entry: &Entry)
        requires index { IsIndex journal.now.history self.old }
        requires there { 0 < made_at (kind_of entry.now.act) (name_of entry.now.act) journal.now.history }
        requires changes { is_create entry.now.act ≡ false }
        ensures index { IsIndex (entry.now ∷ journal.now.history) self.new }
        ensures room { index_room self.new ≡ index_room self.old }
    {
        let head = self.heads[self.bucket(entry.act.name())];
        let links = self.links.as_slice();
        let number = found(journal, links, entry.act.kind(), entry.act.name(), head);
        self.versions[(number - 1) as usize] = journal.len() + 1;
    }
}
