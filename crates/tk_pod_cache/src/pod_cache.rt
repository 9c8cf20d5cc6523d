ghost use Rattle.std.specs.Prelude.{◌≡◌, ◌≤◌, [], length, OnOk, OnErr};
ghost use Rattle.tk_journal.specs.Legal.{IsLegal};
ghost use Rattle.tk_cache.specs.Fronts.{Shows, delivered, listed};
ghost use Rattle.tk_cache.specs.Views.{seen};
ghost use Rattle.tk_pod_cache.specs.Marks.{ArePodsMarked};

use crate::advance::relist;
use crate::marks::{PodMarks, no_marks};
use std::alloc::{AllocError, Global};
use std::marker::Model;
use tk_cache::{Cache, front_of, next_front};
use tk_journal::Journal;
use tk_types::Kind;

/// A cache, and the places of the pods that it shows as unclaimed, and as claimed and not ended. A contract sees the cache.
#[derive(Drop)]
pub struct PodCache {
    alloc: Global,
    cache: Cache,
    marks: PodMarks,
}

impl Model for PodCache {
    ghost use Rattle.tk_cache.specs.Views.{Kept, seen};
    ghost use Rattle.tk_pod_cache.specs.Marks.{ArePodsMarked};

    ghost Value = { Kept };

    ghost view = { λ c. c.cache };

    ghost invariant = { λ c. ArePodsMarked (seen c.cache).view c.marks };
}

impl PodCache {
    /// A cache that has seen nothing, which takes no memory.
    pub fn empty(alloc: Global) -> Self
        ensures { Shows (seen result) [] }
    {
        PodCache {
            alloc,
            cache: Cache::empty(alloc),
            marks: no_marks(alloc),
        }
    }

    /// The cache itself.
    pub fn cache(&self) -> &Cache
        ensures { result.now ≡ self.now }
    {
        &self.cache
    }

    /// The places of the pods that nobody claimed, and of those that are claimed and haven't ended, as the cache shows them.
    pub fn marks(&self) -> &PodMarks
        ensures { ArePodsMarked (seen self.now).view result.now }
    {
        &self.marks
    }

    /// Moves the kind's front past so many entries more of it. The only error is want of memory; the cache is then empty.
    pub fn deliver(&mut self, journal: &Journal, kind: Kind, n: u64) -> Result<(), AllocError>
        requires legal { IsLegal journal.now.history }
        requires shows { Shows (seen self.old) journal.now.history }
        ensures fronts { OnOk result (self.new.fronts ≡ delivered kind n self.old.fronts journal.now.history) }
        ensures shows { OnOk result (Shows (seen self.new) journal.now.history) }
        ensures err { OnErr result (Shows (seen self.new) []) }
    {
        let front = front_of(kind, self.cache.front());
        self.relist(journal, kind, next_front(journal, kind, n, front))
    }

    /// Puts the kind's front at a position, be it an older one. The only error is want of memory; the cache is then empty.
    pub fn relist(&mut self, journal: &Journal, kind: Kind, position: u64) -> Result<(), AllocError>
        requires legal { IsLegal journal.now.history }
        requires within { position ≤ length journal.now.history }
        requires shows { Shows (seen self.old) journal.now.history }
        ensures fronts { OnOk result (self.new.fronts ≡ listed kind position self.old.fronts) }
        ensures shows { OnOk result (Shows (seen self.new) journal.now.history) }
        ensures err { OnErr result (Shows (seen self.new) []) }
    {
        let alloc = self.alloc;
        let listed = relist(
            alloc,
            &mut self.cache,
            &mut self.marks,
            journal,
            kind,
            position,
        );
        if listed.is_err() {
            self.cache = Cache::empty(alloc);
            self.marks = no_marks(alloc);
            return Err(AllocError);
        }
        Ok(())
    }
}
