ghost use Rattle.std.specs.Prelude.{◌≡◌, ◌≤◌, [], length, OnOk, OnErr};
ghost use Rattle.tk_journal.specs.Legal.{IsLegal};
ghost use Rattle.tk_cache.specs.Fronts.{Shows, delivered, listed};
ghost use Rattle.tk_cache.specs.Views.{seen};
ghost use Rattle.tk_task_cache.specs.Acting.{AreQueued};

use crate::advance::relist;
use std::alloc::{AllocError, Global};
use std::marker::Model;
use tk_cache::{Cache, front_of, next_front};
use tk_journal::Journal;
use tk_places::Places;
use tk_run_cache::RunCache;
use tk_types::Kind;

/// A run worker's cache, and the places of the TaskRuns that may give rise to an act. A contract sees the cache.
#[derive(Drop)]
pub struct TaskCache {
    alloc: Global,
    cache: RunCache,
    queue: Places,
}

impl Model for TaskCache {
    ghost use Rattle.tk_cache.specs.Views.{Kept, seen};
    ghost use Rattle.tk_task_cache.specs.Acting.{AreQueued};

    ghost Value = { Kept };

    ghost view = { λ c. c.cache };

    ghost invariant = { λ c. AreQueued (seen c.cache).view c.queue };
}

impl TaskCache {
    /// A cache that has seen nothing, which takes no memory.
    pub fn empty(alloc: Global) -> Self
        ensures { Shows (seen result) [] }
    {
        TaskCache {
            alloc,
            cache: RunCache::empty(alloc),
            queue: Places::new(alloc),
        }
    }

    /// The run worker's cache.
    pub fn runs(&self) -> &RunCache
        ensures { result.now ≡ self.now }
    {
        &self.cache
    }

    /// The cache itself.
    pub fn cache(&self) -> &Cache
        ensures { result.now ≡ self.now }
    {
        self.cache.cache()
    }

    /// The places of the TaskRuns that may give rise to an act: those that aren't closed and wait for no pod, as the cache shows
    /// them. A place of another one may stand there too.
    pub fn queue(&self) -> &Places
        ensures { AreQueued (seen self.now).view result.now }
    {
        &self.queue
    }

    /// Moves the kind's front past so many entries more of it. The only error is want of memory; the cache is then empty.
    pub fn deliver(&mut self, journal: &Journal, kind: Kind, n: u64) -> Result<(), AllocError>
        requires legal { IsLegal journal.now.history }
        requires shows { Shows (seen self.old) journal.now.history }
        ensures fronts { OnOk result (self.new.fronts ≡ delivered kind n self.old.fronts journal.now.history) }
        ensures shows { OnOk result (Shows (seen self.new) journal.now.history) }
        ensures err { OnErr result (Shows (seen self.new) []) }
    {
        let front = front_of(kind, self.cache.cache().front());
        self.relist(journal, kind, next_front(journal, kind, n, front))
    }

    /// Puts the kind's front at a position, be it an older one. The only error is want of memory; the cache is then empty.
    pub fn relist(&mut self, journal: &Journal, kind: Kind, position: u64) -> Result<(), AllocError>
        requires legal { IsLegal journal.now.history }
        requires within { position ≤ length journal.now.history }
        requires shows { Shows (seen self.old) journal.now.history }
        ensures fronts { OnOk result (self.new.fronts ≡ listed kind position self.old.fronts) }
        ensures shows { OnOk result (Shows (seen self.new) journal.now.history) }
        ensures err { OnErr result (Shows (seen self.new) []) }
    {
        let alloc = self.alloc;
        let listed = relist(
            alloc,
            &mut self.cache,
            &mut self.queue,
            journal,
            kind,
            position,
        );
        if listed.is_err() {
            self.cache = RunCache::empty(alloc);
            self.queue = Places::new(alloc);
            return Err(AllocError);
        }
        Ok(())
    }
}
