ghost use Rattle.std.specs.Prelude.{◌≡◌, ◌≤◌, [], length, option_copied, OnOk, OnErr};
ghost use Rattle.tk_journal.specs.Legal.{IsLegal};
ghost use Rattle.tk_cache.specs.Fronts.{Shows, delivered, listed};
ghost use Rattle.tk_cache.specs.Views.{seen};
ghost use Rattle.tk_run_cache.specs.Active.{AreActive};
ghost use Rattle.tk_run_cache.specs.Labelled.{facts_seen, missing_seen};

use crate::labelled_cache::LabelledCache;
use crate::marking::relist;
use std::alloc::{AllocError, Global};
use std::marker::Model;
use tk_cache::{Cache, front_of, next_front};
use tk_journal::Journal;
use tk_labels::Labels;
use tk_places::Places;
use tk_types::{Child, Kind};

/// A cache, the labels of each run that it shows with its children that have no TaskRun, and the places of the runs that can
/// still get an entry. A contract sees the cache.
#[derive(Drop)]
pub struct RunCache {
    alloc: Global,
    cache: LabelledCache,
    active: Places,
}

impl Model for RunCache {
    ghost use Rattle.tk_cache.specs.Views.{Kept, seen};
    ghost use Rattle.tk_run_cache.specs.Active.{AreActive};

    ghost Value = { Kept };

    ghost view = { λ c. c.cache };

    ghost invariant = { λ c. AreActive (seen c.cache).view c.active };
}

impl RunCache {
    /// A cache that has seen nothing, which takes no memory.
    pub fn empty(alloc: Global) -> Self
        ensures { Shows (seen result) [] }
    {
        RunCache {
            alloc,
            cache: LabelledCache::empty(alloc),
            active: Places::new(alloc),
        }
    }

    /// The cache itself.
    pub fn cache(&self) -> &Cache
        ensures { result.now ≡ self.now }
    {
        self.cache.cache()
    }

    /// The labels of a run that the cache shows, None where it shows none of that name.
    pub fn labels(&self, run: &str) -> Option<&Labels>
        ensures { option_copied result ≡ facts_seen (seen self.now).view run.now }
    {
        self.cache.labels(run)
    }

    /// The children of a run that have no TaskRun, as the cache shows them, in the order in which they came. None where it shows
    /// no run of that name.
    pub fn missing(&self, run: &str) -> Option<&[Child]>
        ensures { option_copied result ≡ missing_seen (seen self.now).view run.now }
    {
        self.cache.missing(run)
    }

    /// The places of the runs that can still get an entry: those that aren't closed, or have a recorded stop and an open TaskRun,
    /// as the cache shows them. A place of another one may stand there too.
    pub fn active(&self) -> &Places
        ensures { AreActive (seen self.now).view result.now }
    {
        &self.active
    }

    /// Moves the kind's front past so many entries more of it. The only error is want of memory; the cache is then empty.
    pub fn deliver(&mut self, journal: &Journal, kind: Kind, n: u64) -> Result<(), AllocError>
        requires legal { IsLegal journal.now.history }
        requires shows { Shows (seen self.old) journal.now.history }
        ensures fronts { OnOk result (self.new.fronts ≡ delivered kind n self.old.fronts journal.now.history) }
        ensures shows { OnOk result (Shows (seen self.new) journal.now.history) }
        ensures err { OnErr result (Shows (seen self.new) []) }
    {
        let front = front_of(kind, self.cache.cache().front());
        self.relist(journal, kind, next_front(journal, kind, n, front))
    }

    /// Puts the kind's front at a position, be it an older one. The only error is want of memory; the cache is then empty.
    pub fn relist(&mut self, journal: &Journal, kind: Kind, position: u64) -> Result<(), AllocError>
        requires legal { IsLegal journal.now.history }
        requires within { position ≤ length journal.now.history }
        requires shows { Shows (seen self.old) journal.now.history }
        ensures fronts { OnOk result (self.new.fronts ≡ listed kind position self.old.fronts) }
        ensures shows { OnOk result (Shows (seen self.new) journal.now.history) }
        ensures err { OnErr result (Shows (seen self.new) []) }
    {
        let alloc = self.alloc;
        let listed = relist(
            alloc,
            &mut self.cache,
            &mut self.active,
            journal,
            kind,
            position,
        );
        if listed.is_err() {
            self.cache = LabelledCache::empty(alloc);
            self.active = Places::new(alloc);
            return Err(AllocError);
        }
        Ok(())
    }
}
