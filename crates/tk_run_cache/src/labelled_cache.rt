ghost use Rattle.std.specs.Prelude.{◌≡◌, ◌≤◌, [], length, option_copied, OnOk, OnErr};
ghost use Rattle.tk_journal.specs.Legal.{IsLegal};
ghost use Rattle.tk_cache.specs.Fronts.{Shows, listed};
ghost use Rattle.tk_cache.specs.Views.{seen};
ghost use Rattle.tk_places.specs.Places.{IsPlaceOf};
ghost use Rattle.tk_run_cache.specs.Labelled.{facts_seen, missing_seen};

use crate::advance::relist;
use crate::follow::{Runs, labels_of, missing_of, place_of};
use indexmap::IndexMap;
use std::alloc::{AllocError, Global};
use std::marker::Model;
use tk_cache::Cache;
use tk_journal::Journal;
use tk_labels::Labels;
use tk_types::{Child, Kind};

/// A cache, and the labels of each run that it shows with its children that have no TaskRun. A contract sees the cache.
#[derive(Drop)]
pub(crate) struct LabelledCache {
    alloc: Global,
    cache: Cache,
    runs: Runs,
}

impl Model for LabelledCache {
    ghost use Rattle.tk_cache.specs.Views.{Kept, seen};
    ghost use Rattle.tk_run_cache.specs.Labelled.{AreLabelled};

    ghost Value = { Kept };

    ghost view = { λ c. c.cache };

    ghost invariant = { λ c. AreLabelled (seen c.cache).view c.runs };
}

impl LabelledCache {
    /// A cache that has seen nothing, which takes no memory.
    pub(crate) fn empty(alloc: Global) -> Self
        ensures { Shows (seen result) [] }
    {
        LabelledCache {
            alloc,
            cache: Cache::empty(alloc),
            runs: IndexMap::new(alloc),
        }
    }

    /// The cache itself.
    pub(crate) fn cache(&self) -> &Cache
        ensures { result.now ≡ self.now }
    {
        &self.cache
    }

    /// The labels of a run that the cache shows, None where it shows none of that name.
    pub(crate) fn labels(&self, run: &str) -> Option<&Labels>
        ensures { option_copied result ≡ facts_seen (seen self.now).view run.now }
    {
        labels_of(&self.runs, run)
    }

    /// The children of a run that have no TaskRun, as the cache shows them, in the order in which they came. None where it shows
    /// no run of that name.
    pub(crate) fn missing(&self, run: &str) -> Option<&[Child]>
        ensures { option_copied result ≡ missing_seen (seen self.now).view run.now }
    {
        missing_of(&self.runs, run)
    }

    /// The place of the run of this name, in order of admission, None where there is none.
    pub(crate) fn place(&self, run: &str) -> Option<u64>
        ensures { IsPlaceOf (seen self.now).view.runs run.now result }
    {
        place_of(&self.runs, run)
    }

    /// Puts the kind's front at a position, be it an older one. The only error is want of memory; the cache is then empty.
    pub(crate) fn relist(
        &mut self,
        journal: &Journal,
        kind: Kind,
        position: u64,
    ) -> Result<(), AllocError>
        requires legal { IsLegal journal.now.history }
        requires within { position ≤ length journal.now.history }
        requires shows { Shows (seen self.old) journal.now.history }
        ensures fronts { OnOk result (self.new.fronts ≡ listed kind position self.old.fronts) }
        ensures shows { OnOk result (Shows (seen self.new) journal.now.history) }
        ensures err { OnErr result (Shows (seen self.new) []) }
    {
        let alloc = self.alloc;
        let listed = relist(
            alloc,
            &mut self.cache,
            &mut self.runs,
            journal,
            kind,
            position,
        );
        if listed.is_err() {
            self.cache = Cache::empty(alloc);
            self.runs = IndexMap::new(alloc);
            return Err(AllocError);
        }
        Ok(())
    }
}
