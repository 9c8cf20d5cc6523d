ghost use Rattle.std.specs.Prelude.{◌≡◌, ◌≤◌, [], List as Items, length, OnOk, OnErr};
ghost use Rattle.tk_types.specs.declared.scenario.Kind.TheVariants.{Runs, TaskRuns, Pods};
ghost use Rattle.tk_journal.specs.declared.entry.Entry.{Entry as AnEntry};
ghost use Rattle.tk_journal.specs.History.{front_of};
ghost use Rattle.tk_journal.specs.Legal.{IsLegal};
ghost use Rattle.tk_cache.specs.Fronts.{Shows, delivered, listed, with_front};
ghost use Rattle.tk_cache.specs.Views.{seen};

use crate::advance::{advance_pods, advance_runs, advance_task_runs};
use crate::front::{front_of, next_front};
use crate::objects::Objects;
use indexmap::IndexMap;
use std::alloc::{AllocError, Global};
use std::marker::Model;
use tk_groups::Groups;
use tk_journal::{Fronts, Journal, PodState, RunState, TaskRunState};
use tk_types::Kind;

/// The objects of each kind as they stood at the kind's front, and beside the TaskRuns the runs as they stand at that front,
/// from which a child takes what its run has, and the names of each run's TaskRuns.
#[derive(Drop)]
pub struct Cache {
    alloc: Global,
    pub(crate) fronts: Fronts,
    pub(crate) runs: Objects<RunState>,
    pub(crate) beside: Objects<RunState>,
    pub(crate) task_runs: Objects<TaskRunState>,
    pub(crate) owned: Groups,
    pub(crate) pods: Objects<PodState>,
}

impl Model for Cache {
    ghost use Rattle.tk_cache.specs.Children.{AreOwned};
    ghost use Rattle.tk_cache.specs.Views.{Kept, kept_of};

    ghost Value = { Kept };

    ghost view = { λ c. kept_of c.fronts c.runs c.beside c.task_runs c.pods };

    ghost invariant = { λ c. AreOwned c.task_runs c.owned };
}

impl Cache {
    /// A cache that has seen nothing, which takes no memory.
    pub fn empty(alloc: Global) -> Self
        ensures { Shows (seen result) [] }
    {
        Cache {
            alloc,
            fronts: Fronts {
                runs: 0,
                task_runs: 0,
                pods: 0,
            },
            runs: IndexMap::new(alloc),
            beside: IndexMap::new(alloc),
            task_runs: IndexMap::new(alloc),
            owned: Groups::new(alloc),
            pods: IndexMap::new(alloc),
        }
    }

    /// Moves the kind's front past so many entries more of it. The only error is want of memory; the cache is then empty.
    pub fn deliver(&mut self, journal: &Journal, kind: Kind, n: u64) -> Result<(), AllocError>
        requires legal { IsLegal journal.now.history }
        requires shows { Shows (seen self.old) journal.now.history }
        ensures fronts { OnOk result (self.new.fronts ≡ delivered kind n self.old.fronts journal.now.history) }
        ensures shows { OnOk result (Shows (seen self.new) journal.now.history) }
        ensures err { OnErr result (Shows (seen self.new) []) }
    {
        let to = next_front(journal, kind, n, front_of(kind, self.fronts));
        self.reach(journal, kind, to)
    }

    /// Puts the kind's front at a position, be it an older one. The only error is want of memory; the cache is then empty.
    pub fn relist(&mut self, journal: &Journal, kind: Kind, position: u64) -> Result<(), AllocError>
        requires legal { IsLegal journal.now.history }
        requires within { position ≤ length journal.now.history }
        requires shows { Shows (seen self.old) journal.now.history }
        ensures fronts { OnOk result (self.new.fronts ≡ listed kind position self.old.fronts) }
        ensures shows { OnOk result (Shows (seen self.new) journal.now.history) }
        ensures err { OnErr result (Shows (seen self.new) []) }
    {
        if position < front_of(kind, self.fronts) {
            self.forget(kind);
        }
        self.reach(journal, kind, position)
    }

    /// Puts the kind's front at a position that isn't older. Without memory the cache is empty.
    fn reach(&mut self, journal: &Journal, kind: Kind, to: u64) -> Result<(), AllocError>
        requires legal { IsLegal journal.now.history }
        requires order { front_of kind self.old.fronts ≤ to }
        requires within { to ≤ length journal.now.history }
        requires shows { Shows (seen self.old) journal.now.history }
        ensures fronts { OnOk result (self.new.fronts ≡ with_front kind to self.old.fronts) }
        ensures shows { OnOk result (Shows (seen self.new) journal.now.history) }
        ensures err { OnErr result (Shows (seen self.new) []) }
    {
        if self.advance(journal, kind, to).is_err() {
            *self = Cache::empty(self.alloc);
            return Err(AllocError);
        }
        Ok(())
    }

    /// Puts the kind's front at a position that isn't older. Without memory the cache shows nothing that is known.
    fn advance(&mut self, journal: &Journal, kind: Kind, to: u64) -> Result<(), AllocError>
        requires legal { IsLegal journal.now.history }
        requires order { front_of kind self.old.fronts ≤ to }
        requires within { to ≤ length journal.now.history }
        requires shows { Shows (seen self.old) journal.now.history }
        ensures fronts { OnOk result (self.new.fronts ≡ with_front kind to self.old.fronts) }
        ensures shows { OnOk result (Shows (seen self.new) journal.now.history) }
    {
        match kind {
            Kind::Runs => self.advance_runs(journal, to),
            Kind::TaskRuns => self.advance_task_runs(journal, to),
            Kind::Pods => self.advance_pods(journal, to),
        }
    }

    fn advance_runs(&mut self, journal: &Journal, to: u64) -> Result<(), AllocError>
        requires legal { IsLegal journal.now.history }
        requires order { self.old.fronts.runs ≤ to }
        requires within { to ≤ length journal.now.history }
        requires shows { Shows (seen self.old) journal.now.history }
        ensures fronts { OnOk result (self.new.fronts ≡ with_front Runs to self.old.fronts) }
        ensures shows { OnOk result (Shows (seen self.new) journal.now.history) }
    {
        advance_runs(self.alloc, &mut self.runs, journal, self.fronts.runs, to)?;
        self.fronts.runs = to;
        Ok(())
    }

    fn advance_task_runs(&mut self, journal: &Journal, to: u64) -> Result<(), AllocError>
        requires legal { IsLegal journal.now.history }
        requires order { self.old.fronts.task_runs ≤ to }
        requires within { to ≤ length journal.now.history }
        requires shows { Shows (seen self.old) journal.now.history }
        ensures fronts { OnOk result (self.new.fronts ≡ with_front TaskRuns to self.old.fronts) }
        ensures shows { OnOk result (Shows (seen self.new) journal.now.history) }
    {
        let alloc = self.alloc;
        match advance_task_runs(
            alloc,
            &mut self.task_runs,
            &mut self.owned,
            &mut self.beside,
            journal,
            self.fronts.task_runs,
            to,
        ) {
            Ok(()) => {
                self.fronts.task_runs = to;
                Ok(())
            }
            Err(error) => {
                self.task_runs = IndexMap::new(alloc);
                self.owned = Groups::new(alloc);
                Err(error)
            }
        }
    }

    fn advance_pods(&mut self, journal: &Journal, to: u64) -> Result<(), AllocError>
        requires legal { IsLegal journal.now.history }
        requires order { self.old.fronts.pods ≤ to }
        requires within { to ≤ length journal.now.history }
        requires shows { Shows (seen self.old) journal.now.history }
        ensures fronts { OnOk result (self.new.fronts ≡ with_front Pods to self.old.fronts) }
        ensures shows { OnOk result (Shows (seen self.new) journal.now.history) }
    {
        advance_pods(self.alloc, &mut self.pods, journal, self.fronts.pods, to)?;
        self.fronts.pods = to;
        Ok(())
    }

    /// Puts the kind's front at the start.
    fn forget(&mut self, kind: Kind)
        ensures fronts { self.new.fronts ≡ with_front kind 0 self.old.fronts }
        ensures shows { (history : Items AnEntry) → Shows (seen self.old) history → Shows (seen self.new) history }
    {
        match kind {
            Kind::Runs => self.forget_runs(),
            Kind::TaskRuns => self.forget_task_runs(),
            Kind::Pods => self.forget_pods(),
        }
    }

    fn forget_runs(&mut self)
        ensures fronts { self.new.fronts ≡ with_front Runs 0 self.old.fronts }
        ensures shows { (history : Items AnEntry) → Shows (seen self.old) history → Shows (seen self.new) history }
    {
        self.runs = IndexMap::new(self.alloc);
        self.fronts.runs = 0;
    }

    fn forget_task_runs(&mut self)
        ensures fronts { self.new.fronts ≡ with_front TaskRuns 0 self.old.fronts }
        ensures shows { (history : Items AnEntry) → Shows (seen self.old) history → Shows (seen self.new) history }
    {
        self.beside = IndexMap::new(self.alloc);
        self.task_runs = IndexMap::new(self.alloc);
        self.owned = Groups::new(self.alloc);
        self.fronts.task_runs = 0;
    }

    fn forget_pods(&mut self)
        ensures fronts { self.new.fronts ≡ with_front Pods 0 self.old.fronts }
        ensures shows { (history : Items AnEntry) → Shows (seen self.old) history → Shows (seen self.new) history }
    {
        self.pods = IndexMap::new(self.alloc);
        self.fronts.pods = 0;
    }
}
