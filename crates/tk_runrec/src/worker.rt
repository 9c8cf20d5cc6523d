ghost use Rattle.std.specs.Prelude.{◌≡◌, IfOk, OnErr};
ghost use Rattle.tk_journal.specs.declared.entry.Actor.TheVariants as actors;
ghost use Rattle.tk_cache.specs.Fronts.{Shows};
ghost use Rattle.tk_cache.specs.Views.{seen};
ghost use Rattle.tk_choice.specs.Took.{IsAnswered, MayTry, Took, TookFirst, entry_of};
ghost use Rattle.tk_runrec.specs.Choice.{choice};

use crate::choice::choose;
use std::alloc::{AllocError, Global};
use tk_choice::try_act;
use tk_journal::{Act, Actor};
use tk_run_cache::RunCache;
use tk_store::{Store, Turn};

/// Tries an act at the fronts of a run worker's cache, as `try_act` does.
fn tried(actor: Actor, cache: &RunCache, store: &mut Store, moment: u64, act: Act) -> Turn
    requires shows { Shows (seen cache.now) store.old.history }
    requires may { MayTry (seen cache.now).view actor moment act }
    ensures { IsAnswered store.old (entry_of actor cache.now.fronts moment act) result store.new }
{
    try_act(actor, cache.cache(), store, moment, act)
}

/// The run worker of this number. It keeps nothing between its turns.
#[derive(Clone, Copy, Debug, PartialEq, Eq)]
pub struct RunWorker {
    pub number: u32,
}

impl RunWorker {
    /// The run worker of this number.
    pub fn new(number: u32) -> Self
        ensures { result.number ≡ number }
    {
        RunWorker { number }
    }

    /// One turn: it tries the first act that its cache justifies at this moment, in milliseconds, with the cache's fronts.
    /// Idle exactly where there is none, else the store's answer in this turn. The only error is want of memory; store and
    /// cache are then as before.
    pub fn turn(
        &mut self,
        alloc: Global,
        cache: &RunCache,
        store: &mut Store,
        moment: u64,
    ) -> Result<Turn, AllocError>
        requires shows { Shows (seen cache.now) store.old.history }
        ensures took { IfOk result (λ turn. Took (choice (seen cache.now).view moment) (entry_of (actors.Runs self.old.number) cache.now.fronts moment) store.old turn store.new) }
        ensures first { IfOk result (λ turn. TookFirst (seen cache.now) (actors.Runs self.old.number) moment store.old turn store.new) }
        ensures err { OnErr result (store.new ≡ store.old) }
        ensures same { self.new ≡ self.old }
    {
        store.legal();
        let actor = Actor::Runs(self.number);
        match choose(alloc, cache, moment)? {
            None => Ok(Turn::Idle),
            Some(act) => Ok(tried(actor, cache, store, moment, act)),
        }
    }
}
