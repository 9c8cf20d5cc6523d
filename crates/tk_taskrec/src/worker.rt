ghost use Rattle.std.specs.Prelude.{◌≡◌, IfOk, OnErr};
ghost use Rattle.tk_cache.specs.Fronts.{Shows};
ghost use Rattle.tk_cache.specs.Views.{seen};
ghost use Rattle.tk_choice.specs.Took.{IsAnswered, MayTry, Took, TookFirst, entry_of};
ghost use Rattle.tk_journal.specs.declared.entry.Actor.TheVariants.{Tasks};
ghost use Rattle.tk_taskrec.specs.Choice.{choice};

use crate::choosing::choose;
use std::alloc::{AllocError, Global};
use tk_choice::try_act;
use tk_journal::{Act, Actor};
use tk_store::{Store, Turn};
use tk_task_cache::TaskCache;

/// Tries an act at the fronts of a task worker's cache, as `try_act` does.
fn tried(actor: Actor, cache: &TaskCache, store: &mut Store, moment: u64, act: Act) -> Turn
    requires shows { Shows (seen cache.now) store.old.history }
    requires may { MayTry (seen cache.now).view actor moment act }
    ensures { IsAnswered store.old (entry_of actor cache.now.fronts moment act) result store.new }
{
    try_act(actor, cache.cache(), store, moment, act)
}

/// The task worker of this number. It keeps nothing between its turns.
#[derive(Clone, Copy, Debug, PartialEq, Eq)]
pub struct TaskWorker {
    pub number: u32,
}

impl TaskWorker {
    /// The task worker of this number.
    pub fn new(number: u32) -> TaskWorker
        ensures { result.number ≡ number }
    {
        TaskWorker { number }
    }

    /// One turn at a moment in milliseconds: it tries the one choice at its cache's fronts, and answers Idle exactly where
    /// nothing is justified for it there. An attempt of a TaskRun ends with its pod, and is made again while retries are
    /// left (Tekton, Tasks, Retries). The only error is want of memory in choosing; the store is then as before.
    #[tactic(auto, using(crate::proofs::Turns::fit_seen, crate::proofs::Turns::choice_may, crate::proofs::Turns::took_choice, crate::proofs::Turns::took_act))]
    pub fn turn(
        &mut self,
        alloc: Global,
        cache: &TaskCache,
        store: &mut Store,
        moment: u64,
    ) -> Result<Turn, AllocError>
        requires shows { Shows (seen cache.now) store.old.history }
        ensures took { IfOk result (λ turn. Took (choice (seen cache.now).view) (entry_of (Tasks self.old.number) cache.now.fronts moment) store.old turn store.new) }
        ensures first { IfOk result (λ turn. TookFirst (seen cache.now) (Tasks self.old.number) moment store.old turn store.new) }
        ensures err { OnErr result (store.new ≡ store.old) }
        ensures same { self.new ≡ self.old }
    {
        store.legal();
        match choose(alloc, cache)? {
            None => Ok(Turn::Idle),
            Some(act) => {
                let actor = Actor::Tasks(self.number);
                Ok(tried(actor, cache, store, moment, act))
            }
        }
    }
}
