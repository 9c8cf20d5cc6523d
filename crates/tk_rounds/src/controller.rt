ghost use Rattle.std.specs.Prelude.{◌≡◌, ◌≢◌, IfOk, OnOk, OnErr};
ghost use Rattle.tk_cache.specs.Fronts.{Shows};
ghost use Rattle.tk_cache.specs.Views.{seen};
ghost use Rattle.tk_edge.specs.declared.gate.GateTurn.TheVariants.{Work};
ghost use Rattle.tk_rounds.specs.Chosen.{AreChosen};
ghost use Rattle.tk_rounds.specs.Members.{of_controller};
ghost use Rattle.tk_rounds.specs.Turning.{ControllerTook, ControllerWorks, IsTurn, is_written as is_written_turn, place_of};
ghost use Rattle.tk_store.specs.declared.turn.Turn.TheVariants as turns;

use crate::bench::Controller;
use crate::moving::{lag_of, move_run_cache};
use std::alloc::{AllocError, Global};
use tk_edge::{Clock, Gate, GateTurn};
use tk_runrec::RunWorker;
use tk_store::{Store, Turn};
use tk_task_cache::TaskCache;
use tk_taskrec::TaskWorker;

/// A run worker's turn, and where nothing is justified for it a task worker's. The only error is want of memory; the store
/// is then as before.
fn work(
    alloc: Global,
    number: u32,
    cache: &TaskCache,
    store: &mut Store,
    moment: u64,
) -> Result<Turn, AllocError>
    requires shows { Shows (seen cache.now) store.old.history }
    ensures took { IfOk result (λ turn. ControllerTook number (seen cache.now) moment store.old turn store.new) }
    ensures err { OnErr result (store.new ≡ store.old) }
{
    match RunWorker::new(number).turn(alloc, cache.runs(), store, moment)? {
        Turn::Idle => TaskWorker::new(number).turn(alloc, cache, store, moment),
        turn => Ok(turn),
    }
}

/// Whether a turn wrote an entry; want of room in the store is want of memory.
fn is_written(turn: Turn) -> Result<bool, AllocError>
    ensures ok { IfOk result (λ wrote. wrote ≡ is_written_turn turn) }
    ensures room { OnOk result (turn ≢ turns.Memory) }
    ensures err { OnErr result (turn ≡ turns.Memory) }
{
    match turn {
        Turn::Wrote { .. } => Ok(true),
        Turn::Memory => Err(AllocError),
        _ => Ok(false),
    }
}

impl<K: Clock, G: Gate> Controller<K, G> {
    /// A Work turn, with the one reading of its clock that it takes as the moment.
    fn work(&mut self, alloc: Global, store: &mut Store) -> Result<bool, AllocError>
        requires shows { Shows (seen self.old.cache) store.old.history }
        ensures same { self.new ≡ record self.old { clock = self.new.clock } }
        ensures turn { IsTurn (of_controller self.old.number) Work (place_of K.readings K.last self.old.clock self.old.cache store.old) (place_of K.readings K.last self.new.clock self.new.cache store.new) }
        ensures took { IfOk result (ControllerWorks self.old.number (seen self.old.cache) (K.last self.new.clock) store.old store.new) }
        ensures chosen { AreChosen self.old.number store.old.history → AreChosen self.old.number store.new.history }
        ensures err { OnErr result (store.new ≡ store.old) }
    {
        let moment = self.clock.now();
        is_written(work(alloc, self.number, &self.cache, store, moment)?)
    }

    /// The turn itself.
    fn act(&mut self, alloc: Global, given: GateTurn, store: &mut Store) -> Result<bool, AllocError>
        requires shows { Shows (seen self.old.cache) store.old.history }
        ensures gate { self.new.gate ≡ self.old.gate }
        ensures number { self.new.number ≡ self.old.number }
        ensures turn { IsTurn (of_controller self.old.number) given (place_of K.readings K.last self.old.clock self.old.cache store.old) (place_of K.readings K.last self.new.clock self.new.cache store.new) }
        ensures took { given ≡ Work → IfOk result (ControllerWorks self.old.number (seen self.old.cache) (K.last self.new.clock) store.old store.new) }
        ensures chosen { AreChosen self.old.number store.old.history → AreChosen self.old.number store.new.history }
        ensures err { OnErr result (store.new ≡ store.old) }
    {
        match given {
            GateTurn::Work => self.work(alloc, store),
            _ => {
                store.legal();
                move_run_cache(&mut self.cache, store.journal(), given)?;
                Ok(false)
            }
        }
    }

    /// The rest of a turn, for what the gate answered: the cache moves, or the run worker takes a turn, and where nothing is
    /// justified for it the task worker (Tekton, Pipelines, How PipelineRuns are reconciled). It answers whether an entry
    /// was written. The only error is want of memory; the store is then as before.
    pub fn turn(
        &mut self,
        alloc: Global,
        given: GateTurn,
        store: &mut Store,
    ) -> Result<bool, AllocError>
        requires shows { Shows (seen self.old.cache) store.old.history }
        ensures gate { self.new.gate ≡ self.old.gate }
        ensures number { self.new.number ≡ self.old.number }
        ensures shows { Shows (seen self.new.cache) store.new.history }
        ensures turn { IsTurn (of_controller self.old.number) given (place_of K.readings K.last self.old.clock self.old.cache store.old) (place_of K.readings K.last self.new.clock self.new.cache store.new) }
        ensures took { given ≡ Work → IfOk result (ControllerWorks self.old.number (seen self.old.cache) (K.last self.new.clock) store.old store.new) }
        ensures chosen { AreChosen self.old.number store.old.history → AreChosen self.old.number store.new.history }
        ensures err { OnErr result (store.new ≡ store.old) }
    {
        let wrote = self.act(alloc, given, store);
        self.lag = lag_of(self.cache.cache(), store.journal());
        wrote
    }
}
