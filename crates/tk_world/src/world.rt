ghost use Rattle.std.specs.Prelude.{◌≡◌, ◌≢◌, ◌⊎◌, ◌≤◌, ◌<◌, ◌↔◌, ◌∷◌, [], length, reverse, codes, IfOk, OnOk, OnErr, IsTrue};
ghost use Rattle.tk_types.specs.declared.scenario.Event.TheVariants as events;
ghost use Rattle.tk_types.specs.declared.scenario.Viewer.TheVariants as viewers;
ghost use Rattle.tk_types.specs.declared.scenario.Taker.TheVariants as takers;
ghost use Rattle.tk_journal.specs.declared.entry.Actor.TheVariants as actors;
ghost use Rattle.tk_journal.specs.Folders.{HaveRoot};
ghost use Rattle.tk_journal.specs.Legal.{IsLegal};
ghost use Rattle.tk_journal.specs.Progress.{IsOpen};
ghost use Rattle.tk_journal.specs.Weight.{weight as weight_of};
ghost use Rattle.tk_store.specs.declared.turn.Turn.TheVariants as turns;
ghost use Rattle.tk_held.specs.Laws.{AreAdmits};
ghost use Rattle.tk_machine.specs.Fair.{IsPeopled};
ghost use Rattle.tk_machine.specs.State.{controller_events, for_each, kubelet_events, round_events, start};
ghost use Rattle.tk_machine.specs.Events.{HasTaker, HasViewer};
ghost use Rattle.tk_world.specs.Goes.{Finishes, Goes, IsSame, MayTake, MayTakeAll, Runs, Stays, Takes, Took};
ghost use Rattle.tk_world.specs.Moves.{moves_by};
ghost use Rattle.tk_world.specs.Stepped.{AskAnswers, IsStepped, KubeletAnswers, MovesNodes, RestartsNodes, WorkerAnswers};
ghost use Rattle.tk_world.specs.Whole.{AreNewNodes, IsWorld, machine_of};

use crate::looking::is_open;
use crate::making::{new_caches, new_nodes};
use crate::moves::{Move, deliver_all, move_cache, move_run_cache};
use crate::node::{Node, ROOT};
use crate::stepped::Stepped;
use std::alloc::{AllocError, Global};
use std::marker::Model;
use tk_cache::Cache;
use tk_journal::{Admitted, Journal};
use tk_kubelet::{Kubelet, KubeletTurn};
use tk_runrec::RunWorker;
use tk_script::PodScript;
use tk_store::{Store, Turn};
use tk_task_cache::TaskCache;
use tk_taskrec::TaskWorker;
use tk_types::{Asked, Event, List, Taker, Text, Viewer};
use tk_user::{AskAnswer, ask};

/// The whole system: a store, a clock in milliseconds, the caches of the controllers, and the nodes. Contracts see the
/// machine's state of it. The last cache takes no part: it is there to look whether something is open.
#[derive(Drop)]
pub struct World {
    alloc: Global,
    store: Store,
    clock: u64,
    controllers: Vec<TaskCache>,
    nodes: Vec<Node>,
    scripts: List<PodScript>,
    watch: Cache,
}

impl Model for World {
    ghost use Rattle.tk_world.specs.Whole.{Whole, whole_of};

    ghost Value = { Whole };

    ghost view = { λ w. whole_of w.store w.clock w.controllers.items w.nodes.items w.scripts w.watch };
}

/// The turn, unless the store had no room for its entry.
fn with_room(turn: Turn) -> Result<Turn, AllocError>
    ensures ok { IfOk result (λ same. same ≡ turn) }
    ensures room { OnOk result (turn ≢ turns.Memory) }
    ensures err { OnErr result (turn ≡ turns.Memory) }
{
    match turn {
        Turn::Memory => Err(AllocError),
        _ => Ok(turn),
    }
}

impl World {
    /// The world at the start of a scenario, at clock 0: what was admitted stands in its store, and so many controllers and
    /// kubelets have seen nothing. Each kubelet's host plays these scripts. The only error is want of memory.
    pub fn new(
        alloc: Global,
        admitted: Admitted,
        controllers: u32,
        kubelets: u32,
        scripts: List<PodScript>,
    ) -> Result<World, AllocError>
        requires legal { IsLegal (reverse admitted.entries) }
        requires admits { AreAdmits (reverse admitted.entries) }
        requires rooted { HaveRoot (codes "/work") (reverse admitted.entries) }
        ensures start { IfOk result (λ world. machine_of world ≡ start controllers kubelets (reverse admitted.entries)) }
        ensures pods { IfOk result (λ world. world.pods ≡ scripts) }
        ensures nodes { IfOk result (λ world. AreNewNodes world.pods kubelets world.nodes) }
        ensures spare { IfOk result (λ world. admitted.weight ≤ world.store.spare) }
        ensures world { IfOk result IsWorld }
    {
        let controllers = new_caches(alloc, controllers)?;
        let nodes = new_nodes(alloc, kubelets, scripts.as_slice())?;
        let store = Store::new(alloc, admitted)?;
        Ok(World {
            alloc,
            store,
            clock: 0,
            controllers,
            nodes,
            scripts,
            watch: Cache::empty(alloc),
        })
    }

    /// The journal.
    pub fn journal(&self) -> &Journal
        ensures { result.now.history ≡ self.now.store.history }
    {
        self.store.journal()
    }

    /// The journal of a world is always legal, after want of memory too: a law for whoever holds one, which does nothing.
    pub fn legal(&self)
        ensures { IsLegal self.now.store.history }
    {
        self.store.legal();
    }

    /// The journal itself.
    pub fn into_journal(self) -> Journal
        ensures { result.history ≡ self.store.history }
    {
        let World { store, .. } = self;
        store.into_journal()
    }

    /// Moves a controller's cache.
    fn move_controller(&mut self, i: u32, how: Move) -> Result<(), AllocError>
        requires world { IsWorld self.old }
        requires place { i < length self.old.controllers }
        ensures ok { OnOk result (Goes (moves_by (viewers.Controller i) how ∷ []) self.old self.new) }
        ensures nodes { OnOk result (MovesNodes (viewers.Controller i) self.old self.new) }
        ensures err { OnErr result (self.new.store.history ≡ self.old.store.history) }
    {
        let cache = &mut self.controllers[i as usize];
        move_run_cache(cache, self.store.journal(), how)
    }

    /// Moves a kubelet's cache.
    fn move_kubelet(&mut self, i: u32, how: Move) -> Result<(), AllocError>
        requires world { IsWorld self.old }
        requires place { i < length self.old.nodes }
        ensures ok { OnOk result (Goes (moves_by (viewers.Kubelet i) how ∷ []) self.old self.new) }
        ensures nodes { OnOk result (MovesNodes (viewers.Kubelet i) self.old self.new) }
        ensures err { OnErr result (self.new.store.history ≡ self.old.store.history) }
    {
        let node = &mut self.nodes[i as usize];
        move_cache(&mut node.cache, self.store.journal(), how)
    }

    /// Moves the cache of an actor.
    fn move_viewer(&mut self, viewer: Viewer, how: Move) -> Result<Stepped, AllocError>
        requires world { IsWorld self.old }
        requires place { HasViewer (length self.old.controllers) (length self.old.nodes) viewer }
        ensures ok { OnOk result (Goes (moves_by viewer how ∷ []) self.old self.new) }
        ensures answer { IfOk result (IsStepped (moves_by viewer how) self.old self.new) }
        ensures err { OnErr result (self.new.store.history ≡ self.old.store.history) }
    {
        match viewer {
            Viewer::Controller(i) => self.move_controller(i, how)?,
            Viewer::Kubelet(i) => self.move_kubelet(i, how)?,
        }
        Ok(Stepped::Moved)
    }

    /// The run worker's turn of a controller.
    fn turn_runs(&mut self, i: u32) -> Result<Turn, AllocError>
        requires world { IsWorld self.old }
        requires place { i < length self.old.controllers }
        ensures ok { OnOk result (Goes (events.Turn (takers.Runs i) ∷ []) self.old self.new) }
        ensures answer { IfOk result (WorkerAnswers (actors.Runs i) i self.old self.new) }
        ensures err { OnErr result (self.new.store.history ≡ self.old.store.history) }
    {
        let cache = &self.controllers[i as usize];
        let mut worker = RunWorker::new(i);
        with_room(worker.turn(self.alloc, cache.runs(), &mut self.store, self.clock)?)
    }

    /// The task worker's turn of a controller.
    fn turn_tasks(&mut self, i: u32) -> Result<Turn, AllocError>
        requires world { IsWorld self.old }
        requires place { i < length self.old.controllers }
        ensures ok { OnOk result (Goes (events.Turn (takers.Tasks i) ∷ []) self.old self.new) }
        ensures answer { IfOk result (WorkerAnswers (actors.Tasks i) i self.old self.new) }
        ensures err { OnErr result (self.new.store.history ≡ self.old.store.history) }
    {
        let cache = &self.controllers[i as usize];
        let mut worker = TaskWorker::new(i);
        with_room(worker.turn(self.alloc, cache, &mut self.store, self.clock)?)
    }

    /// A kubelet's turn.
    fn turn_kubelet(&mut self, i: u32) -> Result<KubeletTurn, AllocError>
        requires world { IsWorld self.old }
        requires place { i < length self.old.nodes }
        ensures ok { OnOk result (Goes (events.Turn (takers.Kubelet i) ∷ []) self.old self.new) }
        ensures answer { IfOk result (KubeletAnswers i self.old self.new) }
        ensures err { OnErr result (self.new.store.history ≡ self.old.store.history) }
    {
        let node = &mut self.nodes[i as usize];
        node.turn(self.alloc, &mut self.store, self.clock)
    }

    /// The turn of an actor.
    fn turn(&mut self, taker: Taker) -> Result<Stepped, AllocError>
        requires world { IsWorld self.old }
        requires place { HasTaker (length self.old.controllers) (length self.old.nodes) taker }
        ensures ok { OnOk result (Goes (events.Turn taker ∷ []) self.old self.new) }
        ensures answer { IfOk result (IsStepped (events.Turn taker) self.old self.new) }
        ensures err { OnErr result (self.new.store.history ≡ self.old.store.history) }
    {
        match taker {
            Taker::Runs(i) => Ok(Stepped::Worker(self.turn_runs(i)?)),
            Taker::Tasks(i) => Ok(Stepped::Worker(self.turn_tasks(i)?)),
            Taker::Kubelet(i) => Ok(Stepped::Kubelet(self.turn_kubelet(i)?)),
        }
    }

    /// A controller forgets what it saw.
    fn restart_controller(&mut self, i: u32)
        requires world { IsWorld self.old }
        requires place { i < length self.old.controllers }
        ensures goes { Goes (events.Restart (viewers.Controller i) ∷ []) self.old self.new }
        ensures nodes { RestartsNodes (viewers.Controller i) self.old self.new }
    {
        let cache = &mut self.controllers[i as usize];
        *cache = TaskCache::empty(self.alloc);
    }

    /// A kubelet comes back with nothing, in its next life, over the same host; in its last life nothing changes.
    fn restart_kubelet(&mut self, i: u32) -> Result<(), AllocError>
        requires world { IsWorld self.old }
        requires place { i < length self.old.nodes }
        ensures ok { OnOk result (Goes (events.Restart (viewers.Kubelet i) ∷ []) self.old self.new) }
        ensures nodes { OnOk result (RestartsNodes (viewers.Kubelet i) self.old self.new) }
        ensures err { OnErr result (self.new.store.history ≡ self.old.store.history) }
    {
        let node = &mut self.nodes[i as usize];
        node.restart(self.alloc, i)
    }

    /// An actor starts anew.
    fn restart(&mut self, viewer: Viewer) -> Result<Stepped, AllocError>
        requires world { IsWorld self.old }
        requires place { HasViewer (length self.old.controllers) (length self.old.nodes) viewer }
        ensures ok { OnOk result (Goes (events.Restart viewer ∷ []) self.old self.new) }
        ensures answer { IfOk result (IsStepped (events.Restart viewer) self.old self.new) }
        ensures err { OnErr result (self.new.store.history ≡ self.old.store.history) }
    {
        match viewer {
            Viewer::Controller(i) => self.restart_controller(i),
            Viewer::Kubelet(i) => self.restart_kubelet(i)?,
        }
        Ok(Stepped::Moved)
    }

    /// A user asks.
    fn ask(&mut self, name: &Text, status: Asked) -> Result<AskAnswer, AllocError>
        requires world { IsWorld self.old }
        ensures ok { OnOk result (Goes (events.Ask name.now status ∷ []) self.old self.new) }
        ensures answer { IfOk result (AskAnswers name.now status self.old self.new) }
        ensures err { OnErr result (self.new.store.history ≡ self.old.store.history) }
    {
        ask(
            self.alloc,
            &mut self.store,
            name.as_str(),
            status,
            self.clock,
        )
    }

    /// Sets the clock.
    fn set_clock(&mut self, reading: u64)
        requires world { IsWorld self.old }
        requires later { self.old.clock ≤ reading }
        ensures goes { Goes (events.Clock reading ∷ []) self.old self.new }
        ensures nodes { self.new.nodes ≡ self.old.nodes }
    {
        self.clock = reading;
    }

    /// The turns of a controller that sees all: its run worker's, and then its task worker's.
    fn controller_turns(&mut self, i: u32) -> Result<(), AllocError>
        requires world { IsWorld self.old }
        requires place { i < length self.old.controllers }
        ensures { OnOk result (Took (controller_events i) self.old self.new) }
    {
        self.move_controller(i, Move::DeliverAll)?;
        self.turn_runs(i)?;
        self.move_controller(i, Move::DeliverAll)?;
        self.turn_tasks(i)?;
        Ok(())
    }

    /// The turn of a kubelet that sees all.
    fn kubelet_turns(&mut self, i: u32) -> Result<(), AllocError>
        requires world { IsWorld self.old }
        requires place { i < length self.old.nodes }
        ensures { OnOk result (Took (kubelet_events i) self.old self.new) }
    {
        self.move_kubelet(i, Move::DeliverAll)?;
        self.turn_kubelet(i)?;
        Ok(())
    }

    fn controllers_turns(&mut self) -> Result<(), AllocError>
        requires world { IsWorld self.old }
        ensures { OnOk result (Took (for_each controller_events 0 (length self.old.controllers)) self.old self.new) }
    {
        for i in 0..self.controllers.len() as u32 {
            self.controller_turns(i)?;
        }
        Ok(())
    }

    fn kubelets_turns(&mut self) -> Result<(), AllocError>
        requires world { IsWorld self.old }
        ensures { OnOk result (Took (for_each kubelet_events 0 (length self.old.nodes)) self.old self.new) }
    {
        for i in 0..self.nodes.len() as u32 {
            self.kubelet_turns(i)?;
        }
        Ok(())
    }

    /// A fair round. Each controller in order sees all, and its run worker takes a turn; it sees all again, and its task
    /// worker takes one. Then each kubelet in order sees all and takes a turn. The only error is want of memory.
    pub fn fair_round(&mut self) -> Result<(), AllocError>
        requires world { IsWorld self.old }
        ensures { OnOk result (Takes events.Round self.old self.new) }
    {
        self.controllers_turns()?;
        self.kubelets_turns()
    }

    /// One event of a scenario. Its actor has to exist, and it may not set the clock back. The only error is want of memory;
    /// but for a round the journal is then as before.
    pub fn step(&mut self, event: &Event) -> Result<Stepped, AllocError>
        requires world { IsWorld self.old }
        requires may { MayTake self.old event.now }
        ensures ok { OnOk result (Takes event.now self.old self.new) }
        ensures answer { IfOk result (IsStepped event.now self.old self.new) }
        ensures err { OnErr result ((event.now ≡ events.Round) ⊎ (self.new.store.history ≡ self.old.store.history)) }
    {
        match event {
            Event::Deliver { viewer, kind, n } => {
                let how = Move::Deliver { kind: *kind, n: *n };
                self.move_viewer(*viewer, how)
            }
            Event::DeliverAll { viewer } => self.move_viewer(*viewer, Move::DeliverAll),
            Event::Relist {
                viewer,
                kind,
                position,
            } => {
                let how = Move::Relist {
                    kind: *kind,
                    position: *position,
                };
                self.move_viewer(*viewer, how)
            }
            Event::Turn(taker) => self.turn(*taker),
            Event::Restart { viewer } => self.restart(*viewer),
            Event::Ask { name, status } => Ok(Stepped::Asked(self.ask(name, *status)?)),
            Event::Clock(reading) => {
                self.set_clock(*reading);
                Ok(Stepped::Moved)
            }
            Event::Round => {
                self.fair_round()?;
                Ok(Stepped::Moved)
            }
        }
    }

    /// All events of a scenario, one after the other. The only error is want of memory.
    pub fn run(&mut self, given: &[Event]) -> Result<(), AllocError>
        requires world { IsWorld self.old }
        requires may { MayTakeAll self.old given.now }
        ensures { OnOk result (Runs given.now self.old self.new) }
    {
        for event in given {
            self.step(event)?;
        }
        Ok(())
    }

    /// Whether a run that isn't pending, or a TaskRun, is open. The only error is want of memory.
    pub fn is_open(&mut self) -> Result<bool, AllocError>
        requires world { IsWorld self.old }
        ensures open { IfOk result (λ is_open. IsTrue is_open ↔ IsOpen self.old.store.history) }
        ensures same { IsSame self.old self.new }
        ensures stays { OnOk result (Stays self.old self.new) }
    {
        deliver_all(&mut self.watch, self.store.journal())?;
        Ok(is_open(&self.watch))
    }

    /// Fair rounds while something is open, at most as many as the weight. The only error is want of memory.
    pub fn finish(&mut self, weight: u64) -> Result<(), AllocError>
        requires world { IsWorld self.old }
        requires peopled { IsPeopled (machine_of self.old) }
        requires weight { weight_of self.old.store.history ≤ weight }
        ensures { OnOk result (Finishes weight self.old self.new) }
    {
        for round in 0..weight {
            if !self.is_open()? {
                return Ok(());
            }
            self.fair_round()?;
        }
        Ok(())
    }
}
