//! A host over another, which starts the processes and has the files. It tells no file, since its entries' processes change
//! them on their own.
ghost use Rattle.std.specs.Prelude.{◌≡◌, ◌<◌, ℕ, true, false, List, [], ◌∷◌, Option, Some, None, Ok, IfOk, OnOk, OnErr, Err, vec_len, vec_capacity, IsTrue};
ghost use Rattle.std.specs.Option.{is_some};
ghost use Rattle.tk_edge.specs.declared.miss.Miss.TheVariants.{Memory, Failed as Fails};
ghost use Rattle.tk_edge.specs.declared.order.Watch.TheVariants as shown;
ghost use Rattle.tk_edge.specs.Causes.{raised, Counts, CountsMiss};
ghost use Rattle.tk_edge.specs.History.{Has, StillWaits, MayStart, arming_of, order_of, exit_of};
ghost use Rattle.tk_edge.specs.HostLog.{counts, flags};
ghost use Rattle.tk_edge.specs.Calls.{TellsWatch};
ghost use Rattle.tk_process.specs.Before.{IsExplained};
ghost use Rattle.tk_process.specs.Processes.{LeftAs};

use crate::before::{Before, is_over, outcome_before, poster};
use crate::ends::{forget_gone, stop, stop_entry};
use crate::looks::{First, Later, look_first, look_later};
use crate::process::{Process, Told, process_order};
use crate::starter::Starter;
use crate::teller::{Teller, Unexplained};
use std::alloc::{AllocError, Global};
use tk_edge::{
    Clock, Failed, Host, HostLog, Miss, Order, Poll, Watch, arming_from, bytes_of, copy_bytes,
    ended, passes, push_within,
};
use tk_types::{Bytes, Text, TryCopy};

/// A host whose armed entries are processes of a program, which the host below starts.
#[derive(Drop)]
pub struct ProcessHost<H: Host, K: Clock, T: Teller> {
    alloc: Global,
    starter: Starter,
    host: H,
    // by which a kill rests
    clock: K,
    // who is told what the history doesn't explain
    teller: T,
    log: HostLog,
    processes: Vec<Process>,
    // numbers of processes whose entries are over and that weren't found ended
    leaving: Vec<u64>,
    faults: u64,
}

impl<H: Host + Drop, K: Clock + Drop, T: Teller + Drop> ProcessHost<H, K, T> {
    /// A host that did nothing, over this one, whose entrypoints are processes of the program at this path, a whole path. Each
    /// is in a session of its own where one of the folders, which are separated by colons, has `setsid`. `parent` is the number
    /// of this process: each ends once that is no more. `teller` is told of each step whose files the history doesn't explain,
    /// which is a failed call. The only error is want of memory.
    pub fn new(
        alloc: Global,
        folders: &str,
        program: &str,
        parent: u32,
        mut host: H,
        clock: K,
        teller: T,
    ) -> Result<Self, AllocError>
        ensures told { IfOk result (λ host. ⟦<ProcessHost<H, K, T> as Host>⟧.told host ≡ []) }
        ensures killed { IfOk result (λ host. (child : ℕ) → ⟦<ProcessHost<H, K, T> as Host>⟧.killed host child ≡ false) }
        ensures watches { IfOk result (λ host. (child : ℕ) → ⟦<ProcessHost<H, K, T> as Host>⟧.watches host child ≡ 0) }
        ensures files { IfOk result (λ host. ⟦<ProcessHost<H, K, T> as Host>⟧.files host ≡ None) }
        ensures faults { IfOk result (λ host. ⟦<ProcessHost<H, K, T> as Host>⟧.faults host ≡ 0) }
    {
        let starter = Starter::new(alloc, &mut host, folders, program, parent)?;
        Ok(ProcessHost {
            alloc,
            starter,
            host,
            clock,
            teller,
            log: HostLog::new(alloc),
            processes: Vec::new(alloc),
            leaving: Vec::new(alloc),
            faults: 0,
        })
    }

    /// Whether the child is armed. It takes no memory.
    pub fn is_armed(&self, child: u64) -> bool
        ensures { IsTrue result → Has (arming_of child (⟦<ProcessHost<H, K, T> as Host>⟧.told self.now)) (λ _. Unit {0}) }
    {
        self.log.arming(child).is_some()
    }

    /// How many calls failed; at 2^64 - 1 it stands still. It takes no memory.
    pub fn faults(&self) -> u64
        ensures { result ≡ ⟦<ProcessHost<H, K, T> as Host>⟧.faults self.now }
    {
        self.faults
    }

    // A call failed, which counts.
    fn fail<V>(&mut self) -> Result<V, Miss>
        ensures failed { result ≡ Err Fails }
        ensures count { self.new.faults ≡ raised self.old.faults }
        ensures log { self.new.log ≡ self.old.log }
    {
        self.faults = self.faults.saturating_add(1);
        Err(Miss::Failed)
    }

    // The files of a child's entry say what the history doesn't explain, which is told and is a failed call.
    fn unexplained<V>(&mut self, child: u64, what: Unexplained) -> Result<V, Miss>
        ensures failed { result ≡ Err Fails }
        ensures count { self.new.faults ≡ raised self.old.faults }
        ensures log { self.new.log ≡ self.old.log }
    {
        if let Some(arming) = self.log.arming(child) {
            let order = &arming.order;
            self.teller.tell(order.pod.as_str(), order.step, what);
        }
        self.fail()
    }

    // A call missed; it counts where it failed.
    fn miss<V>(&mut self, miss: Miss) -> Result<V, Miss>
        ensures missed { result ≡ Err miss }
        ensures count { CountsMiss self.old.faults self.new.faults miss }
        ensures log { self.new.log ≡ self.old.log }
    {
        if let Miss::Failed = miss {
            self.faults = self.faults.saturating_add(1);
        }
        Err(miss)
    }
}

impl<H: Host + Drop, K: Clock + Drop, T: Teller + Drop> ProcessHost<H, K, T> {
    // The process of a child whose entry is over.
    fn let_go(&mut self, child: u64)
        ensures log { self.new.log ≡ self.old.log }
        ensures count { self.new.faults ≡ self.old.faults }
    {
        if let Some(process) = self.processes.get(child as usize) {
            if let Some(number) = process.number {
                let _ = self.leaving.push(number);
            }
        }
    }

    // The command of an entry began: it is told as started, if its wait file stands by what the host did. Until it is known how it
    // went with the step before, it waits; where that didn't pass, someone else left the file.
    fn begin(&mut self, child: u64) -> Result<Watch, Miss>
        requires waits { StillWaits child self.old.log.told }
        requires armed { Has (arming_of child self.old.log.told) (λ _. Unit {0}) }
        ensures told { TellsWatch child self.old.log.told self.new.log.told result }
        ensures killed { self.new.log.killed ≡ self.old.log.killed }
        ensures watches { self.new.log.watches ≡ self.old.log.watches }
        ensures children { self.new.log.count ≡ self.old.log.count }
        ensures count { Counts self.old.faults self.new.faults result }
    {
        self.log.make_room()?;
        let Some(arming) = self.log.arming(child) else {
            return self.fail();
        };
        if !self.log.may_start(arming) {
            return match outcome_before(&self.log, arming, poster_of(&self.processes, child)) {
                Before::Open => Ok(Watch::Waits),
                _ => self.unexplained(child, Unexplained::Marker),
            };
        }
        let order = arming.order.copy(self.alloc)?;
        self.log.started(child, order);
        Ok(Watch::Started)
    }

    // The wait file of an entry stood with `.err`: it is told as refused, if the step before it broke by what was told. Until
    // that is known, it waits; where it passed, someone else left the file.
    fn refuse(&mut self, child: u64) -> Result<Watch, Miss>
        requires waits { StillWaits child self.old.log.told }
        requires armed { Has (arming_of child self.old.log.told) (λ _. Unit {0}) }
        ensures explained { result ≡ Ok (shown.Broke None) → Has (arming_of child self.old.log.told) (λ arming. IsExplained arming self.old.log.told) }
        ensures told { TellsWatch child self.old.log.told self.new.log.told result }
        ensures killed { self.new.log.killed ≡ self.old.log.killed }
        ensures watches { self.new.log.watches ≡ self.old.log.watches }
        ensures children { self.new.log.count ≡ self.old.log.count }
        ensures count { Counts self.old.faults self.new.faults result }
    {
        self.log.make_room()?;
        let Some(arming) = self.log.arming(child) else {
            return self.fail();
        };
        match outcome_before(&self.log, arming, poster_of(&self.processes, child)) {
            Before::Broke => self.tell_refused(child),
            Before::Open => Ok(Watch::Waits),
            Before::Passed => self.unexplained(child, Unexplained::Marker),
            Before::Nobody => self.unexplained(child, Unexplained::Marker),
        }
    }

    // An entry is told as refused, and its process is let go.
    fn tell_refused(&mut self, child: u64) -> Result<Watch, Miss>
        requires room { 0 < self.old.log.room }
        requires known { child < self.old.log.count }
        requires waits { StillWaits child self.old.log.told }
        requires armed { Has (arming_of child self.old.log.told) (λ _. Unit {0}) }
        ensures told { TellsWatch child self.old.log.told self.new.log.told result }
        ensures killed { self.new.log.killed ≡ self.old.log.killed }
        ensures watches { self.new.log.watches ≡ self.old.log.watches }
        ensures children { self.new.log.count ≡ self.old.log.count }
        ensures count { Counts self.old.faults self.new.faults result }
    {
        if let Err(miss) = self.post_failed(child) {
            return self.miss(miss);
        }
        self.let_go(child);
        self.log.refused(child);
        Ok(Watch::Broke { exit: None })
    }

    // An entry without a process posts by the host itself.
    fn post_failed(&mut self, child: u64) -> Result<(), Miss>
        ensures log { self.new.log ≡ self.old.log }
        ensures count { self.new.faults ≡ self.old.faults }
    {
        match self.processes.get(child as usize) {
            Some(
                Process {
                    number: None,
                    files: Some(files),
                    ..
                },
            ) => self.host.put(files.failed.as_str(), &[]),
            _ => Ok(()),
        }
    }

    // The process of an entry is started that couldn't be started when it was armed.
    fn start_process(&mut self, child: u64) -> Result<Watch, Miss>
        requires waits { StillWaits child self.old.log.told }
        requires armed { Has (arming_of child self.old.log.told) (λ _. Unit {0}) }
        ensures told { TellsWatch child self.old.log.told self.new.log.told result }
        ensures killed { self.new.log.killed ≡ self.old.log.killed }
        ensures watches { self.new.log.watches ≡ self.old.log.watches }
        ensures children { self.new.log.count ≡ self.old.log.count }
        ensures count { Counts self.old.faults self.new.faults result }
    {
        let (Some(arming), Some(process)) = (
            self.log.arming(child),
            self.processes.get_mut(child as usize),
        ) else {
            return self.fail();
        };
        let Some(files) = &process.files else {
            return self.fail();
        };
        let order = process_order(self.alloc, &self.starter, arming, files)?;
        match self.host.start(&order) {
            Ok(number) => {
                process.number = Some(number);
                Ok(Watch::Waits)
            }
            Err(miss) => self.miss(miss),
        }
    }

    // The turn of an entry without a process: as one that has one, but the host itself looks.
    fn unstarted_turn(&mut self, child: u64) -> Result<Watch, Miss>
        requires waits { StillWaits child self.old.log.told }
        requires armed { Has (arming_of child self.old.log.told) (λ _. Unit {0}) }
        ensures told { TellsWatch child self.old.log.told self.new.log.told result }
        ensures killed { self.new.log.killed ≡ self.old.log.killed }
        ensures watches { self.new.log.watches ≡ self.old.log.watches }
        ensures children { self.new.log.count ≡ self.old.log.count }
        ensures count { Counts self.old.faults self.new.faults result }
    {
        let (Some(arming), Some(failed)) = (self.log.arming(child), self.log.failed_wait(child))
        else {
            return self.fail();
        };
        match self.host.look(failed.as_str()) {
            Ok(true) => self.refuse(child),
            Ok(false) => {
                if self.log.may_start(arming) {
                    self.start_process(child)
                } else {
                    Ok(Watch::Waits)
                }
            }
            Err(miss) => self.miss(miss),
        }
    }

    // The turn of an entry that neither started nor was refused nor was killed. It only waits until the step before is over, so
    // its files aren't looked at before.
    fn first_turn(&mut self, child: u64) -> Result<Watch, Miss>
        requires waits { StillWaits child self.old.log.told }
        requires armed { Has (arming_of child self.old.log.told) (λ _. Unit {0}) }
        ensures told { TellsWatch child self.old.log.told self.new.log.told result }
        ensures killed { self.new.log.killed ≡ self.old.log.killed }
        ensures watches { self.new.log.watches ≡ self.old.log.watches }
        ensures children { self.new.log.count ≡ self.old.log.count }
        ensures count { Counts self.old.faults self.new.faults result }
    {
        let Some(process) = self.processes.get(child as usize) else {
            return self.fail();
        };
        if let Some(poster) = process.poster {
            if !is_over(&self.log, poster) {
                return Ok(Watch::Waits);
            }
        }
        let (Some(files), Some(number)) = (&process.files, process.number) else {
            return self.unstarted_turn(child);
        };
        match look_first(&mut self.host, files, number) {
            Ok(First::Waits) => Ok(Watch::Waits),
            Ok(First::Began) => self.begin(child),
            Ok(First::Refused) => self.refuse(child),
            Ok(First::Gone) => self.unexplained(child, Unexplained::Gone),
            Err(miss) => self.miss(miss),
        }
    }

    // What an entry left behind its command. A file that tells no exit, or one that doesn't fit, is a fault.
    fn end(&mut self, child: u64, passed: bool, exit: Option<u8>) -> Result<Watch, Miss>
        requires started { is_some (order_of child self.old.log.told) ≡ true }
        requires runs { exit_of child self.old.log.told ≡ None }
        requires armed { Has (arming_of child self.old.log.told) (λ _. Unit {0}) }
        ensures fits { IfOk result (LeftAs passed exit) }
        ensures told { TellsWatch child self.old.log.told self.new.log.told result }
        ensures killed { self.new.log.killed ≡ self.old.log.killed }
        ensures watches { self.new.log.watches ≡ self.old.log.watches }
        ensures children { self.new.log.count ≡ self.old.log.count }
        ensures count { Counts self.old.faults self.new.faults result }
    {
        self.log.make_room()?;
        let (Some(arming), Some(exit)) = (self.log.arming(child), exit) else {
            return self.unexplained(child, Unexplained::Exit);
        };
        if passes(arming.keep_going, exit) != passed {
            return self.unexplained(child, Unexplained::Exit);
        }
        let watch = ended(arming.keep_going, exit);
        self.let_go(child);
        self.log.exited(child, exit);
        Ok(watch)
    }

    // The turn of an entry that was started.
    fn later_turn(&mut self, child: u64) -> Result<Watch, Miss>
        requires started { is_some (order_of child self.old.log.told) ≡ true }
        requires runs { exit_of child self.old.log.told ≡ None }
        requires armed { Has (arming_of child self.old.log.told) (λ _. Unit {0}) }
        ensures told { TellsWatch child self.old.log.told self.new.log.told result }
        ensures killed { self.new.log.killed ≡ self.old.log.killed }
        ensures watches { self.new.log.watches ≡ self.old.log.watches }
        ensures children { self.new.log.count ≡ self.old.log.count }
        ensures count { Counts self.old.faults self.new.faults result }
    {
        let (Some(arming), Some(process)) = (
            self.log.arming(child),
            self.processes.get(child as usize),
        ) else {
            return self.fail();
        };
        let (Some(files), Some(number)) = (&process.files, process.number) else {
            return self.fail();
        };
        match look_later(self.alloc, &mut self.host, &arming.post, files, number) {
            Ok(Later::Runs) => Ok(Watch::Runs),
            Ok(Later::Left { passed, exit }) => self.end(child, passed, exit),
            Ok(Later::Gone) => self.unexplained(child, Unexplained::Gone),
            Err(miss) => self.miss(miss),
        }
    }

    // One turn of an armed entry.
    fn watch_once(&mut self, child: u64) -> Result<Watch, Miss>
        requires { Has (arming_of child self.old.log.told) (λ _. Unit {0}) }
        ensures told { TellsWatch child self.old.log.told self.new.log.told result }
        ensures alive { IfOk result (λ watch. watch ≡ shown.Started → flags self.old.log.killed child ≡ false) }
        ensures killed { self.new.log.killed ≡ self.old.log.killed }
        ensures watches { self.new.log.watches ≡ self.old.log.watches }
        ensures known { child < self.new.log.count }
        ensures count { Counts self.old.faults self.new.faults result }
    {
        let Some(arming) = self.log.arming(child) else {
            return self.fail();
        };
        if let Some(exit) = self.log.exit(child) {
            return Ok(ended(arming.keep_going, exit));
        }
        if self.log.has_started(child) {
            return self.later_turn(child);
        }
        if self.log.is_refused(child) {
            return Ok(Watch::Broke { exit: None });
        }
        if self.log.is_killed(child) {
            return Ok(Watch::Waits);
        }
        self.first_turn(child)
    }
}

impl<H: Host + Drop, K: Clock + Drop, T: Teller + Drop> Host for ProcessHost<H, K, T> {
    ghost told = { λ host. host.log.told };

    ghost killed = { λ host. flags host.log.killed };

    ghost watches = { λ host. counts host.log.watches };

    ghost files = { λ host. None };

    ghost plays = { λ host. None };

    ghost faults = { λ host. host.faults };

    fn clear(&mut self, folder: &str) -> Result<(), Miss> {
        let told = Text::from_str(self.alloc, folder)?;
        self.log.make_room()?;
        match self.host.clear(folder) {
            Ok(()) => {
                self.log.note_clear(told, true);
                Ok(())
            }
            Err(Miss::Failed) => {
                self.log.note_clear(told, false);
                self.fail()
            }
            Err(Miss::Memory) => Err(Miss::Memory),
        }
    }

    fn put(&mut self, path: &str, bytes: &[u8]) -> Result<(), Miss> {
        let told = Text::from_str(self.alloc, path)?;
        let kept = bytes_of(self.alloc, bytes)?;
        self.log.make_room()?;
        match self.host.put(path, bytes) {
            Ok(()) => {
                self.log.note_put(told, kept, true);
                Ok(())
            }
            Err(Miss::Failed) => {
                self.log.note_put(told, kept, false);
                self.fail()
            }
            Err(Miss::Memory) => Err(Miss::Memory),
        }
    }

    fn look(&mut self, path: &str) -> Result<bool, Miss> {
        match self.host.look(path) {
            Ok(stands) => Ok(stands),
            Err(miss) => self.miss(miss),
        }
    }

    fn fetch(&mut self, path: &str, limit: u64) -> Result<Option<Bytes>, Miss> {
        let told = Text::from_str(self.alloc, path)?;
        self.log.make_room()?;
        match self.host.fetch(path, limit) {
            Ok(bytes) => {
                let kept = copy_bytes(self.alloc, &bytes)?;
                self.log.note_fetched(told, kept);
                Ok(bytes)
            }
            Err(miss) => self.miss(miss),
        }
    }

    fn start(&mut self, order: &Order) -> Result<u64, Miss> {
        let told = order.copy(self.alloc)?;
        self.log.make_room()?;
        self.processes.reserve(1)?;
        match self.host.start(order) {
            Ok(number) => {
                let child = self.log.start(told);
                push_within(
                    &mut self.processes,
                    Process {
                        number: Some(number),
                        files: None,
                        poster: None,
                    },
                );
                Ok(child)
            }
            Err(miss) => self.miss(miss),
        }
    }

    fn poll(&mut self, child: u64) -> Result<Poll, Miss> {
        if let Some(exit) = self.log.exit(child) {
            return Ok(Poll::Exited(exit));
        }
        if !self.log.has_started(child) || self.log.arming(child).is_some() {
            return Ok(Poll::Runs);
        }
        self.log.make_room()?;
        let Some(number) = number_of(&self.processes, child) else {
            return self.fail();
        };
        match self.host.poll(number) {
            Ok(Poll::Exited(exit)) => {
                self.log.exited(child, exit);
                Ok(Poll::Exited(exit))
            }
            Ok(Poll::Runs) => Ok(Poll::Runs),
            Err(miss) => self.miss(miss),
        }
    }

    fn launch(
        &mut self,
        order: &Order,
        wait: &str,
        post: &str,
        keep_going: bool,
    ) -> Result<u64, Miss> {
        let arming = arming_from(self.alloc, order, wait, post, keep_going)?;
        let files = Told::beside(self.alloc, post)?;
        let order = process_order(self.alloc, &self.starter, &arming, &files)?;
        self.processes.reserve(1)?;
        forget_gone(self.alloc, &mut self.host, &mut self.leaving);
        let poster = poster(&self.log, &arming);
        let child = self.log.arm(self.alloc, arming)?;
        let number = self.host.start(&order).ok();
        push_within(
            &mut self.processes,
            Process {
                number,
                files: Some(files),
                poster,
            },
        );
        Ok(child)
    }

    fn watch(&mut self, child: u64) -> Result<Watch, Miss> {
        match self.watch_once(child) {
            Ok(watch) => {
                self.log.watched(child);
                Ok(watch)
            }
            Err(Miss::Failed) => {
                self.log.watched(child);
                Err(Miss::Failed)
            }
            Err(Miss::Memory) => Err(Miss::Memory),
        }
    }

    fn kill(&mut self, child: u64) -> Result<(), Failed> {
        self.log.kill(child);
        if self.log.exit(child).is_some() || self.log.is_refused(child) {
            return Ok(());
        }
        let ended = match (self.processes.get(child as usize), self.log.arming(child)) {
            (Some(process), Some(arming)) => {
                stop_entry(&mut self.host, &mut self.clock, process, &arming.wait)
            }
            (Some(process), None) => stop(&mut self.host, process),
            (None, _) => Ok(()),
        };
        self.let_go(child);
        if ended.is_err() {
            self.faults = self.faults.saturating_add(1);
        }
        ended
    }
}

/// The number of a child's process at the host below.
fn number_of(processes: &[Process], child: u64) -> Option<u64> {
    match processes.get(child as usize) {
        Some(process) => process.number,
        None => None,
    }
}

/// The child that posts where this one waits.
fn poster_of(processes: &[Process], child: u64) -> Option<u64> {
    match processes.get(child as usize) {
        Some(process) => process.poster,
        None => None,
    }
}
