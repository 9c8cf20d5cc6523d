//! A host over the folders, files and programs of the machine. It tells no file, since whatever else runs on the machine
//! may change them. What its own history says of a step's files counts, whatever a step did to them since: so no step can
//! stand in for another, or keep one waiting. Each call that fails is told on standard error, with the system's reason.
ghost use Rattle.std.specs.Prelude.{◌≡◌, ◌<◌, ℕ, true, false, List, [], ◌∷◌, Option, Some, None, IfOk, OnOk, OnErr, Err, vec_len, vec_capacity};
ghost use Rattle.std.specs.Option.{is_some};
ghost use Rattle.tk_edge.specs.declared.miss.Miss.TheVariants.{Memory, Failed as Fails};
ghost use Rattle.tk_edge.specs.declared.order.Watch.TheVariants as shown;
ghost use Rattle.tk_edge.specs.Causes.{raised, Counts, CountsMiss};
ghost use Rattle.tk_edge.specs.History.{Has, StillWaits, MayStart, arming_of, order_of, exit_of};
ghost use Rattle.tk_edge.specs.HostLog.{counts, flags};
ghost use Rattle.tk_edge.specs.Calls.{TellsWatch};

use crate::children::{Step, advice_on_start, find_exit, spawn_order};
use crate::files::{Trouble, is_plain, make_folder, read_file, remove_folder, write_file};
use std::alloc::{AllocError, Global};
use std::fs;
use std::io::Eprint;
use std::process::Processes;
use std::rt::Files;
use tk_edge::{
    Arming, Failed, Host, HostLog, Miss, Order, Poll, Watch, arming_from, broken, bytes_of,
    copy_bytes, ended, passes, push_within,
};
use tk_types::{Bytes, Text, TryCopy};

/// The machine's folders, files and programs. A watch that only waits takes no memory.
pub struct RealHost<'a, R: Processes> {
    rt: &'a R,
    alloc: Global,
    path: Text,
    aside: Option<Text>,
    moved: u64,
    hears: bool,
    // what an order is called that names no pod
    about: Option<Text>,
    log: HostLog,
    steps: Vec<Step<R::Started>>,
    faults: u64,
}

impl<'a, R: Processes> Drop for RealHost<'a, R> {
    fn drop(self) {
        let RealHost {
            rt: _,
            alloc: _,
            path: _,
            aside: _,
            moved: _,
            hears: _,
            about: _,
            log: _,
            steps: _,
            faults: _,
        } = self;
    }
}

impl<'a, R: Processes + Files + Eprint> RealHost<'a, R> {
    /// A host that did nothing, whose programs are looked for in the folders of `path`, which are separated by colons.
    /// The only error is want of memory.
    pub fn new(rt: &'a R, alloc: Global, path: &str) -> Result<Self, AllocError>
        ensures told { IfOk result (λ host. ⟦<RealHost<'a, R> as Host>⟧.told host ≡ []) }
        ensures killed { IfOk result (λ host. (child : ℕ) → ⟦<RealHost<'a, R> as Host>⟧.killed host child ≡ false) }
        ensures watches { IfOk result (λ host. (child : ℕ) → ⟦<RealHost<'a, R> as Host>⟧.watches host child ≡ 0) }
        ensures files { IfOk result (λ host. ⟦<RealHost<'a, R> as Host>⟧.files host ≡ None) }
        ensures faults { IfOk result (λ host. ⟦<RealHost<'a, R> as Host>⟧.faults host ≡ 0) }
    {
        Ok(RealHost {
            rt,
            alloc,
            path: Text::from_str(alloc, path)?,
            aside: None,
            moved: 0,
            hears: false,
            about: None,
            log: HostLog::new(alloc),
            steps: Vec::new(alloc),
            faults: 0,
        })
    }
}

impl<'a, R: Processes> RealHost<'a, R> {
    // A call failed, which counts.
    fn fail<T>(&mut self) -> Result<T, Miss>
        ensures failed { result ≡ Err Fails }
        ensures count { self.new.faults ≡ raised self.old.faults }
        ensures log { self.new.log ≡ self.old.log }
    {
        self.faults = self.faults.saturating_add(1);
        Err(Miss::Failed)
    }

    // A call missed; it counts where it failed.
    fn miss<T>(&mut self, miss: Miss) -> Result<T, Miss>
        ensures missed { result ≡ Err miss }
        ensures count { CountsMiss self.old.faults self.new.faults miss }
        ensures log { self.new.log ≡ self.old.log }
    {
        if let Miss::Failed = miss {
            self.faults = self.faults.saturating_add(1);
        }
        Err(miss)
    }
}

// What became of the entry behind which another one waits.
enum Before {
    Open,
    Passed,
    Broke,
}

impl<'a, R: Processes> RealHost<'a, R> {
    // What became of the entry before this one. Nothing is before a pod's first one.
    fn before(&self, child: u64) -> Before {
        let Some(step) = self.steps.get(child as usize) else {
            return Before::Open;
        };
        let Some(earlier) = step.behind else {
            return Before::Passed;
        };
        if self.log.is_refused(earlier) {
            return Before::Broke;
        }
        match (self.log.arming(earlier), self.log.exit(earlier)) {
            (Some(arming), Some(exit)) if passes(arming.keep_going, exit) => Before::Passed,
            (_, Some(_)) => Before::Broke,
            _ => Before::Open,
        }
    }

    // Where the next old folder is to go.
    fn away(&mut self) -> Result<Option<Text>, AllocError>
        ensures log { self.new.log ≡ self.old.log }
        ensures faults { self.new.faults ≡ self.old.faults }
    {
        let Some(aside) = &self.aside else {
            return Ok(None);
        };
        self.moved = self.moved.saturating_add(1);
        let folder = aside.as_str();
        let number = self.moved;
        Ok(Some(Text::from_string(format!(in self.alloc; "{folder}/{number}")?)))
    }

    // Whether the entry is of the pod and leaves this post file.
    fn is_entry(&self, child: u64, pod: &str, post: &str) -> bool {
        match self.log.arming(child) {
            Some(arming) => arming.order.pod.as_str() == pod && arming.post.as_str() == post,
            None => false,
        }
    }

    // The newest entry of the order's pod that leaves what this order waits for. The steps of a pod are armed one behind the
    // other, so it is found at once.
    fn entry_before(&self, order: &Order, wait: &str) -> Option<u64> {
        if order.step == 0 {
            return None;
        }
        for child in (0..self.log.count()).rev() {
            if self.is_entry(child, order.pod.as_str(), wait) {
                return Some(child);
            }
        }
        None
    }
}

impl<'a, R: Processes + Files + Eprint> RealHost<'a, R> {
    ghost use Rattle.std.specs.Prelude.{IsTrue};

    /// From now on, what stood in a folder that is cleared is moved below this one, in one step, and removed by nobody here.
    pub fn move_old_to(&mut self, folder: Text)
        ensures told { ⟦<RealHost<'a, R> as Host>⟧.told self.new ≡ ⟦<RealHost<'a, R> as Host>⟧.told self.old }
        ensures killed { ⟦<RealHost<'a, R> as Host>⟧.killed self.new ≡ ⟦<RealHost<'a, R> as Host>⟧.killed self.old }
        ensures watches { ⟦<RealHost<'a, R> as Host>⟧.watches self.new ≡ ⟦<RealHost<'a, R> as Host>⟧.watches self.old }
        ensures faults { ⟦<RealHost<'a, R> as Host>⟧.faults self.new ≡ ⟦<RealHost<'a, R> as Host>⟧.faults self.old }
    {
        self.aside = Some(folder);
    }

    /// From now on, what a child that `start` starts says on standard error goes where that of this program goes. Armed
    /// children have no standard stream.
    pub fn hear_children(&mut self)
        ensures told { ⟦<RealHost<'a, R> as Host>⟧.told self.new ≡ ⟦<RealHost<'a, R> as Host>⟧.told self.old }
        ensures killed { ⟦<RealHost<'a, R> as Host>⟧.killed self.new ≡ ⟦<RealHost<'a, R> as Host>⟧.killed self.old }
        ensures watches { ⟦<RealHost<'a, R> as Host>⟧.watches self.new ≡ ⟦<RealHost<'a, R> as Host>⟧.watches self.old }
        ensures faults { ⟦<RealHost<'a, R> as Host>⟧.faults self.new ≡ ⟦<RealHost<'a, R> as Host>⟧.faults self.old }
    {
        self.hears = true;
    }

    /// From now on, a program that can't be started is told as that of this step, where its order names no pod: it is what an
    /// entrypoint that is a process of its own knows of it.
    pub fn speak_of(&mut self, step: Text)
        ensures told { ⟦<RealHost<'a, R> as Host>⟧.told self.new ≡ ⟦<RealHost<'a, R> as Host>⟧.told self.old }
        ensures killed { ⟦<RealHost<'a, R> as Host>⟧.killed self.new ≡ ⟦<RealHost<'a, R> as Host>⟧.killed self.old }
        ensures watches { ⟦<RealHost<'a, R> as Host>⟧.watches self.new ≡ ⟦<RealHost<'a, R> as Host>⟧.watches self.old }
        ensures faults { ⟦<RealHost<'a, R> as Host>⟧.faults self.new ≡ ⟦<RealHost<'a, R> as Host>⟧.faults self.old }
    {
        self.about = Some(step);
    }

    /// Whether the child is armed. It takes no memory.
    pub fn is_armed(&self, child: u64) -> bool
        ensures { IsTrue result → Has (arming_of child (⟦<RealHost<'a, R> as Host>⟧.told self.now)) (λ _. Unit {0}) }
    {
        self.log.arming(child).is_some()
    }

    /// How many calls failed; at 2^64 - 1 it stands still. It takes no memory.
    pub fn faults(&self) -> u64
        ensures { result ≡ ⟦<RealHost<'a, R> as Host>⟧.faults self.now }
    {
        self.faults
    }
}

impl<'a, R: Processes + Files + Eprint> RealHost<'a, R> {
    // The turn of an entry that neither started nor was refused nor was killed.
    fn first_turn(&mut self, child: u64) -> Result<Watch, Miss>
        requires waits { StillWaits child self.old.log.told }
        requires armed { Has (arming_of child self.old.log.told) (λ _. Unit {0}) }
        ensures told { TellsWatch child self.old.log.told self.new.log.told result }
        ensures killed { self.new.log.killed ≡ self.old.log.killed }
        ensures watches { self.new.log.watches ≡ self.old.log.watches }
        ensures children { self.new.log.count ≡ self.old.log.count }
        ensures count { Counts self.old.faults self.new.faults result }
    {
        let Some(arming) = self.log.arming(child) else {
            return self.fail();
        };
        match self.before(child) {
            Before::Open => Ok(Watch::Waits),
            Before::Broke => self.refuse(child),
            Before::Passed => {
                if self.log.may_start(arming) {
                    self.begin(child)
                } else {
                    Ok(Watch::Waits)
                }
            }
        }
    }

    // The entry before it broke or was refused: so is this one, from now on.
    fn refuse(&mut self, child: u64) -> Result<Watch, Miss>
        requires waits { StillWaits child self.old.log.told }
        requires armed { Has (arming_of child self.old.log.told) (λ _. Unit {0}) }
        ensures told { TellsWatch child self.old.log.told self.new.log.told result }
        ensures killed { self.new.log.killed ≡ self.old.log.killed }
        ensures watches { self.new.log.watches ≡ self.old.log.watches }
        ensures children { self.new.log.count ≡ self.old.log.count }
        ensures count { Counts self.old.faults self.new.faults result }
    {
        self.log.make_room()?;
        let Some(arming) = self.log.arming(child) else {
            return self.fail();
        };
        let post = broken(self.alloc, arming.post.as_str())?;
        match write_file(self.rt, post.as_str(), &[]) {
            Ok(()) => {
                self.log.refused(child);
                Ok(Watch::Broke { exit: None })
            }
            Err(trouble) => {
                tell_of_file(self.rt, "write", post.as_str(), &trouble);
                self.fail()
            }
        }
    }

    // Starts the entry's order.
    fn begin(&mut self, child: u64) -> Result<Watch, Miss>
        requires waits { StillWaits child self.old.log.told }
        requires may { Has (arming_of child self.old.log.told) (λ arming. MayStart arming self.old.log.told) }
        ensures told { TellsWatch child self.old.log.told self.new.log.told result }
        ensures killed { self.new.log.killed ≡ self.old.log.killed }
        ensures watches { self.new.log.watches ≡ self.old.log.watches }
        ensures children { self.new.log.count ≡ self.old.log.count }
        ensures count { Counts self.old.faults self.new.faults result }
    {
        self.log.make_room()?;
        let Some(arming) = self.log.arming(child) else {
            return self.fail();
        };
        let order = arming.order.copy(self.alloc)?;
        let Some(step) = self.steps.get_mut(child as usize) else {
            return self.fail();
        };
        match spawn_order(self.rt, self.alloc, self.path.as_str(), &order, false) {
            Ok(process) => {
                step.running = Some(process);
                self.log.started(child, order);
                Ok(Watch::Started)
            }
            Err(trouble) => {
                let miss = tell_of_start(self.rt, &self.about, &order, &trouble);
                self.miss(miss)
            }
        }
    }

    // The turn of an entry that was started. An exit that is found is told once the post file stands.
    fn later_turn(&mut self, child: u64) -> Result<Watch, Miss>
        requires started { is_some (order_of child self.old.log.told) ≡ true }
        requires runs { exit_of child self.old.log.told ≡ None }
        requires armed { Has (arming_of child self.old.log.told) (λ _. Unit {0}) }
        ensures told { TellsWatch child self.old.log.told self.new.log.told result }
        ensures killed { self.new.log.killed ≡ self.old.log.killed }
        ensures watches { self.new.log.watches ≡ self.old.log.watches }
        ensures children { self.new.log.count ≡ self.old.log.count }
        ensures count { Counts self.old.faults self.new.faults result }
    {
        self.log.make_room()?;
        let exit = match find_exit(&mut self.steps, child) {
            Ok(Some(exit)) => exit,
            Ok(None) => return Ok(Watch::Runs),
            Err(trouble) => {
                tell_of_child(self.rt, "looked for", child, &trouble);
                return self.fail();
            }
        };
        let Some(arming) = self.log.arming(child) else {
            return self.fail();
        };
        let watch = ended(arming.keep_going, exit);
        let post = post_of(self.alloc, arming, exit)?;
        match write_file(self.rt, post.as_str(), &[]) {
            Ok(()) => {
                self.log.exited(child, exit);
                Ok(watch)
            }
            Err(trouble) => {
                tell_of_file(self.rt, "write", post.as_str(), &trouble);
                self.fail()
            }
        }
    }

    // One turn of an armed entry.
    fn watch_once(&mut self, child: u64) -> Result<Watch, Miss>
        requires { Has (arming_of child self.old.log.told) (λ _. Unit {0}) }
        ensures told { TellsWatch child self.old.log.told self.new.log.told result }
        ensures alive { IfOk result (λ watch. watch ≡ shown.Started → flags self.old.log.killed child ≡ false) }
        ensures killed { self.new.log.killed ≡ self.old.log.killed }
        ensures watches { self.new.log.watches ≡ self.old.log.watches }
        ensures known { child < self.new.log.count }
        ensures count { Counts self.old.faults self.new.faults result }
    {
        let Some(arming) = self.log.arming(child) else {
            return self.fail();
        };
        if let Some(exit) = self.log.exit(child) {
            return Ok(ended(arming.keep_going, exit));
        }
        if self.log.has_started(child) {
            return self.later_turn(child);
        }
        if self.log.is_refused(child) {
            return Ok(Watch::Broke { exit: None });
        }
        if self.log.is_killed(child) {
            return Ok(Watch::Waits);
        }
        self.first_turn(child)
    }
}

// The folder of results in a folder.
fn results_of(alloc: Global, folder: &str) -> Result<Text, AllocError> {
    let mut path = String::from_str(alloc, folder)?;
    path.push_str("/results")?;
    Ok(Text::from_string(path))
}

// Moves the folder where it is to go, if that is said and can be done, and else removes it with all in it.
fn leave_folder<R: Files>(
    rt: &R,
    alloc: Global,
    folder: &str,
    away: &Option<Text>,
) -> Result<(), Trouble> {
    if let Some(away) = away {
        if fs::rename(rt, folder, away.as_str()).is_ok() {
            return Ok(());
        }
    }
    remove_folder(rt, alloc, folder)?;
    Ok(())
}

// Makes the folder anew, with its folder of results.
fn clear_folder<R: Files>(
    rt: &R,
    alloc: Global,
    folder: &str,
    results: &str,
    away: &Option<Text>,
) -> Result<(), Trouble> {
    leave_folder(rt, alloc, folder, away)?;
    make_folder(rt, results)?;
    Ok(())
}

// Says why a call on a file or a folder failed, as far as standard error takes it.
fn tell_of_file<R: Eprint>(rt: &R, tried: &str, path: &str, trouble: &Trouble) -> Miss {
    if let Trouble::Memory = trouble {
        return Miss::Memory;
    }
    let advice = trouble.advice();
    let _ = eprintln!(rt; "tkn: can't {tried} {path:?}: {trouble}; {advice}");
    Miss::Failed
}

// Says why an order couldn't be started.
fn tell_of_start<R: Eprint + Files>(
    rt: &R,
    about: &Option<Text>,
    order: &Order,
    trouble: &Trouble,
) -> Miss {
    if let Trouble::Memory = trouble {
        return Miss::Memory;
    }
    let pod = order.pod.as_str();
    let step = order.step;
    let program = match order.argv.as_slice().first() {
        Some(program) => program.as_str(),
        None => "",
    };
    let advice = advice_on_start(rt, order, trouble);
    let _ = match about {
        Some(about) if pod.is_empty() => {
            let about = about.as_str();
            eprintln!(rt; "tkn: {about} can't start {program:?}: {trouble}; {advice}")
        }
        _ => eprintln!(rt; "tkn: {pod}: step {step} can't start {program:?}: {trouble}; {advice}"),
    };
    Miss::Failed
}

// Says what couldn't be done with a child.
fn tell_of_child<R: Eprint>(rt: &R, tried: &str, child: u64, trouble: &Trouble) {
    let _ = eprintln!(rt; "tkn: child {child} can't be {tried}: {trouble}");
}

// The file that an entry leaves when it ended.
fn post_of(alloc: Global, arming: &Arming, exit: u8) -> Result<Text, AllocError> {
    if passes(arming.keep_going, exit) {
        arming.post.copy(alloc)
    } else {
        broken(alloc, arming.post.as_str())
    }
}

impl<'a, R: Processes + Files + Eprint> Host for RealHost<'a, R> {
    ghost told = { λ host. host.log.told };

    ghost killed = { λ host. flags host.log.killed };

    ghost watches = { λ host. counts host.log.watches };

    ghost files = { λ host. None };

    ghost plays = { λ host. None };

    ghost faults = { λ host. host.faults };

    fn clear(&mut self, folder: &str) -> Result<(), Miss> {
        let told = Text::from_str(self.alloc, folder)?;
        let results = results_of(self.alloc, folder)?;
        self.log.make_room()?;
        let away = self.away()?;
        match clear_folder(self.rt, self.alloc, folder, results.as_str(), &away) {
            Ok(()) => {
                self.log.note_clear(told, true);
                Ok(())
            }
            Err(trouble) => {
                self.log.note_clear(told, false);
                tell_of_file(self.rt, "make anew", folder, &trouble);
                self.fail()
            }
        }
    }

    fn put(&mut self, path: &str, bytes: &[u8]) -> Result<(), Miss> {
        let told = Text::from_str(self.alloc, path)?;
        let kept = bytes_of(self.alloc, bytes)?;
        self.log.make_room()?;
        match write_file(self.rt, path, bytes) {
            Ok(()) => {
                self.log.note_put(told, kept, true);
                Ok(())
            }
            Err(trouble) => {
                self.log.note_put(told, kept, false);
                tell_of_file(self.rt, "write", path, &trouble);
                self.fail()
            }
        }
    }

    fn look(&mut self, path: &str) -> Result<bool, Miss> {
        match is_plain(self.rt, path) {
            Ok(stands) => Ok(stands),
            Err(trouble) => {
                let miss = tell_of_file(self.rt, "look for", path, &trouble);
                self.miss(miss)
            }
        }
    }

    fn fetch(&mut self, path: &str, limit: u64) -> Result<Option<Bytes>, Miss> {
        let told = Text::from_str(self.alloc, path)?;
        self.log.make_room()?;
        match read_file(self.rt, self.alloc, path, limit) {
            Ok(bytes) => {
                let kept = copy_bytes(self.alloc, &bytes)?;
                self.log.note_fetched(told, kept);
                Ok(bytes)
            }
            Err(trouble) => {
                let miss = tell_of_file(self.rt, "read", path, &trouble);
                self.miss(miss)
            }
        }
    }

    fn start(&mut self, order: &Order) -> Result<u64, Miss> {
        let told = order.copy(self.alloc)?;
        self.log.make_room()?;
        self.steps.reserve(1)?;
        match spawn_order(self.rt, self.alloc, self.path.as_str(), order, self.hears) {
            Ok(process) => {
                let child = self.log.start(told);
                push_within(
                    &mut self.steps,
                    Step {
                        running: Some(process),
                        found: None,
                        behind: None,
                    },
                );
                Ok(child)
            }
            Err(trouble) => {
                let miss = tell_of_start(self.rt, &self.about, order, &trouble);
                self.miss(miss)
            }
        }
    }

    fn poll(&mut self, child: u64) -> Result<Poll, Miss> {
        if let Some(exit) = self.log.exit(child) {
            return Ok(Poll::Exited(exit));
        }
        if !self.log.has_started(child) || self.log.arming(child).is_some() {
            return Ok(Poll::Runs);
        }
        self.log.make_room()?;
        match find_exit(&mut self.steps, child) {
            Ok(Some(exit)) => {
                self.log.exited(child, exit);
                Ok(Poll::Exited(exit))
            }
            Ok(None) => Ok(Poll::Runs),
            Err(trouble) => {
                tell_of_child(self.rt, "looked for", child, &trouble);
                self.fail()
            }
        }
    }

    fn launch(
        &mut self,
        order: &Order,
        wait: &str,
        post: &str,
        keep_going: bool,
    ) -> Result<u64, Miss> {
        let arming = arming_from(self.alloc, order, wait, post, keep_going)?;
        let behind = self.entry_before(order, wait);
        self.steps.reserve(1)?;
        let child = self.log.arm(self.alloc, arming)?;
        push_within(
            &mut self.steps,
            Step {
                running: None,
                found: None,
                behind,
            },
        );
        Ok(child)
    }

    fn watch(&mut self, child: u64) -> Result<Watch, Miss> {
        match self.watch_once(child) {
            Ok(watch) => {
                self.log.watched(child);
                Ok(watch)
            }
            Err(Miss::Failed) => {
                self.log.watched(child);
                Err(Miss::Failed)
            }
            Err(Miss::Memory) => Err(Miss::Memory),
        }
    }

    fn kill(&mut self, child: u64) -> Result<(), Failed> {
        self.log.kill(child);
        let ended = match self.steps.get_mut(child as usize) {
            Some(step) => step.kill(),
            None => Ok(()),
        };
        match ended {
            Ok(()) => Ok(()),
            Err(trouble) => {
                tell_of_child(self.rt, "killed", child, &trouble);
                self.faults = self.faults.saturating_add(1);
                Err(Failed)
            }
        }
    }
}
