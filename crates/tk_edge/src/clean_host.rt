ghost use Rattle.std.specs.Prelude.{bytes_eq, slice_index_or, Err, Ok, MatchResult, take, true, false, ◌≡◌, ◌↔◌, ◌≤◌, ◌+◌, ℕ, List, [], ◌∷◌, reverse, Option, Some, None, option_map, OnOk, OnErr, IfOk, IsTrue, string_bytes, ◌<◌};
ghost use Rattle.tk_edge.specs.History.{Has, IsNew, HasPassed, MayStart, exit_of, order_of, arming_of, is_refused, was_put};
ghost use Rattle.std.specs.Option.{is_some};
ghost use Rattle.tk_edge.specs.declared.miss.Miss.TheVariants.{Memory};
ghost use Rattle.tk_edge.specs.declared.event.Event.TheVariants.{Exited};
ghost use Rattle.tk_edge.specs.Calls.{TellsExit, TellsWatch, arming_with};
ghost use Rattle.tk_edge.specs.HostLog.{counts, flags};
ghost use Rattle.tk_edge.specs.Plays.{IsPlayed};
ghost use Rattle.tk_edge.specs.declared.order.Watch.TheVariants as shown;
ghost use Rattle.tk_pod.specs.Exits.{passes as has_passed};
ghost use Rattle.tk_edge.specs.Files.{is_under, MayChange};
ghost use Rattle.tk_edge.specs.Causes.{Counts, CountsWatch};
ghost use Rattle.tk_edge.specs.Memory.{file_of, files_of, ended_watch, leaves, child_passed, some_passed, Follows, FollowsBehind, HasEnded};
ghost use Rattle.tk_edge.specs.Markers.{Stands, FollowsMarkers, IsFileOf, OnlyWaits};

use crate::event::{Arming, Event};
use crate::host::Host;
use crate::host_log::HostLog;
use crate::miss::{Failed, Miss};
use crate::order::{Order, Poll, Watch};
use crate::texts::{bytes_of, is_broken, is_under};
use std::alloc::{AllocError, Global};
use tk_types::{Bytes, Text, TryCopy};

/// A host in memory that never fails: its count of faults is always 0, so no call answers `Miss::Failed`. Its files are
/// those that its history leaves. Each child ends at its first poll or at the first watch behind its start, with one
/// exit for all. A watch that only waits takes no memory, so it always answers.
#[derive(Drop)]
pub struct CleanHost {
    alloc: Global,
    log: HostLog,
    exit: u8,
}

impl CleanHost {
    /// A host that did nothing, each child of which is to end with this exit.
    pub fn new(alloc: Global, exit: u8) -> Self
        ensures told { ⟦<CleanHost as Host>⟧.told result ≡ [] }
        ensures killed { (child : ℕ) → ⟦<CleanHost as Host>⟧.killed result child ≡ false }
        ensures watches { (child : ℕ) → ⟦<CleanHost as Host>⟧.watches result child ≡ 0 }
        ensures faults { ⟦<CleanHost as Host>⟧.faults result ≡ 0 }
    {
        CleanHost {
            alloc,
            log: HostLog::new(alloc),
            exit,
        }
    }
}

/// The exit of the child once this event came, too.
fn exit_after(event: &Event, child: u64, found: Option<u8>) -> Option<u8>
    ensures { Follows (exit_of child) event.now found result }
{
    match event {
        Event::Exited { child: other, exit } if child == *other => Some(*exit),
        _ => found,
    }
}

/// The exit of the child.
fn exit_in(events: &[Event], child: u64) -> Option<u8>
    ensures { result ≡ exit_of child (reverse events.now) }
{
    let mut found = None;
    for event in events {
        found = exit_after(event, child, found);
    }
    found
}

/// Whether the entry leaves a file at this path, with its exit or where it was refused.
fn leaves(path: &str, exit: Option<u8>, arming: Option<&Arming>) -> bool
    ensures { result ≡ leaves path.now exit (option_map (λ a. a.now) arming.entry) }
{
    match (arming, exit) {
        (Some(arming), Some(exit)) if passes(arming.keep_going, exit) => path
            == arming.post.as_str(),
        (Some(arming), _) => is_broken(path.as_bytes(), arming.post.as_str().as_bytes()),
        (None, _) => false,
    }
}

/// The file at a path once this event came, too.
fn file_after<'a>(
    older: &'a [Event],
    event: &'a Event,
    path: &str,
    found: Option<&'a [u8]>,
) -> Option<&'a [u8]>
    ensures { FollowsBehind (file_of path.now) (reverse older.now) event.now (option_map (λ b. b.now) found.entry) (option_map (λ b. b.now) result) }
{
    match event {
        Event::Put {
            path: other,
            bytes,
            answered: true,
        } if path == other.as_str() => Some(bytes.as_slice()),
        Event::Cleared {
            folder,
            answered: true,
        } if is_below(folder, path) => None,
        Event::Exited { child, exit } if leaves(path, Some(*exit), arming_in(older, *child)) =>
            Some(&[]),
        Event::Refused { child } if leaves(path, None, arming_in(older, *child)) => Some(&[]),
        _ => found,
    }
}

/// Whether the path is below the folder.
fn is_below(folder: &Text, path: &str) -> bool
    ensures { result ≡ is_under folder.now path.now }
{
    is_under(folder.as_str(), path)
}

/// The bytes of the file at a path.
fn file_in<'a>(events: &'a [Event], path: &str) -> Option<&'a [u8]>
    ensures { file_of path.now (reverse events.now) ≡ option_map (λ b. b.now) result }
{
    let mut found = None;
    for index in 0..events.len() {
        found = file_after(&events[..index], &events[index], path, found);
    }
    found
}

/// Whether the path was put. The newest events are asked first.
pub(crate) fn put_in(events: &[Event], path: &str) -> bool
    ensures { was_put path.now (reverse events.now) ≡ result }
{
    for place in (0..events.len()).rev() {
        match &events[place] {
            Event::Put {
                path: other,
                answered: true,
                ..
            } if path == other.as_str() => return true,
            Event::Cleared {
                folder,
                answered: true,
            } if is_below(folder, path) => return false,
            _ => {}
        }
    }
    false
}

/// What the child was armed with once this event came, too.
fn arming_after<'a>(event: &'a Event, child: u64, found: Option<&'a Arming>) -> Option<&'a Arming>
    ensures { Follows (arming_of child) event.now (option_map (λ a. a.now) found.entry) (option_map (λ a. a.now) result) }
{
    match event {
        Event::Armed {
            child: other,
            arming,
        } if child == *other => Some(arming),
        _ => found,
    }
}

/// What the child was armed with.
fn arming_in<'a>(events: &'a [Event], child: u64) -> Option<&'a Arming>
    ensures { arming_of child (reverse events.now) ≡ option_map (λ a. a.now) result }
{
    let mut found = None;
    for event in events {
        found = arming_after(event, child, found);
    }
    found
}

/// Whether a step passes with this exit.
pub fn passes(keep_going: bool, exit: u8) -> bool
    ensures { result ≡ has_passed keep_going exit }
{
    exit == 0 || keep_going
}

/// Whether the child was armed in the pod with this post file, and passed.
fn child_passed(events: &[Event], child: u64, pod: &Text, path: &Text) -> bool
    ensures { result ≡ child_passed pod.now path.now (reverse events.now) child }
{
    match (arming_in(events, child), exit_in(events, child)) {
        (Some(arming), Some(exit)) => {
            arming.order.pod.as_str() == pod.as_str()
                && arming.post.as_str() == path.as_str()
                && passes(arming.keep_going, exit)
        }
        _ => false,
    }
}

/// Whether one of the entries so far passed, and with this event.
fn passed_after(events: &[Event], event: &Event, pod: &Text, path: &Text, found: bool) -> bool
    ensures { Follows (some_passed pod.now path.now (reverse events.now)) event.now found result }
{
    match event {
        Event::Armed { child, .. } => child_passed(events, *child, pod, path) || found,
        _ => found,
    }
}

/// Whether an entry of the pod with this post file passed.
fn some_passed(events: &[Event], pod: &Text, path: &Text) -> bool
    ensures { some_passed pod.now path.now (reverse events.now) (reverse events.now) ≡ result }
{
    let mut found = false;
    for event in events {
        found = passed_after(events, event, pod, path, found);
    }
    found
}

/// Whether the entry may start, by what the host did.
fn may_start(events: &[Event], arming: &Arming) -> bool
    ensures { IsTrue result ↔ MayStart arming.now (reverse events.now) }
{
    put_in(events, arming.wait.as_str()) || some_passed(events, &arming.order.pod, &arming.wait)
}

/// Whether a file stands at this path.
#[tactic(auto, using(crate::proofs::Starts::stands_iff))]
fn stands(events: &[Event], path: &str) -> bool
    ensures { IsTrue result ↔ Stands path.now (files_of (reverse events.now)) }
{
    file_in(events, path).is_some()
}

/// Whether the entry's wait file stands, and it may start.
fn is_ready(events: &[Event], arming: &Arming) -> bool
    ensures { IsTrue result ↔ (Stands arming.now.wait (files_of (reverse events.now)) × MayStart arming.now (reverse events.now)) }
{
    stands(events, arming.wait.as_str()) && may_start(events, arming)
}

impl CleanHost {
    /// Whether a file stands at this path.
    fn stands(&self, path: &str) -> bool
        ensures { IsTrue result ↔ Stands path.now (files_of self.now.log.told) }
    {
        stands(self.log.events(), path)
    }

    /// Whether the entry's wait file stands, and it may start.
    fn is_ready(&self, arming: &Arming) -> bool
        ensures { IsTrue result ↔ (Stands arming.now.wait (files_of self.now.log.told) × MayStart arming.now self.now.log.told) }
    {
        is_ready(self.log.events(), arming)
    }

    /// The child ends, and that is told.
    #[tactic(auto, using(crate::proofs::Remembers::first_exit))]
    fn end(&mut self, child: u64) -> Result<u8, Miss>
        requires started { is_some (order_of child self.old.log.told) ≡ true }
        requires no_exit { exit_of child self.old.log.told ≡ None }
        requires known { child < self.old.log.count }
        ensures told { IfOk result (λ exit. TellsExit child exit self.old.log.told self.new.log.told) }
        ensures same { OnErr result (self.new.log.told ≡ self.old.log.told) }
        ensures killed { self.new.log.killed ≡ self.old.log.killed }
        ensures watches { self.new.log.watches ≡ self.old.log.watches }
        ensures children { self.new.log.count ≡ self.old.log.count }
        ensures memory { OnErr result (result ≡ Err Memory) }
    {
        self.log.make_room()?;
        self.log.exited(child, self.exit);
        Ok(self.exit)
    }
}

/// The answer of a watch whose child has this exit.
pub fn ended(keep_going: bool, exit: u8) -> Watch
    ensures exact { result ≡ ended_watch keep_going exit }
    ensures ends { HasEnded result }
{
    if passes(keep_going, exit) {
        Watch::Passed { exit }
    } else {
        Watch::Broke { exit: Some(exit) }
    }
}

impl CleanHost {
    /// One turn of the armed entry, not counted.
    #[tactic(auto, using(crate::proofs::Remembers::ended_told, crate::proofs::Starts::waits_fit, crate::proofs::Starts::starts_fit, crate::proofs::Starts::refused_fit))]
    fn watch_once(&mut self, child: u64) -> Result<Watch, Miss>
        requires { Has (arming_of child self.old.log.told) (λ _. Unit {0}) }
        ensures told { TellsWatch child self.old.log.told self.new.log.told result }
        ensures alive { IfOk result (λ watch. watch ≡ shown.Started → flags self.old.log.killed child ≡ false) }
        ensures markers { IfOk result (FollowsMarkers child (flags self.old.log.killed child) self.old.log.told (Some (files_of self.old.log.told))) }
        ensures ready { OnlyWaits child self.old.log.told (Some (files_of self.old.log.told)) → result ≡ Ok shown.Waits }
        ensures ends { IfOk result (λ watch. is_some (order_of child self.old.log.told) ≡ true → HasEnded watch) }
        ensures others { MayChange (IsFileOf child self.old.log.told) (Some (files_of self.old.log.told)) (Some (files_of self.new.log.told)) }
        ensures killed { self.new.log.killed ≡ self.old.log.killed }
        ensures watches { self.new.log.watches ≡ self.old.log.watches }
        ensures known { child < self.new.log.count }
        ensures memory { OnErr result (result ≡ Err Memory) }
    {
        let Some(arming) = self.log.arming(child) else {
            return Err(Miss::Memory);
        };
        let keep_going = arming.keep_going;
        if let Some(exit) = self.log.exit(child) {
            return Ok(ended(keep_going, exit));
        }
        if self.log.has_started(child) {
            return Ok(ended(keep_going, self.end(child)?));
        }
        if self.log.is_refused(child) {
            return Ok(Watch::Broke { exit: None });
        }
        if self.log.is_killed(child) {
            return Ok(Watch::Waits);
        }
        let Some(failed) = self.log.failed_wait(child) else {
            return Err(Miss::Memory);
        };
        if self.stands(failed.as_str()) {
            self.log.make_room()?;
            self.log.refused(child);
            return Ok(Watch::Broke { exit: None });
        }
        if !self.is_ready(arming) {
            return Ok(Watch::Waits);
        }
        let order = arming.order.copy(self.alloc)?;
        self.log.make_room()?;
        self.log.started(child, order);
        Ok(Watch::Started)
    }
}

impl Host for CleanHost {
    ghost told = { λ host. host.log.told };

    ghost killed = { λ host. flags host.log.killed };

    ghost watches = { λ host. counts host.log.watches };

    ghost files = { λ host. Some (files_of host.log.told) };

    ghost plays = { λ host. None };

    ghost faults = { λ host. 0 };

    fn clear(&mut self, folder: &str) -> Result<(), Miss> {
        let folder = Text::from_str(self.alloc, folder)?;
        self.log.make_room()?;
        self.log.note_clear(folder, true);
        Ok(())
    }

    fn put(&mut self, path: &str, bytes: &[u8]) -> Result<(), Miss> {
        let path = Text::from_str(self.alloc, path)?;
        let bytes = bytes_of(self.alloc, bytes)?;
        self.log.make_room()?;
        self.log.note_put(path, bytes, true);
        Ok(())
    }

    fn look(&mut self, path: &str) -> Result<bool, Miss> {
        Ok(self.stands(path))
    }

    fn fetch(&mut self, path: &str, limit: u64) -> Result<Option<Bytes>, Miss> {
        let bytes = first_bytes(self.alloc, file_in(self.log.events(), path), limit)?;
        let told = copy_bytes(self.alloc, &bytes)?;
        let path = Text::from_str(self.alloc, path)?;
        self.log.make_room()?;
        self.log.note_fetched(path, told);
        Ok(bytes)
    }

    fn start(&mut self, order: &Order) -> Result<u64, Miss> {
        let order = order.copy(self.alloc)?;
        self.log.make_room()?;
        Ok(self.log.start(order))
    }

    fn poll(&mut self, child: u64) -> Result<Poll, Miss> {
        if let Some(exit) = self.log.exit(child) {
            return Ok(Poll::Exited(exit));
        }
        if !self.log.has_started(child) || self.log.arming(child).is_some() {
            return Ok(Poll::Runs);
        }
        Ok(Poll::Exited(self.end(child)?))
    }

    fn launch(
        &mut self,
        order: &Order,
        wait: &str,
        post: &str,
        keep_going: bool,
    ) -> Result<u64, Miss> {
        let arming = arming_from(self.alloc, order, wait, post, keep_going)?;
        Ok(self.log.arm(self.alloc, arming)?)
    }

    fn watch(&mut self, child: u64) -> Result<Watch, Miss>
        requires { Has (arming_of child (⟦<CleanHost as Host>⟧.told self.old)) (λ _. Unit {0}) }
        ensures told { TellsWatch child (⟦<CleanHost as Host>⟧.told self.old) (⟦<CleanHost as Host>⟧.told self.new) result }
        ensures alive { IfOk result (λ watch. watch ≡ shown.Started → ⟦<CleanHost as Host>⟧.killed self.old child ≡ false) }
        ensures markers { IfOk result (FollowsMarkers child (⟦<CleanHost as Host>⟧.killed self.old child)
            (⟦<CleanHost as Host>⟧.told self.old) (⟦<CleanHost as Host>⟧.files self.old)) }
        ensures ready { OnlyWaits child (⟦<CleanHost as Host>⟧.told self.old) (⟦<CleanHost as Host>⟧.files self.old) → result ≡ Ok shown.Waits }
        ensures ends { IfOk result (λ watch. is_some (order_of child (⟦<CleanHost as Host>⟧.told self.old)) ≡ true → HasEnded watch) }
        ensures played { IfOk result (IsPlayed (⟦<CleanHost as Host>⟧.plays self.old) (⟦<CleanHost as Host>⟧.killed self.old child)
            child (⟦<CleanHost as Host>⟧.told self.old)) }
        ensures others { MayChange (IsFileOf child (⟦<CleanHost as Host>⟧.told self.old))
            (⟦<CleanHost as Host>⟧.files self.old) (⟦<CleanHost as Host>⟧.files self.new) }
        ensures killed { ⟦<CleanHost as Host>⟧.killed self.new ≡ ⟦<CleanHost as Host>⟧.killed self.old }
        ensures watches { CountsWatch child (⟦<CleanHost as Host>⟧.watches self.old) (⟦<CleanHost as Host>⟧.watches self.new) result }
        ensures plays { ⟦<CleanHost as Host>⟧.plays self.new ≡ ⟦<CleanHost as Host>⟧.plays self.old }
        ensures count { Counts (⟦<CleanHost as Host>⟧.faults self.old) (⟦<CleanHost as Host>⟧.faults self.new) result }
    {
        let watch = self.watch_once(child)?;
        self.log.watched(child);
        Ok(watch)
    }

    fn kill(&mut self, child: u64) -> Result<(), Failed> {
        self.log.kill(child);
        Ok(())
    }
}

/// What an entry is armed with, copied.
pub fn arming_from(
    alloc: Global,
    order: &Order,
    wait: &str,
    post: &str,
    keep_going: bool,
) -> Result<Arming, AllocError>
    ensures { IfOk result (λ arming. arming ≡ arming_with order.now wait.now post.now keep_going) }
{
    Ok(Arming {
        order: order.copy(alloc)?,
        wait: Text::from_str(alloc, wait)?,
        post: Text::from_str(alloc, post)?,
        keep_going,
    })
}

/// A copy of bytes, where there are some.
pub fn copy_bytes(alloc: Global, bytes: &Option<Bytes>) -> Result<Option<Bytes>, Miss>
    ensures same { IfOk result (λ copied. copied ≡ bytes.now) }
    ensures memory { OnErr result (result ≡ Err Memory) }
{
    match bytes {
        None => Ok(None),
        Some(bytes) => Ok(Some(bytes_of(alloc, bytes.as_slice())?)),
    }
}

/// At most so many bytes of the file.
pub fn first_bytes(alloc: Global, file: Option<&[u8]>, limit: u64) -> Result<Option<Bytes>, Miss>
    ensures first { IfOk result (λ bytes. bytes ≡ option_map (λ b. take limit b.now) file.entry) }
    ensures memory { OnErr result (result ≡ Err Memory) }
{
    match file {
        None => Ok(None),
        Some(file) => {
            let count = if (file.len() as u64) < limit {
                file.len()
            } else {
                limit as usize
            };
            Ok(Some(bytes_of(alloc, &file[..count])?))
        }
    }
}
