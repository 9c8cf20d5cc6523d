//! The record of a host's history, with an index by child, so that no question scans the history. It calls no system.
ghost use Rattle.std.specs.Prelude.{◌≡◌, ◌≤◌, ◌<◌, ◌+◌, ◌-◌, ℕ, true, false, [], ◌∷◌, Option, Some, None, option_map, OnOk, OnErr, IfOk, reverse, ◌++◌, vec_len, vec_capacity, IsTrue};
ghost use Rattle.std.specs.Option.{is_some, OnSome};
ghost use Rattle.std.specs.Bool.{OnTrue};
ghost use Rattle.tk_edge.specs.declared.event.Event.TheVariants.{Put, Cleared, Fetched, Armed, Started, Refused, Exited};
ghost use Rattle.tk_edge.specs.Causes.{IsWatchedOnce};
ghost use Rattle.tk_edge.specs.Calls.{MarksKilled};
ghost use Rattle.tk_edge.specs.History.{IsNew, HasPassed, MayStart, arming_of, order_of, exit_of, is_refused, was_put};
ghost use Rattle.tk_edge.specs.HostLog.{counts, failed_wait, flags};

use crate::clean_host::{passes, put_in};
use crate::event::{Arming, Event};
use crate::order::Order;
use crate::texts::broken;
use std::alloc::{AllocError, Global};
use std::marker::Model;
use tk_types::{Bytes, Text, TryCopy};

/// What the history says of one child, whose number is its place, and the wait file with `.err` of one that is armed.
#[derive(Drop)]
pub struct ChildLog {
    pub armed: Option<Arming>,
    pub failed: Option<Text>,
    pub started: bool,
    pub exit: Option<u8>,
    pub refused: bool,
}

/// All that a host did, the oldest first, and what that says of each child.
#[derive(Drop)]
pub struct HostLog {
    events: Vec<Event>,
    children: Vec<ChildLog>,
    killed: Vec<bool>,
    watches: Vec<u64>,
}

impl Model for HostLog {
    ghost use Rattle.std.specs.Prelude.{◌-◌, reverse, min, vec_len, vec_capacity, length};
    ghost use Rattle.tk_edge.specs.HostLog.{Logged, IsWhole};

    ghost Value = { Logged };

    ghost view = { λ log. record {
      told = reverse log.events.items;
      killed = log.killed.items;
      watches = log.watches.items;
      count = length log.children.items;
      room = vec_capacity log.events - vec_len log.events;
      child_room = min (vec_capacity log.children - vec_len log.children)
          (min (vec_capacity log.killed - vec_len log.killed) (vec_capacity log.watches - vec_len log.watches));
    } };

    ghost invariant = { λ log. IsWhole (reverse log.events.items) log.children.items log.killed.items log.watches.items };
}

impl HostLog {
    /// The record of a host that did nothing.
    pub fn new(alloc: Global) -> Self
        ensures told { result.told ≡ [] }
        ensures count { result.count ≡ 0 }
        ensures killed { result.killed ≡ [] }
        ensures watches { result.watches ≡ [] }
    {
        HostLog {
            events: Vec::new(alloc),
            children: Vec::new(alloc),
            killed: Vec::new(alloc),
            watches: Vec::new(alloc),
        }
    }

    /// All that was done, the oldest first.
    pub fn events(&self) -> &[Event]
        ensures { reverse result.now ≡ self.now.told }
    {
        &self.events
    }

    /// Makes room for one more event and one more child. The only error is want of memory.
    pub fn make_room(&mut self) -> Result<(), AllocError>
        ensures room { OnOk result (0 < self.new.room) }
        ensures child_room { OnOk result (0 < self.new.child_room) }
        ensures told { self.new.told ≡ self.old.told }
        ensures killed { self.new.killed ≡ self.old.killed }
        ensures watches { self.new.watches ≡ self.old.watches }
        ensures count { self.new.count ≡ self.old.count }
    {
        self.events.reserve(1)?;
        self.children.reserve(1)?;
        self.killed.reserve(1)?;
        self.watches.reserve(1)
    }

    /// What the child was armed with.
    pub fn arming(&self, child: u64) -> Option<&Arming>
        ensures armed { option_map (λ a. a.now) result ≡ arming_of child self.now.told }
        ensures known { OnSome result (child < self.now.count) }
    {
        match self.children.get(child as usize) {
            Some(entry) => entry.armed.as_ref(),
            None => None,
        }
    }

    /// The child's wait file with `.err`, made when it was armed. It takes no memory.
    pub fn failed_wait(&self, child: u64) -> Option<&Text>
        ensures { option_map (λ t. t.now) result ≡ failed_wait (arming_of child self.now.told) }
    {
        match self.children.get(child as usize) {
            Some(entry) => entry.failed.as_ref(),
            None => None,
        }
    }

    /// Whether the child was started.
    pub fn has_started(&self, child: u64) -> bool
        ensures started { result ≡ is_some (order_of child self.now.told) }
        ensures known { OnTrue result (child < self.now.count) }
    {
        match self.children.get(child as usize) {
            Some(entry) => entry.started,
            None => false,
        }
    }

    /// With which exit the child was found ended.
    pub fn exit(&self, child: u64) -> Option<u8>
        ensures { result ≡ exit_of child self.now.told }
    {
        match self.children.get(child as usize) {
            Some(entry) => entry.exit,
            None => None,
        }
    }

    /// Whether the child's wait file was found with `.err`.
    pub fn is_refused(&self, child: u64) -> bool
        ensures { result ≡ is_refused child self.now.told }
    {
        match self.children.get(child as usize) {
            Some(entry) => entry.refused,
            None => false,
        }
    }

    /// Whether the number was killed.
    pub fn is_killed(&self, child: u64) -> bool
        ensures { result ≡ flags self.now.killed child }
    {
        match self.killed.get(child as usize) {
            Some(killed) => *killed,
            None => false,
        }
    }

    /// How many children there are, which is the number of the next.
    pub fn count(&self) -> u64
        ensures count { result ≡ self.now.count }
        ensures fresh { IsNew result self.now.told }
        ensures alive { flags self.now.killed result ≡ false }
    {
        self.children.len() as u64
    }

    /// Tells a put.
    pub fn note_put(&mut self, path: Text, bytes: Bytes, answered: bool)
        requires { 0 < self.old.room }
        ensures told { self.new.told ≡ Put path bytes answered ∷ self.old.told }
        ensures killed { self.new.killed ≡ self.old.killed }
        ensures watches { self.new.watches ≡ self.old.watches }
        ensures count { self.new.count ≡ self.old.count }
    {
        push_within(
            &mut self.events,
            Event::Put {
                path,
                bytes,
                answered,
            },
        );
    }

    /// Tells a clear.
    pub fn note_clear(&mut self, folder: Text, answered: bool)
        requires { 0 < self.old.room }
        ensures told { self.new.told ≡ Cleared folder answered ∷ self.old.told }
        ensures killed { self.new.killed ≡ self.old.killed }
        ensures watches { self.new.watches ≡ self.old.watches }
        ensures count { self.new.count ≡ self.old.count }
    {
        push_within(&mut self.events, Event::Cleared { folder, answered });
    }

    /// Tells what a fetch answered.
    pub fn note_fetched(&mut self, path: Text, bytes: Option<Bytes>)
        requires { 0 < self.old.room }
        ensures told { self.new.told ≡ Fetched path bytes ∷ self.old.told }
        ensures killed { self.new.killed ≡ self.old.killed }
        ensures watches { self.new.watches ≡ self.old.watches }
        ensures count { self.new.count ≡ self.old.count }
    {
        push_within(&mut self.events, Event::Fetched { path, bytes });
    }

    /// A new child, which is armed. The only error is want of memory, and nothing is told then.
    pub fn arm(&mut self, alloc: Global, arming: Arming) -> Result<u64, AllocError>
        ensures count { IfOk result (λ _. self.new.count ≡ self.old.count + 1) }
        ensures same_count { OnErr result (self.new.count ≡ self.old.count) }
        ensures number { IfOk result (λ child. child ≡ self.old.count) }
        ensures fresh { IfOk result (λ child. IsNew child self.old.told) }
        ensures told { IfOk result (λ child. self.new.told ≡ Armed child arming ∷ self.old.told) }
        ensures same { OnErr result (self.new.told ≡ self.old.told) }
        ensures alive { IfOk result (λ child. flags self.new.killed child ≡ false) }
        ensures killed { flags self.new.killed ≡ flags self.old.killed }
        ensures watches { counts self.new.watches ≡ counts self.old.watches }
    {
        self.make_room()?;
        let kept = arming.copy(alloc)?;
        let failed = broken(alloc, kept.wait.as_str())?;
        let child = self.count();
        push_within(&mut self.events, Event::Armed { child, arming });
        push_within(
            &mut self.children,
            ChildLog {
                armed: Some(kept),
                failed: Some(failed),
                started: false,
                exit: None,
                refused: false,
            },
        );
        push_within(&mut self.killed, false);
        push_within(&mut self.watches, 0);
        Ok(child)
    }

    /// A new child, which was started.
    pub fn start(&mut self, order: Order) -> u64
        requires room { 0 < self.old.room }
        requires child_room { 0 < self.old.child_room }
        ensures count { self.new.count ≡ self.old.count + 1 }
        ensures number { result ≡ self.old.count }
        ensures fresh { IsNew result self.old.told }
        ensures told { self.new.told ≡ Started result order ∷ self.old.told }
        ensures alive { flags self.new.killed result ≡ false }
        ensures killed { flags self.new.killed ≡ flags self.old.killed }
        ensures watches { counts self.new.watches ≡ counts self.old.watches }
    {
        let child = self.count();
        push_within(&mut self.events, Event::Started { child, order });
        push_within(
            &mut self.children,
            ChildLog {
                armed: None,
                failed: None,
                started: true,
                exit: None,
                refused: false,
            },
        );
        push_within(&mut self.killed, false);
        push_within(&mut self.watches, 0);
        child
    }

    /// Tells that an armed child was started.
    pub fn started(&mut self, child: u64, order: Order)
        requires room { 0 < self.old.room }
        requires known { child < self.old.count }
        ensures told { self.new.told ≡ Started child order ∷ self.old.told }
        ensures killed { self.new.killed ≡ self.old.killed }
        ensures count { self.new.count ≡ self.old.count }
        ensures watches { self.new.watches ≡ self.old.watches }
    {
        self.children[child as usize].started = true;
        push_within(&mut self.events, Event::Started { child, order });
    }

    /// Tells with which exit a child was found ended.
    pub fn exited(&mut self, child: u64, exit: u8)
        requires room { 0 < self.old.room }
        requires known { child < self.old.count }
        ensures told { self.new.told ≡ Exited child exit ∷ self.old.told }
        ensures killed { self.new.killed ≡ self.old.killed }
        ensures count { self.new.count ≡ self.old.count }
        ensures watches { self.new.watches ≡ self.old.watches }
    {
        self.children[child as usize].exit = Some(exit);
        push_within(&mut self.events, Event::Exited { child, exit });
    }

    /// Tells that a child's wait file was found with `.err`.
    pub fn refused(&mut self, child: u64)
        requires room { 0 < self.old.room }
        requires known { child < self.old.count }
        ensures told { self.new.told ≡ Refused child ∷ self.old.told }
        ensures killed { self.new.killed ≡ self.old.killed }
        ensures count { self.new.count ≡ self.old.count }
        ensures watches { self.new.watches ≡ self.old.watches }
    {
        self.children[child as usize].refused = true;
        push_within(&mut self.events, Event::Refused { child });
    }

    /// Marks a child as killed; a number that wasn't given stays as it was. It takes no memory.
    pub fn kill(&mut self, child: u64)
        ensures killed { MarksKilled child self.old.told (flags self.old.killed) (flags self.new.killed) }
        ensures told { self.new.told ≡ self.old.told }
        ensures watches { self.new.watches ≡ self.old.watches }
        ensures count { self.new.count ≡ self.old.count }
    {
        if (child as usize) < self.killed.len() {
            self.killed[child as usize] = true;
        }
    }

    /// Counts a watch of a child.
    pub fn watched(&mut self, child: u64)
        requires { child < self.old.count }
        ensures watches { IsWatchedOnce child (counts self.old.watches) (counts self.new.watches) }
        ensures count { self.new.count ≡ self.old.count }
        ensures told { self.new.told ≡ self.old.told }
        ensures killed { self.new.killed ≡ self.old.killed }
    {
        let count = self.watches[child as usize];
        self.watches[child as usize] = count.saturating_add(1);
    }
}

impl HostLog {
    // The child was armed in the pod with this post file, and passed.
    fn entry_passed(&self, child: u64, pod: &Text, path: &Text) -> bool
        ensures { IsTrue result → HasPassed pod.now path.now self.now.told }
    {
        match (self.arming(child), self.exit(child)) {
            (Some(arming), Some(exit)) => {
                arming.order.pod.as_str() == pod.as_str()
                    && arming.post.as_str() == path.as_str()
                    && passes(arming.keep_going, exit)
            }
            _ => false,
        }
    }

    // The newest are asked first, since the steps of a pod are armed one behind the other.
    fn some_passed(&self, pod: &Text, path: &Text) -> bool
        ensures { IsTrue result → HasPassed pod.now path.now self.now.told }
    {
        for child in (0..self.count()).rev() {
            if self.entry_passed(child, pod, path) {
                return true;
            }
        }
        false
    }

    fn was_put(&self, path: &str) -> bool
        ensures { was_put path.now self.now.told ≡ result }
    {
        put_in(&self.events, path)
    }

    /// Whether the wait file of an armed child stands, by what the host did: it was put, or it's the post file of an
    /// entry of the same pod that passed. What a pod's first step waits for was put shortly before it was armed, what
    /// any other waits for is the post file of one that was armed shortly before.
    pub fn may_start(&self, arming: &Arming) -> bool
        ensures { IsTrue result → MayStart arming.now self.now.told }
    {
        let order = &arming.order;
        let wait = &arming.wait;
        if order.step == 0 {
            self.was_put(wait.as_str()) || self.some_passed(&order.pod, wait)
        } else {
            self.some_passed(&order.pod, wait) || self.was_put(wait.as_str())
        }
    }
}

/// Pushes where there is room.
pub fn push_within<T: Drop>(items: &mut Vec<T>, item: T)
    requires { vec_len items.old < vec_capacity items.old }
    ensures { items.new.items ≡ items.old.items ++ item ∷ [] }
{
    let _ = items.push(item);
}
