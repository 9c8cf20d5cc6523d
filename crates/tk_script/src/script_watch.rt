//! How the children of a record that plays scripts end, and what a watch answers.
ghost use Rattle.std.specs.Prelude.{◌≡◌, ◌<◌, ◌&&◌, ℕ, true, false, List as Items, Option, Some, None, OnOk, OnErr, IfOk, IsTrue, option_map};
ghost use Rattle.std.specs.Option.{is_some, IfSome, OnSome};
ghost use Rattle.std.specs.Bool.{OnTrue};
ghost use Rattle.tk_edge.specs.declared.event.Arming.{Arming as AnArming};
ghost use Rattle.tk_edge.specs.declared.order.Order.{Order as AnOrder};
ghost use Rattle.tk_edge.specs.declared.order.Watch.TheVariants as shown;
ghost use Rattle.tk_edge.specs.Calls.{TellsExit, TellsPoll, TellsWatch};
ghost use Rattle.tk_edge.specs.Causes.{IsWatchedOnce};
ghost use Rattle.tk_edge.specs.History.{Has, StillWaits, arming_of, exit_of, is_refused, order_of};
ghost use Rattle.tk_edge.specs.Plays.{may_start};
ghost use Rattle.tk_edge.specs.HostLog.{counts, flags};
ghost use Rattle.tk_script.specs.ScriptHost.{EndsArmed, EndsOrder, IsScripted, PollsScripted, script_file, waiting_watch};

use crate::script_log::ScriptLog;
use std::alloc::AllocError;

impl ScriptLog {
    /// Whether the wait file of an armed child stands, and it may start.
    fn is_ready(&self, arming: &Arming) -> bool
        ensures { result ≡ (is_some (script_file self.now.scripts arming.now.wait self.now.log.told) && may_start arming.now self.now.log.told) }
    {
        self.file(arming.wait.as_str()).is_some() && self.may_start(arming)
    }

    /// The exit of a child that was started: it ends now, unless it did.
    fn ends(&mut self, child: u64) -> Result<u8, AllocError>
        requires known { child < self.old.log.count }
        requires started { is_some (order_of child self.old.log.told) ≡ true }
        ensures told { IfOk result (λ exit. TellsExit child exit self.old.log.told self.new.log.told) }
        ensures exit { IfOk result (EndsOrder self.old.scripts self.old.log.told child) }
        ensures armed { IfOk result (EndsArmed self.old.scripts self.old.log.told child) }
        ensures same { OnErr result (self.new.log.told ≡ self.old.log.told) }
        ensures scripts { self.new.scripts ≡ self.old.scripts }
        ensures killed { self.new.log.killed ≡ self.old.log.killed }
        ensures watches { self.new.log.watches ≡ self.old.log.watches }
        ensures count { self.new.log.count ≡ self.old.log.count }
    {
        match self.found(child) {
            Some(exit) => Ok(exit),
            None => self.end(child),
        }
    }

    /// Whether a child runs or ended. An armed one is asked by `watch`.
    #[tactic(auto, using(crate::proofs::ScriptFiles::exit_same))]
    pub(crate) fn poll(&mut self, child: u64) -> Result<Poll, AllocError>
        ensures told { IfOk result (λ poll. TellsPoll child self.old.log.told self.new.log.told (Ok poll)) }
        ensures files { OnOk result ((q : Items ℕ)
            → script_file self.new.scripts q self.new.log.told ≡ script_file self.old.scripts q self.old.log.told) }
        ensures scripted { IfOk result (PollsScripted self.old.scripts child self.old.log.told) }
        ensures same { OnErr result (self.new.log.told ≡ self.old.log.told) }
        ensures scripts { self.new.scripts ≡ self.old.scripts }
        ensures killed { self.new.log.killed ≡ self.old.log.killed }
        ensures watches { self.new.log.watches ≡ self.old.log.watches }
    {
        if let Some(exit) = self.found(child) {
            return Ok(Poll::Exited(exit));
        }
        if !self.log().has_started(child) || self.log().arming(child).is_some() {
            return Ok(Poll::Runs);
        }
        Ok(Poll::Exited(self.ends(child)?))
    }

    /// The turn of an entry that neither started nor was refused nor was killed.
    #[tactic(auto, using(crate::proofs::ScriptFiles::begun_told))]
    fn first_turn(&mut self, child: u64) -> Result<Watch, AllocError>
        requires waits { StillWaits child self.old.log.told }
        requires armed { Has (arming_of child self.old.log.told) (λ _. Unit {0}) }
        ensures told { IfOk result (λ watch. TellsWatch child self.old.log.told self.new.log.told (Ok watch)) }
        ensures exact { IfOk result (λ watch. Has (arming_of child self.old.log.told)
            (λ arming. watch ≡ waiting_watch self.old.scripts self.old.log.told arming)) }
        ensures memory { OnErr result (Has (arming_of child self.old.log.told)
            (λ arming. shown.Waits ≡ waiting_watch self.old.scripts self.old.log.told arming) → ⊥) }
        ensures same { OnErr result (self.new.log.told ≡ self.old.log.told) }
        ensures scripts { self.new.scripts ≡ self.old.scripts }
        ensures killed { self.new.log.killed ≡ self.old.log.killed }
        ensures watches { self.new.log.watches ≡ self.old.log.watches }
        ensures count { self.new.log.count ≡ self.old.log.count }
    {
        let Some(arming) = self.log().arming(child) else {
            return Err(AllocError);
        };
        if self.has_broken(child) {
            self.refuse(child)?;
            return Ok(Watch::Broke { exit: None });
        }
        if !self.is_ready(arming) {
            return Ok(Watch::Waits);
        }
        self.begin(child)?;
        Ok(Watch::Started)
    }

    /// One turn of an armed entry.
    pub(crate) fn watch(&mut self, child: u64) -> Result<Watch, AllocError>
        requires { Has (arming_of child self.old.log.told) (λ _. Unit {0}) }
        ensures told { IfOk result (λ watch. TellsWatch child self.old.log.told self.new.log.told (Ok watch)) }
        ensures exact { IfOk result (IsScripted self.old.scripts (flags self.old.log.killed child) child self.old.log.told) }
        ensures memory { OnErr result (IsScripted self.old.scripts (flags self.old.log.killed child) child self.old.log.told shown.Waits → ⊥) }
        ensures same { OnErr result (self.new.log.told ≡ self.old.log.told) }
        ensures scripts { self.new.scripts ≡ self.old.scripts }
        ensures killed { self.new.log.killed ≡ self.old.log.killed }
        ensures watches { self.new.log.watches ≡ self.old.log.watches }
        ensures known { child < self.new.log.count }
    {
        let Some(arming) = self.log().arming(child) else {
            return Err(AllocError);
        };
        let keep_going = arming.keep_going;
        if self.log().has_started(child) {
            return Ok(ended(keep_going, self.ends(child)?));
        }
        if self.log().is_refused(child) {
            return Ok(Watch::Broke { exit: None });
        }
        if self.log().is_killed(child) {
            return Ok(Watch::Waits);
        }
        self.first_turn(child)
    }
}

use tk_edge::{Arming, Miss, Poll, Watch, ended};
