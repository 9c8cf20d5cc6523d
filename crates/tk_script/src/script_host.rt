//! A host in memory whose children play scripts.
ghost use Rattle.std.specs.Prelude.{◌≡◌, ◌+◌, ◌-◌, ◌^◌, ◌↔◌, ◌||◌, ℕ, true, false, nat_eq, min, List as Items, [], Option, Some, None, Err, OnOk, OnErr, IfOk, IsTrue, IsErr, IsErrOf, Contains};
ghost use Rattle.tk_edge.specs.declared.event.Event.TheVariants.{Put, Cleared};
ghost use Rattle.tk_edge.specs.declared.miss.Miss.TheVariants.{Memory, Failed as Fails};
ghost use Rattle.tk_edge.specs.declared.order.Watch.TheVariants as shown;
ghost use Rattle.tk_edge.specs.Calls.{TellsCall, TellsStart, TellsLaunch, TellsPoll, TellsWatch, TellsFetch, MarksKilled, arming_with};
ghost use Rattle.tk_edge.specs.Causes.{Counts, CountsFault, CountsWatch, raised};
ghost use Rattle.tk_edge.specs.Files.{IsIn, IsOwnFile, MayChange, WhereTold, is_under};
ghost use Rattle.tk_edge.specs.History.{Has, arming_of};
ghost use Rattle.tk_edge.specs.HostLog.{counts, flags};
ghost use Rattle.tk_edge.specs.Markers.{FollowsMarkers, IsFileOf, IsPolledFile};
ghost use Rattle.tk_edge.specs.Plays.{IsPlayed};
ghost use Rattle.tk_script.specs.ScriptHost.{EndAsScripted, FollowsScript, IsScripted, PollsScripted, RefuseAsScripted, files_of, plays_of, script_files};

use crate::pod_script::PodScript;
use crate::script_log::ScriptLog;
use std::alloc::{AllocError, Global};
use std::marker::Model;
use tk_edge::{Arming, Failed, Host, Miss, Order, Poll, Script, Watch};
use tk_types::{Bytes, List, Text, TryCopy};

/// A host in memory. Each child ends at its first poll, or at the first watch behind its start, with its script's exit.
/// The result files of a pod's script stand in the pod's folder `results` from the first start of one of its steps on,
/// until they are cleared. The calls whose numbers were given fail, and no others; all calls count, from 0 on, and the
/// count stands still at 2^64 - 1. One that fails did nothing, but a kill marks its child.
#[derive(Drop)]
pub struct ScriptHost {
    alloc: Global,
    played: ScriptLog,
    failures: Script,
}

impl Model for ScriptHost {
    ghost use Rattle.std.specs.Prelude.{◌≡◌, []};
    ghost use Rattle.tk_script.specs.ScriptHost.{Playing};

    ghost Value = { Playing };

    ghost view = { λ h. record {
      scripts = h.played.scripts;
      log = h.played.log;
      failing = h.failures.failing;
      calls = h.failures.calls;
      faults = h.failures.faults;
    } };

    ghost invariant = { λ h. h.failures.failing ≡ [] → h.failures.faults ≡ 0 };
}

impl ScriptHost {
    /// A host that did nothing. The folders of its pods stand in `root`, of scripts for one pod the first counts, and a
    /// pod without a script has exits 0 and no files. `failing` has the numbers of the calls that fail. The only error is
    /// want of memory.
    pub fn new(
        alloc: Global,
        root: Text,
        scripts: List<PodScript>,
        failing: List<u64>,
    ) -> Result<Self, AllocError>
        ensures scripts { IfOk result (λ host. host.scripts ≡ record { root = root; pods = scripts }) }
        ensures failing { IfOk result (λ host. host.failing ≡ failing) }
        ensures calls { IfOk result (λ host. host.calls ≡ 0) }
        ensures told { IfOk result (λ host. ⟦<ScriptHost as Host>⟧.told host ≡ []) }
        ensures killed { IfOk result (λ host. (child : ℕ) → ⟦<ScriptHost as Host>⟧.killed host child ≡ false) }
        ensures watches { IfOk result (λ host. (child : ℕ) → ⟦<ScriptHost as Host>⟧.watches host child ≡ 0) }
        ensures faults { IfOk result (λ host. ⟦<ScriptHost as Host>⟧.faults host ≡ 0) }
    {
        Ok(ScriptHost {
            alloc,
            played: ScriptLog::new(alloc, root, scripts)?,
            failures: Script::new(failing),
        })
    }
}

impl ScriptHost {
    /// Whether the child is armed. It takes no memory.
    pub fn is_armed(&self, child: u64) -> bool
        ensures { IsTrue result → Has (arming_of child (⟦<ScriptHost as Host>⟧.told self.now)) (λ _. Unit {0}) }
    {
        self.played.log().arming(child).is_some()
    }

    /// Does nothing: each exit so far is its script's, each entry that was refused found its wait file with `.err`, and no
    /// call failed where none is to fail.
    pub fn follows_script(&self)
        ensures exits { EndAsScripted self.now.scripts self.now.log.told }
        ensures refusals { RefuseAsScripted self.now.scripts self.now.log.told }
        ensures sure { self.now.failing ≡ [] → self.now.faults ≡ 0 }
    {
        self.played.follows_script();
    }

    /// How many calls failed; at 2^64 - 1 it stands still. It takes no memory.
    pub fn faults(&self) -> u64
        ensures { result ≡ ⟦<ScriptHost as Host>⟧.faults self.now }
    {
        self.failures.faults
    }
}

impl Host for ScriptHost {
    ghost told = { λ host. host.log.told };

    ghost killed = { λ host. flags host.log.killed };

    ghost watches = { λ host. counts host.log.watches };

    ghost files = { λ host. files_of host };

    ghost plays = { λ host. plays_of host };

    ghost faults = { λ host. host.faults };

    fn clear(&mut self, folder: &str) -> Result<(), Miss>
        ensures told { TellsCall (Cleared folder.now true) (Cleared folder.now false) self.old.log.told self.new.log.told result }
        ensures others { MayChange (λ path. is_under folder.now path ≡ true) (files_of self.old) (files_of self.new) }
        ensures empty { OnOk result (WhereTold (files_of self.new) (λ f. (path : List ℕ) → is_under folder.now path ≡ true → f path ≡ None)) }
        ensures killed { flags self.new.log.killed ≡ flags self.old.log.killed }
        ensures watches { counts self.new.log.watches ≡ counts self.old.log.watches }
        ensures plays { plays_of self.new ≡ plays_of self.old }
        ensures count { Counts self.old.faults self.new.faults result }
        ensures scripted { FollowsScript self.old.failing self.old.calls result }
        ensures counted { self.new.calls ≡ min (self.old.calls + 1) (2 ^ 64 - 1) }
        ensures failing { self.new.failing ≡ self.old.failing }
        ensures scripts { self.new.scripts ≡ self.old.scripts }
    {
        if self.failures.next() {
            self.played.fail_clear(folder)?;
            self.failures.fault();
            return Err(Miss::Failed);
        }
        self.played.clear(folder)?;
        Ok(())
    }

    fn put(&mut self, path: &str, bytes: &[u8]) -> Result<(), Miss>
        ensures told { TellsCall (Put path.now bytes.now true) (Put path.now bytes.now false) self.old.log.told self.new.log.told result }
        ensures others { MayChange (λ other. other ≡ path.now) (files_of self.old) (files_of self.new) }
        ensures written { OnOk result (WhereTold (files_of self.new) (λ f. f path.now ≡ Some bytes.now)) }
        ensures killed { flags self.new.log.killed ≡ flags self.old.log.killed }
        ensures watches { counts self.new.log.watches ≡ counts self.old.log.watches }
        ensures plays { plays_of self.new ≡ plays_of self.old }
        ensures count { Counts self.old.faults self.new.faults result }
        ensures scripted { FollowsScript self.old.failing self.old.calls result }
        ensures counted { self.new.calls ≡ min (self.old.calls + 1) (2 ^ 64 - 1) }
        ensures failing { self.new.failing ≡ self.old.failing }
        ensures scripts { self.new.scripts ≡ self.old.scripts }
    {
        if self.failures.next() {
            self.played.fail_put(path, bytes)?;
            self.failures.fault();
            return Err(Miss::Failed);
        }
        self.played.put(path, bytes)?;
        Ok(())
    }

    fn look(&mut self, path: &str) -> Result<bool, Miss>
        ensures stands { IfOk result (λ stands. WhereTold (files_of self.old) (λ f. IsTrue stands ↔ Has (f path.now) (λ _. Unit {0}))) }
        ensures told { self.new.log.told ≡ self.old.log.told }
        ensures files { script_files self.new.scripts self.new.log.told ≡ script_files self.old.scripts self.old.log.told }
        ensures killed { flags self.new.log.killed ≡ flags self.old.log.killed }
        ensures watches { counts self.new.log.watches ≡ counts self.old.log.watches }
        ensures plays { plays_of self.new ≡ plays_of self.old }
        ensures count { Counts self.old.faults self.new.faults result }
        ensures scripted { IsErrOf result Fails ↔ Contains self.old.failing self.old.calls }
        ensures memory { OnErr result (result ≡ Err Fails) }
        ensures counted { self.new.calls ≡ min (self.old.calls + 1) (2 ^ 64 - 1) }
        ensures failing { self.new.failing ≡ self.old.failing }
        ensures scripts { self.new.scripts ≡ self.old.scripts }
    {
        if self.failures.next() {
            self.failures.fault();
            return Err(Miss::Failed);
        }
        Ok(self.played.file(path).is_some())
    }

    fn fetch(&mut self, path: &str, limit: u64) -> Result<Option<Bytes>, Miss>
        ensures read { IfOk result (λ bytes. WhereTold (files_of self.old) (λ f. IsIn limit (f path.now) bytes)) }
        ensures told { TellsFetch path.now self.old.log.told self.new.log.told result }
        ensures files { script_files self.new.scripts self.new.log.told ≡ script_files self.old.scripts self.old.log.told }
        ensures killed { flags self.new.log.killed ≡ flags self.old.log.killed }
        ensures watches { counts self.new.log.watches ≡ counts self.old.log.watches }
        ensures plays { plays_of self.new ≡ plays_of self.old }
        ensures count { Counts self.old.faults self.new.faults result }
        ensures scripted { IsErrOf result Fails ↔ Contains self.old.failing self.old.calls }
        ensures counted { self.new.calls ≡ min (self.old.calls + 1) (2 ^ 64 - 1) }
        ensures failing { self.new.failing ≡ self.old.failing }
        ensures scripts { self.new.scripts ≡ self.old.scripts }
    {
        if self.failures.next() {
            self.failures.fault();
            return Err(Miss::Failed);
        }
        self.played.fetch(path, limit)
    }

    fn start(&mut self, order: &Order) -> Result<u64, Miss>
        ensures told { TellsStart order.now self.old.log.told self.new.log.told result }
        ensures alive { IfOk result (λ child. flags self.new.log.killed child ≡ false) }
        ensures others { MayChange (IsOwnFile order.now.pod) (files_of self.old) (files_of self.new) }
        ensures killed { flags self.new.log.killed ≡ flags self.old.log.killed }
        ensures watches { counts self.new.log.watches ≡ counts self.old.log.watches }
        ensures plays { plays_of self.new ≡ plays_of self.old }
        ensures count { Counts self.old.faults self.new.faults result }
        ensures scripted { IsErrOf result Fails ↔ Contains self.old.failing self.old.calls }
        ensures counted { self.new.calls ≡ min (self.old.calls + 1) (2 ^ 64 - 1) }
        ensures failing { self.new.failing ≡ self.old.failing }
        ensures scripts { self.new.scripts ≡ self.old.scripts }
    {
        if self.failures.next() {
            self.failures.fault();
            return Err(Miss::Failed);
        }
        Ok(self.played.start(order)?)
    }

    fn poll(&mut self, child: u64) -> Result<Poll, Miss>
        ensures told { TellsPoll child self.old.log.told self.new.log.told result }
        ensures others { MayChange (IsPolledFile child self.old.log.told) (files_of self.old) (files_of self.new) }
        ensures killed { flags self.new.log.killed ≡ flags self.old.log.killed }
        ensures watches { counts self.new.log.watches ≡ counts self.old.log.watches }
        ensures plays { plays_of self.new ≡ plays_of self.old }
        ensures count { Counts self.old.faults self.new.faults result }
        ensures scripted { IsErrOf result Fails ↔ Contains self.old.failing self.old.calls }
        ensures exit { IfOk result (PollsScripted self.old.scripts child self.old.log.told) }
        ensures counted { self.new.calls ≡ min (self.old.calls + 1) (2 ^ 64 - 1) }
        ensures failing { self.new.failing ≡ self.old.failing }
        ensures scripts { self.new.scripts ≡ self.old.scripts }
    {
        if self.failures.next() {
            self.failures.fault();
            return Err(Miss::Failed);
        }
        Ok(self.played.poll(child)?)
    }

    fn launch(
        &mut self,
        order: &Order,
        wait: &str,
        post: &str,
        keep_going: bool,
    ) -> Result<u64, Miss>
        ensures told { TellsLaunch (arming_with order.now wait.now post.now keep_going) self.old.log.told self.new.log.told result }
        ensures alive { IfOk result (λ child. flags self.new.log.killed child ≡ false) }
        ensures files { script_files self.new.scripts self.new.log.told ≡ script_files self.old.scripts self.old.log.told }
        ensures killed { flags self.new.log.killed ≡ flags self.old.log.killed }
        ensures watches { counts self.new.log.watches ≡ counts self.old.log.watches }
        ensures plays { plays_of self.new ≡ plays_of self.old }
        ensures count { Counts self.old.faults self.new.faults result }
        ensures scripted { IsErrOf result Fails ↔ Contains self.old.failing self.old.calls }
        ensures counted { self.new.calls ≡ min (self.old.calls + 1) (2 ^ 64 - 1) }
        ensures failing { self.new.failing ≡ self.old.failing }
        ensures scripts { self.new.scripts ≡ self.old.scripts }
    {
        if self.failures.next() {
            self.failures.fault();
            return Err(Miss::Failed);
        }
        let arming = Arming {
            order: order.copy(self.alloc)?,
            wait: Text::from_str(self.alloc, wait)?,
            post: Text::from_str(self.alloc, post)?,
            keep_going,
        };
        Ok(self.played.arm(arming)?)
    }

    fn watch(&mut self, child: u64) -> Result<Watch, Miss>
        requires { Has (arming_of child self.old.log.told) (λ _. Unit {0}) }
        ensures told { TellsWatch child self.old.log.told self.new.log.told result }
        ensures alive { IfOk result (λ watch. watch ≡ shown.Started → flags self.old.log.killed child ≡ false) }
        ensures markers { IfOk result (FollowsMarkers child (flags self.old.log.killed child) self.old.log.told (files_of self.old)) }
        ensures played { IfOk result (IsPlayed (plays_of self.old) (flags self.old.log.killed child) child self.old.log.told) }
        ensures others { MayChange (IsFileOf child self.old.log.told) (files_of self.old) (files_of self.new) }
        ensures killed { flags self.new.log.killed ≡ flags self.old.log.killed }
        ensures watches { CountsWatch child (counts self.old.log.watches) (counts self.new.log.watches) result }
        ensures plays { plays_of self.new ≡ plays_of self.old }
        ensures count { Counts self.old.faults self.new.faults result }
        ensures scripted { IsErrOf result Fails ↔ Contains self.old.failing self.old.calls }
        ensures exact { IfOk result (IsScripted self.old.scripts (flags self.old.log.killed child) child self.old.log.told) }
        ensures memory { result ≡ Err Memory → IsScripted self.old.scripts (flags self.old.log.killed child) child self.old.log.told shown.Waits → ⊥ }
        ensures counted { self.new.calls ≡ min (self.old.calls + 1) (2 ^ 64 - 1) }
        ensures failing { self.new.failing ≡ self.old.failing }
        ensures scripts { self.new.scripts ≡ self.old.scripts }
    {
        if self.failures.next() {
            self.played.watched(child);
            self.failures.fault();
            return Err(Miss::Failed);
        }
        let watch = self.played.watch(child)?;
        self.played.watched(child);
        Ok(watch)
    }

    fn kill(&mut self, child: u64) -> Result<(), Failed>
        ensures killed { MarksKilled child self.old.log.told (flags self.old.log.killed) (flags self.new.log.killed) }
        ensures watches { counts self.new.log.watches ≡ counts self.old.log.watches }
        ensures told { self.new.log.told ≡ self.old.log.told }
        ensures files { script_files self.new.scripts self.new.log.told ≡ script_files self.old.scripts self.old.log.told }
        ensures plays { plays_of self.new ≡ plays_of self.old }
        ensures count { CountsFault self.old.faults self.new.faults result }
        ensures scripted { IsErr result ↔ Contains self.old.failing self.old.calls }
        ensures counted { self.new.calls ≡ min (self.old.calls + 1) (2 ^ 64 - 1) }
        ensures failing { self.new.failing ≡ self.old.failing }
        ensures scripts { self.new.scripts ≡ self.old.scripts }
    {
        self.played.kill(child);
        if self.failures.next() {
            self.failures.fault();
            return Err(Failed);
        }
        Ok(())
    }
}
