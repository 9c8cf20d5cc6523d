//! The record of a history that plays scripts, with an index of its files, so that no question scans the history.
ghost use Rattle.std.specs.Prelude.{◌≡◌, ◌<◌, ◌+◌, ◌↔◌, ◌||◌, nat_eq, ℕ, true, false, List as Items, [], ◌∷◌, Option, Some, None, Err, option_map, OnOk, OnErr, IfOk, IsTrue, if◌then◌else◌, map, string_bytes, slice_index_or, take, vec_len, vec_capacity};
ghost use Rattle.std.specs.Option.{is_some, IfSome};
ghost use Rattle.std.specs.HashMap.{get_by_text};
ghost use Rattle.tk_edge.specs.declared.event.Event.TheVariants.{Put, Cleared, Fetched, Armed as IsArmed, Started, Refused, Exited};
ghost use Rattle.tk_edge.specs.declared.miss.Miss.TheVariants.{Memory};
ghost use Rattle.tk_edge.specs.Calls.{MarksKilled};
ghost use Rattle.tk_edge.specs.Causes.{IsWatchedOnce};
ghost use Rattle.tk_edge.specs.Files.{IsIn, broken};
ghost use Rattle.tk_edge.specs.History.{Has, IsNew, MayStart, arming_of, order_of, exit_of, is_refused, was_put};
ghost use Rattle.tk_edge.specs.declared.event.Arming.{Arming as AnArming};
ghost use Rattle.tk_edge.specs.declared.order.Order.{Order as AnOrder};
ghost use Rattle.tk_script.specs.FileTable.{is_at, is_pass};
ghost use Rattle.tk_edge.specs.Memory.{has_passed_with, leaves, post_of, some_passed};
ghost use Rattle.tk_edge.specs.Plays.{may_start};
ghost use Rattle.tk_edge.specs.HostLog.{counts, flags};
ghost use Rattle.tk_script.specs.ScriptHost.{EndAsScripted, EndsArmed, EndsOrder, RefuseAsScripted, RefusesScripted, script_file};

use crate::file_table::{FileTable, add_pass, add_within, is_named, widen};
use crate::pod_script::PodScript;
use crate::script_table::{ScriptTable, exit_at};
use std::alloc::{AllocError, Global};
use std::collections::HashMap;
use std::marker::Model;
use tk_edge::{
    Arming, HostLog, Miss, Order, bytes_of, copy_bytes, first_bytes, passes, push_within,
};
use tk_types::{Bytes, List, Text, TryCopy};

/// A history whose children play scripts, and the files that it leaves.
#[derive(Drop)]
pub(crate) struct ScriptLog {
    alloc: Global,
    scripts: ScriptTable,
    log: HostLog,
    files: FileTable,
    begun: HashMap<String, ()>,
    passed: HashMap<String, Vec<Text>>,
    exits: Vec<u8>,
}

impl Model for ScriptLog {
    ghost use Rattle.std.specs.Prelude.{[]};
    ghost use Rattle.std.specs.Option.{is_some, option_map_or};
    ghost use Rattle.std.specs.HashMap.{get_by_text};
    ghost use Rattle.tk_script.specs.ScriptHost.{IsPlayed, Played};

    ghost Value = { Played };

    ghost view = { λ p. record { scripts = p.scripts; log = p.log } };

    ghost invariant = { λ p. IsPlayed p.scripts p.log.told (get_by_text p.files.held)
        (λ pod. is_some (get_by_text p.begun pod)) (λ path. option_map_or (λ names. names.items) (get_by_text p.passed path) []) p.exits.items p.log.count };
}

impl ScriptLog {
    /// The record of a host that did nothing, whose pods stand in the folder `root`.
    pub(crate) fn new(alloc: Global, root: Text, pods: List<PodScript>) -> Result<Self, AllocError>
        ensures scripts { IfOk result (λ played. played.scripts ≡ record { root = root; pods = pods }) }
        ensures told { IfOk result (λ played. played.log.told ≡ []) }
        ensures killed { IfOk result (λ played. played.log.killed ≡ []) }
        ensures watches { IfOk result (λ played. played.log.watches ≡ []) }
    {
        let scripts = ScriptTable::new(alloc, root, pods)?;
        let log = HostLog::new(alloc);
        let files = FileTable::new(alloc);
        let begun = HashMap::new(alloc);
        let passed = HashMap::new(alloc);
        let exits = Vec::new(alloc);
        Ok(ScriptLog {
            alloc,
            scripts,
            log,
            files,
            begun,
            passed,
            exits,
        })
    }

    /// The history.
    pub(crate) fn log(&self) -> &HostLog
        ensures { result.now ≡ self.now.log }
    {
        &self.log
    }

    /// Does nothing: each exit so far is the scripted one, and each entry that was refused found its wait file with `.err`.
    pub(crate) fn follows_script(&self)
        ensures exits { EndAsScripted self.now.scripts self.now.log.told }
        ensures refusals { RefuseAsScripted self.now.scripts self.now.log.told }
    {
        let _ = &self.exits;
    }

    /// The bytes of the file at a path.
    pub(crate) fn file(&self, path: &str) -> Option<&[u8]>
        ensures { option_map (λ b. b.now) result ≡ script_file self.now.scripts path.now self.now.log.told }
    {
        self.files.bytes(path)
    }

    /// Whether the path was put.
    pub(crate) fn was_put(&self, path: &str) -> bool
        ensures { result ≡ was_put path.now self.now.log.told }
    {
        self.files.is_put(path)
    }

    /// Whether the wait file of a child stands with `.err`. It takes no memory.
    pub(crate) fn has_broken(&self, child: u64) -> bool
        ensures { (arming : AnArming) → arming_of child self.now.log.told ≡ Some arming
            → result ≡ is_some (script_file self.now.scripts (broken arming.wait) self.now.log.told) }
    {
        match self.log.failed_wait(child) {
            Some(path) => self.file(path.as_str()).is_some(),
            None => false,
        }
    }

    /// Whether an armed child may start, by what the host did.
    pub(crate) fn may_start(&self, arming: &Arming) -> bool
        ensures { result ≡ may_start arming.now self.now.log.told }
    {
        self.was_put(arming.wait.as_str())
            || self.has_passed(arming.order.pod.as_str(), arming.wait.as_str())
    }

    /// Whether an entry of the pod with this post file passed.
    fn has_passed(&self, pod: &str, path: &str) -> bool
        ensures { result ≡ some_passed pod.now path.now self.now.log.told self.now.log.told }
    {
        is_named(&self.passed, path, pod)
    }

    /// Puts a file, and tells that. The only error is want of memory, and nothing is told then.
    pub(crate) fn put(&mut self, path: &str, bytes: &[u8]) -> Result<(), AllocError>
        ensures told { OnOk result (self.new.log.told ≡ Put path.now bytes.now true ∷ self.old.log.told) }
        ensures same { OnErr result (self.new.log.told ≡ self.old.log.told) }
        ensures scripts { self.new.scripts ≡ self.old.scripts }
        ensures killed { self.new.log.killed ≡ self.old.log.killed }
        ensures watches { self.new.log.watches ≡ self.old.log.watches }
    {
        let told = Text::from_str(self.alloc, path)?;
        let kept = bytes_of(self.alloc, bytes)?;
        let path = String::from_str(self.alloc, path)?;
        let bytes = bytes_of(self.alloc, bytes)?;
        self.log.make_room()?;
        self.files.widen(1)?;
        self.files.write_within(path, bytes, true);
        self.log.note_put(told, kept, true);
        Ok(())
    }

    /// Tells that a put failed.
    pub(crate) fn fail_put(&mut self, path: &str, bytes: &[u8]) -> Result<(), AllocError>
        ensures told { OnOk result (self.new.log.told ≡ Put path.now bytes.now false ∷ self.old.log.told) }
        ensures same { OnErr result (self.new.log.told ≡ self.old.log.told) }
        ensures files { (path : Items ℕ) → script_file self.old.scripts path self.new.log.told ≡ script_file self.old.scripts path self.old.log.told }
        ensures scripts { self.new.scripts ≡ self.old.scripts }
        ensures killed { self.new.log.killed ≡ self.old.log.killed }
        ensures watches { self.new.log.watches ≡ self.old.log.watches }
    {
        let told = Text::from_str(self.alloc, path)?;
        let kept = bytes_of(self.alloc, bytes)?;
        self.log.make_room()?;
        self.log.note_put(told, kept, false);
        Ok(())
    }

    /// Clears a folder, and tells that.
    pub(crate) fn clear(&mut self, folder: &str) -> Result<(), AllocError>
        ensures told { OnOk result (self.new.log.told ≡ Cleared folder.now true ∷ self.old.log.told) }
        ensures same { OnErr result (self.new.log.told ≡ self.old.log.told) }
        ensures scripts { self.new.scripts ≡ self.old.scripts }
        ensures killed { self.new.log.killed ≡ self.old.log.killed }
        ensures watches { self.new.log.watches ≡ self.old.log.watches }
    {
        let told = Text::from_str(self.alloc, folder)?;
        self.log.make_room()?;
        self.files.clear_below(folder);
        self.log.note_clear(told, true);
        Ok(())
    }

    /// Tells that a clear failed.
    pub(crate) fn fail_clear(&mut self, folder: &str) -> Result<(), AllocError>
        ensures told { OnOk result (self.new.log.told ≡ Cleared folder.now false ∷ self.old.log.told) }
        ensures same { OnErr result (self.new.log.told ≡ self.old.log.told) }
        ensures scripts { self.new.scripts ≡ self.old.scripts }
        ensures killed { self.new.log.killed ≡ self.old.log.killed }
        ensures watches { self.new.log.watches ≡ self.old.log.watches }
    {
        let told = Text::from_str(self.alloc, folder)?;
        self.log.make_room()?;
        self.log.note_clear(told, false);
        Ok(())
    }

    /// Gives the first bytes of a file, and tells them.
    pub(crate) fn fetch(&mut self, path: &str, limit: u64) -> Result<Option<Bytes>, Miss>
        ensures read { IfOk result (λ bytes. IsIn limit (script_file self.old.scripts path.now self.old.log.told) bytes) }
        ensures told { IfOk result (λ bytes. self.new.log.told ≡ Fetched path.now bytes ∷ self.old.log.told) }
        ensures memory { OnErr result (result ≡ Err Memory) }
        ensures same { OnErr result (self.new.log.told ≡ self.old.log.told) }
        ensures scripts { self.new.scripts ≡ self.old.scripts }
        ensures killed { self.new.log.killed ≡ self.old.log.killed }
        ensures watches { self.new.log.watches ≡ self.old.log.watches }
    {
        let bytes = first_bytes(self.alloc, self.file(path), limit)?;
        let kept = copy_bytes(self.alloc, &bytes)?;
        let told = Text::from_str(self.alloc, path)?;
        self.log.make_room()?;
        self.log.note_fetched(told, kept);
        Ok(bytes)
    }

    /// Starts an order as a new child.
    pub(crate) fn start(&mut self, order: &Order) -> Result<u64, AllocError>
        ensures number { IfOk result (λ child. IsNew child self.old.log.told) }
        ensures alive { IfOk result (λ child. flags self.new.log.killed child ≡ false) }
        ensures told { IfOk result (λ child. self.new.log.told ≡ Started child order.now ∷ self.old.log.told) }
        ensures same { OnErr result (self.new.log.told ≡ self.old.log.told) }
        ensures scripts { self.new.scripts ≡ self.old.scripts }
        ensures killed { flags self.new.log.killed ≡ flags self.old.log.killed }
        ensures watches { counts self.new.log.watches ≡ counts self.old.log.watches }
    {
        let told = order.copy(self.alloc)?;
        let exit = self.scripts.exit_for(&told);
        let pod = String::from_str(self.alloc, told.pod.as_str())?;
        self.log.make_room()?;
        widen_exits(&mut self.exits)?;
        widen(&mut self.begun, 1)?;
        let left = self.scripts.results(self.alloc, &self.begun, &told.pod)?;
        self.files.widen(left.len())?;
        self.files.write_all(left);
        add_within(&mut self.begun, pod);
        push_within(&mut self.exits, exit);
        Ok(self.log.start(told))
    }

    /// Arms an entry under a new number.
    pub(crate) fn arm(&mut self, arming: Arming) -> Result<u64, AllocError>
        ensures number { IfOk result (λ child. IsNew child self.old.log.told) }
        ensures alive { IfOk result (λ child. flags self.new.log.killed child ≡ false) }
        ensures told { IfOk result (λ child. self.new.log.told ≡ IsArmed child arming ∷ self.old.log.told) }
        ensures same { OnErr result (self.new.log.told ≡ self.old.log.told) }
        ensures scripts { self.new.scripts ≡ self.old.scripts }
        ensures killed { flags self.new.log.killed ≡ flags self.old.log.killed }
        ensures watches { counts self.new.log.watches ≡ counts self.old.log.watches }
    {
        let exit = self.scripts.exit_for(&arming.order);
        widen_exits(&mut self.exits)?;
        let child = self.log.arm(self.alloc, arming)?;
        push_within(&mut self.exits, exit);
        Ok(child)
    }

    /// Starts the order of an armed child.
    pub(crate) fn begin(&mut self, child: u64) -> Result<(), AllocError>
        requires { Has (arming_of child self.old.log.told) (λ _. Unit {0}) }
        ensures told { OnOk result (Has (arming_of child self.old.log.told)
            (λ arming. self.new.log.told ≡ Started child arming.order ∷ self.old.log.told)) }
        ensures same { OnErr result (self.new.log.told ≡ self.old.log.told) }
        ensures scripts { self.new.scripts ≡ self.old.scripts }
        ensures killed { self.new.log.killed ≡ self.old.log.killed }
        ensures watches { self.new.log.watches ≡ self.old.log.watches }
        ensures count { self.new.log.count ≡ self.old.log.count }
    {
        let Some(arming) = self.log.arming(child) else {
            return Err(AllocError);
        };
        let told = arming.order.copy(self.alloc)?;
        let pod = String::from_str(self.alloc, told.pod.as_str())?;
        self.log.make_room()?;
        widen(&mut self.begun, 1)?;
        let left = self.scripts.results(self.alloc, &self.begun, &told.pod)?;
        self.files.widen(left.len())?;
        self.files.write_all(left);
        add_within(&mut self.begun, pod);
        self.log.started(child, told);
        Ok(())
    }

    /// The file that an entry leaves with its exit, or where it was refused; a child that isn't armed leaves none.
    fn post_for(&self, child: u64, exit: Option<u8>) -> Result<Option<String>, AllocError>
        ensures { IfOk result (λ post. (q : Items ℕ) → is_at q (option_map string_bytes post) ≡ leaves q exit (arming_of child self.now.log.told)) }
    {
        match self.log.arming(child) {
            Some(arming) => Ok(Some(post_of(self.alloc, arming, exit)?)),
            None => Ok(None),
        }
    }

    /// With which exit a child was found ended, which is the scripted one.
    pub(crate) fn found(&self, child: u64) -> Option<u8>
        ensures found { result ≡ exit_of child self.now.log.told }
        ensures armed { IfSome result (EndsArmed self.now.scripts self.now.log.told child) }
        ensures started { IfSome result (EndsOrder self.now.scripts self.now.log.told child) }
    {
        match self.log.exit(child) {
            Some(_) => Some(exit_at(&self.exits, child)),
            None => None,
        }
    }

    /// The pod and the post file of an entry that passes with the exit.
    fn pass_for(&self, child: u64, exit: u8) -> Result<Option<(String, Text)>, AllocError>
        ensures { IfOk result (λ pass. (pod path : Items ℕ)
            → is_pass pod path (option_map (λ p. (string_bytes p.0, p.1)) pass)
            ≡ has_passed_with pod path (arming_of child self.now.log.told) (Some exit)) }
    {
        match self.log.arming(child) {
            Some(arming) if passes(arming.keep_going, exit) => Ok(Some((
                String::from_str(self.alloc, arming.post.as_str())?,
                arming.order.pod.copy(self.alloc)?,
            ))),
            _ => Ok(None),
        }
    }

    /// A child ends with its scripted exit.
    pub(crate) fn end(&mut self, child: u64) -> Result<u8, AllocError>
        requires known { child < self.old.log.count }
        requires runs { exit_of child self.old.log.told ≡ None }
        ensures told { IfOk result (λ exit. self.new.log.told ≡ Exited child exit ∷ self.old.log.told) }
        ensures exit { IfOk result (EndsOrder self.old.scripts self.old.log.told child) }
        ensures armed { IfOk result (EndsArmed self.old.scripts self.old.log.told child) }
        ensures same { OnErr result (self.new.log.told ≡ self.old.log.told) }
        ensures scripts { self.new.scripts ≡ self.old.scripts }
        ensures killed { self.new.log.killed ≡ self.old.log.killed }
        ensures watches { self.new.log.watches ≡ self.old.log.watches }
        ensures count { self.new.log.count ≡ self.old.log.count }
    {
        let exit = exit_at(&self.exits, child);
        let post = self.post_for(child, Some(exit))?;
        let pass = self.pass_for(child, exit)?;
        self.log.make_room()?;
        self.files.widen(1)?;
        add_pass(self.alloc, &mut self.passed, pass)?;
        self.files.leave_within(self.alloc, post);
        self.log.exited(child, exit);
        Ok(exit)
    }

    /// A child is refused: its wait file stood with `.err`.
    pub(crate) fn refuse(&mut self, child: u64) -> Result<(), AllocError>
        requires known { child < self.old.log.count }
        requires found { RefusesScripted self.old.scripts (Refused child) self.old.log.told }
        ensures told { OnOk result (self.new.log.told ≡ Refused child ∷ self.old.log.told) }
        ensures same { OnErr result (self.new.log.told ≡ self.old.log.told) }
        ensures scripts { self.new.scripts ≡ self.old.scripts }
        ensures killed { self.new.log.killed ≡ self.old.log.killed }
        ensures watches { self.new.log.watches ≡ self.old.log.watches }
        ensures count { self.new.log.count ≡ self.old.log.count }
    {
        let post = self.post_for(child, None)?;
        self.log.make_room()?;
        self.files.widen(1)?;
        self.files.leave_within(self.alloc, post);
        self.log.refused(child);
        Ok(())
    }

    /// Marks a child as killed.
    pub(crate) fn kill(&mut self, child: u64)
        ensures killed { MarksKilled child self.old.log.told (flags self.old.log.killed) (flags self.new.log.killed) }
        ensures told { self.new.log.told ≡ self.old.log.told }
        ensures watches { self.new.log.watches ≡ self.old.log.watches }
        ensures scripts { self.new.scripts ≡ self.old.scripts }
    {
        self.log.kill(child);
    }

    /// Counts a watch of an armed child.
    pub(crate) fn watched(&mut self, child: u64)
        requires { Has (arming_of child self.old.log.told) (λ _. Unit {0}) }
        ensures watches { IsWatchedOnce child (counts self.old.log.watches) (counts self.new.log.watches) }
        ensures told { self.new.log.told ≡ self.old.log.told }
        ensures killed { self.new.log.killed ≡ self.old.log.killed }
        ensures scripts { self.new.scripts ≡ self.old.scripts }
    {
        if self.log.arming(child).is_some() {
            self.log.watched(child);
        }
    }
}

/// The file that an entry leaves with its exit, or where it was refused.
fn post_of(alloc: Global, arming: &Arming, exit: Option<u8>) -> Result<String, AllocError>
    ensures { IfOk result (λ path. string_bytes path ≡ post_of exit arming.now) }
{
    let mut path = String::from_str(alloc, arming.post.as_str())?;
    match exit {
        Some(exit) if passes(arming.keep_going, exit) => {}
        _ => path.push_str(".err")?,
    }
    Ok(path)
}

/// Makes room for one more exit.
fn widen_exits(exits: &mut Vec<u8>) -> Result<(), AllocError>
    ensures room { OnOk result (vec_len exits.new < vec_capacity exits.new) }
    ensures same { exits.new.items ≡ exits.old.items }
{
    exits.reserve(1)
}
