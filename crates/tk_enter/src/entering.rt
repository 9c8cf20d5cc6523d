ghost use Rattle.std.specs.Prelude.{◌≡◌, ◌↔◌, ◌⊎◌, Bool, true, IfOk, IfSome, OnErr};
ghost use Rattle.tk_entry.specs.Entry.{first_entry, with_note};
ghost use Rattle.tk_edge.specs.declared.order.Order.{Order as AnOrder};
ghost use Rattle.tk_edge.specs.Files.{broken as broken_of, WhereTold};
ghost use Rattle.tk_enter.specs.declared.words.EntryWords.{EntryWords as Words};
ghost use Rattle.tk_enter.specs.Enter.{AreSettled, Finishes, Moment, moment, order_in, ended_by, status as status_of};
ghost use Rattle.tk_enter.specs.Going.{GivesTurn, IsBeginning, IsGoing, KillsChild};
ghost use Rattle.tk_enter.specs.Words.{IsNoForm, Spells};
ghost use Rattle.tk_edge.specs.Causes.{raised, CountsFault};
ghost use Rattle.tk_edge.specs.Markers.{Stands};
ghost use Rattle.tk_enter.specs.declared.entering.Ended.{Ended as Ends_as};

use crate::parent::Parent;
use crate::words::{EntryWords, read_words};
use std::alloc::{AllocError, Global};
use std::sync::Wait;
use tk_edge::{Clock, Failed, Host, Miss, Order, WaitFile, broken};
use tk_entry::{EntryPoint, Turn};
use tk_types::{List, Pair, Text, TryCopy};

/// How the program of an entrypoint ended whose words are of their form.
#[derive(Clone, Copy, Debug, PartialEq, Eq)]
pub enum Ended {
    /// Its entrypoint answered Passed.
    Passed,
    /// Its entrypoint answered Broke.
    Broke,
    /// A call on its host failed.
    Fault,
    /// The file that cancels it stood.
    Cancelled,
    /// There wasn't enough memory.
    Memory,
}

/// The clocks by which the program rests: while it waits for its file, and while its command runs.
#[derive(Drop)]
pub struct Clocks<K> {
    pub waiting: K,
    pub running: K,
}

impl Ended {
    fn status(self) -> u8
        ensures { result ≡ status_of self }
    {
        match self {
            Ended::Passed => 0,
            Ended::Broke => 1,
            Ended::Fault => 3,
            Ended::Cancelled => 4,
            Ended::Memory => 6,
        }
    }
}

/// How a call ended that gave no answer.
fn missed(miss: Miss) -> Ended
    ensures { result ≡ ended_by miss }
{
    match miss {
        Miss::Failed => Ended::Fault,
        Miss::Memory => Ended::Memory,
    }
}

/// Its command, if it was started, is killed.
fn kill<H: Host>(host: &mut H, entry: &EntryPoint) -> Result<(), Failed>
    ensures killed { KillsChild entry.now.armed.child (H.told host.old) (H.killed host.old) (H.killed host.new) }
    ensures told { H.told host.new ≡ H.told host.old }
    ensures files { H.files host.new ≡ H.files host.old }
    ensures count { CountsFault (H.faults host.old) (H.faults host.new) result }
{
    match entry.child() {
        Some(child) => host.kill(child),
        None => Ok(()),
    }
}

/// The program ends so; its command, if it was started, is killed.
fn leave<H: Host>(host: &mut H, entry: &EntryPoint, ended: Ended) -> Ended
    ensures same { result ≡ ended }
    ensures killed { KillsChild entry.now.armed.child (H.told host.old) (H.killed host.old) (H.killed host.new) }
    ensures told { H.told host.new ≡ H.told host.old }
    ensures files { H.files host.new ≡ H.files host.old }
    ensures count { (H.faults host.new ≡ H.faults host.old) ⊎ (H.faults host.new ≡ raised (H.faults host.old)) }
{
    let _ = kill(host, entry);
    ended
}

/// It is cancelled: its command is killed, and then the file of a step that broke is put.
fn cancel<H: Host>(host: &mut H, entry: &EntryPoint, failed: &Text) -> Ended
    ensures finishes { (w : Words) (order : AnOrder) (gone : Bool) (first : Moment) →
        failed.now ≡ broken_of w.post → IsGoing w order entry.now first
        (moment (H.told host.old) (H.files host.old) (H.killed host.old) (H.faults host.old)) →
        WhereTold (H.files host.old) (Stands w.cancel) ⊎ (gone ≡ true) → Finishes w order gone first
        (moment (H.told host.new) (H.files host.new) (H.killed host.new) (H.faults host.new)) result }
    ensures settled { (w : Words) (order : AnOrder) (first : Moment) → IsGoing w order entry.now first
        (moment (H.told host.old) (H.files host.old) (H.killed host.old) (H.faults host.old)) →
        AreSettled first.told (H.told host.new) (H.killed host.new) }
{
    if kill(host, entry).is_err() {
        return Ended::Fault;
    }
    match host.put(failed.as_str(), &[]) {
        Ok(()) => Ended::Cancelled,
        Err(miss) => missed(miss),
    }
}

/// Puts the file that tells that the command was started.
fn put_began<H: Host>(host: &mut H, entry: &EntryPoint, words: &EntryWords) -> Option<Ended>
    ensures gives { (order : AnOrder) (gone : Bool) (first : Moment) →
        IsBeginning words.now order entry.now first
        (moment (H.told host.old) (H.files host.old) (H.killed host.old) (H.faults host.old)) →
        GivesTurn words.now order gone entry.now first
        (moment (H.told host.new) (H.files host.new) (H.killed host.new) (H.faults host.new)) result }
    ensures settled { (order : AnOrder) (first : Moment) → IsBeginning words.now order entry.now first
        (moment (H.told host.old) (H.files host.old) (H.killed host.old) (H.faults host.old)) →
        IfSome result (λ _. AreSettled first.told (H.told host.new) (H.killed host.new)) }
{
    match host.put(words.began.as_str(), &[]) {
        Ok(()) => None,
        Err(miss) => Some(leave(host, entry, missed(miss))),
    }
}

/// One turn of the entrypoint.
fn turn<H: Host>(
    alloc: Global,
    host: &mut H,
    entry: &mut EntryPoint,
    words: &EntryWords,
) -> Option<Ended>
    ensures gives { (order : AnOrder) (gone : Bool) (first : Moment) → IsGoing words.now order entry.old first
        (moment (H.told host.old) (H.files host.old) (H.killed host.old) (H.faults host.old)) →
        GivesTurn words.now order gone entry.new first
        (moment (H.told host.new) (H.files host.new) (H.killed host.new) (H.faults host.new)) result }
    ensures settled { (order : AnOrder) (first : Moment) → IsGoing words.now order entry.old first
        (moment (H.told host.old) (H.files host.old) (H.killed host.old) (H.faults host.old)) →
        IfSome result (λ _. AreSettled first.told (H.told host.new) (H.killed host.new)) }
{
    match entry.turn(alloc, host) {
        Ok(Turn::Waits) => None,
        Ok(Turn::Runs) => None,
        Ok(Turn::Started) => put_began(host, entry, words),
        Ok(Turn::Passed) => Some(Ended::Passed),
        Ok(Turn::Broke) => Some(Ended::Broke),
        Ok(Turn::HostFault) => Some(leave(host, entry, Ended::Fault)),
        Err(AllocError) => Some(leave(host, entry, Ended::Memory)),
    }
}

/// Asks once for its parent, looks once for the file that cancels it, and then takes one turn of the entrypoint.
fn one_turn<H: Host, P: Parent>(
    alloc: Global,
    host: &mut H,
    parent: &mut P,
    entry: &mut EntryPoint,
    words: &EntryWords,
    failed: &Text,
) -> Option<Ended>
    requires { failed.now ≡ broken_of words.now.post }
    ensures gives { (order : AnOrder) (first : Moment) → IsGoing words.now order entry.old first
        (moment (H.told host.old) (H.files host.old) (H.killed host.old) (H.faults host.old)) →
        GivesTurn words.now order (P.gone parent.new) entry.new first
        (moment (H.told host.new) (H.files host.new) (H.killed host.new) (H.faults host.new)) result }
    ensures settled { (order : AnOrder) (first : Moment) → IsGoing words.now order entry.old first
        (moment (H.told host.old) (H.files host.old) (H.killed host.old) (H.faults host.old)) →
        IfSome result (λ _. AreSettled first.told (H.told host.new) (H.killed host.new)) }
{
    if parent.is_gone() {
        return Some(cancel(host, entry, failed));
    }
    match host.look(words.cancel.as_str()) {
        Ok(true) => Some(cancel(host, entry, failed)),
        Ok(false) => turn(alloc, host, entry, words),
        Err(miss) => Some(leave(host, entry, missed(miss))),
    }
}

/// Rests a little between two turns.
fn rest<K: Clock>(clocks: &mut Clocks<K>, entry: &EntryPoint) {
    match entry.child() {
        Some(_) => clocks.running.rest(),
        None => clocks.waiting.rest(),
    }
}

/// Turns of the entrypoint until it ends.
fn turns<T: Wait, K: Clock, H: Host, P: Parent>(
    rt: &T,
    alloc: Global,
    host: &mut H,
    clocks: &mut Clocks<K>,
    parent: &mut P,
    entry: &mut EntryPoint,
    words: &EntryWords,
    failed: &Text,
) -> Ended
    requires failed { failed.now ≡ broken_of words.now.post }
    requires going { IsGoing words.now entry.old.armed.order entry.old
        (moment (H.told host.old) (H.files host.old) (H.killed host.old) (H.faults host.old))
        (moment (H.told host.old) (H.files host.old) (H.killed host.old) (H.faults host.old)) }
    ensures finishes { Finishes words.now entry.old.armed.order (P.gone parent.new)
        (moment (H.told host.old) (H.files host.old) (H.killed host.old) (H.faults host.old))
        (moment (H.told host.new) (H.files host.new) (H.killed host.new) (H.faults host.new)) result }
    ensures settled { AreSettled (H.told host.old) (H.told host.new) (H.killed host.new) }
{
    for _ in rt.forever() {
        if let Some(ended) = one_turn(alloc, host, parent, entry, words, failed) {
            return ended;
        }
        rest(clocks, entry);
    }
    unreachable!()
}

/// The entrypoint of these words, whose command gets this environment, and the file of a step that broke.
fn entrypoint(alloc: Global, words: &EntryWords, env: &[Pair]) -> Result<EntryPoint, AllocError>
    ensures { IfOk result (λ entry. entry ≡ with_note words.now.exit (first_entry (order_in words.now env.now) words.now.wait words.now.post words.now.keep_going)) }
{
    let mut pairs = List::new(alloc);
    pairs.push_all(alloc, env)?;
    let order = Order {
        pod: Text::new(alloc),
        step: 0,
        argv: words.argv.copy(alloc)?,
        env: pairs,
        dir: Text::from_str(alloc, ".")?,
    };
    let wait = WaitFile::new(alloc, words.wait.copy(alloc)?)?;
    let note = words.exit.copy(alloc)?;
    let mut entry = EntryPoint::new(order, wait, words.post.copy(alloc)?, words.keep_going);
    entry.note_exit(note);
    Ok(entry)
}

/// Takes turns of the entrypoint of these words to its end.
#[tactic(auto, using(crate::proofs::Going::fresh, crate::proofs::Going::own_order))]
fn run<T: Wait, K: Clock, H: Host, P: Parent>(
    rt: &T,
    alloc: Global,
    words: &EntryWords,
    env: &[Pair],
    host: &mut H,
    clocks: &mut Clocks<K>,
    parent: &mut P,
) -> Result<Ended, AllocError>
    ensures finishes { IfOk result (Finishes words.now (order_in words.now env.now) (P.gone parent.new)
        (moment (H.told host.old) (H.files host.old) (H.killed host.old) (H.faults host.old))
        (moment (H.told host.new) (H.files host.new) (H.killed host.new) (H.faults host.new))) }
    ensures settled { AreSettled (H.told host.old) (H.told host.new) (H.killed host.new) }
{
    let mut entry = entrypoint(alloc, words, env)?;
    let failed = broken(alloc, words.post.as_str())?;
    Ok(turns(rt, alloc, host, clocks, parent, &mut entry, words, &failed))
}

/// The program of an entrypoint (Tekton, Tasks, Defining Steps). It runs the command that its words say, in this environment and
/// its own folder, once its wait file stands; it puts the file that tells that the command was started, then its exit, and last
/// the post file, with `.err` where the command doesn't pass or the wait file stood with `.err`. Once a turn it asks whether its
/// parent is gone and looks for the file that cancels it, and rests a little. It may wait for its files. Its statuses are 0 where
/// the command passes, 1 where it doesn't or wasn't started, 2 where the words aren't of their form, 3 where a call on the host
/// failed, 4 where it was cancelled or its parent is gone, and 6 where memory runs out.
pub fn enter<T: Wait, K: Clock, H: Host, P: Parent>(
    rt: &T,
    alloc: Global,
    words: &[Text],
    env: &[Pair],
    host: &mut H,
    clocks: &mut Clocks<K>,
    parent: &mut P,
) -> u8
    // words of another form are usage, and nothing else is: then nothing is done
    ensures usage { (result ≡ 2) ↔ IsNoForm words.now }
    ensures nothing { result ≡ 2 → (host.new ≡ host.old) × (clocks.new ≡ clocks.old) × (parent.new ≡ parent.old) }
    // words of their form have one reading, and the status is that of an end that comes so; but for want of memory it is exact
    ensures table { (w : Words) → Spells words.now w →
        (result ≡ 6) ⊎ ((end : Ends_as) × (result ≡ status_of end) × Finishes w (order_in w env.now) (P.gone parent.new)
        (moment (H.told host.old) (H.files host.old) (H.killed host.old) (H.faults host.old))
        (moment (H.told host.new) (H.files host.new) (H.killed host.new) (H.faults host.new)) end) }
    // whatever the status, no command runs on
    ensures settled { AreSettled (H.told host.old) (H.told host.new) (H.killed host.new) }
{
    match read_words(alloc, words) {
        Ok(Some(words)) => match run(rt, alloc, &words, env, host, clocks, parent) {
            Ok(ended) => ended.status(),
            Err(AllocError) => 6,
        },
        Ok(None) => 2,
        Err(AllocError) => 6,
    }
}
