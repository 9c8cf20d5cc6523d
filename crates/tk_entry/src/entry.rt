ghost use Rattle.std.specs.Prelude.{◌≡◌, None, Ok, IfOk, OnErr, true};
ghost use Rattle.tk_edge.specs.Armed.{IsTurnFile};
ghost use Rattle.tk_edge.specs.Files.{MayChange};
ghost use Rattle.tk_entry.specs.declared.entry.Turn.TheVariants.{HostFault};
ghost use Rattle.tk_entry.specs.Entry.{first_entry, turn_of as turn_of_watch, with_note, seen_of, EntryAnswers, EntryMissed};

use std::alloc::{AllocError, Global};
use std::marker::Model;
use tk_edge::{Armed, Host, Miss, Order, WaitFile, Watch, armed_turn};
use tk_types::Text;

/// What one turn of an entrypoint gave.
#[derive(Clone, Copy, Debug, PartialEq, Eq)]
pub enum Turn {
    /// Its wait file doesn't stand yet, nor that of a step that broke.
    Waits,
    /// Its order was started in this turn.
    Started,
    /// Its child runs.
    Runs,
    /// Its child ended with an exit that passes, now or earlier; the post file stands.
    Passed,
    /// Its child ended with an exit that doesn't pass, or the step before it broke; the post file with `.err` stands.
    Broke,
    /// A call on its host failed, in this turn or an earlier one.
    HostFault,
}

/// The entrypoint of one step (Tekton, Tasks, Defining Steps; Specifying `onError` for a step).
#[derive(Drop)]
pub struct EntryPoint {
    armed: Armed,
    failed: bool,
}

impl Model for EntryPoint {
    ghost use Rattle.tk_entry.specs.Entry.{Entry};

    ghost Value = { Entry };

    ghost view = { λ entry. record { armed = entry.armed; failed = entry.failed } };
}

impl EntryPoint {
    /// The entrypoint that starts this order once the file `wait` stands, and leaves the file `post` behind it, each a
    /// whole path. With `keep_going` each exit passes. It takes no memory.
    pub fn new(order: Order, wait: WaitFile, post: Text, keep_going: bool) -> EntryPoint
        ensures { result ≡ first_entry order wait post keep_going }
    {
        EntryPoint {
            armed: Armed {
                order,
                wait,
                post,
                keep_going,
                note: None,
                child: None,
                exit: None,
                last: None,
            },
            failed: false,
        }
    }

    /// Has the exit put at this path, a decimal number and a newline, before the post file. It takes no memory.
    pub fn note_exit(&mut self, path: Text)
        requires { self.old.armed.child ≡ None }
        ensures { self.new ≡ with_note path self.old }
    {
        self.armed.note = Some(path);
    }

    /// One turn: before its order was started, it looks for its wait file with `.err` and then for the wait file, and
    /// starts the order behind the latter; then it polls its child, and leaves its post file once that ended. HostFault
    /// comes where a call on the host failed in this turn, which its count of faults tells; then, and in each later
    /// turn, nothing is started. The only error is want of memory, behind which no order was started either; a turn that
    /// answers Waits takes no memory but what the host takes.
    #[tactic(auto, using(crate::proofs::Unchanged::may_same))]
    pub fn turn<H: Host>(&mut self, alloc: Global, host: &mut H) -> Result<Turn, AllocError>
        ensures turn { IfOk result (EntryAnswers self.old self.new (seen_of (H.told host.old) (H.told host.new) (H.faults host.old) (H.faults host.new)) (H.files host.old)) }
        ensures memory { OnErr result (EntryMissed self.old self.new (seen_of (H.told host.old) (H.told host.new) (H.faults host.old) (H.faults host.new))) }
        ensures others { MayChange (IsTurnFile self.old.armed (H.told host.old)) (H.files host.old) (H.files host.new) }
        ensures killed { H.killed host.new ≡ H.killed host.old }
        ensures watches { H.watches host.new ≡ H.watches host.old }
        ensures again { self.old.failed ≡ true → (host.new ≡ host.old) × (result ≡ Ok HostFault) }
    {
        if self.failed {
            return Ok(Turn::HostFault);
        }
        match armed_turn(alloc, host, &mut self.armed) {
            Ok(watch) => Ok(turn_of(watch)),
            Err(Miss::Failed) => {
                self.failed = true;
                Ok(Turn::HostFault)
            }
            Err(Miss::Memory) => Err(AllocError),
        }
    }

    /// The exit of its child; None exactly where that wasn't found ended. It takes no memory.
    pub fn exit(&self) -> Option<u8>
        ensures { result ≡ self.now.armed.exit }
    {
        self.armed.exit
    }

    /// The number under which its host started the order; None exactly where it wasn't started. It takes no memory.
    pub fn child(&self) -> Option<u64>
        ensures { result ≡ self.now.armed.child }
    {
        self.armed.child
    }
}

/// The answer of an armed entry as that of its turn.
fn turn_of(watch: Watch) -> Turn
    ensures { result ≡ turn_of_watch watch }
{
    match watch {
        Watch::Waits => Turn::Waits,
        Watch::Started => Turn::Started,
        Watch::Runs => Turn::Runs,
        Watch::Passed { .. } => Turn::Passed,
        Watch::Broke { .. } => Turn::Broke,
    }
}
