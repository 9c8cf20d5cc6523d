ghost use Rattle.std.specs.Prelude.{◌≡◌, ◌⊎◌, ℕ, List, ◌∷◌, [], Option, Some, None, OnOk, OnErr, IfOk, true, false};
ghost use Rattle.tk_edge.specs.declared.event.Event.TheVariants.{Put};
ghost use Rattle.tk_edge.specs.Causes.{Counts};
ghost use Rattle.tk_edge.specs.Armed.{TurnGives, FindsPoll, Looks, is_over, noted, post_for, Posts, MissesPut, MissesNote, MissesPosts, IsPostFile, IsTurnFile};
ghost use Rattle.tk_edge.specs.Files.{MayChange};
ghost use Rattle.tk_edge.specs.Markers.{IsPolledFile};

use crate::host::Host;
use crate::miss::Miss;
use crate::order::{Order, Poll, Watch};
use crate::texts::broken;
use crate::wait_file::WaitFile;
use std::alloc::Global;
use tk_types::Text;

/// An entrypoint: what it was armed with, and what it found. `note` is where its exit is put before the post file.
#[derive(Drop)]
pub struct Armed {
    pub order: Order,
    pub wait: WaitFile,
    pub post: Text,
    pub keep_going: bool,
    pub note: Option<Text>,
    pub child: Option<u64>,
    pub exit: Option<u8>,
    pub last: Option<Watch>,
}

/// One turn of an entrypoint. It looks for its wait file with `.err` and then for the wait file, and starts its order
/// behind the latter; once started, it polls its child, and posts how that ended. A turn that only waits takes no memory
/// but what the host takes.
#[tactic(auto, using(crate::proofs::Turns::may_same))]
pub fn armed_turn<H: Host>(alloc: Global, host: &mut H, armed: &mut Armed) -> Result<Watch, Miss>
    ensures turn { TurnGives armed.old armed.new (H.told host.old) (H.told host.new) (H.files host.old) result }
    ensures others { MayChange (IsTurnFile armed.old (H.told host.old)) (H.files host.old) (H.files host.new) }
    ensures killed { H.killed host.new ≡ H.killed host.old }
    ensures watches { H.watches host.new ≡ H.watches host.old }
    ensures count { Counts (H.faults host.old) (H.faults host.new) result }
{
    match armed.last {
        Some(Watch::Passed { exit }) => Ok(Watch::Passed { exit }),
        Some(Watch::Broke { exit }) => Ok(Watch::Broke { exit }),
        _ => match armed.child {
            None => first_turn(alloc, host, armed),
            Some(child) => later_turn(alloc, host, armed, child),
        },
    }
}

#[tactic(auto, using(crate::proofs::Turns::missed_before, crate::proofs::Turns::missed_refusal, crate::proofs::Turns::may_same, crate::proofs::Turns::turn_post, crate::proofs::Turns::turn_start))]
fn first_turn<H: Host>(alloc: Global, host: &mut H, armed: &mut Armed) -> Result<Watch, Miss>
    requires { Looks armed.old }
    ensures turn { TurnGives armed.old armed.new (H.told host.old) (H.told host.new) (H.files host.old) result }
    ensures others { MayChange (IsTurnFile armed.old (H.told host.old)) (H.files host.old) (H.files host.new) }
    ensures killed { H.killed host.new ≡ H.killed host.old }
    ensures watches { H.watches host.new ≡ H.watches host.old }
    ensures count { Counts (H.faults host.old) (H.faults host.new) result }
{
    if armed.wait.look_failed(host)? {
        put_post(alloc, host, armed, false)?;
        armed.last = Some(Watch::Broke { exit: None });
        return Ok(Watch::Broke { exit: None });
    }
    if !host.look(armed.wait.as_str())? {
        armed.last = Some(Watch::Waits);
        return Ok(Watch::Waits);
    }
    let child = host.start(&armed.order)?;
    armed.child = Some(child);
    armed.last = Some(Watch::Started);
    Ok(Watch::Started)
}

#[tactic(auto, using(crate::proofs::Turns::missed_before, crate::proofs::Turns::missed_behind, crate::proofs::Turns::turn_poll))]
fn later_turn<H: Host>(
    alloc: Global,
    host: &mut H,
    armed: &mut Armed,
    child: u64,
) -> Result<Watch, Miss>
    requires not_over { is_over armed.old.last ≡ false }
    requires its_child { armed.old.child ≡ Some child }
    ensures turn { TurnGives armed.old armed.new (H.told host.old) (H.told host.new) (H.files host.old) result }
    ensures others { MayChange (IsTurnFile armed.old (H.told host.old)) (H.files host.old) (H.files host.new) }
    ensures killed { H.killed host.new ≡ H.killed host.old }
    ensures watches { H.watches host.new ≡ H.watches host.old }
    ensures count { Counts (H.faults host.old) (H.faults host.new) result }
{
    let exit = match find_exit(host, armed.exit, child)? {
        Poll::Exited(exit) => exit,
        Poll::Runs => {
            armed.last = Some(Watch::Runs);
            return Ok(Watch::Runs);
        }
    };
    armed.exit = Some(exit);
    let passed = exit == 0 || armed.keep_going;
    post_exit(alloc, host, armed, exit, passed)?;
    let watch = if passed {
        Watch::Passed { exit }
    } else {
        Watch::Broke { exit: Some(exit) }
    };
    armed.last = Some(watch);
    Ok(watch)
}

// The exit that was kept, or what a poll gives now.
#[tactic(auto, using(crate::proofs::Turns::may_same))]
fn find_exit<H: Host>(host: &mut H, kept: Option<u8>, child: u64) -> Result<Poll, Miss>
    ensures found { IfOk result (FindsPoll child kept (H.told host.old) (H.told host.new)) }
    ensures missed { OnErr result (H.told host.new ≡ H.told host.old) }
    ensures others { MayChange (IsPolledFile child (H.told host.old)) (H.files host.old) (H.files host.new) }
    ensures killed { H.killed host.new ≡ H.killed host.old }
    ensures watches { H.watches host.new ≡ H.watches host.old }
    ensures count { Counts (H.faults host.old) (H.faults host.new) result }
{
    match kept {
        Some(exit) => Ok(Poll::Exited(exit)),
        None => host.poll(child),
    }
}

// Puts the exit where it is noted, and then the post file.
#[tactic(auto, using(crate::proofs::Turns::may_same, crate::proofs::Turns::puts_both))]
fn post_exit<H: Host>(
    alloc: Global,
    host: &mut H,
    armed: &Armed,
    exit: u8,
    passed: bool,
) -> Result<(), Miss>
    ensures posted { OnOk result (Posts armed.now.note exit (post_for passed armed.now) (H.told host.old) (H.told host.new)) }
    ensures missed { OnErr result (MissesPosts armed.now.note exit (post_for passed armed.now) (H.told host.old) (H.told host.new)) }
    ensures others { MayChange (λ path. IsPostFile armed.now path ⊎ (armed.now.note ≡ Some path)) (H.files host.old) (H.files host.new) }
    ensures killed { H.killed host.new ≡ H.killed host.old }
    ensures watches { H.watches host.new ≡ H.watches host.old }
    ensures count { Counts (H.faults host.old) (H.faults host.new) result }
{
    put_note(alloc, host, &armed.note, exit)?;
    put_post(alloc, host, armed, passed)
}

// Puts the exit where it is noted.
#[tactic(auto, using(crate::proofs::Turns::put_missed, crate::proofs::Turns::may_same, crate::proofs::Turns::puts_one))]
fn put_note<H: Host>(alloc: Global, host: &mut H, note: &Option<Text>, exit: u8) -> Result<(), Miss>
    ensures put { OnOk result (H.told host.new ≡ noted note.now exit (H.told host.old)) }
    ensures missed { OnErr result (MissesNote note.now exit (H.told host.old) (H.told host.new)) }
    ensures others { MayChange (λ path. note.now ≡ Some path) (H.files host.old) (H.files host.new) }
    ensures killed { H.killed host.new ≡ H.killed host.old }
    ensures watches { H.watches host.new ≡ H.watches host.old }
    ensures count { Counts (H.faults host.old) (H.faults host.new) result }
{
    let Some(note) = note else {
        return Ok(());
    };
    let text = format!(in alloc; "{exit}\n")?;
    host.put(note.as_str(), text.as_bytes())
}

// Puts the post file, with `.err` where the step doesn't pass.
#[tactic(auto, using(crate::proofs::Turns::put_missed, crate::proofs::Turns::may_same, crate::proofs::Turns::puts_one))]
fn put_post<H: Host>(alloc: Global, host: &mut H, armed: &Armed, passed: bool) -> Result<(), Miss>
    ensures put { OnOk result (H.told host.new ≡ Put (post_for passed armed.now) [] true ∷ H.told host.old) }
    ensures missed { OnErr result (MissesPut (post_for passed armed.now) [] (H.told host.old) (H.told host.new)) }
    ensures others { MayChange (IsPostFile armed.now) (H.files host.old) (H.files host.new) }
    ensures killed { H.killed host.new ≡ H.killed host.old }
    ensures watches { H.watches host.new ≡ H.watches host.old }
    ensures count { Counts (H.faults host.old) (H.faults host.new) result }
{
    if passed {
        return host.put(armed.post.as_str(), &[]);
    }
    let post = broken(alloc, armed.post.as_str())?;
    host.put(post.as_str(), &[])
}
