// The turns of actors, each with a pass of its own.
ghost use Rattle.std.specs.Prelude.{◌≡◌, All};
ghost use Rattle.tk_passes.specs.Notes.{Adds};
ghost use Rattle.tk_passes.specs.Standing.{Each, IsPassFor, IsSeated, Stands, Turned};

use crate::actor::{Actor, Member};
use std::alloc::{AllocError, Global};
use std::sync::Wait;
use std::thread::{Threads, for_each_mut, join_mut};
use tk_turn::{Journaled, Pass, TurnLock};

/// How many turns an actor takes in a round at most.
const TURNS: u64 = 64;

/// How many threads the actors of one kind have at most.
const THREADS: usize = 64;

/// A turn with a state that is at hand.
fn on_state<S: Journaled, A: Actor<S>>(
    actor: &mut A,
    alloc: Global,
    state: &mut S,
) -> Result<bool, AllocError>
    requires { A.sound (S.journal state.old) → A.asked (S.journal state.old) actor.old }
    ensures was_sound { A.sound (S.journal state.old) }
    ensures sound { A.sound (S.journal state.new) }
    ensures ready { A.ready (S.journal state.new) actor.new }
    ensures number { A.number actor.new ≡ A.number actor.old }
    ensures adds { Adds (A.number actor.old) (A.such (A.number actor.old)) (S.journal state.old) (S.journal state.new) }
    ensures follows { (start : A) → A.follows_asked start actor.old (S.journal state.old) → A.follows start actor.new (S.journal state.new) }
{
    A::sound_now(state);
    let went = actor.take_turn(alloc, state);
    A::sound_now(state);
    went
}

/// One turn of an actor, which is asked for it before its pass waits for the state.
fn one_turn<T: Wait, S: Journaled, A: Actor<S>>(
    rt: &T,
    alloc: Global,
    lock: &TurnLock<S>,
    actor: &mut A,
    pass: Pass,
) -> (Pass, Result<bool, AllocError>)
    requires pass { IsPassFor lock.now (A.number actor.old) pass }
    requires ready { A.ready pass.claim.seen actor.old }
    ensures pass { IsPassFor lock.now (A.number actor.old) result.0 }
    ensures sound { A.sound result.0.claim.seen }
    ensures stands { Stands A.number A.such A.ready A.follows actor.old pass.claim.seen actor.new result.0.claim.seen }
{
    A::laws();
    actor.ask();
    let mut held = lock.take(rt, pass);
    let went = on_state(actor, alloc, held.state());
    (lock.give(held), went)
}

/// Up to 64 turns of an actor; it leaves at its first one behind which it has nothing to do. The second answer is whether it
/// lacked memory.
fn go<T: Wait, S: Journaled, A: Actor<S>>(
    rt: &T,
    alloc: Global,
    lock: &TurnLock<S>,
    actor: &mut A,
    pass: Pass,
) -> (Pass, bool)
    requires pass { IsPassFor lock.now (A.number actor.old) pass }
    requires sound { A.sound pass.claim.seen }
    requires ready { A.ready pass.claim.seen actor.old }
    ensures pass { IsPassFor lock.now (A.number actor.old) result.0 }
    ensures sound { A.sound result.0.claim.seen }
    ensures stands { Stands A.number A.such A.ready A.follows actor.old pass.claim.seen actor.new result.0.claim.seen }
{
    let mut now = pass;
    for _ in 0..TURNS {
        let (next, went) = one_turn(rt, alloc, lock, actor, now);
        now = next;
        match went {
            Ok(true) => {}
            Ok(false) => return (now, false),
            Err(_) => return (now, true),
        }
    }
    (now, false)
}

/// The turns of one member.
fn turns<T: Wait, S: Journaled, A: Actor<S>>(
    rt: &T,
    alloc: Global,
    lock: &TurnLock<S>,
    member: &mut Member<A>,
)
    requires { IsSeated A.number A.sound A.ready lock.now member.old }
    ensures { Turned A.number A.sound A.such A.ready A.follows lock.now member.old member.new }
{
    if let Some(pass) = member.pass.take() {
        let (pass, lacked) = go(rt, alloc, lock, &mut member.actor, pass);
        member.pass = Some(pass);
        member.lacked = lacked;
    }
}

/// The turns of the members of one kind.
fn all_turns<R: Threads + Wait + Sync, S: Journaled + Send, A: Actor<S> + Send>(
    rt: &R,
    alloc: Global,
    lock: &TurnLock<S>,
    members: &mut [Member<A>],
)
    requires { All (IsSeated A.number A.sound A.ready lock.now) members.old }
    ensures { Each (Turned A.number A.sound A.such A.ready A.follows lock.now) members.old members.new }
{
    for_each_mut(
        rt,
        members,
        THREADS,
        &|_, member|
            requires { IsSeated A.number A.sound A.ready lock.now member.old }
            ensures { Turned A.number A.sound A.such A.ready A.follows lock.entry.now member.old member.new }
        { turns(rt, alloc, lock, member) },
    );
}

/// The turns of the members of two kinds.
pub(crate) fn both_turns<
    R: Threads + Wait + Sync,
    S: Journaled + Send,
    A: Actor<S> + Send,
    B: Actor<S> + Send,
>(rt: &R, alloc: Global, lock: &TurnLock<S>, left: &mut [Member<A>], right: &mut [Member<B>])
    requires left { All (IsSeated A.number A.sound A.ready lock.now) left.old }
    requires right { All (IsSeated B.number B.sound B.ready lock.now) right.old }
    ensures left { Each (Turned A.number A.sound A.such A.ready A.follows lock.now) left.old left.new }
    ensures right { Each (Turned B.number B.sound B.such B.ready B.follows lock.now) right.old right.new }
{
    join_mut(
        rt,
        &mut ||
            requires { All (IsSeated A.number A.sound A.ready lock.now) left.now }
            ensures { Each (Turned A.number A.sound A.such A.ready A.follows lock.entry.now) left.entry.now left.exit.now }
        { all_turns(rt, alloc, lock, left) },
        &mut ||
            requires { All (IsSeated B.number B.sound B.ready lock.now) right.now }
            ensures { Each (Turned B.number B.sound B.such B.ready B.follows lock.entry.now) right.entry.now right.exit.now }
        { all_turns(rt, alloc, lock, right) },
    );
}
