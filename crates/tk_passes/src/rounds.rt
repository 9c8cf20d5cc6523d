// One round.
ghost use Rattle.std.specs.Prelude.{◌≡◌, ◌++◌, List, true, All};
ghost use Rattle.tk_turn.specs.Claims.{Distinct, Note, OwnsAll};
ghost use Rattle.tk_passes.specs.Standing.{Each, Grows, StandsBehind, numbers};

use crate::actor::{Actor, Member};
use crate::back::take_back;
use crate::handing::hand_out;
use crate::turns::both_turns;
use std::alloc::{AllocError, Global};
use std::sync::Wait;
use std::thread::Threads;
use tk_turn::{Journaled, Pass, TurnLock};

/// Whether a member lacked memory.
fn any_lacked<A>(members: &[Member<A>]) -> bool {
    for member in members {
        if member.lacked {
            return true;
        }
    }
    false
}

/// The passes go out, the members take their turns, and the passes come back.
fn out_and_back<
    R: Threads + Wait + Sync,
    S: Journaled + Send,
    A: Actor<S> + Send,
    B: Actor<S> + Send,
>(
    rt: &R,
    alloc: Global,
    lock: &TurnLock<S>,
    pass: &mut Pass,
    left: &mut [Member<A>],
    right: &mut [Member<B>],
)
    requires lock { pass.old.lock ≡ lock.now }
    requires first { pass.old.claim.first ≡ true }
    requires all { OwnsAll pass.old.claim }
    requires distinct { Distinct (numbers A.number left.old ++ numbers B.number right.old) }
    // both kinds say the same of journals
    requires alike { (journal : List Note) → (A.sound journal → B.sound journal) × (B.sound journal → A.sound journal) }
    requires sound { A.sound pass.old.claim.seen }
    requires left { All (λ m. A.ready pass.old.claim.seen m.actor) left.old }
    requires right { All (λ m. B.ready pass.old.claim.seen m.actor) right.old }
    ensures lock { pass.new.lock ≡ pass.old.lock }
    ensures first { pass.new.claim.first ≡ true }
    ensures all { OwnsAll pass.new.claim }
    ensures sound { A.sound pass.new.claim.seen }
    ensures left { Each (StandsBehind A.number A.such A.ready A.follows pass.old.claim.seen pass.new.claim.seen) left.old left.new }
    ensures right { Each (StandsBehind B.number B.such B.ready B.follows pass.old.claim.seen pass.new.claim.seen) right.old right.new }
    ensures numbers { (numbers A.number left.new ≡ numbers A.number left.old) × (numbers B.number right.new ≡ numbers B.number right.old) }
    ensures left_ready { All (λ m. A.ready pass.new.claim.seen m.actor) left.new }
    ensures right_ready { All (λ m. B.ready pass.new.claim.seen m.actor) right.new }
    ensures grows { Grows A.such B.such (numbers A.number left.old) (numbers B.number right.old) pass.old.claim.seen pass.new.claim.seen }
{
    A::laws();
    hand_out(lock, left, pass);
    hand_out(lock, right, pass);
    both_turns(rt, alloc, lock, left, right);
    take_back(lock, left, pass);
    take_back(lock, right, pass);
}

/// Each member of two kinds takes up to 64 turns in a thread of its own. Then the first pass owns every number again and has seen the
/// whole journal, over which each member stands. It may wait, for ever where a turn doesn't end. The only error is want of memory in
/// a turn; every pass is taken back then too.
pub fn round<R: Threads + Wait + Sync, S: Journaled + Send, A: Actor<S> + Send, B: Actor<S> + Send>(
    rt: &R,
    alloc: Global,
    lock: &TurnLock<S>,
    pass: &mut Pass,
    left: &mut [Member<A>],
    right: &mut [Member<B>],
) -> Result<(), AllocError>
    requires lock { pass.old.lock ≡ lock.now }
    requires first { pass.old.claim.first ≡ true }
    requires all { OwnsAll pass.old.claim }
    requires distinct { Distinct (numbers A.number left.old ++ numbers B.number right.old) }
    // both kinds say the same of journals
    requires alike { (journal : List Note) → (A.sound journal → B.sound journal) × (B.sound journal → A.sound journal) }
    requires sound { A.sound pass.old.claim.seen }
    requires left { All (λ m. A.ready pass.old.claim.seen m.actor) left.old }
    requires right { All (λ m. B.ready pass.old.claim.seen m.actor) right.old }
    ensures lock { pass.new.lock ≡ pass.old.lock }
    ensures first { pass.new.claim.first ≡ true }
    ensures all { OwnsAll pass.new.claim }
    ensures sound { A.sound pass.new.claim.seen }
    ensures left { Each (StandsBehind A.number A.such A.ready A.follows pass.old.claim.seen pass.new.claim.seen) left.old left.new }
    ensures right { Each (StandsBehind B.number B.such B.ready B.follows pass.old.claim.seen pass.new.claim.seen) right.old right.new }
    ensures numbers { (numbers A.number left.new ≡ numbers A.number left.old) × (numbers B.number right.new ≡ numbers B.number right.old) }
    ensures left_ready { All (λ m. A.ready pass.new.claim.seen m.actor) left.new }
    ensures right_ready { All (λ m. B.ready pass.new.claim.seen m.actor) right.new }
    ensures grows { Grows A.such B.such (numbers A.number left.old) (numbers B.number right.old) pass.old.claim.seen pass.new.claim.seen }
{
    out_and_back(rt, alloc, lock, pass, left, right);
    if any_lacked(left) || any_lacked(right) {
        return Err(AllocError);
    }
    Ok(())
}
