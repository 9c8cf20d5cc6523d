// The first pass takes back what it lent.
ghost use Rattle.std.specs.Prelude.{◌≡◌, ◌||◌, ℕ, true, eqb, All};
ghost use Rattle.tk_turn.specs.Claims.{Follows, owns};
ghost use Rattle.tk_passes.specs.Standing.{Each, IsAmong, IsBack, IsSeated, numbers};

use crate::actor::{Actor, Member};
use tk_turn::{Journaled, Pass, TurnLock};

/// Takes back the pass of one member.
fn take_one<S: Journaled, A: Actor<S>>(lock: &TurnLock<S>, member: &mut Member<A>, pass: &mut Pass)
    requires lock { pass.old.lock ≡ lock.now }
    requires first { pass.old.claim.first ≡ true }
    requires sound { A.sound pass.old.claim.seen }
    requires seated { IsSeated A.number A.sound A.ready lock.now member.old }
    ensures lock { pass.new.lock ≡ pass.old.lock }
    ensures first { pass.new.claim.first ≡ true }
    ensures sound { A.sound pass.new.claim.seen }
    ensures owns { (x : ℕ) → owns pass.new.claim x ≡ (owns pass.old.claim x || eqb x (A.number member.old.actor)) }
    ensures follows { Follows pass.old.claim pass.new.claim.seen }
    ensures member { IsBack A.number A.such A.ready A.follows pass.new.claim.seen member.old member.new }
{
    A::laws();
    if let Some(other) = member.pass.take() {
        lock.join(pass, other);
    }
}

/// Takes back the passes of the members of a kind, which then stand over the whole journal that the first pass has seen.
pub(crate) fn take_back<S: Journaled, A: Actor<S>>(
    lock: &TurnLock<S>,
    members: &mut [Member<A>],
    pass: &mut Pass,
)
    requires lock { pass.old.lock ≡ lock.now }
    requires first { pass.old.claim.first ≡ true }
    requires sound { A.sound pass.old.claim.seen }
    requires seated { All (IsSeated A.number A.sound A.ready lock.now) members.old }
    ensures lock { pass.new.lock ≡ pass.old.lock }
    ensures first { pass.new.claim.first ≡ true }
    ensures sound { A.sound pass.new.claim.seen }
    ensures still { (x : ℕ) → owns pass.old.claim x ≡ true → owns pass.new.claim x ≡ true }
    ensures back { (x : ℕ) → IsAmong (numbers A.number members.old) x → owns pass.new.claim x ≡ true }
    ensures follows { Follows pass.old.claim pass.new.claim.seen }
    ensures members { Each (IsBack A.number A.such A.ready A.follows pass.new.claim.seen) members.old members.new }
{
    A::laws();
    for i in 0..members.len() {
        take_one(lock, &mut members[i], pass);
    }
}
