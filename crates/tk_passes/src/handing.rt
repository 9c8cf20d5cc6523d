// The first pass lends each member its number.
ghost use Rattle.std.specs.Prelude.{◌≡◌, ℕ, true};
ghost use Rattle.tk_turn.specs.Claims.{Distinct, lends, owns};
ghost use Rattle.tk_passes.specs.Standing.{Each, IsAmong, IsHanded, IsNoneOf, numbers};

use crate::actor::{Actor, Member};
use tk_turn::{Journaled, Pass, TurnLock};

/// A pass for one member.
fn hand_one<S: Journaled, A: Actor<S>>(lock: &TurnLock<S>, member: &mut Member<A>, pass: &mut Pass)
    requires lock { pass.old.lock ≡ lock.now }
    requires first { pass.old.claim.first ≡ true }
    requires owns { owns pass.old.claim (A.number member.old.actor) ≡ true }
    ensures lock { pass.new.lock ≡ pass.old.lock }
    ensures claim { pass.new.claim ≡ lends pass.old.claim (A.number member.old.actor) }
    ensures member { IsHanded A.number lock.now pass.old.claim.seen member.old member.new }
{
    let owner = member.actor.number();
    member.pass = Some(lock.split(pass, owner));
    member.lacked = false;
}

/// A pass for each member of a kind, whose numbers differ and are the first pass's.
pub(crate) fn hand_out<S: Journaled, A: Actor<S>>(
    lock: &TurnLock<S>,
    members: &mut [Member<A>],
    pass: &mut Pass,
)
    requires lock { pass.old.lock ≡ lock.now }
    requires first { pass.old.claim.first ≡ true }
    requires owns { (x : ℕ) → IsAmong (numbers A.number members.old) x → owns pass.old.claim x ≡ true }
    requires distinct { Distinct (numbers A.number members.old) }
    ensures lock { pass.new.lock ≡ pass.old.lock }
    ensures first { pass.new.claim.first ≡ true }
    ensures seen { pass.new.claim.seen ≡ pass.old.claim.seen }
    ensures still { (x : ℕ) → owns pass.old.claim x ≡ true → IsNoneOf (numbers A.number members.old) x → owns pass.new.claim x ≡ true }
    ensures members { Each (IsHanded A.number lock.now pass.old.claim.seen) members.old members.new }
{
    let mut at = members.len();
    while at > 0 {
        at -= 1;
        hand_one(lock, &mut members[at], pass);
    }
}
