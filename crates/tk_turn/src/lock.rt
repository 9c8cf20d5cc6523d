// The lock.
ghost use Rattle.std.specs.Prelude.{◌≡◌, ◌||◌, ℕ, true, false, IfOk, IfErr};
ghost use Rattle.tk_turn.specs.Claims.{whole, saw, alone, lends, joined, owns, OwnsAll, Follows, Continues};
ghost use Rattle.tk_turn.specs.declared.lock.NewError.TheVariants.{Memory};

use crate::held::Held;
use crate::journaled::Journaled;
use crate::pass::Pass;
use crate::table::{Compare, Draw, Lend, Look, Merge, Number, PassOn, Publish, Turns, View};
use atomic_table::{Badge, Refused, Table};
use std::alloc::Global;
use std::marker::{Brand, Model};
use std::mem::replace;
use std::snapshot::Snapshot;
use std::sync::Wait;

/// The word that counts the tickets drawn.
const TICKET: usize = 0;

/// The word that counts the tickets served.
const SERVING: usize = 1;

/// The word with the length of the journal.
const LENGTH: usize = 2;

/// The slot of the state.
const STATE: usize = 0;

/// Why no lock was made.
#[derive(Drop)]
pub enum NewError<S> {
    /// There was no memory. The state comes back as it was.
    Memory(S),
}

/// A state that threads take in turn, each with a `Pass` of this lock. Contracts see it as its name,
/// which its passes and its held state have too.
pub struct TurnLock<S: Journaled> {
    table: Table<Option<S>, View, Snapshot<S>, Turns, Global>,
}

impl<S: Journaled> Model for TurnLock<S> {
    ghost use Rattle.std.specs.Prelude.{◌≡◌};
    ghost use Rattle.atomic_table.specs.Seated.{TableId, table_id_coded};

    ghost Value = { TableId };

    ghost coded = { table_id_coded };

    ghost view = { λ l. l.table.shared.table_id };

    ghost invariant = { λ l. (l.table.shared.table_id.words ≡ 3) × (l.table.shared.table_id.slots ≡ 1) };
}

impl<S: Journaled> TurnLock<S> {
    /// A lock over a state, with the first pass, which has seen the state's journal and owns every number. The only error
    /// is want of memory.
    pub fn new(alloc: Global, state: S) -> Result<(TurnLock<S>, Pass), NewError<S>>
        ensures ok { IfOk result (λ r. (r.1.lock ≡ r.0) × (r.1.claim ≡ whole (S.journal state))) }
        ensures err { IfErr result (λ e. e ≡ Memory state) }
    {
        let length = state.length();
        let known = Snapshot::of(&state);
        let mut slots = match Vec::with_capacity(alloc, 1) {
            Ok(slots) => slots,
            Err(_) => return Err(NewError::Memory(state)),
        };
        slots.push_reserved(Some(state));
        match Table::new(alloc, &[0, 0, length], slots, &known) {
            Ok((table, seat)) => Ok((
                TurnLock { table },
                Pass {
                    badge: seat.into_badge(),
                },
            )),
            Err(Refused { mut slots }) => {
                let state = slots.pop().unwrap().unwrap();
                slots.destroy_empty();
                Err(NewError::Memory(state))
            }
        }
    }

    /// Waits for the pass's turn, and hands out the state. Its journal begins with all that the pass has seen, and what
    /// follows is of owners that the pass doesn't own. It may wait, for ever where a holder doesn't give back, and takes
    /// no memory.
    pub fn take<T: Wait>(&self, rt: &T, pass: Pass) -> Held<S>
        requires { pass.lock ≡ self.now }
        ensures lock { result.lock ≡ pass.lock }
        ensures journal { Follows pass.claim (S.journal result.state) }
        ensures claim { result.claim ≡ saw pass.claim (S.journal result.state) }
    {
        let Pass { badge } = pass;
        let mut seat = badge.into_seat();
        let shared = &self.table.shared;
        let ticket = shared.fetch_add::<Draw>(&mut seat, TICKET, 1);
        for _ in rt.forever() {
            let serving = shared.load::<Look>(&mut seat, SERVING);
            if serving == ticket {
                let state = shared.exchange(&mut seat, STATE, None).unwrap();
                return Held {
                    state,
                    seat,
                    ticket,
                };
            }
            shared.park(rt, SERVING, (serving % (1 << 32)) as u32);
        }
        unreachable!()
    }

    /// Gives the state back, to which the holder may only have added entries of owners that its pass owns, and lets the
    /// next in line have it. The pass has then seen the whole journal. It doesn't wait, and takes no memory.
    pub fn give(&self, held: Held<S>) -> Pass
        requires lock { held.lock ≡ self.now }
        requires journal { Continues held.claim (S.journal held.state) }
        ensures lock { result.lock ≡ held.lock }
        ensures claim { result.claim ≡ saw held.claim (S.journal held.state) }
    {
        let Held {
            state,
            mut seat,
            ticket,
        } = held;
        let shared = &self.table.shared;
        let length = state.length();
        match shared.exchange(&mut seat, STATE, Some(state)) {
            None => {}
            Some(_) => unreachable!(),
        }
        shared.store::<Publish>(&mut seat, LENGTH, length);
        shared.store::<PassOn>(&mut seat, SERVING, ticket.wrapping_add(1));
        shared.wake_all(SERVING);
        Pass {
            badge: seat.into_badge(),
        }
    }

    /// Cuts off a pass that owns `owner` alone and has seen as much. The first pass no longer owns that number. It doesn't
    /// wait, and takes no memory.
    pub fn split(&self, pass: &mut Pass, owner: u32) -> Pass
        requires lock { pass.old.lock ≡ self.now }
        requires first { pass.old.claim.first ≡ true }
        requires owns { owns pass.old.claim owner ≡ true }
        ensures lock { (result.lock ≡ pass.old.lock) × (pass.new.lock ≡ pass.old.lock) }
        ensures new { result.claim ≡ alone pass.old.claim.seen owner }
        ensures kept { pass.new.claim ≡ lends pass.old.claim owner }
    {
        self.split_as::<Brand>(pass, owner)
    }

    /// The same, where a type names the number.
    fn split_as<O: Number>(&self, pass: &mut Pass, owner: u32) -> Pass
        requires lock { pass.old.lock ≡ self.now }
        requires first { pass.old.claim.first ≡ true }
        requires owns { owns pass.old.claim owner ≡ true }
        requires number { O.number ≡ owner }
        ensures lock { (result.lock ≡ pass.old.lock) × (pass.new.lock ≡ pass.old.lock) }
        ensures new { result.claim ≡ alone pass.old.claim.seen owner }
        ensures kept { pass.new.claim ≡ lends pass.old.claim owner }
    {
        let _ = owner;
        let badge = replace(&mut pass.badge, Badge::blank());
        let mut seat = badge.into_seat();
        let other = self.table.shared.split_seat::<Lend<O>>(&mut seat);
        pass.badge = seat.into_badge();
        Pass {
            badge: other.into_badge(),
        }
    }

    /// Takes another pass into the first one, which has then seen the longer of both lists and owns again what the other
    /// owned. Behind what either pass had seen, that list has no entry of an owner that this pass owned. It doesn't wait,
    /// and takes no memory.
    pub fn join(&self, pass: &mut Pass, other: Pass)
        requires lock { (pass.old.lock ≡ self.now) × (other.lock ≡ self.now) }
        requires first { pass.old.claim.first ≡ true }
        requires other { other.claim.first ≡ false }
        ensures lock { pass.new.lock ≡ pass.old.lock }
        ensures claim { pass.new.claim ≡ joined pass.old.claim other.claim }
        ensures owns { (x : ℕ) → owns pass.new.claim x ≡ (owns pass.old.claim x || owns other.claim x) }
        ensures follows_first { Follows pass.old.claim pass.new.claim.seen }
        ensures follows_other { Follows other.claim pass.new.claim.seen }
    {
        let Pass { badge: taken } = other;
        let badge = replace(&mut pass.badge, Badge::blank());
        let mut seat = badge.into_seat();
        let shared = &self.table.shared;
        shared.join_seat::<Merge>(&mut seat, taken.into_seat());
        shared.load::<Compare>(&mut seat, TICKET);
        pass.badge = seat.into_badge();
    }

    /// The state, once the first pass owns every number again. Its journal is the list that the pass has seen. It doesn't
    /// wait, and takes no memory.
    pub fn close(self, pass: Pass) -> S
        requires lock { pass.lock ≡ self }
        requires first { pass.claim.first ≡ true }
        requires all { OwnsAll pass.claim }
        ensures { S.journal result ≡ pass.claim.seen }
    {
        let TurnLock { table } = self;
        let Pass { badge } = pass;
        let mut closed = table.close_with(badge.into_seat());
        let state = closed.take(STATE).unwrap();
        closed.free();
        state
    }
}
