// What a seat of the lock's table knows, the rule of the table, and what each step tells. No value of these types is made.
use crate::journaled::Journaled;
use atomic_table::{Join, Play, Split, TableRule};
use std::marker::{Brand, Model, PhantomData};
use std::snapshot::Snapshot;

/// What a seat knows.
pub struct View {
    nothing: (),
}

impl Model for View {
    ghost use Rattle.tk_turn.specs.Views.{SeatView, seat_view_coded, nobody};

    ghost Value = { SeatView };

    ghost coded = { seat_view_coded };

    ghost view = { λ _. nobody };
}

/// The rule: every step keeps `IsKept`, and the first seat is the first pass's, which has seen the state's journal.
pub struct Turns;

impl<S: Journaled> TableRule<Option<S>, View, Snapshot<S>> for Turns {
    ghost use Rattle.tk_turn.specs.Claims.{whole};
    ghost use Rattle.tk_turn.specs.Turns.{IsKept};
    ghost use Rattle.tk_turn.specs.Views.{seat_view, idle};

    ghost holds = { λ _. IsKept S.journal };

    ghost first = { λ k. seat_view idle (whole (S.journal k.value)) };
}

/// A ticket is drawn.
pub struct Draw;

impl<S> Play<Option<S>, View> for Draw {
    ghost use Rattle.tk_turn.specs.Turns.{Drawn};

    ghost then = { λ _. Drawn };
}

/// A look at the ticket that is served, which takes the state where it is one's own.
pub struct Look;

impl<S: Journaled> Play<Option<S>, View> for Look {
    ghost use Rattle.tk_turn.specs.Turns.{Looked};

    ghost then = { λ _. Looked S.journal };
}

/// The journal of the state that one has is what all have to find.
pub struct Publish;

impl<S: Journaled> Play<Option<S>, View> for Publish {
    ghost use Rattle.tk_turn.specs.Turns.{Published};

    ghost then = { λ _. Published S.journal };
}

/// The state is left to the next ticket.
pub struct PassOn;

impl<S> Play<Option<S>, View> for PassOn {
    ghost use Rattle.tk_turn.specs.Turns.{Passed};

    ghost then = { λ _. Passed };
}

/// The lists of two passes that were joined are compared.
pub struct Compare;

impl<S> Play<Option<S>, View> for Compare {
    ghost use Rattle.tk_turn.specs.Turns.{Compared};

    ghost then = { λ _. Compared };
}

/// A number, which each call picks.
pub trait Number {
    ghost use Rattle.std.specs.Prelude.{ℕ};

    ghost number: { ℕ };
}

impl Number for Brand {
    ghost number = { 0 };
}

/// A seat lends a number to a new one.
pub struct Lend<O> {
    owner: PhantomData<O>,
}

impl<O: Number> Split<View> for Lend<O> {
    ghost use Rattle.tk_turn.specs.Claims.{lends, alone};
    ghost use Rattle.tk_turn.specs.Views.{seat_view, idle};

    ghost left = { λ p. seat_view p.stage (lends p.claim O.number) };

    ghost right = { λ p. seat_view idle (alone p.claim.seen O.number) };
}

/// A seat takes another in.
pub struct Merge;

impl Join<View> for Merge {
    ghost use Rattle.tk_turn.specs.Views.{merged, nobody};

    ghost both = { merged };

    ghost spent = { nobody };
}
