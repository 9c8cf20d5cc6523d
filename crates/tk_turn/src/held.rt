// The state in the hand of the thread whose turn it is.
ghost use Rattle.std.specs.Prelude.{◌≡◌};
ghost use Rattle.std.specs.Borrow.{sem};
ghost use Rattle.tk_turn.specs.Lending.{LendsState};

use crate::table::View;
use atomic_table::Seat;
use std::marker::Model;

/// The state, and the turn. Contracts see the state as it is now, the lock, and what the pass has seen and owns, where it
/// has seen the journal as it was taken. It has no `Drop`, so a holder can only end its turn by `TurnLock::give`.
pub struct Held<S> {
    pub(crate) state: S,
    pub(crate) seat: Seat<Option<S>, View>,
    pub(crate) ticket: u64,
}

impl<S> Model for Held<S> {
    ghost use Rattle.tk_turn.specs.Claims.{HeldValue, held_coded};
    ghost use Rattle.tk_turn.specs.Views.{HasTurn};

    ghost Value = { HeldValue S };

    ghost coded = { held_coded S.code };

    ghost view = { λ h. record { state = h.state; lock = h.seat.table_id; claim = h.seat.me.0.claim } };

    ghost invariant = { λ h. HasTurn h.seat.me h.ticket };
}

impl<S> Held<S> {
    /// The state, to be read and written. All else of what is held stays. It takes no memory and doesn't wait.
    pub fn state(&mut self) -> &mut S
        ensures* writes_back { sem 𝓛 (LendsState S.row self.entry result) }
        ensures value { result.now ≡ self.old.state }
    {
        &mut self.state
    }
}
