// What a thread has seen, and what it owns.
use crate::table::View;
use atomic_table::Badge;
use std::marker::Model;

/// What a thread has seen of a lock's journal, and the owners whose entries it alone writes. It has no bytes. The first
/// pass owns every number that it hasn't lent, any other pass one number. What a dropped pass owned stays out, so the
/// lock can't be closed any more.
#[derive(Drop)]
pub struct Pass {
    pub(crate) badge: Badge<View>,
}

impl Model for Pass {
    ghost use Rattle.std.specs.Prelude.{◌≡◌};
    ghost use Rattle.tk_turn.specs.Claims.{PassValue, pass_coded};
    ghost use Rattle.tk_turn.specs.Views.{claim_in, IsIdle};

    ghost Value = { PassValue };

    ghost coded = { pass_coded };

    ghost view = { λ p. record { lock = p.badge.table_id; claim = claim_in p.badge.views } };

    ghost invariant = { λ p. IsIdle p.badge.views };
}
