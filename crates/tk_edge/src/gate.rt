ghost use Rattle.std.specs.Prelude.{List, Option};
ghost use Rattle.tk_edge.specs.declared.gate.GateTurn.{GateTurn as Answer};
ghost use Rattle.tk_edge.specs.Gates.{AddsAnswer};

use tk_types::Kind;

/// What an actor does in its next turn.
#[derive(Clone, Copy, Debug, PartialEq, Eq)]
pub enum GateTurn {
    /// Its cache takes the next `n` entries of a kind, or all where there are fewer.
    Deliver { kind: Kind, n: u64 },
    /// Its cache lists a kind anew, as it stood when the journal had `position` entries.
    Relist { kind: Kind, position: u64 },
    /// It works.
    Work,
    /// It does nothing.
    Pause,
}

/// Decides how far a cache lags, and when it is listed again.
pub trait Gate {
    /// All answers but Pause, the newest first, where the gate tells them.
    ghost answers: { Self → Option (List Answer) };

    /// The next answer. `lag` is how many entries of the journal the cache lacks.
    fn next(&mut self, lag: u64) -> GateTurn
        ensures { AddsAnswer result (answers self.old) (answers self.new) };
}
