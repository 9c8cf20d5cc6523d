ghost use Rattle.std.specs.Prelude.{◌≤◌, List, Option, ℕ, length, IfOk};
ghost use Rattle.std.specs.Io.KnownBytes.{WriteAppends};
ghost use Rattle.tk_edge.specs.Streams.{CountsWrite};

use crate::miss::Miss;

/// Where bytes go, in pieces.
pub trait Sink {
    /// The bytes that were written, where the sink tells them.
    ghost written: { Self → Option (List ℕ) };

    /// How many writes have failed. A count of 2^64 - 1 stands still.
    ghost faults: { Self → ℕ };

    /// Writes bytes from the front of `piece` and gives their number. A sink that takes nothing of a piece that isn't
    /// empty has failed.
    fn write(&mut self, piece: &[u8]) -> Result<usize, Miss>
        ensures count { IfOk result (λ n. n ≤ length piece.now) }
        ensures bytes { WriteAppends (written self.old) (written self.new) result piece.now }
        ensures faults { CountsWrite piece.now (faults self.old) (faults self.new) result };
}
