ghost use Rattle.std.specs.Prelude.{◌≡◌, ◌<◌, ◌≤◌, Bool, List, Option, ℕ, length, take, IfOk, OnErr};
ghost use Rattle.std.specs.Io.KnownBytes.{Consumes, IsAtEnd, Keeps};
ghost use Rattle.tk_edge.specs.Causes.{CountsFault};
ghost use Rattle.tk_edge.specs.Streams.{GivesEnd};

use crate::miss::Failed;

/// Bytes that are read from outside, in pieces.
pub trait Source {
    /// The bytes that are left, where the source tells them.
    ghost left: { Self → Option (List ℕ) };

    /// Whether a read has given the end.
    ghost ended: { Self → Bool };

    /// How many reads have failed. A count of 2^64 - 1 stands still.
    ghost faults: { Self → ℕ };

    /// Reads bytes into the front of `buf` and gives their number. No byte into a buffer that has room is the end.
    fn read(&mut self, buf: &mut [u8]) -> Result<usize, Failed>
        ensures count { IfOk result (λ n. n ≤ length buf.new) }
        ensures bytes { IfOk result (λ n. Consumes (left self.old) (left self.new) (take n buf.new)) }
        ensures end { GivesEnd (ended self.old) (ended self.new) result buf.new }
        ensures none_left { IfOk result (λ n. n ≡ 0 → 0 < length buf.new → IsAtEnd (left self.new)) }
        ensures err { OnErr result (Keeps (left self.old) (left self.new)) }
        ensures faults { CountsFault (faults self.old) (faults self.new) result };
}
