ghost use Rattle.std.specs.Prelude.{◌≡◌, ◌≤◌, List, Option, ℕ};
ghost use Rattle.tk_edge.specs.Readings.{last_moment, AddsWhileTold};

/// 9999-12-31T23:59:59.999Z in milliseconds since 1970-01-01 UTC.
pub const LAST_MOMENT: u64 = 253_402_300_799_999;

/// Milliseconds since 1970-01-01 UTC, which never fall. The last one is that of the year 9999.
pub trait Clock {
    /// The last reading; before the first one that was taken when the clock was made.
    ghost last: { Self → ℕ };

    /// All readings, the newest first, where the clock tells them. A list takes memory, so a clock may tell it no longer.
    ghost readings: { Self → Option (List ℕ) };

    /// A reading.
    fn now(&mut self) -> u64
        ensures last { last self.new ≡ result }
        ensures later { last self.old ≤ result }
        ensures within { result ≤ last_moment }
        ensures told { AddsWhileTold result (readings self.old) (readings self.new) };

    /// Waits a little.
    fn rest(&mut self)
        ensures last { last self.new ≡ last self.old }
        ensures told { readings self.new ≡ readings self.old };
}
