ghost use Rattle.std.specs.Prelude.{◌≡◌, ◌≤◌};
ghost use Rattle.tk_edge.specs.Readings.{last_moment, reading_of};

use std::time::{Clock as Time, Duration};
use tk_edge::{Clock, LAST_MOMENT};

/// How many microseconds a clock of the system rests.
const REST: u64 = 100;

/// The next reading, where the system gives this time in milliseconds: the last one again where it gives none, an earlier
/// one or one over the limit.
fn reading(last: u64, time: Option<u128>) -> u64
    ensures { result ≡ reading_of last time }
{
    match time {
        Some(time) if last as u128 <= time && time <= LAST_MOMENT as u128 => time as u64,
        _ => last,
    }
}

/// The system's clocks: moments count from the wall clock as it stood when this was made, and go on with the clock that is
/// never set. It tells no list of readings.
#[derive(Drop)]
pub struct SystemClock<C> {
    time: C,
    start: u128,
    last: u64,
    ghost within: { last ≤ last_moment },
}

impl<C: Time> SystemClock<C> {
    /// A clock over the system's, of which it takes a reading. It is 0 where there is none.
    pub fn new(time: C) -> Self {
        let wall = since_1970(&time);
        let start = match (wall, running(&time)) {
            (Some(wall), Some(running)) => wall.saturating_sub(running),
            _ => 0,
        };
        let last = reading(0, wall);
        SystemClock { time, start, last }
    }
}

/// The wall clock's time in milliseconds since 1970-01-01 UTC, where the system gives one.
fn since_1970<C: Time>(time: &C) -> Option<u128> {
    match time.since_1970() {
        Ok(since) => Some(since.as_millis()),
        Err(_) => None,
    }
}

/// The milliseconds of the clock that is never set, where the system gives them.
fn running<C: Time>(time: &C) -> Option<u128> {
    match time.monotonic() {
        Ok(running) => Some(running.as_millis()),
        Err(_) => None,
    }
}

impl<C: Time> Clock for SystemClock<C> {
    ghost use Rattle.std.specs.Prelude.{None};

    ghost last = { λ c. c.last };

    ghost readings = { λ _. None };

    fn now(&mut self) -> u64 {
        let time = match running(&self.time) {
            Some(running) => running.checked_add(self.start),
            None => None,
        };
        self.last = reading(self.last, time);
        self.last
    }

    fn rest(&mut self) {
        self.time.sleep(Duration::from_micros(REST));
    }
}
