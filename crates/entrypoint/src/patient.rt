ghost use Rattle.std.specs.Prelude.{◌≡◌};

use std::time::{Clock as Time, Duration};
use tk_edge::Clock;
use tk_system::SystemClock;

/// How many microseconds it rests at least and at most, and which part of all that it rested so far it rests again.
const SHORTEST: u64 = 100;

const LONGEST: u64 = 50_000;

const PART: u64 = 64;

/// The system's clock, which rests longer the longer it rested: an entrypoint may wait for hours, beside many others.
#[derive(Drop)]
pub(crate) struct PatientClock<C> {
    clock: SystemClock<C>,
    time: C,
    rested: u64,
}

impl<C: Time + Copy> PatientClock<C> {
    /// A clock that hasn't rested.
    pub(crate) fn new(time: C) -> Self {
        PatientClock {
            clock: SystemClock::new(time),
            time,
            rested: 0,
        }
    }
}

impl<C: Time> Clock for PatientClock<C> {
    ghost last = { λ c. ⟦<SystemClock<C> as Clock>⟧.last c.clock };

    ghost readings = { λ c. ⟦<SystemClock<C> as Clock>⟧.readings c.clock };

    fn now(&mut self) -> u64 {
        self.clock.now()
    }

    fn rest(&mut self) {
        let pause = (self.rested / PART).max(SHORTEST).min(LONGEST);
        self.time.sleep(Duration::from_micros(pause));
        self.rested = self.rested.saturating_add(pause);
    }
}
