ghost use Rattle.std.specs.Prelude.{◌≡◌, ◌≤◌, [], OnErr, OnOk, Some};
ghost use Rattle.tk_edge.specs.Manual.{with_reading};
ghost use Rattle.tk_edge.specs.Readings.{last_moment, next_reading};

use crate::clock::{Clock, LAST_MOMENT};
use std::alloc::{AllocError, Global};
use std::marker::Model;

/// Equal readings that followed one another.
#[derive(Clone, Copy, Drop)]
pub struct Repeated {
    pub moment: u64,
    pub count: u64,
}

/// A clock that stands where it is set, and tells all its readings. It keeps equal readings that follow one another by
/// their number, so a reading takes no memory. Once it has given 2^64 - 1 readings it tells none.
#[derive(Drop)]
pub struct ManualClock {
    moment: u64,
    count: u64,
    earlier: Vec<Repeated>,
    last: u64,
    calls: u64,
}

impl Model for ManualClock {
    ghost use Rattle.std.specs.Prelude.{◌≤◌};
    ghost use Rattle.tk_edge.specs.Manual.{told_readings, Manual};
    ghost use Rattle.tk_edge.specs.Readings.{last_moment};

    ghost Value = { Manual };

    ghost view = { λ c. record { moment = c.moment; last = c.last; calls = c.calls; readings = told_readings c.calls c.count c.moment c.earlier.items } };

    ghost invariant = { λ c. (c.count ≤ c.calls) × (c.last ≤ c.moment) × (c.moment ≤ last_moment) };
}

impl ManualClock {
    /// A clock that stands at 0 and has given no reading.
    pub fn new(alloc: Global) -> Self
        ensures { result ≡ record { moment = 0; last = 0; calls = 0; readings = Some [] } }
    {
        ManualClock {
            moment: 0,
            count: 0,
            earlier: Vec::new(alloc),
            last: 0,
            calls: 0,
        }
    }

    /// Sets the clock to a moment; it stays where it is if the moment is earlier or behind the year 9999. The only error
    /// is want of memory, for the readings that it gave so far.
    pub fn set(&mut self, moment: u64) -> Result<(), AllocError>
        ensures ok { OnOk result (self.new ≡ record self.old { moment = next_reading self.old.moment moment }) }
        ensures err { OnErr result (self.new ≡ self.old) }
    {
        if moment <= self.moment || moment > LAST_MOMENT {
            return Ok(());
        }
        self.earlier.push(Repeated {
            moment: self.moment,
            count: self.count,
        })?;
        self.moment = moment;
        self.count = 0;
        Ok(())
    }
}

impl Clock for ManualClock {
    ghost last = { λ c. c.last };

    ghost readings = { λ c. c.readings };

    /// The moment at which the clock stands.
    fn now(&mut self) -> u64
        ensures moment { result ≡ self.old.moment }
        ensures read { self.new ≡ with_reading self.old }
        ensures later { self.old.last ≤ result }
        ensures within { result ≤ last_moment }
    {
        self.last = self.moment;
        self.count = self.count.saturating_add(1);
        self.calls = self.calls.saturating_add(1);
        self.moment
    }

    /// Nothing changes.
    fn rest(&mut self)
        ensures { self.new ≡ self.old }
    {}
}
