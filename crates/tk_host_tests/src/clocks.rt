//! A clock that is set, the machine's, and one over a machine whose wall clock is set.

use std::io;
use std::sync::atomic::{AtomicU64, Ordering};
use std::test::Fail;
use std::time::{Clock as Time, Duration};
use tk_edge::{Clock, ManualClock};
use tk_system::SystemClock;

/// Moments that a clock is set to, each with what it shows then: it never goes back, nor beyond the year 9999.
const ROWS: [(u64, u64); 4] = [(5, 5), (3, 5), (7, 7), (253_402_300_800_000, 7)];

#[test]
fn clocks_read_on(rt: HostRuntime) -> Result<(), Fail> {
    let mut manual = ManualClock::new(rt.alloc());
    for (moment, reading) in ROWS {
        manual.set(moment)?;
        manual.rest();
        assert_eq!(rt; manual.now(), reading);
    }
    let mut clock = SystemClock::new(&rt);
    let first = clock.now();
    clock.rest();
    let second = clock.now();
    // later than the first day of the year 2020
    assert!(rt; first > 1_577_836_800_000);
    assert!(rt; second >= first);
    Ok(())
}

/// The milliseconds that a machine's wall clock shows, and those that it runs.
#[derive(Drop)]
struct Machine {
    wall: AtomicU64,
    running: AtomicU64,
}

impl Time for Machine {
    fn monotonic(&self) -> io::Result<Duration> {
        Ok(Duration::from_millis(self.running.load(Ordering::SeqCst)))
    }

    fn since_1970(&self) -> io::Result<Duration> {
        Ok(Duration::from_millis(self.wall.load(Ordering::SeqCst)))
    }
}

/// What the two show, and the moment then: the wall clock is set back an hour, forward two, and to the start of all time.
const SET: [(u64, u64, u64); 4] = [
    (1_600_000_000_000, 5_000, 1_600_000_000_000),
    (1_599_996_400_000, 7_000, 1_600_000_002_000),
    (1_600_003_600_000, 7_100, 1_600_000_002_100),
    (0, 7_100, 1_600_000_002_100),
];

#[test]
fn moments_go_on_where_the_wall_clock_is_set(rt: HostRuntime) -> Result<(), Fail> {
    let machine = Machine {
        wall: AtomicU64::new(1_600_000_000_000),
        running: AtomicU64::new(5_000),
    };
    let mut clock = SystemClock::new(&machine);
    for (wall, running, moment) in SET {
        machine.wall.store(wall, Ordering::SeqCst);
        machine.running.store(running, Ordering::SeqCst);
        assert_eq!(rt; clock.now(), moment);
    }
    Ok(())
}
