//! Writers of two kinds, each of which writes some values in order.
ghost use Rattle.std.specs.Prelude.{◌≡◌, ◌++◌, [], true, All};
ghost use Rattle.tk_turn.specs.Claims.{Distinct, OwnsAll};
ghost use Rattle.tk_passes.specs.Standing.{numbers};

use crate::log::{Log, opened};
use std::alloc::{AllocError, Global};
use std::sync::Wait;
use std::test::Fail;
use std::thread::Threads;
use tk_passes::{Actor, Member, round};
use tk_turn::{Pass, TurnLock};

/// A writer of so many values. Of its number the journal has just those that it wrote.
#[derive(Drop)]
struct Writer {
    number: u32,
    written: u64,
    most: u64,
}

impl Actor<Log> for Writer {
    ghost use Rattle.tk_turn.specs.Claims.{written_by};
    ghost use Rattle.tk_host_tests.specs.Sample.{numbered};

    ghost number = { λ w. w.number };

    ghost sound = { λ journal. Unit {0} };

    ghost such = { λ number note. Unit {0} };

    ghost ready = { λ journal w. Unit {0} };

    ghost follows = { λ start w journal. written_by w.number journal ≡ numbered w.number w.written };

    ghost asked = { λ journal w. Unit {0} };

    ghost follows_asked = { λ start w journal. written_by w.number journal ≡ numbered w.number w.written };

    fn number(&self) -> u32 {
        self.number
    }

    fn ask(&mut self) {}

    fn take_turn(&mut self, _alloc: Global, state: &mut Log) -> Result<bool, AllocError> {
        if self.written >= self.most {
            return Ok(false);
        }
        if !state.add(self.number, self.written) {
            return Err(AllocError);
        }
        self.written += 1;
        Ok(true)
    }

    fn sound_now(_state: &Log) {}

    fn laws() {}
}

fn seated(number: u32, most: u64) -> Member<Writer>
    ensures { result.actor.number ≡ number }
{
    Member {
        actor: Writer {
            number,
            written: 0,
            most,
        },
        pass: None,
        lacked: false,
    }
}

/// Two rounds.
fn two_rounds<R: Threads + Wait + Sync>(
    rt: &R,
    alloc: Global,
    lock: &TurnLock<Log>,
    pass: &mut Pass,
    left: &mut [Member<Writer>],
    right: &mut [Member<Writer>],
) -> Result<(), AllocError>
    requires lock { pass.old.lock ≡ lock.now }
    requires first { pass.old.claim.first ≡ true }
    requires all { OwnsAll pass.old.claim }
    requires distinct { Distinct (numbers (λ w. w.number) left.old ++ numbers (λ w. w.number) right.old) }
    ensures lock { pass.new.lock ≡ lock.now }
    ensures first { pass.new.claim.first ≡ true }
    ensures all { OwnsAll pass.new.claim }
{
    let first = round(rt, alloc, lock, pass, left, right);
    let second = round(rt, alloc, lock, pass, left, right);
    first?;
    second
}

#[test]
fn each_writer_writes_its_values_in_order(rt: HostRuntime) -> Result<(), Fail> {
    let (lock, mut pass) = opened(rt.alloc())?;
    let mut left = [seated(1, 5), seated(3, 100)];
    let mut right = [seated(2, 200), seated(4, 0)];
    let went = two_rounds(&rt, rt.alloc(), &lock, &mut pass, &mut left, &mut right);
    let log = lock.close(pass);
    went?;
    assert_eq!(rt; log.count(1), Some(5));
    assert_eq!(rt; log.count(3), Some(100));
    // 64 turns a round
    assert_eq!(rt; log.count(2), Some(128));
    assert_eq!(rt; log.count(4), Some(0));
    assert_eq!(rt; log.entries.len(), 233);
    Ok(())
}
