//! Two actors of two kinds, each of which waits for the other where it is asked: a turn is asked for while the state isn't held.
ghost use Rattle.std.specs.Prelude.{◌≡◌};

use crate::log::{Log, opened};
use std::alloc::{AllocError, Global};
use std::hint::spin_loop;
use std::sync::Arc;
use std::sync::atomic::{AtomicBool, Ordering};
use std::test::Fail;
use tk_passes::{Actor, Member, round};

/// How often an actor looks for the other at most.
const LOOKS: u32 = 500_000_000;

/// An actor that shows that it is asked, and looks whether the other is.
#[derive(Drop)]
struct Guest {
    number: u32,
    here: Arc<AtomicBool>,
    there: Arc<AtomicBool>,
    met: bool,
}

/// Whether a flag is seen that another may set meanwhile.
fn sees(there: &AtomicBool) -> bool {
    for _ in 0..LOOKS {
        if there.load(Ordering::SeqCst) {
            return true;
        }
        spin_loop();
    }
    false
}

impl Actor<Log> for Guest {
    ghost number = { λ guest. guest.number };

    ghost sound = { λ journal. Unit {0} };

    ghost such = { λ number note. Unit {0} };

    ghost ready = { λ journal guest. Unit {0} };

    ghost follows = { λ start guest journal. Unit {0} };

    ghost asked = { λ journal guest. Unit {0} };

    ghost follows_asked = { λ start guest journal. Unit {0} };

    fn number(&self) -> u32 {
        self.number
    }

    fn ask(&mut self) {
        self.here.store(true, Ordering::SeqCst);
        self.met = sees(&self.there);
    }

    fn take_turn(&mut self, _alloc: Global, state: &mut Log) -> Result<bool, AllocError> {
        if !state.add(self.number, 0) {
            return Err(AllocError);
        }
        Ok(false)
    }

    fn sound_now(_state: &Log) {}

    fn laws() {}
}

fn seated(number: u32, here: Arc<AtomicBool>, there: Arc<AtomicBool>) -> Member<Guest>
    ensures { result.actor.number ≡ number }
{
    Member {
        actor: Guest {
            number,
            here,
            there,
            met: false,
        },
        pass: None,
        lacked: false,
    }
}

#[test]
fn two_sides_meet(rt: HostRuntime) -> Result<(), Fail> {
    let alloc = rt.alloc();
    let one = Arc::new(alloc, AtomicBool::new(false))?;
    let other = Arc::new(alloc, AtomicBool::new(false))?;
    let mut left = [seated(1, Arc::try_clone(&one)?, Arc::try_clone(&other)?)];
    let mut right = [seated(2, other, one)];
    let (lock, mut pass) = opened(alloc)?;
    let went = round(&rt, alloc, &lock, &mut pass, &mut left, &mut right);
    let log = lock.close(pass);
    went?;
    assert!(rt; left[0].actor.met && right[0].actor.met);
    assert_eq!(rt; (log.count(1), log.count(2)), (Some(1), Some(1)));
    Ok(())
}
