//! A controller and a node whose gates wait for one another: both are asked in a round before either has the store.

ghost use Rattle.std.specs.Prelude.{None};

use crate::begun::{empty, pair};
use std::alloc::{AllocError, Global};
use std::hint::spin_loop;
use std::sync::atomic::{AtomicBool, Ordering};
use std::sync::{Arc, Wait};
use std::test::Fail;
use std::thread::Threads;
use tk_edge::{Gate, GateTurn};
use tk_threads::round;

/// How often a gate looks for the other at most.
const LOOKS: u32 = 500_000_000;

/// A gate that shows that it is asked, and looks whether the other is. Its member does nothing.
#[derive(Drop)]
struct Guest {
    here: Arc<AtomicBool>,
    there: Arc<AtomicBool>,
    met: bool,
}

/// Whether a flag is seen that another may set meanwhile.
fn sees(there: &AtomicBool) -> bool {
    for _ in 0..LOOKS {
        if there.load(Ordering::SeqCst) {
            return true;
        }
        spin_loop();
    }
    false
}

impl Gate for Guest {
    ghost answers = { λ _. None };

    fn next(&mut self, _lag: u64) -> GateTurn {
        self.here.store(true, Ordering::SeqCst);
        self.met = sees(&self.there);
        GateTurn::Pause
    }
}

/// Whether the gates of a controller and of a node meet in a round over a store without entries.
fn meet<R: Threads + Wait + Sync>(
    rt: &R,
    alloc: Global,
    left: Guest,
    right: Guest,
) -> Result<bool, AllocError> {
    let mut bench = pair(alloc, left, right)?;
    let mut store = empty(alloc)?;
    round(rt, &mut bench, alloc, &mut store)?;
    match (bench.controllers.as_slice(), bench.kubelets.as_slice()) {
        ([controller], [node]) => Ok(controller.gate.met && node.gate.met),
        _ => Ok(false),
    }
}

#[test]
fn two_sides_meet(rt: HostRuntime) -> Result<(), Fail> {
    let alloc = rt.alloc();
    let one = Arc::new(alloc, AtomicBool::new(false))?;
    let other = Arc::new(alloc, AtomicBool::new(false))?;
    let left = Guest {
        here: Arc::try_clone(&one)?,
        there: Arc::try_clone(&other)?,
        met: false,
    };
    let right = Guest {
        here: other,
        there: one,
        met: false,
    };
    assert!(rt; meet(&rt, alloc, left, right)?);
    Ok(())
}
