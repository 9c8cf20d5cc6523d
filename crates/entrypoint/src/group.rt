use std::alloc::{AllocError, Global};
use std::time::Duration;
use std::{process, thread};
use tk_edge::{Host, Order, Poll};
use tk_system::RealHost;
use tk_types::{Bytes, List, Text};

/// How many milliseconds this process waits for its own end, one by one.
const PATIENCE: u32 = 1_000;

/// How many bytes of what the system tells of a process are read.
const LIMIT: u64 = 512;

/// The number of the session in what the system tells of a process: its number, its name in parentheses, a letter, the numbers of
/// its parent and of its group, and that of its session.
fn session_in(told: &str) -> Option<u32> {
    let (_, behind) = told.rsplit_once(')')?;
    behind.split(' ').nth(4)?.parse::<u32>().ok()
}

/// The same of the bytes of a file.
fn session_of(told: &Bytes) -> Option<u32> {
    session_in(std::str::from_utf8(told.as_slice()).ok()?)
}

/// Whether this process leads a session of its own, so that its group has nobody else but what it started.
fn leads_session(rt: &HostRuntime, host: &mut RealHost<'_, HostRuntime>) -> bool {
    match host.fetch("/proc/self/stat", LIMIT) {
        Ok(Some(told)) => session_of(&told) == Some(process::id(rt.process())),
        _ => false,
    }
}

/// The order of a shell that kills its group.
fn kill_order(alloc: Global) -> Result<Order, AllocError> {
    let mut argv = List::new(alloc);
    for word in ["/bin/sh", "-c", "kill -KILL 0"] {
        argv.push(Text::from_str(alloc, word)?)?;
    }
    Ok(Order {
        pod: Text::new(alloc),
        step: 0,
        argv,
        env: List::new(alloc),
        dir: Text::from_str(alloc, "/")?,
    })
}

/// Ends this process, its command and what that started, where this process leads a session of its own. It goes on only where
/// that can't be done.
pub(crate) fn end_group(rt: &HostRuntime, alloc: Global, host: &mut RealHost<'_, HostRuntime>) {
    if !leads_session(rt, host) {
        return;
    }
    let Ok(order) = kill_order(alloc) else {
        return;
    };
    let Ok(child) = host.start(&order) else {
        return;
    };
    for _ in 0..PATIENCE {
        match host.poll(child) {
            Ok(Poll::Runs) => thread::sleep(rt, Duration::from_millis(1)),
            _ => return,
        }
    }
}
