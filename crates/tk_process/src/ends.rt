//! How the process of an entry is ended.

use crate::process::{Process, Told};
use std::alloc::Global;
use tk_edge::{Clock, Failed, Host, Poll};
use tk_types::Text;

/// How long a kill waits until the process is no more, in milliseconds, and how often it rests at most.
const LONGEST: u64 = 1_000;

const RESTS: u32 = 10_000;

/// Whether a process still runs, as far as is known.
fn still_runs<H: Host>(host: &mut H, number: u64) -> bool {
    matches!(host.poll(number), Ok(Poll::Runs))
}

/// Asks for each of these processes, and forgets those that are no more.
pub(crate) fn forget_gone<H: Host>(alloc: Global, host: &mut H, leaving: &mut Vec<u64>) {
    let mut still = Vec::new(alloc);
    while let Some(number) = leaving.pop() {
        if still_runs(host, number) {
            let _ = still.push(number);
        }
    }
    *leaving = still;
}

/// Has the process cancelled by its file, and killed where the file can't be put.
fn cancel<H: Host>(host: &mut H, files: &Told, number: u64) -> Result<(), Failed> {
    if host.put(files.cancel.as_str(), &[]).is_ok() {
        return Ok(());
    }
    let _ = host.kill(number);
    Err(Failed)
}

/// Rests until the process is no more, for a second at most.
fn wait_until_gone<H: Host, K: Clock>(host: &mut H, clock: &mut K, number: u64) {
    let until = clock.now().saturating_add(LONGEST);
    for _ in 0..RESTS {
        if !still_runs(host, number) || clock.now() > until {
            return;
        }
        clock.rest();
    }
}

/// Whether the process of an entry may have a command, or start one: that began, or the wait file stands.
fn may_run<H: Host>(host: &mut H, files: &Told, wait: &Text) -> bool {
    !matches!(host.look(files.began.as_str()), Ok(false))
        || !matches!(host.look(wait.as_str()), Ok(false))
}

/// Ends the process of an entry by the file that cancels it. Where it may have a command, this rests until it is no more.
pub(crate) fn stop_entry<H: Host, K: Clock>(
    host: &mut H,
    clock: &mut K,
    process: &Process,
    wait: &Text,
) -> Result<(), Failed> {
    let (Some(files), Some(number)) = (&process.files, process.number) else {
        return Ok(());
    };
    let ended = cancel(host, files, number);
    if may_run(host, files, wait) {
        wait_until_gone(host, clock, number);
    }
    ended
}

/// Ends a process that isn't armed.
pub(crate) fn stop<H: Host>(host: &mut H, process: &Process) -> Result<(), Failed> {
    match process.number {
        Some(number) => host.kill(number),
        None => Ok(()),
    }
}
