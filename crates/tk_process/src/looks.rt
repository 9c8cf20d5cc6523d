//! What the files of a process say. The process is asked for before its files are, since one that is no more has left all files
//! that it ever leaves.

use crate::exit::{EXIT_LIMIT, exit_in};
use crate::process::Told;
use std::alloc::Global;
use tk_edge::{Host, Miss, Poll};
use tk_types::Text;

/// What the files of an entry's process say before its command was told as started.
pub(crate) enum First {
    Waits,
    Began,
    Refused,
    /// Nothing, and the process is no more.
    Gone,
}

/// What they say behind that.
pub(crate) enum Later {
    Runs,
    /// The post file stands or that with `.err`, and this exit, where the file of the exit tells one.
    Left { passed: bool, exit: Option<u8> },
    /// Nothing, and the process is no more.
    Gone,
}

/// Whether the process is no more.
fn is_gone<H: Host>(host: &mut H, number: u64) -> Result<bool, Miss> {
    match host.poll(number)? {
        Poll::Runs => Ok(false),
        Poll::Exited(_) => Ok(true),
    }
}

/// Looks at the files of a process whose command wasn't told as started.
pub(crate) fn look_first<H: Host>(host: &mut H, files: &Told, number: u64) -> Result<First, Miss> {
    let gone = is_gone(host, number)?;
    if host.look(files.began.as_str())? {
        return Ok(First::Began);
    }
    if host.look(files.failed.as_str())? && !host.look(files.exit.as_str())? {
        return Ok(First::Refused);
    }
    if gone {
        Ok(First::Gone)
    } else {
        Ok(First::Waits)
    }
}

/// The exit that a file tells, where it stands and tells one.
fn fetch_exit<H: Host>(alloc: Global, host: &mut H, path: &Text) -> Result<Option<u8>, Miss> {
    match host.fetch(path.as_str(), EXIT_LIMIT)? {
        Some(bytes) => Ok(exit_in(alloc, bytes.as_slice())?),
        None => Ok(None),
    }
}

/// Looks at the files of a process whose command was told as started.
pub(crate) fn look_later<H: Host>(
    alloc: Global,
    host: &mut H,
    post: &Text,
    files: &Told,
    number: u64,
) -> Result<Later, Miss> {
    let gone = is_gone(host, number)?;
    let passed = host.look(post.as_str())?;
    if passed || host.look(files.failed.as_str())? {
        let exit = fetch_exit(alloc, host, &files.exit)?;
        return Ok(Later::Left { passed, exit });
    }
    if gone {
        Ok(Later::Gone)
    } else {
        Ok(Later::Runs)
    }
}
