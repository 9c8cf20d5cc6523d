//! Programs of the machine that were started, each in its folder with its own environment.
use crate::files::Trouble;
use std::alloc::{AllocError, Global};
use std::io;
use std::io::ErrorKind;
use std::process::{Child, Command, ExitStatus, OpenProcess, Processes, Stdio};
use std::rt::Files;
use tk_edge::Order;

/// The process of a child once it was started, its exit once that was found, and the child behind which it waits.
#[derive(Drop)]
pub(crate) struct Step<P: OpenProcess> {
    pub(crate) running: Option<Child<P>>,
    pub(crate) found: Option<u8>,
    pub(crate) behind: Option<u64>,
}

/// The command of an order: its own environment, and no standard stream but the one for errors, where it is heard.
fn command_of(
    alloc: Global,
    path: &str,
    program: &str,
    order: &Order,
    hears: bool,
) -> Result<Command, AllocError> {
    let mut command = Command::new(alloc, program)?;
    for word in order.argv.as_slice().iter().skip(1) {
        command.arg(word.as_str())?;
    }
    command.env_clear();
    command.env("PATH", path)?;
    for pair in order.env.as_slice() {
        command.env(pair.key.as_str(), pair.value.as_str())?;
    }
    command.current_dir(order.dir.as_str())?;
    command.stdin(Stdio::null());
    command.stdout(Stdio::null());
    command.stderr(if hears {
        Stdio::inherit()
    } else {
        Stdio::null()
    });
    Ok(command)
}

/// Starts the order. One without a program can't be started.
pub(crate) fn spawn_order<R: Processes>(
    rt: &R,
    alloc: Global,
    path: &str,
    order: &Order,
    hears: bool,
) -> Result<Child<R::Started>, Trouble> {
    let Some(program) = order.argv.as_slice().first() else {
        return Err(Trouble::System(io::Error::from(ErrorKind::InvalidInput)));
    };
    let mut command = command_of(alloc, path, program.as_str(), order, hears)?;
    Ok(command.spawn(rt)?)
}

/// What a person can do where an order can't be started.
pub(crate) fn advice_on_start<R: Files>(rt: &R, order: &Order, trouble: &Trouble) -> &'static str {
    let Trouble::System(error) = trouble else {
        return "give more memory";
    };
    match error.kind() {
        ErrorKind::NotFound | ErrorKind::NotADirectory => match rt.metadata(order.dir.as_str()) {
            Ok(metadata) if metadata.is_dir() => {
                "install the program, or give its whole path; PATH is that of this command"
            }
            _ => "the step's workingDir isn't there: make it in a step before, or leave it out",
        },
        ErrorKind::PermissionDenied => {
            "make the program executable by `chmod +x`, or name its interpreter before it"
        }
        ErrorKind::ArgumentListTooLong => {
            "its words and its environment are too long: put them into a file"
        }
        ErrorKind::InvalidInput => "a word or a name of it holds a zero byte",
        _ => "see whether the machine has room for one more process",
    }
}

/// A child that ended without a code has exit 255.
fn exit_of_status(status: ExitStatus) -> u8 {
    match status.code() {
        Some(code) => u8::try_from(code).unwrap_or(255),
        None => 255,
    }
}

impl<P: OpenProcess + Drop> Step<P> {
    /// The exit of the process, where it ended. It is kept from then on.
    pub(crate) fn exit(&mut self) -> Result<Option<u8>, Trouble> {
        if self.found.is_none() {
            let Some(process) = &mut self.running else {
                return Err(Trouble::System(io::Error::from(ErrorKind::NotFound)));
            };
            if let Some(status) = process.try_wait()? {
                self.found = Some(exit_of_status(status));
            }
        }
        Ok(self.found)
    }

    /// Ends the process, where it runs.
    pub(crate) fn kill(&mut self) -> Result<(), Trouble> {
        match &mut self.running {
            Some(process) if self.found.is_none() => Ok(process.kill()?),
            _ => Ok(()),
        }
    }
}

/// The exit of the child's process, where it ended.
pub(crate) fn find_exit<P: OpenProcess + Drop>(
    steps: &mut Vec<Step<P>>,
    child: u64,
) -> Result<Option<u8>, Trouble> {
    match steps.get_mut(child as usize) {
        Some(step) => step.exit(),
        None => Err(Trouble::System(io::Error::from(ErrorKind::NotFound))),
    }
}
