//! The program `entrypoint`: `main` gives the words, the environment, the system's clock, its parent and a host over the system's
//! folders and programs to `enter` of `tk_enter`, whose clauses say what it does with them. Its last act ends what its command
//! started, and itself, where it leads a session of its own.
//!
//! `parent.rt` has the process that started it, `patient.rt` its clock, and `group.rt` the end of its group. The stored run has no
//! words, and status 2.
#![tactic(auto)]

mod group;
mod parent;
mod patient;

use group::end_group;
use parent::{SystemParent, number};
use patient::PatientClock;
use std::alloc::{AllocError, Global};
use std::process::ExitCode;
use std::sync::Wait;
use std::{env, io};
use tk_enter::{Clocks, PARENT, enter};
use tk_system::RealHost;
use tk_types::{List, Pair, Text};

/// The words after the program's name.
fn words(rt: &HostRuntime, alloc: Global) -> io::Result<List<Text>> {
    let mut words = List::new(alloc);
    for word in env::args(rt)?.skip(1) {
        words.push(Text::from_string(word))?;
    }
    Ok(words)
}

/// The environment of the command, of which each variable is text, and the number of the parent where a variable tells it.
fn environment(
    rt: &HostRuntime,
    alloc: Global,
) -> Result<(List<Pair>, Option<u32>), env::VarError> {
    let mut pairs = List::new(alloc);
    let mut parent = None;
    for (key, value) in env::vars(rt)? {
        if key.as_str() == PARENT {
            parent = number(value.as_str());
            continue;
        }
        let pair = Pair {
            key: Text::from_string(key),
            value: Text::from_string(value),
        };
        if pairs.push(pair).is_err() {
            return Err(env::VarError::OutOfMemory);
        }
    }
    Ok((pairs, parent))
}

/// What standard error calls the step of these words: `r-a-pod-1: step 0`, where its post file is `../r-a-pod-1/run/0/out`.
fn step_of(alloc: Global, words: &[Text]) -> Result<Option<Text>, AllocError> {
    let Some(post) = words.get(3) else {
        return Ok(None);
    };
    let mut parts = post.as_str().rsplit('/').skip(1);
    match (parts.next(), parts.next(), parts.next()) {
        (Some(step), Some("run"), Some(pod)) => {
            Ok(Some(Text::from_string(format!(in alloc; "{pod}: step {step}")?)))
        }
        _ => Ok(None),
    }
}

/// A host over the machine that calls the step by its pod and place.
fn host_of<'a>(
    rt: &'a HostRuntime,
    alloc: Global,
    words: &[Text],
) -> Result<RealHost<'a, HostRuntime>, AllocError> {
    let path = path_of(rt, alloc)?;
    let mut host = RealHost::new(rt, alloc, path.as_str())?;
    if let Some(step) = step_of(alloc, words)? {
        host.speak_of(step);
    }
    Ok(host)
}

/// The folders in which programs are looked for.
fn path_of(rt: &HostRuntime, alloc: Global) -> Result<String, AllocError> {
    match env::var(rt, "PATH") {
        Ok(path) => Ok(path),
        Err(_) => String::from_str(alloc, "/usr/local/bin:/usr/bin:/bin"),
    }
}

/// The status of a program whose environment can't be had.
fn without_environment(error: env::VarError) -> u8 {
    match error {
        env::VarError::OutOfMemory => 6,
        _ => 2,
    }
}

/// The status of a program whose words can't be had.
fn without_words(error: io::Error) -> u8 {
    match error.kind() {
        io::ErrorKind::OutOfMemory => 6,
        _ => 2,
    }
}

/// Carries out the words, and gives the status.
fn run<T: Wait>(rt: &HostRuntime, waits: &T) -> u8 {
    let alloc = rt.alloc();
    let words = match words(rt, alloc) {
        Ok(words) => words,
        Err(error) => return without_words(error),
    };
    let (env, parent) = match environment(rt, alloc) {
        Ok(found) => found,
        Err(error) => return without_environment(error),
    };
    let Ok(mut host) = host_of(rt, alloc, words.as_slice()) else {
        return 6;
    };
    let mut clocks = Clocks {
        waiting: PatientClock::new(rt),
        running: PatientClock::new(rt),
    };
    let mut parent = SystemParent::new(rt.process(), parent);
    let status = enter(
        waits,
        alloc,
        words.as_slice(),
        env.as_slice(),
        &mut host,
        &mut clocks,
        &mut parent,
    );
    if status != 2 {
        end_group(rt, alloc, &mut host);
    }
    status
}

fn main(rt: HostRuntime) -> ExitCode {
    ExitCode::from(run(&rt, &rt))
}
