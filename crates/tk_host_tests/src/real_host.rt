//! The real host over folders below the machine's temporary one, and with programs of the machine.

use crate::calls::{called, child_of, polled, verb_of, watched};
use std::alloc::{AllocError, Global};
use std::test::Fail;
use std::time::Duration;
use std::{env, fs, process, thread};
use tk_edge::{Host, Miss, Poll, Watch};
use tk_system::RealHost;

/// How often a child is asked whether it ended, and how many milliseconds lie between.
const TURNS: u32 = 2000;

const PAUSE: u64 = 5;

/// A folder of this test's own, whose name has a space and letters beyond ASCII.
fn folder_of(rt: &HostRuntime, name: &str) -> Result<String, Fail> {
    let root = env::temp_dir(rt)?;
    let root = root.as_str();
    let id = process::id(rt.process());
    Ok(format!(in rt.alloc(); "{root}/wafnjold größe {id} {name}")?)
}

/// One turn of an armed child.
fn turn(host: &mut RealHost<'_, HostRuntime>, child: u64) -> Result<Watch, Miss> {
    if host.is_armed(child) {
        host.watch(child)
    } else {
        Err(Miss::Failed)
    }
}

fn is_over(watch: Watch) -> bool {
    matches!(watch, Watch::Passed { .. } | Watch::Broke { .. })
}

/// Watches the child until it is over.
fn watch_out(
    rt: &HostRuntime,
    host: &mut RealHost<'_, HostRuntime>,
    child: u64,
) -> Result<Watch, Miss> {
    for _ in 0..TURNS {
        let watch = turn(host, child)?;
        if is_over(watch) {
            return Ok(watch);
        }
        thread::sleep(rt, Duration::from_millis(PAUSE));
    }
    Ok(Watch::Runs)
}

/// Polls the child until it ended.
fn poll_out(
    rt: &HostRuntime,
    host: &mut RealHost<'_, HostRuntime>,
    child: u64,
) -> Result<Poll, Miss> {
    for _ in 0..TURNS {
        if let Poll::Exited(exit) = host.poll(child)? {
            return Ok(Poll::Exited(exit));
        }
        thread::sleep(rt, Duration::from_millis(PAUSE));
    }
    Ok(Poll::Runs)
}

/// What a call came to, with `@` as the folder: `watched` and `polled` ask until the child is over.
fn told(
    rt: &HostRuntime,
    host: &mut RealHost<'_, HostRuntime>,
    folder: &str,
    call: &str,
) -> Result<String, AllocError> {
    let alloc = rt.alloc();
    match verb_of(call) {
        "watch" => watched(alloc, turn(host, child_of(call))),
        "watched" => watched(alloc, watch_out(rt, host, child_of(call))),
        "polled" => polled(alloc, poll_out(rt, host, child_of(call))),
        "faults" => format!(in alloc; "{}", host.faults()),
        _ => called(alloc, host, folder, call),
    }
}

/// The first line that doesn't hold of a new host, with `@` as the folder, and what its call came to; nothing where each holds.
fn unmet(rt: &HostRuntime, folder: &str, lines: &str) -> Result<String, Fail> {
    let alloc = rt.alloc();
    let mut host = RealHost::new(rt, alloc, "/bin:/usr/bin")?;
    for line in lines.split('\n') {
        let (call, wanted) = line.split_once(" => ").unwrap_or((line, "no answer"));
        let told = told(rt, &mut host, folder, call)?;
        if told.as_str() != wanted {
            return Ok(format!(in alloc; "{line}: {}", told.as_str())?);
        }
    }
    Ok(String::new(alloc))
}

/// The same, with a folder that is removed behind it.
fn unmet_in_folder(rt: &HostRuntime, name: &str, lines: &str) -> Result<String, Fail> {
    let folder = folder_of(rt, name)?;
    let folder = folder.as_str();
    let unmet = unmet(rt, folder, lines)?;
    fs::remove_dir_all(rt, folder)?;
    Ok(unmet)
}

const POD: &str = "clear | @ => done
launch p 0 | @/start | @/0 | sh | -c | exit 0 => 0
launch p 1 | @/0 | @/1 | sh | -c | exit 3 => 1
launch p 2 | @/1 | @/2 | sh | -c | exit 0 => 2
watch 0 => waits
watch 1 => waits
watch 2 => waits
put | @/start => done
watch 0 => started
watch 1 => waits
watch 2 => waits
watched 0 => passed 0
watch 1 => started
watch 2 => waits
watched 1 => broke 3
watch 0 => passed 0
watch 1 => broke 3
watch 2 => refused
look | @/0 => stands
look | @/1 => none
look | @/1.err => stands
look | @/2.err => stands
faults => 0";

/// Steps that leave the files of others, or take them away.
const FORGED: &str = "clear | @ => done
launch p 0 | @/start | @/0 | sh | -c | touch 0.err 1 1.err; exit 0 => 0
launch p 1 | @/0 | @/1 | sh | -c | rm 0; exit 0 => 1
launch p 2 | @/1 | @/2 | sh | -c | exit 0 => 2
put | @/start => done
watch 0 => started
watched 0 => passed 0
watch 2 => waits
watch 1 => started
watch 2 => waits
watched 1 => passed 0
watch 2 => started
watched 2 => passed 0
faults => 0";

const FILES: &str = "put | @/scripts/new folder/ä | longer before => done
put | @/scripts/new folder/ä | abcdef => done
look | @/scripts/new folder/ä => stands
fetch | @/scripts/new folder/ä | 0 => 
fetch | @/scripts/new folder/ä | 4 => abcd
fetch | @/scripts/new folder/ä | 6 => abcdef
fetch | @/scripts/new folder/ä | 100 => abcdef
clear | @ => done
fetch | @/scripts/new folder/ä | 4 => none
look | @/results => none
put | @/results => failed
faults => 1";

const CHILD: &str = r#"clear | @ => done
start p 0 | sh | -c | printf %s "$WORD" > results/r; mkfifo results/p; exit 7 => 0
polled 0 => exited 7
fetch | @/results/r | 100 => größe
fetch | @/results/p | 100 => none"#;

const KILLED: &str = "start p 1 | sleep | 600 => 0
poll 0 => runs
kill 0 => done
polled 0 => exited 255
faults => 0
start p 2 | no-such-program => failed
faults => 1";

#[test]
fn files_and_programs_answer_as_lines_tell(rt: HostRuntime) -> Result<(), Fail> {
    for (name, lines) in [
        ("pod", POD),
        ("forged", FORGED),
        ("files", FILES),
        ("child", CHILD),
    ] {
        assert_eq!(rt; unmet_in_folder(&rt, name, lines)?.as_str(), "");
    }
    assert_eq!(rt; unmet(&rt, "/", KILLED)?.as_str(), "");
    Ok(())
}
