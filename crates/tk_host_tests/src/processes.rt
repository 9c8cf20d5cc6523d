//! A host whose entrypoints are processes, over scripts of the shell that stand for the program.

use crate::calls::{called, child_of, verb_of, watched};
use std::alloc::{AllocError, Global};
use std::fs::Permissions;
use std::os::unix::fs::PermissionsExt;
use std::test::Fail;
use std::time::Duration;
use std::{env, fs, process, thread};
use tk_edge::{Host, Miss, Watch};
use tk_process::{ProcessHost, Teller, Unexplained};
use tk_system::{RealHost, SystemClock};

/// Nobody is told anything.
#[derive(Drop)]
struct Nobody;

impl Teller for Nobody {
    fn tell(&self, _pod: &str, _step: u32, _what: Unexplained) {}
}

type Processes<'a> = ProcessHost<RealHost<'a, HostRuntime>, SystemClock<&'a HostRuntime>, Nobody>;

/// How often it is asked for what is to come, and how many milliseconds lie between.
const TURNS: u32 = 2000;

const PAUSE: u64 = 5;

/// It waits until it is cancelled; the test leaves the files of its step.
const WAITS: &str = "#!/bin/sh
for i in $(seq 200); do [ -e \"${10}\" ] && exit 4; sleep 0.05; done
";

/// It starts another process, which writes `beat` again and again, and waits until it is cancelled. Then it takes its time, writes
/// `late`, and ends its group.
const BEATS: &str = "#!/bin/sh
(while :; do : > \"$PWD/beat\"; sleep 0.01; done) &
until [ -e \"${10}\" ]; do sleep 0.01; done
sleep 0.1; : > late; kill -KILL 0
";

/// It ends its group at once.
const ENDS_ALL: &str = "#!/bin/sh
kill -KILL 0
";

/// It ends at once.
const ENDS: &str = "#!/bin/sh
";

/// The script of this name; there is none that is missing.
fn script_of(name: &str) -> Option<&'static str> {
    match name {
        "waits" => Some(WAITS),
        "beats" => Some(BEATS),
        "ends all" => Some(ENDS_ALL),
        "ends" => Some(ENDS),
        _ => None,
    }
}

/// One turn of an armed child.
fn turn(host: &mut Processes<'_>, child: u64) -> Result<Watch, Miss> {
    if host.is_armed(child) {
        host.watch(child)
    } else {
        Err(Miss::Failed)
    }
}

/// Turns until the child does something else than to wait.
fn turns(rt: &HostRuntime, host: &mut Processes<'_>, child: u64) -> Result<Watch, Miss> {
    for _ in 0..TURNS {
        let watch = turn(host, child)?;
        if watch != Watch::Waits {
            return Ok(watch);
        }
        thread::sleep(rt, Duration::from_millis(PAUSE));
    }
    Ok(Watch::Waits)
}

/// Looks until a file stands.
fn comes(rt: &HostRuntime, host: &mut Processes<'_>, path: &str) -> &'static str {
    for _ in 0..TURNS {
        if let Ok(true) = host.look(path) {
            return "stands";
        }
        thread::sleep(rt, Duration::from_millis(PAUSE));
    }
    "none"
}

/// What a call on a file with a path came to: `comes | PATH` looks until it stands, `line | PATH | TEXT` puts a text with the end
/// of a line.
fn on_path(
    rt: &HostRuntime,
    host: &mut Processes<'_>,
    folder: &str,
    call: &str,
) -> Result<&'static str, AllocError> {
    let alloc = rt.alloc();
    let call = call.replace(alloc, "@", folder)?;
    let mut parts = call.as_str().split(" | ");
    let verb = parts.next().unwrap_or("");
    let path = parts.next().unwrap_or("");
    if verb == "comes" {
        return Ok(comes(rt, host, path));
    }
    let text = parts.next().unwrap_or("").replace(alloc, "$", "\n")?;
    match host.put(path, text.as_bytes()) {
        Ok(()) => Ok("done"),
        Err(_) => Ok("failed"),
    }
}

/// What a call came to, with `@` as the folder.
fn told(
    rt: &HostRuntime,
    host: &mut Processes<'_>,
    folder: &str,
    call: &str,
) -> Result<String, AllocError> {
    let alloc = rt.alloc();
    match verb_of(call) {
        "watch" => watched(alloc, turn(host, child_of(call))),
        "turns" => watched(alloc, turns(rt, host, child_of(call))),
        "comes" | "line" => String::from_str(alloc, on_path(rt, host, folder, call)?),
        "rest" => {
            thread::sleep(rt, Duration::from_millis(100));
            String::from_str(alloc, "done")
        }
        "faults" => format!(in alloc; "{}", host.faults()),
        _ => called(alloc, host, folder, call),
    }
}

/// The first of the lines that doesn't hold of a new host over this program, with `@` as the folder, and what it came to.
fn unmet(rt: &HostRuntime, program: &str, folder: &str, lines: &str) -> Result<String, Fail> {
    let alloc = rt.alloc();
    let folders = "/bin:/usr/bin";
    let real = RealHost::new(rt, alloc, folders)?;
    let id = process::id(rt.process());
    let clock = SystemClock::new(rt);
    let mut host = ProcessHost::new(alloc, folders, program, id, real, clock, Nobody)?;
    for line in lines.split('\n') {
        let (call, wanted) = line.split_once(" => ").unwrap_or((line, "no answer"));
        let told = told(rt, &mut host, folder, call)?;
        if told.as_str() != wanted {
            return Ok(format!(in alloc; "{line}: {}", told.as_str())?);
        }
    }
    Ok(String::new(alloc))
}

/// Writes the script of this name, where there is one.
fn write_script(rt: &HostRuntime, path: &str, name: &str) -> Result<(), Fail> {
    if let Some(script) = script_of(name) {
        fs::write(rt, path, script.as_bytes())?;
        fs::set_permissions(rt, path, Permissions::from_mode(0o755))?;
    }
    Ok(())
}

/// The same of a block of lines, whose first names the script, in a folder of this test's own that is removed behind it.
fn unmet_of(rt: &HostRuntime, block: &str) -> Result<String, Fail> {
    let alloc = rt.alloc();
    let root = env::temp_dir(rt)?;
    let root = root.as_str();
    let id = process::id(rt.process());
    let folder = format!(in alloc; "{root}/wafnjold größe {id} processes")?;
    let folder = folder.as_str();
    let program = format!(in alloc; "{folder}.sh")?;
    let program = program.as_str();
    let (name, lines) = block.split_once('\n').unwrap_or((block, ""));
    write_script(rt, program, name)?;
    let unmet = unmet(rt, program, folder, lines)?;
    fs::remove_dir_all(rt, folder)?;
    let _ = fs::remove_file(rt, program);
    Ok(unmet)
}

/// A pod of three steps; each text of an exit but one is a fault; what the history doesn't explain; a process that is no more; a
/// program that isn't there; a kill, behind which nothing runs that a step started; a step that ends its group.
const BLOCKS: &str = "waits
clear | @ => done
put | @/run/start => done
launch p 0 | @/run/start | @/run/0/out | x => 0
launch p 1 | @/run/0/out | @/run/1/out | x => 1
launch p 2 | @/run/1/out | @/run/2/out | x => 2
watch 0 => waits
put | @/run/0/began => done
watch 0 => started
watch 1 => waits
watch 2 => waits
line | @/run/0/exit | 0$ => done
put | @/run/0/out => done
put | @/run/1/began => done
watch 0 => passed 0
watch 1 => started
watch 2 => waits
line | @/run/1/exit | 3$ => done
put | @/run/1/out.err => done
put | @/run/2/out.err => done
watch 2 => waits
watch 0 => passed 0
watch 1 => broke 3
watch 2 => refused
watch 2 => refused
faults => 0
kill 0 => done
kill 1 => done
kill 2 => done

waits
clear | @ => done
put | @/run/start => done
launch p 0 | @/run/start | @/run/0/out | x => 0
launch p 1 | @/run/0/out | @/run/1/out | x => 1
put | @/run/1/began => done
watch 1 => waits
put | @/run/0/began => done
watch 0 => started
watch 0 => runs
put | @/run/0/out => done
watch 0 => failed
line | @/run/0/exit | 0 => done
watch 0 => failed
line | @/run/0/exit | 00$ => done
watch 0 => failed
line | @/run/0/exit | +0$ => done
watch 0 => failed
line | @/run/0/exit | 256$ => done
watch 0 => failed
line | @/run/0/exit | 0$$ => done
watch 0 => failed
line | @/run/0/exit | 3$ => done
watch 0 => failed
faults => 7
line | @/run/0/exit | 0$ => done
watch 0 => passed 0
watch 1 => started
put | @/run/1/out.err => done
line | @/run/1/exit | 0$ => done
watch 1 => failed
line | @/run/1/exit | 255$ => done
watch 1 => broke 255
faults => 8
kill 0 => done
kill 1 => done

waits
clear | @ => done
put | @/run/start => done
launch p 0 | @/run/start | @/run/0/out | x => 0
launch p 1 | @/run/0/out | @/run/1/out | x => 1
launch p 2 | @/run/1/out | @/run/2/out | x => 2
put | @/run/0/out.err => done
watch 0 => failed
put | @/run/0/began => done
watch 0 => started
put | @/run/1/out.err => done
put | @/run/2/began => done
watch 1 => waits
line | @/run/0/exit | 1$ => done
watch 0 => broke 1
watch 2 => waits
watch 1 => refused
watch 2 => failed
faults => 2
kill 0 => done
kill 1 => done
kill 2 => done

waits
clear | @ => done
put | @/run/start => done
launch p 0 | @/run/start | @/run/0/out | x => 0
launch p 1 | @/run/0/out | @/run/1/out | x => 1
put | @/run/1/out.err => done
put | @/run/0/began => done
watch 0 => started
watch 1 => waits
line | @/run/0/exit | 0$ => done
put | @/run/0/out => done
watch 0 => passed 0
watch 1 => failed
faults => 1
kill 0 => done
kill 1 => done

ends
clear | @ => done
put | @/run/start => done
launch p 0 | @/run/start | @/run/0/out | x => 0
turns 0 => failed
put | @/run/0/began => done
watch 0 => started
watch 0 => failed
faults => 2
line | @/run/0/exit | 0$ => done
put | @/run/0/out => done
watch 0 => passed 0

missing
clear | @ => done
put | @/run/start => done
launch p 0 | @/run/start | @/run/0/out | x => 0
launch p 1 | @/run/0/out | @/run/1/out | x => 1
turns 0 => failed
put | @/run/0/out.err => done
watch 1 => waits
kill 0 => done
watch 0 => waits
faults => 1

beats
clear | @ => done
put | @/run/start => done
launch p 0 | @/run/start | @/run/0/out | x => 0
comes | @/beat => stands
kill 0 => done
look | @/late => stands
put | @/run/0/began => done
watch 0 => waits
kill 99 => done
clear | @ => done
rest => done
look | @/beat => none
faults => 0

ends all
clear | @ => done
put | @/run/start => done
launch p 0 | @/run/start | @/run/0/out | x => 0
turns 0 => failed
faults => 1";

#[test]
fn processes_of_a_pod_are_watched_and_ended(rt: HostRuntime) -> Result<(), Fail> {
    for block in BLOCKS.split("\n\n") {
        assert_eq!(rt; unmet_of(&rt, block)?.as_str(), "");
    }
    Ok(())
}
