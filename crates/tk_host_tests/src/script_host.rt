//! A host that plays scripts, with ample memory.

use crate::calls::{called, child_of, verb_of, watched};
use std::alloc::{AllocError, Global};
use std::process::Abort;
use std::test::Fail;
use tk_edge::Host;
use tk_script::{PodScript, ScriptHost};
use tk_types::{List, Pair, Text};

fn pair(alloc: Global, key: &str, value: &str) -> Result<Pair, AllocError> {
    Ok(Pair {
        key: Text::from_str(alloc, key)?,
        value: Text::from_str(alloc, value)?,
    })
}

/// A host whose pod `p` has the exits 0, 3 and 0 and two files, one of which has a slash in its name.
fn host_of(alloc: Global, failing: &[u64]) -> Result<ScriptHost, AllocError> {
    let exits = List::from_vec(Vec::from_slice(alloc, &[0, 3])?);
    let files = List::from_vec(vec![in alloc;
        pair(alloc, "r", "one")?,
        pair(alloc, "a/b", "two")?,
    ]?);
    let script = PodScript {
        pod: Text::from_str(alloc, "p")?,
        exits,
        files,
    };
    let scripts = List::from_vec(vec![in alloc; script]?);
    let failing = List::from_vec(Vec::from_slice(alloc, failing)?);
    ScriptHost::new(alloc, Text::from_str(alloc, "/work")?, scripts, failing)
}

/// What a turn of a child came to, if it is armed.
fn turn(alloc: Global, host: &mut ScriptHost, child: u64) -> Result<String, AllocError> {
    if host.is_armed(child) {
        watched(alloc, host.watch(child))
    } else {
        String::from_str(alloc, "not armed")
    }
}

/// What a call came to.
fn told(alloc: Global, host: &mut ScriptHost, call: &str) -> Result<String, AllocError> {
    match verb_of(call) {
        "watch" => turn(alloc, host, child_of(call)),
        "faults" => format!(in alloc; "{}", host.faults()),
        _ => called(alloc, host, "/work/p", call),
    }
}

/// Whether each line holds.
fn lines_hold<T: Abort>(
    rt: &T,
    alloc: Global,
    host: &mut ScriptHost,
    lines: &str,
) -> Result<(), Fail> {
    for line in lines.split('\n') {
        let (call, wanted) = line.split_once(" => ").unwrap_or((line, "no answer"));
        let told = told(alloc, host, call)?;
        assert_eq!(rt; told.as_str(), wanted, "of {call}");
    }
    Ok(())
}

/// The first step starts once its file was put, and its results stand from then on; the second breaks, the third is refused.
const POD: &str = "clear | @ => done
launch p 0 | @/run/start | @/run/0/out => 0
launch p 1 | @/run/0/out | @/run/1/out => 1
launch p 2 | @/run/1/out | @/run/2/out => 2
watch 0 => waits
watch 1 => waits
watch 2 => waits
put | @/run/start => done
look | @/results/r => none
watch 0 => started
watch 1 => waits
watch 2 => waits
fetch | @/results/r | 2 => on
watch 0 => passed 0
watch 1 => started
watch 2 => waits
watch 0 => passed 0
watch 1 => broke 3
watch 2 => refused
watch 0 => passed 0
watch 1 => broke 3
watch 2 => refused
look | @/results/a/b => none
look | @/run/0/out => stands
look | @/run/1/out => none
look | @/run/1/out.err => stands
look | @/run/2/out.err => stands
clear | @/results => done
look | @/results/r => none
faults => 0";

const STARTED: &str = "start p 1 => 0
poll 0 => exited 3
poll 0 => exited 3
start p 2 => 1
poll 1 => exited 0
poll 1 => exited 0
start q 1 => 2
poll 2 => exited 0
poll 2 => exited 0
look | @/results/r => stands";

#[test]
fn a_pod_plays_its_script(rt: HostRuntime) -> Result<(), Fail> {
    let alloc = rt.alloc();
    for lines in [POD, STARTED] {
        let mut host = host_of(alloc, &[])?;
        lines_hold(&rt, alloc, &mut host, lines)?;
    }
    Ok(())
}

/// One call of each kind, the last on what the one before it launched.
const EACH: &str = "clear | @
put | @/run/start
look | @/run/start
fetch | @/run/start | 1
start p 0
poll 0
kill 0
launch p 0 | @/run/start | @/run/0/out
watch 1";

/// The places of the calls that fail.
fn failures(alloc: Global, host: &mut ScriptHost) -> Result<String, AllocError> {
    let mut places = String::new(alloc);
    for (place, call) in EACH.split('\n').enumerate() {
        if told(alloc, host, call)?.as_str() == "failed" {
            let place = format!(in alloc; "{place} ")?;
            places.push_str(place.as_str())?;
        }
    }
    Ok(places)
}

#[test]
fn each_call_fails_in_turn(rt: HostRuntime) -> Result<(), Fail> {
    let alloc = rt.alloc();
    for call in 0..9 {
        let mut host = host_of(alloc, &[call])?;
        let failed = failures(alloc, &mut host)?;
        let wanted = format!(in alloc; "{call} ")?;
        assert_eq!(rt; failed.as_str(), wanted.as_str());
        assert_eq!(rt; host.faults(), 1);
    }
    Ok(())
}
