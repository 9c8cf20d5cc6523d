//! Entrypoints turn by turn, over hosts in memory.

use crate::calls::{called, verb_of};
use std::alloc::{AllocError, Global};
use std::process::Abort;
use std::test::Fail;
use tk_edge::{CleanHost, Host, Order, WaitFile};
use tk_entry::{EntryPoint, Turn};
use tk_script::ScriptHost;
use tk_types::{List, Text};

/// The entrypoint of a step behind another, which notes its exit.
fn entry_of(alloc: Global, keep_going: bool) -> Result<EntryPoint, AllocError> {
    let order = Order {
        pod: Text::from_str(alloc, "p")?,
        step: 2,
        argv: List::new(alloc),
        env: List::new(alloc),
        dir: Text::from_str(alloc, "/work/p")?,
    };
    let wait = WaitFile::new(alloc, Text::from_str(alloc, "/work/p/run/1/out")?)?;
    let post = Text::from_str(alloc, "/work/p/run/2/out")?;
    let mut entry = EntryPoint::new(order, wait, post, keep_going);
    entry.note_exit(Text::from_str(alloc, "/work/p/exit")?);
    Ok(entry)
}

/// What a turn is called.
fn word_of(turn: Turn) -> &'static str {
    match turn {
        Turn::Waits => "waits",
        Turn::Started => "started",
        Turn::Runs => "runs",
        Turn::Passed => "passed",
        Turn::Broke => "broke",
        Turn::HostFault => "fault",
    }
}

/// What a number is told as that may be there.
fn if_there(alloc: Global, number: Option<u64>) -> Result<String, AllocError> {
    match number {
        Some(number) => format!(in alloc; "{number}"),
        None => String::from_str(alloc, "none"),
    }
}

/// What a call came to: `turn`, `child` and `exit` are the entrypoint's.
fn told<H: Host>(
    alloc: Global,
    host: &mut H,
    entry: &mut EntryPoint,
    call: &str,
) -> Result<String, AllocError> {
    match verb_of(call) {
        "turn" => String::from_str(alloc, word_of(entry.turn(alloc, host)?)),
        "child" => if_there(alloc, entry.child()),
        "exit" => if_there(alloc, entry.exit().map(u64::from)),
        _ => called(alloc, host, "/work/p", call),
    }
}

/// Whether each line holds.
fn lines_hold<T: Abort, H: Host>(
    rt: &T,
    alloc: Global,
    host: &mut H,
    entry: &mut EntryPoint,
    lines: &str,
) -> Result<(), Fail> {
    for line in lines.split('\n') {
        let (call, wanted) = line.split_once(" => ").unwrap_or((line, "no answer"));
        let told = told(alloc, host, entry, call)?;
        assert_eq!(rt; told.as_str(), wanted, "of {call}");
    }
    Ok(())
}

const KEEPS_GOING: &str = "turn => waits
child => none
put | @/run/1/out => done
turn => started
child => 0
exit => none
turn => passed
exit => 3
turn => passed
look | @/run/2/out => stands
look | @/run/2/out.err => none
fetch | @/exit | 16 => 3$";

const STOPS: &str = "turn => waits
put | @/run/1/out => done
turn => started
turn => broke
exit => 3
look | @/run/2/out => none
look | @/run/2/out.err => stands
fetch | @/exit | 16 => 3$";

const BEHIND_A_BROKEN_ONE: &str = "put | @/run/1/out.err => done
turn => broke
child => none
turn => broke
child => none
look | @/run/2/out.err => stands
look | @/run/2/out => none";

/// Whether each line holds of an entrypoint over a host whose steps end with the exit 3.
fn holds_over_clean<T: Abort>(
    rt: &T,
    alloc: Global,
    keep_going: bool,
    lines: &str,
) -> Result<(), Fail> {
    let mut host = CleanHost::new(alloc, 3);
    let mut entry = entry_of(alloc, keep_going)?;
    lines_hold(rt, alloc, &mut host, &mut entry, lines)
}

#[test]
fn a_step_waits_starts_and_ends(rt: HostRuntime) -> Result<(), Fail> {
    let alloc = rt.alloc();
    holds_over_clean(&rt, alloc, true, KEEPS_GOING)?;
    holds_over_clean(&rt, alloc, false, STOPS)?;
    holds_over_clean(&rt, alloc, true, BEHIND_A_BROKEN_ONE)
}

/// A host whose steps pass, and of whose calls this one fails.
fn host_of(alloc: Global, failing: u64) -> Result<ScriptHost, AllocError> {
    let failing = List::from_vec(Vec::from_slice(alloc, &[failing])?);
    ScriptHost::new(
        alloc,
        Text::from_str(alloc, "/work")?,
        List::new(alloc),
        failing,
    )
}

/// Which call of a host fails, and behind `=> ` the turns of an entrypoint whose wait file stands, the child that it started, the
/// number of the next, which is how many were started, and how many calls failed. After the put of its wait file the first turn looks twice and starts its
/// order, and the second polls and puts twice.
const FAULTS: &str = "1 => fault fault fault fault none 0 1
2 => fault fault fault fault none 0 1
3 => fault fault fault fault none 0 1
4 => started fault fault fault 0 1 1
5 => started fault fault fault 0 1 1
6 => started fault fault fault 0 1 1
9 => started passed passed passed 0 1 0";

/// What a row of them comes to.
fn faults_of(alloc: Global, failing: u64) -> Result<String, AllocError> {
    let mut host = host_of(alloc, failing)?;
    let mut entry = entry_of(alloc, false)?;
    let mut line = String::new(alloc);
    for call in [
        "put | @/run/1/out",
        "turn",
        "turn",
        "turn",
        "turn",
        "child",
        "start p 0",
    ] {
        let told = told(alloc, &mut host, &mut entry, call)?;
        if told.as_str() != "done" {
            line.push_str(told.as_str())?;
            line.push_str(" ")?;
        }
    }
    let faults = format!(in alloc; "{}", host.faults())?;
    line.push_str(faults.as_str())?;
    Ok(line)
}

#[test]
fn an_entrypoint_does_nothing_behind_a_fault(rt: HostRuntime) -> Result<(), Fail> {
    let alloc = rt.alloc();
    for row in FAULTS.split('\n') {
        let (failing, wanted) = row.split_once(" => ").unwrap_or((row, "no answer"));
        let told = faults_of(alloc, failing.parse::<u64>().unwrap_or(0))?;
        assert_eq!(rt; told.as_str(), wanted, "of {failing}");
    }
    Ok(())
}
