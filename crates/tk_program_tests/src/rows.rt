//! Rows of tests as texts, over a bench, sources and sinks in memory.
//!
//! A row has the words, the lines of the input, and behind `=> ` the status and what is printed, but for its last line feed,
//! with what is said beside it in lines of its own. Rows are parted by an empty line, and the first of several may have a
//! heading. In an input `@run` and its kin stand for the first members of an object, `@step` for a task's spec of one step,
//! and `@spaces` for so many of them.
//!
//! Behind ` | ` the words may tell which read, which write or which call on each host fails (`read 0`), how many controllers
//! and nodes there are (`members 1`), what their gates do (`gate single`, `gate lists`, `pauses 3`), and what is told behind
//! all (`tell entries`, `tell fronts`).

ghost use Rattle.tk_run.specs.Begun.{IsNewBench};

use crate::bench::{TestGate, bench};
use crate::run_rows::BUILD;
use std::alloc::{AllocError, Global};
use std::process::Abort;
use std::sync::Wait;
use std::test::Fail;
use std::thread::Threads;
use tk_commands::{Ended, plain, tkn};
use tk_edge::{Host, ManualClock, MemSink, MemSource, Sink, Source};
use tk_journal::Journal;
use tk_rounds::Bench;
use tk_script::ScriptHost;
use tk_types::{Bytes, List, Text};

/// What the short words of an input stand for.
const SHORT: [(&str, &str); 6] = [
    ("@list", r#""apiVersion": "v1", "kind": "List""#),
    (
        "@run",
        r#""apiVersion": "tekton.dev/v1", "kind": "PipelineRun", "metadata": {"name": "r"}"#,
    ),
    (
        "@outcomes",
        r#""apiVersion": "tkn.local/v1", "kind": "Outcomes", "metadata": {"name": "s"}"#,
    ),
    (
        "@scenario",
        r#""apiVersion": "tkn.local/v1", "kind": "Scenario", "metadata": {"name": "s"}"#,
    ),
    ("@step", r#""taskSpec": {"steps": [{"command": ["true"]}]}"#),
    ("@build", BUILD),
];

/// What an option behind the words says, if it is there.
pub(crate) fn option<'a>(options: &'a str, name: &str) -> Option<&'a str> {
    for option in options.split(" | ") {
        if let Some((found, said)) = option.split_once(' ') {
            if found == name {
                return Some(said);
            }
        }
    }
    None
}

/// The number that such an option says.
pub(crate) fn number(options: &str, name: &str) -> Option<u64> {
    option(options, name)?.parse::<u64>().ok()
}

/// The call that fails, where one of this kind does.
pub(crate) fn failing(alloc: Global, options: &str, kind: &str) -> Result<List<u64>, AllocError> {
    let mut calls = Vec::new(alloc);
    if let Some(call) = number(options, kind) {
        calls.push(call)?;
    }
    Ok(List::from_vec(calls))
}

/// The bytes of an input, with what its short words stand for.
pub(crate) fn whole(alloc: Global, input: &str) -> Result<Bytes, AllocError> {
    if let Some(count) = number(input, "@spaces") {
        return Ok(Bytes::from_vec(Vec::from_elem(alloc, b' ', count as usize)?));
    }
    let mut text = String::from_str(alloc, input)?;
    for (short, long) in SHORT {
        text = text.as_str().replace(alloc, short, long)?;
    }
    Ok(Bytes::from_vec(Vec::from_slice(alloc, text.as_str().as_bytes())?))
}

/// The words of a line; `@none` stands for no word, and `@empty` for an empty one.
pub(crate) fn words(alloc: Global, line: &str) -> Result<List<Text>, AllocError> {
    let mut words = List::new(alloc);
    if line == "@none" {
        return Ok(words);
    }
    for word in line.split(' ') {
        let word = if word == "@empty" { "" } else { word };
        words.push(Text::from_str(alloc, word)?)?;
    }
    Ok(words)
}

/// A status and what was printed, as a row tells them.
fn printed(alloc: Global, status: u8, printed: &[u8]) -> Result<String, AllocError> {
    let Ok(text) = std::str::from_utf8(printed) else {
        return String::from_str(alloc, "no text");
    };
    match text.strip_suffix('\n') {
        Some(front) => format!(in alloc; "{status} {front}"),
        None => format!(in alloc; "{status}{text}"),
    }
}

/// What is told of a journal: how many entries it has, or how far its actor had seen it when the second was written.
fn told_of_journal(alloc: Global, journal: &Journal, what: &str) -> Result<String, AllocError> {
    if what == "entries" {
        let count = journal.len();
        return format!(in alloc; "\nentries {count}");
    }
    if journal.len() < 2 {
        return String::from_str(alloc, "\nno second entry");
    }
    let fronts = journal.entry(2).fronts;
    format!(in alloc;
        "\nfronts {} {} {}",
        fronts.runs, fronts.task_runs, fronts.pods
    )
}

/// An end and what was printed, as a row tells them.
fn told(alloc: Global, ended: &Ended, sink: &[u8], options: &str) -> Result<String, AllocError> {
    let mut told = printed(alloc, ended.status, sink)?;
    if let Some(warnings) = &ended.warnings {
        told.push_str("\n")?;
        told.push_str(warnings.as_str())?;
    }
    if let Some(what) = option(options, "tell") {
        told.push_str(told_of_journal(alloc, &ended.journal, what)?.as_str())?;
    }
    Ok(told)
}

/// What words come to over sources and sinks in memory. What `tkn` promises of it stays here.
fn ran<T: Threads + Wait + Sync>(
    rt: &T,
    alloc: Global,
    words: &[Text],
    source: &mut MemSource,
    sink: &mut MemSink,
    bench: &mut Bench<ManualClock, ScriptHost, TestGate>,
) -> Ended
    requires { IsNewBench (⟦<ScriptHost as Host>⟧.told) bench.old }
{
    tkn(rt, alloc, words, source, sink, bench)
}

/// What a command other than `run` and `generate` comes to. What `plain` promises of it stays here.
pub(crate) fn carried_out<R: Source, W: Sink>(
    alloc: Global,
    words: &[Text],
    source: &mut R,
    sink: &mut W,
) -> Ended {
    plain(alloc, words, source, sink)
}

/// What words come to with an input, behind what the options say, as a row tells it.
fn answered<T: Threads + Wait + Sync>(
    rt: &T,
    alloc: Global,
    words: &[Text],
    options: &str,
    input: Bytes,
) -> Result<String, AllocError> {
    let mut source = MemSource::new(input, failing(alloc, options, "read")?);
    let mut sink = MemSink::new(alloc, failing(alloc, options, "write")?);
    let mut bench = bench(alloc, options)?;
    let ended = ran(rt, alloc, words, &mut source, &mut sink, &mut bench);
    told(alloc, &ended, sink.bytes(), options)
}

/// What a row's first part comes to: its words, its options, and its input.
fn answered_row<T: Threads + Wait + Sync>(
    rt: &T,
    alloc: Global,
    given: &str,
) -> Result<String, AllocError> {
    let (line, input) = given.split_once('\n').unwrap_or((given, ""));
    let (line, options) = line.split_once(" | ").unwrap_or((line, ""));
    let words = words(alloc, line)?;
    answered(rt, alloc, words.as_slice(), options, whole(alloc, input)?)
}

/// A row without its heading.
fn without_heading(row: &str) -> &str {
    if !row.starts_with("# ") {
        return row;
    }
    match row.split_once('\n') {
        Some((_, rest)) => rest,
        None => row,
    }
}

/// Whether each row of a table comes to what it tells.
pub(crate) fn rows_hold<T: Threads + Wait + Sync + Abort>(
    rt: &T,
    alloc: Global,
    table: &str,
) -> Result<(), Fail> {
    for row in table.split("\n\n") {
        let row = without_heading(row);
        let (given, wanted) = row.split_once("\n=> ").unwrap_or((row, "no answer"));
        let told = answered_row(rt, alloc, given)?;
        assert_eq!(rt; told.as_str(), wanted, "of {given}");
    }
    Ok(())
}
