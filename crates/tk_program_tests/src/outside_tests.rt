//! Each read and each write of `simulate` fails in turn.

ghost use Rattle.std.specs.Prelude.{Some};

use crate::rows::{carried_out, whole, words};
use std::alloc::{AllocError, Global};
use std::test::Fail;
use tk_commands::Ended;
use tk_edge::{CleanSink, CleanSource, MemSink, MemSource, Miss, Sink};
use tk_types::{Bytes, List};

/// One task, and what is printed of its run.
const INPUT: &str = r#"{@run, "spec": {"pipelineSpec": {"tasks": [{"name": "a", @step}]}}}"#;

const TEXT: &str = "pipelinerun r True Succeeded\n  taskrun r-a a 0 Succeeded attempts 1\n";

/// How many bytes a narrow sink takes at once.
const NARROW: usize = 16;

/// A sink that takes few bytes at once.
#[derive(Drop)]
struct NarrowSink {
    sink: MemSink,
}

impl Sink for NarrowSink {
    ghost written = { λ s. Some s.sink.written };

    ghost faults = { λ s. s.sink.faults };

    fn write(&mut self, piece: &[u8]) -> Result<usize, Miss> {
        self.sink.write(&piece[..piece.len().min(NARROW)])
    }
}

/// The input, with spaces behind it so that it comes in several pieces.
fn wide(alloc: Global) -> Result<Bytes, AllocError> {
    let mut bytes = Vec::from_slice(alloc, whole(alloc, INPUT)?.as_slice())?;
    for _ in 0..200_000 {
        bytes.push(b' ')?;
    }
    Ok(Bytes::from_vec(bytes))
}

/// An end and what was printed, as a test tells them: the status, how many entries there are, and the text.
fn told(alloc: Global, ended: &Ended, printed: &[u8]) -> Result<String, AllocError> {
    let text = std::str::from_utf8(printed).unwrap_or("no text");
    format!(in alloc; "{} {} {text}", ended.status, ended.journal.len())
}

/// What `simulate` comes to where the read of this number fails.
fn read_told(alloc: Global, call: u64) -> Result<String, AllocError> {
    let words = words(alloc, "simulate")?;
    let mut source = MemSource::new(wide(alloc)?, List::from_vec(vec![in alloc; call]?));
    let mut sink = CleanSink::new(alloc);
    let ended = carried_out(alloc, words.as_slice(), &mut source, &mut sink);
    told(alloc, &ended, sink.bytes())
}

/// What it comes to where the write of this number fails.
fn write_told(alloc: Global, call: u64) -> Result<String, AllocError> {
    let words = words(alloc, "simulate")?;
    let mut sink = NarrowSink {
        sink: MemSink::new(alloc, List::from_vec(vec![in alloc; call]?)),
    };
    let mut source = CleanSource::new(whole(alloc, INPUT)?);
    let ended = carried_out(alloc, words.as_slice(), &mut source, &mut sink);
    told(alloc, &ended, sink.sink.bytes())
}

#[test]
fn each_failed_read_is_told(rt: HostRuntime) -> Result<(), Fail> {
    let alloc = rt.alloc();
    let whole = format!(in alloc; "0 10 {TEXT}")?;
    // four pieces, and the end
    for call in 0..7 {
        let wanted = if call < 5 { "4 0 " } else { whole.as_str() };
        assert_eq!(rt; read_told(alloc, call)?.as_str(), wanted, "of {call}");
    }
    Ok(())
}

#[test]
fn each_failed_write_is_told(rt: HostRuntime) -> Result<(), Fail> {
    let alloc = rt.alloc();
    // four whole pieces and a short one
    for call in 0..7 {
        let front = &TEXT.as_bytes()[..TEXT.len().min(NARROW * call)];
        let front = std::str::from_utf8(front).unwrap_or("no text");
        let status = if call < 5 { 5 } else { 0 };
        let wanted = format!(in alloc; "{status} 10 {front}")?;
        let told = write_told(alloc, call as u64)?;
        assert_eq!(rt; told.as_str(), wanted.as_str(), "of {call}");
    }
    Ok(())
}
