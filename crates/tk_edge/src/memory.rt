ghost use Rattle.std.specs.Prelude.{◌≡◌, ◌+◌, ◌-◌, ◌^◌, ◌<◌, ◌++◌, ◌↔◌, [], if◌then◌else◌, false, is_ok, length, min, take, Contains, IfOk, IsErr, IsErrOf, OnErr, Some};
ghost use Rattle.tk_edge.specs.Causes.{CountsFault};
ghost use Rattle.tk_edge.specs.Streams.{CountsWrite, GivesEnd};

use crate::cursor::Cursor;
use crate::miss::{Failed, Miss};
use crate::script::Script;
use crate::sink::Sink;
use crate::source::Source;
use std::alloc::Global;
use std::marker::Model;
use tk_types::{Bytes, List};

/// A source over bytes in memory, of which the scripted calls fail.
#[derive(Drop)]
pub struct MemSource {
    cursor: Cursor,
    script: Script,
}

impl Model for MemSource {
    ghost use Rattle.std.specs.Prelude.{drop};
    ghost use Rattle.tk_edge.specs.Scripted.{source_of, ScriptedSource};

    ghost Value = { ScriptedSource };

    ghost view = { λ s. source_of (drop s.cursor.position s.cursor.bytes) s.cursor.ended s.script };
}

impl MemSource {
    /// A source that gives these bytes. `failing` has the numbers of the calls that fail, counted from 0.
    pub fn new(bytes: Bytes, failing: List<u64>) -> Self
        ensures { result ≡ record { left = bytes; ended = false; failing = failing; calls = 0; faults = 0 } }
    {
        MemSource {
            cursor: Cursor::new(bytes),
            script: Script::new(failing),
        }
    }
}

impl Source for MemSource {
    ghost left = { λ s. Some s.left };

    ghost ended = { λ s. s.ended };

    ghost faults = { λ s. s.faults };

    /// The scripted calls fail, and no others. The number of calls stands still at 2^64 - 1.
    fn read(&mut self, buf: &mut [u8]) -> Result<usize, Failed>
        ensures scripted { IsErr result ↔ Contains self.old.failing self.old.calls }
        ensures script { self.new.failing ≡ self.old.failing }
        ensures counted { self.new.calls ≡ min (self.old.calls + 1) (2 ^ 64 - 1) }
        ensures count { IfOk result (λ n. n ≡ min (length self.old.left) (length buf.new)) }
        ensures bytes { IfOk result (λ n. self.old.left ≡ take n buf.new ++ self.new.left) }
        ensures end { GivesEnd self.old.ended self.new.ended result buf.new }
        ensures none_left { IfOk result (λ n. n ≡ 0 → 0 < length buf.new → self.new.left ≡ []) }
        ensures err { OnErr result (self.new.left ≡ self.old.left) }
        ensures faults { CountsFault self.old.faults self.new.faults result }
    {
        if self.script.fails() {
            return Err(Failed);
        }
        Ok(self.cursor.read(buf))
    }
}

/// A sink that keeps all bytes in memory, of which the scripted calls fail.
#[derive(Drop)]
pub struct MemSink {
    bytes: Vec<u8>,
    script: Script,
}

impl Model for MemSink {
    ghost use Rattle.tk_edge.specs.Scripted.{sink_of, ScriptedSink};

    ghost Value = { ScriptedSink };

    ghost view = { λ s. sink_of s.bytes.items s.script };
}

impl MemSink {
    /// A sink to which nothing was written. `failing` has the numbers of the calls that fail, counted from 0.
    pub fn new(alloc: Global, failing: List<u64>) -> Self
        ensures { result ≡ record { written = []; failing = failing; calls = 0; faults = 0 } }
    {
        MemSink {
            bytes: Vec::new(alloc),
            script: Script::new(failing),
        }
    }

    /// All that was written.
    pub fn bytes(&self) -> &[u8]
        ensures { result.now ≡ self.now.written }
    {
        self.bytes.as_slice()
    }
}

impl Sink for MemSink {
    ghost written = { λ s. Some s.written };

    ghost faults = { λ s. s.faults };

    /// The scripted calls fail, and no others; memory may run out at each of the others. The number of calls stands
    /// still at 2^64 - 1.
    fn write(&mut self, piece: &[u8]) -> Result<usize, Miss>
        ensures scripted { IsErrOf result Miss.Failed ↔ Contains self.old.failing self.old.calls }
        ensures script { self.new.failing ≡ self.old.failing }
        ensures counted { self.new.calls ≡ min (self.old.calls + 1) (2 ^ 64 - 1) }
        ensures count { IfOk result (λ n. n ≡ length piece.now) }
        ensures bytes { self.new.written ≡ (if is_ok result then self.old.written ++ piece.now else self.old.written) }
        ensures faults { CountsWrite piece.now self.old.faults self.new.faults result }
    {
        if self.script.fails() {
            return Err(Miss::Failed);
        }
        match self.bytes.extend_from_slice(piece) {
            Ok(()) => Ok(piece.len()),
            Err(_) => Err(Miss::Memory),
        }
    }
}
