ghost use Rattle.std.specs.Prelude.{◌≡◌, [], drop, false, Some};

use crate::cursor::Cursor;
use crate::miss::{Failed, Miss};
use crate::sink::Sink;
use crate::source::Source;
use std::alloc::Global;
use tk_types::Bytes;

/// A source over bytes in memory that never fails.
#[derive(Drop)]
pub struct CleanSource {
    cursor: Cursor,
}

impl CleanSource {
    /// A source that gives these bytes.
    pub fn new(bytes: Bytes) -> Self
        ensures left { ⟦<CleanSource as Source>⟧.left result ≡ Some bytes }
        ensures ended { ⟦<CleanSource as Source>⟧.ended result ≡ false }
    {
        CleanSource {
            cursor: Cursor::new(bytes),
        }
    }
}

impl Source for CleanSource {
    ghost left = { λ s. Some (drop s.cursor.position s.cursor.bytes) };

    ghost ended = { λ s. s.cursor.ended };

    ghost faults = { λ _. 0 };

    fn read(&mut self, buf: &mut [u8]) -> Result<usize, Failed> {
        Ok(self.cursor.read(buf))
    }
}

/// A sink that keeps all bytes in memory and never fails; memory may run out.
#[derive(Drop)]
pub struct CleanSink {
    bytes: Vec<u8>,
}

impl CleanSink {
    /// A sink to which nothing was written.
    pub fn new(alloc: Global) -> Self
        ensures { ⟦<CleanSink as Sink>⟧.written result ≡ Some [] }
    {
        CleanSink {
            bytes: Vec::new(alloc),
        }
    }

    /// All that was written.
    pub fn bytes(&self) -> &[u8]
        ensures { ⟦<CleanSink as Sink>⟧.written self.now ≡ Some result.now }
    {
        self.bytes.as_slice()
    }
}

impl Sink for CleanSink {
    ghost written = { λ s. Some s.bytes.items };

    ghost faults = { λ _. 0 };

    fn write(&mut self, piece: &[u8]) -> Result<usize, Miss> {
        match self.bytes.extend_from_slice(piece) {
            Ok(()) => Ok(piece.len()),
            Err(_) => Err(Miss::Memory),
        }
    }
}
