ghost use Rattle.std.specs.Prelude.{◌≡◌};

use std::alloc::Global;
use tk_edge::{Failed, Miss, Sink, Source};
use tk_types::LONGEST_INPUT;

/// How many bytes are remembered at most: more than the line of a fault has, and the report of some ten thousand TaskRuns.
const LIMIT: usize = 1_048_576;

/// A sink that hands on what it is given and remembers the front of it, as far as there is memory.
#[derive(Drop)]
pub(crate) struct Remembering<W> {
    sink: W,
    front: Vec<u8>,
}

/// Adds bytes to those that are remembered.
fn remember(front: &mut Vec<u8>, piece: &[u8]) {
    if piece.len() <= LIMIT && front.len() <= LIMIT - piece.len() {
        let _ = front.extend_from_slice(piece);
    }
}

impl<W: Sink> Remembering<W> {
    /// A sink that remembers nothing yet, in front of this one.
    pub(crate) fn new(alloc: Global, sink: W) -> Self {
        Remembering {
            sink,
            front: Vec::new(alloc),
        }
    }

    /// What is remembered.
    pub(crate) fn front(&self) -> &[u8] {
        self.front.as_slice()
    }
}

impl<W: Sink> Sink for Remembering<W> {
    ghost written = { λ s. W.written s.sink };

    ghost faults = { λ s. W.faults s.sink };

    fn write(&mut self, piece: &[u8]) -> Result<usize, Miss> {
        let taken = self.sink.write(piece)?;
        remember(&mut self.front, &piece[..taken]);
        Ok(taken)
    }
}

/// A source that hands on what it gives and remembers it, as far as there is memory and an input may be long.
#[derive(Drop)]
pub(crate) struct Heard<R> {
    source: R,
    bytes: Vec<u8>,
    whole: bool,
}

impl<R: Source> Heard<R> {
    /// A source of which nothing is remembered yet, in front of this one.
    pub(crate) fn new(alloc: Global, source: R) -> Self
        ensures left { ⟦<Heard<R> as Source>⟧.left result ≡ R.left source }
        ensures ended { ⟦<Heard<R> as Source>⟧.ended result ≡ R.ended source }
        ensures faults { ⟦<Heard<R> as Source>⟧.faults result ≡ R.faults source }
    {
        Heard {
            source,
            bytes: Vec::new(alloc),
            whole: true,
        }
    }

    /// What was read, if all of it is remembered.
    pub(crate) fn bytes(&self) -> Option<&[u8]> {
        if self.whole {
            Some(self.bytes.as_slice())
        } else {
            None
        }
    }
}

/// Adds bytes to those that are remembered, and answers whether it could.
fn keep(bytes: &mut Vec<u8>, piece: &[u8]) -> bool {
    bytes.len() <= LONGEST_INPUT && bytes.extend_from_slice(piece).is_ok()
}

impl<R: Source> Source for Heard<R> {
    ghost left = { λ s. R.left s.source };

    ghost ended = { λ s. R.ended s.source };

    ghost faults = { λ s. R.faults s.source };

    fn read(&mut self, buf: &mut [u8]) -> Result<usize, Failed> {
        let count = self.source.read(buf)?;
        self.whole = self.whole && keep(&mut self.bytes, &buf[..count]);
        Ok(count)
    }
}
