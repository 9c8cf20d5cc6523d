ghost use Rattle.std.specs.Prelude.{◌≡◌, false};

use std::io::{Read, Write};
use tk_edge::{Failed, Miss, Sink, Source};

/// A source over a reader, as that of standard input.
#[derive(Drop)]
pub struct ReadSource<R> {
    reader: R,
    ended: bool,
    faults: u64,
}

impl<R: Read> ReadSource<R> {
    /// A source that gives what the reader gives.
    pub fn new(reader: R) -> Self
        ensures left { ⟦<ReadSource<R> as Source>⟧.left result ≡ R.remaining reader }
        ensures ended { ⟦<ReadSource<R> as Source>⟧.ended result ≡ false }
        ensures faults { ⟦<ReadSource<R> as Source>⟧.faults result ≡ 0 }
    {
        ReadSource {
            reader,
            ended: false,
            faults: 0,
        }
    }
}

impl<R: Read> Source for ReadSource<R> {
    ghost left = { λ s. R.remaining s.reader };

    ghost ended = { λ s. s.ended };

    ghost faults = { λ s. s.faults };

    fn read(&mut self, buf: &mut [u8]) -> Result<usize, Failed> {
        match self.reader.read(buf) {
            Ok(count) => {
                self.ended = self.ended || (count == 0 && !buf.is_empty());
                Ok(count)
            }
            Err(_) => {
                self.faults = self.faults.saturating_add(1);
                Err(Failed)
            }
        }
    }
}

/// A sink over a writer, as that of standard output.
#[derive(Drop)]
pub struct WriteSink<W> {
    writer: W,
    faults: u64,
}

impl<W: Write> WriteSink<W> {
    /// A sink that hands all bytes to the writer.
    pub fn new(writer: W) -> Self
        ensures written { ⟦<WriteSink<W> as Sink>⟧.written result ≡ W.contents writer }
        ensures faults { ⟦<WriteSink<W> as Sink>⟧.faults result ≡ 0 }
    {
        WriteSink { writer, faults: 0 }
    }
}

impl<W: Write> Sink for WriteSink<W> {
    ghost written = { λ s. W.contents s.writer };

    ghost faults = { λ s. s.faults };

    fn write(&mut self, piece: &[u8]) -> Result<usize, Miss> {
        match self.writer.write(piece) {
            Ok(0) if !piece.is_empty() => {
                self.faults = self.faults.saturating_add(1);
                Ok(0)
            }
            Ok(count) => Ok(count),
            Err(_) => {
                self.faults = self.faults.saturating_add(1);
                Err(Miss::Failed)
            }
        }
    }
}
