ghost use Rattle.std.specs.Prelude.{◌<◌, ◌^◌, OnErr, OnOk, length};
ghost use Rattle.std.specs.Io.KnownBytes.{Appends};
ghost use Rattle.tk_edge.specs.Causes.{Counts};
ghost use Rattle.tk_commands.specs.Written.{AppendsFront};

use tk_edge::{Miss, Sink};

/// Writes all of a text.
pub fn write_all<W: Sink>(sink: &mut W, text: &[u8]) -> Result<(), Miss>
    ensures written { OnOk result (Appends (W.written sink.old) (W.written sink.new) text.now) }
    ensures front { OnErr result (AppendsFront (W.written sink.old) (W.written sink.new) text.now) }
    ensures faults { Counts (W.faults sink.old) (W.faults sink.new) result }
{
    let mut start = 0;
    while start < text.len() {
        let count = sink.write(&text[start..])?;
        if count == 0 {
            return Err(Miss::Failed);
        }
        start += count;
    }
    Ok(())
}
