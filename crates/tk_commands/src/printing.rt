ghost use Rattle.std.specs.Prelude.{◌≡◌, ◌==◌, ◌⊎◌, if◌then◌else◌, true};
ghost use Rattle.std.specs.Io.KnownBytes.{Appends};
ghost use Rattle.tk_edge.specs.Causes.{raised};
ghost use Rattle.tk_commands.specs.Plain.{is_answer};
ghost use Rattle.tk_commands.specs.Written.{AppendsFront};

use crate::carrying::Ended;
use crate::due::Due;
use crate::output::write_all;
use tk_edge::{Miss, Sink};
use tk_journal::Journal;

/// What is due is written, and the journal is answered.
pub(crate) fn print<W: Sink>(sink: &mut W, due: Due, journal: Journal) -> Ended
    requires answer { is_answer due.status ≡ true }
    ensures journal { result.journal ≡ journal }
    ensures known { (result.status ≡ due.status) ⊎ (result.status ≡ 5) ⊎ (result.status ≡ 6) }
    ensures answer { is_answer result.status ≡ true → (result.status ≡ due.status) × Appends (W.written sink.old) (W.written sink.new) due.text }
    ensures failed_front { result.status ≡ 5 → AppendsFront (W.written sink.old) (W.written sink.new) due.text }
    ensures memory_front { result.status ≡ 6 → AppendsFront (W.written sink.old) (W.written sink.new) due.text }
    ensures faults { W.faults sink.new ≡ (if result.status == 5 then raised (W.faults sink.old) else W.faults sink.old) }
{
    match write_all(sink, due.text.as_str().as_bytes()) {
        Ok(()) => Ended {
            status: due.status,
            journal,
            warnings: None,
        },
        Err(Miss::Failed) => Ended {
            status: 5,
            journal,
            warnings: None,
        },
        Err(Miss::Memory) => Ended {
            status: 6,
            journal,
            warnings: None,
        },
    }
}
