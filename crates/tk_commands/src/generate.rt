ghost use Rattle.std.specs.Prelude.{◌≡◌, ◌==◌, ◌<◌, ◌⊎◌, if◌then◌else◌, false, true, [], None, Some, IfOk};
ghost use Rattle.tk_edge.specs.Causes.{raised};
ghost use Rattle.tk_commands.specs.Generate.{Generates, IsGenerated};
ghost use Rattle.tk_commands.specs.GenerateWords.{generation_of as generation_of_words};
ghost use Rattle.tk_commands.specs.declared.generate_words.Generation.{Generation as Wanted};
ghost use Rattle.tk_commands.specs.Plain.{is_answer};
ghost use Rattle.tk_commands.specs.Run.{PrintsFrontOf, PrintsOne};

use crate::answer::{Answer, refused, without_journal};
use crate::carrying::{Ended, end_with};
use crate::due::Due;
use crate::generate_words::{Generation, generation_of};
use crate::printing::print;
use std::alloc::{AllocError, Global};
use tk_edge::Sink;
use tk_gen::generate;
use tk_simulate::simulate;
use tk_summary::summary;
use tk_types::Text;

/// What is answered where a generated text is printed.
fn printed(alloc: Global, text: &str) -> Result<Answer, AllocError>
    ensures { IfOk result (Generates false text.now) }
{
    let mut line = String::from_str(alloc, text)?;
    line.push_str("\n")?;
    let due = Due {
        status: 0,
        text: Text::from_string(line),
    };
    Ok(without_journal(alloc, due))
}

/// What is answered where it is simulated: the summary of its journal, or its fault.
fn simulated(alloc: Global, text: &str) -> Result<Answer, AllocError>
    ensures { IfOk result (Generates true text.now) }
{
    match simulate(alloc, text.as_bytes()) {
        Ok(journal) => Ok(Answer {
            due: Due {
                status: 0,
                text: summary(alloc, &journal)?,
            },
            journal,
            warnings: None,
        }),
        Err(error) => Ok(without_journal(alloc, refused(alloc, &error)?)),
    }
}

/// What `generate` answers.
fn generated(alloc: Global, wanted: Generation) -> Result<Answer, AllocError>
    ensures answer { IfOk result (IsGenerated wanted) }
    ensures status { IfOk result (λ answer. is_answer answer.due.status ≡ true) }
{
    let text = generate(alloc, wanted.number, wanted.size)?;
    if wanted.run {
        simulated(alloc, text.as_str())
    } else {
        printed(alloc, text.as_str())
    }
}

/// Writes what `generate` answers.
fn write_generated<W: Sink>(alloc: Global, wanted: Generation, sink: &mut W) -> Ended
    ensures known { result.status < 8 }
    ensures done { (result.status ≡ 2) ⊎ (result.status ≡ 4) → ⊥ }
    ensures answer { is_answer result.status ≡ true → PrintsOne (IsGenerated wanted) (W.written sink.old) (W.written sink.new) result.status result.journal.history }
    ensures sink_faults { W.faults sink.new ≡ (if result.status == 5 then raised (W.faults sink.old) else W.faults sink.old) }
    ensures sink_failed_front { result.status ≡ 5 → PrintsFrontOf (IsGenerated wanted) (W.written sink.old) (W.written sink.new) result.journal.history }
    ensures memory_front { result.status ≡ 6 → ((sink.new ≡ sink.old) × (result.journal.history ≡ [])) ⊎ PrintsFrontOf (IsGenerated wanted) (W.written sink.old) (W.written sink.new) result.journal.history }
{
    match generated(alloc, wanted) {
        Ok(Answer { due, journal, .. }) => print(sink, due, journal),
        Err(_) => end_with(alloc, 6),
    }
}

/// Carries out the words of `generate`: prints the manifest of a number and a size, or with `--run` simulates it and prints
/// what its journal comes to. No input is read.
pub(crate) fn generate_command<W: Sink>(alloc: Global, words: &[Text], sink: &mut W) -> Ended
    ensures known { result.status < 8 }
    ensures read { result.status ≡ 4 → ⊥ }
    ensures usage { generation_of_words words.now ≡ None → ((result.status ≡ 2) ⊎ (result.status ≡ 6)) × (sink.new ≡ sink.old) × (result.journal.history ≡ []) }
    ensures usage_alone { result.status ≡ 2 → generation_of_words words.now ≡ None }
    ensures answer { is_answer result.status ≡ true → (wanted : Wanted) → generation_of_words words.now ≡ Some wanted → PrintsOne (IsGenerated wanted) (W.written sink.old) (W.written sink.new) result.status result.journal.history }
    ensures sink_faults { W.faults sink.new ≡ (if result.status == 5 then raised (W.faults sink.old) else W.faults sink.old) }
    ensures sink_failed_front { result.status ≡ 5 → (wanted : Wanted) → generation_of_words words.now ≡ Some wanted → PrintsFrontOf (IsGenerated wanted) (W.written sink.old) (W.written sink.new) result.journal.history }
    ensures memory_front { result.status ≡ 6 → (wanted : Wanted) → generation_of_words words.now ≡ Some wanted → ((sink.new ≡ sink.old) × (result.journal.history ≡ [])) ⊎ PrintsFrontOf (IsGenerated wanted) (W.written sink.old) (W.written sink.new) result.journal.history }
{
    match generation_of(alloc, words) {
        Ok(Some(wanted)) => write_generated(alloc, wanted, sink),
        Ok(None) => end_with(alloc, 2),
        Err(_) => end_with(alloc, 6),
    }
}
