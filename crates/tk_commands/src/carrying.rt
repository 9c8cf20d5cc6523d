ghost use Rattle.std.specs.Prelude.{◌≡◌, ◌==◌, ◌<◌, ◌⊎◌, ◌↔◌, if◌then◌else◌, true, [], None, IfOk};
ghost use Rattle.std.specs.Option.{ForSome};
ghost use Rattle.tk_edge.specs.Causes.{raised, Counts};
ghost use Rattle.tk_commands.specs.Plain.{is_answer, IsReadDue, Prints, PrintsFront, PrintsReadFront, Talks};
ghost use Rattle.tk_commands.specs.Command.{command_of as command_of_words};

use crate::answer::{Answer, answer_of, too_long_answer};
use crate::command::{Command, command_of, read_command};
use crate::input::{Unread, read_all};
use crate::output::write_all;
use std::alloc::Global;
use tk_edge::{Miss, Sink, Source};
use tk_journal::Journal;
use tk_types::Text;

/// How a command ended: its status, and the journal that its runs came to. It is empty where nothing ran, and where
/// there was no memory. What is to be said beside its text of objects that are admitted and can't start, if anything, is for
/// people, and no clause tells of it.
#[derive(Drop)]
pub struct Ended {
    pub status: u8,
    pub journal: Journal,
    pub warnings: Option<String>,
}

/// An end without a journal.
pub(crate) fn end_with(alloc: Global, status: u8) -> Ended
    ensures status { result.status ≡ status }
    ensures journal { result.journal.history ≡ [] }
{
    Ended {
        status,
        journal: Journal::empty(alloc),
        warnings: None,
    }
}

/// What is answered for an input, which is read to its end. It may fail, or there is no memory.
fn answered<R: Source>(alloc: Global, command: Command, input: &mut R) -> Result<Answer, Miss>
    ensures due { IfOk result (IsReadDue command (R.left input.old) (R.ended input.new)) }
    ensures answer { IfOk result (λ answer. is_answer answer.due.status ≡ true) }
    ensures faults { Counts (R.faults input.old) (R.faults input.new) result }
{
    match read_all(alloc, input) {
        Ok(bytes) => Ok(answer_of(alloc, command, bytes.as_slice())?),
        Err(Unread::TooLong) => Ok(too_long_answer(alloc)?),
        Err(Unread::Failed) => Err(Miss::Failed),
        Err(Unread::Memory) => Err(Miss::Memory),
    }
}

/// Carries out a command: what is due for the input is written.
fn carry_out<R: Source, W: Sink>(
    alloc: Global,
    command: Command,
    input: &mut R,
    sink: &mut W,
) -> Ended
    ensures known { result.status < 8 }
    ensures done { result.status ≡ 2 → ⊥ }
    ensures nothing_ran { (result.status ≡ 4) ⊎ (result.status ≡ 6) → result.journal.history ≡ [] }
    ensures answer { is_answer result.status ≡ true → Prints command (R.left input.old) (R.ended input.new) (W.written sink.old) (W.written sink.new) result.status result.journal.history }
    ensures input_faults { R.faults input.new ≡ (if result.status == 4 then raised (R.faults input.old) else R.faults input.old) }
    ensures input_failed_writes_nothing { result.status ≡ 4 → sink.new ≡ sink.old }
    ensures sink_faults { W.faults sink.new ≡ (if result.status == 5 then raised (W.faults sink.old) else W.faults sink.old) }
    ensures sink_failed_front { result.status ≡ 5 → PrintsReadFront command (R.left input.old) (R.ended input.new) (W.written sink.old) (W.written sink.new) result.journal.history }
    ensures memory_front { result.status ≡ 6 → PrintsFront command (R.left input.old) (W.written sink.old) (W.written sink.new) }
{
    let Answer {
        due,
        journal,
        warnings,
    } = match answered(alloc, command, input) {
        Ok(answer) => answer,
        Err(Miss::Failed) => return end_with(alloc, 4),
        Err(Miss::Memory) => return end_with(alloc, 6),
    };
    match write_all(sink, due.text.as_str().as_bytes()) {
        Ok(()) => Ended {
            status: due.status,
            journal,
            warnings,
        },
        Err(Miss::Failed) => Ended {
            status: 5,
            journal,
            warnings: None,
        },
        Err(Miss::Memory) => end_with(alloc, 6),
    }
}

/// Carries out the words after the program's name. `check` reads the objects of an input and prints how many are
/// admitted; `decide` reads a PipelineRun with the outcomes of its tasks and prints the run's condition, each task's
/// label and, where the run is finished, its results; `simulate` plays all runs of an input by its Scenario and prints
/// their report, as text or with `--json` as JSON.
///
/// The status of `check` is 0; that of `decide` is 0 where the condition is true, 1 where it is false, and 7 where the
/// run isn't finished; that of `simulate` is 0 where every run closed True, 1 where one closed False and none is pending,
/// and 7 where one is pending. It is 2 where the words are no command, 3 where the input is at fault, whose line is printed, 4
/// where it can't be read, 5 where the text can't be written, and 6 where there is no memory.
pub fn plain<R: Source, W: Sink>(
    alloc: Global,
    words: &[Text],
    input: &mut R,
    sink: &mut W,
) -> Ended
    ensures { Talks R.left R.ended R.faults W.written W.faults (command_of_words words.now) input.old input.new sink.old sink.new result.status result.journal.history }
{
    if command_of(words).is_none() {
        return end_with(alloc, 2);
    }
    match read_command(alloc, words) {
        Ok(Some(command)) => carry_out(alloc, command, input, sink),
        Ok(None) => end_with(alloc, 2),
        Err(_) => end_with(alloc, 6),
    }
}
