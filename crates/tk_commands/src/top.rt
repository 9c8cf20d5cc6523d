ghost use Rattle.std.specs.Prelude.{◌≡◌, ◌==◌, ◌<◌, ◌⊎◌, ◌↔◌, if◌then◌else◌, true, false, [], None, Option, Some, IfErr, IfOk, OnOk};
ghost use Rattle.std.specs.Option.{ForSome};
ghost use Rattle.std.specs.Io.KnownBytes.{Appends};
ghost use Rattle.tk_edge.specs.Causes.{raised};
ghost use Rattle.tk_journal.specs.Legal.{IsLegal};
ghost use Rattle.tk_report.specs.Objects.{HasMoments};
ghost use Rattle.tk_run.specs.Begun.{IsNewBench};
ghost use Rattle.tk_commands.specs.Command.{command_of as command_of_words};
ghost use Rattle.tk_commands.specs.Generate.{IsGenerated};
ghost use Rattle.tk_commands.specs.GenerateWords.{generate_of};
ghost use Rattle.tk_commands.specs.declared.generate_words.Generation.{Generation as Wanted};
ghost use Rattle.tk_commands.specs.Plain.{is_answer, Talks};
ghost use Rattle.tk_commands.specs.Run.{CountsRun, IsCutShort, IsDueOf, IsRunAnswer, IsRunDue, IsUsage, LeftBy, PrintsFrontOf, PrintsOne, RunsSoFar, RunsSoFarOf};
ghost use Rattle.tk_commands.specs.RunWords.{run_of, run_options};
ghost use Rattle.tk_commands.specs.declared.run_line.RunOptions.{RunOptions as Options};
ghost use Rattle.tk_commands.specs.Written.{AppendsFront};

use crate::answer::{Answer, refused, too_long_answer};
use crate::carrying::{Ended, end_with, plain};
use crate::due::{Due, reported};
use crate::generate::generate_command;
use crate::input::{Unread, read_all};
use crate::printing::print;
use crate::run_line::{RunOptions, run_words};
use std::alloc::{AllocError, Global};
use std::sync::Wait;
use std::thread::Threads;
use tk_edge::{Clock, Gate, Host, Sink, Source};
use tk_journal::Journal;
use tk_rounds::Bench;
use tk_run::{Ran, run};
use tk_types::Text;

/// What is due for a run that came to this.
fn due_of(alloc: Global, json: bool, ran: &Ran) -> Result<Due, AllocError>
    requires legal { OnOk ran.now.end (IsLegal ran.now.journal.history) }
    requires moments { OnOk ran.now.end (HasMoments ran.now.journal.history) }
    ensures { IfOk result (IsDueOf json ran.now.journal.history ran.now.end) }
{
    match &ran.end {
        Ok(()) => reported(alloc, json, &ran.journal),
        Err(error) => refused(alloc, error),
    }
}

/// What is answered for the bytes of an input that is run on a bench; or else, where there is no memory, the journal so far.
fn run_answer<
    T: Threads + Wait + Sync,
    K: Clock + Drop + Send,
    H: Host + Drop + Send,
    G: Gate + Drop + Send,
>(
    rt: &T,
    alloc: Global,
    options: &RunOptions,
    bytes: &[u8],
    bench: &mut Bench<K, H, G>,
) -> Result<Answer, Journal>
    requires bench { IsNewBench H.told bench.old }
    ensures ok { IfOk result (IsRunAnswer G.answers K.readings K.last H.told H.killed H.faults options.now bytes.now bench.old bench.new) }
    ensures err { IfErr result (λ journal. RunsSoFar G.answers K.readings K.last H.told H.killed H.faults options.now bytes.now bench.old bench.new journal.history) }
    ensures answer { IfOk result (λ answer. is_answer answer.due.status ≡ true) }
{
    let ran = run(
        rt,
        alloc,
        bytes,
        options.root.as_str(),
        options.asks.as_slice(),
        bench,
    );
    let due = due_of(alloc, options.json, &ran);
    let Ran { journal, .. } = ran;
    match due {
        Ok(due) => Ok(Answer {
            due,
            journal,
            warnings: None,
        }),
        Err(_) => Err(journal),
    }
}

/// Why an input isn't answered: it can't be read, or there is no memory, with the journal so far.
#[derive(Drop)]
enum Unrun {
    Failed,
    Memory(Journal),
}

/// Reads an input to its end, and runs it on a bench.
fn read_and_run<
    T: Threads + Wait + Sync,
    R: Source,
    K: Clock + Drop + Send,
    H: Host + Drop + Send,
    G: Gate + Drop + Send,
>(
    rt: &T,
    alloc: Global,
    options: &RunOptions,
    input: &mut R,
    bench: &mut Bench<K, H, G>,
) -> Result<Answer, Unrun>
    requires bench { IsNewBench H.told bench.old }
    ensures due { IfOk result (IsRunDue G.answers K.readings K.last H.told H.killed H.faults options.now (R.left input.old) (R.ended input.new) bench.old bench.new) }
    ensures answer { IfOk result (λ answer. is_answer answer.due.status ≡ true) }
    ensures err { IfErr result (LeftBy G.answers K.readings K.last H.told H.killed H.faults options.now (R.left input.old) (R.ended input.new) bench.old bench.new) }
    ensures faults { CountsRun (R.faults input.old) (R.faults input.new) result }
{
    match read_all(alloc, input) {
        Ok(bytes) => match run_answer(rt, alloc, options, bytes.as_slice(), bench) {
            Ok(answer) => Ok(answer),
            Err(journal) => Err(Unrun::Memory(journal)),
        },
        Err(Unread::TooLong) => match too_long_answer(alloc) {
            Ok(answer) => Ok(answer),
            Err(_) => Err(Unrun::Memory(Journal::empty(alloc))),
        },
        Err(Unread::Failed) => Err(Unrun::Failed),
        Err(Unread::Memory) => Err(Unrun::Memory(Journal::empty(alloc))),
    }
}

/// Runs an input on a bench, and writes what is due.
fn run_input<
    T: Threads + Wait + Sync,
    R: Source,
    W: Sink,
    K: Clock + Drop + Send,
    H: Host + Drop + Send,
    G: Gate + Drop + Send,
>(
    rt: &T,
    alloc: Global,
    options: &RunOptions,
    input: &mut R,
    sink: &mut W,
    bench: &mut Bench<K, H, G>,
) -> Ended
    requires bench { IsNewBench H.told bench.old }
    ensures known { result.status < 8 }
    ensures done { result.status ≡ 2 → ⊥ }
    ensures answer { is_answer result.status ≡ true → PrintsOne (IsRunDue G.answers K.readings K.last H.told H.killed H.faults options.now (R.left input.old) (R.ended input.new) bench.old bench.new) (W.written sink.old) (W.written sink.new) result.status result.journal.history }
    ensures input_faults { R.faults input.new ≡ (if result.status == 4 then raised (R.faults input.old) else R.faults input.old) }
    ensures input_failed { result.status ≡ 4 → (sink.new ≡ sink.old) × (bench.new ≡ bench.old) × (result.journal.history ≡ []) }
    ensures sink_faults { W.faults sink.new ≡ (if result.status == 5 then raised (W.faults sink.old) else W.faults sink.old) }
    ensures sink_failed_front { result.status ≡ 5 → PrintsFrontOf (IsRunDue G.answers K.readings K.last H.told H.killed H.faults options.now (R.left input.old) (R.ended input.new) bench.old bench.new) (W.written sink.old) (W.written sink.new) result.journal.history }
    ensures memory { result.status ≡ 6 → IsCutShort (sink.new ≡ sink.old) (RunsSoFarOf G.answers K.readings K.last H.told H.killed H.faults options.now (R.left input.old) (R.ended input.new) bench.old bench.new result.journal.history) (PrintsFrontOf (IsRunDue G.answers K.readings K.last H.told H.killed H.faults options.now (R.left input.old) (R.ended input.new) bench.old bench.new) (W.written sink.old) (W.written sink.new) result.journal.history) }
{
    match read_and_run(rt, alloc, options, input, bench) {
        Ok(Answer { due, journal, .. }) => print(sink, due, journal),
        Err(Unrun::Failed) => end_with(alloc, 4),
        Err(Unrun::Memory(journal)) => Ended {
            status: 6,
            journal,
            warnings: None,
        },
    }
}

/// Runs an input by the words behind `run`.
fn run_command<
    T: Threads + Wait + Sync,
    R: Source,
    W: Sink,
    K: Clock + Drop + Send,
    H: Host + Drop + Send,
    G: Gate + Drop + Send,
>(
    rt: &T,
    alloc: Global,
    words: &[Text],
    input: &mut R,
    sink: &mut W,
    bench: &mut Bench<K, H, G>,
) -> Ended
    requires bench { IsNewBench H.told bench.old }
    ensures known { result.status < 8 }
    ensures usage { run_options words.now ≡ None → ((result.status ≡ 2) ⊎ (result.status ≡ 6)) × (input.new ≡ input.old) × (sink.new ≡ sink.old) × (bench.new ≡ bench.old) × (result.journal.history ≡ []) }
    ensures usage_alone { result.status ≡ 2 → run_options words.now ≡ None }
    ensures answer { (options : Options) → run_options words.now ≡ Some options → is_answer result.status ≡ true → PrintsOne (IsRunDue G.answers K.readings K.last H.told H.killed H.faults options (R.left input.old) (R.ended input.new) bench.old bench.new) (W.written sink.old) (W.written sink.new) result.status result.journal.history }
    ensures input_faults { R.faults input.new ≡ (if result.status == 4 then raised (R.faults input.old) else R.faults input.old) }
    ensures input_failed { result.status ≡ 4 → (sink.new ≡ sink.old) × (bench.new ≡ bench.old) × (result.journal.history ≡ []) }
    ensures sink_faults { W.faults sink.new ≡ (if result.status == 5 then raised (W.faults sink.old) else W.faults sink.old) }
    ensures sink_failed_front { (options : Options) → run_options words.now ≡ Some options → result.status ≡ 5 → PrintsFrontOf (IsRunDue G.answers K.readings K.last H.told H.killed H.faults options (R.left input.old) (R.ended input.new) bench.old bench.new) (W.written sink.old) (W.written sink.new) result.journal.history }
    ensures memory { (options : Options) → run_options words.now ≡ Some options → result.status ≡ 6 → IsCutShort (sink.new ≡ sink.old) (RunsSoFarOf G.answers K.readings K.last H.told H.killed H.faults options (R.left input.old) (R.ended input.new) bench.old bench.new result.journal.history) (PrintsFrontOf (IsRunDue G.answers K.readings K.last H.told H.killed H.faults options (R.left input.old) (R.ended input.new) bench.old bench.new) (W.written sink.old) (W.written sink.new) result.journal.history) }
{
    match run_words(alloc, words) {
        Ok(Some(options)) => run_input(rt, alloc, &options, input, sink, bench),
        Ok(None) => end_with(alloc, 2),
        Err(_) => end_with(alloc, 6),
    }
}

/// Carries out the words after the program's name: `run` runs the steps of an input on a bench and prints the report of its
/// runs, as text or with `--json` as JSON, with the folders of its pods and workspaces below `--root`, and asks what its other
/// words say at their times; `generate` prints the manifest of a number and a size, or with `--run` simulates it and prints what
/// its journal comes to; every other command is `plain`'s. Those leave the bench as it is. The statuses of `run` are those of
/// `simulate`; where memory runs out, all that still runs is killed, and the journal so far is answered.
pub fn tkn<
    T: Threads + Wait + Sync,
    R: Source,
    W: Sink,
    K: Clock + Drop + Send,
    H: Host + Drop + Send,
    G: Gate + Drop + Send,
>(
    rt: &T,
    alloc: Global,
    words: &[Text],
    input: &mut R,
    sink: &mut W,
    bench: &mut Bench<K, H, G>,
) -> Ended
    requires bench { IsNewBench H.told bench.old }
    // the statuses are 0 to 7
    ensures known { result.status < 8 }
    // words that are neither those of `run` or `generate` nor another command: usage or want of memory, and nothing is read, written or run
    ensures usage { IsUsage (run_of words.now) (generate_of words.now) (command_of_words words.now) → ((result.status ≡ 2) ⊎ (result.status ≡ 6)) × (input.new ≡ input.old) × (sink.new ≡ sink.old) × (bench.new ≡ bench.old) × (result.journal.history ≡ []) }
    // usage comes of nothing else
    ensures usage_alone { result.status ≡ 2 → IsUsage (run_of words.now) (generate_of words.now) (command_of_words words.now) }
    // a read fault comes only of the source: then nothing was written or run
    ensures input_faults { R.faults input.new ≡ (if result.status == 4 then raised (R.faults input.old) else R.faults input.old) }
    ensures input_failed { result.status ≡ 4 → (sink.new ≡ sink.old) × (bench.new ≡ bench.old) × (result.journal.history ≡ []) }
    // a write fault comes only of the sink
    ensures sink_faults { W.faults sink.new ≡ (if result.status == 5 then raised (W.faults sink.old) else W.faults sink.old) }
    // `run`: for 0, 1, 3 and 7 just what is due is printed, the status is the one that is due, and the journal is as `IsRun` says
    ensures run_answer { (options : Options) → run_of words.now ≡ Some (Some options) → is_answer result.status ≡ true → PrintsOne (IsRunDue G.answers K.readings K.last H.told H.killed H.faults options (R.left input.old) (R.ended input.new) bench.old bench.new) (W.written sink.old) (W.written sink.new) result.status result.journal.history }
    // for 5 a front of it
    ensures run_sink_failed { (options : Options) → run_of words.now ≡ Some (Some options) → result.status ≡ 5 → PrintsFrontOf (IsRunDue G.answers K.readings K.last H.told H.killed H.faults options (R.left input.old) (R.ended input.new) bench.old bench.new) (W.written sink.old) (W.written sink.new) result.journal.history }
    // for 6 too, or nothing was written, and the runs came so far and all that still ran was killed
    ensures run_memory { (options : Options) → run_of words.now ≡ Some (Some options) → result.status ≡ 6 → IsCutShort (sink.new ≡ sink.old) (RunsSoFarOf G.answers K.readings K.last H.told H.killed H.faults options (R.left input.old) (R.ended input.new) bench.old bench.new result.journal.history) (PrintsFrontOf (IsRunDue G.answers K.readings K.last H.told H.killed H.faults options (R.left input.old) (R.ended input.new) bench.old bench.new) (W.written sink.old) (W.written sink.new) result.journal.history) }
    // `generate` reads nothing, and only its words make it usage
    ensures generate_words { (found : Option Wanted) → generate_of words.now ≡ Some found → (result.status ≡ 2 → found ≡ None) × (input.new ≡ input.old) }
    // for 0 and 3 just what is due is printed, and the journal is the one that was counted
    ensures generate_answer { (wanted : Wanted) → generate_of words.now ≡ Some (Some wanted) → is_answer result.status ≡ true → PrintsOne (IsGenerated wanted) (W.written sink.old) (W.written sink.new) result.status result.journal.history }
    // for 5 a front of it, and for 6 too, or nothing
    ensures generate_sink_failed { (wanted : Wanted) → generate_of words.now ≡ Some (Some wanted) → result.status ≡ 5 → PrintsFrontOf (IsGenerated wanted) (W.written sink.old) (W.written sink.new) result.journal.history }
    ensures generate_memory { (wanted : Wanted) → generate_of words.now ≡ Some (Some wanted) → result.status ≡ 6 → ((sink.new ≡ sink.old) × (result.journal.history ≡ [])) ⊎ PrintsFrontOf (IsGenerated wanted) (W.written sink.old) (W.written sink.new) result.journal.history }
    // every other command is `plain`'s, and leaves the bench as it is
    ensures bench_alone { run_of words.now ≡ None → bench.new ≡ bench.old }
    ensures plain { run_of words.now ≡ None → generate_of words.now ≡ None → Talks R.left R.ended R.faults W.written W.faults (command_of_words words.now) input.old input.new sink.old sink.new result.status result.journal.history }
{
    match words {
        [word, ..] if word.as_str() == "run" => {
            run_command(rt, alloc, words, input, sink, bench)
        }
        [word, ..] if word.as_str() == "generate" => generate_command(alloc, words, sink),
        _ => plain(alloc, words, input, sink),
    }
}
