//! The program `tkn`: `main` gives the words, standard input, standard output and a bench over the machine's clocks, folders and
//! programs to `tkn` of `tk_commands`, whose clauses say what it does with them, and says on standard error what is wrong where
//! a status tells no more. Before `run` it takes the folder below which the runs' files stand, or ends with 73, with nothing
//! read and nothing started; behind it it tells of each TaskRun that failed and removes what nobody needs.
//!
//! `hosts.rt` has the bench, `remembering.rt` keeps what was read and the line that was printed, of which `saying.rt` says more
//! on standard error. The stored run is `examples/runs.json` by real programs.
#![tactic(auto)]

ghost use Rattle.std.specs.Prelude.{◌≡◌, ◌<◌, ◌⊎◌, [], IfOk};

mod hosts;
mod remembering;
mod saying;

use hosts::{Entrypoints, bench, is_set_to, process_host, real_host, wanted_entrypoints, watched};
use remembering::{Heard, Remembering};
use saying::{Said, advice_of, complaint_of, remarks_of, say};
use std::alloc::{AllocError, Global};
use std::process::ExitCode;
use std::sync::Wait;
use std::thread::Threads;
use std::{env, io};
use tk_advice::{complaint, help, message, of_all, unread_words};
use tk_commands::{Ended, RunOptions, run_words, tkn};
use tk_edge::Host;
use tk_failures::{failures, is_admitted, spent_pods};
use tk_journal::Journal;
use tk_system::{ReadSource, Root, RootError, Tally, WriteSink, claim};
use tk_types::{List, Text, TryCopy};

/// The folder below which runs stand where no word says it. What stands in a folder that a word names stays there.
const DEFAULT_ROOT: &str = "/tmp/tkn";

/// The words after the program's name.
fn words(rt: &HostRuntime, alloc: Global) -> io::Result<List<Text>> {
    let mut words = List::new(alloc);
    for word in env::args(rt)?.skip(1) {
        words.push(Text::from_string(word))?;
    }
    Ok(words)
}

/// How a program ends whose words can't be had.
fn without_words(alloc: Global, error: io::Error) -> (u8, Said)
    ensures { (result.0 ≡ 2) ⊎ (result.0 ≡ 6) }
{
    match unread_words(matches!(error.kind(), io::ErrorKind::OutOfMemory)) {
        (status, Some(rule)) => (status, complaint_of(alloc, of_all(rule))),
        (status, None) => (status, Said::Nothing),
    }
}

/// Where the runs of a call stand, and what its words say.
#[derive(Drop)]
struct Place {
    root: Root,
    options: RunOptions,
}

/// Why there is no place: for want of memory, or since the root can't be had.
enum NoPlace {
    Memory,
    Root(Text, RootError),
}

impl From<AllocError> for NoPlace {
    fn from(_error: AllocError) -> Self {
        NoPlace::Memory
    }
}

/// Takes the root, where the words are those of `run`.
fn place_of(rt: &HostRuntime, alloc: Global, words: &[Text]) -> Result<Option<Place>, NoPlace> {
    let is_run = match words.first() {
        Some(word) => word.as_str() == "run",
        None => false,
    };
    if !is_run {
        return Ok(None);
    }
    let Some(options) = run_words(alloc, words)? else {
        return Ok(None);
    };
    match claim(rt, alloc, options.root.as_str()) {
        Ok(root) => Ok(Some(Place { root, options })),
        Err(RootError::Memory) => Err(NoPlace::Memory),
        Err(error) => {
            let folder = options.root.copy(alloc)?;
            Err(NoPlace::Root(folder, error))
        }
    }
}

/// Tells of each TaskRun that failed, and of each ask of what isn't there.
fn tell_of_runs(
    rt: &HostRuntime,
    alloc: Global,
    place: &Place,
    journal: &Journal,
) -> Result<(), AllocError> {
    let mut host = real_host(rt, alloc, None, 0)?;
    let lines = failures(alloc, journal, &mut host)?;
    for line in lines.as_slice() {
        let line = line.as_str();
        let _ = eprintln!(rt; "tkn: {line}");
    }
    for ask in place.options.asks.as_slice() {
        let run = ask.run.as_str();
        if !is_admitted(journal, run) {
            let _ = eprintln!(rt; "tkn: nothing of the name {run:?} was there to be asked");
        }
    }
    Ok(())
}

/// Removes the folders of pods that nobody needs, below the root that no word gave.
fn remove_spent(
    rt: &HostRuntime,
    alloc: Global,
    place: &Place,
    journal: &Journal,
) -> Result<(), AllocError> {
    if place.options.root.as_str() != DEFAULT_ROOT || is_set_to(rt, "TKN_KEEP", "1") {
        return Ok(());
    }
    for pod in spent_pods(alloc, journal)?.as_slice() {
        place.root.remove_pod(rt, alloc, pod.as_str());
    }
    Ok(())
}

/// What is done behind a run's report, as far as there is memory.
fn behind(rt: &HostRuntime, alloc: Global, place: &Place, journal: &Journal) {
    if journal.len() > 0 {
        let _ = tell_of_runs(rt, alloc, place, journal);
        let _ = remove_spent(rt, alloc, place, journal);
    }
    place.root.remove_old(rt, alloc);
}

/// Carries out the words with nodes over these hosts, and gives the status, and what else to say.
fn run_on<T: Threads + Wait + Sync, H: Host + Drop + Send>(
    rt: &HostRuntime,
    threads: &T,
    words: &[Text],
    place: Option<&Place>,
    first: H,
    second: H,
) -> (u8, Said)
    requires first { H.told first ≡ [] }
    requires second { H.told second ≡ [] }
    ensures { result.0 < 8 }
{
    let alloc = rt.alloc();
    let Ok(mut bench) = bench(rt, alloc, first, second) else {
        return (6, Said::Nothing);
    };
    let mut input = Heard::new(alloc, ReadSource::new(rt.reader()));
    let mut sink = Remembering::new(alloc, WriteSink::new(io::writer(rt)));
    let Ended {
        status,
        journal,
        warnings,
    } = tkn(threads, alloc, words, &mut input, &mut sink, &mut bench);
    if let Some(place) = place {
        behind(rt, alloc, place, &journal);
    }
    match status {
        2 => (2, complaint_of(alloc, complaint(words))),
        3 => (3, advice_of(alloc, sink.front(), input.bytes())),
        status => match warnings {
            Some(warnings) => (status, Said::Warnings(warnings)),
            None => (
                status,
                remarks_of(alloc, words, sink.front(), input.bytes()),
            ),
        },
    }
}

/// Carries out the words by two hosts, where there was memory for them.
fn run_by<T: Threads + Wait + Sync, H: Host + Drop + Send>(
    rt: &HostRuntime,
    threads: &T,
    words: &[Text],
    place: Option<&Place>,
    first: Result<H, AllocError>,
    second: Result<H, AllocError>,
) -> (u8, Said)
    requires first { IfOk first (λ host. H.told host ≡ []) }
    requires second { IfOk second (λ host. H.told host ≡ []) }
    ensures { result.0 < 8 }
{
    let tally = Tally::new();
    match (first, second) {
        (Ok(first), Ok(second)) => run_on(
            rt,
            threads,
            words,
            place,
            watched(rt, rt.alloc(), &tally, first),
            watched(rt, rt.alloc(), &tally, second),
        ),
        _ => (6, Said::Nothing),
    }
}

/// Carries out the words of `run` by hosts over the machine, as `TKN_ENTRYPOINT` says.
fn run_here<T: Threads + Wait + Sync>(
    rt: &HostRuntime,
    threads: &T,
    words: &[Text],
    place: &Place,
) -> (u8, Said)
    ensures { result.0 < 8 }
{
    let alloc = rt.alloc();
    let root = Some(&place.root);
    match wanted_entrypoints(rt) {
        Entrypoints::Own => run_by(
            rt,
            threads,
            words,
            Some(place),
            real_host(rt, alloc, root, 0),
            real_host(rt, alloc, root, 1),
        ),
        Entrypoints::Program(program) => run_by(
            rt,
            threads,
            words,
            Some(place),
            process_host(rt, alloc, root, 0, program.as_str()),
            process_host(rt, alloc, root, 1, program.as_str()),
        ),
        Entrypoints::Faulty => (
            2,
            complaint_of(alloc, of_all("TKN_ENTRYPOINT isn't a whole path")),
        ),
        Entrypoints::NoMemory => (6, Said::Nothing),
    }
}

/// Carries out the words, and gives the status, and what else to say.
fn run<T: Threads + Wait + Sync>(rt: &HostRuntime, threads: &T) -> (u8, Said)
    ensures { (result.0 < 8) ⊎ (result.0 ≡ 73) }
{
    let alloc = rt.alloc();
    let words = match words(rt, alloc) {
        Ok(words) => words,
        Err(error) => return without_words(alloc, error),
    };
    if let Some(text) = help(words.as_slice()) {
        return match println!(rt; "{text}") {
            Ok(()) => (0, Said::Nothing),
            Err(_) => (5, Said::Nothing),
        };
    }
    match place_of(rt, alloc, words.as_slice()) {
        Ok(Some(place)) => run_here(rt, threads, words.as_slice(), &place),
        Ok(None) => run_by(
            rt,
            threads,
            words.as_slice(),
            None,
            real_host(rt, alloc, None, 0),
            real_host(rt, alloc, None, 1),
        ),
        Err(NoPlace::Memory) => (6, Said::Nothing),
        Err(NoPlace::Root(folder, error)) => (73, Said::Root(folder, error)),
    }
}

fn main(rt: HostRuntime) -> ExitCode {
    let (status, said) = run(&rt, &rt);
    if let Some(message) = message(status) {
        let _ = eprintln!(rt; "tkn: {message}");
    }
    say(&rt, &said);
    ExitCode::from(status)
}
