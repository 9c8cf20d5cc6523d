ghost use Rattle.std.specs.Prelude.{◌≡◌, IfOk, unwrap_or};
ghost use Rattle.tk_commands.specs.RunWords.{ask_of, asked_of, asks_in, default_root, run_in, run_options};

use std::alloc::{AllocError, Global};
use tk_names::is_object_name;
use tk_run::AskWord;
use tk_time::read_duration;
use tk_types::{Asked, List, Text};
use tk_words::{Line, read};

/// The folder below which a run's files stand where no word says it.
const DEFAULT_ROOT: &str = "/tmp/tkn";

/// The options of `run`: whether the report is JSON, the folder below which the runs' files stand, and what is asked of runs.
#[derive(Drop)]
pub struct RunOptions {
    pub json: bool,
    pub root: Text,
    pub asks: List<AskWord>,
}

/// The status of this name.
fn status_named(word: &str) -> Option<Asked>
    ensures { result ≡ asked_of word.now }
{
    match word {
        "Start" => Some(Asked::Start),
        "StoppedRunFinally" => Some(Asked::StoppedRunFinally),
        "CancelledRunFinally" => Some(Asked::CancelledRunFinally),
        "Cancelled" => Some(Asked::Cancelled),
        "TaskRunCancelled" => Some(Asked::TaskRunCancelled),
        _ => None,
    }
}

/// What a word `RUN=STATUS@DURATION` asks, where RUN may name an object. The only error is want of memory.
fn read_ask(alloc: Global, word: &str) -> Result<Option<AskWord>, AllocError>
    ensures { IfOk result (λ ask. ask ≡ ask_of word.now) }
{
    let (run, rest) = match word.split_once('=') {
        Some(halves) => halves,
        None => return Ok(None),
    };
    let (status, duration) = match rest.split_once('@') {
        Some(halves) => halves,
        None => return Ok(None),
    };
    if !is_object_name(run) {
        return Ok(None);
    }
    match (status_named(status), read_duration(duration)) {
        (Some(status), Some(delay)) => Ok(Some(AskWord {
            run: Text::from_str(alloc, run)?,
            status,
            delay,
        })),
        _ => Ok(None),
    }
}

/// The root that was given, or else the default one. The only error is want of memory.
fn root_or_default(alloc: Global, root: Option<Text>) -> Result<Text, AllocError>
    ensures { IfOk result (λ folder. folder ≡ unwrap_or root default_root) }
{
    match root {
        Some(root) => Ok(root),
        None => Text::from_str(alloc, DEFAULT_ROOT),
    }
}

/// What all the words ask, where each is an ask. The only error is want of memory.
fn read_asks(alloc: Global, words: &[Text]) -> Result<Option<List<AskWord>>, AllocError>
    ensures { IfOk result (λ asks. asks ≡ asks_in words.now) }
{
    let mut asks = List::new(alloc);
    for place in 0..words.len() {
        match read_ask(alloc, words[place].as_str())? {
            Some(ask) => asks.push(ask)?,
            None => return Ok(None),
        }
    }
    Ok(Some(asks))
}

/// The options that a line of `run` has. The only error is want of memory.
fn options_in(alloc: Global, line: Line) -> Result<Option<RunOptions>, AllocError>
    ensures { IfOk result (λ options. options ≡ run_in line) }
{
    let Line {
        json,
        root,
        others,
        ..
    } = line;
    match read_asks(alloc, others.as_slice())? {
        Some(asks) => Ok(Some(RunOptions {
            json,
            root: root_or_default(alloc, root)?,
            asks,
        })),
        None => Ok(None),
    }
}

/// What the words say, where they are `run` with options and asks of it: `--json`, and `--root DIR` or `--root=DIR` with an absolute
/// path, in any order and each at most once, and any number of `RUN=STATUS@DURATION`. Behind `--` each word is an ask. The only
/// error is want of memory.
pub fn run_words(alloc: Global, words: &[Text]) -> Result<Option<RunOptions>, AllocError>
    ensures { IfOk result (λ found. found ≡ run_options words.now) }
{
    match read(alloc, words)? {
        Some(line) => options_in(alloc, line),
        None => Ok(None),
    }
}
