use std::fmt;
use std::fmt::{Display, Formatter};
use tk_names::is_object_name;
use tk_types::Text;

/// How the commands are called.
pub const USAGE: &str =
    "usage: tkn check < INPUT.json, tkn decide < INPUT.json, tkn simulate [--json] < INPUT.json, tkn run [--json] [--root DIR] [RUN=STATUS@DURATION].. < INPUT.json, or tkn generate [--run] NUMBER SIZE";

/// What `--help` says.
const HELP: &str =
    "tkn runs Tekton's PipelineRuns and TaskRuns (tekton.dev/v1) on this machine, their steps as its programs.

  tkn check < INPUT.json             whether the manifests are right
  tkn decide < INPUT.json            the status of one run, by the outcomes of its tasks
  tkn simulate [--json] < INPUT.json the status in which each run would stand, by a scenario
  tkn run [--json] [--root DIR] [RUN=STATUS@DURATION].. < INPUT.json
                                     runs them, and prints the status in which each stands
  tkn generate [--run] NUMBER SIZE   a manifest from a number, or what a run of it came to

Statuses: 0 what is wanted, 1 a run ended False, 2 the words are wrong, 3 the input is refused, 4 it can't be read,
5 the answer can't be written, 6 there is not enough memory, 7 a run is open, 73 the root of `run` can't be had.";

/// What `--version` says.
const VERSION: &str = "tkn of Wafnjold, for tekton.dev/v1";

/// What is printed for words that ask for help or for the version, alone.
pub fn help(words: &[Text]) -> Option<&'static str> {
    match words {
        [word] => match word.as_str() {
            "--help" | "-h" | "help" => Some(HELP),
            "--version" => Some(VERSION),
            _ => None,
        },
        _ => None,
    }
}

/// What is wrong with words that are no command: the rule, and the word that breaks it, where it is one.
#[derive(Clone, Copy)]
pub struct BadWords<'a> {
    rule: &'static str,
    word: Option<&'a str>,
}

impl<'a> Display for BadWords<'a> {
    fn fmt<W: fmt::Write>(&self, f: &mut Formatter<W>) -> fmt::Result {
        f.write_str(self.rule)?;
        match self.word {
            Some(word) => write!(f, ": {word:?}"),
            None => Ok(()),
        }
    }
}

/// A complaint of no word.
pub fn of_all(rule: &'static str) -> BadWords<'static> {
    BadWords { rule, word: None }
}

/// A complaint of a word.
fn of_word<'a>(rule: &'static str, word: &'a str) -> BadWords<'a> {
    BadWords {
        rule,
        word: Some(word),
    }
}

/// Whether a word names a command.
fn is_command(word: &str) -> bool {
    matches!(word, "check" | "decide" | "simulate" | "run" | "generate")
}

/// Whether a word is an option of a command. One that gives its value behind `=` is it too.
fn is_option(command: &str, word: &str) -> bool {
    match command {
        "simulate" => word == "--json",
        "run" => word == "--json" || word == "--root" || word.starts_with("--root="),
        "generate" => word == "--run",
        _ => false,
    }
}

/// Whether two words are one option.
fn are_same_option(word: &str, other: &str) -> bool {
    word == other || (word.starts_with("--root") && other.starts_with("--root"))
}

/// Whether a word stands again behind a place.
fn stands_again(words: &[Text], word: &str) -> bool {
    words
        .iter()
        .any(|other| are_same_option(other.as_str(), word))
}

/// The folder that a word of `run` gives, where it or the next one gives it.
fn root_in<'a>(word: &'a str, rest: &'a [Text]) -> Option<&'a str> {
    if word == "--root" {
        return Some(match rest.first() {
            Some(next) => next.as_str(),
            None => "",
        });
    }
    word.strip_prefix("--root=")
}

/// What is wrong with an option at the front of what is left of the words of a command, if anything.
fn option_at_fault<'a>(command: &str, word: &'a str, rest: &'a [Text]) -> Option<BadWords<'a>> {
    if !is_option(command, word) {
        return Some(of_word("the command has no such option", word));
    }
    if stands_again(rest, word) {
        return Some(of_word("an option stands once", word));
    }
    match root_in(word, rest) {
        Some(folder) if !folder.starts_with('/') => {
            Some(of_word(
                "the folder behind --root is given whole, from `/` on",
                folder,
            ))
        }
        _ => None,
    }
}

/// Whether a word is a status that can be asked for.
fn is_status(word: &str) -> bool {
    matches!(
        word,
        "Start" | "StoppedRunFinally" | "CancelledRunFinally" | "Cancelled" | "TaskRunCancelled"
    )
}

/// What is wrong with an ask of a status, where its form tells.
fn status_at_fault<'a>(word: &'a str, run: &str) -> BadWords<'a> {
    if is_object_name(run) {
        of_word(
            "behind `@` of an ask stands a duration such as 90s or 1m30s",
            word,
        )
    } else {
        of_word(
            "before `=` of an ask stands the name of a run: small letters, digits, `-` and `.`",
            word,
        )
    }
}

/// What is wrong with an ask, where its form tells.
fn ask_at_fault(word: &str) -> BadWords<'_> {
    match word.split_once('=') {
        Some((run, rest)) if !run.is_empty() => match rest.split_once('@') {
            Some((status, _)) if is_status(status) => status_at_fault(word, run),
            _ => of_word(
                "an ask has one of Start, StoppedRunFinally, CancelledRunFinally, Cancelled and TaskRunCancelled, then `@` and when",
                word,
            ),
        },
        _ => of_word(
            "`run` takes options and asks of the form RUN=STATUS@DURATION",
            word,
        ),
    }
}

/// Where the reading of a duration stands: at its beginning, behind a digit, behind an `m`, which may be the front of `ms`, or
/// behind another unit.
#[derive(Clone, Copy, PartialEq, Eq)]
enum Behind {
    Nothing,
    Digit,
    Minute,
    Unit,
}

/// Where it stands behind a further byte, and None where no duration goes on so.
fn read_on(before: Behind, byte: u8) -> Option<Behind> {
    match (before, byte) {
        (_, b'0'..=b'9') => Some(Behind::Digit),
        (Behind::Digit, b'm') => Some(Behind::Minute),
        (Behind::Digit, b'h' | b's') | (Behind::Minute, b's') => Some(Behind::Unit),
        _ => None,
    }
}

/// Whether a text has the form of a duration: `0`, or numbers with units.
fn is_duration(text: &str) -> bool {
    let mut at = Behind::Nothing;
    for byte in text.bytes() {
        match read_on(at, byte) {
            Some(next) => at = next,
            None => return false,
        }
    }
    text == "0" || at == Behind::Minute || at == Behind::Unit
}

/// Whether a word has the form of an ask.
fn is_ask(word: &str) -> bool {
    match word.split_once('=') {
        Some((run, rest)) => match rest.split_once('@') {
            Some((status, duration)) => {
                is_object_name(run) && is_status(status) && is_duration(duration)
            }
            None => false,
        },
        None => false,
    }
}

/// What is wrong with a word of `run` that is no value of another, if anything.
fn word_at_fault<'a>(word: &'a str, rest: &'a [Text]) -> Option<BadWords<'a>> {
    if word == "--" || is_ask(word) {
        None
    } else if word.starts_with('-') {
        option_at_fault("run", word, rest)
    } else {
        Some(ask_at_fault(word))
    }
}

/// Whether the word at a place is the folder behind `--root`.
fn is_folder(words: &[Text], place: usize) -> bool {
    match place.checked_sub(1) {
        Some(before) => match words.get(before) {
            Some(word) => word.as_str() == "--root",
            None => false,
        },
        None => false,
    }
}

/// What is wrong with the words of `run`. Where each has its form, it is a duration of an ask.
fn run_at_fault(words: &[Text]) -> BadWords<'_> {
    for place in 0..words.len() {
        if !is_folder(words, place) {
            if let Some(fault) = word_at_fault(words[place].as_str(), &words[place + 1..]) {
                return fault;
            }
        }
    }
    match words.last() {
        Some(word) => ask_at_fault(word.as_str()),
        None => of_all("`run` takes options and asks of the form RUN=STATUS@DURATION"),
    }
}

/// What is wrong with the words of a command that asks for nothing.
fn others_at_fault<'a>(command: &'a str, words: &'a [Text]) -> BadWords<'a> {
    for place in 0..words.len() {
        let word = words[place].as_str();
        if word.starts_with('-') {
            if let Some(complaint) = option_at_fault(command, word, &words[place + 1..]) {
                return complaint;
            }
        } else if command != "generate" {
            return of_word(
                "a command reads standard input; give a file by `< FILE`",
                word,
            );
        }
    }
    if command == "generate" {
        of_all("`generate` takes a number below 2147483648 and a size of 1 to 4000")
    } else {
        of_all("a command reads standard input; give a file by `< FILE`")
    }
}

/// What is said before the usage, of the words after the program's name that are no command.
pub fn complaint(words: &[Text]) -> BadWords<'_> {
    match words {
        [] => of_all("there is no command"),
        [first, rest @ ..] => {
            if !is_command(first.as_str()) {
                of_word("there is no such command", first.as_str())
            } else if first.as_str() == "run" {
                run_at_fault(rest)
            } else {
                others_at_fault(first.as_str(), rest)
            }
        }
    }
}
