ghost use Rattle.std.specs.Prelude.{◌≡◌, false, true, IfOk};
ghost use Rattle.tk_words.specs.Line.{json_behind, only_behind};
ghost use Rattle.tk_commands.specs.Command.{alone as alone_by, command_in as command_in_line, command_of as command_of_words, simulate_with};

use std::alloc::{AllocError, Global};
use tk_types::Text;
use tk_words::{Line, Name, read};

/// A command that reads an input.
#[derive(Clone, Copy, Debug, PartialEq, Eq)]
pub enum Command {
    /// Admits the objects of an input.
    Check,
    /// Decides a PipelineRun with the outcomes of its tasks.
    Decide,
    /// Plays the runs of an input by its Scenario, and reports them as text or as JSON.
    Simulate { json: bool },
}

/// A command that takes nothing more.
fn alone(command: Command, rest: &[Text]) -> Option<Command>
    ensures { result ≡ alone_by command rest.now }
{
    if rest.is_empty() { Some(command) } else { None }
}

/// Whether `--json` was given, where no further word stands.
fn json_alone(json: bool, words: &[Text]) -> Option<bool>
    ensures { result ≡ only_behind words.now json }
{
    if words.is_empty() { Some(json) } else { None }
}

/// Whether `--json` stands behind `simulate`, with the words behind one.
fn json_behind_json(words: &[Text]) -> Option<bool>
    ensures { result ≡ json_behind true words.now }
{
    match words {
        [] => Some(true),
        [word, rest @ ..] => match word.as_str() {
            "--json" => None,
            "--" => json_alone(true, rest),
            _ => None,
        },
    }
}

/// Whether `--json` stands behind `simulate`, with all the words behind it.
fn json_in(words: &[Text]) -> Option<bool>
    ensures { result ≡ json_behind false words.now }
{
    match words {
        [] => Some(false),
        [word, rest @ ..] => match word.as_str() {
            "--json" => json_behind_json(rest),
            "--" => json_alone(false, rest),
            _ => None,
        },
    }
}

/// `simulate` with the words behind it.
fn simulate_of(words: &[Text]) -> Option<Command>
    ensures { result ≡ simulate_with words.now }
{
    match json_in(words) {
        Some(json) => Some(Command::Simulate { json }),
        None => None,
    }
}

/// The command that the words after the program's name are, if they are one. It takes no memory.
pub fn command_of(words: &[Text]) -> Option<Command>
    ensures { result ≡ command_of_words words.now }
{
    match words {
        [] => None,
        [word, rest @ ..] => match word.as_str() {
            "check" => alone(Command::Check, rest),
            "decide" => alone(Command::Decide, rest),
            "simulate" => simulate_of(rest),
            _ => None,
        },
    }
}

/// The command that a line is, if it is one of these.
fn command_in(line: &Line) -> Option<Command>
    ensures { result ≡ command_in_line line.now }
{
    match line.name {
        Name::Check => Some(Command::Check),
        Name::Decide => Some(Command::Decide),
        Name::Simulate => Some(Command::Simulate { json: line.json }),
        Name::Run | Name::Generate => None,
    }
}

/// The same command, as it is read from the matches of `clap`. The only error is want of memory.
pub fn read_command(alloc: Global, words: &[Text]) -> Result<Option<Command>, AllocError>
    ensures { IfOk result (λ command. command ≡ command_of_words words.now) }
{
    match read(alloc, words)? {
        Some(line) => Ok(command_in(&line)),
        None => Ok(None),
    }
}
