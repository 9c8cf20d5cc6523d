ghost use Rattle.std.specs.Prelude.{◌≡◌, ◌&&◌, true, MatchOption, IfOk, None, Some, not};
ghost use Rattle.tk_words.specs.Line.{Fits, finished, joined_root as joined_in_word, json_is_for, line_in, run_is_for, start, starts_with as first_is, step, with_option, with_other, with_plain, with_root};

use crate::line::{Line, Name};
use std::alloc::{AllocError, Global};
use tk_types::{List, Text};

/// What the words said so far. `awaits` says that the next one is the root's folder, and `only_others` that no further one is an
/// option.
#[derive(Drop)]
pub(crate) struct Scan {
    json: bool,
    run: bool,
    root: Option<Text>,
    awaits: bool,
    only_others: bool,
    others: List<Text>,
}

/// Whether a word begins with a byte.
fn starts_with(word: &str, first: u8) -> bool
    ensures { result ≡ first_is first word.now }
{
    match word.as_bytes() {
        [byte, ..] => *byte == first,
        [] => false,
    }
}

/// The folder in a word `--root=DIR`.
fn joined_root(word: &str) -> Option<&str>
    ensures { MatchOption result (joined_in_word word.now ≡ None) (λ folder. joined_in_word word.now ≡ Some folder.now) }
{
    match word.split_once('=') {
        Some(("--root", folder)) => Some(folder),
        _ => None,
    }
}

impl Scan {
    /// No word was read.
    pub(crate) fn new(alloc: Global) -> Scan
        ensures { result ≡ start }
    {
        Scan {
            json: false,
            run: false,
            root: None,
            awaits: false,
            only_others: false,
            others: List::new(alloc),
        }
    }

    /// The root is given, with an absolute path and for the first time.
    fn take_root(&mut self, alloc: Global, folder: &str) -> Result<bool, AllocError>
        ensures { IfOk result (λ fits. Fits fits (with_root self.old folder.now) self.new) }
    {
        if self.root.is_some() || !starts_with(folder, b'/') {
            return Ok(false);
        }
        self.root = Some(Text::from_str(alloc, folder)?);
        self.awaits = false;
        Ok(true)
    }

    /// A word is no option.
    fn take_plain(&mut self, alloc: Global, name: Name, word: &str) -> Result<bool, AllocError>
        ensures { IfOk result (λ fits. Fits fits (with_plain name self.old word.now) self.new) }
    {
        if !name.takes_others() {
            return Ok(false);
        }
        self.others.push(Text::from_str(alloc, word)?)?;
        Ok(true)
    }

    /// A word that is no option on its own: a root with its folder, or one of the others.
    fn take_other(&mut self, alloc: Global, name: Name, word: &str) -> Result<bool, AllocError>
        ensures { IfOk result (λ fits. Fits fits (with_other name self.old word.now (joined_in_word word.now)) self.new) }
    {
        match joined_root(word) {
            Some(folder) if name.takes_root() => self.take_root(alloc, folder),
            Some(_) => Ok(false),
            None if starts_with(word, b'-') => Ok(false),
            None => self.take_plain(alloc, name, word),
        }
    }

    /// `--json` is given, to a command that takes it and for the first time.
    fn take_json(&mut self, name: Name) -> bool
        ensures fits { result ≡ (json_is_for name && not self.old.json) }
        ensures same { self.new ≡ record self.old { json = true } }
    {
        let fits = name.takes_json() && !self.json;
        self.json = true;
        fits
    }

    /// `--run` is given, to a command that takes it and for the first time.
    fn take_run(&mut self, name: Name) -> bool
        ensures fits { result ≡ (run_is_for name && not self.old.run) }
        ensures same { self.new ≡ record self.old { run = true } }
    {
        let fits = name.takes_run() && !self.run;
        self.run = true;
        fits
    }

    /// A word in front of `--`.
    fn take_option(&mut self, alloc: Global, name: Name, word: &str) -> Result<bool, AllocError>
        ensures { IfOk result (λ fits. Fits fits (with_option name self.old word.now) self.new) }
    {
        match word {
            "--" => {
                self.only_others = true;
                Ok(true)
            }
            "--json" => Ok(self.take_json(name)),
            "--run" => Ok(self.take_run(name)),
            "--root" => {
                self.awaits = true;
                Ok(name.takes_root())
            }
            _ => self.take_other(alloc, name, word),
        }
    }

    /// One word more. It tells whether the word fits. The only error is want of memory.
    pub(crate) fn take(&mut self, alloc: Global, name: Name, word: &str) -> Result<bool, AllocError>
        ensures { IfOk result (λ fits. Fits fits (step name self.old word.now) self.new) }
    {
        if self.awaits {
            self.take_root(alloc, word)
        } else if self.only_others {
            self.take_plain(alloc, name, word)
        } else {
            self.take_option(alloc, name, word)
        }
    }

    /// The line of what the words said so far.
    pub(crate) fn line(self, name: Name) -> Line
        ensures { result ≡ line_in name self }
    {
        let Scan {
            json,
            run,
            root,
            others,
            ..
        } = self;
        Line {
            name,
            json,
            run,
            root,
            others,
        }
    }

    /// What all the words said; None where a folder is still awaited.
    pub(crate) fn finish(self, name: Name) -> Option<Line>
        ensures { result ≡ finished name (Some self) }
    {
        if self.awaits {
            return None;
        }
        Some(self.line(name))
    }
}
