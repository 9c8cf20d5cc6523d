ghost use Rattle.std.specs.Prelude.{◌≡◌, ◌++◌, IfOk, OnOk, MatchOption, None, Some, option_map};
ghost use Rattle.tk_journal.specs.Plan.{first_line, interpreter, script_file, script_words};
ghost use Rattle.tk_taskrec.specs.Scripts.{behind_word, first_word, words_of};

use std::alloc::{AllocError, Global};
use tk_types::{List, Text, TryCopy};

/// The first line of a text, without its end.
fn first_line(text: &str) -> &str
    ensures { result.now ≡ first_line text.now }
{
    match text.split_once('\n') {
        Some((line, _)) => line,
        None => text,
    }
}

/// A line's first word, up to a space, and what stands behind that.
fn words(line: &str) -> (&str, &str)
    ensures program { result.0.now ≡ first_word line.now }
    ensures rest { result.1.now ≡ behind_word line.now }
{
    match line.split_once(' ') {
        Some((program, rest)) => (program, rest),
        None => (line, ""),
    }
}

/// What runs a script that begins with `#!`: the program, and what stands behind it in the line.
fn interpreter(text: &str) -> Option<(&str, &str)>
    ensures { MatchOption result (interpreter text.now ≡ None) (λ found. interpreter text.now ≡ Some (words_of found.0.now found.1.now)) }
{
    let Some(rest) = text.strip_prefix("#!") else {
        return None;
    };
    let (program, word) = words(first_line(rest));
    if program.is_empty() {
        return None;
    }
    Some((program, word))
}

/// A script's file: the script itself where it names what runs it, else behind the lines of a shell's script.
pub fn file_of(alloc: Global, script: &str) -> Result<Text, AllocError>
    ensures { IfOk result (λ text. text ≡ script_file script.now) }
{
    if interpreter(script).is_some() {
        return Text::from_str(alloc, script);
    }
    let mut text = String::from_str(alloc, "#!/bin/sh\nset -e\n")?;
    text.push_str(script)?;
    Ok(Text::from_string(text))
}

/// Adds a program, and one word more where there is something.
fn push_program(
    alloc: Global,
    words: &mut List<Text>,
    program: &str,
    word: &str,
) -> Result<(), AllocError>
    ensures { OnOk result (words.new ≡ words.old ++ words_of program.now word.now) }
{
    words.push(Text::from_str(alloc, program)?)?;
    if !word.is_empty() {
        words.push(Text::from_str(alloc, word)?)?;
    }
    Ok(())
}

/// Adds the words that run a script's file.
pub fn push_words(alloc: Global, words: &mut List<Text>, script: &str) -> Result<(), AllocError>
    ensures { OnOk result (words.new ≡ words.old ++ script_words script.now) }
{
    match interpreter(script) {
        Some((program, word)) => push_program(alloc, words, program, word),
        None => push_program(alloc, words, "/bin/sh", ""),
    }
}
