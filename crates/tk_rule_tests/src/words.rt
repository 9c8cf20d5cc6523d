//! Words of each command in each form, and the lines that they are.

use std::alloc::{AllocError, Global};
use std::test::Fail;
use tk_types::{List, Text};
use tk_words::{Line, Name, read};

/// Words with a blank between each two, and behind ` => ` the line that they are, or that they are refused. `~` stands for the
/// empty word.
const ROWS: &str = " => refused
~ => refused
help => refused
--help => refused
-h => refused
--version => refused
Check => refused
checks => refused
-- => refused
-- check => refused
--json simulate => refused
check => check
check ~ => refused
check -- => refused
check --json => refused
check --help => refused
check check => refused
decide => decide
decide -- => refused
decide x => refused
simulate => simulate
simulate --json => simulate json
simulate -- => simulate
simulate --json -- => simulate json
simulate -- --json => refused
simulate --json --json => refused
simulate --run => refused
simulate --root /a => refused
simulate --root=/a => refused
simulate --help => refused
simulate -j => refused
simulate x => refused
simulate ~ => refused
simulate -- x => refused
simulate -- -- => refused
run => run
run --json => run json
run --root /a => run root /a
run --root=/a => run root /a
run --root=/a=b => run root /a=b
run --root / --json => run json root /
run --json --root=/a -- => run json root /a
run r=Cancelled@10s => run others r=Cancelled@10s
run r=Start@0 --json q=A@1m --root /a -- t=B@5ms => run json root /a others r=Start@0 q=A@1m t=B@5ms
run -- --json --root=/a -- -x => run others --json --root=/a -- -x
run ~ x ~ => run others ~ x ~
run run => run others run
run help => run others help
run --json --json => refused
run --json x --json => refused
run --root => refused
run --root -- => refused
run --root x => refused
run --root=x => refused
run --root= => refused
run --root ~ => refused
run --root --json => refused
run --root /a --root /b => refused
run --root=/a --root=/b => refused
run --root /a --root => refused
run --run => refused
run --jsonx => refused
run --json=true => refused
run -x => refused
run - => refused
generate 1 2 => generate others 1 2
generate --run 1 2 => generate run others 1 2
generate 1 --run 2 => generate run others 1 2
generate 1 2 --run -- => generate run others 1 2
generate -- 1 --run => generate others 1 --run
generate --run --run => refused
generate --json 1 2 => refused";

/// The words of a text.
fn words(alloc: Global, text: &str) -> Result<List<Text>, AllocError> {
    let mut words = List::new(alloc);
    for word in text.split(' ') {
        if word == "~" {
            words.push(Text::new(alloc))?;
        } else if !word.is_empty() {
            words.push(Text::from_str(alloc, word)?)?;
        }
    }
    Ok(words)
}

/// The name of a command.
fn name_of(name: Name) -> &'static str {
    match name {
        Name::Check => "check",
        Name::Decide => "decide",
        Name::Simulate => "simulate",
        Name::Run => "run",
        Name::Generate => "generate",
    }
}

/// A line as a text.
fn text_of(alloc: Global, line: &Line) -> Result<String, AllocError> {
    let mut text = String::from_str(alloc, name_of(line.name))?;
    if line.json {
        text.push_str(" json")?;
    }
    if line.run {
        text.push_str(" run")?;
    }
    if let Some(root) = &line.root {
        text.push_str(" root ")?;
        text.push_str(root.as_str())?;
    }
    if !line.others.is_empty() {
        text.push_str(" others")?;
    }
    for word in line.others.as_slice() {
        text.push_str(" ")?;
        text.push_str(if word.is_empty() { "~" } else { word.as_str() })?;
    }
    Ok(text)
}

/// The line that words are, as a row tells it.
fn told(alloc: Global, text: &str) -> Result<String, AllocError> {
    let words = words(alloc, text)?;
    match read(alloc, words.as_slice())? {
        Some(line) => text_of(alloc, &line),
        None => String::from_str(alloc, "refused"),
    }
}

#[test]
fn words_are_read(rt: HostRuntime) -> Result<(), Fail> {
    for row in ROWS.split('\n') {
        let (text, wanted) = row.split_once(" => ").unwrap_or((row, "no answer"));
        let told = told(rt.alloc(), text)?;
        assert_eq!(rt; told.as_str(), wanted, "of {text}");
    }
    Ok(())
}
