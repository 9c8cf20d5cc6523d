//! The program of an entrypoint as a call: its words, and its statuses with the files behind them, over a host in memory whose
//! commands end with one exit.

use std::alloc::{AllocError, Global};
use std::sync::Wait;
use std::test::Fail;
use tk_edge::{CleanHost, Host, ManualClock, Miss};
use tk_enter::{Clocks, EntryWords, Parent, enter, read_words};
use tk_types::{List, Text};

/// The words of a line, which are parted by spaces.
fn words_of(alloc: Global, line: &str) -> Result<List<Text>, AllocError> {
    let mut words = List::new(alloc);
    for word in line.split(' ') {
        words.push(Text::from_str(alloc, word)?)?;
    }
    Ok(words)
}

/// What words say: the five files, whether each exit passes, and the command.
fn told(alloc: Global, words: &EntryWords) -> Result<String, AllocError> {
    let mut told = format!(in alloc;
        "{} {} {} {} {} {}",
        words.wait.as_str(),
        words.post.as_str(),
        words.began.as_str(),
        words.exit.as_str(),
        words.cancel.as_str(),
        words.keep_going
    )?;
    for word in words.argv.as_slice() {
        told.push_str(" ")?;
        told.push_str(word.as_str())?;
    }
    Ok(told)
}

/// What a line says, or `usage`.
fn read(alloc: Global, line: &str) -> Result<String, AllocError> {
    match read_words(alloc, words_of(alloc, line)?.as_slice())? {
        Some(words) => told(alloc, &words),
        None => String::from_str(alloc, "usage"),
    }
}

/// The words of a line, spelled again, and nothing where they are usage.
fn spelled(alloc: Global, line: &str) -> Result<String, AllocError> {
    let mut text = String::new(alloc);
    if let Some(words) = read_words(alloc, words_of(alloc, line)?.as_slice())? {
        for word in words.spelled(alloc)?.as_slice() {
            text.push_str(" ")?;
            text.push_str(word.as_str())?;
        }
    }
    Ok(text)
}

const LINES: &str =
    "-wait_file w -post_file p -began_file b -exit_file e -cancel_file c -- x => w p b e c false x
-wait_file w -post_file p -began_file b -exit_file e -cancel_file c -on_error continue -- x -- y => w p b e c true x -- y
-wait_file -- -post_file -- -began_file -- -exit_file -- -cancel_file -- -- -- => -- -- -- -- -- false --
-wait_file w -post_file p -began_file b -exit_file e -cancel_file c -on_error stop -- x => usage
-wait_file w -post_file p -began_file b -exit_file e -cancel_file c -on_error continue x => usage
-wait_file w -post_file p -began_file b -exit_file e -cancel_file c x => usage
-wait_file w -post_file p -began_file b -exit_file e -cancel_file c -- => usage
-wait_file w -post_file p -began_file b -exit_file e -cancel_file c => usage
-post_file p -wait_file w -began_file b -exit_file e -cancel_file c -- x => usage
-wait_file w -post_file p -began_file b -cancel_file c -exit_file e -- x => usage
-wait_file w => usage
x => usage";

#[test]
fn words_are_read_in_their_order(rt: HostRuntime) -> Result<(), Fail> {
    let alloc = rt.alloc();
    for row in LINES.split('\n') {
        let (line, wanted) = row.split_once(" => ").unwrap_or((row, "nothing"));
        assert_eq!(rt; read(alloc, line)?.as_str(), wanted, "of {line}");
        if wanted != "usage" {
            assert_eq!(rt; spelled(alloc, line)?.as_str().trim_start(), line);
        }
    }
    Ok(())
}

/// A parent that is gone once it was asked for so often.
#[derive(Drop)]
struct Leaving {
    left: u32,
    gone: bool,
}

impl Parent for Leaving {
    ghost gone = { λ parent. parent.gone };

    fn is_gone(&mut self) -> bool {
        self.gone = self.left == 0;
        self.left = self.left.saturating_sub(1);
        self.gone
    }
}

/// A part of a row.
fn part(row: &str, place: usize) -> &str {
    row.split(" | ").nth(place).unwrap_or("")
}

/// The number of a part of a row.
fn number(row: &str, place: usize) -> u32 {
    part(row, place).parse::<u32>().unwrap_or(77)
}

/// A host whose commands end so, on which these files stand.
fn host_with(alloc: Global, exit: u8, files: &str) -> Result<CleanHost, Miss> {
    let mut host = CleanHost::new(alloc, exit);
    for file in files.split(' ') {
        host.put(file, b"")?;
    }
    Ok(host)
}

/// Of the files began, exit, post and post with `.err` a letter for each that stands, behind a status.
fn standing(alloc: Global, host: &mut CleanHost, status: u8) -> Result<String, Miss> {
    let mut told = format!(in alloc; "{status}")?;
    for (file, letter) in [("b", " b"), ("e", " e"), ("p", " p"), ("p.err", " p.err")] {
        if host.look(file)? {
            told.push_str(letter)?;
        }
    }
    Ok(told)
}

/// The status of a row, and what stands behind it.
fn entered<T: Wait>(rt: &T, alloc: Global, row: &str) -> Result<String, Miss> {
    let exit = u8::try_from(number(row, 0)).unwrap_or(77);
    let mut host = host_with(alloc, exit, part(row, 2))?;
    let line = format!(in alloc;
        "-wait_file w -post_file p -began_file b -exit_file e -cancel_file c {}",
        part(row, 3)
    )?;
    let words = words_of(alloc, line.as_str())?;
    let mut clocks = Clocks {
        waiting: ManualClock::new(alloc),
        running: ManualClock::new(alloc),
    };
    let mut parent = Leaving {
        left: number(row, 1),
        gone: false,
    };
    let status = enter(
        rt,
        alloc,
        words.as_slice(),
        &[],
        &mut host,
        &mut clocks,
        &mut parent,
    );
    standing(alloc, &mut host, status)
}

/// The exit, how often the parent answers, the files that stand, the words behind those of the files, and what comes of them.
const ROWS: &str = "0 | 9 | w | -- x | 0 b e p
3 | 9 | w | -- x | 1 b e p.err
3 | 9 | w | -on_error continue -- x | 0 b e p
0 | 9 | w.err | -- x | 1 p.err
0 | 9 | w w.err | -- x | 1 p.err
0 | 9 | c | -- x | 4 p.err
0 | 9 | c w | -- x | 4 p.err
0 | 9 | c w.err | -- x | 4 p.err
0 | 0 | w | -- x | 4 p.err
0 | 1 | w | -- x | 4 b p.err
0 | 5 | q | -- x | 4 p.err
0 | 0 | w | x | 2
255 | 9 | w | -- x | 1 b e p.err";

#[test]
fn each_end_has_its_status(rt: HostRuntime) -> Result<(), Fail> {
    let alloc = rt.alloc();
    for row in ROWS.split('\n') {
        let told = entered(&rt, alloc, row)?;
        assert_eq!(rt; told.as_str(), part(row, 4), "of {row}");
    }
    Ok(())
}
