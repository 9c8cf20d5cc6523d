//! Calls of a host as lines, and what they answer, as the rows of a test tell them.
//!
//! A line is a call, and behind ` => ` its answer. The parts of a call are parted by ` | `: `put | PATH | TEXT`,
//! `look | PATH`, `fetch | PATH | LIMIT`, `clear | FOLDER`, `start POD STEP | WORD..`, `launch POD STEP | WAIT | POST | WORD..`,
//! `poll CHILD` and `kill CHILD`. `@` stands for the folder of the test. A line without an answer fails, since no answer is told so.

use std::alloc::{AllocError, Global};
use tk_edge::{Host, Miss, Order, Poll, Watch};
use tk_types::{Bytes, List, Pair, Text};

/// The first part of a call.
fn head_of(call: &str) -> &str {
    call.split(" | ").next().unwrap_or("")
}

/// The part of a call at a place behind the first, and nothing where there is none.
fn part_of(call: &str, place: usize) -> &str {
    call.split(" | ").nth(place).unwrap_or("")
}

/// The word of a part at a place, and nothing where there is none.
fn word_of(part: &str, place: usize) -> &str {
    part.split(' ').nth(place).unwrap_or("")
}

/// The number that the first part of a call tells behind its verb, or one that no child has.
pub(crate) fn child_of(call: &str) -> u64 {
    word_of(head_of(call), 1).parse::<u64>().unwrap_or(u64::MAX)
}

/// The verb of a call.
pub(crate) fn verb_of(call: &str) -> &str {
    word_of(head_of(call), 0)
}

/// What a miss is called.
fn missed(miss: Miss) -> &'static str {
    match miss {
        Miss::Failed => "failed",
        Miss::Memory => "no memory",
    }
}

/// What a call without an answer of its own came to.
fn done(answer: Result<(), Miss>) -> &'static str {
    match answer {
        Ok(()) => "done",
        Err(miss) => missed(miss),
    }
}

/// What a look came to.
fn looked(answer: Result<bool, Miss>) -> &'static str {
    match answer {
        Ok(true) => "stands",
        Ok(false) => "none",
        Err(miss) => missed(miss),
    }
}

/// What a fetch came to: the text, where `$` stands for the end of a line.
fn fetched(alloc: Global, answer: Result<Option<Bytes>, Miss>) -> Result<String, AllocError> {
    match answer {
        Ok(Some(bytes)) => match std::str::from_utf8(bytes.as_slice()) {
            Ok(text) => text.replace(alloc, "\n", "$"),
            Err(_) => String::from_str(alloc, "no text"),
        },
        Ok(None) => String::from_str(alloc, "none"),
        Err(miss) => String::from_str(alloc, missed(miss)),
    }
}

/// The number that a child got.
fn numbered(alloc: Global, answer: Result<u64, Miss>) -> Result<String, AllocError> {
    match answer {
        Ok(child) => format!(in alloc; "{child}"),
        Err(miss) => String::from_str(alloc, missed(miss)),
    }
}

/// What a poll came to.
pub(crate) fn polled(alloc: Global, answer: Result<Poll, Miss>) -> Result<String, AllocError> {
    match answer {
        Ok(Poll::Runs) => String::from_str(alloc, "runs"),
        Ok(Poll::Exited(exit)) => format!(in alloc; "exited {exit}"),
        Err(miss) => String::from_str(alloc, missed(miss)),
    }
}

/// What a watch came to.
pub(crate) fn watched(alloc: Global, answer: Result<Watch, Miss>) -> Result<String, AllocError> {
    match answer {
        Ok(Watch::Waits) => String::from_str(alloc, "waits"),
        Ok(Watch::Started) => String::from_str(alloc, "started"),
        Ok(Watch::Runs) => String::from_str(alloc, "runs"),
        Ok(Watch::Passed { exit }) => format!(in alloc; "passed {exit}"),
        Ok(Watch::Broke { exit: Some(exit) }) => format!(in alloc; "broke {exit}"),
        Ok(Watch::Broke { exit: None }) => String::from_str(alloc, "refused"),
        Err(miss) => String::from_str(alloc, missed(miss)),
    }
}

/// The words of a program, which stand behind so many parts of a call.
fn program_of(alloc: Global, call: &str, behind: usize) -> Result<List<Text>, AllocError> {
    let mut words = List::new(alloc);
    for word in call.split(" | ").skip(behind) {
        words.push(Text::from_str(alloc, word)?)?;
    }
    Ok(words)
}

/// An environment of one word with letters beyond ASCII.
fn env_of(alloc: Global) -> Result<List<Pair>, AllocError> {
    Ok(List::from_vec(vec![in alloc;
        Pair {
            key: Text::from_str(alloc, "WORD")?,
            value: Text::from_str(alloc, "größe")?,
        },
    ]?))
}

/// The order of a call, whose program stands behind so many parts, in a folder.
fn order_of(alloc: Global, folder: &str, call: &str, behind: usize) -> Result<Order, AllocError> {
    let head = head_of(call);
    Ok(Order {
        pod: Text::from_str(alloc, word_of(head, 1))?,
        step: word_of(head, 2).parse::<u32>().unwrap_or(0),
        argv: program_of(alloc, call, behind)?,
        env: env_of(alloc)?,
        dir: Text::from_str(alloc, folder)?,
    })
}

/// What a call on a file came to, and nothing where it is none.
fn on_file<H: Host>(alloc: Global, host: &mut H, call: &str) -> Result<Option<String>, AllocError> {
    let path = part_of(call, 1);
    let told = match verb_of(call) {
        "clear" => String::from_str(alloc, done(host.clear(path))),
        "put" => String::from_str(alloc, done(host.put(path, part_of(call, 2).as_bytes()))),
        "look" => String::from_str(alloc, looked(host.look(path))),
        "fetch" => {
            let limit = part_of(call, 2).parse::<u64>().unwrap_or(0);
            fetched(alloc, host.fetch(path, limit))
        }
        _ => return Ok(None),
    };
    Ok(Some(told?))
}

/// What the start of an order came to.
fn on_start<H: Host>(
    alloc: Global,
    host: &mut H,
    folder: &str,
    call: &str,
) -> Result<String, AllocError> {
    let order = order_of(alloc, folder, call, 1)?;
    numbered(alloc, host.start(&order))
}

/// What a launch came to.
fn on_launch<H: Host>(
    alloc: Global,
    host: &mut H,
    folder: &str,
    call: &str,
) -> Result<String, AllocError> {
    let order = order_of(alloc, folder, call, 3)?;
    let answer = host.launch(&order, part_of(call, 1), part_of(call, 2), false);
    numbered(alloc, answer)
}

/// What a kill came to.
fn on_kill<H: Host>(host: &mut H, child: u64) -> &'static str {
    match host.kill(child) {
        Ok(()) => "done",
        Err(_) => "failed",
    }
}

/// What a call but `watch` came to, with `@` as the folder.
pub(crate) fn called<H: Host>(
    alloc: Global,
    host: &mut H,
    folder: &str,
    call: &str,
) -> Result<String, AllocError> {
    let call = call.replace(alloc, "@", folder)?;
    let call = call.as_str();
    if let Some(told) = on_file(alloc, host, call)? {
        return Ok(told);
    }
    match verb_of(call) {
        "start" => on_start(alloc, host, folder, call),
        "launch" => on_launch(alloc, host, folder, call),
        "poll" => polled(alloc, host.poll(child_of(call))),
        "kill" => String::from_str(alloc, on_kill(host, child_of(call))),
        _ => String::from_str(alloc, "no call"),
    }
}
