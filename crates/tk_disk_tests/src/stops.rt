//! Three appends that stop at each call of the disk, and what a crash may leave then.
use crate::making::{appended, opened};
use std::alloc::{AllocError, Global};
use std::test::Fail;
use tk_disk::{Call, MemDisk};

/// The range of the last write.
fn last_write(disk: &MemDisk) -> (u64, u64) {
    let mut last = (0, 0);
    for call in disk.calls() {
        if let Call::Write { at, len } = call {
            last = (*at, at.saturating_add(*len as u64));
        }
    }
    last
}

/// What a crash may leave of a file whose last write is torn: its bytes before `from`, and up to `end` this byte, or
/// nothing.
fn torn(
    alloc: Global,
    file: &[u8],
    from: u64,
    end: u64,
    filler: Option<u8>,
) -> Result<Vec<u8>, AllocError> {
    let mut image = Vec::new(alloc);
    for (place, byte) in file.iter().enumerate() {
        let place = place as u64;
        if place < from || place >= end {
            image.push(*byte)?;
        } else if let Some(filler) = filler {
            image.push(filler)?;
        }
    }
    Ok(image)
}

/// Adds an answer to a text where it isn't the last one there.
fn add(text: &mut String, answer: &str) -> Result<(), AllocError> {
    if !text.as_str().ends_with(answer) {
        text.push_str(", ")?;
        text.push_str(answer)?;
    }
    Ok(())
}

/// What openings say of all that a crash may leave of the last write: the first bytes of it, and behind them zeros, ones,
/// other bytes, and nothing where the file ended.
fn images(alloc: Global, disk: &MemDisk) -> Result<String, AllocError> {
    let (at, end) = last_write(disk);
    let file = disk.bytes();
    let mut text = String::new(alloc);
    for from in at..end.saturating_add(1) {
        for filler in [0, 1, 255] {
            add(
                &mut text,
                opened(alloc, torn(alloc, file, from, end, Some(filler))?)?.as_str(),
            )?;
        }
        if end == file.len() as u64 {
            add(
                &mut text,
                opened(alloc, torn(alloc, file, from, end, None)?)?.as_str(),
            )?;
        }
    }
    Ok(text)
}

/// What three appends of which one call of the disk fails say, and what is left. A write is torn where it or the sync behind
/// it fails.
fn stopped(alloc: Global, failing: u64) -> Result<String, AllocError> {
    let Some((done, sound, disk)) = appended(alloc, 3, failing)? else {
        return String::from_str(alloc, "not created");
    };
    let calls = disk.calls().len();
    let Some((_, _, written)) = appended(alloc, 3, failing | 1)? else {
        return String::from_str(alloc, "not created");
    };
    let left = images(alloc, &written)?;
    format!(in alloc; "{done} {sound} {calls}{left}")
}

/// The call that fails, then how many appends went well, whether the journal is sound, how many calls there were, and the
/// answers of openings of all that a crash may leave.
const STOPS: &str = "0 => not created
1 => not created
2 => 0 false 3, 0 entries
3 => 0 false 4, 0 entries
4 => 0 false 5, 0 entries, 1 entries, 0 entries, 1 entries
5 => 0 false 6, 0 entries, 1 entries, 0 entries, 1 entries
6 => 1 false 7, 1 entries
7 => 1 false 8, 1 entries
8 => 1 false 9, 1 entries, 2 entries, 1 entries, 2 entries
9 => 1 false 10, 1 entries, 2 entries, 1 entries, 2 entries
10 => 2 false 11, 2 entries
11 => 2 false 12, 2 entries
12 => 2 false 13, 2 entries, 3 entries, 2 entries, 3 entries
13 => 2 false 14, 2 entries, 3 entries, 2 entries, 3 entries";

#[test]
fn appends_stop_at_each_call(rt: HostRuntime) -> Result<(), Fail> {
    let alloc = rt.alloc();
    for row in STOPS.split("\n") {
        let Some((call, wanted)) = row.split_once(" => ") else {
            continue;
        };
        let Ok(call) = call.parse::<u64>() else {
            continue;
        };
        assert_eq!(rt; stopped(alloc, call)?.as_str(), wanted, "{row}");
    }
    Ok(())
}

/// Nothing fails: a creation takes two calls, and each append a write, a sync, a write of one byte and a sync.
#[test]
fn calls_are_noted(rt: HostRuntime) -> Result<(), Fail> {
    let alloc = rt.alloc();
    let mut text = String::new(alloc);
    if let Some((_, _, disk)) = appended(alloc, 2, u64::MAX)? {
        for call in disk.calls() {
            text.push_str(format!(in alloc; "{call:?}\n")?.as_str())?;
        }
    }
    assert_eq!(rt; text.as_str(), CALLS);
    Ok(())
}

const CALLS: &str = "Write { at: 0, len: 9 }
Sync
Write { at: 9, len: 112 }
Sync
Write { at: 8, len: 1 }
Sync
Write { at: 121, len: 112 }
Sync
Write { at: 120, len: 1 }
Sync
";
