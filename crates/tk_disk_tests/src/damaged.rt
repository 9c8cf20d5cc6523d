//! Damaged files, as they are read and as the definition's own plain reader reads them.
ghost use Rattle.std.specs.Prelude.{◌≤◌};

use crate::making::{file_of, opened};
use std::alloc::{AllocError, Global};
use std::test::Fail;
use tk_durable::{FileRead, read_file};
use tk_payload::read_entry;

/// Numbers that are drawn.
#[derive(Drop)]
struct Draws {
    state: u64,
}

impl Draws {
    /// A number below this one, or 0.
    fn below(&mut self, limit: usize) -> usize
        ensures { result ≤ limit }
    {
        self.state = self
            .state
            .wrapping_mul(6364136223846793005)
            .wrapping_add(1442695040888963407);
        let drawn = (self.state / 4294967296) as usize;
        if limit == 0 { 0 } else { drawn % limit }
    }
}

/// The file with one bit turned, cut off, or with one of its parts twice.
fn damaged(alloc: Global, draws: &mut Draws, file: &[u8]) -> Result<Vec<u8>, AllocError> {
    let kind = draws.below(3);
    let place = draws.below(file.len());
    let other = draws.below(file.len());
    let bit = 1u8.rotate_left(draws.below(8) as u32);
    let mut bytes = Vec::new(alloc);
    for (at, byte) in file.iter().enumerate() {
        if kind == 0 && at == place {
            bytes.push(*byte ^ bit)?;
        } else if kind != 1 || at < place {
            bytes.push(*byte)?;
        }
        if kind == 2 && at == place {
            for again in file.iter().take(place).skip(other) {
                bytes.push(*again)?;
            }
        }
    }
    Ok(bytes)
}

/// The payload behind an open gate, and what begins with the next gate.
fn block(behind: &[u8]) -> Option<(&[u8], &[u8])> {
    let [a, b, c, d, e, f, g, h, rest @ ..] = behind else {
        return None;
    };
    let length = u64::from_le_bytes([*a, *b, *c, *d, *e, *f, *g, *h]);
    if length < rest.len() as u64 {
        Some((&rest[..length as usize], &rest[length as usize..]))
    } else {
        None
    }
}

/// What the definition says of a file: its blocks one by one, to a closed gate.
fn plainly(alloc: Global, file: &[u8]) -> Result<String, AllocError> {
    let Some(mut rest) = file.strip_prefix(b"TKNJRNL1".as_slice()) else {
        return String::from_str(alloc, "damaged 0");
    };
    for entries in 0..file.len() {
        let gate = file.len().saturating_sub(rest.len());
        let Some((value, behind)) = rest.split_first() else {
            return String::from_str(alloc, "damaged 0");
        };
        if *value != 1 {
            return format!(in alloc; "{entries} entries");
        }
        let Some((payload, next)) = block(behind) else {
            return format!(in alloc; "damaged {gate}");
        };
        if read_entry(alloc, payload)?.is_none() {
            return format!(in alloc; "damaged {gate}");
        }
        rest = next;
    }
    String::from_str(alloc, "damaged 0")
}

/// What is read of a file.
fn as_read(alloc: Global, file: &[u8]) -> Result<String, AllocError> {
    match read_file(alloc, file)? {
        FileRead::Ok(entries) => format!(in alloc; "{} entries", entries.len()),
        FileRead::Damaged { offset } => format!(in alloc; "damaged {offset}"),
    }
}

#[test]
fn damaged_files_are_read_as_they_should(rt: HostRuntime) -> Result<(), Fail> {
    let alloc = rt.alloc();
    let mut draws = Draws { state: 1 };
    let file = file_of(alloc, 4)?;
    let mut whole = 0u64;
    for _ in 0..1000 {
        let bytes = damaged(alloc, &mut draws, &file)?;
        let plain = plainly(alloc, &bytes)?;
        assert_eq!(rt; as_read(alloc, &bytes)?.as_str(), plain.as_str());
        assert_eq!(rt; opened(alloc, bytes)?.as_str(), plain.as_str());
        if plain.as_str().ends_with("entries") {
            whole = whole.saturating_add(1);
        }
    }
    // Neither answer is rare.
    assert!(rt; 50 < whole && whole < 950);
    Ok(())
}
