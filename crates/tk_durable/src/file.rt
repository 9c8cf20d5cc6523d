ghost use Rattle.std.specs.Prelude.{◌≡◌, ◌<◌, ◌^◌, ◌+◌, ◌++◌, ◌∷◌, List, ℕ, drop, length, take, IfOk, IfSome, IsNone};
ghost use Rattle.tk_durable.specs.Damage.{IsEntryAt, IsFirstEntry};
ghost use Rattle.tk_durable.specs.Journal.{sized};
ghost use Rattle.tk_durable.specs.Reading.{IsFileReading, IsReadingOf};

use std::alloc::{AllocError, Global};
use tk_journal::Entry;
use tk_payload::read_entry;
use tk_types::List;

const HEAD: [u8; 8] = *b"TKNJRNL1";

/// The entries of a journal file, the oldest first, or the offset of the gate at fault: 0 where it has no head.
#[derive(Drop)]
pub enum FileRead {
    Ok(List<Entry>),
    Damaged { offset: u64 },
}

/// Reads the entries of a journal file. The only error is want of memory.
pub fn read_file(alloc: Global, bytes: &[u8]) -> Result<FileRead, AllocError>
    ensures { IfOk result (IsFileReading bytes.now) }
{
    match read_blocks(alloc, bytes)? {
        Reading::Whole { entries, .. } => Ok(FileRead::Ok(entries)),
        Reading::Damaged { offset } => Ok(FileRead::Damaged { offset }),
    }
}

/// The same, with the place of the last gate.
#[derive(Drop)]
pub(crate) enum Reading {
    Whole { entries: List<Entry>, gate: u64 },
    Damaged { offset: u64 },
}

/// Reads the entries of a journal file, and where its last gate stands.
pub(crate) fn read_blocks(alloc: Global, bytes: &[u8]) -> Result<Reading, AllocError>
    ensures { IfOk result (IsReadingOf bytes.now) }
{
    if !bytes.starts_with(&HEAD) || bytes.len() == 8 {
        return Ok(Reading::Damaged { offset: 0 });
    }
    let mut entries = Vec::new(alloc);
    let mut gate = 8;
    while bytes[gate] == 1 {
        let Some(found) = entry_at(alloc, bytes, gate)? else {
            return Ok(Reading::Damaged {
                offset: gate as u64,
            });
        };
        gate = found.1;
        entries.push(found.0)?;
    }
    Ok(Reading::Whole {
        entries: List::from_vec(entries),
        gate: gate as u64,
    })
}

/// The entry behind an open gate, and where the gate behind it stands.
fn entry_at(alloc: Global, bytes: &[u8], gate: usize) -> Result<Option<(Entry, usize)>, AllocError>
    requires { gate < length bytes.now }
    ensures { IfOk result (IsEntryAt bytes.now gate) }
{
    match first_entry(alloc, &bytes[gate + 1..])? {
        Some((entry, len)) => Ok(Some((entry, gate + 9 + len))),
        None => Ok(None),
    }
}

/// The entry whose length and text these bytes begin with, where a gate follows, and the length of its text.
fn first_entry(alloc: Global, tail: &[u8]) -> Result<Option<(Entry, usize)>, AllocError>
    ensures { IfOk result (IsFirstEntry tail.now) }
{
    let Some(len) = block_length(tail) else {
        return Ok(None);
    };
    match read_entry(alloc, &tail[8..8 + len])? {
        Some(entry) => Ok(Some((entry, len))),
        None => Ok(None),
    }
}

/// The length of the payload, where these bytes are a whole length, payload and gate, and maybe more.
fn block_length(tail: &[u8]) -> Option<usize>
    ensures whole { IfSome result (λ n. 8 + n < length tail.now) }
    ensures split { IfSome result (λ n. tail.now ≡ sized (take n (drop 8 tail.now)) ++ drop (8 + n) tail.now) }
    ensures none { IsNone result → (payload : List ℕ) (gate : ℕ) (behind : List ℕ) → length payload < 2 ^ 64
        → tail.now ≡ sized payload ++ (gate ∷ behind) → ⊥ }
{
    let [a, b, c, d, e, f, g, h, behind @ ..] = tail else {
        return None;
    };
    let len = u64::from_le_bytes([*a, *b, *c, *d, *e, *f, *g, *h]);
    if len < behind.len() as u64 {
        Some(len as usize)
    } else {
        None
    }
}
