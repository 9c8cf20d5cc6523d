//! The journal of a played input, written to a file and read back.

use crate::run_rows::BUILD;
use std::alloc::{AllocError, Global};
use std::test::Fail;
use tk_disk::MemDisk;
use tk_durable::{Append, Created, FileRead, create, read_file};
use tk_journal::{Entry, Journal};
use tk_payload::entry_bytes;
use tk_simulate::simulate;

/// The entry at a place, from 0, if there is one.
fn entry_at(journal: &Journal, place: u64) -> Option<&Entry> {
    if place < journal.len() {
        Some(journal.entry(place + 1))
    } else {
        None
    }
}

/// A disk with the file of a journal, or none where an append doesn't go well.
fn written(alloc: Global, journal: &Journal) -> Result<Option<MemDisk>, AllocError> {
    let disk = MemDisk::new(alloc, Vec::new(alloc), Vec::new(alloc))?;
    let Created::Ok(mut durable) = create(alloc, disk) else {
        return Ok(None);
    };
    for place in 0..journal.len() {
        let Some(entry) = entry_at(journal, place) else {
            return Ok(None);
        };
        if !durable.is_sound() || durable.append(entry) != Append::Ok {
            return Ok(None);
        }
    }
    Ok(Some(durable.into_disk()))
}

/// The place of the first entry that isn't the journal's, by the texts of both, or how many there are.
fn first_other(alloc: Global, journal: &Journal, entries: &[Entry]) -> Result<u64, AllocError> {
    for place in 0..entries.len() {
        let Some(entry) = entry_at(journal, place as u64) else {
            return Ok(place as u64);
        };
        let (one, other) = (
            entry_bytes(alloc, entry)?,
            entry_bytes(alloc, &entries[place])?,
        );
        if one.as_slice() != other.as_slice() {
            return Ok(place as u64);
        }
    }
    Ok(entries.len() as u64)
}

#[test]
fn a_played_journal_is_written_and_read_back(rt: HostRuntime) -> Result<(), Fail> {
    let alloc = rt.alloc();
    let Ok(journal) = simulate(alloc, BUILD.as_bytes()) else {
        return Err(Fail::new("the input isn't played"));
    };
    let Some(disk) = written(alloc, &journal)? else {
        return Err(Fail::new("an append failed"));
    };
    let FileRead::Ok(entries) = read_file(alloc, disk.bytes())? else {
        return Err(Fail::new("the file is damaged"));
    };
    assert!(rt; journal.len() > 10);
    assert_eq!(rt; entries.len() as u64, journal.len());
    assert_eq!(rt;
        first_other(alloc, &journal, entries.as_slice())?,
        journal.len()
    );
    Ok(())
}
