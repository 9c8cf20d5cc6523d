//! Reads the journal files that its words name, and writes each again, entry by entry: a line for each says how many entries
//! it has, or where it is damaged. The stored run has files of 69 legal journals and of damaged ones, and what each comes
//! to, by another program.
#![tactic(auto)]

use std::alloc::{AllocError, Global};
use std::{env, fs, io};
use tk_disk::MemDisk;
use tk_durable::{Append, Created, FileRead, create, read_file};
use tk_journal::Entry;

/// A disk with a journal of these entries, or none where an append doesn't go well.
fn written(alloc: Global, entries: &[Entry]) -> Result<Option<MemDisk>, AllocError> {
    let disk = MemDisk::new(alloc, Vec::new(alloc), Vec::new(alloc))?;
    let Created::Ok(mut durable) = create(alloc, disk) else {
        return Ok(None);
    };
    for entry in entries {
        if !durable.is_sound() || durable.append(entry) != Append::Ok {
            return Ok(None);
        }
    }
    Ok(Some(durable.into_disk()))
}

/// What a file comes to. Where it has a journal, a file with the same entries is the same up to the last gate.
fn told(alloc: Global, file: &[u8]) -> Result<String, AllocError> {
    match read_file(alloc, file)? {
        FileRead::Ok(entries) => match written(alloc, entries.as_slice())? {
            Some(disk) if file.starts_with(disk.bytes()) => {
                format!(in alloc; "{} entries", entries.len())
            }
            _ => String::from_str(alloc, "written otherwise"),
        },
        FileRead::Damaged { offset } => format!(in alloc; "damaged {offset}"),
    }
}

fn main(rt: HostRuntime) -> io::Result<()> {
    let alloc = rt.alloc();
    for name in env::args(&rt)?.skip(1) {
        let file = fs::read(&rt, name.as_str())?;
        println!(rt; "{name} {}", told(alloc, file.as_slice())?.as_str())?;
    }
    Ok(())
}
