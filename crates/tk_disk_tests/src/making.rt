//! Entries and journal files that the tests share.
use std::alloc::{AllocError, Global};
use tk_disk::{Disk, MemDisk};
use tk_durable::{Append, Created, Durable, Opened, create, open};
use tk_journal::{Act, Actor, Entry, Fronts};
use tk_types::Text;

/// The start of a run by the first worker on runs at this moment.
pub(crate) fn start(alloc: Global, moment: u64) -> Result<Entry, AllocError> {
    Ok(Entry {
        actor: Actor::Runs(0),
        fronts: Fronts {
            runs: 1,
            task_runs: 0,
            pods: 0,
        },
        moment,
        act: Act::Start {
            name: Text::from_str(alloc, "r")?,
        },
    })
}

/// Appends so many starts, as far as each goes well, and gives how many did.
fn append_all(
    alloc: Global,
    durable: &mut Durable<MemDisk>,
    count: u64,
) -> Result<u64, AllocError> {
    let mut done = 0;
    for moment in 0..count {
        let entry = start(alloc, moment)?;
        if !durable.is_sound() || durable.append(&entry) != Append::Ok {
            break;
        }
        done = moment + 1;
    }
    Ok(done)
}

/// A journal file after so many appends, or up to the first one that doesn't go well: how many went well, whether the
/// journal is sound, and the disk, of which the call with one number fails.
pub(crate) fn appended(
    alloc: Global,
    count: u64,
    failing: u64,
) -> Result<Option<(u64, bool, MemDisk)>, AllocError> {
    let mut script = Vec::new(alloc);
    script.push(failing)?;
    let disk = MemDisk::new(alloc, Vec::new(alloc), script)?;
    let Created::Ok(mut durable) = create(alloc, disk) else {
        return Ok(None);
    };
    let done = append_all(alloc, &mut durable, count)?;
    let sound = durable.is_sound();
    Ok(Some((done, sound, durable.into_disk())))
}

/// The bytes of a journal file with so many starts.
pub(crate) fn file_of(alloc: Global, count: u64) -> Result<Vec<u8>, AllocError> {
    match appended(alloc, count, u64::MAX)? {
        Some((_, _, disk)) => Vec::from_slice(alloc, disk.bytes()),
        None => Err(AllocError),
    }
}

/// What an opening of a disk says: the number of entries, or where the file is damaged.
pub(crate) fn opened_on<D: Disk + Drop>(alloc: Global, disk: D) -> Result<String, AllocError> {
    match open(alloc, disk) {
        Opened::Ok(_, entries) => format!(in alloc; "{} entries", entries.len()),
        Opened::Damaged { offset, .. } => format!(in alloc; "damaged {offset}"),
        Opened::DiskFault(_) => String::from_str(alloc, "disk fault"),
        Opened::Memory(_) => Err(AllocError),
    }
}

/// What an opening of a disk with these bytes says.
pub(crate) fn opened(alloc: Global, bytes: Vec<u8>) -> Result<String, AllocError> {
    opened_on(alloc, MemDisk::new(alloc, bytes, Vec::new(alloc))?)
}
