ghost use Rattle.std.specs.Prelude.{◌≡◌, ◌≤◌, ◌↔◌, true, IfOk, IsErrOf};
ghost use Rattle.tk_disk.specs.Disk.{Only, Rose};
ghost use Rattle.tk_durable.specs.Opening.{OnlyRead, OpensAs, disk_of};
ghost use Rattle.tk_durable.specs.declared.opening.Opened.TheVariants.{Ok as IsOpen, DiskFault};

use crate::durable::Durable;
use crate::file::{Reading, read_blocks};
use std::alloc::{AllocError, Global};
use tk_disk::{Disk, Failed};
use tk_journal::Entry;
use tk_types::List;

/// What an opening gave: the journal and its entries, the oldest first, or the offset of the gate at fault.
#[derive(Drop)]
pub enum Opened<D: Disk> {
    Ok(Durable<D>, List<Entry>),
    Damaged { disk: D, offset: u64 },
    DiskFault(D),
    Memory(D),
}

/// Why a file wasn't read.
#[derive(Clone, Copy, Debug, PartialEq, Eq)]
enum Unread {
    Fault,
    Memory,
}

impl From<Failed> for Unread {
    ghost use Rattle.tk_durable.specs.declared.opening.Unread.TheVariants.{Fault};

    ghost from_gives = { λ _ e. e ≡ Fault };

    fn from(_: Failed) -> Self {
        Unread::Fault
    }
}

impl From<AllocError> for Unread {
    ghost use Rattle.tk_durable.specs.declared.opening.Unread.TheVariants.{Memory};

    ghost from_gives = { λ _ e. e ≡ Memory };

    fn from(_: AllocError) -> Self {
        Unread::Memory
    }
}

/// Opens the journal on a disk, which it syncs first. It writes nothing.
pub fn open<D: Disk>(alloc: Global, disk: D) -> Opened<D>
    ensures only_read { D.tells disk
        → OnlyRead D.content D.images D.moment D.images_since disk (disk_of result) }
    ensures answer { D.tells disk → OpensAs D.content D.images result }
    ensures sound { (durable entries : _) → result ≡ IsOpen durable entries → durable.sound ≡ true }
    ensures told { D.tells disk ↔ D.tells (disk_of result) }
    ensures fault { (d : _) → result ≡ DiskFault d → Rose (D.faults disk) (D.faults d) }
    ensures never_falls { D.faults disk ≤ D.faults (disk_of result) }
{
    let mut disk = disk;
    let bytes = match read_all(alloc, &mut disk) {
        Ok(bytes) => bytes,
        Err(Unread::Fault) => return Opened::DiskFault(disk),
        Err(Unread::Memory) => return Opened::Memory(disk),
    };
    match read_blocks(alloc, &bytes) {
        Ok(Reading::Whole { entries, gate }) => {
            Opened::Ok(Durable::at(alloc, disk, gate), entries)
        }
        Ok(Reading::Damaged { offset }) => Opened::Damaged { disk, offset },
        Err(_) => Opened::Memory(disk),
    }
}

/// All the bytes of the disk, once they are durable.
fn read_all<D: Disk>(alloc: Global, disk: &mut D) -> Result<Vec<u8>, Unread>
    ensures only_read { D.tells disk.old
        → OnlyRead D.content D.images D.moment D.images_since disk.old disk.new }
    ensures bytes { IfOk result (λ bytes. D.tells disk.old → bytes.items ≡ D.content disk.new) }
    ensures durable { IfOk result (λ bytes. D.tells disk.old → Only (D.content disk.new) (D.images disk.new)) }
    ensures told { D.tells disk.old ↔ D.tells disk.new }
    ensures fault { IsErrOf result Unread.Fault → Rose (D.faults disk.old) (D.faults disk.new) }
    ensures never_falls { D.faults disk.old ≤ D.faults disk.new }
{
    disk.sync()?;
    let len = disk.length()?;
    let mut bytes = vec![in alloc; 0u8; len as usize]?;
    let count = disk.read_at(0, &mut bytes)?;
    bytes.truncate(count);
    Ok(bytes)
}
