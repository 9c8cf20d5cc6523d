ghost use Rattle.std.specs.Prelude.{◌≡◌, ◌≤◌, ◌↔◌, ◌++◌, ◌∷◌, [], true, OnOk, OnErr};
ghost use Rattle.tk_disk.specs.Disk.{Only, Rose};
ghost use Rattle.tk_durable.specs.Journal.{head};
ghost use Rattle.tk_durable.specs.Creating.{CreatesAs, disk_of};
ghost use Rattle.tk_durable.specs.declared.creation.Created.TheVariants.{Ok as IsCreated, DiskFault};

use crate::durable::Durable;
use std::alloc::Global;
use tk_disk::{Disk, Failed};

/// What a creation gave. It takes no memory.
#[derive(Drop)]
pub enum Created<D: Disk> {
    Ok(Durable<D>),
    DiskFault(D),
}

const EMPTY: [u8; 9] = *b"TKNJRNL1\0";

/// Begins a journal on an empty disk. A crash within it may leave a file that is damaged.
pub fn create<D: Disk>(alloc: Global, disk: D) -> Created<D>
    requires empty { D.tells disk → D.content disk ≡ [] }
    ensures answer { D.tells disk → CreatesAs D.content D.images result }
    ensures sound { (durable : _) → result ≡ IsCreated durable → durable.sound ≡ true }
    ensures told { D.tells disk ↔ D.tells (disk_of result) }
    ensures fault { (d : _) → result ≡ DiskFault d → Rose (D.faults disk) (D.faults d) }
    ensures never_falls { D.faults disk ≤ D.faults (disk_of result) }
{
    let mut disk = disk;
    match begin(&mut disk) {
        Ok(()) => Created::Ok(Durable::at(alloc, disk, 8)),
        Err(Failed) => Created::DiskFault(disk),
    }
}

/// Writes the head and a closed gate.
fn begin<D: Disk>(disk: &mut D) -> Result<(), Failed>
    requires { D.tells disk.old → D.content disk.old ≡ [] }
    ensures content { OnOk result (D.tells disk.old → D.content disk.new ≡ head ++ 0 ∷ []) }
    ensures durable { OnOk result (D.tells disk.old → Only (D.content disk.new) (D.images disk.new)) }
    ensures told { D.tells disk.old ↔ D.tells disk.new }
    ensures failed { OnErr result (Rose (D.faults disk.old) (D.faults disk.new)) }
    ensures never_falls { D.faults disk.old ≤ D.faults disk.new }
{
    disk.write_at(0, &EMPTY)?;
    disk.sync()?;
    Ok(())
}
