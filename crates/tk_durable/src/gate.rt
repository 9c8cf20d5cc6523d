ghost use Rattle.std.specs.Prelude.{◌≡◌, ◌<◌, ◌≤◌, ◌+◌, ◌^◌, ◌↔◌, length, OnOk, OnErr};
ghost use Rattle.tk_disk.specs.Disk.{LeavesOnly, Only, Rose};
ghost use Rattle.tk_durable.specs.Gates.{IsAdded, IsAddedOrNot};

use tk_disk::{Disk, Failed};

/// Writes the bytes behind a closed gate, and then opens it, with a sync after each.
pub(crate) fn add<D: Disk>(disk: &mut D, gate: u64, bytes: &[u8]) -> Result<(), Failed>
    requires room { gate + 1 < 2 ^ 64 }
    requires long { D.tells disk.old → gate + 1 ≤ length (D.content disk.old) }
    requires durable { D.tells disk.old → Only (D.content disk.old) (D.images disk.old) }

    // A crash at any moment leaves the bytes behind a gate that is open or not, or nothing of them where it matters.
    ensures any_moment { D.tells disk.old
        → LeavesOnly D.moment D.images_since disk.old disk.new (IsAddedOrNot gate (D.content disk.old) bytes.now) }

    ensures added { OnOk result (D.tells disk.old → IsAdded gate (D.content disk.old) bytes.now (D.content disk.new)) }
    ensures durable_after { OnOk result (D.tells disk.old → Only (D.content disk.new) (D.images disk.new)) }
    ensures told { D.tells disk.old ↔ D.tells disk.new }
    ensures failed { OnErr result (Rose (D.faults disk.old) (D.faults disk.new)) }
    ensures never_falls { D.faults disk.old ≤ D.faults disk.new }
{
    disk.write_at(gate + 1, bytes)?;
    disk.sync()?;
    disk.write_at(gate, &[1])?;
    disk.sync()
}
