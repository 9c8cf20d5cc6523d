ghost use Rattle.std.specs.Prelude.{◌≡◌, ◌<◌, ◌^◌, ◌↔◌, ◌++◌, ◌≤◌, [], ◌∷◌, List, IfOk, length, true, false};
ghost use Rattle.tk_disk.specs.Disk.{LeavesOnly, Rose};
ghost use Rattle.tk_durable.specs.History.{HoldsFile, IsFileWithOrWithout};
ghost use Rattle.tk_durable.specs.Journal.{sized};
ghost use Rattle.tk_journal.specs.declared.entry.Entry.{Entry as AnEntry};
ghost use Rattle.tk_payload.specs.Fits.{IsEntry};
ghost use Rattle.tk_payload.specs.Forms.{entry_text};

use crate::gate::add;
use std::alloc::{AllocError, Global};
use std::marker::Model;
use tk_disk::{Disk, Failed};
use tk_journal::Entry;
use tk_payload::entry_bytes;

/// What an append did. After a fault of the disk the file is opened again; after want of memory nothing changed.
#[derive(Clone, Copy, Debug, PartialEq, Eq)]
pub enum Append {
    Ok,
    DiskFault,
    Memory,
}

/// A journal file that is open. Contracts see its disk, and whether it is sound.
#[derive(Drop)]
pub struct Durable<D: Disk> {
    alloc: Global,
    disk: D,
    gate: u64,
    sound: bool,
}

impl<D: Disk> Model for Durable<D> {
    ghost use Rattle.tk_durable.specs.Durable.{DurableValue, IsSettled};

    ghost Value = { DurableValue D };

    ghost view = { λ d. record { disk = d.disk; sound = d.sound } };

    // While it is sound, a disk that tells holds a journal whose last gate stands at `gate`.
    ghost invariant = { λ d. IsSettled D.tells D.content D.images d.disk d.gate d.sound };
}

impl<D: Disk> Durable<D> {
    ghost use Rattle.tk_durable.specs.Durable.{IsSettled};

    /// A journal whose last gate stands there.
    pub(crate) fn at(alloc: Global, disk: D, gate: u64) -> Self
        requires { IsSettled D.tells D.content D.images disk gate true }
        ensures disk { result.disk ≡ disk }
        ensures sound { result.sound ≡ true }
    {
        Durable {
            alloc,
            disk,
            gate,
            sound: true,
        }
    }

    /// Whether no append of this value has answered a fault of the disk.
    pub fn is_sound(&self) -> bool
        ensures { result ≡ self.now.sound }
    {
        self.sound
    }

    /// The disk as it stands.
    pub fn into_disk(self) -> D
        ensures { result ≡ self.disk }
    {
        self.disk
    }

    /// Adds an entry to a history, the newest entry first. After Ok each crash leaves it. It is Memory too where the file
    /// would be longer than 2^64 bytes.
    pub fn append(&mut self, entry: &Entry) -> Append
        requires sound { self.old.sound ≡ true }

        // A crash at any moment of the call leaves the history from before it, with the new entry or without.
        ensures any_moment { D.tells self.old.disk → (history : List AnEntry)
            → HoldsFile history (D.content self.old.disk) (D.images self.old.disk)
            → LeavesOnly D.moment D.images_since self.old.disk self.new.disk (IsFileWithOrWithout history entry.now) }

        ensures appended { result ≡ Append.Ok → D.tells self.old.disk → (history : List AnEntry)
            → HoldsFile history (D.content self.old.disk) (D.images self.old.disk)
            → HoldsFile (entry.now ∷ history) (D.content self.new.disk) (D.images self.new.disk) }

        ensures memory { result ≡ Append.Memory → self.new ≡ self.old }
        ensures fault { result ≡ Append.DiskFault → Rose (D.faults self.old.disk) (D.faults self.new.disk) }
        ensures never_falls { D.faults self.old.disk ≤ D.faults self.new.disk }
        ensures told { D.tells self.old.disk ↔ D.tells self.new.disk }
        ensures sound_after { self.new.sound ≡ false ↔ result ≡ Append.DiskFault }
    {
        let Ok(bytes) = block(self.alloc, entry) else {
            return Append::Memory;
        };
        let Some(next) = self.gate.checked_add(bytes.len() as u64) else {
            return Append::Memory;
        };
        match add(&mut self.disk, self.gate, &bytes) {
            Ok(()) => {
                self.gate = next;
                Append::Ok
            }
            Err(Failed) => {
                self.sound = false;
                Append::DiskFault
            }
        }
    }
}

/// The length of an entry's text, the text and a closed gate.
fn block(alloc: Global, entry: &Entry) -> Result<Vec<u8>, AllocError>
    ensures bytes { IfOk result (λ bytes. bytes.items ≡ sized (entry_text entry.now) ++ 0 ∷ []) }
    ensures entry { IfOk result (λ _. IsEntry entry.now) }
    ensures fits { IfOk result (λ _. length (entry_text entry.now) < 2 ^ 64) }
{
    let text = entry_bytes(alloc, entry)?;
    let payload = text.as_slice();
    let mut bytes = Vec::new(alloc);
    bytes.extend_from_slice(&(payload.len() as u64).to_le_bytes())?;
    bytes.extend_from_slice(payload)?;
    bytes.push(0)?;
    Ok(bytes)
}
