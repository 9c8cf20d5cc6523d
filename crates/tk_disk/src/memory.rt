ghost use Rattle.std.specs.Prelude.{◌≡◌, ◌≤◌, ◌<◌, ◌++◌, ◌∷◌, [], List, ℕ, length, true, false, Contains, IfOk, OnOk, OnErr};
ghost use Rattle.tk_disk.specs.Disk.{Only, Rose, over};
ghost use Rattle.tk_disk.specs.Memory.{Leaves, LeftSince};

use crate::disk::{Disk, Failed};
use std::alloc::{AllocError, Global};
use std::marker::Model;

/// What was asked of a disk: a read here into room for so many bytes, a write here of so many.
#[derive(Clone, Copy, Debug, PartialEq, Eq)]
pub enum Call {
    Length,
    Read { at: u64, room: usize },
    Write { at: u64, len: usize },
    Sync,
}

/// What a call did to the images.
#[derive(Drop)]
pub enum Step {
    /// A write here, of so many bytes.
    Torn { at: u64, len: usize },
    /// A sync, when these were the bytes.
    Settled(Vec<u8>),
}

/// A disk in memory, of which the scripted calls fail; want of memory fails too. It tells each image that a crash may
/// leave, and keeps a list of its calls.
#[derive(Drop)]
pub struct MemDisk {
    alloc: Global,
    start: Vec<u8>,
    bytes: Vec<u8>,
    steps: Vec<Step>,
    failing: Vec<u64>,
    calls: Vec<Call>,
    faults: u64,
}

impl Model for MemDisk {
    ghost use Rattle.tk_disk.specs.Memory.{Leaves, MemoryValue};

    ghost Value = { MemoryValue };

    ghost view = { λ m. record { start = m.start.items; steps = m.steps.items; bytes = m.bytes.items; calls = m.calls.items; faults = m.faults } };

    ghost invariant = { λ m. Leaves m.start.items m.steps.items m.bytes.items };
}

impl MemDisk {
    /// A disk with these bytes, all of them durable. `failing` has the numbers of the calls that fail, counted from 0.
    pub fn new(alloc: Global, bytes: Vec<u8>, failing: Vec<u64>) -> Result<Self, AllocError>
        ensures content { IfOk result (λ disk. ⟦<MemDisk as Disk>⟧.content disk ≡ bytes.items) }
        ensures tells { IfOk result (λ disk. ⟦<MemDisk as Disk>⟧.tells disk) }
        ensures durable { IfOk result (λ disk. Only bytes.items (⟦<MemDisk as Disk>⟧.images disk)) }
        ensures calls { IfOk result (λ disk. disk.calls ≡ []) }
    {
        let start = Vec::from_slice(alloc, bytes.as_slice())?;
        Ok(MemDisk {
            alloc,
            start,
            bytes,
            steps: Vec::new(alloc),
            failing,
            calls: Vec::new(alloc),
            faults: 0,
        })
    }

    /// The bytes that a read gives.
    pub fn bytes(&self) -> &[u8]
        ensures { result.now ≡ ⟦<MemDisk as Disk>⟧.content self.now }
    {
        self.bytes.as_slice()
    }

    /// Its calls, the first one first.
    pub fn calls(&self) -> &[Call]
        ensures { result.now ≡ self.now.calls }
    {
        self.calls.as_slice()
    }
}

/// Notes one more call, and counts a fault where it is to fail.
fn fails(failing: &[u64], calls: &mut Vec<Call>, call: Call, faults: &mut u64) -> bool
    ensures noted { result ≡ false → calls.new.items ≡ calls.old.items ++ call ∷ [] }
    ensures scripted { Contains failing.now (length calls.old.items) → result ≡ true }
    ensures rose { result ≡ true → Rose faults.old faults.new }
    ensures never_falls { faults.old ≤ faults.new }
{
    let scripted = failing.contains(&(calls.len() as u64));
    let noted = calls.push(call).is_ok();
    let fails = scripted || !noted;
    if fails {
        *faults = faults.saturating_add(1);
    }
    fails
}

/// Notes one more step. The only error is want of memory; nothing changed then.
fn note(steps: &mut Vec<Step>, step: Step) -> Result<(), AllocError>
    ensures ok { OnOk result (steps.new.items ≡ steps.old.items ++ step ∷ []) }
    ensures err { OnErr result (steps.new.items ≡ steps.old.items) }
{
    if steps.push(step).is_err() {
        return Err(AllocError);
    }
    Ok(())
}

/// These bytes with others written over them.
fn written(alloc: Global, old: &[u8], at: usize, bytes: &[u8]) -> Result<Vec<u8>, AllocError>
    requires { at ≤ length old.now }
    ensures { IfOk result (λ new. new.items ≡ over old.now at bytes.now) }
{
    let mut new = Vec::from_slice(alloc, &old[..at])?;
    new.extend_from_slice(bytes)?;
    if bytes.len() < old.len() - at {
        new.extend_from_slice(&old[at + bytes.len()..])?;
    }
    Ok(new)
}

impl Disk for MemDisk {
    ghost use Rattle.std.proofs.Common.{inl};
    ghost use Rattle.tk_disk.specs.Memory.{only_since};

    // that its content is an image, which is always so
    ghost tells = { λ m. Leaves m.start m.steps m.bytes };

    ghost content = { λ m. m.bytes };

    ghost images = { λ m. Leaves m.start m.steps };

    ghost moment = { λ m. length m.steps };

    ghost images_since = { λ m. LeftSince m.start m.steps };

    ghost faults = { λ m. m.faults };

    ghost content_is_image = { λ m tells. tells };

    ghost counts_now = { λ m t c tells le now. inl now };

    ghost only_now = { λ m c tells since. only_since m.start m.steps c since };

    fn length(&mut self) -> Result<u64, Failed> {
        if fails(
            &self.failing,
            &mut self.calls,
            Call::Length,
            &mut self.faults,
        ) {
            return Err(Failed);
        }
        Ok(self.bytes.len() as u64)
    }

    fn read_at(&mut self, at: u64, buf: &mut [u8]) -> Result<usize, Failed> {
        let room = buf.len();
        if fails(
            &self.failing,
            &mut self.calls,
            Call::Read { at, room },
            &mut self.faults,
        ) {
            return Err(Failed);
        }
        if at >= self.bytes.len() as u64 {
            return Ok(0);
        }
        let from = &self.bytes[at as usize..];
        let count = from.len().min(buf.len());
        buf[..count].copy_from_slice(&from[..count]);
        Ok(count)
    }

    fn write_at(&mut self, at: u64, bytes: &[u8]) -> Result<(), Failed> {
        let len = bytes.len();
        let fails = fails(
            &self.failing,
            &mut self.calls,
            Call::Write { at, len },
            &mut self.faults,
        );
        let Ok(new) = written(self.alloc, &self.bytes, at as usize, bytes) else {
            self.faults = self.faults.saturating_add(1);
            return Err(Failed);
        };
        let Ok(()) = note(&mut self.steps, Step::Torn { at, len }) else {
            self.faults = self.faults.saturating_add(1);
            return Err(Failed);
        };
        if fails {
            return Err(Failed);
        }
        self.bytes = new;
        Ok(())
    }

    fn sync(&mut self) -> Result<(), Failed> {
        if fails(&self.failing, &mut self.calls, Call::Sync, &mut self.faults) {
            return Err(Failed);
        }
        let Ok(bytes) = Vec::from_slice(self.alloc, self.bytes.as_slice()) else {
            self.faults = self.faults.saturating_add(1);
            return Err(Failed);
        };
        let Ok(()) = note(&mut self.steps, Step::Settled(bytes)) else {
            self.faults = self.faults.saturating_add(1);
            return Err(Failed);
        };
        Ok(())
    }
}
