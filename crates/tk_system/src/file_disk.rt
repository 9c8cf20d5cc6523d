ghost use Rattle.std.specs.Prelude.{◌≤◌, ◌≡◌, [], length, IfOk};

use std::fs::OpenFile;
use std::os::unix::fs::FileExt;
use tk_disk::{Disk, Failed};

/// A file as a disk, with a count of the calls that failed. It tells nothing of its bytes.
#[derive(Drop)]
pub struct FileDisk<F> {
    file: F,
    faults: u64,
}

impl<F: OpenFile + FileExt> FileDisk<F> {
    /// A disk over an open file that may be read and written.
    pub fn new(file: F) -> Self
        ensures { ⟦<FileDisk<F> as Disk>⟧.faults result ≡ 0 }
    {
        FileDisk { file, faults: 0 }
    }
}

/// Fills the buffer as far as the file goes. One read of a file may give less.
fn fill<F: FileExt>(file: &F, at: u64, buf: &mut [u8]) -> Result<usize, Failed>
    ensures room { length buf.new ≡ length buf.old }
    ensures count { IfOk result (λ n. n ≤ length buf.new) }
{
    let mut done = 0;
    while done < buf.len() {
        let Some(from) = at.checked_add(done as u64) else {
            return Err(Failed);
        };
        match file.read_at(&mut buf[done..], from) {
            Ok(0) => break,
            Ok(count) => done += count,
            Err(_) => return Err(Failed),
        }
    }
    Ok(done)
}

impl<F: OpenFile + FileExt> Disk for FileDisk<F> {
    ghost tells = { λ _. ⊥ };

    ghost content = { λ _. [] };

    ghost images = { λ _ _. ⊥ };

    ghost moment = { λ _. 0 };

    ghost images_since = { λ _ _ _. ⊥ };

    ghost faults = { λ f. f.faults };

    ghost content_is_image = { λ f tells. tells };

    ghost counts_now = { λ f t c tells le now. now };

    ghost only_now = { λ f c tells since. since };

    fn length(&mut self) -> Result<u64, Failed> {
        match self.file.metadata() {
            Ok(about) => Ok(about.len()),
            Err(_) => {
                self.faults = self.faults.saturating_add(1);
                Err(Failed)
            }
        }
    }

    fn read_at(&mut self, at: u64, buf: &mut [u8]) -> Result<usize, Failed> {
        let answer = fill(&self.file, at, buf);
        if answer.is_err() {
            self.faults = self.faults.saturating_add(1);
        }
        answer
    }

    fn write_at(&mut self, at: u64, bytes: &[u8]) -> Result<(), Failed> {
        match self.file.write_all_at(bytes, at) {
            Ok(()) => Ok(()),
            Err(_) => {
                self.faults = self.faults.saturating_add(1);
                Err(Failed)
            }
        }
    }

    fn sync(&mut self) -> Result<(), Failed> {
        match self.file.sync_data() {
            Ok(()) => Ok(()),
            Err(_) => {
                self.faults = self.faults.saturating_add(1);
                Err(Failed)
            }
        }
    }
}
