//! A journal in a file of the machine.
use crate::making::{file_of, opened_on, start};
use std::fs::{File, Metadata, OpenFile};
use std::io::ErrorKind;
use std::os::unix::fs::FileExt;
use std::test::*;
use std::{env, fs, io, process};
use tk_durable::{Append, Created, Opened, create, open};
use tk_system::FileDisk;

/// A file that gives and takes at most seven bytes at a call, and fails from a place on.
#[derive(Drop)]
struct Halting {
    file: File,
    until: u64,
}

impl FileExt for Halting {
    fn read_at(&self, buf: &mut [u8], offset: u64) -> io::Result<usize> {
        if offset >= self.until {
            return Err(io::Error::from(ErrorKind::Other));
        }
        let most = buf.len().min(7);
        self.file.read_at(&mut buf[..most], offset)
    }

    fn write_at(&self, buf: &[u8], offset: u64) -> io::Result<usize> {
        if offset >= self.until {
            return Err(io::Error::from(ErrorKind::Other));
        }
        let most = buf.len().min(7);
        self.file.write_at(&buf[..most], offset)
    }
}

impl OpenFile for Halting {
    fn metadata(&self) -> io::Result<Metadata> {
        self.file.metadata()
    }

    fn set_len(&self, size: u64) -> io::Result<()> {
        self.file.set_len(size)
    }

    fn sync_all(&self) -> io::Result<()> {
        self.file.sync_all()
    }

    fn sync_data(&self) -> io::Result<()> {
        self.file.sync_data()
    }
}

/// The file, made anew or as it is.
fn file(rt: &HostRuntime, path: &str, anew: bool) -> io::Result<File> {
    File::options()
        .read(true)
        .write(true)
        .create(anew)
        .truncate(anew)
        .open(rt, path)
}

/// The file, as it is, which fails from a place on.
fn halting_disk(rt: &HostRuntime, path: &str, until: u64) -> io::Result<FileDisk<Halting>> {
    let file = file(rt, path, false)?;
    Ok(FileDisk::new(Halting { file, until }))
}

/// What an append to the journal of the file says, which fails from a place on, and how many entries the journal had.
fn one_more(
    rt: &HostRuntime,
    path: &str,
    moment: u64,
    until: u64,
) -> Result<Option<(usize, Append)>, Fail> {
    let alloc = rt.alloc();
    let Opened::Ok(mut durable, entries) = open(alloc, halting_disk(rt, path, until)?) else {
        return Ok(None);
    };
    let entry = start(alloc, moment)?;
    Ok(Some((entries.len(), durable.append(&entry))))
}

#[test]
fn a_file_keeps_entries(rt: HostRuntime) -> Result<(), Fail> {
    let alloc = rt.alloc();
    let folder = env::temp_dir(&rt)?;
    let id = process::id(rt.process());
    let path = format!(in alloc; "{}/wafnjold {id} journal", folder.as_str())?;
    let path = path.as_str();
    let disk = FileDisk::new(file(&rt, path, true)?);
    assert!(rt; matches!(create(alloc, disk), Created::Ok(_)));
    for moment in 0..3u64 {
        let more = one_more(&rt, path, moment, u64::MAX)?;
        assert!(rt; more == Some((moment as usize, Append::Ok)));
    }
    let three = file_of(alloc, 3)?;
    assert_eq!(rt; fs::read(&rt, path)?.as_slice(), three.as_slice());
    let end = three.len() as u64;
    // Within the block, and at the first byte that is read.
    assert!(rt; one_more(&rt, path, 3, end.saturating_add(50))? == Some((3, Append::DiskFault)));
    for (until, wanted) in [
        (0, "disk fault"),
        (100, "disk fault"),
        (u64::MAX, "3 entries"),
    ] {
        let told = opened_on(alloc, halting_disk(&rt, path, until)?)?;
        assert_eq!(rt; told.as_str(), wanted, "until {until}");
    }
    fs::remove_file(&rt, path)?;
    Ok(())
}
