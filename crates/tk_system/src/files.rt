//! Files and folders of the machine, and why a call on them failed.
use std::alloc::{AllocError, Global};
use std::fmt::{Display, Formatter};
use std::fs::{DirBuilder, OpenOptions};
use std::io::{ErrorKind, Read, Write};
use std::os::unix::fs::{DirBuilderExt, OpenOptionsExt};
use std::path::Path;
use std::rt::Files;
use std::{fmt, fs, io};
use tk_types::Bytes;

/// Who may do what with a folder or a file that is made here: its user alone.
const OWN: u32 = 0o700;

/// Why a call of the machine failed.
#[derive(Drop)]
pub(crate) enum Trouble {
    Memory,
    /// Something other than a plain file stands there.
    Taken,
    System(io::Error),
}

impl From<AllocError> for Trouble {
    fn from(_error: AllocError) -> Self {
        Trouble::Memory
    }
}

impl From<io::Error> for Trouble {
    fn from(error: io::Error) -> Self {
        match error.kind() {
            ErrorKind::OutOfMemory => Trouble::Memory,
            _ => Trouble::System(error),
        }
    }
}

impl Display for Trouble {
    fn fmt<W: fmt::Write>(&self, f: &mut Formatter<W>) -> fmt::Result {
        match self {
            Trouble::Memory => f.write_str("there is not enough memory"),
            Trouble::Taken => f.write_str("something other than a file stands there"),
            Trouble::System(error) => Display::fmt(error, f),
        }
    }
}

impl Trouble {
    /// What a person can do where a file or a folder is the trouble.
    pub(crate) fn advice(&self) -> &'static str {
        match self {
            Trouble::System(error) => match error.kind() {
                ErrorKind::StorageFull | ErrorKind::QuotaExceeded =>
                    "free the disk, or give another --root",
                ErrorKind::PermissionDenied | ErrorKind::ReadOnlyFilesystem => {
                    "give a --root that you may write"
                }
                _ => "see what a step left there",
            },
            _ => "see what a step left there",
        }
    }
}

/// Nothing stands at the path.
pub(crate) fn is_absent(kind: ErrorKind) -> bool {
    matches!(kind, ErrorKind::NotFound | ErrorKind::NotADirectory)
}

/// Whether a plain file stands at the path.
pub(crate) fn is_plain<R: Files>(rt: &R, path: &str) -> Result<bool, Trouble> {
    match rt.metadata(path) {
        Ok(metadata) => Ok(metadata.is_file()),
        Err(error) if is_absent(error.kind()) => Ok(false),
        Err(error) => Err(Trouble::from(error)),
    }
}

/// Whether something other than a plain file stands at the path. To open a pipe would wait for its other end.
fn is_taken<R: Files>(rt: &R, path: &str) -> bool {
    match rt.metadata(path) {
        Ok(metadata) => !metadata.is_file(),
        Err(_) => false,
    }
}

/// Makes the folder and those above it, where they aren't there.
pub(crate) fn make_folder<R: Files>(rt: &R, folder: &str) -> io::Result<()> {
    let mut builder = DirBuilder::new();
    builder.recursive(true);
    builder.mode(OWN);
    builder.create(rt, folder)
}

/// Writes the file in a folder that is there.
fn write_in<R: Files>(rt: &R, path: &str, bytes: &[u8]) -> io::Result<()> {
    let mut how = OpenOptions::new();
    how.write(true);
    how.create(true);
    how.truncate(true);
    how.mode(OWN);
    let mut file = how.open(rt, path)?;
    file.write_all(bytes)
}

/// Writes the file, and makes the folders above it only where they aren't there.
pub(crate) fn write_file<R: Files>(rt: &R, path: &str, bytes: &[u8]) -> Result<(), Trouble> {
    if is_taken(rt, path) {
        return Err(Trouble::Taken);
    }
    match write_in(rt, path, bytes) {
        Ok(()) => return Ok(()),
        Err(error) if error.kind() == ErrorKind::NotFound => {}
        Err(error) => return Err(Trouble::from(error)),
    }
    if let Some(folder) = Path::new(path).parent() {
        make_folder(rt, folder.as_str())?;
    }
    write_in(rt, path, bytes)?;
    Ok(())
}

/// Removes the folder with all in it, where it is there.
pub(crate) fn remove_folder<R: Files>(rt: &R, alloc: Global, folder: &str) -> io::Result<()> {
    match rt.remove_dir_all(alloc, folder) {
        Ok(()) => Ok(()),
        Err(error) if is_absent(error.kind()) => Ok(()),
        Err(error) => Err(error),
    }
}

/// The file's first bytes.
pub(crate) fn read_file<R: Files>(
    rt: &R,
    alloc: Global,
    path: &str,
    limit: u64,
) -> Result<Option<Bytes>, Trouble> {
    if !is_plain(rt, path)? {
        return Ok(None);
    }
    let file = match fs::open(rt, path) {
        Ok(file) => file,
        Err(error) if is_absent(error.kind()) => return Ok(None),
        Err(error) => return Err(Trouble::from(error)),
    };
    let mut bytes = Vec::new(alloc);
    file.take(limit).read_to_end(&mut bytes)?;
    Ok(Some(Bytes::from_vec(bytes)))
}
