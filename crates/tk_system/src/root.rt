//! The folder below which all files of a run stand. It belongs to the user alone, and to one run at a time.
use crate::files::{Trouble, is_absent, make_folder, remove_folder};
use std::alloc::{AllocError, Global};
use std::fmt::{Display, Formatter};
use std::fs::{File, OpenOptions, TryLockError};
use std::os::unix::fs::{MetadataExt, OpenOptionsExt, PermissionsExt};
use std::rt::Files;
use std::{fmt, fs, io};
use tk_types::Text;

/// What tells a process's own user.
const SELF: &str = "/proc/self";

/// The bits by which others than its user may write a file.
const OTHERS_WRITE: u32 = 0o022;

/// Why a root can't be had.
#[derive(Drop)]
pub enum RootError {
    Memory,
    /// A file or a link stands there.
    NoFolder,
    /// It is another user's.
    Foreign,
    /// Others may write it.
    Open,
    /// Another run has it.
    Busy,
    System(io::Error),
}

impl From<AllocError> for RootError {
    fn from(_error: AllocError) -> Self {
        RootError::Memory
    }
}

impl From<io::Error> for RootError {
    fn from(error: io::Error) -> Self {
        match Trouble::from(error) {
            Trouble::System(error) => RootError::System(error),
            _ => RootError::Memory,
        }
    }
}

impl Display for RootError {
    fn fmt<W: fmt::Write>(&self, f: &mut Formatter<W>) -> fmt::Result {
        match self {
            RootError::Memory => f.write_str("there is not enough memory"),
            RootError::NoFolder => {
                f.write_str("a file or a link stands there; give another --root, or remove it")
            }
            RootError::Foreign => {
                f.write_str(
                    "it is another user's, who could change the scripts; give a --root of your own",
                )
            }
            RootError::Open => f.write_str(
                "others may write it and could change the scripts; `chmod go-w` it, or give another --root",
            ),
            RootError::Busy => {
                f.write_str("another run has it; wait for its end, or give another --root")
            }
            RootError::System(error) => { write!(f, "{error}; give a --root that you may write") }
        }
    }
}

/// A root that was had: nobody else has it as long as this is there.
#[derive(Drop)]
pub struct Root {
    folder: Text,
    _lock: File,
}

/// A path below a folder.
fn below(alloc: Global, folder: &str, name: &str) -> Result<Text, AllocError> {
    Ok(Text::from_string(format!(in alloc; "{folder}/{name}")?))
}

/// Sees that a folder stands there, which is no link, belongs to this user and can be written by nobody else.
fn check_folder<R: Files>(rt: &R, folder: &str) -> Result<(), RootError> {
    let metadata = rt.symlink_metadata(folder)?;
    if !metadata.is_dir() {
        return Err(RootError::NoFolder);
    }
    if metadata.uid() != rt.metadata(SELF)?.uid() {
        return Err(RootError::Foreign);
    }
    if metadata.permissions().mode() & OTHERS_WRITE != 0 {
        return Err(RootError::Open);
    }
    Ok(())
}

/// Opens the file whose lock says who has a root. A link isn't followed.
fn open_lock<R: Files<File = File>>(rt: &R, path: &str) -> Result<File, RootError> {
    match rt.symlink_metadata(path) {
        Ok(metadata) if !metadata.is_file() => return Err(RootError::NoFolder),
        Ok(_) => {}
        Err(error) if is_absent(error.kind()) => {}
        Err(error) => return Err(RootError::from(error)),
    }
    let mut how = OpenOptions::new();
    how.write(true);
    how.create(true);
    how.mode(0o600);
    Ok(how.open(rt, path)?)
}

/// Takes the root: makes the folder where it isn't there, sees that it is safe, and locks it, so that no other run has it as
/// long as the answer is there. Children that are started don't have the lock.
pub fn claim<R: Files<File = File>>(
    rt: &R,
    alloc: Global,
    folder: &str,
) -> Result<Root, RootError> {
    match rt.symlink_metadata(folder) {
        Ok(_) => {}
        Err(error) if is_absent(error.kind()) => make_folder(rt, folder)?,
        Err(error) => return Err(RootError::from(error)),
    }
    check_folder(rt, folder)?;
    let path = below(alloc, folder, ".lock")?;
    let lock = open_lock(rt, path.as_str())?;
    match lock.try_lock() {
        Ok(()) => {}
        Err(TryLockError::WouldBlock) => return Err(RootError::Busy),
        Err(TryLockError::Error(error)) => return Err(RootError::from(error)),
    }
    Ok(Root {
        folder: Text::from_str(alloc, folder)?,
        _lock: lock,
    })
}

impl Root {
    /// A new folder for what a host moves away, of this number.
    pub fn make_old<R: Files>(
        &self,
        rt: &R,
        alloc: Global,
        number: u32,
    ) -> Result<Text, RootError> {
        let folder = self.folder.as_str();
        let old = Text::from_string(format!(in alloc; "{folder}/.old/{number}")?);
        remove_folder(rt, alloc, old.as_str())?;
        make_folder(rt, old.as_str())?;
        Ok(old)
    }

    /// Removes what the hosts moved away, as far as that goes.
    pub fn remove_old<R: Files>(&self, rt: &R, alloc: Global) {
        if let Ok(old) = below(alloc, self.folder.as_str(), ".old") {
            let _ = remove_folder(rt, alloc, old.as_str());
        }
    }

    /// Removes the folder of a pod, as far as that goes.
    pub fn remove_pod<R: Files>(&self, rt: &R, alloc: Global, pod: &str) {
        if let Ok(folder) = below(alloc, self.folder.as_str(), pod) {
            let _ = remove_folder(rt, alloc, folder.as_str());
        }
    }
}
