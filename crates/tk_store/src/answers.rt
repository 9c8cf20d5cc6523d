/// What came of an entry that makes an object. Versions and holders are positions in the journal, from 1.
#[derive(Clone, Copy, Debug, PartialEq, Eq)]
pub enum Create {
    /// The entry was added, at this position.
    Ok { version: u64 },
    /// The name is taken: `holder` is the entry that made the object, and `version` the object's version now.
    Exists { holder: u64, version: u64 },
    /// There was no room.
    Memory,
}

/// What came of an entry that changes an object.
#[derive(Clone, Copy, Debug, PartialEq, Eq)]
pub enum Update {
    /// The entry was added, at this position.
    Ok { version: u64 },
    /// The object has this version, which is newer than the expected one.
    Conflict { found: u64 },
    /// There was no room.
    Memory,
}
