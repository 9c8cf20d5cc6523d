ghost use Rattle.std.specs.Prelude.{◌≡◌, bytes_eq, IfOk};
ghost use Rattle.tk_edge.specs.Files.{broken, is_under};

use std::alloc::{AllocError, Global};
use tk_types::{Bytes, Text};

/// What stands behind the name of a step's file, where the step broke.
const BROKEN: &str = ".err";

/// The path of a step's file, where the step broke.
pub fn broken(alloc: Global, path: &str) -> Result<Text, AllocError>
    ensures { IfOk result (λ text. text ≡ broken path.now) }
{
    let mut text = String::from_str(alloc, path)?;
    text.push_str(BROKEN)?;
    Ok(Text::from_string(text))
}

/// Whether a path is that of a step's file, where the step broke.
pub(crate) fn is_broken(path: &[u8], file: &[u8]) -> bool
    ensures { result ≡ bytes_eq path.now (broken file.now) }
{
    match path.strip_prefix(file) {
        Some(rest) => rest == BROKEN.as_bytes(),
        None => false,
    }
}

/// A copy of these bytes.
pub fn bytes_of(alloc: Global, bytes: &[u8]) -> Result<Bytes, AllocError>
    ensures { IfOk result (λ copy. copy ≡ bytes.now) }
{
    Ok(Bytes::from_vec(Vec::from_slice(alloc, bytes)?))
}

/// Whether the path is below the folder.
pub fn is_under(folder: &str, path: &str) -> bool
    ensures { result ≡ is_under folder.now path.now }
{
    let folder = folder.as_bytes();
    let path = path.as_bytes();
    match path.get(folder.len()) {
        Some(byte) => *byte == b'/' && path.starts_with(folder),
        None => false,
    }
}
