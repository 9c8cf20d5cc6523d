ghost use Rattle.std.specs.Prelude.{◌≡◌, ◌-◌, ◌^◌, min, bytes_eq, find, option_map};
ghost use Rattle.std.specs.Option.{option_copied};
ghost use Rattle.tk_results.specs.Gathered.{file_of, total_of};

use tk_types::{Bytes, ResultSpec, Text};

/// A result file as it was fetched, by the name of its result; without bytes the file is missing.
#[derive(Drop)]
pub struct Fetched {
    pub name: Text,
    pub bytes: Option<Bytes>,
}

/// The first file of a name.
fn file_named<'a>(files: &'a [Fetched], name: &str) -> Option<&'a Fetched>
    ensures { option_copied result ≡ find (λ f. bytes_eq f.name name.now) files.now }
{
    files.iter().find(|file| file.name.as_str() == name)
}

/// The bytes of the first file of a name, if it isn't missing.
pub(crate) fn file_of<'a>(files: &'a [Fetched], name: &str) -> Option<&'a [u8]>
    ensures { option_map (λ b. b.now) result ≡ file_of files.now name.now }
{
    let file = file_named(files, name)?;
    let bytes = file.bytes.as_ref()?;
    Some(bytes.as_slice())
}

/// How many bytes the files of declared results hold together, where more than 2^64 - 1 are given as that number.
pub(crate) fn count_bytes(specs: &[ResultSpec], files: &[Fetched]) -> u64
    ensures { result ≡ min (total_of specs.now files.now) (2 ^ 64 - 1) }
{
    let mut count: u64 = 0;
    for spec in specs {
        if let Some(bytes) = file_of(files, spec.name.as_str()) {
            count = count.saturating_add(bytes.len() as u64);
        }
    }
    count
}
