ghost use Rattle.std.specs.Prelude.{◌≡◌, ◌++◌, codes, IfOk, IfSome};
ghost use Rattle.std.specs.Fmt.{decimal};
ghost use Rattle.tk_process.specs.Processes.{IsIn, IsStarter, starting as starting_of};

use std::alloc::{AllocError, Global};
use tk_edge::Host;
use tk_enter::PARENT;
use tk_types::{List, Pair, Text};

/// How the process of an entry is started: the words before its own, and the variable that tells the number of this process.
#[derive(Drop)]
pub(crate) struct Starter {
    pub(crate) words: List<Text>,
    pub(crate) parent: Pair,
}

/// A file in a folder.
pub(crate) fn in_folder(alloc: Global, folder: &str, name: &str) -> Result<Text, AllocError>
    ensures { IfOk result (λ file. file ≡ folder.now ++ codes "/" ++ name.now) }
{
    let mut path = String::from_str(alloc, folder)?;
    path.push_str("/")?;
    path.push_str(name)?;
    Ok(Text::from_string(path))
}

/// The file of this name in the first of the folders that has one. The folders are whole paths, separated by colons.
fn find<H: Host>(
    alloc: Global,
    host: &mut H,
    folders: &str,
    name: &str,
) -> Result<Option<Text>, AllocError>
    ensures { IfOk result (λ found. IfSome found (IsIn name.now)) }
{
    for folder in folders.split(':') {
        if folder.starts_with('/') {
            let file = in_folder(alloc, folder, name)?;
            if let Ok(true) = host.look(file.as_str()) {
                return Ok(Some(file));
            }
        }
    }
    Ok(None)
}

/// The words that start the program, by `setsid` where that was found.
fn starting(alloc: Global, setsid: Option<Text>, program: &str) -> Result<List<Text>, AllocError>
    ensures { IfOk result (λ words. words ≡ starting_of setsid program.now) }
{
    let mut words = List::new(alloc);
    match setsid {
        Some(setsid) => {
            words.push(setsid)?;
            words.push(Text::from_str(alloc, program)?)?;
            Ok(words)
        }
        None => {
            words.push(Text::from_str(alloc, program)?)?;
            Ok(words)
        }
    }
}

/// The variable that tells the number of the parent.
fn parent_pair(alloc: Global, parent: u32) -> Result<Pair, AllocError>
    ensures key { IfOk result (λ pair. pair.key ≡ codes "TKN_PARENT") }
    ensures value { IfOk result (λ pair. pair.value ≡ decimal parent) }
{
    Ok(Pair {
        key: Text::from_str(alloc, PARENT)?,
        value: Text::from_string(format!(in alloc; "{parent}")?),
    })
}

impl Starter {
    /// The program at this path, a whole path, in a session of its own where one of the folders has `setsid`.
    pub(crate) fn new<H: Host>(
        alloc: Global,
        host: &mut H,
        folders: &str,
        program: &str,
        parent: u32,
    ) -> Result<Starter, AllocError>
        ensures { IfOk result (IsStarter program.now parent) }
    {
        let setsid = find(alloc, host, folders, "setsid")?;
        Ok(Starter {
            words: starting(alloc, setsid, program)?,
            parent: parent_pair(alloc, parent)?,
        })
    }
}
