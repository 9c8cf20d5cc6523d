//! The files that stand in memory, found by their paths.
ghost use Rattle.std.specs.Prelude.{◌≡◌, ◌≤◌, ◌<◌, ℕ, List, length, bytes_eq, string_bytes, if◌then◌else◌, not, true, false, ◌+◌, ◌&&◌, ◌||◌, Option, Some, None, map, IfOk, OnOk, OnErr, [], ◌∷◌, ◌++◌};
ghost use Rattle.std.specs.Option.{is_some, option_map, option_map_or, option_or};
ghost use Rattle.std.specs.List.{list_any};
ghost use Rattle.std.specs.HashMap.{get_by_text, spare};
ghost use Rattle.std.specs.Map.{lookup};
ghost use Rattle.tk_edge.specs.Files.{is_under};
ghost use Rattle.tk_script.specs.FileTable.{AreKnown, bytes_at, is_at, is_pass, put_at};
ghost use Rattle.tk_script.specs.Folders.{may_hold};
ghost use Rattle.tk_script.specs.ScriptHost.{is_plain, result_of, results_of};

use crate::folders::Folders;
use std::alloc::{AllocError, Global};
use std::collections::HashMap;
use tk_edge::{bytes_of, is_under};
use tk_types::{Bytes, Pair, Text};

/// A file that stands, and whether a put of it is told behind the last clear.
#[derive(Drop)]
pub(crate) struct Held {
    pub bytes: Bytes,
    pub put: bool,
}

/// The files that stand, by their paths. A clear of a folder below which none stood looks at none.
#[derive(Drop)]
pub(crate) struct FileTable {
    pub held: HashMap<String, Held>,
    pub folders: Folders,
    ghost known: { AreKnown (bytes_at (get_by_text held)) (may_hold folders) },
}

impl FileTable {
    /// No file.
    pub(crate) fn new(alloc: Global) -> Self
        ensures { (q : List ℕ) → get_by_text result.held q ≡ None }
    {
        FileTable {
            held: HashMap::new(alloc),
            folders: Folders::new(alloc),
        }
    }

    /// Makes room for so many more files. After an error, too, the files are the same.
    pub(crate) fn widen(&mut self, count: usize) -> Result<(), AllocError>
        ensures room { OnOk result (count ≤ spare self.new.held) }
        ensures same { (q : List ℕ) → get_by_text self.new.held q ≡ get_by_text self.old.held q }
    {
        widen(&mut self.held, count)
    }

    /// The bytes of the file at a path.
    pub(crate) fn bytes(&self, path: &str) -> Option<&[u8]>
        ensures { option_map (λ b. b.now) result ≡ bytes_at (get_by_text self.now.held) path.now }
    {
        match self.held.get(path) {
            Some(held) => Some(held.bytes.as_slice()),
            None => None,
        }
    }

    /// Whether the path was put.
    pub(crate) fn is_put(&self, path: &str) -> bool
        ensures { result ≡ put_at (get_by_text self.now.held) path.now }
    {
        match self.held.get(path) {
            Some(held) => held.put,
            None => false,
        }
    }

    /// Writes a file where there is room, as a put or not.
    pub(crate) fn write_within(&mut self, path: String, bytes: Bytes, put: bool)
        requires { 0 < spare self.old.held }
        ensures bytes { (q : List ℕ)
            → bytes_at (get_by_text self.new.held) q ≡ (if bytes_eq q (string_bytes path) then Some bytes else bytes_at (get_by_text self.old.held) q) }
        ensures puts { (q : List ℕ)
            → put_at (get_by_text self.new.held) q ≡ ((put && bytes_eq q (string_bytes path)) || put_at (get_by_text self.old.held) q) }
        ensures room { spare self.old.held ≤ spare self.new.held + 1 }
    {
        let put = put || self.is_put(path.as_str());
        self.folders.note(path.as_str());
        let _ = self.held.insert(path, Held { bytes, put });
    }

    /// Writes a file that an entry leaves, if it leaves one, where there is room.
    pub(crate) fn leave_within(&mut self, alloc: Global, path: Option<String>)
        requires { 0 < spare self.old.held }
        ensures bytes { (q : List ℕ)
            → bytes_at (get_by_text self.new.held) q
            ≡ (if is_at q (option_map string_bytes path) then Some [] else bytes_at (get_by_text self.old.held) q) }
        ensures puts { (q : List ℕ) → put_at (get_by_text self.new.held) q ≡ put_at (get_by_text self.old.held) q }
    {
        if let Some(path) = path {
            self.write_within(path, Bytes::from_vec(Vec::new(alloc)), false);
        }
    }

    /// Writes files where there is room for all; of those with one path the first counts.
    pub(crate) fn write_all(&mut self, results: Vec<(String, Bytes)>)
        requires { length results.items ≤ spare self.old.held }
        ensures bytes { (q : List ℕ)
            → bytes_at (get_by_text self.new.held) q
            ≡ option_or (lookup (bytes_eq q) (map (λ r. (string_bytes r.0, r.1)) results.items)) (bytes_at (get_by_text self.old.held) q) }
        ensures puts { (q : List ℕ) → put_at (get_by_text self.new.held) q ≡ put_at (get_by_text self.old.held) q }
    {
        let mut left = results;
        while let Some((path, bytes)) = left.pop() {
            self.write_within(path, bytes, false);
        }
    }

    /// Takes out all files below a folder.
    pub(crate) fn clear_below(&mut self, folder: &str)
        ensures bytes { (q : List ℕ)
            → bytes_at (get_by_text self.new.held) q ≡ (if is_under folder.now q then None else bytes_at (get_by_text self.old.held) q) }
        ensures puts { (q : List ℕ)
            → put_at (get_by_text self.new.held) q ≡ (not (is_under folder.now q) && put_at (get_by_text self.old.held) q) }
    {
        if !self.folders.may_hold(folder) {
            return;
        }
        take_below(&mut self.held, folder);
        self.folders.forget(folder);
    }
}

/// Makes room for so many more entries. After an error, too, the entries are the same.
pub(crate) fn widen<V: Drop>(table: &mut HashMap<String, V>, count: usize) -> Result<(), AllocError>
    ensures room { OnOk result (count ≤ spare table.new) }
    ensures same { (q : List ℕ) → get_by_text table.new q ≡ get_by_text table.old q }
{
    table.reserve(count)
}

/// Takes out all files below a folder, of all that there are.
fn take_below(files: &mut HashMap<String, Held>, folder: &str)
    ensures bytes { (q : List ℕ) → bytes_at (get_by_text files.new) q ≡ (if is_under folder.now q then None else bytes_at (get_by_text files.old) q) }
    ensures puts { (q : List ℕ) → put_at (get_by_text files.new) q ≡ (not (is_under folder.now q) && put_at (get_by_text files.old) q) }
{
    files.retain(|path, _| !is_under(folder, path.as_str()));
}

/// Adds a name where there is room.
pub(crate) fn add_within(names: &mut HashMap<String, ()>, name: String)
    requires { 0 < spare names.old }
    ensures { (q : List ℕ) → is_some (get_by_text names.new q) ≡ (bytes_eq q (string_bytes name) || is_some (get_by_text names.old q)) }
{
    let _ = names.insert(name, ());
}

/// The results of a script with their paths.
pub(crate) fn prepared(
    alloc: Global,
    root: &str,
    pod: &str,
    files: &[Pair],
) -> Result<Vec<(String, Bytes)>, AllocError>
    ensures { IfOk result (λ results. map (λ r. (string_bytes r.0, r.1)) results.items ≡ results_of root.now pod.now files.now) }
{
    let mut results = Vec::new(alloc);
    for file in files {
        if is_plain(file) {
            results.push(result_of(alloc, root, pod, file)?)?;
        }
    }
    Ok(results)
}

/// Whether the name of the file has no slash.
fn is_plain(file: &Pair) -> bool
    ensures { result ≡ is_plain file.now }
{
    !file.key.as_str().as_bytes().contains(&b'/')
}

/// A file with the path that it has among its pod's results.
fn result_of(
    alloc: Global,
    root: &str,
    pod: &str,
    file: &Pair,
) -> Result<(String, Bytes), AllocError>
    ensures { IfOk result (λ r. (string_bytes r.0, r.1) ≡ result_of root.now pod.now file.now) }
{
    let mut path = String::from_str(alloc, root)?;
    path.push_str("/")?;
    path.push_str(pod)?;
    path.push_str("/results/")?;
    path.push_str(file.key.as_str())?;
    Ok((path, bytes_of(alloc, file.value.as_str().as_bytes())?))
}

/// Whether the name is one of those of a path.
pub(crate) fn is_named(names: &HashMap<String, Vec<Text>>, path: &str, name: &str) -> bool
    ensures { result ≡ list_any (bytes_eq name.now) (option_map_or (λ group. group.items) (get_by_text names.now path.now) []) }
{
    match names.get(path) {
        Some(group) => group.iter().any(|other| name == other.as_str()),
        None => false,
    }
}

/// Adds a name to those of a path. After an error they are the same.
fn add_name(
    alloc: Global,
    names: &mut HashMap<String, Vec<Text>>,
    path: String,
    name: Text,
) -> Result<(), AllocError>
    ensures added { OnOk result ((q : List ℕ)
        → option_map_or (λ group. group.items) (get_by_text names.new q) []
        ≡ option_map_or (λ group. group.items) (get_by_text names.old q) [] ++ (if bytes_eq q (string_bytes path) then name ∷ [] else [])) }
    ensures same { OnErr result ((q : List ℕ)
        → option_map_or (λ group. group.items) (get_by_text names.new q) [] ≡ option_map_or (λ group. group.items) (get_by_text names.old q) []) }
{
    let group = names.entry(path)?.or_insert(Vec::new(alloc));
    if group.push(name).is_err() {
        return Err(AllocError);
    }
    Ok(())
}

/// Adds a pod to those that passed with a post file, if there is one. After an error they are the same.
pub(crate) fn add_pass(
    alloc: Global,
    names: &mut HashMap<String, Vec<Text>>,
    pass: Option<(String, Text)>,
) -> Result<(), AllocError>
    ensures added { OnOk result ((pod q : List ℕ)
        → list_any (bytes_eq pod) (option_map_or (λ group. group.items) (get_by_text names.new q) [])
        ≡ (list_any (bytes_eq pod) (option_map_or (λ group. group.items) (get_by_text names.old q) [])
        || is_pass pod q (option_map (λ p. (string_bytes p.0, p.1)) pass))) }
    ensures same { OnErr result ((q : List ℕ)
        → option_map_or (λ group. group.items) (get_by_text names.new q) [] ≡ option_map_or (λ group. group.items) (get_by_text names.old q) []) }
{
    match pass {
        Some((path, pod)) => add_name(alloc, names, path, pod),
        None => Ok(()),
    }
}
