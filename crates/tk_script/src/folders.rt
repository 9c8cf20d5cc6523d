//! The folders below which a file may stand.
ghost use Rattle.std.specs.Prelude.{◌≡◌, ℕ, List, true, IsTrue, OnOk};
ghost use Rattle.tk_edge.specs.Files.{is_under};
ghost use Rattle.tk_script.specs.Folders.{is_named, may_hold};

use std::alloc::{AllocError, Global};
use std::collections::HashMap;

/// Folders by their names, and all others too once memory for a name was lacking. Below some nothing may stand any more.
#[derive(Drop)]
pub(crate) struct Folders {
    pub alloc: Global,
    pub names: HashMap<String, ()>,
    pub all: bool,
}

impl Folders {
    /// No folder.
    pub(crate) fn new(alloc: Global) -> Self {
        Folders {
            alloc,
            names: HashMap::new(alloc),
            all: false,
        }
    }

    /// Whether a file may stand below the folder.
    pub(crate) fn may_hold(&self, folder: &str) -> bool
        ensures { result ≡ may_hold self.now folder.now }
    {
        self.all || self.names.contains_key(folder)
    }

    /// Notes that a file stands at a path. Where memory is lacking, all folders count from then on.
    pub(crate) fn note(&mut self, path: &str)
        ensures noted { (folder : List ℕ) → is_under folder path.now ≡ true → IsTrue (may_hold self.new folder) }
        ensures kept { (folder : List ℕ) → IsTrue (may_hold self.old folder) → IsTrue (may_hold self.new folder) }
    {
        if self.add_above(path).is_err() {
            self.all = true;
        }
    }

    /// Adds each folder that the path is below.
    fn add_above(&mut self, path: &str) -> Result<(), AllocError>
        ensures added { OnOk result ((folder : List ℕ) → is_under folder path.now ≡ true → IsTrue (is_named self.new folder)) }
        ensures kept { (folder : List ℕ) → IsTrue (is_named self.old folder) → IsTrue (is_named self.new folder) }
        ensures all { self.new.all ≡ self.old.all }
    {
        let mut folder = path;
        while let Some(place) = folder.rfind('/') {
            folder = &folder[..place];
            self.add(folder)?;
        }
        Ok(())
    }

    /// Adds a folder.
    fn add(&mut self, folder: &str) -> Result<(), AllocError>
        ensures added { OnOk result (IsTrue (is_named self.new folder.now)) }
        ensures kept { (other : List ℕ) → IsTrue (is_named self.old other) → IsTrue (is_named self.new other) }
        ensures all { self.new.all ≡ self.old.all }
    {
        if !self.names.contains_key(folder) {
            let name = String::from_str(self.alloc, folder)?;
            self.names.insert(name, ())?;
        }
        Ok(())
    }

    /// Forgets a folder below which no file stands any more.
    pub(crate) fn forget(&mut self, folder: &str)
        ensures { (other : List ℕ) → (other ≡ folder.now → ⊥) → IsTrue (may_hold self.old other) → IsTrue (may_hold self.new other) }
    {
        let _ = self.names.remove(folder);
    }
}
