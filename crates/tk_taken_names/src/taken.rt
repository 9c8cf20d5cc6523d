ghost use Rattle.std.specs.Prelude.{◌≡◌, ◌≢◌, ◌++◌, ◌∷◌, [], ◌↔◌, ◌<◌, ◌^◌, All, AllPairs, Contains, IfOk, IsTrue, OnOk, length};
ghost use Rattle.tk_taken_names.specs.Taken.{AreNew, IsNew};

use indexmap::IndexMap;
use std::alloc::{AllocError, Global};
use std::marker::Model;
use tk_names::clash;
use tk_names::laws::clash_is_the_first;
use tk_types::Text;

/// Names that are taken, in the order in which they came, found by an index. A contract sees the names.
#[derive(Drop)]
pub struct TakenNames {
    names: IndexMap<String, ()>,
}

impl Model for TakenNames {
    ghost use Rattle.std.specs.Prelude.{List, ℕ, map, string_bytes};
    ghost use Rattle.indexmap.specs.IndexMap.{keys};

    ghost Value = { List (List ℕ) };

    ghost view = { λ taken. map string_bytes (keys taken.names) };
}

/// Whether names differ. More than 2^32 of them are more than memory holds.
fn all_differ(alloc: Global, names: &[Text]) -> Result<bool, AllocError>
    ensures { IfOk result (λ yes. IsTrue yes ↔ AllPairs (λ a b. a ≢ b) names.now) }
{
    if u32::MAX as usize <= names.len() {
        return Err(AllocError);
    }
    clash_is_the_first();
    Ok(clash(alloc, names)?.is_none())
}

impl TakenNames {
    /// No name, which takes no memory.
    pub fn new(alloc: Global) -> Self
        ensures { result ≡ [] }
    {
        TakenNames {
            names: IndexMap::new(alloc),
        }
    }

    /// Whether a name is not taken yet.
    fn is_new(&self, name: &str) -> bool
        ensures { IsTrue result ↔ IsNew self.now name.now }
    {
        self.names.get(name).is_none()
    }

    /// Whether none of some names is taken yet.
    fn each_is_new(&self, names: &[Text]) -> bool
        ensures { IsTrue result ↔ All (IsNew self.now) names.now }
    {
        for name in names {
            if !self.is_new(name.as_str()) {
                return false;
            }
        }
        true
    }

    /// Whether names differ and none of them is taken yet. The only error is want of memory.
    pub fn are_new(&self, alloc: Global, names: &[Text]) -> Result<bool, AllocError>
        ensures { IfOk result (λ yes. IsTrue yes ↔ AreNew self.now names.now) }
    {
        if !all_differ(alloc, names)? {
            return Ok(false);
        }
        Ok(self.each_is_new(names))
    }

    /// Takes a name.
    fn add_one(&mut self, alloc: Global, name: &str) -> Result<(), AllocError>
        requires { IsNew self.old name.now }
        ensures { OnOk result (self.new ≡ self.old ++ name.now ∷ []) }
    {
        let key = String::from_str(alloc, name)?;
        self.names.insert(key, ())?;
        Ok(())
    }

    /// Takes names, which are new. The only error is want of memory; some may then be taken.
    pub fn add(&mut self, alloc: Global, names: &[Text]) -> Result<(), AllocError>
        requires { AreNew self.old names.now }
        ensures { OnOk result (self.new ≡ self.old ++ names.now) }
    {
        for name in names {
            self.add_one(alloc, name.as_str())?;
        }
        Ok(())
    }
}
