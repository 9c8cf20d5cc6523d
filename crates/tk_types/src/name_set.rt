ghost use Rattle.std.specs.Prelude.{◌≡◌, ◌++◌, [], ◌∷◌, ℕ, List, map, bytes_eq, is_some, IfOk, OnOk};
ghost use Rattle.std.specs.HashMap.{get_by};
ghost use Rattle.std.specs.List.{list_any};
ghost use Rattle.tk_types.specs.Names.{is_in};

use crate::first_named::{FEW, Named};
use std::alloc::{AllocError, Global};
use std::collections::HashMap;
use std::marker::Model;

/// Names in the order in which they came, that are found by an index once they are many. A contract sees the names.
#[derive(Drop)]
pub struct NameSet<'a> {
    alloc: Global,
    names: Vec<&'a str>,
    found: Option<HashMap<&'a str, ()>>,
}

impl<'a> Model for NameSet<'a> {
    ghost use Rattle.std.specs.Prelude.{◌≡◌, List, ℕ, map, bytes_eq, is_some, MatchOption, ⊤};
    ghost use Rattle.std.specs.HashMap.{get_by};
    ghost use Rattle.tk_types.specs.Names.{is_in};

    ghost Value = { List (List ℕ) };

    ghost view = { λ set. map (λ name. name.now) set.names.items };

    ghost invariant = { λ set. MatchOption set.found ⊤ (λ found. (name : List ℕ)
        → is_some (get_by (λ k. bytes_eq name k.now) found) ≡ is_in (map (λ n. n.now) set.names.items) name) };
}

impl<'a> NameSet<'a> {
    /// No name.
    pub fn new(alloc: Global) -> Self
        ensures { result ≡ [] }
    {
        NameSet {
            alloc,
            names: Vec::new(alloc),
            found: None,
        }
    }

    /// The names of some things, in their order. The only error is want of memory.
    pub fn of<T: Named>(alloc: Global, items: &'a [T]) -> Result<Self, AllocError>
        ensures { IfOk result (λ set. set ≡ map T.name items.now) }
    {
        let mut set = NameSet::new(alloc);
        set.add_all(items)?;
        Ok(set)
    }

    /// Whether the name is there.
    pub fn contains(&self, name: &str) -> bool
        ensures { result ≡ is_in self.now name.now }
    {
        match &self.found {
            Some(found) => found.get(name).is_some(),
            None => is_among(self.names.as_slice(), name),
        }
    }

    /// Makes the index, if there is none and a name more would be too many.
    fn prepare(&mut self) -> Result<(), AllocError>
        ensures { self.new ≡ self.old }
    {
        if self.found.is_none() && self.names.len() >= FEW {
            self.found = Some(indexed(self.alloc, self.names.as_slice())?);
        }
        Ok(())
    }

    /// Adds a name, and tells whether it was there before. The only error is want of memory.
    pub fn add(&mut self, name: &'a str) -> Result<bool, AllocError>
        ensures was { IfOk result (λ was. was ≡ is_in self.old name.now) }
        ensures added { OnOk result (self.new ≡ self.old ++ name.now ∷ []) }
    {
        let was = self.contains(name);
        self.prepare()?;
        self.names.push(name)?;
        if let Some(found) = &mut self.found {
            if found.insert(name, ()).is_err() {
                self.names.pop();
                return Err(AllocError);
            }
        }
        Ok(was)
    }

    /// Adds the names of some things, in their order. The only error is want of memory.
    pub fn add_all<T: Named>(&mut self, items: &'a [T]) -> Result<(), AllocError>
        ensures { OnOk result (self.new ≡ self.old ++ map T.name items.now) }
    {
        for item in items {
            self.add(item.name())?;
        }
        Ok(())
    }
}

/// Whether the name is among some.
fn is_among(names: &[&str], name: &str) -> bool
    ensures { result ≡ list_any (λ other. bytes_eq other.now name.now) names.now }
{
    names.iter().any(|other| *other == name)
}

/// An index of the names.
fn indexed<'a>(alloc: Global, names: &[&'a str]) -> Result<HashMap<&'a str, ()>, AllocError>
    ensures { IfOk result (λ found. (name : List ℕ)
        → is_some (get_by (λ k. bytes_eq name k.now) found) ≡ is_in (map (λ n. n.now) names.now) name) }
{
    let mut found: HashMap<&'a str, ()> = HashMap::new(alloc);
    for name in names {
        found.insert(*name, ())?;
    }
    Ok(found)
}
