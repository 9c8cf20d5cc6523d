ghost use Rattle.std.specs.Prelude.{◌≡◌, ℕ, List, IfOk, bytes_eq, find, option_map, option_copied};
ghost use Rattle.std.specs.HashMap.{get_by};
ghost use Rattle.std.specs.List.{list_any};

use crate::task::{PipelineTask, Space, SpaceSpec, SpaceUse};
use crate::text::Text;
use crate::value::{Pair, Param, ParamSpec, ResultSpec};
use std::alloc::{AllocError, Global};
use std::collections::HashMap;
use std::marker::Model;

/// A thing with a name.
pub trait Named {
    ghost use Rattle.std.specs.Prelude.{List, ℕ};

    ghost name: { Self → List ℕ };

    /// Its name.
    fn name(&self) -> &str
        ensures { result.now ≡ name self.now };
}

impl Named for Param {
    ghost name = { λ p. p.name };

    fn name(&self) -> &str {
        self.name.as_str()
    }
}

impl Named for ParamSpec {
    ghost name = { λ p. p.name };

    fn name(&self) -> &str {
        self.name.as_str()
    }
}

impl Named for Pair {
    ghost name = { λ p. p.key };

    fn name(&self) -> &str {
        self.key.as_str()
    }
}

impl Named for Text {
    ghost name = { λ t. t };

    fn name(&self) -> &str {
        self.as_str()
    }
}

impl Named for ResultSpec {
    ghost name = { λ r. r.name };

    fn name(&self) -> &str {
        self.name.as_str()
    }
}

impl Named for PipelineTask {
    ghost name = { λ t. t.name };

    fn name(&self) -> &str {
        self.name.as_str()
    }
}

impl Named for Space {
    ghost name = { λ s. s.name };

    fn name(&self) -> &str {
        self.name.as_str()
    }
}

impl Named for SpaceSpec {
    ghost name = { λ s. s.name };

    fn name(&self) -> &str {
        self.name.as_str()
    }
}

impl Named for SpaceUse {
    ghost name = { λ u. u.name };

    fn name(&self) -> &str {
        self.name.as_str()
    }
}

/// Up to so many things are found one after another, which takes no memory.
pub const FEW: usize = 16;

/// Things that are found by their names; of equal names the first counts. A contract sees the things.
#[derive(Drop)]
pub struct FirstNamed<'a, T: Named> {
    items: &'a [T],
    /// The first thing of each name, unless the things are few.
    found: Option<HashMap<&'a str, &'a T>>,
}

impl<'a, T: Named> Model for FirstNamed<'a, T> {
    ghost use Rattle.std.specs.Prelude.{◌≡◌, List as Items, ℕ, IfSome, bytes_eq, find, option_map};
    ghost use Rattle.std.specs.HashMap.{get_by};

    ghost Value = { Items T };

    ghost view = { λ index. index.items.now };

    ghost invariant = { λ index. IfSome index.found (λ found. (name : Items ℕ)
        → option_map (λ item. item.now) (get_by (λ k. bytes_eq name k.now) found) ≡ find (λ item. bytes_eq (T.name item) name) index.items.now) };
}

impl<'a, T: Named> FirstNamed<'a, T> {
    /// An index of these things.
    pub fn new(alloc: Global, items: &'a [T]) -> Result<Self, AllocError>
        ensures { IfOk result (λ index. index ≡ items.now) }
    {
        let found = if items.len() <= FEW {
            None
        } else {
            Some(first_found(alloc, items)?)
        };
        Ok(FirstNamed { items, found })
    }

    /// The things.
    pub fn items(&self) -> &'a [T]
        ensures { result.now ≡ self.now }
    {
        self.items
    }

    /// The first thing of a name.
    pub fn get(&self, name: &str) -> Option<&'a T>
        ensures { option_copied result ≡ find (λ item. bytes_eq (T.name item) name.now) self.now }
    {
        match &self.found {
            Some(found) => found.get(name).copied(),
            None => first_named(self.items, name),
        }
    }

    /// Whether there is a thing of a name.
    pub fn contains(&self, name: &str) -> bool
        ensures { result ≡ list_any (λ item. bytes_eq name.now (T.name item)) self.now }
    {
        self.get(name).is_some()
    }
}

/// The first of some things that has a name.
fn first_named<'a, T: Named>(items: &'a [T], name: &str) -> Option<&'a T>
    ensures { option_copied result ≡ find (λ item. bytes_eq (T.name item) name.now) items.now }
{
    for item in items {
        if item.name() == name {
            return Some(item);
        }
    }
    None
}

/// The first thing of each name.
fn first_found<'a, T: Named>(
    alloc: Global,
    items: &'a [T],
) -> Result<HashMap<&'a str, &'a T>, AllocError>
    ensures { IfOk result (λ found. (name : List ℕ)
        → option_map (λ item. item.now) (get_by (λ k. bytes_eq name k.now) found) ≡ find (λ item. bytes_eq (T.name item) name) items.now) }
{
    let mut found: HashMap<&'a str, &'a T> = HashMap::new(alloc);
    for item in items {
        found.entry(item.name())?.or_insert(item);
    }
    Ok(found)
}
