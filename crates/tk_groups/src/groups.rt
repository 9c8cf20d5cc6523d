ghost use Rattle.std.specs.Prelude.{◌≡◌, [], None, OnOk};
ghost use Rattle.indexmap.specs.IndexMap.{get_by_text};
ghost use Rattle.tk_groups.specs.Groups.{groups_in, IsAdded, names_of};

use indexmap::IndexMap;
use std::alloc::{AllocError, Global};
use std::marker::Model;
use tk_types::{List, Text};

/// The names of each group, by what they belong to.
type Members = IndexMap<String, List<Text>>;

/// Names in groups. A contract sees the names of each group.
#[derive(Drop)]
pub struct Groups {
    alloc: Global,
    members: Members,
}

impl Model for Groups {
    ghost use Rattle.std.specs.Prelude.{List};
    ghost use Rattle.tk_groups.specs.Groups.{Group, groups_in};

    ghost Value = { List Group };

    ghost view = { λ g. groups_in g.members };
}

/// Begins a group that isn't there, with one name.
fn begin(alloc: Global, members: &mut Members, owner: &str, name: Text) -> Result<(), AllocError>
    requires absent { get_by_text members.old owner.now ≡ None }
    ensures { OnOk result (IsAdded owner.now name (groups_in members.old) (groups_in members.new)) }
{
    let mut first = List::new(alloc);
    first.push(name)?;
    let key = String::from_str(alloc, owner)?;
    members.insert(key, first)?;
    Ok(())
}

/// Adds a name to a group, be it there or not.
fn add(alloc: Global, members: &mut Members, owner: &str, name: Text) -> Result<(), AllocError>
    ensures { OnOk result (IsAdded owner.now name (groups_in members.old) (groups_in members.new)) }
{
    if let Some(names) = members.get_mut(owner) {
        names.push(name)?;
        return Ok(());
    }
    begin(alloc, members, owner, name)
}

impl Groups {
    /// No group has a name, which takes no memory.
    pub fn new(alloc: Global) -> Groups
        ensures { result ≡ [] }
    {
        Groups {
            alloc,
            members: IndexMap::new(alloc),
        }
    }

    /// Adds a name behind those of its group. The only error is want of memory.
    pub fn add(&mut self, owner: &str, name: &str) -> Result<(), AllocError>
        ensures { OnOk result (IsAdded owner.now name.now self.old self.new) }
    {
        let name = Text::from_str(self.alloc, name)?;
        add(self.alloc, &mut self.members, owner, name)
    }

    /// The names of a group, in the order in which they came.
    pub fn of(&self, owner: &str) -> &[Text]
        ensures { result.now ≡ names_of self.now owner.now }
    {
        match self.members.get(owner) {
            Some(names) => names.as_slice(),
            None => &[],
        }
    }
}
