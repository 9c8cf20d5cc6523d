ghost use Rattle.std.specs.Prelude.{◌≡◌, map};
ghost use Rattle.tk_types.specs.First.{first_of};
ghost use Rattle.tk_types.specs.Rejected.{Reads};
ghost use Rattle.tk_validate.specs.Validate.{item_fault, rules};

use crate::rule::Checked;
use crate::rules::conflicts::check_conflicts;
use crate::rules::cycle::check_cycles;
use crate::rules::finally::check_finally;
use crate::rules::names::check_names;
use crate::rules::sizes::check_sizes;
use crate::rules::texts::check_texts;
use crate::rules::timeouts::check_timeouts;
use crate::rules::types::check_types;
use crate::rules::workspaces::check_workspaces;
use std::alloc::Global;
use tk_types::{Item, ItemObject, Location};

/// Refuses an object whose spec stands at a place, by the rules in their order.
fn check_object(alloc: Global, object: &ItemObject, place: &Location<'_>) -> Checked
    ensures { Reads (first_of (map (λ rule. rule place.now object.now) rules)) tt result }
{
    check_sizes(alloc, object, place)?;
    check_names(alloc, object, place)?;
    check_types(alloc, object, place)?;
    check_conflicts(alloc, object, place)?;
    check_finally(alloc, object, place)?;
    check_workspaces(alloc, object, place)?;
    check_texts(alloc, object, place)?;
    check_cycles(alloc, object, place)?;
    check_timeouts(alloc, object, place)
}

/// Refuses an object with which something is wrong: the first fault by the rules in their order, each at its places in
/// reading order. The only other error is want of memory.
pub fn validate(alloc: Global, item: &Item) -> Checked
    ensures { Reads (item_fault item.now) tt result }
{
    check_object(alloc, &item.object, &Location::of(&item.place).key("spec"))
}
