ghost use Rattle.std.specs.Prelude.{◌≡◌, [], ◌∷◌, Some, IfOk};
ghost use Rattle.tk_types.specs.declared.fault.Detail.TheVariants.{Names as NamesTold};
ghost use Rattle.tk_types.specs.Fault.{fault};
ghost use Rattle.tk_types.specs.First.{first_in, first_if_there};
ghost use Rattle.tk_types.specs.Place.{◌▸◌};
ghost use Rattle.tk_types.specs.Rejected.{IsRefusal, Reads};

use std::alloc::{AllocError, Global};
use tk_types::{Detail, Fault, List, Location, Rejected, Text, place_at};

/// What a rule returns: that nothing is wrong, or what is wrong first. The only other error is want of memory.
pub type Checked = Result<(), Rejected>;

/// A rule on parts of an object: what is wrong first with a part at its place.
pub trait Rule<P> {
    ghost use Rattle.tk_types.specs.Place.{Place};
    ghost use Rattle.tk_types.specs.First.{Finding};

    ghost finding: { Self → Place → P → Finding };

    /// Refuses a part with which something is wrong. The only other error is want of memory.
    fn check(&self, alloc: Global, part: &P, place: &Location<'_>) -> Checked
        ensures { Reads (finding self.now place.now part.now) tt result };
}

/// Refuses the first part of a list with which something is wrong, each at its index.
pub fn check_each<P, R: Rule<P>>(
    alloc: Global,
    rule: &R,
    parts: &[P],
    place: &Location<'_>,
) -> Checked
    ensures { Reads (first_in (R.finding rule.now) place.now parts.now) tt result }
{
    for (index, part) in parts.iter().enumerate() {
        rule.check(alloc, part, &(&*place).at(index as u64))?;
    }
    Ok(())
}

/// The same of a list at a key.
pub fn check_all<P, R: Rule<P>>(
    alloc: Global,
    rule: &R,
    parts: &[P],
    place: &Location<'_>,
    key: &str,
) -> Checked
    ensures { Reads (first_in (R.finding rule.now) (place.now ▸ key.now) parts.now) tt result }
{
    match parts {
        [] => Ok(()),
        _ => check_each(alloc, rule, parts, &place.key(key)),
    }
}

/// Refuses a part at a key with which something is wrong, if it is there.
pub fn check_there<P, R: Rule<P>>(
    alloc: Global,
    rule: &R,
    part: &Option<P>,
    place: &Location<'_>,
    key: &str,
) -> Checked
    ensures { Reads (first_if_there (R.finding rule.now (place.now ▸ key.now)) part.now) tt result }
{
    match part {
        Some(part) => rule.check(alloc, part, &place.key(key)),
        None => Ok(()),
    }
}
