ghost use Rattle.std.specs.Prelude.{◌≡◌, true, All, IfOk, OnOk, is_some, map};
ghost use Rattle.std.specs.Option.{ForSome};
ghost use Rattle.tk_types.specs.First.{first_of};
ghost use Rattle.tk_types.specs.Rejected.{Reads};
ghost use Rattle.tk_manifest.specs.declared.kinds.KindSet.TheVariants.{WithOutcomes};
ghost use Rattle.tk_validate.specs.Validate.{item_fault};
ghost use Rattle.tk_verdict.specs.WellFormed.{IsWellFormed};
ghost use Rattle.tk_admit.specs.Admit.{admitted, admitted_items, count_finding, input_fault as fault_of_input, items_fault};
ghost use Rattle.tk_admit.specs.Sound.{IsValid};

use crate::clashes::check_clashes;
use crate::command::{command_facts, the_scenario};
use crate::entries::entries;
use crate::objects::take_all;
use crate::weight::{check_weight, weight};
use std::alloc::Global;
use tk_journal::Admitted;
use tk_manifest::{Document, KindSet, read_objects};
use tk_types::{Detail, Fault, Item, Location, MOST_OBJECTS, Rejected, told};
use tk_validate::validate;

/// Refuses too many objects.
fn check_count(alloc: Global, items: &[Item]) -> Result<(), Rejected>
    ensures { Reads (count_finding items.now) tt result }
{
    if MOST_OBJECTS < items.len() {
        let detail = Detail::Sizes {
            limit: MOST_OBJECTS as u64,
            count: items.len() as u64,
        };
        return Err(told(
            alloc,
            Fault::TOO_LARGE,
            &Location::root().key("items"),
            detail,
        ));
    }
    Ok(())
}

/// Refuses the first object with which something is wrong by itself.
fn validate_each(alloc: Global, items: &[Item]) -> Result<(), Rejected>
    ensures { Reads (first_of (map item_fault items.now)) tt result }
{
    for item in items {
        validate(alloc, item)?;
    }
    Ok(())
}

/// The same; what passes is valid.
fn validate_all(alloc: Global, items: &[Item]) -> Result<(), Rejected>
    ensures found { Reads (first_of (map item_fault items.now)) tt result }
    ensures valid { OnOk result (All IsValid items.now) }
{
    validate_each(alloc, items)?;
    Ok(())
}

/// What is admitted of these objects, or the first fault by the rules over them.
fn admit_items(
    alloc: Global,
    items: &[Item],
    kinds: KindSet,
    asks: u32,
    root: &str,
) -> Result<Admitted, Rejected>
    ensures admitted { Reads (items_fault kinds asks items.now) (admitted_items kinds asks root.now items.now) result }
    ensures well_formed { IfOk result (λ admitted. ForSome admitted.outcomes IsWellFormed) }
    ensures decided { IfOk result (λ admitted. kinds ≡ WithOutcomes → is_some admitted.outcomes ≡ true) }
{
    check_count(alloc, items)?;
    validate_all(alloc, items)?;
    let taken = take_all(alloc, items)?;
    check_clashes(alloc, taken.runs.as_slice(), taken.whole)?;
    let weight = weight(asks, items, &taken);
    check_weight(alloc, weight)?;
    let outcomes = command_facts(alloc, kinds, items, taken.runs.as_slice())?;
    let scenario = the_scenario(alloc, items)?;
    Ok(Admitted {
        entries: entries(alloc, root, taken.runs)?,
        weight,
        scenario,
        outcomes,
        objects: items.len() as u64,
    })
}

/// What is admitted of an input: the entries that take in its runs, in order; a bound of the entries that their journal
/// may get; the Scenario, where one stands; the facts of the run and its Outcomes, where `kinds` has Outcomes; and how
/// many objects there are. `asks` is how many words ask something of a run, and `root` the folder below which the runs'
/// pods and workspaces stand.
///
/// It is refused for the first fault: of reading; of more than 1,000 objects; of an object by itself, in order; of an
/// object of whose kind and name one stood before, or of which a settled matrix has more than 256 combinations, in
/// order; of two TaskRuns that may have one name; of a weight above 200,000; and of what a command asks of its input.
/// The only other error is want of memory.
pub fn admit(
    alloc: Global,
    document: &Document<'_>,
    kinds: KindSet,
    asks: u32,
    root: &str,
) -> Result<Admitted, Rejected>
    ensures admitted { Reads (fault_of_input kinds asks document.now) (admitted kinds asks root.now document.now) result }
    ensures well_formed { IfOk result (λ admitted. ForSome admitted.outcomes IsWellFormed) }
    ensures decided { IfOk result (λ admitted. kinds ≡ WithOutcomes → is_some admitted.outcomes ≡ true) }
{
    let items = read_objects(alloc, document, kinds)?;
    admit_items(alloc, items.as_slice(), kinds, asks, root)
}
