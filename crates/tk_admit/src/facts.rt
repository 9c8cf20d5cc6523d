ghost use Rattle.std.specs.Prelude.{◌≡◌, ◌++◌, ◌∷◌, [], IfErr, IfOk, None, OnOk, Some, codes, filter_map, is_none, option_and_then, option_map, option_to_list, unwrap_or};
ghost use Rattle.std.specs.Option.{ForSome};
ghost use Rattle.std.specs.List.{list_any};
ghost use Rattle.tk_types.specs.Fault.{duplicate, unknown_task};
ghost use Rattle.tk_types.specs.First.{first_if_there, first_in, refused_if};
ghost use Rattle.tk_types.specs.Place.{◌▸◌};
ghost use Rattle.tk_types.specs.Rejected.{IsRefusal, Reads};
ghost use Rattle.tk_verdict.specs.WellFormed.{IsWellFormed};
ghost use Rattle.tk_admit.specs.Command.{child_finding, child_of, children_finding, facts_with, is_same_child, outcomes_at as outcomes_of_item};
ghost use Rattle.tk_admit.specs.Sound.{IsSoundRun};
ghost use Rattle.tk_admit.specs.Taken.{with_earlier};

use crate::child_set::ChildSet;
use crate::laws::facts_are_well_formed;
use crate::objects::one_name;
use crate::task_places::TaskPlaces;
use std::alloc::Global;
use tk_types::{
    Child, Facts, Fault, Item, ItemObject, List, Location, OutcomesChild, OutcomesSpec, Place,
    Rejected, RunSpec, TryCopy, told,
};

/// A child with the place of its task, if it is of a task of the run.
fn placed(
    alloc: Global,
    place: &Location<'_>,
    task: Option<u32>,
    child: &OutcomesChild,
) -> Result<Child, Rejected>
    ensures { Reads (refused_if (is_none task) (unknown_task (place.now ▸ codes "task") child.now.task)) (record { task = unwrap_or task 0; index = child.now.index; outcome = child.now.outcome }) result }
{
    let Some(task) = task else {
        let detail = one_name(alloc, &child.task)?;
        return Err(told(alloc, Fault::UNKNOWN_TASK, &place.key("task"), detail));
    };
    Ok(Child {
        task,
        index: child.index,
        outcome: child.outcome.copy(alloc)?,
    })
}

/// Adds a child to those that stood before, and refuses one that did.
fn check_new<'a>(
    alloc: Global,
    stood: &mut ChildSet<'a>,
    place: &Location<'_>,
    child: &'a OutcomesChild,
) -> Result<(), Rejected>
    ensures found { Reads (refused_if (list_any (is_same_child child.now) stood.old) (duplicate place.now child.now.task)) tt result }
    ensures added { OnOk result (stood.new ≡ stood.old ++ child.now ∷ []) }
{
    if stood.add(child)? {
        let detail = one_name(alloc, &child.task)?;
        return Err(told(alloc, Fault::DUPLICATE, place, detail));
    }
    Ok(())
}

/// A child, behind those that stood before, or why it is refused: it stood before, or is of no task of the run.
fn child_at<'a>(
    alloc: Global,
    places: &TaskPlaces<'_>,
    stood: &mut ChildSet<'a>,
    place: &Location<'_>,
    child: &'a OutcomesChild,
) -> Result<Child, Rejected>
    ensures refused { IfErr result (IsRefusal (child_finding places.now place.now (stood.old, child.now))) }
    ensures none { OnOk result (child_finding places.now place.now (stood.old, child.now) ≡ None) }
    ensures child { IfOk result (λ c. child_of places.now child.now ≡ Some c) }
    ensures added { OnOk result (stood.new ≡ stood.old ++ child.now ∷ []) }
{
    check_new(alloc, stood, place, child)?;
    placed(alloc, place, places.place(child.task.as_str()), child)
}

/// Adds the child that stands next.
fn next_child<'a>(
    alloc: Global,
    places: &TaskPlaces<'_>,
    stood: &mut ChildSet<'a>,
    found: &mut List<Child>,
    place: &Location<'_>,
    child: &'a OutcomesChild,
) -> Result<(), Rejected>
    ensures found { Reads (child_finding places.now place.now (stood.old, child.now)) tt result }
    ensures stood { OnOk result (stood.new ≡ stood.old ++ child.now ∷ []) }
    ensures added { OnOk result (found.new ≡ found.old ++ option_to_list (child_of places.now child.now)) }
{
    let child = child_at(alloc, places, stood, place, child)?;
    found.push(child)?;
    Ok(())
}

/// The children of a run that outcomes tell, or the first that stood before or is of no task of the run.
fn placed_children(
    alloc: Global,
    places: &TaskPlaces<'_>,
    place: &Location<'_>,
    children: &[OutcomesChild],
) -> Result<List<Child>, Rejected>
    ensures refused { IfErr result (IsRefusal (first_in (child_finding places.now) place.now (with_earlier children.now))) }
    ensures none { OnOk result (first_in (child_finding places.now) place.now (with_earlier children.now) ≡ None) }
    ensures made { IfOk result (λ made. made ≡ filter_map (child_of places.now) children.now) }
{
    let mut stood = ChildSet::new(alloc);
    let mut found = List::new(alloc);
    for (index, child) in children.iter().enumerate() {
        let at = (&*place).at(index as u64);
        if let Err(refused) = next_child(alloc, places, &mut stood, &mut found, &at, child) {
            return Err(refused);
        }
    }
    Ok(found)
}

/// The same of a sound run.
fn children_of(
    alloc: Global,
    spec: &RunSpec,
    place: &Location<'_>,
    children: &[OutcomesChild],
) -> Result<List<Child>, Rejected>
    requires { IsSoundRun spec.now }
    ensures refused { IfErr result (IsRefusal (first_in (child_finding spec.now) place.now (with_earlier children.now))) }
    ensures none { OnOk result (first_in (child_finding spec.now) place.now (with_earlier children.now) ≡ None) }
    ensures made { IfOk result (λ made. made ≡ filter_map (child_of spec.now) children.now) }
{
    let places = TaskPlaces::new(alloc, spec)?;
    placed_children(alloc, &places, place, children)
}

/// The facts of a run and what outcomes say of it.
fn facts_with_outcomes(
    alloc: Global,
    spec: &RunSpec,
    place: &Place,
    outcomes: &OutcomesSpec,
) -> Result<Facts, Rejected>
    requires { IsSoundRun spec.now }
    ensures found { Reads (children_finding spec.now (place.now, outcomes.now)) (facts_with spec.now (place.now, outcomes.now)) result }
    ensures well_formed { IfOk result IsWellFormed }
{
    facts_are_well_formed();
    let at = Location::of(place);
    let at_spec = at.key("spec");
    let at_children = at_spec.key("children");
    let children = children_of(alloc, spec, &at_children, outcomes.children.as_slice())?;
    Ok(Facts {
        spec: spec.copy(alloc)?,
        stops: outcomes.stops.copy(alloc)?,
        children,
    })
}

/// The place and the spec of an Outcomes object.
fn outcomes_at(item: &Item) -> Option<(&Place, &OutcomesSpec)>
    ensures { option_map (λ o. (o.0.now, o.1.now)) result ≡ outcomes_of_item item.now }
{
    match &item.object {
        ItemObject::Outcomes { spec, .. } => Some((&item.place, spec)),
        _ => None,
    }
}

/// The facts of a run and an Outcomes object.
fn facts_of_both(alloc: Global, spec: &RunSpec, item: &Item) -> Result<Option<Facts>, Rejected>
    requires { IsSoundRun spec.now }
    ensures found { Reads (first_if_there (children_finding spec.now) (outcomes_of_item item.now)) (option_map (facts_with spec.now) (outcomes_of_item item.now)) result }
    ensures well_formed { IfOk result (λ facts. ForSome facts IsWellFormed) }
{
    match outcomes_at(item) {
        Some((place, outcomes)) => Ok(Some(facts_with_outcomes(alloc, spec, place, outcomes)?)),
        None => Ok(None),
    }
}

/// The facts of a run and an Outcomes object, where both are there.
pub(crate) fn facts_of(
    alloc: Global,
    spec: Option<&RunSpec>,
    item: Option<&Item>,
) -> Result<Option<Facts>, Rejected>
    requires { ForSome (option_map (λ s. s.now) spec) IsSoundRun }
    ensures found { Reads (first_if_there (λ s. first_if_there (children_finding s) (option_and_then outcomes_of_item (option_map (λ i. i.now) item.entry))) (option_map (λ s. s.now) spec.entry)) (option_and_then (λ s. option_map (facts_with s) (option_and_then outcomes_of_item (option_map (λ i. i.now) item.entry))) (option_map (λ s. s.now) spec.entry)) result }
    ensures well_formed { IfOk result (λ facts. ForSome facts IsWellFormed) }
{
    match (spec, item) {
        (Some(spec), Some(item)) => facts_of_both(alloc, spec, item),
        _ => Ok(None),
    }
}
