ghost use Rattle.std.specs.Prelude.{◌≡◌, ◌∷◌, [], All, IfOk, Some, map, option_map, slice_get};
ghost use Rattle.std.specs.Option.{ForSome};
ghost use Rattle.tk_types.specs.First.{first_of};
ghost use Rattle.tk_types.specs.Fault.{duplicate};
ghost use Rattle.tk_types.specs.Place.{root as root_place};
ghost use Rattle.tk_types.specs.Rejected.{IsRefusal, Reads};
ghost use Rattle.tk_manifest.specs.declared.kinds.KindSet.TheVariants.{WithOutcomes};
ghost use Rattle.tk_verdict.specs.WellFormed.{IsWellFormed};
ghost use Rattle.tk_admit.specs.Command.{as_scenario as scenario_of_object, command_facts as facts_asked, command_finding, decided_facts as facts_of_input, missing, outcomes_of as outcomes_among, runs_of as runs_among, scenarios_of as scenarios_among, second_object, second_run, the_scenario as first_scenario};
ghost use Rattle.tk_admit.specs.Sound.{IsTaken};

use crate::facts::facts_of;
use crate::objects::one_name;
use crate::taken::Taken;
use std::alloc::{AllocError, Global};
use tk_journal::Admission;
use tk_manifest::KindSet;
use tk_types::{
    Facts, Fault, Item, ItemObject, Location, Rejected, RunSpec, Scenario, Text, TryCopy, refusal,
    told,
};

/// The PipelineRuns among the runs that are taken in.
fn runs_of<'a>(alloc: Global, runs: &'a [Taken]) -> Result<Vec<&'a RunSpec>, AllocError>
    ensures { IfOk result (λ found. map (λ s. s.now) found.items ≡ runs_among runs.now) }
{
    let mut found = Vec::new(alloc);
    for run in runs {
        if let Admission::Run(spec) = &run.spec {
            found.push(spec)?;
        }
    }
    Ok(found)
}

/// The Outcomes of an input.
fn outcomes_of<'a>(alloc: Global, items: &'a [Item]) -> Result<Vec<&'a Item>, AllocError>
    ensures { IfOk result (λ found. map (λ i. i.now) found.items ≡ outcomes_among items.now) }
{
    let mut found = Vec::new(alloc);
    for item in items {
        if let ItemObject::Outcomes { .. } = &item.object {
            found.push(item)?;
        }
    }
    Ok(found)
}

/// The Scenarios of an input.
fn scenarios_of<'a>(alloc: Global, items: &'a [Item]) -> Result<Vec<&'a Item>, AllocError>
    ensures { IfOk result (λ found. map (λ i. i.now) found.items ≡ scenarios_among items.now) }
{
    let mut found = Vec::new(alloc);
    for item in items {
        if let ItemObject::Scenario { .. } = &item.object {
            found.push(item)?;
        }
    }
    Ok(found)
}

/// What a Scenario says.
fn scenario_in(alloc: Global, object: &ItemObject) -> Result<Option<Scenario>, AllocError>
    ensures { IfOk result (λ scenario. scenario ≡ scenario_of_object object.now) }
{
    match object {
        ItemObject::Scenario { spec, .. } => Ok(Some(spec.copy(alloc)?)),
        _ => Ok(None),
    }
}

/// Refuses an input that lacks what a command speaks of.
fn check_some<T>(alloc: Global, found: &[T]) -> Result<(), Rejected>
    ensures { Reads (missing found.now) tt result }
{
    match found {
        [] => Err(refusal(alloc, Fault::MISSING_FIELD, &Location::root())),
        _ => Ok(()),
    }
}

/// Refuses a second object, by its name.
fn refuse_second(alloc: Global, name: &Text) -> Rejected
    ensures { IsRefusal (Some (duplicate root_place name.now)) result }
{
    match one_name(alloc, name) {
        Ok(detail) => told(alloc, Fault::DUPLICATE, &Location::root(), detail),
        Err(_) => Rejected::Memory,
    }
}

/// Refuses a second PipelineRun.
fn check_second_run(alloc: Global, runs: &[&RunSpec]) -> Result<(), Rejected>
    ensures { Reads (second_run (map (λ s. s.now) runs.now)) tt result }
{
    match runs {
        [_, run, ..] => Err(refuse_second(alloc, &run.name)),
        _ => Ok(()),
    }
}

/// Refuses a second object of a kind.
fn check_second(alloc: Global, items: &[&Item]) -> Result<(), Rejected>
    ensures { Reads (second_object (map (λ i. i.now) items.now)) tt result }
{
    match items {
        [_, item, ..] => Err(refuse_second(alloc, item.object.name())),
        _ => Ok(()),
    }
}

/// Refuses an input with no PipelineRun, no Outcomes, or two of either.
fn check_both(alloc: Global, runs: &[&RunSpec], outcomes: &[&Item]) -> Result<(), Rejected>
    ensures { Reads (first_of (missing (map (λ s. s.now) runs.now) ∷ missing (map (λ i. i.now) outcomes.now) ∷ second_run (map (λ s. s.now) runs.now) ∷ second_object (map (λ i. i.now) outcomes.now) ∷ [])) tt result }
{
    check_some(alloc, runs)?;
    check_some(alloc, outcomes)?;
    check_second_run(alloc, runs)?;
    check_second(alloc, outcomes)
}

/// The first of some, if there is one.
fn first<'a, T>(found: &[&'a T]) -> Option<&'a T>
    ensures { option_map (λ x. x.now) result ≡ slice_get (map (λ x. x.now) found.now) 0 }
{
    found.first().copied()
}

/// The facts of the run and the outcomes of an input: `decide` asks that there is one PipelineRun and one Outcomes,
/// whose children differ, each of a task of the run.
fn decided_facts(alloc: Global, items: &[Item], runs: &[Taken]) -> Result<Option<Facts>, Rejected>
    requires { All IsTaken runs.now }
    ensures found { Reads (command_finding WithOutcomes items.now runs.now) (facts_of_input items.now runs.now) result }
    ensures well_formed { IfOk result (λ facts. ForSome facts IsWellFormed) }
{
    let found = runs_of(alloc, runs)?;
    let outcomes = outcomes_of(alloc, items)?;
    check_both(alloc, found.as_slice(), outcomes.as_slice())?;
    facts_of(alloc, first(found.as_slice()), first(outcomes.as_slice()))
}

/// Refuses a second Scenario.
fn check_scenarios(alloc: Global, items: &[Item]) -> Result<(), Rejected>
    ensures { Reads (second_object (scenarios_among items.now)) tt result }
{
    let found = scenarios_of(alloc, items)?;
    check_second(alloc, found.as_slice())
}

/// What a command asks of its input, and the facts of a run and its outcomes where it speaks of them.
pub(crate) fn command_facts(
    alloc: Global,
    kinds: KindSet,
    items: &[Item],
    runs: &[Taken],
) -> Result<Option<Facts>, Rejected>
    requires { All IsTaken runs.now }
    ensures found { Reads (command_finding kinds items.now runs.now) (facts_asked kinds items.now runs.now) result }
    ensures well_formed { IfOk result (λ facts. ForSome facts IsWellFormed) }
{
    match kinds {
        KindSet::Four => Ok(None),
        KindSet::WithOutcomes => decided_facts(alloc, items, runs),
        KindSet::WithScenario => {
            check_scenarios(alloc, items)?;
            Ok(None)
        }
    }
}

/// The Scenario of an input, if there is one.
pub(crate) fn the_scenario(alloc: Global, items: &[Item]) -> Result<Option<Scenario>, AllocError>
    ensures { IfOk result (λ scenario. scenario ≡ first_scenario items.now) }
{
    let found = scenarios_of(alloc, items)?;
    match found.first() {
        Some(item) => scenario_in(alloc, &item.object),
        None => Ok(None),
    }
}
