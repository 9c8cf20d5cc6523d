ghost use Rattle.serde_json.specs.View.{view};
ghost use Rattle.tk_types.specs.Rejected.{Reads};
ghost use Rattle.tk_fields.specs.Get.{number_of};
ghost use Rattle.tk_fields.specs.Shape.{field_finding, optional as optional_field};
ghost use Rattle.tk_scenario.specs.Scenario.{actors, count_at, counts, counts_of, keys, outcomes_of, scenario, scenario_of, written_outcomes};

use crate::actors::Counts;
use crate::events::read_events;
use crate::outcomes::OutcomesForm;
use serde_json::Value;
use std::alloc::Global;
use tk_fields::{Reader, check_object, field_table, optional, or_empty};
use tk_types::{Fault, List, Location, Rejected, Scenario, Scripted, refusal};

/// The form of a number of controllers or of kubelets: 1 to 8.
struct CountForm;

impl Reader for CountForm {
    type Out = u32;

    ghost check = { actors };

    ghost value_of = { number_of };

    fn read(alloc: Global, value: &Value, place: &Location<'_>) -> Result<u32, Rejected> {
        match value.as_u64() {
            Some(number) if 1 <= number && number <= 8 => Ok(number as u32),
            Some(_) => Err(refusal(alloc, Fault::BAD_CHOICE, place)),
            None => Err(refusal(alloc, Fault::WRONG_SHAPE, place)),
        }
    }
}

/// How many controllers or kubelets there are, 1 where it isn't written.
fn read_count(alloc: Global, spec: &Value, place: &Location<'_>, key: &str) -> Result<u32, Rejected>
    ensures { Reads (field_finding place.now (view spec.now) (optional_field key.now actors)) (count_at key.now (view spec.now)) result }
{
    Ok(optional::<CountForm>(alloc, spec, place, key)?.unwrap_or(1))
}

/// How many controllers and kubelets there are.
#[tactic(auto, unfolding(crate::specs::Scenario::counts))]
fn read_counts(alloc: Global, spec: &Value, place: &Location<'_>) -> Result<Counts, Rejected>
    ensures { Reads (counts place.now (view spec.now)) (counts_of (view spec.now)) result }
{
    Ok(Counts {
        controllers: read_count(alloc, spec, place, "controllers")?,
        kubelets: read_count(alloc, spec, place, "kubelets")?,
    })
}

/// The outcomes of a scenario, none where they aren't written.
#[tactic(auto, unfolding(crate::specs::Scenario::written_outcomes, crate::specs::Scenario::outcomes_of))]
fn read_outcomes(
    alloc: Global,
    spec: &Value,
    place: &Location<'_>,
) -> Result<List<Scripted>, Rejected>
    ensures { Reads (written_outcomes place.now (view spec.now)) (outcomes_of (view spec.now)) result }
{
    or_empty::<OutcomesForm>(alloc, spec, place, "outcomes")
}

/// Refuses a value that is no object, and then its first key that no scenario has.
#[tactic(auto, unfolding(crate::specs::Scenario::keys))]
fn check_keys(alloc: Global, spec: &Value, place: &Location<'_>) -> Result<(), Rejected>
    ensures { Reads (keys place.now (view spec.now)) tt result }
{
    let table = field_table!(Used "controllers" "kubelets" "outcomes" "events");
    check_object(alloc, spec, &table, place)
}

/// The scenario of a Scenario's `spec`, or what is wrong with it first: a value of a wrong shape, a missing or an
/// unknown field, or a choice that isn't one, which is a count outside 1 to 8, the later of two outcomes of one
/// attempt, and a text that tells no event. The only other error is want of memory. Of n outcomes it takes time in n
/// times its logarithm.
pub fn read_scenario(
    alloc: Global,
    spec: &Value,
    place: &Location<'_>,
) -> Result<Scenario, Rejected>
    ensures { Reads (scenario place.now (view spec.now)) (scenario_of (view spec.now)) result }
{
    check_keys(alloc, spec, place)?;
    let counts = read_counts(alloc, spec, place)?;
    Ok(Scenario {
        controllers: counts.controllers,
        kubelets: counts.kubelets,
        outcomes: read_outcomes(alloc, spec, place)?,
        events: read_events(alloc, counts, spec, place)?,
    })
}
