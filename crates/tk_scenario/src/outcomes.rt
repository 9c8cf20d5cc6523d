ghost use Rattle.std.specs.Prelude.{◌≡◌, [], Some, map};
ghost use Rattle.serde_json.specs.View.{view};
ghost use Rattle.tk_types.specs.Fault.{bad_choice};
ghost use Rattle.tk_types.specs.Place.{◌#◌};
ghost use Rattle.tk_types.specs.Rejected.{IsRefusal, Reads};
ghost use Rattle.tk_fields.specs.Get.{number_at as number_of_field, text_at as text_of_field, list_of};
ghost use Rattle.tk_scenario.specs.Scenario.{first_bad_outcome, outcome, outcome_of, outcomes};

use serde_json::Value;
use std::alloc::Global;
use std::collections::BTreeSet;
use tk_fields::{
    AnyText, Below8, Below32, Each, EachMember, OrEmpty, Reader, TextEntry, check_object,
    elements_of, field_table, or_empty, required,
};
use tk_types::{Fault, List, Location, Rejected, Scripted, refusal};

/// The form of an outcome.
struct OutcomeForm;

impl Reader for OutcomeForm {
    type Out = Scripted;

    ghost check = { outcome };

    ghost value_of = { outcome_of };

    fn read(alloc: Global, value: &Value, place: &Location<'_>) -> Result<Scripted, Rejected> {
        let table = field_table!(Used "taskRun" "attempt" "exits" "results");
        check_object(alloc, value, &table, place)?;
        Ok(Scripted {
            task_run: required::<AnyText>(alloc, value, place, "taskRun")?,
            attempt: required::<Below32>(alloc, value, place, "attempt")?,
            exits: or_empty::<Each<Below8>>(alloc, value, place, "exits")?,
            files: or_empty::<EachMember<TextEntry>>(alloc, value, place, "results")?,
        })
    }
}

/// The text at a key, empty where there is none.
fn text_at<'a>(object: &'a Value, key: &str) -> &'a str
    ensures { result.now ≡ text_of_field key.now (view object.now) }
{
    match object.get(key) {
        Some(value) => value.as_str().unwrap_or(""),
        None => "",
    }
}

/// The whole number at a key, 0 where there is none.
fn number_at(object: &Value, key: &str) -> u64
    ensures { result ≡ number_of_field key.now (view object.now) }
{
    match object.get(key) {
        Some(value) => value.as_u64().unwrap_or(0),
        None => 0,
    }
}

/// The outcome at an index of a list.
fn read_element(
    alloc: Global,
    item: &Value,
    place: &Location<'_>,
    index: u64,
) -> Result<Scripted, Rejected>
    ensures { Reads (outcome (place.now # index) (view item.now)) (outcome_of (view item.now)) result }
{
    OutcomeForm::read(alloc, item, &place.at(index))
}

/// What is wrong with an outcome at an index of a list whose attempt stands before.
fn stands_before(alloc: Global, place: &Location<'_>, index: u64) -> Rejected
    ensures { IsRefusal (Some (bad_choice (place.now # index))) result }
{
    refusal(alloc, Fault::BAD_CHOICE, &place.at(index))
}

/// Outcomes in order, no two of one attempt; the later of two is `BadChoice`.
#[tactic(auto, unfolding(crate::specs::Scenario::new_outcome))]
fn read_items(
    alloc: Global,
    items: &[Value],
    place: &Location<'_>,
) -> Result<List<Scripted>, Rejected>
    ensures { Reads (first_bad_outcome place.now 0 [] (map view items.now)) (map outcome_of (map view items.now)) result }
{
    let mut outcomes = List::new(alloc);
    let mut seen: BTreeSet<(&str, u64)> = BTreeSet::new(alloc);
    for item in items {
        let index = outcomes.len() as u64;
        let outcome = read_element(alloc, item, place, index)?;
        if !seen.insert((text_at(item, "taskRun"), number_at(item, "attempt")))? {
            return Err(stands_before(alloc, place, index));
        }
        outcomes.push(outcome)?;
    }
    Ok(outcomes)
}

/// The form of a scenario's outcomes.
pub(crate) struct OutcomesForm;

impl Reader for OutcomesForm {
    type Out = List<Scripted>;

    ghost check = { outcomes };

    ghost value_of = { list_of outcome_of };

    #[tactic(auto, unfolding(crate::specs::Scenario::outcomes))]
    fn read(
        alloc: Global,
        value: &Value,
        place: &Location<'_>,
    ) -> Result<List<Scripted>, Rejected> {
        match elements_of(value) {
            Some(items) => read_items(alloc, items, place),
            None => Err(refusal(alloc, Fault::WRONG_SHAPE, place)),
        }
    }
}

impl OrEmpty for OutcomesForm {
    fn empty(alloc: Global) -> List<Scripted> {
        List::new(alloc)
    }
}
