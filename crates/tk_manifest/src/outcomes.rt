ghost use Rattle.std.specs.Prelude.{◌≡◌, ◌^◌, ◌<◌, codes, map};
ghost use Rattle.serde_json.specs.View.{view};
ghost use Rattle.tk_types.specs.Rejected.{Reads};
ghost use Rattle.tk_fields.specs.Get.{list_of, number_at, text_at};
ghost use Rattle.tk_manifest.specs.Outcomes.{child, child_back, child_front, child_keys, child_of, exit_of, first_low, misplaced, outcome_named, outcome_with, outcome_words, outcomes, outcomes_fields, outcomes_keys, outcomes_of, param_named, results_of, rising_stops, stop_above, stop_of, word_of};

use crate::parameter::{ValueForm, has_field};
use serde_json::Value as Json;
use std::alloc::Global;
use tk_fields::{
    AnyText, Below8, Below32, Each, EachMember, Entry, OneOf, OrEmpty, Reader, Words, check_object,
    elements_of, field_table, optional, or_empty, required,
};
use tk_types::{
    Fault, List, Location, Outcome, OutcomesChild, OutcomesSpec, Param, Rejected, Stop, Text,
    Value, refusal,
};

/// A stop whose level is above another, else `BadChoice`.
#[tactic(auto, unfolding(crate::specs::Outcomes::stop_above, crate::specs::Outcomes::stop_of))]
fn read_stop(
    alloc: Global,
    value: &Json,
    level: u32,
    place: &Location<'_>,
) -> Result<Stop, Rejected>
    ensures { Reads (stop_above level place.now (view value.now)) (stop_of (view value.now)) result }
{
    let Some(name) = value.as_str() else {
        return Err(refusal(alloc, Fault::WRONG_SHAPE, place));
    };
    match Stop::named(name) {
        Some(stop) if level < stop.level() => Ok(stop),
        _ => Err(refusal(alloc, Fault::BAD_CHOICE, place)),
    }
}

/// Stops whose levels rise.
fn read_stops(alloc: Global, items: &[Json], place: &Location<'_>) -> Result<List<Stop>, Rejected>
    ensures { Reads (first_low place.now 0 0 (map view items.now)) (map stop_of (map view items.now)) result }
{
    let mut stops = List::new(alloc);
    let mut level = 0;
    for item in items {
        let index = stops.len() as u64;
        let stop = read_stop(alloc, item, level, &(&*place).at(index))?;
        level = stop.level();
        stops.push(stop)?;
    }
    Ok(stops)
}

/// The recorded stops of a run, in order.
pub struct StopsForm;

impl Reader for StopsForm {
    type Out = List<Stop>;

    ghost check = { rising_stops };

    ghost value_of = { list_of stop_of };

    #[tactic(auto, unfolding(crate::specs::Outcomes::rising_stops))]
    fn read(alloc: Global, value: &Json, place: &Location<'_>) -> Result<List<Stop>, Rejected> {
        match elements_of(value) {
            Some(items) => read_stops(alloc, items, place),
            None => Err(refusal(alloc, Fault::WRONG_SHAPE, place)),
        }
    }
}

impl OrEmpty for StopsForm {
    fn empty(alloc: Global) -> List<Stop> {
        List::new(alloc)
    }
}

/// The words for the outcome of a child.
#[derive(Clone, Copy, Debug, PartialEq, Eq)]
pub enum OutcomeWord {
    Succeeded,
    Failed,
    TimedOut,
    Cancelled,
    Lost,
    Running,
}

/// The words of a child's `outcome`.
pub struct OutcomeWords;

impl Words for OutcomeWords {
    type Meaning = OutcomeWord;

    ghost words = { outcome_words };

    ghost meaning = { outcome_named };

    fn meaning_of(word: &str) -> Option<OutcomeWord> {
        match word {
            "Succeeded" => Some(OutcomeWord::Succeeded),
            "Failed" => Some(OutcomeWord::Failed),
            "TimedOut" => Some(OutcomeWord::TimedOut),
            "Cancelled" => Some(OutcomeWord::Cancelled),
            "Lost" => Some(OutcomeWord::Lost),
            "Running" => Some(OutcomeWord::Running),
            _ => None,
        }
    }
}

/// A result of a child: its name and its value.
pub struct ResultEntry;

impl Entry for ResultEntry {
    type Form = ValueForm;

    type Out = Param;

    ghost made = { param_named };

    fn make(key: Text, value: Value) -> Param {
        Param { name: key, value }
    }
}

/// The outcome that a word, an exit and results tell; none of a child that runs.
#[tactic(auto, unfolding(crate::specs::Outcomes::outcome_with))]
fn outcome_by(word: OutcomeWord, exit: Option<u8>, results: List<Param>) -> Option<Outcome>
    ensures { result ≡ outcome_with word exit results }
{
    match word {
        OutcomeWord::Succeeded => Some(Outcome::Succeeded(results)),
        OutcomeWord::Failed => Some(Outcome::Failed { exit, results }),
        OutcomeWord::TimedOut => Some(Outcome::TimedOut),
        OutcomeWord::Cancelled => Some(Outcome::Cancelled),
        OutcomeWord::Lost => Some(Outcome::Lost),
        OutcomeWord::Running => None,
    }
}

/// Refuses an exit of what didn't fail, and results of what neither succeeded nor failed.
#[tactic(auto, unfolding(crate::specs::Outcomes::misplaced))]
fn check_misplaced(
    alloc: Global,
    word: OutcomeWord,
    has_exit: bool,
    has_results: bool,
    place: &Location<'_>,
) -> Result<(), Rejected>
    ensures { Reads (misplaced word has_exit has_results place.now) tt result }
{
    match (word, has_exit, has_results) {
        (OutcomeWord::Failed, _, _) => Ok(()),
        (_, true, _) => Err(refusal(alloc, Fault::BAD_CHOICE, &place.key("exit"))),
        (OutcomeWord::Succeeded, false, _) => Ok(()),
        (_, false, true) => Err(refusal(alloc, Fault::BAD_CHOICE, &place.key("results"))),
        (_, false, false) => Ok(()),
    }
}

/// Refuses what is no object with the keys of a child.
#[tactic(auto, unfolding(crate::specs::Outcomes::child_keys))]
fn check_child(alloc: Global, value: &Json, place: &Location<'_>) -> Result<(), Rejected>
    ensures { Reads (child_keys place.now (view value.now)) tt result }
{
    let table = field_table!(Used "task" "index" "outcome" "exit" "results");
    check_object(alloc, value, &table, place)
}

/// The task of a child, its index and the word for its outcome.
#[tactic(auto, unfolding(crate::specs::Outcomes::child_front))]
fn read_front(
    alloc: Global,
    value: &Json,
    place: &Location<'_>,
) -> Result<(Text, u32, OutcomeWord), Rejected>
    ensures { Reads (child_front place.now (view value.now)) (text_at (codes "task") (view value.now), number_at (codes "index") (view value.now), word_of (view value.now)) result }
{
    let task = required::<AnyText>(alloc, value, place, "task")?;
    let index = required::<Below32>(alloc, value, place, "index")?;
    let word = required::<OneOf<OutcomeWords>>(alloc, value, place, "outcome")?;
    Ok((task, index, word))
}

/// The exit of a child, and its results.
#[tactic(auto, unfolding(crate::specs::Outcomes::child_back))]
fn read_back(
    alloc: Global,
    value: &Json,
    place: &Location<'_>,
) -> Result<(Option<u8>, List<Param>), Rejected>
    ensures { Reads (child_back place.now (view value.now)) (exit_of (view value.now), results_of (view value.now)) result }
{
    let exit = optional::<Below8>(alloc, value, place, "exit")?;
    let results = or_empty::<EachMember<ResultEntry>>(alloc, value, place, "results")?;
    Ok((exit, results))
}

/// A child of the run that is judged.
pub struct ChildForm;

impl Reader for ChildForm {
    type Out = OutcomesChild;

    ghost check = { child };

    ghost value_of = { child_of };

    #[tactic(auto, unfolding(crate::specs::Outcomes::child, crate::specs::Outcomes::child_of))]
    fn read(alloc: Global, value: &Json, place: &Location<'_>) -> Result<OutcomesChild, Rejected> {
        check_child(alloc, value, place)?;
        let (task, index, word) = read_front(alloc, value, place)?;
        let (exit, results) = read_back(alloc, value, place)?;
        let has_exit = has_field(value, "exit");
        check_misplaced(alloc, word, has_exit, has_field(value, "results"), place)?;
        Ok(OutcomesChild {
            task,
            index,
            outcome: outcome_by(word, exit, results),
        })
    }
}

/// Refuses what is no object with the keys of a run's outcomes.
#[tactic(auto, unfolding(crate::specs::Outcomes::outcomes_keys))]
fn check_outcomes(alloc: Global, value: &Json, place: &Location<'_>) -> Result<(), Rejected>
    ensures { Reads (outcomes_keys place.now (view value.now)) tt result }
{
    check_object(alloc, value, &field_table!(Used "stops" "children"), place)
}

/// The stops and the children of a run.
#[tactic(auto, unfolding(crate::specs::Outcomes::outcomes_fields, crate::specs::Outcomes::outcomes_of))]
fn read_outcomes(
    alloc: Global,
    value: &Json,
    place: &Location<'_>,
) -> Result<OutcomesSpec, Rejected>
    ensures { Reads (outcomes_fields place.now (view value.now)) (outcomes_of (view value.now)) result }
{
    Ok(OutcomesSpec {
        stops: or_empty::<StopsForm>(alloc, value, place, "stops")?,
        children: or_empty::<Each<ChildForm>>(alloc, value, place, "children")?,
    })
}

/// What is recorded of the run that `decide` judges.
pub struct OutcomesForm;

impl Reader for OutcomesForm {
    type Out = OutcomesSpec;

    ghost check = { outcomes };

    ghost value_of = { outcomes_of };

    #[tactic(auto, unfolding(crate::specs::Outcomes::outcomes))]
    fn read(alloc: Global, value: &Json, place: &Location<'_>) -> Result<OutcomesSpec, Rejected> {
        check_outcomes(alloc, value, place)?;
        Ok(read_outcomes(alloc, value, place)?)
    }
}
