ghost use Rattle.std.specs.Prelude.{map};
ghost use Rattle.serde_json.specs.View.{view};
ghost use Rattle.tk_types.specs.Rejected.{Reads};
ghost use Rattle.tk_scenario.specs.Scenario.{event as event_check, event_told, events_from, events_of, first_bad_event, written_events};

use crate::actors::Counts;
use crate::event::{event, reading_after};
use serde_json::Value;
use std::alloc::Global;
use tk_fields::elements_of;
use tk_types::{Event, Fault, List, Location, Rejected, refusal};

/// The event that a text tells while the clock has a reading; another text is `BadChoice`.
#[tactic(auto, unfolding(crate::specs::Scenario::event, crate::specs::Scenario::event_told))]
fn read_event(
    alloc: Global,
    counts: Counts,
    reading: u64,
    value: &Value,
    place: &Location<'_>,
) -> Result<Event, Rejected>
    ensures { Reads (event_check counts reading place.now (view value.now)) (event_told counts reading (view value.now)) result }
{
    let Some(text) = value.as_str() else {
        return Err(refusal(alloc, Fault::WRONG_SHAPE, place));
    };
    match event(alloc, counts, reading, text)? {
        Some(event) => Ok(event),
        None => Err(refusal(alloc, Fault::BAD_CHOICE, place)),
    }
}

/// The events of some texts, each at the reading that the clock has after those before.
fn read_texts(
    alloc: Global,
    counts: Counts,
    items: &[Value],
    place: &Location<'_>,
) -> Result<List<Event>, Rejected>
    ensures { Reads (first_bad_event counts place.now 0 0 (map view items.now)) (events_from counts 0 (map view items.now)) result }
{
    let mut events = List::new(alloc);
    let mut reading = 0;
    for item in items {
        let index = events.len() as u64;
        let event = read_event(alloc, counts, reading, item, &(&*place).at(index))?;
        reading = reading_after(reading, &event);
        events.push(event)?;
    }
    Ok(events)
}

/// The events of a scenario, none where they aren't written.
#[tactic(auto, unfolding(tk_fields::specs::Shape::field_finding, crate::specs::Scenario::events, crate::specs::Scenario::written_events, crate::specs::Scenario::events_of))]
pub(crate) fn read_events(
    alloc: Global,
    counts: Counts,
    spec: &Value,
    place: &Location<'_>,
) -> Result<List<Event>, Rejected>
    ensures { Reads (written_events counts place.now (view spec.now)) (events_of counts (view spec.now)) result }
{
    let Some(value) = spec.get("events") else {
        return Ok(List::new(alloc));
    };
    match elements_of(value) {
        Some(items) => read_texts(alloc, counts, items, &place.key("events")),
        None => Err(refusal(alloc, Fault::WRONG_SHAPE, &place.key("events"))),
    }
}
