ghost use Rattle.std.specs.Prelude.{◌≡◌, [], ◌∷◌, map, codes, IfOk};
ghost use Rattle.tk_types.specs.First.{first_of};
ghost use Rattle.tk_types.specs.declared.scenario.Event.TheVariants.{Deliver, Relist};
ghost use Rattle.tk_scenario.specs.Event.{deliver_of, deliver_all_of, relist_of, move_of, turn_of, restart_of, ask_of, clock_of, round_of, event_by, event_of, reading_after as after};

use crate::actors::Counts;
use crate::words::{kind, number, status, taker, viewer, words};
use std::alloc::{AllocError, Global};
use tk_names::is_object_name;
use tk_types::{Event, Text};

/// `deliver A i K n`, behind its verb.
fn deliver(counts: Counts, who: &str, i: &str, of_kind: &str, n: &str) -> Option<Event>
    ensures { result ≡ move_of Deliver counts who.now i.now of_kind.now n.now }
{
    Some(Event::Deliver {
        viewer: viewer(counts, who, i)?,
        kind: kind(of_kind)?,
        n: number(n)?,
    })
}

/// `relist A i K p`, behind its verb.
fn relist(counts: Counts, who: &str, i: &str, of_kind: &str, p: &str) -> Option<Event>
    ensures { result ≡ move_of Relist counts who.now i.now of_kind.now p.now }
{
    Some(Event::Relist {
        viewer: viewer(counts, who, i)?,
        kind: kind(of_kind)?,
        position: number(p)?,
    })
}

/// The event of five words.
fn of_five(counts: Counts, verb: &str, who: &str, i: &str, of_kind: &str, n: &str) -> Option<Event>
    ensures { let words = verb.now ∷ who.now ∷ i.now ∷ of_kind.now ∷ n.now ∷ [] in result ≡ first_of (deliver_of counts words ∷ relist_of counts words ∷ []) }
{
    match verb {
        "deliver" => deliver(counts, who, i, of_kind, n),
        "relist" => relist(counts, who, i, of_kind, n),
        _ => None,
    }
}

/// `deliver A i all`.
fn of_four(counts: Counts, verb: &str, who: &str, i: &str, every: &str) -> Option<Event>
    ensures { result ≡ deliver_all_of counts (verb.now ∷ who.now ∷ i.now ∷ every.now ∷ []) }
{
    match (verb, every) {
        ("deliver", "all") => Some(Event::DeliverAll {
            viewer: viewer(counts, who, i)?,
        }),
        _ => None,
    }
}

/// `turn runs i`, `turn tasks i` and `turn kubelet i`.
fn turn(counts: Counts, who: &str, i: &str) -> Option<Event>
    ensures { result ≡ turn_of counts (codes "turn" ∷ who.now ∷ i.now ∷ []) }
{
    Some(Event::Turn(taker(counts, who, i)?))
}

/// `restart A i`.
fn restart(counts: Counts, who: &str, i: &str) -> Option<Event>
    ensures { result ≡ restart_of counts (codes "restart" ∷ who.now ∷ i.now ∷ []) }
{
    Some(Event::Restart {
        viewer: viewer(counts, who, i)?,
    })
}

/// `ask NAME STATUS`. The only error is want of memory.
fn ask(alloc: Global, name: &str, word: &str) -> Result<Option<Event>, AllocError>
    ensures { IfOk result (λ event. event ≡ ask_of (codes "ask" ∷ name.now ∷ word.now ∷ [])) }
{
    match status(word) {
        Some(status) if is_object_name(name) => Ok(Some(Event::Ask {
            name: Text::from_str(alloc, name)?,
            status,
        })),
        _ => Ok(None),
    }
}

/// The event of three words. The only error is want of memory.
fn of_three(
    alloc: Global,
    counts: Counts,
    verb: &str,
    first: &str,
    second: &str,
) -> Result<Option<Event>, AllocError>
    ensures { let words = verb.now ∷ first.now ∷ second.now ∷ [] in IfOk result (λ event. event ≡ first_of (turn_of counts words ∷ restart_of counts words ∷ ask_of words ∷ [])) }
{
    match verb {
        "turn" => Ok(turn(counts, first, second)),
        "restart" => Ok(restart(counts, first, second)),
        "ask" => ask(alloc, first, second),
        _ => Ok(None),
    }
}

/// `clock m`, not before the clock's reading.
fn of_two(reading: u64, verb: &str, m: &str) -> Option<Event>
    ensures { result ≡ clock_of reading (verb.now ∷ m.now ∷ []) }
{
    if verb != "clock" {
        return None;
    }
    let moment = number(m)?;
    if reading <= moment && moment <= 253_402_300_799_999 {
        Some(Event::Clock(moment))
    } else {
        None
    }
}

/// `round`.
fn of_one(verb: &str) -> Option<Event>
    ensures { result ≡ round_of (verb.now ∷ []) }
{
    if verb == "round" {
        Some(Event::Round)
    } else {
        None
    }
}

/// The event of some words, while the clock has a reading. The only error is want of memory.
fn of_words(
    alloc: Global,
    counts: Counts,
    reading: u64,
    words: &[&str],
) -> Result<Option<Event>, AllocError>
    ensures { IfOk result (λ event. event ≡ event_by counts reading (map (λ x. x.now) words.now)) }
{
    match words {
        [] => Ok(None),
        [verb] => Ok(of_one(verb)),
        [verb, m] => Ok(of_two(reading, verb, m)),
        [verb, first, second] => of_three(alloc, counts, verb, first, second),
        [verb, who, i, every] => Ok(of_four(counts, verb, who, i, every)),
        [verb, who, i, of_kind, n] => Ok(of_five(counts, verb, who, i, of_kind, n)),
        [_, _, _, _, _, _, ..] => Ok(None),
    }
}

/// The event that a text tells while the clock has a reading. The only error is want of memory.
pub(crate) fn event(
    alloc: Global,
    counts: Counts,
    reading: u64,
    text: &str,
) -> Result<Option<Event>, AllocError>
    ensures { IfOk result (λ event. event ≡ event_of counts reading text.now) }
{
    of_words(alloc, counts, reading, words(alloc, text)?.as_slice())
}

/// The clock's reading after an event.
pub(crate) fn reading_after(reading: u64, event: &Event) -> u64
    ensures { result ≡ after reading event.now }
{
    match event {
        Event::Clock(moment) => *moment,
        _ => reading,
    }
}
