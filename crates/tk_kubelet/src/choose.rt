//! Which pod a kubelet ends first, and which it claims first, by its cache and by what it holds.
ghost use Rattle.std.specs.Prelude.{◌≡◌, ◌<◌, ℕ, List as Items, Some, bytes_eq, option_copied, option_and_then, length, find, slice_get, IfSome};
ghost use Rattle.tk_cache.specs.Views.{seen};
ghost use Rattle.tk_journal.specs.PodRows.{is_held_by as the_held_by};
ghost use Rattle.tk_pod_cache.specs.Marks.{ArePodsMarked, is_unclaimed as the_unclaimed};
ghost use Rattle.tk_kubelet.specs.Choice.{AreReadable, IsNextBelow, IsReadable, claimed_before as the_before, ends_held as the_ends_held, ends_pod as the_ends_pod, first_claim as the_first_claim, first_end as the_first_end, has_room as the_room, held_named as the_held, is_over_pod as the_over};

use tk_cache::Cache;
use tk_held::judge;
use tk_journal::{Claim, PodState};
use tk_outcome::is_walked;
use tk_places::Places;
use tk_pod_cache::{PodMarks, is_unclaimed};
use tk_steps::HeldPod;

/// Whether a call for the pod failed, or its walk is over.
fn is_over_pod(pod: &HeldPod) -> bool
    requires { IsReadable pod.now }
    ensures { result ≡ the_over pod.now }
{
    pod.failed || is_walked(pod)
}

/// Whether a held pod is marked, late or over.
fn ends_held(cache: &Cache, moment: u64, pod: &HeldPod) -> bool
    requires { IsReadable pod.now }
    ensures { result ≡ the_ends_held (seen cache.now).view moment pod.now }
{
    judge(cache, pod.name.as_str(), moment).is_some() || is_over_pod(pod)
}

/// The held pod of this name.
fn held_named<'a>(held: &'a [HeldPod], name: &str) -> Option<&'a HeldPod>
    ensures { option_copied result ≡ the_held held.now name.now }
{
    held.iter().find(|pod| pod.name.as_str() == name)
}

fn is_named(pod: &HeldPod, name: &str) -> bool
    ensures { result ≡ bytes_eq pod.now.name name.now }
{
    pod.name.as_str() == name
}

/// The place of the held pod of this name.
pub(crate) fn place_named(held: &[HeldPod], name: &str) -> Option<usize>
    ensures first { the_held held.now name.now ≡ option_and_then (slice_get held.now) result }
    ensures within { IfSome result (λ place. place < length held.now) }
{
    for place in 0..held.len() {
        if is_named(&held[place], name) {
            return Some(place);
        }
    }
    None
}

/// Whether an EndPod of the pod of this name, which stands so, is one of the kubelet's.
fn ends_pod(
    me: Claim,
    cache: &Cache,
    moment: u64,
    held: &[HeldPod],
    name: &str,
    state: &PodState,
) -> bool
    requires is { (seen cache.now).view.pod name.now ≡ Some state.now }
    requires readable { IfSome (the_held held.now name.now) IsReadable }
    ensures { result ≡ the_ends_pod me.number me.life (seen cache.now).view moment held.now name.now }
{
    if state.ended.is_some() {
        return false;
    }
    let Some(claim) = state.claim else {
        return false;
    };
    if claim.number != me.number {
        return false;
    }
    if claim.life < me.life {
        return true;
    }
    if claim.life != me.life {
        return false;
    }
    match held_named(held, name) {
        None => false,
        Some(pod) => ends_held(cache, moment, pod),
    }
}

/// The first place of a set, from this one on, that is below an end.
fn next_below(places: &Places, from: u64, end: u64) -> Option<u64>
    ensures { IsNextBelow end from places.now result }
{
    let place = places.next(from)?;
    if place < end { Some(place) } else { None }
}

/// The first pod, in order of creation, that the kubelet ends.
#[tactic(auto, using(crate::proofs::Found::named_readable))]
pub(crate) fn first_end<'a>(
    me: Claim,
    cache: &'a Cache,
    marks: &PodMarks,
    moment: u64,
    held: &[HeldPod],
) -> Option<&'a str>
    requires marked { ArePodsMarked (seen cache.now).view marks.now }
    requires readable { AreReadable held.now }
    ensures { option_copied result ≡ the_first_end me.number me.life (seen cache.now).view moment held.now }
{
    let end = cache.pod_count();
    let mut at = 0;
    while let Some(place) = next_below(&marks.held, at, end) {
        let name = cache.pod_name(place);
        if ends_pod(me, cache, moment, held, name, cache.pod_at(place)) {
            return Some(name);
        }
        at = place + 1;
    }
    None
}

/// Whether the kubelet claimed a pod and hasn't ended it.
fn is_held_by(number: u32, state: &PodState) -> bool
    ensures { result ≡ the_held_by number (Some state.now) }
{
    match state.claim {
        None => false,
        Some(claim) => claim.number == number && state.ended.is_none(),
    }
}

/// Whether fewer than 8 unended pods are claimed by the kubelet.
fn has_room(number: u32, cache: &Cache, marks: &PodMarks) -> bool
    requires { ArePodsMarked (seen cache.now).view marks.now }
    ensures { result ≡ the_room number (seen cache.now).view }
{
    let mut count: u64 = 0;
    let end = cache.pod_count();
    let mut at = 0;
    while let Some(place) = next_below(&marks.held, at, end) {
        if is_held_by(number, cache.pod_at(place)) {
            count += 1;
        }
        at = place + 1;
    }
    count < 8
}

/// The first pod, in order of creation, that nobody claimed.
fn first_unclaimed<'a>(cache: &'a Cache, marks: &PodMarks) -> Option<&'a str>
    requires { ArePodsMarked (seen cache.now).view marks.now }
    ensures { option_copied result ≡ find (λ (name : Items ℕ). the_unclaimed ((seen cache.now).view.pod name)) (seen cache.now).view.pods }
{
    let end = cache.pod_count();
    let mut at = 0;
    while let Some(place) = next_below(&marks.unclaimed, at, end) {
        let name = cache.pod_name(place);
        if is_unclaimed(cache.pod_at(place)) {
            return Some(name);
        }
        at = place + 1;
    }
    None
}

/// The first pod, in order of creation, that the kubelet may claim.
pub(crate) fn first_claim<'a>(number: u32, cache: &'a Cache, marks: &PodMarks) -> Option<&'a str>
    requires { ArePodsMarked (seen cache.now).view marks.now }
    ensures { option_copied result ≡ the_first_claim number (seen cache.now).view }
{
    if has_room(number, cache, marks) {
        first_unclaimed(cache, marks)
    } else {
        None
    }
}

/// Whether an earlier life claimed the pod of this name.
pub(crate) fn claimed_before(life: u32, cache: &Cache, name: &str) -> bool
    ensures { result ≡ the_before life ((seen cache.now).view.pod name.now) }
{
    let Some(state) = cache.pod(name) else {
        return false;
    };
    match state.claim {
        None => false,
        Some(claim) => claim.life < life,
    }
}
