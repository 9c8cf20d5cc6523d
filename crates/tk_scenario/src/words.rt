ghost use Rattle.std.specs.Prelude.{◌≡◌, ◌==◌, map, IfOk};
ghost use Rattle.std.specs.List.{list_all};
ghost use Rattle.std.specs.Char.{is_ascii_digit};
ghost use Rattle.tk_scenario.specs.Words.{words_of, has_leading_zero as leading_zero, is_numeral as numeral, number_told, index_told, kind_told, status_told, viewer_told, taker_told};

use crate::actors::Counts;
use std::alloc::{AllocError, Global};
use tk_types::{Asked, Kind, Taker, Viewer};

/// The words of a text: a space stands between two.
pub(crate) fn words(alloc: Global, text: &str) -> Result<Vec<&str>, AllocError>
    ensures { IfOk result (λ v. map (λ x. x.now) v.items ≡ words_of text.now) }
{
    text.split(' ').collect(alloc)
}

/// Whether a second byte follows a `0`.
fn has_leading_zero(word: &[u8]) -> bool
    ensures { result ≡ leading_zero word.now }
{
    match word {
        [first, _, ..] => *first == b'0',
        _ => false,
    }
}

fn all_digits(word: &[u8]) -> bool
    ensures { result ≡ list_all is_ascii_digit word.now }
{
    word.iter().all(|b| b.is_ascii_digit())
}

/// Whether the word is digits, the first of several not 0.
fn is_numeral(word: &[u8]) -> bool
    ensures { result ≡ numeral word.now }
{
    !word.is_empty() && all_digits(word) && !has_leading_zero(word)
}

/// The number that a word tells.
pub(crate) fn number(word: &str) -> Option<u64>
    ensures { result ≡ number_told word.now }
{
    if !is_numeral(word.as_bytes()) {
        return None;
    }
    word.parse::<u64>().ok()
}

/// The index that a word tells, below a count.
fn index(count: u32, word: &str) -> Option<u32>
    ensures { result ≡ index_told count word.now }
{
    match number(word) {
        Some(i) if i < u64::from(count) => Some(i as u32),
        _ => None,
    }
}

/// The kind that a word names.
pub(crate) fn kind(word: &str) -> Option<Kind>
    ensures { result ≡ kind_told word.now }
{
    match word {
        "runs" => Some(Kind::Runs),
        "taskruns" => Some(Kind::TaskRuns),
        "pods" => Some(Kind::Pods),
        _ => None,
    }
}

/// The status that a word names.
pub(crate) fn status(word: &str) -> Option<Asked>
    ensures { result ≡ status_told word.now }
{
    match word {
        "Start" => Some(Asked::Start),
        "StoppedRunFinally" => Some(Asked::StoppedRunFinally),
        "CancelledRunFinally" => Some(Asked::CancelledRunFinally),
        "Cancelled" => Some(Asked::Cancelled),
        "TaskRunCancelled" => Some(Asked::TaskRunCancelled),
        _ => None,
    }
}

/// Who has a cache, by the actor's word and its index.
pub(crate) fn viewer(counts: Counts, who: &str, i: &str) -> Option<Viewer>
    ensures { result ≡ viewer_told counts who.now i.now }
{
    match who {
        "controller" => Some(Viewer::Controller(index(counts.controllers, i)?)),
        "kubelet" => Some(Viewer::Kubelet(index(counts.kubelets, i)?)),
        _ => None,
    }
}

/// Who takes turns, by the actor's word and its index.
pub(crate) fn taker(counts: Counts, who: &str, i: &str) -> Option<Taker>
    ensures { result ≡ taker_told counts who.now i.now }
{
    match who {
        "runs" => Some(Taker::Runs(index(counts.controllers, i)?)),
        "tasks" => Some(Taker::Tasks(index(counts.controllers, i)?)),
        "kubelet" => Some(Taker::Kubelet(index(counts.kubelets, i)?)),
        _ => None,
    }
}
