ghost use Rattle.std.specs.Prelude.{◌≡◌, ◌<◌, ◌^◌, IfOk, IfSome, None, drop, reverse, true};
ghost use Rattle.tk_journal.specs.Legal.{is_admit as the_is_admit};
ghost use Rattle.tk_lives.specs.Taking.{GoesOnFrom, IsFirst, first_difference as the_first_difference, fits_first, same_entry as the_same_entry};

use std::alloc::{AllocError, Global};
use tk_journal::{Act, Entry, Journal};
use tk_payload::entry_bytes;

/// Whether the entry admits.
fn is_admit(entry: &Entry) -> bool
    ensures { result ≡ the_is_admit entry.now.act }
{
    matches!(entry.act, Act::Admit { .. })
}

/// Whether two entries have one text, and so are one. The only error is want of memory.
fn same_entry(alloc: Global, one: &Entry, other: &Entry) -> Result<bool, AllocError>
    ensures texts { IfOk result (λ same. same ≡ the_same_entry one.now other.now) }
    ensures one { IfOk result (λ same. same ≡ true → one.now ≡ other.now) }
{
    let first = entry_bytes(alloc, one)?;
    let second = entry_bytes(alloc, other)?;
    Ok(first.as_slice() == second.as_slice())
}

/// Whether an entry at this place is the Admit entry there, or admits nothing where there is none. The only error is want
/// of memory.
fn fits_at(alloc: Global, entry: &Entry, given: &[Entry], place: u64) -> Result<bool, AllocError>
    ensures fits { IfOk result (λ fits. fits ≡ fits_first entry.now (drop place given.now)) }
    ensures first { IfOk result (λ fits. fits ≡ true → IsFirst entry.now (drop place given.now)) }
{
    match given.get(place as usize) {
        Some(admit) => same_entry(alloc, entry, admit),
        None => Ok(!is_admit(entry)),
    }
}

/// The first place, counted from 0, where the entries of a journal aren't the Admit entries of an input, one after another,
/// or where behind all of these one more is admitted. Where there is none, the input goes on from it. The only error is want
/// of memory.
pub fn first_difference(
    alloc: Global,
    journal: &Journal,
    given: &[Entry],
) -> Result<Option<u64>, AllocError>
    ensures place { IfOk result (λ place. place ≡ the_first_difference (reverse journal.now.history) given.now) }
    ensures small { IfOk result (λ place. IfSome place (λ n. n < 2 ^ 63)) }
    ensures none { IfOk result (λ place. place ≡ None → GoesOnFrom (reverse journal.now.history) given.now) }
{
    for place in 0..journal.len() {
        if !fits_at(alloc, journal.entry(place + 1), given, place)? {
            return Ok(Some(place));
        }
    }
    Ok(None)
}
