ghost use Rattle.std.specs.Prelude.{◌≡◌, ◌+◌, ◌<◌, ◌≤◌, ℕ, List, true, false, ◌++◌, fold, length, take, drop, IfOk, OnOk, IsTrue, slice_index_or};
ghost use Rattle.std.specs.List.{list_all};
ghost use Rattle.tk_types.specs.declared.value.Pair.{Pair as P};
ghost use Rattle.tk_bind.specs.Bind.{with_pair, completed};
ghost use Rattle.tk_bind.specs.Completing.{is_below, begins_below, begins_at};

use std::alloc::{AllocError, Global};
use std::cmp::Ordering;
use tk_types::{List, Pair, TryCopy, Value};

/// Whether the pair stands below the key.
fn is_below(key: &str, pair: &Pair) -> bool
    ensures { result ≡ is_below key.now pair.now }
{
    matches!(key.cmp(pair.key.as_str()), Ordering::Greater)
}

/// Whether the first pair has the key.
fn begins_at(key: &str, pairs: &[Pair]) -> bool
    ensures { result ≡ begins_at key.now pairs.now }
{
    match pairs {
        [first, ..] => matches!(key.cmp(first.key.as_str()), Ordering::Equal),
        [] => false,
    }
}

/// Adds a copy of each pair.
fn extend(alloc: Global, all: &mut Vec<Pair>, pairs: &[Pair]) -> Result<(), AllocError>
    ensures { OnOk result (all.new.items ≡ all.old.items ++ pairs.now) }
{
    for pair in pairs {
        all.push(pair.copy(alloc)?)?;
    }
    Ok(())
}

/// How many pairs in front stand below the key.
fn count_below(key: &str, pairs: &[Pair]) -> usize
    ensures within { result ≤ length pairs.now }
    ensures below { list_all (is_below key.now) (take result pairs.now) ≡ true }
    ensures stops { begins_below key.now (drop result pairs.now) ≡ false }
{
    for (place, pair) in pairs.iter().enumerate() {
        if !is_below(key, pair) {
            return place;
        }
    }
    pairs.len()
}

/// Moves the pairs that stand below a pair behind others that do, and puts the pair in its place between them and the
/// rest, unless its key is there. Gives the rest.
fn put<'a>(
    alloc: Global,
    all: &mut Vec<Pair>,
    pairs: &'a [Pair],
    pair: &Pair,
) -> Result<&'a [Pair], AllocError>
    requires { list_all (is_below pair.now.key) all.old.items ≡ true }
    ensures put { IfOk result (λ rest. all.new.items ++ rest.now ≡ with_pair (all.old.items ++ pairs.now) pair.now) }
    ensures below { OnOk result ((key : List ℕ) → is_below key pair.now ≡ true → list_all (is_below key) all.new.items ≡ true) }
{
    let key = pair.key.as_str();
    let (front, rest) = pairs.split_at(count_below(key, pairs));
    extend(alloc, all, front)?;
    if begins_at(key, rest) {
        return Ok(rest);
    }
    all.push(pair.copy(alloc)?)?;
    Ok(rest)
}

/// Whether each pair stands below the key of the next one.
fn are_ascending(pairs: &[Pair]) -> bool
    ensures { IsTrue result → (k : ℕ) (d : P) → k + 1 < length pairs.now → is_below (slice_index_or pairs.now (k + 1) d).key (slice_index_or pairs.now k d) ≡ true }
{
    for place in 1..pairs.len() {
        if !is_below(pairs[place].key.as_str(), &pairs[place - 1]) {
            return false;
        }
    }
    true
}

/// The pairs with each of the defaults, which ascend, put in its place, in one walk over both.
fn merged(alloc: Global, pairs: &[Pair], defaults: &[Pair]) -> Result<Vec<Pair>, AllocError>
    requires { (k : ℕ) (d : P) → k + 1 < length defaults.now → is_below (slice_index_or defaults.now (k + 1) d).key (slice_index_or defaults.now k d) ≡ true }
    ensures { IfOk result (λ all. all.items ≡ fold with_pair pairs.now defaults.now) }
{
    let mut all = Vec::new(alloc);
    let mut rest = pairs;
    for pair in defaults {
        rest = put(alloc, &mut all, rest, pair)?;
    }
    extend(alloc, &mut all, rest)?;
    Ok(all)
}

/// The pairs, with a pair put in its place by its key, unless the key is there.
fn with_pair(alloc: Global, mut pairs: Vec<Pair>, pair: &Pair) -> Result<Vec<Pair>, AllocError>
    ensures { IfOk result (λ all. all.items ≡ with_pair pairs.items pair.now) }
{
    for place in 0..pairs.len() {
        match pair.key.as_str().cmp(pairs[place].key.as_str()) {
            Ordering::Less => {
                pairs.insert(place, pair.copy(alloc)?)?;
                return Ok(pairs);
            }
            Ordering::Equal => return Ok(pairs),
            Ordering::Greater => {}
        }
    }
    pairs.push(pair.copy(alloc)?)?;
    Ok(pairs)
}

/// The pairs, with each of the defaults put in its place, one after another.
fn with_each(
    alloc: Global,
    mut pairs: Vec<Pair>,
    defaults: &[Pair],
) -> Result<Vec<Pair>, AllocError>
    ensures { IfOk result (λ all. all.items ≡ fold with_pair pairs.items defaults.now) }
{
    for pair in defaults {
        pairs = with_pair(alloc, pairs, pair)?;
    }
    Ok(pairs)
}

/// The pairs, with those of the defaults whose keys they lack. Keys of values that were read ascend.
fn with_defaults(alloc: Global, pairs: &[Pair], defaults: &[Pair]) -> Result<Vec<Pair>, AllocError>
    ensures { IfOk result (λ all. all.items ≡ fold with_pair pairs.now defaults.now) }
{
    if are_ascending(defaults) {
        return merged(alloc, pairs, defaults);
    }
    let mut all = Vec::new(alloc);
    extend(alloc, &mut all, pairs)?;
    with_each(alloc, all, defaults)
}

/// The value, an object with the keys that only its default has. The only error is want of memory.
pub fn completed(
    alloc: Global,
    value: &Value,
    default_value: &Option<Value>,
) -> Result<Value, AllocError>
    ensures { IfOk result (λ full. full ≡ completed value.now default_value.now) }
{
    if let Value::Obj(pairs) = value
        && let Some(Value::Obj(defaults)) = default_value
    {
        let all = with_defaults(alloc, pairs.as_slice(), defaults.as_slice())?;
        return Ok(Value::Obj(List::from_vec(all)));
    }
    value.copy(alloc)
}
