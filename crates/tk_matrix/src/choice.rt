ghost use Rattle.std.specs.Prelude.{◌≡◌, ◌<◌, filter, length, slice_index_or, IfOk, []};
ghost use Rattle.tk_types.specs.Value.{value_named};
ghost use Rattle.tk_matrix.specs.Product.{product_count};
ghost use Rattle.tk_matrix.specs.Include.{stands_alone};
ghost use Rattle.tk_matrix.specs.Choice.{is_among, is_choice, is_possible};

use crate::include::{agrees_on, is_text, value_named};
use crate::product::texts_of;
use std::alloc::{AllocError, Global};
use tk_types::{List, Param, Text, TryCopy, Value};

/// Whether the value is one of the texts.
fn is_among(texts: &[Text], value: &Value) -> bool
    ensures { result ≡ is_among texts.now value.now }
{
    texts.iter().any(|text| is_text(value, text.as_str()))
}

/// Whether a list of the parameter's name has its text, which is the first that the entry gives under that name. It
/// is true where no list has the name.
fn is_choice(params: &[Param], entry: &[Param], param: &Param) -> bool
    ensures { result ≡ is_choice (value_named param.now.name params.now) entry.now param.now }
{
    match value_named(params, param.name.as_str()) {
        None => true,
        Some(list) => is_among(texts_of(list), &param.value) && agrees_on(entry, param),
    }
}

/// Whether the entry agrees with some combination of the lists.
fn is_possible(params: &[Param], entry: &[Param]) -> bool
    ensures { result ≡ is_possible params.now entry.now }
{
    entry.iter().all(|param| is_choice(params, entry, param))
}

/// Whether the entry is a combination of its own: it agrees with none, or there are no lists.
fn stands_alone(params: &[Param], entry: &[Param]) -> bool
    requires { 0 < product_count params.now }
    ensures { result ≡ stands_alone params.now entry.now }
{
    params.is_empty() || !is_possible(params, entry)
}

/// How many entries are combinations of their own.
pub(crate) fn count_own(params: &[Param], entries: &[List<Param>]) -> usize
    requires { 0 < product_count params.now }
    ensures { result ≡ length (filter (stands_alone params.now) entries.now) }
{
    let mut count = 0;
    for entry in entries {
        if stands_alone(params, entry.as_slice()) {
            count += 1;
        }
    }
    count
}

/// The entry at an index among those that are combinations of their own.
pub(crate) fn own_entry(
    alloc: Global,
    params: &[Param],
    entries: &[List<Param>],
    index: u64,
) -> Result<List<Param>, AllocError>
    requires { 0 < product_count params.now }
    ensures { IfOk result (λ entry. entry ≡ slice_index_or (filter (stands_alone params.now) entries.now) index []) }
{
    let mut left = index;
    for entry in entries {
        if stands_alone(params, entry.as_slice()) {
            if left == 0 {
                return entry.copy(alloc);
            }
            left -= 1;
        }
    }
    Ok(List::new(alloc))
}
