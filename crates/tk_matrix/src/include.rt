ghost use Rattle.std.specs.Prelude.{◌≡◌, ◌++◌, fold, OnOk, IfOk};
ghost use Rattle.std.specs.Option.{option_copied};
ghost use Rattle.tk_types.specs.Value.{value_named, is_text};
ghost use Rattle.tk_matrix.specs.Added.{params_of};
ghost use Rattle.tk_matrix.specs.Include.{agrees_on, agrees, others, with_param, extended};

use indexmap::IndexMap;
use std::alloc::{AllocError, Global};
use tk_types::{List, Param, Text, TryCopy, Value};

/// The value of a name.
pub(crate) fn value_named<'a>(params: &'a [Param], name: &str) -> Option<&'a Value>
    ensures { option_copied result ≡ value_named name.now params.now }
{
    params
        .iter()
        .find(|param| param.name.as_str() == name)
        .map(|param| &param.value)
}

/// Whether the value is this text.
pub(crate) fn is_text(value: &Value, text: &str) -> bool
    ensures { result ≡ is_text text.now value.now }
{
    match value {
        Value::Str(other) => other.as_str() == text,
        _ => false,
    }
}

/// Whether the combination has the parameter's name with the same text, or doesn't have the name.
pub(crate) fn agrees_on(combination: &[Param], param: &Param) -> bool
    ensures { result ≡ agrees_on combination.now param.now }
{
    match value_named(combination, param.name.as_str()) {
        None => true,
        Some(Value::Str(text)) => is_text(&param.value, text.as_str()),
        Some(_) => false,
    }
}

/// Whether the entry agrees with the combination on each name that they share.
fn agrees(combination: &[Param], entry: &[Param]) -> bool
    ensures { result ≡ agrees combination.now entry.now }
{
    entry.iter().all(|param| agrees_on(combination, param))
}

/// Adds a parameter in the place of the one of its name, or at the end.
fn add(alloc: Global, added: &mut IndexMap<String, Value>, param: &Param) -> Result<(), AllocError>
    ensures { OnOk result (params_of added.new.entries ≡ with_param (params_of added.old.entries) param.now) }
{
    let name = String::from_str(alloc, param.name.as_str())?;
    added.insert(name, param.value.copy(alloc)?)?;
    Ok(())
}

/// Adds the parameters of an entry whose names the combination doesn't have.
fn add_others(
    alloc: Global,
    added: &mut IndexMap<String, Value>,
    combination: &[Param],
    entry: &[Param],
) -> Result<(), AllocError>
    ensures { OnOk result (params_of added.new.entries ≡ fold with_param (params_of added.old.entries) (others combination.now entry.now)) }
{
    for param in entry {
        if value_named(combination, param.name.as_str()).is_none() {
            add(alloc, added, param)?;
        }
    }
    Ok(())
}

/// A combination with what was added behind it, in order.
fn with_added(
    mut combination: List<Param>,
    added: IndexMap<String, Value>,
) -> Result<List<Param>, AllocError>
    ensures { IfOk result (λ made. made ≡ combination ++ params_of added.entries) }
{
    for (name, value) in added {
        combination.push(Param {
            name: Text::from_string(name),
            value,
        })?;
    }
    Ok(combination)
}

/// A combination of the lists with the other parameters of each entry that agrees with it.
pub(crate) fn extended(
    alloc: Global,
    entries: &[List<Param>],
    combination: List<Param>,
) -> Result<List<Param>, AllocError>
    ensures { IfOk result (λ made. made ≡ extended entries.now combination) }
{
    let mut added = IndexMap::new(alloc);
    for entry in entries {
        if agrees(combination.as_slice(), entry.as_slice()) {
            add_others(alloc, &mut added, combination.as_slice(), entry.as_slice())?;
        }
    }
    with_added(combination, added)
}
