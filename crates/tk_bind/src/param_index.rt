ghost use Rattle.std.specs.Prelude.{◌≡◌, ℕ, List, IfOk, IfSome, Some, bytes_eq};
ghost use Rattle.std.specs.HashMap.{get_by};
ghost use Rattle.std.specs.Option.{option_and_then, option_copied, option_map};
ghost use Rattle.tk_types.specs.Value.{value_named};
ghost use Rattle.tk_bind.specs.Found.{found_value};
ghost use Rattle.tk_bind.specs.Selector.{selected};

use crate::found::Found;
use crate::value_index::{ValueIndex, add_named, is_long};
use std::alloc::{AllocError, Global};
use std::collections::HashMap;
use std::marker::Model;
use tk_types::{FirstNamed, Param, Value};
use tk_vars::Part;

/// Parameters that are found by their names, and the keys of their values by an index. A contract sees the parameters.
#[derive(Drop)]
pub(crate) struct ParamIndex<'a> {
    params: FirstNamed<'a, Param>,
    /// The values whose keys are many, by the names of their parameters.
    long: HashMap<&'a str, ValueIndex<'a>>,
}

impl<'a> Model for ParamIndex<'a> {
    ghost use Rattle.std.specs.Prelude.{◌≡◌, List, ℕ, IfSome, Some, bytes_eq};
    ghost use Rattle.std.specs.HashMap.{get_by};
    ghost use Rattle.tk_types.specs.declared.value.Param.{Param as Named};
    ghost use Rattle.tk_types.specs.Value.{value_named};

    ghost Value = { List Named };

    ghost view = { λ index. index.params };

    ghost invariant = { λ index. (name : List ℕ) → IfSome (get_by (λ k. bytes_eq name k.now) index.long) (λ value. value_named name index.params ≡ Some value) };
}

/// The value of a parameter.
fn value_named<'a>(params: &FirstNamed<'a, Param>, name: &str) -> Option<&'a Value>
    ensures { option_copied result ≡ value_named name.now params.now }
{
    match params.get(name) {
        Some(param) => Some(&param.value),
        None => None,
    }
}

/// The values whose keys are many, of the first parameter of each name.
fn long_values<'a>(
    alloc: Global,
    items: &'a [Param],
    params: &FirstNamed<'a, Param>,
) -> Result<HashMap<&'a str, ValueIndex<'a>>, AllocError>
    ensures { IfOk result (λ long. (name : List ℕ) → IfSome (get_by (λ k. bytes_eq name k.now) long) (λ value. value_named name params.now ≡ Some value)) }
{
    let mut long: HashMap<&'a str, ValueIndex<'a>> = HashMap::new(alloc);
    for item in items {
        let name = item.name.as_str();
        if is_long(&item.value) && long.get(name).is_none() {
            if let Some(value) = value_named(params, name) {
                add_named(&mut long, name, ValueIndex::new(alloc, value)?)?;
            }
        }
    }
    Ok(long)
}

impl<'a> ParamIndex<'a> {
    /// An index of these parameters.
    pub(crate) fn new(alloc: Global, items: &'a [Param]) -> Result<Self, AllocError>
        ensures { IfOk result (λ index. index ≡ items.now) }
    {
        let params = FirstNamed::new(alloc, items)?;
        let long = long_values(alloc, items, &params)?;
        Ok(ParamIndex { params, long })
    }

    /// What a selector takes of a parameter's value.
    pub(crate) fn selected(
        &self,
        alloc: Global,
        name: &str,
        selector: &[Part<'_>],
    ) -> Result<Option<Found<'a>>, AllocError>
        ensures { IfOk result (λ found. option_map found_value found ≡ option_and_then (selected selector.now) (value_named name.now self.now)) }
    {
        if let Some(value) = self.long.get(name) {
            return Ok(value.selected(selector));
        }
        match value_named(&self.params, name) {
            Some(value) => Ok(ValueIndex::new(alloc, value)?.selected(selector)),
            None => Ok(None),
        }
    }
}
