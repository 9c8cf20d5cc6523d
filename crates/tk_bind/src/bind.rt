ghost use Rattle.std.specs.Prelude.{◌≡◌, Ok, IfOk, IfErr, is_some, option_copied};
ghost use Rattle.std.specs.List.{list_all};
ghost use Rattle.tk_types.specs.Value.{text_at, value_named};
ghost use Rattle.tk_bind.specs.Bind.{has_keys, first_value, bound_to, bound_param, bound_params};
ghost use Rattle.tk_bind.specs.Refusal.{IsBindRefusal};

use crate::completing::completed;
use crate::refusal::BindError;
use std::alloc::{AllocError, Global};
use tk_types::{FirstNamed, List, Pair, Param, ParamSpec, ParamType, Text, TryCopy, Value};

/// Where values are sought, by their names: what is given, what is given outside and the defaults outside.
#[derive(Drop)]
pub struct Sources<'a> {
    pub given: FirstNamed<'a, Param>,
    pub outer: FirstNamed<'a, Param>,
    pub fallback: FirstNamed<'a, Param>,
}

/// The value of a name.
fn value_named<'a>(params: &FirstNamed<'a, Param>, name: &str) -> Option<&'a Value>
    ensures { option_copied result ≡ value_named name.now params.now }
{
    match params.get(name) {
        Some(param) => Some(&param.value),
        None => None,
    }
}

/// The first of: the value given, the value given outside, its own default, the default outside.
pub fn first_value<'a>(wanted: &'a ParamSpec, sources: &Sources<'a>) -> Option<&'a Value>
    ensures { option_copied result ≡ first_value wanted.now sources.now.given sources.now.outer sources.now.fallback }
{
    let name = wanted.name.as_str();
    if let Some(value) = value_named(&sources.given, name) {
        return Some(value);
    }
    if let Some(value) = value_named(&sources.outer, name) {
        return Some(value);
    }
    if let Some(value) = &wanted.default_value {
        return Some(value);
    }
    value_named(&sources.fallback, name)
}

/// Whether the key is there.
fn has_key(pairs: &FirstNamed<'_, Pair>, key: &Text) -> bool
    ensures { result ≡ is_some (text_at key.now pairs.now) }
{
    pairs.get(key.as_str()).is_some()
}

/// Whether each key is there.
fn has_all(pairs: &FirstNamed<'_, Pair>, keys: &[Text]) -> bool
    ensures { result ≡ list_all (λ key. is_some (text_at key pairs.now)) keys.now }
{
    keys.iter().all(|key| has_key(pairs, key))
}

/// Whether each key is there, if the value is an object.
fn has_keys(alloc: Global, keys: &[Text], value: &Value) -> Result<bool, AllocError>
    ensures { IfOk result (λ has. has ≡ has_keys keys.now value.now) }
{
    let Value::Obj(pairs) = value else {
        return Ok(true);
    };
    let pairs = FirstNamed::new(alloc, pairs.as_slice())?;
    Ok(has_all(&pairs, keys))
}

/// The wanted parameter with the value, completed, if that has the type and each declared key.
fn bound_to(alloc: Global, wanted: &ParamSpec, value: &Value) -> Result<Param, BindError>
    ensures bound { IfOk result (λ param. bound_to wanted.now value.now ≡ Ok param) }
    ensures refused { IfErr result (IsBindRefusal (bound_to wanted.now value.now)) }
{
    let name = wanted.name.copy(alloc)?;
    let value = completed(alloc, value, &wanted.default_value)?;
    if !value.has_type(wanted.kind) {
        return Err(BindError::WrongKind { name });
    }
    if !has_keys(alloc, wanted.properties.as_slice(), &value)? {
        return Err(BindError::Missing { name });
    }
    Ok(Param { name, value })
}

/// The wanted parameter with its value, or why it has none, as `bind_params` tells it of each.
pub fn bound_param(
    alloc: Global,
    wanted: &ParamSpec,
    sources: &Sources<'_>,
) -> Result<Param, BindError>
    ensures bound { IfOk result (λ param. bound_param sources.now.given sources.now.outer sources.now.fallback wanted.now ≡ Ok param) }
    ensures refused { IfErr result (IsBindRefusal (bound_param sources.now.given sources.now.outer sources.now.fallback wanted.now)) }
{
    match first_value(wanted, sources) {
        Some(value) => bound_to(alloc, wanted, value),
        None => Err(BindError::Missing {
            name: wanted.name.copy(alloc)?,
        }),
    }
}

/// The wanted parameters with their values.
fn bound_all(
    alloc: Global,
    wanted: &[ParamSpec],
    sources: &Sources<'_>,
) -> Result<List<Param>, BindError>
    ensures bound { IfOk result (λ params. bound_params wanted.now sources.now.given sources.now.outer sources.now.fallback ≡ Ok params) }
    ensures refused { IfErr result (IsBindRefusal (bound_params wanted.now sources.now.given sources.now.outer sources.now.fallback)) }
{
    let mut params = List::new(alloc);
    for spec in wanted {
        let param = bound_param(alloc, spec, sources)?;
        params.push(param)?;
    }
    Ok(params)
}

/// The wanted parameters with their values, in their order (Tekton, Tasks, Specifying Parameters).
///
/// A parameter takes the first value that there is: given, given outside, its own default, or a default outside. Of
/// values of one name in a list the first counts. An object that lacks keys takes them from the parameter's own
/// default. The first wanted parameter that has no value, lacks a declared key or has a value of another type is
/// told; want of memory is the only other error.
pub fn bind_params(
    alloc: Global,
    wanted: &[ParamSpec],
    given: &[Param],
    outer: &[Param],
    fallback: &[Param],
) -> Result<List<Param>, BindError>
    ensures bound { IfOk result (λ params. bound_params wanted.now given.now outer.now fallback.now ≡ Ok params) }
    ensures refused { IfErr result (IsBindRefusal (bound_params wanted.now given.now outer.now fallback.now)) }
{
    let sources = Sources {
        given: FirstNamed::new(alloc, given)?,
        outer: FirstNamed::new(alloc, outer)?,
        fallback: FirstNamed::new(alloc, fallback)?,
    };
    bound_all(alloc, wanted, &sources)
}
