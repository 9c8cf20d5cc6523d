ghost use Rattle.std.specs.Prelude.{◌≡◌, IsTrue};
ghost use Rattle.tk_shape.specs.Shape.{keys_of, shape_of};
ghost use Rattle.tk_shape.specs.ShapeEnv.{shapes_of};
ghost use Rattle.tk_resolve.specs.Known.{AreGivenAlike};

use crate::same::Same;
use tk_types::{Pair, Param, RunObject, Value};

/// Whether the pairs of two objects are seen to have the same keys.
fn have_same_keys(first: &[Pair], second: &[Pair]) -> bool
    ensures { IsTrue result → keys_of first.now ≡ keys_of second.now }
{
    if first.len() != second.len() {
        return false;
    }
    for place in 0..first.len() {
        if !first[place].key.is_same(&second[place].key) {
            return false;
        }
    }
    true
}

/// Whether two values are seen to have one shape.
fn have_same_shape(first: &Value, second: &Value) -> bool
    ensures { IsTrue result → shape_of first.now ≡ shape_of second.now }
{
    match (first, second) {
        (Value::Str(_), Value::Str(_)) => true,
        (Value::Arr(texts), Value::Arr(others)) => texts.len() == others.len(),
        (Value::Obj(pairs), Value::Obj(others)) => {
            have_same_keys(pairs.as_slice(), others.as_slice())
        }
        _ => false,
    }
}

/// Whether parameters are seen to have the same names and shapes.
fn have_same_shapes(first: &[Param], second: &[Param]) -> bool
    ensures { IsTrue result → shapes_of first.now ≡ shapes_of second.now }
{
    if first.len() != second.len() {
        return false;
    }
    for place in 0..first.len() {
        let is_named = first[place].name.is_same(&second[place].name);
        if !is_named || !have_same_shape(&first[place].value, &second[place].value) {
            return false;
        }
    }
    true
}

/// Whether two runs are seen to be given values of the same shapes and the same workspaces.
pub(crate) fn are_given_alike(first: &RunObject, second: &RunObject) -> bool
    ensures { IsTrue result → AreGivenAlike first.now second.now }
{
    have_same_shapes(first.params.as_slice(), second.params.as_slice())
        && first.bindings.is_same(&second.bindings)
}
