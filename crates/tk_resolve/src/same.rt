ghost use Rattle.std.specs.Prelude.{◌≡◌, IsTrue};

use tk_types::{List, Pair, Param, Space, Text, Value};

/// Values that can be told to be the same without a copy; where they can't, nothing is known.
pub(crate) trait Same {
    /// Whether two are seen to be the same.
    fn is_same(&self, other: &Self) -> bool
        ensures { IsTrue result → self.now ≡ other.now };
}

impl Same for Text {
    fn is_same(&self, other: &Self) -> bool {
        self.as_str() == other.as_str()
    }
}

impl Same for Pair {
    fn is_same(&self, other: &Self) -> bool {
        self.key.is_same(&other.key) && self.value.is_same(&other.value)
    }
}

impl Same for Value {
    fn is_same(&self, other: &Self) -> bool {
        match (self, other) {
            (Value::Str(text), Value::Str(other)) => text.is_same(other),
            (Value::Arr(texts), Value::Arr(others)) => texts.is_same(others),
            (Value::Obj(pairs), Value::Obj(others)) => pairs.is_same(others),
            _ => false,
        }
    }
}

impl Same for Param {
    fn is_same(&self, other: &Self) -> bool {
        self.name.is_same(&other.name) && self.value.is_same(&other.value)
    }
}

impl Same for Space {
    fn is_same(&self, other: &Self) -> bool {
        self.name.is_same(&other.name)
            && self.claim.is_same(&other.claim)
            && self.sub.is_same(&other.sub)
    }
}

impl<T: Same> Same for Option<T> {
    fn is_same(&self, other: &Self) -> bool {
        match (self, other) {
            (None, None) => true,
            (Some(thing), Some(other)) => thing.is_same(other),
            _ => false,
        }
    }
}

impl<T: Same> Same for List<T> {
    fn is_same(&self, other: &Self) -> bool {
        are_same(self.as_slice(), other.as_slice())
    }
}

/// Whether the things of two lists are seen to be the same.
fn are_same<T: Same>(first: &[T], second: &[T]) -> bool
    ensures { IsTrue result → first.now ≡ second.now }
{
    if first.len() != second.len() {
        return false;
    }
    for place in 0..first.len() {
        if !first[place].is_same(&second[place]) {
            return false;
        }
    }
    true
}
