ghost use Rattle.std.specs.Prelude.{◌≡◌, ◌↔◌, IsTrue};

use tk_types::{List, Text};

/// Values that can be told to be the same without a copy.
pub trait Same {
    /// Whether two are the same.
    fn is_same(&self, other: &Self) -> bool
        ensures { IsTrue result ↔ (self.now ≡ other.now) };
}

impl Same for Text {
    fn is_same(&self, other: &Self) -> bool {
        self.as_str() == other.as_str()
    }
}

impl Same for u8 {
    fn is_same(&self, other: &Self) -> bool {
        *self == *other
    }
}

impl<T: Same> Same for Option<T> {
    fn is_same(&self, other: &Self) -> bool {
        match (self, other) {
            (None, None) => true,
            (Some(thing), Some(other)) => thing.is_same(other),
            _ => false,
        }
    }
}

impl<T: Same> Same for List<T> {
    fn is_same(&self, other: &Self) -> bool {
        are_same(self.as_slice(), other.as_slice())
    }
}

/// Whether the things of two lists are the same.
pub fn are_same<T: Same>(first: &[T], second: &[T]) -> bool
    ensures { IsTrue result ↔ (first.now ≡ second.now) }
{
    if first.len() != second.len() {
        return false;
    }
    for place in 0..first.len() {
        if !first[place].is_same(&second[place]) {
            return false;
        }
    }
    true
}
