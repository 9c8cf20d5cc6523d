ghost use Rattle.std.specs.Prelude.{◌≡◌, ◌==◌, length};
ghost use Rattle.tk_vars.specs.Reading.{ends_with_star};

use crate::part::Part;
use std::marker::Model;

/// The parts of a reference, that contracts see as a list.
#[derive(Debug, Drop)]
pub struct Parts<'t> {
    items: Vec<Part<'t>>,
}

impl<'t> Model for Parts<'t> {
    ghost use Rattle.std.specs.Prelude.{List};
    ghost use Rattle.tk_vars.specs.declared.part.Part.{Part};

    ghost Value = { List Part };

    ghost view = { λ l. l.items.items };
}

impl<'t> Parts<'t> {
    /// These parts, without a copy.
    pub fn from_vec(items: Vec<Part<'t>>) -> Self
        ensures { result ≡ items.entry.items }
    {
        Parts { items }
    }

    /// The parts themselves, without a copy.
    pub fn into_vec(self) -> Vec<Part<'t>>
        ensures { result.items ≡ self.entry }
    {
        self.items
    }

    /// The parts, borrowed.
    pub fn as_slice(&self) -> &[Part<'t>]
        ensures { result.now ≡ self.now }
    {
        self.items.as_slice()
    }

    /// How many there are.
    pub fn len(&self) -> usize
        ensures { result ≡ length self.now }
    {
        self.items.len()
    }

    /// Whether there are none.
    pub fn is_empty(&self) -> bool
        ensures { result ≡ (length self.now == 0) }
    {
        self.items.is_empty()
    }

    /// Whether the last part is `[*]`.
    pub fn ends_with_star(&self) -> bool
        ensures { result ≡ ends_with_star self.now }
    {
        match self.items.last() {
            Some(part) => part.is_star(),
            None => false,
        }
    }
}
