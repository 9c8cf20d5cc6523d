ghost use Rattle.std.specs.Prelude.{◌≡◌};

use std::marker::Model;

/// A part of a text, that contracts see as the list of its bytes.
#[derive(Debug, Drop)]
pub struct Word<'t> {
    inner: &'t str,
}

impl<'t> Model for Word<'t> {
    ghost use Rattle.std.specs.Prelude.{List, ℕ};

    ghost Value = { List ℕ };

    ghost view = { λ w. w.inner.now };
}

impl<'t> Word<'t> {
    /// The text as a word.
    pub fn new(inner: &'t str) -> Self
        ensures { result ≡ inner.now }
    {
        Word { inner }
    }

    /// The text itself.
    pub fn as_str(&self) -> &'t str
        ensures { result.now ≡ self.now }
    {
        self.inner
    }
}
