use crate::word::Word;

/// One part of a reference.
#[derive(Debug, Drop)]
pub enum Part<'t> {
    /// The head, `.NAME`, `['NAME']` or `["NAME"]`.
    Name(Word<'t>),
    /// `[DIGITS]`, below 10^9.
    Index(u32),
    /// `[*]`.
    Star,
}

impl<'t> Part<'t> {
    ghost use Rattle.std.specs.Prelude.{◌≡◌};
    ghost use Rattle.tk_vars.specs.Reading.{is_star_part};

    /// Whether it is `[*]`.
    pub fn is_star(&self) -> bool
        ensures { result ≡ is_star_part self.now }
    {
        matches!(self, Part::Star)
    }
}
