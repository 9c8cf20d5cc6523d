ghost use Rattle.std.specs.Prelude.{◌≡◌, option_copied};
ghost use Rattle.tk_vars.specs.Target.{whole_of};

use crate::reference::Reference;
use crate::word::Word;

/// One piece of a text.
#[derive(Debug, Drop)]
pub enum Piece<'t> {
    /// Text that stays as it is written.
    Plain(Word<'t>),
    /// A reference.
    Ref(Reference<'t>),
}

/// The reference that is all of some pieces and ends with `[*]`.
pub fn whole_of<'p, 't>(pieces: &'p [Piece<'t>]) -> Option<&'p Reference<'t>>
    ensures { option_copied result ≡ whole_of pieces.now }
{
    match pieces {
        [only] => match only {
            Piece::Ref(reference) if reference.parts.ends_with_star() => Some(reference),
            _ => None,
        },
        _ => None,
    }
}
