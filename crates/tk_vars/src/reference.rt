use crate::parts::Parts;
use crate::word::Word;

/// A reference.
#[derive(Debug, Drop)]
pub struct Reference<'t> {
    /// As it is written, from `$(` to `)`.
    pub spelling: Word<'t>,
    /// The head and what follows it.
    pub parts: Parts<'t>,
}
