ghost use Rattle.std.specs.Prelude.{◌≡◌, IfOk};

use std::alloc::{AllocError, Global};
use tk_types::{List, Pair, Text, TryCopy, Value};

/// A value that is found, borrowed from where it stands.
#[derive(Clone, Copy)]
pub enum Found<'a> {
    Text(&'a Text),
    Texts(&'a [Text]),
    Pairs(&'a [Pair]),
}

impl<'a> Found<'a> {
    ghost use Rattle.tk_bind.specs.Found.{found_value};

    /// The value itself.
    pub fn copy(self, alloc: Global) -> Result<Value, AllocError>
        ensures { IfOk result (λ value. value ≡ found_value self.entry) }
    {
        match self {
            Found::Text(text) => Ok(Value::Str(text.copy(alloc)?)),
            Found::Texts(texts) => Ok(Value::Arr(copies(alloc, texts)?)),
            Found::Pairs(pairs) => Ok(Value::Obj(copies(alloc, pairs)?)),
        }
    }
}

/// A copy of each element, in order.
pub(crate) fn copies<T: TryCopy>(alloc: Global, items: &[T]) -> Result<List<T>, AllocError>
    ensures { IfOk result (λ copies. copies ≡ items.now) }
{
    let mut copies = List::new(alloc);
    for item in items {
        copies.push(item.copy(alloc)?)?;
    }
    Ok(copies)
}
