ghost use Rattle.std.specs.Prelude.{◌≡◌};
ghost use Rattle.tk_validate.specs.Seen.{is_of_name, kind_seen};

pub(crate) mod context;
pub(crate) mod layers;
pub(crate) mod outside;
pub(crate) mod scope;
pub(crate) mod task_seen;

use std::alloc::{AllocError, Global};
use tk_types::{FirstNamed, Named, ParamType, Text, TryCopy};

/// A parameter that texts see, with its type where that is known.
#[derive(Drop)]
pub struct Seen {
    pub name: Text,
    pub kind: Option<ParamType>,
}

impl TryCopy for Seen {
    fn copy(&self, alloc: Global) -> Result<Seen, AllocError> {
        Ok(Seen {
            name: self.name.copy(alloc)?,
            kind: self.kind,
        })
    }
}

impl Named for Seen {
    ghost name = { λ s. s.name };

    fn name(&self) -> &str {
        self.name.as_str()
    }
}

/// The type of the first parameter of a name, where one is there and its type is known.
pub(crate) fn kind_seen(seen: &FirstNamed<'_, Seen>, name: &str) -> Option<ParamType>
    ensures { result ≡ kind_seen seen.now name.now }
{
    match seen.get(name) {
        Some(found) => found.kind,
        None => None,
    }
}
