ghost use Rattle.std.specs.Prelude.{◌≡◌, IfOk, option_map};
ghost use Rattle.tk_bind.specs.Found.{found_value};
ghost use Rattle.tk_shape.specs.Shape.{kind_of, shape_of};
ghost use Rattle.tk_shape.specs.ShapeEnv.{reference_shape, shape_env};

use std::alloc::{AllocError, Global};
use tk_bind::{Found, Lookup};
use tk_types::ParamType;
use tk_vars::Reference;

/// What references take, by its shape alone.
pub trait Shapes {
    ghost use Rattle.tk_shape.specs.ShapeEnv.{ShapeEnv};

    /// The shapes of what they take.
    ghost env: { Self → ShapeEnv };

    /// The type of what a reference takes, if it takes something. The only error is want of memory.
    fn kind_taken(
        &self,
        alloc: Global,
        reference: &Reference<'_>,
    ) -> Result<Option<ParamType>, AllocError>
        ensures { IfOk result (λ kind. kind ≡ option_map kind_of (reference_shape (env self.now) reference.now)) };
}

/// The type of what is found.
fn kind_found(found: Found<'_>) -> ParamType
    ensures { result ≡ kind_of (shape_of (found_value found.entry)) }
{
    match found {
        Found::Text(_) => ParamType::Str,
        Found::Texts(_) => ParamType::Arr,
        Found::Pairs(_) => ParamType::Obj,
    }
}

impl<'i, 'p, 'r, 'w, 'o> Shapes for Lookup<'i, 'p, 'r, 'w, 'o> {
    ghost use Rattle.tk_shape.specs.ShapeEnv.{shape_env};

    ghost env = { λ lookup. shape_env lookup };

    fn kind_taken(
        &self,
        alloc: Global,
        reference: &Reference<'_>,
    ) -> Result<Option<ParamType>, AllocError> {
        match self.reference_value(alloc, reference)? {
            Some(found) => Ok(Some(kind_found(found))),
            None => Ok(None),
        }
    }
}
