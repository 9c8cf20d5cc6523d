ghost use Rattle.std.specs.Prelude.{◌≡◌, ◌++◌, IfOk, option_and_then, option_map};
ghost use Rattle.std.specs.Bool.{then_some};
ghost use Rattle.tk_bind.specs.Found.{meant};
ghost use Rattle.tk_shape.specs.Shape.{has_key, keys_of, kind_of, one, selected_shape};
ghost use Rattle.tk_shape.specs.ShapeEnv.{shape_named, target_shape, without_results};

use crate::bound::BoundShape;
use crate::sources::ShapeSources;
use crate::taken::Shapes;
use std::alloc::{AllocError, Global};
use std::marker::Model;
use tk_bind::{Target, key_of, key_part, target_of};
use tk_types::{FirstNamed, Pair, ParamType};
use tk_vars::{Part, Reference};

/// What the texts of a task's steps take, by its shape: bound parameters, then those that are given, given outside and
/// the defaults outside, and words. A contract sees the shapes of all.
#[derive(Drop)]
pub struct TaskShapes<'e, 'a, 'v> {
    bound: FirstNamed<'e, BoundShape<'a, 'v>>,
    sources: &'e ShapeSources<'a, 'v>,
    words: FirstNamed<'e, Pair>,
}

impl<'e, 'a, 'v> Model for TaskShapes<'e, 'a, 'v> {
    ghost use Rattle.std.specs.Prelude.{◌++◌, ℕ, List};
    ghost use Rattle.tk_shape.specs.Shape.{keys_of};
    ghost use Rattle.tk_shape.specs.ShapeEnv.{NamedShape};

    ghost Value = { List NamedShape × List (List ℕ) };

    ghost view = { λ e. (e.bound ++ e.sources.now.given ++ e.sources.now.outer ++ e.sources.now.fallback, keys_of e.words) };
}

impl<'e, 'a, 'v> TaskShapes<'e, 'a, 'v> {
    /// These shapes, with the bound ones in front. The only error is want of memory.
    pub fn new(
        alloc: Global,
        bound: &'e [BoundShape<'a, 'v>],
        sources: &'e ShapeSources<'a, 'v>,
        words: &'e [Pair],
    ) -> Result<Self, AllocError>
        ensures { IfOk result (λ shapes. shapes ≡ (bound.now ++ sources.now.given ++ sources.now.outer ++ sources.now.fallback, keys_of words.now)) }
    {
        Ok(TaskShapes {
            bound: FirstNamed::new(alloc, bound)?,
            sources,
            words: FirstNamed::new(alloc, words)?,
        })
    }

    /// The type of what a selector takes of a parameter.
    fn kind_of_param(&self, name: &str, selector: &[Part<'_>]) -> Option<ParamType>
        ensures { result ≡ option_map kind_of (option_and_then (selected_shape selector.now) (shape_named name.now self.now.0)) }
    {
        if let Some(bound) = self.bound.get(name) {
            return bound.kind_selected(selector);
        }
        match self.sources.shape_named(name) {
            Some(shape) => shape.kind_selected(None, selector),
            None => None,
        }
    }

    /// The type of a word: a text, if it has the key.
    fn kind_of_word(&self, key: &str) -> Option<ParamType>
        ensures { result ≡ option_map kind_of (then_some (has_key key.now self.now.1) one) }
    {
        match self.words.get(key) {
            Some(_) => Some(ParamType::Str),
            None => None,
        }
    }

    /// The type of what a target takes.
    fn kind_of_target(&self, alloc: Global, target: Target) -> Result<Option<ParamType>, AllocError>
        ensures { IfOk result (λ kind. kind ≡ option_map kind_of (target_shape (without_results self.now.0 self.now.1) (meant target.entry))) }
    {
        match target {
            Target::Param { name, selector } => {
                let name = key_part(alloc, name)?;
                Ok(self.kind_of_param(name.as_str(), selector))
            }
            Target::Result { .. } => Ok(None),
            Target::Word { parts } => {
                let key = key_of(alloc, parts)?;
                Ok(self.kind_of_word(key.as_str()))
            }
        }
    }
}

impl<'e, 'a, 'v> Shapes for TaskShapes<'e, 'a, 'v> {
    ghost use Rattle.tk_shape.specs.ShapeEnv.{without_results};

    ghost env = { λ shapes. without_results shapes.0 shapes.1 };

    fn kind_taken(
        &self,
        alloc: Global,
        reference: &Reference<'_>,
    ) -> Result<Option<ParamType>, AllocError> {
        self.kind_of_target(alloc, target_of(reference.parts.as_slice()))
    }
}
