ghost use Rattle.std.specs.Prelude.{◌≡◌, IfOk};
ghost use Rattle.tk_vars.specs.Reading.{HasReading};
ghost use Rattle.tk_bind.specs.Found.{meant};
ghost use Rattle.tk_bind.specs.Lacking.{reference_lacks, target_lacks, text_lacks};

use crate::key::key_part;
use crate::lookup::Lookup;
use crate::target::{Target, target_of};
use std::alloc::{AllocError, Global};
use tk_vars::{Reference, ReferenceTest, any_reference, is_plain};

impl<'i, 'p, 'r, 'w, 'o> Lookup<'i, 'p, 'r, 'w, 'o> {
    /// Whether this is a result that isn't available.
    fn target_lacks(&self, alloc: Global, target: Target) -> Result<bool, AllocError>
        ensures { IfOk result (λ lacks. lacks ≡ target_lacks self.now (meant target.entry)) }
    {
        match target {
            Target::Result { task, name, .. } => {
                let name = key_part(alloc, name)?;
                Ok(self.task_result(task.as_str(), name.as_str()).is_none())
            }
            _ => Ok(false),
        }
    }
}

/// Whether a reference is to a result that isn't available.
#[derive(Drop)]
struct Lacks<'l, 'i, 'p, 'r, 'w, 'o> {
    lookup: &'l Lookup<'i, 'p, 'r, 'w, 'o>,
}

impl<'l, 'i, 'p, 'r, 'w, 'o> ReferenceTest for Lacks<'l, 'i, 'p, 'r, 'w, 'o> {
    ghost is_met = { λ t r. reference_lacks t.lookup.now r };

    fn passes_over(&self, text: &str) -> bool {
        is_plain(text)
    }

    fn meets(&self, alloc: Global, reference: &Reference<'_>) -> Result<bool, AllocError> {
        self.lookup
            .target_lacks(alloc, target_of(reference.parts.as_slice()))
    }
}

impl<'i, 'p, 'r, 'w, 'o> Lookup<'i, 'p, 'r, 'w, 'o> {
    /// Whether a text refers to a result that isn't available. The only error is want of memory.
    pub fn text_lacks(&self, alloc: Global, text: &str) -> Result<bool, AllocError>
        requires { HasReading text.now }
        ensures { IfOk result (λ lacks. lacks ≡ text_lacks self.now text.now) }
    {
        any_reference(alloc, &Lacks { lookup: self }, text)
    }
}
