ghost use Rattle.std.specs.Prelude.{◌≡◌, All, IfOk};
ghost use Rattle.tk_vars.specs.Reading.{HasReading};
ghost use Rattle.tk_bind.specs.Found.{meant};
ghost use Rattle.tk_types.specs.Names.{is_in};
ghost use Rattle.tk_resolve.specs.Due.{seen};
ghost use Rattle.tk_resolve.specs.Misuse.{any_lacks as any_lacks_value, is_judged};
ghost use Rattle.tk_resolve.specs.Settled.{is_to_later};
ghost use Rattle.tk_resolve.specs.Shapes.{any_lacks, lacks, takes_due};

use crate::due::Due;
use crate::uses::{Question, any_use};
use std::alloc::{AllocError, Global};
use tk_bind::{Lookup, Target, is_status, key_part, target_of};
use tk_early::ToResult;
use tk_shape::Shapes;
use tk_types::{FirstNamed, Text};
use tk_vars::{Reference, ReferenceTest, is_plain, names_no_task};

/// Whether a reference takes a value that is due.
fn takes_due<S: Shapes>(
    alloc: Global,
    shapes: &S,
    due: Due,
    reference: &Reference<'_>,
) -> Result<bool, AllocError>
    ensures { IfOk result (λ takes. takes ≡ takes_due (S.env shapes.now) due reference.now) }
{
    match shapes.kind_taken(alloc, reference)? {
        Some(kind) => Ok(due.takes(kind)),
        None => Ok(false),
    }
}

/// Whether this is a parameter, none of those that are spared.
fn is_judged(
    alloc: Global,
    spared: &FirstNamed<'_, Text>,
    target: Target<'_>,
) -> Result<bool, AllocError>
    ensures { IfOk result (λ judged. judged ≡ is_judged spared.now (meant target.entry)) }
{
    match target {
        Target::Param { name, .. } => {
            let name = key_part(alloc, name)?;
            Ok(!spared.contains(name.as_str()))
        }
        _ => Ok(false),
    }
}

/// Whether a reference is to a parameter, none of those that are spared, and takes no value that is due.
#[derive(Drop)]
struct Lacks<'l, 'n, 's, S: Shapes> {
    shapes: &'l S,
    spared: &'n FirstNamed<'s, Text>,
}

impl<'l, 'n, 's, S: Shapes> Question for Lacks<'l, 'n, 's, S> {
    ghost asks = { λ q due r. lacks (S.env q.shapes.now) q.spared.now due r };

    fn passes_over(&self, text: &str) -> bool {
        is_plain(text)
    }

    fn holds(
        &self,
        alloc: Global,
        due: Due,
        reference: &Reference<'_>,
    ) -> Result<bool, AllocError> {
        let target = target_of(reference.parts.as_slice());
        if !is_judged(alloc, self.spared, target)? {
            return Ok(false);
        }
        Ok(!takes_due(alloc, self.shapes, due, reference)?)
    }
}

/// Whether a reference is to what is known only in the run: a result or a status.
#[derive(Drop)]
pub(crate) struct ToLater;

impl Question for ToLater {
    ghost asks = { λ q due r. is_to_later due r };

    fn passes_over(&self, text: &str) -> bool {
        names_no_task(text)
    }

    fn holds(
        &self,
        alloc: Global,
        _due: Due,
        reference: &Reference<'_>,
    ) -> Result<bool, AllocError> {
        let parts = reference.parts.as_slice();
        Ok(ToResult.meets(alloc, reference)? || is_status(parts))
    }
}

/// Whether some reference of these texts is to a parameter, none of those that are spared, and takes no value that is
/// due, by shapes. The only error is want of memory.
pub(crate) fn any_lacks<S: Shapes>(
    alloc: Global,
    shapes: &S,
    spared: &FirstNamed<'_, Text>,
    texts: &[(Due, &str)],
) -> Result<bool, AllocError>
    requires { All (λ t. HasReading t.1.now) texts.now }
    ensures { IfOk result (λ any. any ≡ any_lacks (S.env shapes.now) spared.now (seen texts.now)) }
{
    any_use(alloc, &Lacks { shapes, spared }, texts)
}

/// The same by the values that references take.
pub(crate) fn any_lacks_value(
    alloc: Global,
    lookup: &Lookup,
    spared: &FirstNamed<'_, Text>,
    texts: &[(Due, &str)],
) -> Result<bool, AllocError>
    requires { All (λ t. HasReading t.1.now) texts.now }
    ensures { IfOk result (λ any. any ≡ any_lacks_value lookup.now spared.now (seen texts.now)) }
{
    any_lacks(alloc, lookup, spared, texts)
}
