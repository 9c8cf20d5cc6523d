ghost use Rattle.std.specs.Prelude.{◌≡◌, IfOk};
ghost use Rattle.std.specs.List.{list_all};
ghost use Rattle.tk_bind.specs.Fits.{fits as fits_body};
ghost use Rattle.tk_verdict.specs.Own.{own_in, own_is_broken, own_is_refused, row_by};
ghost use Rattle.tk_verdict.specs.Readings.{ReadsBody, ReadsTask};

use crate::combined::{Combined, combinations_in};
use crate::guards::guards_in;
use std::alloc::{AllocError, Global};
use tk_bind::{Lookup, fits};
use tk_guard::holds;
use tk_types::{List, Param, PipelineTask, SkipReason, TaskBody, When};

/// What the own texts of a task give: its `when` expressions, where each reference in them has a value, and its
/// combinations.
#[derive(Drop)]
pub struct Own {
    pub guards: Option<List<When>>,
    pub combined: Combined,
}

/// What the own texts of a task give. The only error is want of memory.
pub fn own_of(alloc: Global, lookup: &Lookup, task: &PipelineTask) -> Result<Own, AllocError>
    requires { ReadsTask task.now }
    ensures { IfOk result (λ own. own ≡ own_in lookup.now task.now) }
{
    Ok(Own {
        guards: guards_in(alloc, lookup, task)?,
        combined: combinations_in(alloc, lookup, task)?,
    })
}

/// Whether each combination fits a body.
fn all_fit(alloc: Global, body: &TaskBody, combinations: &[List<Param>]) -> Result<bool, AllocError>
    requires { ReadsBody body.now }
    ensures { IfOk result (λ fit. fit ≡ list_all (fits_body body.now) combinations.now) }
{
    for combination in combinations {
        if !fits(alloc, body, combination.as_slice())? {
            return Ok(false);
        }
    }
    Ok(true)
}

/// Whether a reference has no value, there are too many combinations, or one doesn't fit the body.
fn is_broken(alloc: Global, body: &TaskBody, own: &Own) -> Result<bool, AllocError>
    requires { ReadsBody body.now }
    ensures { IfOk result (λ broken. broken ≡ own_is_broken body.now own.now) }
{
    if own.guards.is_none() {
        return Ok(true);
    }
    match &own.combined.list {
        Some(combinations) => Ok(!all_fit(alloc, body, combinations.as_slice())?),
        None => Ok(true),
    }
}

/// Whether a `when` expression is false.
fn is_refused(own: &Own) -> bool
    ensures { result ≡ own_is_refused own.now }
{
    match &own.guards {
        Some(guards) => !holds(guards.as_slice()),
        None => false,
    }
}

/// Why the own texts of a task skip it, where they do. The only error is want of memory.
pub fn own_row(alloc: Global, body: &TaskBody, own: &Own) -> Result<Option<SkipReason>, AllocError>
    requires { ReadsBody body.now }
    ensures { IfOk result (λ row. row ≡ row_by body.now own.now) }
{
    if is_broken(alloc, body, own)? {
        Ok(Some(SkipReason::Broken))
    } else if is_refused(own) {
        Ok(Some(SkipReason::When))
    } else if own.combined.is_empty {
        Ok(Some(SkipReason::EmptyMatrix))
    } else {
        Ok(None)
    }
}
