ghost use Rattle.std.specs.Prelude.{◌≡◌, ◌↔◌, All, IfOk, IsTrue, Some};
ghost use Rattle.tk_types.specs.declared.object.Asked.{Asked as A};
ghost use Rattle.tk_types.specs.declared.object.Asked.TheVariants.{TaskRunCancelled as IsTaskRunCancelled};
ghost use Rattle.tk_types.specs.declared.run.Start.TheVariants.{Ready as IsReady};
ghost use Rattle.tk_bind.specs.Fits.{fits as fits_body};
ghost use Rattle.tk_bind.specs.Readings.{ReadsStep};
ghost use Rattle.tk_journal.specs.Sound.{IsSoundTaskRun};
ghost use Rattle.tk_spec_sound.specs.Parts.{IsSoundTaskRunHead};

use crate::limits::{are_few_retries, is_short};
use crate::names::is_name;
use crate::steps::has_steps;
use crate::texts::steps_read;
use std::alloc::{AllocError, Global};
use tk_bind::fits;
use tk_names::is_object_name;
use tk_types::{Asked, Start, TaskRunSpec};

/// Whether this asks that a TaskRun is cancelled.
fn cancels(status: Asked) -> bool
    ensures { IsTrue result ↔ (status ≡ IsTaskRunCancelled) }
{
    status == Asked::TaskRunCancelled
}

/// Whether a TaskRun is asked for nothing but its end.
fn asks_cancel(asked: &Option<Asked>) -> bool
    ensures { IsTrue result ↔ ((status : A) → asked.now ≡ Some status → status ≡ IsTaskRunCancelled) }
{
    match *asked {
        Some(status) => cancels(status),
        None => true,
    }
}

/// Whether a TaskRun has this name, which may name an object, is asked for nothing but its end, and has few retries, a
/// short timeout and the steps that it needs.
fn has_sound_head(name: &str, asked: &Option<Asked>, spec: &TaskRunSpec) -> bool
    ensures { IsTrue result ↔ IsSoundTaskRunHead name.now asked.now spec.now }
{
    if !is_name(&spec.name, name) {
        return false;
    }
    if !is_object_name(name) {
        return false;
    }
    if !asks_cancel(asked) {
        return false;
    }
    if !are_few_retries(spec.retries) {
        return false;
    }
    if !is_short(spec.timeout) {
        return false;
    }
    has_steps(&spec.start, &spec.body)
}

/// Whether the parameters of a TaskRun that can start fit its body.
fn fits_its_body(alloc: Global, spec: &TaskRunSpec) -> Result<bool, AllocError>
    requires { All ReadsStep spec.now.body.spec.steps }
    ensures { IfOk result (λ yes. IsTrue yes ↔ (spec.now.start ≡ IsReady → IsTrue (fits_body spec.now.body spec.now.params))) }
{
    match &spec.start {
        Start::Ready => fits(alloc, &spec.body, spec.params.as_slice()),
        Start::Unstartable(_) => Ok(true),
    }
}

/// Whether an admitted TaskRun is sound. The only error is want of memory.
pub(crate) fn is_sound_task_run(
    alloc: Global,
    name: &str,
    asked: &Option<Asked>,
    spec: &TaskRunSpec,
) -> Result<bool, AllocError>
    ensures { IfOk result (λ yes. IsTrue yes ↔ IsSoundTaskRun name.now asked.now spec.now) }
{
    if !has_sound_head(name, asked, spec) {
        return Ok(false);
    }
    if !steps_read(alloc, spec.body.spec.steps.as_slice())? {
        return Ok(false);
    }
    fits_its_body(alloc, spec)
}
