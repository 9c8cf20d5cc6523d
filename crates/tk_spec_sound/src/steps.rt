ghost use Rattle.std.specs.Prelude.{◌≡◌, ◌<◌, ◌≤◌, ◌↔◌, All, IfOk, IsTrue, length};
ghost use Rattle.tk_types.specs.Limits.{most_steps};
ghost use Rattle.tk_types.specs.declared.run.Start.TheVariants.{Ready as IsReady};
ghost use Rattle.tk_journal.specs.Sound.{HasSteps};
ghost use Rattle.tk_spec_sound.specs.Parts.{IsSoundBody};

use crate::texts::steps_read;
use std::alloc::{AllocError, Global};
use tk_types::{MOST_STEPS, Start, TaskBody};

/// Whether a body has few steps.
fn has_few_steps(body: &TaskBody) -> bool
    ensures { IsTrue result ↔ (length body.now.spec.steps ≤ most_steps) }
{
    body.spec.steps.len() <= MOST_STEPS
}

/// Whether a body has a step.
fn has_a_step(body: &TaskBody) -> bool
    ensures { IsTrue result ↔ (0 < length body.now.spec.steps) }
{
    0 < body.spec.steps.len()
}

/// Whether a body has a step where it is to run.
fn has_enough_steps(start: &Start, body: &TaskBody) -> bool
    ensures { IsTrue result ↔ (start.now ≡ IsReady → 0 < length body.now.spec.steps) }
{
    match start {
        Start::Ready => has_a_step(body),
        Start::Unstartable(_) => true,
    }
}

/// Whether a body has few steps, and one at least where it is to run.
pub(crate) fn has_steps(start: &Start, body: &TaskBody) -> bool
    ensures { IsTrue result ↔ HasSteps start.now body.now }
{
    if !has_few_steps(body) {
        return false;
    }
    has_enough_steps(start, body)
}

/// Whether a body has the steps that it needs, and their texts have readings.
fn is_sound_body(alloc: Global, start: &Start, body: &TaskBody) -> Result<bool, AllocError>
    ensures { IfOk result (λ yes. IsTrue yes ↔ IsSoundBody start.now body.now) }
{
    if !has_steps(start, body) {
        return Ok(false);
    }
    steps_read(alloc, body.spec.steps.as_slice())
}

/// Whether each of some bodies has the steps that it needs, and their texts have readings. The only error is want of
/// memory.
pub(crate) fn are_sound_bodies(
    alloc: Global,
    start: &Start,
    bodies: &[TaskBody],
) -> Result<bool, AllocError>
    ensures { IfOk result (λ yes. IsTrue yes ↔ All (IsSoundBody start.now) bodies.now) }
{
    for body in bodies {
        if !is_sound_body(alloc, start, body)? {
            return Ok(false);
        }
    }
    Ok(true)
}
