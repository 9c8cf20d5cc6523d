ghost use Rattle.std.specs.Prelude.{◌≡◌, All, IfOk, is_some, option_to_list};
ghost use Rattle.std.specs.List.{list_all};
ghost use Rattle.std.specs.Option.{ForSome};
ghost use Rattle.tk_vars.specs.Reading.{HasReading};
ghost use Rattle.tk_bind.specs.Fits.{step_elements, step_single_texts};
ghost use Rattle.tk_bind.specs.Readings.{ReadsStep};
ghost use Rattle.tk_shape.specs.Fits.{step_has_values};
ghost use Rattle.tk_shape.specs.Substituted.{element_count, has_value};

use crate::presence::{has_value, have_elements, have_pairs};
use crate::taken::Shapes;
use std::alloc::{AllocError, Global};
use tk_types::{Step, Text};

/// Whether the text, where there is one, has a value.
fn has_optional<S: Shapes>(
    alloc: Global,
    shapes: &S,
    text: &Option<Text>,
) -> Result<bool, AllocError>
    requires { ForSome text.now HasReading }
    ensures { IfOk result (λ has. has ≡ list_all (has_value (S.env shapes.now)) (option_to_list text.now)) }
{
    match text {
        Some(text) => has_value(alloc, shapes, text.as_str()),
        None => Ok(true),
    }
}

/// Whether each element of a step's lists has a value.
fn has_elements<S: Shapes>(alloc: Global, shapes: &S, step: &Step) -> Result<bool, AllocError>
    requires { ReadsStep step.now }
    ensures { IfOk result (λ has. has ≡ list_all (λ text. is_some (element_count (S.env shapes.now) text)) (step_elements step.now)) }
{
    if !have_elements(alloc, shapes, step.command.as_slice())? {
        return Ok(false);
    }
    have_elements(alloc, shapes, step.args.as_slice())
}

/// Whether each of a step's other texts has a value.
fn has_single_texts<S: Shapes>(alloc: Global, shapes: &S, step: &Step) -> Result<bool, AllocError>
    requires { ReadsStep step.now }
    ensures { IfOk result (λ has. has ≡ list_all (has_value (S.env shapes.now)) (step_single_texts step.now)) }
{
    if !has_optional(alloc, shapes, &step.script)? {
        return Ok(false);
    }
    if !have_pairs(alloc, shapes, step.env.as_slice())? {
        return Ok(false);
    }
    has_optional(alloc, shapes, &step.dir)
}

/// Whether each text of a step has a value. The only error is want of memory.
pub fn step_has_values<S: Shapes>(
    alloc: Global,
    shapes: &S,
    step: &Step,
) -> Result<bool, AllocError>
    requires { ReadsStep step.now }
    ensures { IfOk result (λ has. has ≡ step_has_values (S.env shapes.now) step.now) }
{
    if !has_elements(alloc, shapes, step)? {
        return Ok(false);
    }
    has_single_texts(alloc, shapes, step)
}

/// Whether each text of each step has a value. The only error is want of memory.
pub fn steps_have_values<S: Shapes>(
    alloc: Global,
    shapes: &S,
    steps: &[Step],
) -> Result<bool, AllocError>
    requires { All ReadsStep steps.now }
    ensures { IfOk result (λ have. have ≡ list_all (step_has_values (S.env shapes.now)) steps.now) }
{
    for step in steps {
        if !step_has_values(alloc, shapes, step)? {
            return Ok(false);
        }
    }
    Ok(true)
}
