ghost use Rattle.std.specs.Prelude.{◌≡◌, ◌++◌, flat_map, map, option_to_list, IfOk, OnOk};
ghost use Rattle.tk_types.specs.declared.value.Pair.{Pair as P};
ghost use Rattle.tk_resolve.specs.declared.due.Due.TheVariants.{OneText, AnyValue};
ghost use Rattle.tk_resolve.specs.Due.{dues, element_dues, guard_dues, is_as_strict, is_due, matrix_dues, params_dues, seen, single_dues, step_dues, task_dues, value_dues};

use std::alloc::{AllocError, Global};
use tk_types::{List, Matrix, Pair, Param, ParamType, PipelineTask, Step, Text, Value, When};

/// What is due where a text stands: a text, an element of a list, which may be spliced, or any value.
#[derive(Clone, Copy, Debug, PartialEq, Eq)]
pub(crate) enum Due {
    OneText,
    Element,
    AnyValue,
}

impl Due {
    /// Whether a value of this type, taken by a reference, is what is due.
    pub(crate) fn takes(self, kind: ParamType) -> bool
        ensures { result ≡ is_due self kind }
    {
        match kind {
            ParamType::Str => true,
            ParamType::Arr => !matches!(self, Due::OneText),
            ParamType::Obj => matches!(self, Due::AnyValue),
        }
    }

    /// Whether each value that is due here is due where that is.
    pub(crate) fn is_as_strict_as(self, other: Due) -> bool
        ensures { result ≡ is_as_strict self other }
    {
        match self {
            Due::OneText => true,
            Due::Element => !matches!(other, Due::OneText),
            Due::AnyValue => matches!(other, Due::AnyValue),
        }
    }
}

/// Adds texts of which the same is due.
fn add_texts<'t>(
    made: &mut Vec<(Due, &'t str)>,
    due: Due,
    texts: &'t [Text],
) -> Result<(), AllocError>
    ensures { OnOk result (seen made.new.items ≡ seen made.old.items ++ dues due texts.now) }
{
    for text in texts {
        made.push((due, text.as_str()))?;
    }
    Ok(())
}

/// Adds the texts of pairs, which are texts alone.
fn add_pairs<'t>(made: &mut Vec<(Due, &'t str)>, pairs: &'t [Pair]) -> Result<(), AllocError>
    ensures { OnOk result (seen made.new.items ≡ seen made.old.items ++ map (λ (p : P). (OneText, p.value)) pairs.now) }
{
    for pair in pairs {
        made.push((Due::OneText, pair.value.as_str()))?;
    }
    Ok(())
}

/// Adds the texts of a value of which this is due.
fn add_value<'t>(
    made: &mut Vec<(Due, &'t str)>,
    due: Due,
    value: &'t Value,
) -> Result<(), AllocError>
    ensures { OnOk result (seen made.new.items ≡ seen made.old.items ++ value_dues due value.now) }
{
    match value {
        Value::Str(text) => Ok(made.push((due, text.as_str()))?),
        Value::Arr(texts) => add_texts(made, Due::Element, texts.as_slice()),
        Value::Obj(pairs) => add_pairs(made, pairs.as_slice()),
    }
}

/// Adds the texts of parameters.
fn add_params<'t>(
    made: &mut Vec<(Due, &'t str)>,
    due: Due,
    params: &'t [Param],
) -> Result<(), AllocError>
    ensures { OnOk result (seen made.new.items ≡ seen made.old.items ++ params_dues due params.now) }
{
    for param in params {
        add_value(made, due, &param.value)?;
    }
    Ok(())
}

/// Adds the texts of the include entries of a matrix.
fn add_entries<'t>(
    made: &mut Vec<(Due, &'t str)>,
    entries: &'t [List<Param>],
) -> Result<(), AllocError>
    ensures { OnOk result (seen made.new.items ≡ seen made.old.items ++ flat_map (params_dues AnyValue) entries.now) }
{
    for entry in entries {
        add_params(made, Due::AnyValue, entry.as_slice())?;
    }
    Ok(())
}

/// Adds the texts of a matrix, where there is one.
fn add_matrix<'t>(
    made: &mut Vec<(Due, &'t str)>,
    matrix: &'t Option<Matrix>,
) -> Result<(), AllocError>
    ensures { OnOk result (seen made.new.items ≡ seen made.old.items ++ matrix_dues matrix.now) }
{
    if let Some(matrix) = matrix {
        add_params(made, Due::Element, matrix.params.as_slice())?;
        add_entries(made, matrix.include.as_slice())?;
    }
    Ok(())
}

/// The texts of a parameter's value with what is due of each. The only error is want of memory.
pub(crate) fn param_dues(alloc: Global, param: &Param) -> Result<Vec<(Due, &str)>, AllocError>
    ensures { IfOk result (λ texts. seen texts.items ≡ value_dues AnyValue param.now.value) }
{
    let mut made = Vec::new(alloc);
    add_value(&mut made, Due::AnyValue, &param.value)?;
    Ok(made)
}

/// The texts of a matrix, where there is one, with what is due of each. The only error is want of memory.
pub(crate) fn matrix_dues(
    alloc: Global,
    matrix: &Option<Matrix>,
) -> Result<Vec<(Due, &str)>, AllocError>
    ensures { IfOk result (λ texts. seen texts.items ≡ matrix_dues matrix.now) }
{
    let mut made = Vec::new(alloc);
    add_matrix(&mut made, matrix)?;
    Ok(made)
}

/// Adds the texts of `when` expressions.
fn add_guards<'t>(made: &mut Vec<(Due, &'t str)>, guards: &'t [When]) -> Result<(), AllocError>
    ensures { OnOk result (seen made.new.items ≡ seen made.old.items ++ flat_map guard_dues guards.now) }
{
    for guard in guards {
        made.push((Due::OneText, guard.input.as_str()))?;
        add_texts(made, Due::Element, guard.values.as_slice())?;
    }
    Ok(())
}

/// The texts of a task with what is due of each, in reading order. The only error is want of memory.
pub(crate) fn task_dues(alloc: Global, task: &PipelineTask) -> Result<Vec<(Due, &str)>, AllocError>
    ensures { IfOk result (λ texts. seen texts.items ≡ task_dues task.now) }
{
    let mut made = Vec::new(alloc);
    add_params(&mut made, Due::AnyValue, task.params.as_slice())?;
    add_matrix(&mut made, &task.matrix)?;
    add_guards(&mut made, task.when.as_slice())?;
    Ok(made)
}

/// The texts of a pipeline's results. The only error is want of memory.
pub(crate) fn result_dues(alloc: Global, results: &[Param]) -> Result<Vec<(Due, &str)>, AllocError>
    ensures { IfOk result (λ texts. seen texts.items ≡ params_dues AnyValue results.now) }
{
    let mut made = Vec::new(alloc);
    add_params(&mut made, Due::AnyValue, results)?;
    Ok(made)
}

/// Adds a text alone, where there is one.
fn add_optional<'t>(
    made: &mut Vec<(Due, &'t str)>,
    text: &'t Option<Text>,
) -> Result<(), AllocError>
    ensures { OnOk result (seen made.new.items ≡ seen made.old.items ++ dues OneText (option_to_list text.now)) }
{
    if let Some(text) = text {
        made.push((Due::OneText, text.as_str()))?;
    }
    Ok(())
}

/// Adds the elements of a step's lists.
fn add_elements<'t>(made: &mut Vec<(Due, &'t str)>, step: &'t Step) -> Result<(), AllocError>
    ensures { OnOk result (seen made.new.items ≡ seen made.old.items ++ element_dues step.now) }
{
    add_texts(made, Due::Element, step.command.as_slice())?;
    add_texts(made, Due::Element, step.args.as_slice())
}

/// Adds the other texts of a step.
fn add_single_texts<'t>(made: &mut Vec<(Due, &'t str)>, step: &'t Step) -> Result<(), AllocError>
    ensures { OnOk result (seen made.new.items ≡ seen made.old.items ++ single_dues step.now) }
{
    add_optional(made, &step.script)?;
    add_pairs(made, step.env.as_slice())?;
    add_optional(made, &step.dir)
}

/// Adds the texts of a step.
fn add_step<'t>(made: &mut Vec<(Due, &'t str)>, step: &'t Step) -> Result<(), AllocError>
    ensures { OnOk result (seen made.new.items ≡ seen made.old.items ++ step_dues step.now) }
{
    add_elements(made, step)?;
    add_single_texts(made, step)
}

/// The texts of steps with what is due of each, in reading order. The only error is want of memory.
pub(crate) fn steps_dues(alloc: Global, steps: &[Step]) -> Result<Vec<(Due, &str)>, AllocError>
    ensures { IfOk result (λ texts. seen texts.items ≡ flat_map step_dues steps.now) }
{
    let mut made = Vec::new(alloc);
    for step in steps {
        add_step(&mut made, step)?;
    }
    Ok(made)
}
