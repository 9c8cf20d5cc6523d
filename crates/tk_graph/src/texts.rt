ghost use Rattle.std.specs.Prelude.{◌≡◌, ◌++◌, [], flat_map, map, IfOk, OnOk};
ghost use Rattle.tk_types.specs.Value.{value_texts};
ghost use Rattle.tk_types.specs.declared.value.Param.{Param as ParamRecord};
ghost use Rattle.tk_graph.specs.Results.{guards_texts, matrix_texts, params_texts, result_tasks, task_texts};

use crate::references::add_of_text;
use std::alloc::{AllocError, Global};
use tk_types::{List, Matrix, Pair, Param, PipelineTask, Text, Value, When};

/// Adds texts.
fn add_texts<'t>(made: &mut Vec<&'t Text>, texts: &'t [Text]) -> Result<(), AllocError>
    ensures { OnOk result (map (λ t. t.now) made.new.items ≡ map (λ t. t.now) made.old.items ++ texts.now) }
{
    for text in texts {
        made.push(text)?;
    }
    Ok(())
}

/// Adds the texts of pairs.
fn add_pairs<'t>(made: &mut Vec<&'t Text>, pairs: &'t [Pair]) -> Result<(), AllocError>
    ensures { OnOk result (map (λ t. t.now) made.new.items ≡ map (λ t. t.now) made.old.items ++ map (λ p. p.value) pairs.now) }
{
    for pair in pairs {
        made.push(&pair.value)?;
    }
    Ok(())
}

/// Adds the texts of a value.
fn add_value<'t>(made: &mut Vec<&'t Text>, value: &'t Value) -> Result<(), AllocError>
    ensures { OnOk result (map (λ t. t.now) made.new.items ≡ map (λ t. t.now) made.old.items ++ value_texts value.now) }
{
    match value {
        Value::Str(text) => Ok(made.push(text)?),
        Value::Arr(texts) => add_texts(made, texts.as_slice()),
        Value::Obj(pairs) => add_pairs(made, pairs.as_slice()),
    }
}

/// Adds the texts of parameters.
fn add_params<'t>(made: &mut Vec<&'t Text>, params: &'t [Param]) -> Result<(), AllocError>
    ensures { OnOk result (map (λ t. t.now) made.new.items ≡ map (λ t. t.now) made.old.items ++ params_texts params.now) }
{
    for param in params {
        add_value(made, &param.value)?;
    }
    Ok(())
}

/// Adds the texts of the include entries of a matrix.
fn add_entries<'t>(made: &mut Vec<&'t Text>, entries: &'t [List<Param>]) -> Result<(), AllocError>
    ensures { OnOk result (map (λ t. t.now) made.new.items ≡ map (λ t. t.now) made.old.items ++ flat_map params_texts entries.now) }
{
    for entry in entries {
        add_params(made, entry.as_slice())?;
    }
    Ok(())
}

/// Adds the texts of a matrix, where there is one.
fn add_matrix<'t>(made: &mut Vec<&'t Text>, matrix: &'t Option<Matrix>) -> Result<(), AllocError>
    ensures { OnOk result (map (λ t. t.now) made.new.items ≡ map (λ t. t.now) made.old.items ++ matrix_texts matrix.now) }
{
    if let Some(matrix) = matrix {
        add_params(made, matrix.params.as_slice())?;
        add_entries(made, matrix.include.as_slice())?;
    }
    Ok(())
}

/// Adds the texts of `when` expressions.
fn add_guards<'t>(made: &mut Vec<&'t Text>, guards: &'t [When]) -> Result<(), AllocError>
    ensures { OnOk result (map (λ t. t.now) made.new.items ≡ map (λ t. t.now) made.old.items ++ guards_texts guards.now) }
{
    for guard in guards {
        made.push(&guard.input)?;
        add_texts(made, guard.values.as_slice())?;
    }
    Ok(())
}

/// The texts of a task in which references are substituted, in reading order: those of its parameters, its matrix and
/// its `when` expressions. The only error is want of memory.
pub fn task_texts(alloc: Global, task: &PipelineTask) -> Result<Vec<&Text>, AllocError>
    ensures { IfOk result (λ texts. map (λ t. t.now) texts.items ≡ task_texts task.now) }
{
    let mut made = Vec::new(alloc);
    add_params(&mut made, task.params.as_slice())?;
    add_matrix(&mut made, &task.matrix)?;
    add_guards(&mut made, task.when.as_slice())?;
    Ok(made)
}

/// The names of the tasks to whose results a task refers, in reading order, each as often as it stands there.
pub fn result_tasks(alloc: Global, task: &PipelineTask) -> Result<List<Text>, AllocError>
    ensures { IfOk result (λ names. names ≡ result_tasks (task_texts task.now)) }
{
    let texts = task_texts(alloc, task)?;
    let mut names = List::new(alloc);
    for text in texts.as_slice() {
        add_of_text(alloc, text.as_str(), &mut names)?;
    }
    Ok(names)
}
