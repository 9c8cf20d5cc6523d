ghost use Rattle.std.specs.Prelude.{◌≡◌, ◌++◌, false, Option, map, option_and_then, IfOk, OnOk};
ghost use Rattle.std.specs.List.{list_any};
ghost use Rattle.std.specs.Option.{ForSome, option_map_or};
ghost use Rattle.tk_types.specs.Lists.{is_empty as is_empty_list};
ghost use Rattle.tk_types.specs.declared.value.Param.{Param as ParamRecord};
ghost use Rattle.tk_types.specs.declared.task.Matrix.{Matrix as MatrixRecord};
ghost use Rattle.tk_matrix.specs.Combinations.{has_empty_list};
ghost use Rattle.tk_matrix.specs.Product.{HasLists, list_of};
ghost use Rattle.tk_bind.specs.Params.{matrix_in as matrix_in_env, params_in as params_in_env};
ghost use Rattle.tk_bind.specs.Readings.{ReadsMatrix, ReadsParams};
ghost use Rattle.tk_verdict.specs.Bindings.{combinations_in as combinations_in_env, few_combinations, has_no_combination};
ghost use Rattle.tk_verdict.specs.Readings.{ReadsTask};

use std::alloc::{AllocError, Global};
use tk_bind::{Lookup, matrix_in, params_in};
use tk_matrix::{TooLarge, all, count};
use tk_types::{List, Matrix, Param, PipelineTask, TryCopy, Value};

/// Each combination with a task's own parameters in front.
fn with_own(
    alloc: Global,
    own: &[Param],
    combinations: &[List<Param>],
) -> Result<List<List<Param>>, AllocError>
    ensures { IfOk result (λ made. made ≡ map (λ c. own.now ++ c) combinations.now) }
{
    let mut made = List::new(alloc);
    for combination in combinations {
        let mut whole = List::new(alloc);
        whole.push_all(alloc, own)?;
        whole.push_all(alloc, combination.as_slice())?;
        made.push(whole)?;
    }
    Ok(made)
}

/// The combinations of a task with these parameters and this matrix, where they are at most 256.
fn few_combinations(
    alloc: Global,
    own: List<Param>,
    matrix: &Option<Matrix>,
) -> Result<Option<List<List<Param>>>, AllocError>
    requires { ForSome matrix.now HasLists }
    ensures { IfOk result (λ made. made ≡ few_combinations own matrix.now) }
{
    match matrix {
        None => {
            let mut made = List::new(alloc);
            made.push(own)?;
            Ok(Some(made))
        }
        Some(matrix) => match count(matrix) {
            Err(TooLarge { .. }) => Ok(None),
            Ok(_) => {
                let listed = all(alloc, matrix)?;
                Ok(Some(with_own(alloc, own.as_slice(), listed.as_slice())?))
            }
        },
    }
}

/// Whether a list of the matrix is empty.
fn has_empty_list_in(matrix: &Matrix) -> bool
    ensures { result ≡ has_empty_list matrix.now.params }
{
    matrix
        .params
        .as_slice()
        .iter()
        .any(|param| is_empty_value(&param.value))
}

/// Whether a value isn't a list, or is an empty one.
fn is_empty_value(value: &Value) -> bool
    ensures { result ≡ is_empty_list (list_of value.now) }
{
    match value {
        Value::Arr(texts) => texts.is_empty(),
        _ => true,
    }
}

/// Whether there is a matrix and a list of it is empty.
fn is_without_combinations(matrix: &Option<Option<Matrix>>) -> bool
    ensures { result ≡ option_map_or (λ (m : Option MatrixRecord). option_map_or (λ (m : MatrixRecord). has_empty_list m.params) m false) matrix.now false }
{
    match matrix {
        Some(Some(matrix)) => has_empty_list_in(matrix),
        _ => false,
    }
}

/// The combinations of a task, where each reference in them has a value and they are at most 256, and whether a list of
/// its matrix is empty.
#[derive(Drop)]
pub struct Combined {
    pub is_empty: bool,
    pub list: Option<List<List<Param>>>,
}

/// The combinations of a task with this matrix.
fn combinations_of(
    alloc: Global,
    lookup: &Lookup,
    params: &[Param],
    matrix: &Option<Matrix>,
) -> Result<Option<List<List<Param>>>, AllocError>
    requires reads { ReadsParams params.now }
    requires lists { ForSome matrix.now HasLists }
    ensures { IfOk result (λ made. made ≡ option_and_then (λ own. few_combinations own matrix.now) (params_in_env lookup.now params.now)) }
{
    match params_in(alloc, lookup, params)? {
        Some(own) => few_combinations(alloc, own, matrix),
        None => Ok(None),
    }
}

/// The combinations of a task. The only error is want of memory.
pub(crate) fn combinations_in(
    alloc: Global,
    lookup: &Lookup,
    task: &PipelineTask,
) -> Result<Combined, AllocError>
    requires { ReadsTask task.now }
    ensures list { IfOk result (λ combined. combined.list ≡ combinations_in_env lookup.now task.now) }
    ensures empty { IfOk result (λ combined. combined.is_empty ≡ has_no_combination lookup.now task.now) }
{
    let matrix = matrix_in(alloc, lookup, &task.matrix)?;
    let is_empty = is_without_combinations(&matrix);
    let list = match &matrix {
        Some(matrix) => combinations_of(alloc, lookup, task.params.as_slice(), matrix)?,
        None => None,
    };
    Ok(Combined { is_empty, list })
}
