ghost use Rattle.std.specs.Prelude.{◌≡◌, ◌<◌, None, Some, IfOk};
ghost use Rattle.std.specs.Option.{ForSome};
ghost use Rattle.tk_matrix.specs.Product.{HasLists};
ghost use Rattle.tk_matrix.specs.Task.{task_combination_count};
ghost use Rattle.tk_bind.specs.Readings.{ReadsParam, ReadsPipelineTask};
ghost use Rattle.tk_bind.specs.Params.{matrix_in};
ghost use Rattle.tk_shape.specs.ShapeEnv.{shape_env};
ghost use Rattle.tk_shape.specs.Substituted.{param_shapes};
ghost use Rattle.tk_resolve.specs.declared.settled.KnownShapes.{KnownShapes as Shapes};
ghost use Rattle.tk_resolve.specs.Settled.{early_params, is_late, judged_count, late_names};
ghost use Rattle.tk_resolve.specs.Shapes.{IsUnknown, given_at};

use crate::due::param_dues;
use crate::questions::ToLater;
use crate::uses::any_use;
use std::alloc::{AllocError, Global};
use tk_bind::{Lookup, matrix_in};
use tk_matrix::{combination, count};
use tk_shape::{NamedShape, param_shapes};
use tk_types::{List, Matrix, Param, PipelineTask, Text, TryCopy};

/// Whether the value of a parameter is known only in the run.
fn is_late(alloc: Global, param: &Param) -> Result<bool, AllocError>
    requires { ReadsParam param.now }
    ensures { IfOk result (λ late. late ≡ is_late param.now) }
{
    let texts = param_dues(alloc, param)?;
    any_use(alloc, &ToLater, texts.as_slice())
}

/// A task's own parameters: those whose values are known at admission, and the names of the others.
#[derive(Drop)]
pub(crate) struct OwnParams {
    pub early: List<Param>,
    pub late: List<Text>,
}

/// The parameters of a task's own whose values are known at admission.
fn early_params(alloc: Global, task: &PipelineTask) -> Result<List<Param>, AllocError>
    requires { ReadsPipelineTask task.now }
    ensures { IfOk result (λ params. params ≡ early_params task.now) }
{
    let mut early = List::new(alloc);
    for param in task.params.as_slice() {
        if !is_late(alloc, param)? {
            early.push(param.copy(alloc)?)?;
        }
    }
    Ok(early)
}

/// The names of the others.
fn late_names(alloc: Global, task: &PipelineTask) -> Result<List<Text>, AllocError>
    requires { ReadsPipelineTask task.now }
    ensures { IfOk result (λ names. names ≡ late_names task.now) }
{
    let mut names = List::new(alloc);
    for param in task.params.as_slice() {
        if is_late(alloc, param)? {
            names.push(param.name.copy(alloc)?)?;
        }
    }
    Ok(names)
}

/// The parameters of a task's own. The only error is want of memory.
pub(crate) fn own_params(alloc: Global, task: &PipelineTask) -> Result<OwnParams, AllocError>
    requires { ReadsPipelineTask task.now }
    ensures early { IfOk result (λ own. own.early ≡ early_params task.now) }
    ensures late { IfOk result (λ own. own.late ≡ late_names task.now) }
{
    let late = late_names(alloc, task)?;
    let early = if late.is_empty() {
        task.params.copy(alloc)?
    } else {
        early_params(alloc, task)?
    };
    Ok(OwnParams { early, late })
}

/// What of a settled task is known at admission: the shapes of its early parameters and its matrix, with their references
/// substituted.
#[derive(Drop)]
pub(crate) struct KnownShapes<'s> {
    pub early: Vec<NamedShape<'s>>,
    pub matrix: Option<Matrix>,
}

impl<'s> KnownShapes<'s> {
    /// How many combinations are judged: none where they are more than 256.
    pub(crate) fn judged_count(&self) -> u32
        requires { ForSome self.now.matrix HasLists }
        ensures { result ≡ judged_count self.now.matrix }
    {
        match &self.matrix {
            None => 1,
            Some(matrix) => count(matrix).unwrap_or(0),
        }
    }

    /// What the matrix gives at an index. The only error is want of memory.
    pub(crate) fn given_at(&self, alloc: Global, index: u32) -> Result<List<Param>, AllocError>
        requires lists { ForSome self.now.matrix HasLists }
        requires below { index < task_combination_count self.now.matrix }
        ensures { IfOk result (λ given. given ≡ given_at self.now.matrix index) }
    {
        match &self.matrix {
            None => Ok(List::new(alloc)),
            Some(matrix) => combination(alloc, matrix, index),
        }
    }
}

/// What of a settled task is known at admission, unless a reference in it has no value. The only error is want of memory.
pub(crate) fn known_shapes<'s>(
    alloc: Global,
    lookup: &'s Lookup,
    task: &PipelineTask,
    early: &'s [Param],
) -> Result<Option<KnownShapes<'s>>, AllocError>
    requires task { ReadsPipelineTask task.now }
    requires early { early.now ≡ early_params task.now }
    ensures shapes { IfOk result (λ known. ForSome known (λ (k : Shapes). param_shapes (shape_env lookup.now) (early_params task.now) ≡ Some k.early.items)) }
    ensures matrix { IfOk result (λ known. ForSome known (λ (k : Shapes). matrix_in lookup.now task.now.matrix ≡ Some k.matrix)) }
    ensures unknown { IfOk result (λ known. known ≡ None → IsUnknown lookup.now task.now) }
    ensures lists { IfOk result (λ known. ForSome known (λ (k : Shapes). ForSome k.matrix HasLists)) }
{
    let Some(early) = param_shapes(alloc, lookup, early)? else {
        return Ok(None);
    };
    match matrix_in(alloc, lookup, &task.matrix)? {
        Some(matrix) => Ok(Some(KnownShapes { early, matrix })),
        None => Ok(None),
    }
}
