ghost use Rattle.std.specs.Prelude.{◌≡◌, ℕ, codes, is_some};
ghost use Rattle.serde_json.specs.View.{view};
ghost use Rattle.tk_types.specs.Rejected.{Reads};
ghost use Rattle.tk_time.specs.Duration.{duration_of};
ghost use Rattle.tk_fields.specs.Get.{at, list_at, number_at, text_at};
ghost use Rattle.tk_manifest.specs.Parameter.{params_at};
ghost use Rattle.tk_manifest.specs.Task.{task_source_of};
ghost use Rattle.tk_manifest.specs.Workspace.{space_use_of};
ghost use Rattle.tk_manifest.specs.Pipeline.{duration, empty_matrix, ignored_with_retries, include_entry, include_keys, include_of, include_params, is_in, matrix, matrix_fields, matrix_keys, matrix_of, millis_of, operator_words, pipeline_spec, pipeline_spec_fields, pipeline_spec_keys, pipeline_spec_of, pipeline_task, pipeline_task_keys, pipeline_task_of, task_front, task_inputs, task_inputs_of, task_limits, task_options, task_options_of, task_rules, task_spaces, when, when_fields, when_keys, when_of};

use crate::names::DnsLabel;
use crate::parameter::{ParamForm, ParamSpecForm, PipelineResultForm};
use crate::task::{read_on_error, read_task_source};
use crate::workspace::{PipelineSpaceForm, SpaceUseForm};
use serde_json::Value as Json;
use std::alloc::Global;
use tk_fields::{
    AnyText, Below32, Each, OneOf, OrEmpty, Reader, SomeOf, TextThat, Words, check_object,
    field_table, just_one, optional, or_empty, required,
};
use tk_time::read_duration;
use tk_types::{
    Fault, List, Location, Matrix, Param, PipelineSpec, PipelineTask, Rejected, SpaceUse,
    TaskSource, Text, When, refusal,
};

/// A duration, in milliseconds; a text that is none is `BadDuration`.
pub struct DurationForm;

impl Reader for DurationForm {
    type Out = u64;

    ghost check = { duration };

    ghost value_of = { millis_of };

    #[tactic(auto, unfolding(crate::specs::Pipeline::duration, crate::specs::Pipeline::millis_of))]
    fn read(alloc: Global, value: &Json, place: &Location<'_>) -> Result<u64, Rejected> {
        let Some(text) = value.as_str() else {
            return Err(refusal(alloc, Fault::WRONG_SHAPE, place));
        };
        match read_duration(text) {
            Some(millis) => Ok(millis),
            None => Err(refusal(alloc, Fault::BAD_DURATION, place)),
        }
    }
}

impl OrEmpty for DurationForm {
    #[tactic(auto, unfolding(crate::specs::Pipeline::millis_of))]
    fn empty(_alloc: Global) -> u64 {
        0
    }
}

/// Whether a guard asks for a member.
pub struct OperatorWords;

impl Words for OperatorWords {
    type Meaning = bool;

    ghost words = { operator_words };

    ghost meaning = { is_in };

    fn meaning_of(word: &str) -> Option<bool> {
        match word {
            "in" => Some(true),
            "notin" => Some(false),
            _ => None,
        }
    }
}

/// Refuses what is no object with the keys of a guard.
#[tactic(auto, unfolding(crate::specs::Pipeline::when_keys))]
fn check_when(alloc: Global, value: &Json, place: &Location<'_>) -> Result<(), Rejected>
    ensures { Reads (when_keys place.now (view value.now)) tt result }
{
    let table = field_table!(Used "input" "operator" "values", Refused "cel");
    check_object(alloc, value, &table, place)
}

/// The fields of a guard.
#[tactic(auto, unfolding(crate::specs::Pipeline::when_fields, crate::specs::Pipeline::when_of))]
fn read_when(alloc: Global, value: &Json, place: &Location<'_>) -> Result<When, Rejected>
    ensures { Reads (when_fields place.now (view value.now)) (when_of (view value.now)) result }
{
    Ok(When {
        input: required::<AnyText>(alloc, value, place, "input")?,
        is_member: required::<OneOf<OperatorWords>>(alloc, value, place, "operator")?,
        values: required::<Each<AnyText>>(alloc, value, place, "values")?,
    })
}

/// A guard (Tekton, Pipelines, Guard Task execution using when expressions).
pub struct WhenForm;

impl Reader for WhenForm {
    type Out = When;

    ghost check = { when };

    ghost value_of = { when_of };

    #[tactic(auto, unfolding(crate::specs::Pipeline::when))]
    fn read(alloc: Global, value: &Json, place: &Location<'_>) -> Result<When, Rejected> {
        check_when(alloc, value, place)?;
        Ok(read_when(alloc, value, place)?)
    }
}

/// Refuses what is no object with the keys of a combination that a matrix adds.
#[tactic(auto, unfolding(crate::specs::Pipeline::include_keys))]
fn check_include(alloc: Global, value: &Json, place: &Location<'_>) -> Result<(), Rejected>
    ensures { Reads (include_keys place.now (view value.now)) tt result }
{
    let table = field_table!(Used "params", Ignored "name");
    check_object(alloc, value, &table, place)
}

/// A combination that a matrix adds.
pub struct IncludeForm;

impl Reader for IncludeForm {
    type Out = List<Param>;

    ghost check = { include_entry };

    ghost value_of = { include_of };

    #[tactic(auto, unfolding(crate::specs::Pipeline::include_entry, crate::specs::Pipeline::include_params))]
    fn read(alloc: Global, value: &Json, place: &Location<'_>) -> Result<List<Param>, Rejected> {
        check_include(alloc, value, place)?;
        Ok(required::<Each<ParamForm>>(alloc, value, place, "params")?)
    }
}

/// Refuses what is no object with the keys of a matrix.
#[tactic(auto, unfolding(crate::specs::Pipeline::matrix_keys))]
fn check_matrix(alloc: Global, value: &Json, place: &Location<'_>) -> Result<(), Rejected>
    ensures { Reads (matrix_keys place.now (view value.now)) tt result }
{
    check_object(alloc, value, &field_table!(Used "params" "include"), place)
}

/// The fields of a matrix.
#[tactic(auto, unfolding(crate::specs::Pipeline::matrix_fields, crate::specs::Pipeline::matrix_of))]
fn read_matrix(alloc: Global, value: &Json, place: &Location<'_>) -> Result<Matrix, Rejected>
    ensures { Reads (matrix_fields place.now (view value.now)) (matrix_of (view value.now)) result }
{
    Ok(Matrix {
        params: or_empty::<Each<ParamForm>>(alloc, value, place, "params")?,
        include: or_empty::<Each<IncludeForm>>(alloc, value, place, "include")?,
    })
}

/// Refuses a matrix that has nothing to combine.
#[tactic(auto, unfolding(crate::specs::Pipeline::empty_matrix))]
fn check_combinations(alloc: Global, matrix: &Matrix, place: &Location<'_>) -> Result<(), Rejected>
    ensures { Reads (empty_matrix matrix.now place.now) tt result }
{
    if matrix.params.is_empty() && matrix.include.is_empty() {
        return Err(refusal(alloc, Fault::MISSING_FIELD, place));
    }
    Ok(())
}

/// A matrix (Tekton, Matrix, Configuring a Matrix).
pub struct MatrixForm;

impl Reader for MatrixForm {
    type Out = Matrix;

    ghost check = { matrix };

    ghost value_of = { matrix_of };

    #[tactic(auto, unfolding(crate::specs::Pipeline::matrix))]
    fn read(alloc: Global, value: &Json, place: &Location<'_>) -> Result<Matrix, Rejected> {
        check_matrix(alloc, value, place)?;
        let matrix = read_matrix(alloc, value, place)?;
        check_combinations(alloc, &matrix, place)?;
        Ok(matrix)
    }
}

/// Refuses what is no object with the keys of a pipeline task.
#[tactic(auto, unfolding(crate::specs::Pipeline::pipeline_task_keys))]
fn check_pipeline_task(alloc: Global, value: &Json, place: &Location<'_>) -> Result<(), Rejected>
    ensures { Reads (pipeline_task_keys place.now (view value.now)) tt result }
{
    let table = field_table!(
        Used "name" "taskRef" "taskSpec" "params" "matrix" "runAfter" "when" "retries" "timeout"
            "onError" "workspaces",
        Ignored "description" "displayName",
        Refused "pipelineRef" "pipelineSpec",
    );
    check_object(alloc, value, &table, place)
}

/// What a pipeline task is given, and what it waits for.
#[derive(Drop)]
struct TaskInputs {
    params: List<Param>,
    matrix: Option<Matrix>,
    run_after: List<Text>,
    when: List<When>,
}

/// The parameters of a pipeline task, its matrix, the tasks before it and its guards.
#[tactic(auto, unfolding(crate::specs::Pipeline::task_inputs, crate::specs::Pipeline::task_inputs_of))]
fn read_inputs(alloc: Global, value: &Json, place: &Location<'_>) -> Result<TaskInputs, Rejected>
    ensures { Reads (task_inputs place.now (view value.now)) (task_inputs_of (view value.now)) result }
{
    Ok(TaskInputs {
        params: or_empty::<Each<ParamForm>>(alloc, value, place, "params")?,
        matrix: optional::<MatrixForm>(alloc, value, place, "matrix")?,
        run_after: or_empty::<Each<AnyText>>(alloc, value, place, "runAfter")?,
        when: or_empty::<Each<WhenForm>>(alloc, value, place, "when")?,
    })
}

/// The retries of a pipeline task, and its timeout in milliseconds, where 0 is none.
#[tactic(auto, unfolding(crate::specs::Pipeline::task_limits))]
fn read_limits(alloc: Global, value: &Json, place: &Location<'_>) -> Result<(u32, u64), Rejected>
    ensures { Reads (task_limits place.now (view value.now)) (number_at (codes "retries") (view value.now), millis_of (at (codes "timeout") (view value.now))) result }
{
    let retries = or_empty::<Below32>(alloc, value, place, "retries")?;
    let timeout = or_empty::<DurationForm>(alloc, value, place, "timeout")?;
    Ok((retries, timeout))
}

/// The workspaces that a pipeline task hands to its Task.
#[tactic(auto, unfolding(crate::specs::Pipeline::task_spaces))]
fn read_task_spaces(
    alloc: Global,
    value: &Json,
    place: &Location<'_>,
) -> Result<List<SpaceUse>, Rejected>
    ensures { Reads (task_spaces place.now (view value.now)) (list_at space_use_of (codes "workspaces") (view value.now)) result }
{
    or_empty::<Each<SpaceUseForm>>(alloc, value, place, "workspaces")
}

/// How a pipeline task runs.
#[derive(Drop)]
struct TaskOptions {
    retries: u32,
    timeout: u64,
    ignore_failure: bool,
    spaces: List<SpaceUse>,
}

/// The last fields of a pipeline task.
#[tactic(auto, unfolding(crate::specs::Pipeline::task_options, crate::specs::Pipeline::task_options_of))]
fn read_options(alloc: Global, value: &Json, place: &Location<'_>) -> Result<TaskOptions, Rejected>
    ensures { Reads (task_options place.now (view value.now)) (task_options_of (view value.now)) result }
{
    let (retries, timeout) = read_limits(alloc, value, place)?;
    let ignore_failure = read_on_error(alloc, value, place)?;
    let spaces = read_task_spaces(alloc, value, place)?;
    Ok(TaskOptions {
        retries,
        timeout,
        ignore_failure,
        spaces,
    })
}

/// Refuses a pipeline task whose failure is ignored and that is tried again.
#[tactic(auto, unfolding(crate::specs::Pipeline::ignored_with_retries))]
fn check_ignored(
    alloc: Global,
    ignore_failure: bool,
    retries: u32,
    place: &Location<'_>,
) -> Result<(), Rejected>
    ensures { Reads (ignored_with_retries ignore_failure retries place.now) tt result }
{
    if ignore_failure && 0 < retries {
        return Err(refusal(alloc, Fault::BAD_CHOICE, &place.key("onError")));
    }
    Ok(())
}

/// The name of a pipeline task, and its Task.
#[tactic(auto, unfolding(crate::specs::Pipeline::task_front))]
fn read_front(
    alloc: Global,
    value: &Json,
    place: &Location<'_>,
) -> Result<(Text, TaskSource), Rejected>
    ensures { Reads (task_front place.now (view value.now)) (text_at (codes "name") (view value.now), task_source_of (view value.now)) result }
{
    let name = required::<TextThat<DnsLabel>>(alloc, value, place, "name")?;
    let source = read_task_source(alloc, value, place)?;
    Ok((name, source))
}

/// Refuses a pipeline task with no Task or two, and then one whose failure is ignored and that is tried again.
#[tactic(auto, unfolding(crate::specs::Pipeline::task_rules, crate::specs::Pipeline::task_options_of))]
fn check_rules(
    alloc: Global,
    value: &Json,
    options: &TaskOptions,
    place: &Location<'_>,
) -> Result<(), Rejected>
    requires { options.now ≡ task_options_of (view value.now) }
    ensures { Reads (task_rules place.now (view value.now)) tt result }
{
    just_one(alloc, value, place, "taskRef", "taskSpec")?;
    check_ignored(alloc, options.ignore_failure, options.retries, place)?;
    Ok(())
}

/// A task of a pipeline (Tekton, Pipelines, Adding Tasks to the Pipeline).
pub struct PipelineTaskForm;

impl Reader for PipelineTaskForm {
    type Out = PipelineTask;

    ghost check = { pipeline_task };

    ghost value_of = { pipeline_task_of };

    #[tactic(auto, unfolding(crate::specs::Pipeline::pipeline_task, crate::specs::Pipeline::pipeline_task_of, crate::specs::Pipeline::task_inputs_of, crate::specs::Pipeline::task_options_of))]
    fn read(alloc: Global, value: &Json, place: &Location<'_>) -> Result<PipelineTask, Rejected> {
        check_pipeline_task(alloc, value, place)?;
        let (name, source) = read_front(alloc, value, place)?;
        let inputs = read_inputs(alloc, value, place)?;
        let options = read_options(alloc, value, place)?;
        check_rules(alloc, value, &options, place)?;
        Ok(PipelineTask {
            name,
            source,
            params: inputs.params,
            matrix: inputs.matrix,
            run_after: inputs.run_after,
            when: inputs.when,
            retries: options.retries,
            timeout: options.timeout,
            ignore_failure: options.ignore_failure,
            spaces: options.spaces,
        })
    }
}

/// Refuses what is no object with the keys of a Pipeline's spec.
#[tactic(auto, unfolding(crate::specs::Pipeline::pipeline_spec_keys))]
fn check_pipeline_spec(alloc: Global, value: &Json, place: &Location<'_>) -> Result<(), Rejected>
    ensures { Reads (pipeline_spec_keys place.now (view value.now)) tt result }
{
    let table = field_table!(
        Used "params" "tasks" "finally" "results" "workspaces",
        Ignored "description" "displayName",
    );
    check_object(alloc, value, &table, place)
}

/// The fields of a Pipeline's spec.
#[tactic(auto, unfolding(crate::specs::Pipeline::pipeline_spec_fields, crate::specs::Pipeline::pipeline_spec_of))]
fn read_pipeline_spec(
    alloc: Global,
    value: &Json,
    place: &Location<'_>,
) -> Result<PipelineSpec, Rejected>
    ensures { Reads (pipeline_spec_fields place.now (view value.now)) (pipeline_spec_of (view value.now)) result }
{
    Ok(PipelineSpec {
        params: or_empty::<Each<ParamSpecForm>>(alloc, value, place, "params")?,
        tasks: required::<SomeOf<PipelineTaskForm>>(alloc, value, place, "tasks")?,
        finally: or_empty::<Each<PipelineTaskForm>>(alloc, value, place, "finally")?,
        results: or_empty::<Each<PipelineResultForm>>(alloc, value, place, "results")?,
        spaces: or_empty::<Each<PipelineSpaceForm>>(alloc, value, place, "workspaces")?,
    })
}

/// What a Pipeline does (Tekton, Pipelines, Configuring a Pipeline).
pub struct PipelineSpecForm;

impl Reader for PipelineSpecForm {
    type Out = PipelineSpec;

    ghost check = { pipeline_spec };

    ghost value_of = { pipeline_spec_of };

    #[tactic(auto, unfolding(crate::specs::Pipeline::pipeline_spec))]
    fn read(alloc: Global, value: &Json, place: &Location<'_>) -> Result<PipelineSpec, Rejected> {
        check_pipeline_spec(alloc, value, place)?;
        Ok(read_pipeline_spec(alloc, value, place)?)
    }
}
