ghost use Rattle.std.specs.Prelude.{◌≡◌, codes};
ghost use Rattle.serde_json.specs.View.{view};
ghost use Rattle.tk_types.specs.Rejected.{Reads};
ghost use Rattle.tk_fields.specs.Get.{at, list_at, text_at};
ghost use Rattle.tk_manifest.specs.Parameter.{params_at};
ghost use Rattle.tk_manifest.specs.Workspace.{binding_of};
ghost use Rattle.tk_manifest.specs.Run.{asked_word, bindings, cancelled_words, given_params, pipeline_ref, pipeline_ref_keys, pipeline_ref_name, pipeline_source, pipeline_source_of, run_keys, run_of, run_options, run_options_of, run_spec, run_status, run_status_of, run_timeouts, status_words, task_run_keys, task_run_limits, task_run_limits_of, task_run_of, task_run_options, task_run_options_of, task_run_spec, timeouts, timeouts_fields, timeouts_keys, timeouts_of};

use crate::parameter::{ParamForm, has_field};
use crate::pipeline::{DurationForm, PipelineSpecForm};
use crate::task::read_task_source;
use crate::workspace::BindingForm;
use serde_json::Value as Json;
use std::alloc::Global;
use tk_fields::{
    AnyText, Below32, Each, OneOf, OrEmpty, Reader, Words, check_object, field_table, just_one,
    optional, or_empty, required,
};
use tk_types::{
    Asked, Given3, List, Location, Param, PipelineSource, Rejected, RunObject, Space,
    TaskRunObject, Text,
};

/// How long a TaskRun may take where it doesn't say so, in milliseconds.
const ONE_HOUR: u64 = 3_600_000;

/// Refuses what is no object with the keys of a reference to a Pipeline.
#[tactic(auto, unfolding(crate::specs::Run::pipeline_ref_keys))]
fn check_pipeline_ref(alloc: Global, value: &Json, place: &Location<'_>) -> Result<(), Rejected>
    ensures { Reads (pipeline_ref_keys place.now (view value.now)) tt result }
{
    let table = field_table!(
        Used "name",
        Ignored "apiVersion" "kind",
        Refused "resolver" "params" "bundle",
    );
    check_object(alloc, value, &table, place)
}

/// A Pipeline by its name.
pub struct PipelineRefForm;

impl Reader for PipelineRefForm {
    type Out = Text;

    ghost check = { pipeline_ref };

    ghost value_of = { text_at (codes "name") };

    #[tactic(auto, unfolding(crate::specs::Run::pipeline_ref, crate::specs::Run::pipeline_ref_name))]
    fn read(alloc: Global, value: &Json, place: &Location<'_>) -> Result<Text, Rejected> {
        check_pipeline_ref(alloc, value, place)?;
        Ok(required::<AnyText>(alloc, value, place, "name")?)
    }
}

impl OrEmpty for PipelineRefForm {
    fn empty(alloc: Global) -> Text {
        Text::new(alloc)
    }
}

/// The Pipeline of a run: `pipelineSpec`, or the name of `pipelineRef`.
#[tactic(auto, unfolding(crate::specs::Run::pipeline_source, crate::specs::Run::pipeline_source_of))]
fn read_pipeline_source(
    alloc: Global,
    value: &Json,
    place: &Location<'_>,
) -> Result<PipelineSource, Rejected>
    ensures { Reads (pipeline_source place.now (view value.now)) (pipeline_source_of (view value.now)) result }
{
    let name = or_empty::<PipelineRefForm>(alloc, value, place, "pipelineRef")?;
    match optional::<PipelineSpecForm>(alloc, value, place, "pipelineSpec")? {
        Some(spec) => Ok(PipelineSource::Inlined(spec)),
        None => Ok(PipelineSource::Named(name)),
    }
}

/// What a manifest asks of a run: a stop, or that it waits.
#[derive(Clone, Copy)]
pub struct AskedWord {
    pub status: Option<Asked>,
    pub pending: bool,
}

/// The words of a run's `status`.
pub struct StatusWords;

impl Words for StatusWords {
    type Meaning = AskedWord;

    ghost words = { status_words };

    ghost meaning = { asked_word };

    fn meaning_of(word: &str) -> Option<AskedWord> {
        let status = match word {
            "PipelineRunPending" => None,
            "StoppedRunFinally" => Some(Asked::StoppedRunFinally),
            "CancelledRunFinally" => Some(Asked::CancelledRunFinally),
            "Cancelled" => Some(Asked::Cancelled),
            _ => return None,
        };
        Some(AskedWord {
            status,
            pending: status.is_none(),
        })
    }
}

/// What a manifest asks of a run (Tekton, PipelineRuns, Cancelling a PipelineRun).
#[tactic(auto, unfolding(crate::specs::Run::run_status, crate::specs::Run::run_status_of))]
fn read_run_status(alloc: Global, value: &Json, place: &Location<'_>) -> Result<AskedWord, Rejected>
    ensures { Reads (run_status place.now (view value.now)) (run_status_of (view value.now)) result }
{
    match optional::<OneOf<StatusWords>>(alloc, value, place, "status")? {
        Some(word) => Ok(word),
        None => Ok(AskedWord {
            status: None,
            pending: false,
        }),
    }
}

/// Refuses what is no object with the keys of a run's timeouts.
#[tactic(auto, unfolding(crate::specs::Run::timeouts_keys))]
fn check_timeouts(alloc: Global, value: &Json, place: &Location<'_>) -> Result<(), Rejected>
    ensures { Reads (timeouts_keys place.now (view value.now)) tt result }
{
    check_object(
        alloc,
        value,
        &field_table!(Used "pipeline" "tasks" "finally"),
        place,
    )
}

/// The timeouts that a run writes, in milliseconds.
#[tactic(auto, unfolding(crate::specs::Run::timeouts_fields, crate::specs::Run::timeouts_of))]
fn read_timeouts(alloc: Global, value: &Json, place: &Location<'_>) -> Result<Given3, Rejected>
    ensures { Reads (timeouts_fields place.now (view value.now)) (timeouts_of (view value.now)) result }
{
    Ok(Given3 {
        pipeline: optional::<DurationForm>(alloc, value, place, "pipeline")?,
        tasks: optional::<DurationForm>(alloc, value, place, "tasks")?,
        finally: optional::<DurationForm>(alloc, value, place, "finally")?,
    })
}

/// The timeouts of a run (Tekton, PipelineRuns, Configuring a failure timeout).
pub struct TimeoutsForm;

impl Reader for TimeoutsForm {
    type Out = Given3;

    ghost check = { timeouts };

    ghost value_of = { timeouts_of };

    #[tactic(auto, unfolding(crate::specs::Run::timeouts))]
    fn read(alloc: Global, value: &Json, place: &Location<'_>) -> Result<Given3, Rejected> {
        check_timeouts(alloc, value, place)?;
        Ok(read_timeouts(alloc, value, place)?)
    }
}

impl OrEmpty for TimeoutsForm {
    #[tactic(auto, unfolding(crate::specs::Run::timeouts_of))]
    fn empty(_alloc: Global) -> Given3 {
        Given3 {
            pipeline: None,
            tasks: None,
            finally: None,
        }
    }
}

/// The timeouts of a run, none of which needs to be written.
#[tactic(auto, unfolding(crate::specs::Run::run_timeouts))]
fn read_run_timeouts(alloc: Global, value: &Json, place: &Location<'_>) -> Result<Given3, Rejected>
    ensures { Reads (run_timeouts place.now (view value.now)) (timeouts_of (at (codes "timeouts") (view value.now))) result }
{
    or_empty::<TimeoutsForm>(alloc, value, place, "timeouts")
}

/// The workspaces that are bound.
#[tactic(auto, unfolding(crate::specs::Run::bindings))]
fn read_bindings(alloc: Global, value: &Json, place: &Location<'_>) -> Result<List<Space>, Rejected>
    ensures { Reads (bindings place.now (view value.now)) (list_at binding_of (codes "workspaces") (view value.now)) result }
{
    or_empty::<Each<BindingForm>>(alloc, value, place, "workspaces")
}

/// The parameters that are given.
#[tactic(auto, unfolding(crate::specs::Run::given_params))]
fn read_given_params(
    alloc: Global,
    value: &Json,
    place: &Location<'_>,
) -> Result<List<Param>, Rejected>
    ensures { Reads (given_params place.now (view value.now)) (params_at (codes "params") (view value.now)) result }
{
    or_empty::<Each<ParamForm>>(alloc, value, place, "params")
}

/// Refuses what is no object with the keys of a PipelineRun's spec.
#[tactic(auto, unfolding(crate::specs::Run::run_keys))]
fn check_run(alloc: Global, value: &Json, place: &Location<'_>) -> Result<(), Rejected>
    ensures { Reads (run_keys place.now (view value.now)) tt result }
{
    let table = field_table!(
        Used "pipelineRef" "pipelineSpec" "params" "status" "timeouts" "workspaces",
        Ignored "taskRunTemplate" "taskRunSpecs",
        Refused "managedBy",
    );
    check_object(alloc, value, &table, place)
}

/// What is asked of a run, its timeouts and its bindings.
#[derive(Drop)]
struct RunOptions {
    asked: AskedWord,
    timeouts: Given3,
    bindings: List<Space>,
}

/// The last fields of a PipelineRun.
#[tactic(auto, unfolding(crate::specs::Run::run_options, crate::specs::Run::run_options_of))]
fn read_run_options(
    alloc: Global,
    value: &Json,
    place: &Location<'_>,
) -> Result<RunOptions, Rejected>
    ensures { Reads (run_options place.now (view value.now)) (run_options_of (view value.now)) result }
{
    let asked = read_run_status(alloc, value, place)?;
    let timeouts = read_run_timeouts(alloc, value, place)?;
    let bindings = read_bindings(alloc, value, place)?;
    Ok(RunOptions {
        asked,
        timeouts,
        bindings,
    })
}

/// A PipelineRun of a name, from its spec (Tekton, PipelineRuns, Configuring a PipelineRun).
#[tactic(auto, unfolding(crate::specs::Run::run_spec, crate::specs::Run::run_of, crate::specs::Run::run_options_of))]
pub fn read_run(
    alloc: Global,
    name: Text,
    value: &Json,
    place: &Location<'_>,
) -> Result<RunObject, Rejected>
    ensures { Reads (run_spec place.now (view value.now)) (run_of name (view value.now)) result }
{
    check_run(alloc, value, place)?;
    let source = read_pipeline_source(alloc, value, place)?;
    let params = read_given_params(alloc, value, place)?;
    let options = read_run_options(alloc, value, place)?;
    just_one(alloc, value, place, "pipelineRef", "pipelineSpec")?;
    Ok(RunObject {
        name,
        source,
        params,
        status: options.asked.status,
        pending: options.asked.pending,
        timeouts: options.timeouts,
        bindings: options.bindings,
    })
}

/// The word that cancels a TaskRun.
pub struct CancelledWords;

impl Words for CancelledWords {
    type Meaning = ();

    ghost words = { cancelled_words };

    ghost meaning = { λ _. tt };

    fn meaning_of(word: &str) -> Option<()> {
        match word {
            "TaskRunCancelled" => Some(()),
            _ => None,
        }
    }
}

/// Whether a TaskRun is cancelled, its timeout in milliseconds and its retries.
#[derive(Clone, Copy)]
struct TaskRunLimits {
    cancelled: bool,
    timeout: u64,
    retries: u32,
}

/// Whether a TaskRun is cancelled, its timeout and its retries.
#[tactic(auto, unfolding(crate::specs::Run::task_run_limits, crate::specs::Run::task_run_limits_of))]
fn read_limits(alloc: Global, value: &Json, place: &Location<'_>) -> Result<TaskRunLimits, Rejected>
    ensures { Reads (task_run_limits place.now (view value.now)) (task_run_limits_of (view value.now)) result }
{
    let _status = optional::<OneOf<CancelledWords>>(alloc, value, place, "status")?;
    let timeout = optional::<DurationForm>(alloc, value, place, "timeout")?;
    let retries = or_empty::<Below32>(alloc, value, place, "retries")?;
    Ok(TaskRunLimits {
        cancelled: has_field(value, "status"),
        timeout: timeout.unwrap_or(ONE_HOUR),
        retries,
    })
}

/// Refuses what is no object with the keys of a TaskRun's spec.
#[tactic(auto, unfolding(crate::specs::Run::task_run_keys))]
fn check_task_run(alloc: Global, value: &Json, place: &Location<'_>) -> Result<(), Rejected>
    ensures { Reads (task_run_keys place.now (view value.now)) tt result }
{
    let table = field_table!(
        Used "taskRef" "taskSpec" "params" "status" "timeout" "retries" "workspaces",
        Ignored "serviceAccountName" "podTemplate" "computeResources" "statusMessage",
        Refused "stepSpecs" "sidecarSpecs" "debug",
    );
    check_object(alloc, value, &table, place)
}

/// The last fields of a TaskRun.
#[tactic(auto, unfolding(crate::specs::Run::task_run_options, crate::specs::Run::task_run_options_of))]
fn read_task_run_options(
    alloc: Global,
    value: &Json,
    place: &Location<'_>,
) -> Result<(TaskRunLimits, List<Space>), Rejected>
    ensures { Reads (task_run_options place.now (view value.now)) (task_run_options_of (view value.now)) result }
{
    let limits = read_limits(alloc, value, place)?;
    let bindings = read_bindings(alloc, value, place)?;
    Ok((limits, bindings))
}

/// A TaskRun of a name, from its spec (Tekton, TaskRuns, Configuring a TaskRun).
#[tactic(auto, unfolding(crate::specs::Run::task_run_spec, crate::specs::Run::task_run_of, crate::specs::Run::task_run_options_of, crate::specs::Run::task_run_limits_of))]
pub fn read_task_run(
    alloc: Global,
    name: Text,
    value: &Json,
    place: &Location<'_>,
) -> Result<TaskRunObject, Rejected>
    ensures { Reads (task_run_spec place.now (view value.now)) (task_run_of name (view value.now)) result }
{
    check_task_run(alloc, value, place)?;
    let source = read_task_source(alloc, value, place)?;
    let params = read_given_params(alloc, value, place)?;
    let (limits, bindings) = read_task_run_options(alloc, value, place)?;
    just_one(alloc, value, place, "taskRef", "taskSpec")?;
    Ok(TaskRunObject {
        name,
        source,
        params,
        cancelled: limits.cancelled,
        retries: limits.retries,
        timeout: limits.timeout,
        bindings,
    })
}
