ghost use Rattle.std.specs.Prelude.{◌≡◌, ◌&&◌, ◌||◌, Bool, Some, None, bytes_eq, codes, not};
ghost use Rattle.serde_json.specs.View.{view};
ghost use Rattle.tk_types.specs.Lists.{is_empty};
ghost use Rattle.tk_types.specs.Rejected.{Reads};
ghost use Rattle.tk_fields.specs.Get.{field, list_at, text_at, text_of, texts_at};
ghost use Rattle.tk_manifest.specs.Task.{continues, env, env_fields, env_keys, env_of, is_continue, is_task_kind, is_task_version, named_or_inlined, on_error, on_error_words, script_or_command, step, step_command, step_command_of, step_keys, step_of, step_surroundings, task_ref, task_ref_fields, task_ref_keys, task_source, task_source_of, task_spec, task_spec_fields, task_spec_keys, task_spec_of};

use crate::names::{DnsLabel, EnvName};
use crate::parameter::{ParamSpecForm, TaskResultForm, has_field};
use crate::workspace::TaskSpaceForm;
use serde_json::Value as Json;
use std::alloc::Global;
use tk_fields::{
    AnyText, Each, OneOf, OrEmpty, Reader, SomeOf, TextRule, TextThat, Words, check_object,
    field_table, optional, or_empty, required,
};
use tk_types::{Fault, List, Location, Pair, Rejected, Step, TaskSource, TaskSpec, Text, refusal};

/// Refuses what is no object with the keys of a step's variable.
#[tactic(auto, unfolding(crate::specs::Task::env_keys))]
fn check_env(alloc: Global, value: &Json, place: &Location<'_>) -> Result<(), Rejected>
    ensures { Reads (env_keys place.now (view value.now)) tt result }
{
    let table = field_table!(Used "name" "value", Refused "valueFrom");
    check_object(alloc, value, &table, place)
}

/// The name of a step's variable, and its text.
#[tactic(auto, unfolding(crate::specs::Task::env_fields, crate::specs::Task::env_of))]
fn read_env(alloc: Global, value: &Json, place: &Location<'_>) -> Result<Pair, Rejected>
    ensures { Reads (env_fields place.now (view value.now)) (env_of (view value.now)) result }
{
    Ok(Pair {
        key: required::<TextThat<EnvName>>(alloc, value, place, "name")?,
        value: or_empty::<AnyText>(alloc, value, place, "value")?,
    })
}

/// A variable of a step.
pub struct EnvForm;

impl Reader for EnvForm {
    type Out = Pair;

    ghost check = { env };

    ghost value_of = { env_of };

    #[tactic(auto, unfolding(crate::specs::Task::env))]
    fn read(alloc: Global, value: &Json, place: &Location<'_>) -> Result<Pair, Rejected> {
        check_env(alloc, value, place)?;
        Ok(read_env(alloc, value, place)?)
    }
}

/// What follows a failure: whether the run goes on.
pub struct OnErrorWords;

impl Words for OnErrorWords {
    type Meaning = bool;

    ghost words = { on_error_words };

    ghost meaning = { is_continue };

    fn meaning_of(word: &str) -> Option<bool> {
        match word {
            "continue" => Some(true),
            "stopAndFail" => Some(false),
            _ => None,
        }
    }
}

/// Whether a failure of a step, or of a pipeline task, is passed over.
#[tactic(auto, unfolding(crate::specs::Task::on_error, crate::specs::Task::continues))]
pub fn read_on_error(alloc: Global, value: &Json, place: &Location<'_>) -> Result<bool, Rejected>
    ensures { Reads (on_error place.now (view value.now)) (continues (view value.now)) result }
{
    match optional::<OneOf<OnErrorWords>>(alloc, value, place, "onError")? {
        Some(continues) => Ok(continues),
        None => Ok(false),
    }
}

/// Refuses a step with both a script and a command, and one with neither.
#[tactic(auto, unfolding(crate::specs::Task::script_or_command))]
fn check_command(
    alloc: Global,
    has_script: bool,
    command: &List<Text>,
    place: &Location<'_>,
) -> Result<(), Rejected>
    ensures { Reads (script_or_command has_script command.now place.now) tt result }
{
    match (has_script, !command.is_empty()) {
        (true, true) => Err(refusal(alloc, Fault::BAD_CHOICE, &place.key("script"))),
        (false, false) => Err(refusal(alloc, Fault::UNSUPPORTED, place)),
        _ => Ok(()),
    }
}

/// Refuses what is no object with the keys of a step.
#[tactic(auto, unfolding(crate::specs::Task::step_keys))]
fn check_step(alloc: Global, value: &Json, place: &Location<'_>) -> Result<(), Rejected>
    ensures { Reads (step_keys place.now (view value.now)) tt result }
{
    let table = field_table!(
        Used "name" "command" "args" "script" "env" "workingDir" "onError",
        Ignored "image" "imagePullPolicy" "computeResources" "displayName" "securityContext",
        Refused "timeout" "ref" "params" "results" "when" "envFrom" "volumeMounts" "volumeDevices"
            "workspaces" "stdoutConfig" "stderrConfig",
    );
    check_object(alloc, value, &table, place)
}

/// What a step runs.
#[derive(Drop)]
struct StepCommand {
    name: Option<Text>,
    command: List<Text>,
    args: List<Text>,
    script: Option<Text>,
}

/// The name of a step, its command, its arguments and its script.
#[tactic(auto, unfolding(crate::specs::Task::step_command, crate::specs::Task::step_command_of))]
fn read_command(alloc: Global, value: &Json, place: &Location<'_>) -> Result<StepCommand, Rejected>
    ensures { Reads (step_command place.now (view value.now)) (step_command_of (view value.now)) result }
{
    Ok(StepCommand {
        name: optional::<TextThat<DnsLabel>>(alloc, value, place, "name")?,
        command: or_empty::<Each<AnyText>>(alloc, value, place, "command")?,
        args: or_empty::<Each<AnyText>>(alloc, value, place, "args")?,
        script: optional::<AnyText>(alloc, value, place, "script")?,
    })
}

/// The variables of a step, and its working folder.
#[tactic(auto, unfolding(crate::specs::Task::step_surroundings))]
fn read_surroundings(
    alloc: Global,
    value: &Json,
    place: &Location<'_>,
) -> Result<(List<Pair>, Option<Text>), Rejected>
    ensures { Reads (step_surroundings place.now (view value.now)) (list_at env_of (codes "env") (view value.now), field text_of (codes "workingDir") (view value.now)) result }
{
    let env = or_empty::<Each<EnvForm>>(alloc, value, place, "env")?;
    let dir = optional::<AnyText>(alloc, value, place, "workingDir")?;
    Ok((env, dir))
}

/// A step of a Task (Tekton, Tasks, Defining Steps).
pub struct StepForm;

impl Reader for StepForm {
    type Out = Step;

    ghost check = { step };

    ghost value_of = { step_of };

    #[tactic(auto, unfolding(crate::specs::Task::step, crate::specs::Task::step_of, crate::specs::Task::step_command_of))]
    fn read(alloc: Global, value: &Json, place: &Location<'_>) -> Result<Step, Rejected> {
        check_step(alloc, value, place)?;
        let run = read_command(alloc, value, place)?;
        let (env, dir) = read_surroundings(alloc, value, place)?;
        let keep_going = read_on_error(alloc, value, place)?;
        check_command(alloc, has_field(value, "script"), &run.command, place)?;
        Ok(Step {
            name: run.name,
            command: run.command,
            args: run.args,
            script: run.script,
            env,
            dir,
            keep_going,
        })
    }
}

/// Refuses what is no object with the keys of a Task's spec.
#[tactic(auto, unfolding(crate::specs::Task::task_spec_keys))]
fn check_task_spec(alloc: Global, value: &Json, place: &Location<'_>) -> Result<(), Rejected>
    ensures { Reads (task_spec_keys place.now (view value.now)) tt result }
{
    let table = field_table!(
        Used "params" "steps" "results" "workspaces",
        Ignored "description" "displayName" "metadata",
        Refused "volumes" "sidecars" "stepTemplate" "apiVersion" "kind" "spec",
    );
    check_object(alloc, value, &table, place)
}

/// The fields of a Task's spec.
#[tactic(auto, unfolding(crate::specs::Task::task_spec_fields, crate::specs::Task::task_spec_of))]
fn read_task_spec(alloc: Global, value: &Json, place: &Location<'_>) -> Result<TaskSpec, Rejected>
    ensures { Reads (task_spec_fields place.now (view value.now)) (task_spec_of (view value.now)) result }
{
    Ok(TaskSpec {
        params: or_empty::<Each<ParamSpecForm>>(alloc, value, place, "params")?,
        steps: required::<SomeOf<StepForm>>(alloc, value, place, "steps")?,
        results: or_empty::<Each<TaskResultForm>>(alloc, value, place, "results")?,
        spaces: or_empty::<Each<TaskSpaceForm>>(alloc, value, place, "workspaces")?,
    })
}

/// What a Task does (Tekton, Tasks, Configuring a Task).
pub struct TaskSpecForm;

impl Reader for TaskSpecForm {
    type Out = TaskSpec;

    ghost check = { task_spec };

    ghost value_of = { task_spec_of };

    #[tactic(auto, unfolding(crate::specs::Task::task_spec))]
    fn read(alloc: Global, value: &Json, place: &Location<'_>) -> Result<TaskSpec, Rejected> {
        check_task_spec(alloc, value, place)?;
        Ok(read_task_spec(alloc, value, place)?)
    }
}

/// The kind of a Task that is referred to; another text is `Unsupported`.
pub struct TaskKind;

impl TextRule for TaskKind {
    ghost obeys = { is_task_kind };

    ghost fault_number = { 7 };

    fn is_obeyed(text: &str) -> bool {
        text == "Task"
    }

    fn number() -> u8 {
        Fault::UNSUPPORTED
    }
}

/// The version of a Task that is referred to, or the empty text; another text is `Unsupported`.
pub struct TaskVersion;

impl TextRule for TaskVersion {
    ghost obeys = { is_task_version };

    ghost fault_number = { 7 };

    fn is_obeyed(text: &str) -> bool {
        text.is_empty() || text == "tekton.dev/v1"
    }

    fn number() -> u8 {
        Fault::UNSUPPORTED
    }
}

/// Refuses what is no object with the keys of a reference to a Task.
#[tactic(auto, unfolding(crate::specs::Task::task_ref_keys))]
fn check_task_ref(alloc: Global, value: &Json, place: &Location<'_>) -> Result<(), Rejected>
    ensures { Reads (task_ref_keys place.now (view value.now)) tt result }
{
    let table = field_table!(Used "name" "kind" "apiVersion", Refused "resolver" "params" "bundle");
    check_object(alloc, value, &table, place)
}

/// The name in a reference to a Task.
#[tactic(auto, unfolding(crate::specs::Task::task_ref_fields))]
fn read_task_ref(alloc: Global, value: &Json, place: &Location<'_>) -> Result<Text, Rejected>
    ensures { Reads (task_ref_fields place.now (view value.now)) (text_at (codes "name") (view value.now)) result }
{
    let name = required::<AnyText>(alloc, value, place, "name")?;
    let _kind = optional::<TextThat<TaskKind>>(alloc, value, place, "kind")?;
    let _version = optional::<TextThat<TaskVersion>>(alloc, value, place, "apiVersion")?;
    Ok(name)
}

/// A Task by its name.
pub struct TaskRefForm;

impl Reader for TaskRefForm {
    type Out = Text;

    ghost check = { task_ref };

    ghost value_of = { text_at (codes "name") };

    #[tactic(auto, unfolding(crate::specs::Task::task_ref))]
    fn read(alloc: Global, value: &Json, place: &Location<'_>) -> Result<Text, Rejected> {
        check_task_ref(alloc, value, place)?;
        Ok(read_task_ref(alloc, value, place)?)
    }
}

impl OrEmpty for TaskRefForm {
    fn empty(alloc: Global) -> Text {
        Text::new(alloc)
    }
}

/// The Task that a pipeline task or a TaskRun runs: `taskSpec`, or the name of `taskRef`.
#[tactic(auto, unfolding(crate::specs::Task::task_source, crate::specs::Task::task_source_of))]
pub fn read_task_source(
    alloc: Global,
    value: &Json,
    place: &Location<'_>,
) -> Result<TaskSource, Rejected>
    ensures { Reads (task_source place.now (view value.now)) (task_source_of (view value.now)) result }
{
    let name = or_empty::<TaskRefForm>(alloc, value, place, "taskRef")?;
    match optional::<TaskSpecForm>(alloc, value, place, "taskSpec")? {
        Some(spec) => Ok(TaskSource::Inlined(spec)),
        None => Ok(TaskSource::Named(name)),
    }
}
