ghost use Rattle.std.specs.Prelude.{◌≡◌, codes};
ghost use Rattle.serde_json.specs.View.{view};
ghost use Rattle.tk_types.specs.Rejected.{Reads};
ghost use Rattle.tk_fields.specs.Check.{no_object};
ghost use Rattle.tk_fields.specs.Get.{text_at};
ghost use Rattle.tk_manifest.specs.Workspace.{binding, binding_keys, binding_of, claim, claim_keys, claim_name, claim_of, folder_and_claim, folder_or_claim, handed_on, pipeline_space, pipeline_space_keys, space_fields, space_spec_of, space_use, space_use_keys, space_use_names, space_use_of, sub_path, task_space, task_space_keys};

use crate::names::{DnsLabel, ObjectName, SubPath};
use serde_json::Value as Json;
use std::alloc::Global;
use tk_fields::{
    AnyText, Reader, TextThat, Truth, check_object, field_table, optional, or_empty, required,
};
use tk_types::{Fault, Location, Rejected, Space, SpaceSpec, SpaceUse, Text, TryCopy, refusal};

/// The name of a declared workspace, and whether it may be left unbound.
#[tactic(auto, unfolding(crate::specs::Workspace::space_fields, crate::specs::Workspace::space_spec_of))]
fn read_space(alloc: Global, value: &Json, place: &Location<'_>) -> Result<SpaceSpec, Rejected>
    ensures { Reads (space_fields place.now (view value.now)) (space_spec_of (view value.now)) result }
{
    Ok(SpaceSpec {
        name: required::<TextThat<DnsLabel>>(alloc, value, place, "name")?,
        optional: or_empty::<Truth>(alloc, value, place, "optional")?,
    })
}

/// Refuses what is no object with the keys of a Task's workspace.
#[tactic(auto, unfolding(crate::specs::Workspace::task_space_keys))]
fn check_task_space(alloc: Global, value: &Json, place: &Location<'_>) -> Result<(), Rejected>
    ensures { Reads (task_space_keys place.now (view value.now)) tt result }
{
    let table = field_table!(
        Used "name" "optional",
        Ignored "description" "mountPath" "readOnly",
    );
    check_object(alloc, value, &table, place)
}

/// A workspace that a Task declares (Tekton, Workspaces, Using Workspaces in Tasks).
pub struct TaskSpaceForm;

impl Reader for TaskSpaceForm {
    type Out = SpaceSpec;

    ghost check = { task_space };

    ghost value_of = { space_spec_of };

    #[tactic(auto, unfolding(crate::specs::Workspace::task_space))]
    fn read(alloc: Global, value: &Json, place: &Location<'_>) -> Result<SpaceSpec, Rejected> {
        check_task_space(alloc, value, place)?;
        Ok(read_space(alloc, value, place)?)
    }
}

/// Refuses what is no object with the keys of a Pipeline's workspace.
#[tactic(auto, unfolding(crate::specs::Workspace::pipeline_space_keys))]
fn check_pipeline_space(alloc: Global, value: &Json, place: &Location<'_>) -> Result<(), Rejected>
    ensures { Reads (pipeline_space_keys place.now (view value.now)) tt result }
{
    let table = field_table!(Used "name" "optional", Ignored "description");
    check_object(alloc, value, &table, place)
}

/// A workspace that a Pipeline declares (Tekton, Workspaces, Using Workspaces in Pipelines).
pub struct PipelineSpaceForm;

impl Reader for PipelineSpaceForm {
    type Out = SpaceSpec;

    ghost check = { pipeline_space };

    ghost value_of = { space_spec_of };

    #[tactic(auto, unfolding(crate::specs::Workspace::pipeline_space))]
    fn read(alloc: Global, value: &Json, place: &Location<'_>) -> Result<SpaceSpec, Rejected> {
        check_pipeline_space(alloc, value, place)?;
        Ok(read_space(alloc, value, place)?)
    }
}

/// A path below a workspace, empty where none is written.
#[tactic(auto, unfolding(crate::specs::Workspace::sub_path))]
fn read_sub_path(alloc: Global, value: &Json, place: &Location<'_>) -> Result<Text, Rejected>
    ensures { Reads (sub_path place.now (view value.now)) (text_at (codes "subPath") (view value.now)) result }
{
    match optional::<TextThat<SubPath>>(alloc, value, place, "subPath")? {
        Some(path) => Ok(path),
        None => Ok(Text::new(alloc)),
    }
}

/// The name of a Task's workspace, and of the pipeline's that is handed to it.
#[tactic(auto, unfolding(crate::specs::Workspace::space_use_names))]
fn read_space_names(
    alloc: Global,
    value: &Json,
    place: &Location<'_>,
) -> Result<(Text, Text), Rejected>
    ensures { Reads (space_use_names place.now (view value.now)) (text_at (codes "name") (view value.now), handed_on (view value.now)) result }
{
    let name = required::<TextThat<DnsLabel>>(alloc, value, place, "name")?;
    match optional::<AnyText>(alloc, value, place, "workspace")? {
        Some(from) => Ok((name, from)),
        None => {
            let from = name.copy(alloc)?;
            Ok((name, from))
        }
    }
}

/// Refuses what is no object with the keys of a pipeline task's workspace.
#[tactic(auto, unfolding(crate::specs::Workspace::space_use_keys))]
fn check_space_use(alloc: Global, value: &Json, place: &Location<'_>) -> Result<(), Rejected>
    ensures { Reads (space_use_keys place.now (view value.now)) tt result }
{
    let table = field_table!(Used "name" "workspace" "subPath");
    check_object(alloc, value, &table, place)
}

/// A workspace that a pipeline task hands to its Task.
pub struct SpaceUseForm;

impl Reader for SpaceUseForm {
    type Out = SpaceUse;

    ghost check = { space_use };

    ghost value_of = { space_use_of };

    #[tactic(auto, unfolding(crate::specs::Workspace::space_use, crate::specs::Workspace::space_use_of))]
    fn read(alloc: Global, value: &Json, place: &Location<'_>) -> Result<SpaceUse, Rejected> {
        check_space_use(alloc, value, place)?;
        let (name, from) = read_space_names(alloc, value, place)?;
        let sub = read_sub_path(alloc, value, place)?;
        Ok(SpaceUse { name, from, sub })
    }
}

/// A folder that is fresh for each attempt: an object of any keys.
pub struct FolderForm;

impl Reader for FolderForm {
    type Out = ();

    ghost check = { no_object };

    ghost value_of = { λ _. tt };

    fn read(alloc: Global, value: &Json, place: &Location<'_>) -> Result<(), Rejected> {
        match value {
            Json::Object(_) => Ok(()),
            _ => Err(refusal(alloc, Fault::WRONG_SHAPE, place)),
        }
    }
}

/// Refuses what is no object with the keys of a claim.
#[tactic(auto, unfolding(crate::specs::Workspace::claim_keys))]
fn check_claim(alloc: Global, value: &Json, place: &Location<'_>) -> Result<(), Rejected>
    ensures { Reads (claim_keys place.now (view value.now)) tt result }
{
    let table = field_table!(Used "claimName", Ignored "readOnly");
    check_object(alloc, value, &table, place)
}

/// A claim, by its name.
pub struct ClaimForm;

impl Reader for ClaimForm {
    type Out = Text;

    ghost check = { claim };

    ghost value_of = { text_at (codes "claimName") };

    #[tactic(auto, unfolding(crate::specs::Workspace::claim, crate::specs::Workspace::claim_name))]
    fn read(alloc: Global, value: &Json, place: &Location<'_>) -> Result<Text, Rejected> {
        check_claim(alloc, value, place)?;
        let name = required::<TextThat<ObjectName>>(alloc, value, place, "claimName")?;
        Ok(name)
    }
}

/// The claim of a binding, if it isn't to a folder.
#[tactic(auto, unfolding(crate::specs::Workspace::folder_and_claim, crate::specs::Workspace::claim_of))]
fn read_claim(alloc: Global, value: &Json, place: &Location<'_>) -> Result<Option<Text>, Rejected>
    ensures { Reads (folder_and_claim place.now (view value.now)) (claim_of (view value.now)) result }
{
    let _folder = optional::<FolderForm>(alloc, value, place, "emptyDir")?;
    let claim = optional::<ClaimForm>(alloc, value, place, "persistentVolumeClaim")?;
    Ok(claim)
}

/// Refuses a binding to neither a folder nor a claim, and one to both.
#[tactic(auto, unfolding(crate::specs::Workspace::folder_or_claim))]
fn check_folder_or_claim(alloc: Global, value: &Json, place: &Location<'_>) -> Result<(), Rejected>
    ensures { Reads (folder_or_claim place.now (view value.now)) tt result }
{
    match (value.get("emptyDir"), value.get("persistentVolumeClaim")) {
        (None, None) => Err(refusal(alloc, Fault::MISSING_FIELD, &place.key("emptyDir"))),
        (Some(_), Some(_)) => {
            Err(refusal(
                alloc,
                Fault::BAD_CHOICE,
                &place.key("persistentVolumeClaim"),
            ))
        }
        _ => Ok(()),
    }
}

/// Refuses what is no object with the keys of a binding.
#[tactic(auto, unfolding(crate::specs::Workspace::binding_keys))]
fn check_binding(alloc: Global, value: &Json, place: &Location<'_>) -> Result<(), Rejected>
    ensures { Reads (binding_keys place.now (view value.now)) tt result }
{
    let table = field_table!(
        Used "name" "subPath" "emptyDir" "persistentVolumeClaim",
        Refused "volumeClaimTemplate" "secret" "configMap" "projected" "csi",
    );
    check_object(alloc, value, &table, place)
}

/// A binding of a run's workspace (Tekton, Workspaces, Using Workspaces in PipelineRuns).
pub struct BindingForm;

impl Reader for BindingForm {
    type Out = Space;

    ghost check = { binding };

    ghost value_of = { binding_of };

    #[tactic(auto, unfolding(crate::specs::Workspace::binding, crate::specs::Workspace::binding_of))]
    fn read(alloc: Global, value: &Json, place: &Location<'_>) -> Result<Space, Rejected> {
        check_binding(alloc, value, place)?;
        let name = required::<TextThat<DnsLabel>>(alloc, value, place, "name")?;
        let sub = read_sub_path(alloc, value, place)?;
        let claim = read_claim(alloc, value, place)?;
        check_folder_or_claim(alloc, value, place)?;
        Ok(Space { name, claim, sub })
    }
}
