ghost use Rattle.std.specs.Prelude.{◌≡◌};
ghost use Rattle.serde_json.specs.View.{view};
ghost use Rattle.tk_types.specs.Rejected.{Reads};
ghost use Rattle.tk_manifest.specs.Kind.{kind_named as kind_by_name, object_made, own_kind as own_kind_by_name, spec, version_of as version_of_kind};

use crate::outcomes::OutcomesForm;
use crate::pipeline::PipelineSpecForm;
use crate::run::{read_run, read_task_run};
use crate::task::TaskSpecForm;
use serde_json::Value as Json;
use std::alloc::Global;
use tk_fields::Reader;
use tk_scenario::read_scenario;
use tk_types::{ItemObject, Location, Rejected, Text};

/// The kinds of objects that an input may have: the four of Tekton, and perhaps one of this program's own.
#[derive(Clone, Copy, Debug, PartialEq, Eq)]
pub enum KindSet {
    Four,
    WithOutcomes,
    WithScenario,
}

/// A kind of objects.
#[derive(Clone, Copy, Debug, PartialEq, Eq)]
pub enum ObjectKind {
    Task,
    TaskRun,
    Pipeline,
    PipelineRun,
    Outcomes,
    Scenario,
}

/// The kind of this program's own that has a name, if it is accepted.
fn own_kind(kinds: KindSet, name: &str) -> Option<ObjectKind>
    ensures { result ≡ own_kind_by_name kinds name.now }
{
    match (kinds, name) {
        (KindSet::WithOutcomes, "Outcomes") => Some(ObjectKind::Outcomes),
        (KindSet::WithScenario, "Scenario") => Some(ObjectKind::Scenario),
        _ => None,
    }
}

/// The kind that has a name, if it is accepted.
pub fn kind_named(kinds: KindSet, name: &str) -> Option<ObjectKind>
    ensures { result ≡ kind_by_name kinds name.now }
{
    match name {
        "Task" => Some(ObjectKind::Task),
        "TaskRun" => Some(ObjectKind::TaskRun),
        "Pipeline" => Some(ObjectKind::Pipeline),
        "PipelineRun" => Some(ObjectKind::PipelineRun),
        _ => own_kind(kinds, name),
    }
}

/// The version of a kind.
pub fn version_of(kind: ObjectKind) -> &'static str
    ensures { result.now ≡ version_of_kind kind }
{
    match kind {
        ObjectKind::Task | ObjectKind::TaskRun | ObjectKind::Pipeline | ObjectKind::PipelineRun => {
            "tekton.dev/v1"
        }
        ObjectKind::Outcomes | ObjectKind::Scenario => "tkn.local/v1",
    }
}

/// The object of a kind and a name, from its spec.
#[tactic(auto, unfolding(crate::specs::Kind::spec, crate::specs::Kind::object_made))]
pub fn read_spec(
    alloc: Global,
    kind: ObjectKind,
    name: Text,
    value: &Json,
    place: &Location<'_>,
) -> Result<ItemObject, Rejected>
    ensures { Reads (spec kind place.now (view value.now)) (object_made kind name (view value.now)) result }
{
    match kind {
        ObjectKind::Task => {
            let spec = TaskSpecForm::read(alloc, value, place)?;
            Ok(ItemObject::Task { name, spec })
        }
        ObjectKind::TaskRun => {
            Ok(ItemObject::TaskRun(read_task_run(alloc, name, value, place)?))
        }
        ObjectKind::Pipeline => {
            let spec = PipelineSpecForm::read(alloc, value, place)?;
            Ok(ItemObject::Pipeline { name, spec })
        }
        ObjectKind::PipelineRun => {
            Ok(ItemObject::PipelineRun(read_run(alloc, name, value, place)?))
        }
        ObjectKind::Outcomes => {
            let spec = OutcomesForm::read(alloc, value, place)?;
            Ok(ItemObject::Outcomes { name, spec })
        }
        ObjectKind::Scenario => {
            let spec = read_scenario(alloc, value, place)?;
            Ok(ItemObject::Scenario { name, spec })
        }
    }
}
