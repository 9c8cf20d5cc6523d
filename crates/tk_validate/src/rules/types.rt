ghost use Rattle.std.specs.Prelude.{◌≡◌, false};
ghost use Rattle.tk_types.specs.Rejected.{Reads};
ghost use Rattle.tk_validate.specs.Types.{declared_typed, entry_param_typed, entry_typed, matrix_typed, of_type, pipeline_typed, task_spec_typed, task_typed, types};

use crate::parts::{check_inlined, check_pipeline, check_task_spec, check_tasks};
use crate::rule::{Checked, Rule, check_all, check_there};
use std::alloc::Global;
use tk_types::{
    Fault, ItemObject, List, Location, Matrix, Param, ParamSpec, ParamType, PipelineSpec,
    PipelineTask, TaskSpec, Value, refusal,
};

/// Values of a type.
#[derive(Drop)]
struct OfType {
    kind: ParamType,
}

impl Rule<Value> for OfType {
    ghost finding = { λ rule. of_type rule.kind };

    fn check(&self, alloc: Global, value: &Value, place: &Location<'_>) -> Checked {
        if !value.has_type(self.kind) {
            return Err(refusal(alloc, Fault::WRONG_TYPE, place));
        }
        Ok(())
    }
}

/// What is declared and what include entries give, by its types.
#[derive(Drop)]
struct Typed;

impl Rule<ParamSpec> for Typed {
    ghost finding = { λ rule. declared_typed };

    fn check(&self, alloc: Global, param: &ParamSpec, place: &Location<'_>) -> Checked {
        if matches!(param.kind, ParamType::Obj) && param.properties.is_empty() {
            return Err(refusal(alloc, Fault::WRONG_TYPE, place));
        }
        let rule = OfType { kind: param.kind };
        check_there(alloc, &rule, &param.default_value, place, "default")
    }
}

impl Rule<TaskSpec> for Typed {
    ghost finding = { λ rule. task_spec_typed };

    fn check(&self, alloc: Global, spec: &TaskSpec, place: &Location<'_>) -> Checked {
        check_all(alloc, self, spec.params.as_slice(), place, "params")
    }
}

impl Rule<Param> for Typed {
    ghost finding = { λ rule. entry_param_typed };

    fn check(&self, alloc: Global, param: &Param, place: &Location<'_>) -> Checked {
        let rule = OfType {
            kind: ParamType::Str,
        };
        rule.check(alloc, &param.value, &place.key("value"))
    }
}

impl Rule<List<Param>> for Typed {
    ghost finding = { λ rule. entry_typed };

    fn check(&self, alloc: Global, params: &List<Param>, place: &Location<'_>) -> Checked {
        check_all(alloc, self, params.as_slice(), place, "params")
    }
}

impl Rule<Matrix> for Typed {
    ghost finding = { λ rule. matrix_typed };

    fn check(&self, alloc: Global, matrix: &Matrix, place: &Location<'_>) -> Checked {
        check_all(alloc, self, matrix.include.as_slice(), place, "include")
    }
}

impl Rule<PipelineTask> for Typed {
    ghost finding = { λ rule. task_typed false };

    fn check(&self, alloc: Global, task: &PipelineTask, place: &Location<'_>) -> Checked {
        check_inlined(alloc, self, &task.source, place)?;
        check_there(alloc, self, &task.matrix, place, "matrix")
    }
}

impl Rule<PipelineSpec> for Typed {
    ghost finding = { λ rule. pipeline_typed };

    #[tactic(auto, unfolding(crate::specs::Types::pipeline_typed))]
    fn check(&self, alloc: Global, spec: &PipelineSpec, place: &Location<'_>) -> Checked {
        check_all(alloc, self, spec.params.as_slice(), place, "params")?;
        check_tasks(alloc, self, spec, place)
    }
}

/// Refuses the first default of an object, or value of an include entry, that isn't of its type, or object parameter
/// without properties.
pub fn check_types(alloc: Global, object: &ItemObject, place: &Location<'_>) -> Checked
    ensures { Reads (types place.now object.now) tt result }
{
    check_pipeline(alloc, &Typed, object, place)?;
    check_task_spec(alloc, &Typed, object, place)
}
