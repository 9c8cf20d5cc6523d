//! What the rules give a task, as bindings of its children.

ghost use Rattle.std.specs.Prelude.{◌≡◌, ◌≢◌, ◌<◌, ◌≤◌, ℕ, List, Option, Some, length, slice_get, true, unwrap_or};
ghost use Rattle.tk_types.specs.declared.run.Facts.{Facts};
ghost use Rattle.tk_types.specs.declared.task.Matrix.{Matrix};
ghost use Rattle.tk_types.specs.declared.task.PipelineTask.{PipelineTask};
ghost use Rattle.tk_types.specs.declared.task.TaskBody.{TaskBody};
ghost use Rattle.tk_types.specs.declared.verdict.Binding.{Binding};
ghost use Rattle.tk_types.specs.declared.verdict.Verdict.TheVariants.{Wrong};
ghost use Rattle.tk_graph.specs.Parents.{IsAcyclic};
ghost use Rattle.tk_bind.specs.Fits.{fits};
ghost use Rattle.tk_bind.specs.Params.{matrix_in};
ghost use Rattle.tk_matrix.specs.Task.{task_combination_count};
ghost use Rattle.tk_early.specs.Possible.{possible_children};
ghost use Rattle.tk_early.specs.Words.{first_env};
ghost use Rattle.tk_verdict.specs.Facts.{all_tasks, task_total};
ghost use Rattle.tk_verdict.specs.Gives.{label_of, Gives, HasEntries, HasExactly};

/// The rules give bindings to tasks that exist, at least one where each matrix has a list or an include entry, and at
/// most 256; as many as the task's matrix counts, where that has a value before any child ended, and never more than
/// the children that the task may have.
pub fn gives_some()
    ensures exists { (facts : Facts) (place : ℕ) (bindings : List Binding) → Gives facts place bindings → place < task_total facts }
    ensures some { (facts : Facts) (place : ℕ) (bindings : List Binding) → HasEntries facts → Gives facts place bindings → 0 < length bindings }
    ensures few { (facts : Facts) (place : ℕ) (bindings : List Binding) → Gives facts place bindings → length bindings ≤ 256 }
    ensures counted { (facts : Facts) (place : ℕ) (task : PipelineTask) (bindings : List Binding) (matrix : Option Matrix) → slice_get (all_tasks facts) place ≡ Some task
        → matrix_in (first_env facts.spec task) task.matrix ≡ Some matrix → Gives facts place bindings → length bindings ≡ task_combination_count matrix }
    ensures possible { (facts : Facts) (place : ℕ) (task : PipelineTask) (bindings : List Binding) → slice_get (all_tasks facts) place ≡ Some task
        → Gives facts place bindings → length bindings ≤ unwrap_or (possible_children facts.spec task) 1 }
{}

/// What the rules give a task fits its body.
pub fn given_fits()
    ensures { (facts : Facts) (place index : ℕ) (bindings : List Binding) (binding : Binding) (body : TaskBody) → Gives facts place bindings
        → slice_get bindings index ≡ Some binding → slice_get facts.spec.bodies place ≡ Some body → fits body binding.params ≡ true }
{}

/// A task that has just the children of what the rules give it isn't Wrong.
pub fn given_is_right()
    ensures { (facts : Facts) (place : ℕ) (bindings : List Binding) → IsAcyclic facts.spec.tasks → Gives facts place bindings → HasExactly facts place (length bindings) → label_of facts place ≢ Wrong }
{}
