//! Laws of the definitions that the contracts cite.

ghost use Rattle.std.specs.Prelude.{◌≡◌, ◌≤◌, ◌⊎◌, ℕ, List, Some, All};
ghost use Rattle.tk_types.specs.declared.task.PipelineTask.{PipelineTask};
ghost use Rattle.tk_types.specs.declared.run.RunSpec.{RunSpec};
ghost use Rattle.tk_types.specs.declared.object.Item.{Item};
ghost use Rattle.tk_types.specs.declared.object.PipelineSpec.{PipelineSpec};
ghost use Rattle.tk_types.specs.declared.object.RunObject.{RunObject};
ghost use Rattle.tk_types.specs.declared.object.TaskRunObject.{TaskRunObject};
ghost use Rattle.tk_bind.specs.Readings.{ReadsObject, ReadsPipelineSource, ReadsTaskSource, ReadsTaskSpec};
ghost use Rattle.tk_early.specs.Words.{first_env};
ghost use Rattle.tk_resolve.specs.Laws.{HasItsTasks, HasNoTasks, HasOneBodyEach, IsSourceOf, ReadsRunSpec, RunsItsTasks};
ghost use Rattle.tk_resolve.specs.Run.{env_with, pipeline_of, resolved_run, task_words};
ghost use Rattle.tk_resolve.specs.TaskRun.{resolved_task_run};

/// A resolved run has no tasks and no results, or those of its pipeline, and it has one body a task, which has the spec
/// that the task's source names.
pub fn resolved_tasks()
    ensures alike { (earlier : List Item) (run : RunObject) → HasNoTasks (resolved_run earlier run) ⊎ HasItsTasks earlier run (resolved_run earlier run) }
    ensures bodies { (earlier : List Item) (run : RunObject) → HasOneBodyEach (resolved_run earlier run) }
    ensures specs { (earlier : List Item) (run : RunObject) → RunsItsTasks earlier (resolved_run earlier run) }
{}

/// Where each text of a run and of the objects that stand earlier has a reading, so has each text of the resolved run.
pub fn resolved_reads()
    ensures run { (earlier : List Item) (run : RunObject) → ReadsPipelineSource run.source → All (λ (i : Item). ReadsObject i.object) earlier → ReadsRunSpec (resolved_run earlier run) }
    ensures task_run { (earlier : List Item) (run : TaskRunObject) → ReadsTaskSource run.source → All (λ (i : Item). ReadsObject i.object) earlier → ReadsTaskSpec (resolved_task_run earlier run).body.spec }
{}

/// The pipeline that a run runs is its own spec, or that of an earlier Pipeline of the name.
pub fn found_pipeline()
    ensures { (earlier : List Item) (run : RunObject) (pipeline : PipelineSpec) → pipeline_of earlier run.source ≡ Some pipeline → IsSourceOf earlier pipeline run.source }
{}

/// A task of a resolved run is judged by what its texts saw when the run was resolved.
pub fn same_values()
    ensures { (earlier : List Item) (run : RunObject) (pipeline : PipelineSpec) (task : PipelineTask) → pipeline_of earlier run.source ≡ Some pipeline → first_env (resolved_run earlier run) task ≡ env_with run pipeline (task_words run task) }
{}
