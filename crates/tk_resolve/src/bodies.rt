ghost use Rattle.std.specs.Prelude.{◌≡◌, [], ◌++◌, map, IfOk, option_map};
ghost use Rattle.tk_types.specs.declared.task.PipelineTask.{PipelineTask as T};
ghost use Rattle.tk_types.specs.declared.task.TaskSource.TheVariants.{Named};
ghost use Rattle.tk_types.specs.Lists.{all_some};
ghost use Rattle.tk_resolve.specs.Run.{bodies_of, body_of};
ghost use Rattle.tk_resolve.specs.Spaces.{handed_spaces};
ghost use Rattle.tk_resolve.specs.Values.{defaults, outer_values};

use crate::lookup::Earlier;
use crate::spaces::handed_spaces;
use crate::values::{defaults, outer_values};
use std::alloc::{AllocError, Global};
use std::marker::Model;
use tk_types::{
    FirstNamed, List, Param, PipelineSpec, PipelineTask, RunObject, Space, TaskBody, TaskSource,
    TaskSpec, Text, TryCopy,
};

/// A run and its Pipeline, of which the run's bindings are found by their names, with what each inlined spec sees. A
/// contract sees both.
#[derive(Drop)]
struct RunIndex<'r> {
    run: &'r RunObject,
    pipeline: &'r PipelineSpec,
    bindings: FirstNamed<'r, Space>,
    outer: List<Param>,
    fallback: List<Param>,
}

impl<'r> Model for RunIndex<'r> {
    ghost use Rattle.std.specs.Prelude.{◌≡◌};
    ghost use Rattle.tk_types.specs.declared.object.PipelineSpec.{PipelineSpec};
    ghost use Rattle.tk_types.specs.declared.object.RunObject.{RunObject};
    ghost use Rattle.tk_resolve.specs.Values.{defaults, outer_values};

    ghost Value = { RunObject × PipelineSpec };

    ghost view = { λ index. (index.run.now, index.pipeline.now) };

    ghost invariant = { λ index. (index.bindings ≡ index.run.now.bindings)
        × (index.outer ≡ outer_values index.pipeline.now.params index.run.now.params)
        × (index.fallback ≡ defaults index.pipeline.now.params) };
}

/// What is given to a run, as a spec that is inlined in a task sees it; copies share it.
fn outer_of(
    alloc: Global,
    run: &RunObject,
    pipeline: &PipelineSpec,
) -> Result<List<Param>, AllocError>
    ensures { IfOk result (λ outer. outer ≡ outer_values pipeline.now.params run.now.params) }
{
    let params = FirstNamed::new(alloc, pipeline.params.as_slice())?;
    let outer = outer_values(alloc, &params, run.params.as_slice())?;
    outer.share(alloc)
}

impl<'r> RunIndex<'r> {
    /// An index of a run and its Pipeline.
    fn new(
        alloc: Global,
        run: &'r RunObject,
        pipeline: &'r PipelineSpec,
    ) -> Result<Self, AllocError>
        ensures { IfOk result (λ index. index ≡ (run.now, pipeline.now)) }
    {
        Ok(RunIndex {
            run,
            pipeline,
            bindings: FirstNamed::new(alloc, run.bindings.as_slice())?,
            outer: outer_of(alloc, run, pipeline)?,
            fallback: defaults(alloc, pipeline.params.as_slice())?.share(alloc)?,
        })
    }

    /// The bound workspaces of a task's Task.
    fn spaces(
        &self,
        alloc: Global,
        task: &PipelineTask,
        spec: &TaskSpec,
    ) -> Result<List<Space>, AllocError>
        ensures { IfOk result (λ spaces. spaces ≡ handed_spaces self.now.0.bindings task.now.spaces spec.now.spaces) }
    {
        let uses = FirstNamed::new(alloc, task.spaces.as_slice())?;
        handed_spaces(alloc, &self.bindings, &uses, spec.spaces.as_slice())
    }

    /// The body of a task that runs an earlier Task, which sees nothing from outside.
    fn named_body(
        &self,
        alloc: Global,
        task: &PipelineTask,
        name: &Text,
        spec: &TaskSpec,
    ) -> Result<TaskBody, AllocError>
        ensures { IfOk result (λ body. body ≡ record { spec = spec.now; task_name = name.now; outer = []; fallback = []; bound = handed_spaces self.now.0.bindings task.now.spaces spec.now.spaces }) }
    {
        Ok(TaskBody {
            spec: spec.copy(alloc)?,
            task_name: name.copy(alloc)?,
            outer: List::new(alloc),
            fallback: List::new(alloc),
            bound: self.spaces(alloc, task, spec)?,
        })
    }

    /// The body of a task that runs a spec of its own, which sees what is given to the run and declared by the pipeline.
    fn inlined_body(
        &self,
        alloc: Global,
        task: &PipelineTask,
        spec: &TaskSpec,
    ) -> Result<TaskBody, AllocError>
        ensures { IfOk result (λ body. body ≡ record { spec = spec.now; task_name = task.now.name; outer = outer_values self.now.1.params self.now.0.params; fallback = defaults self.now.1.params; bound = handed_spaces self.now.0.bindings task.now.spaces spec.now.spaces }) }
    {
        Ok(TaskBody {
            spec: spec.copy(alloc)?,
            task_name: task.name.copy(alloc)?,
            outer: self.outer.copy(alloc)?,
            fallback: self.fallback.copy(alloc)?,
            bound: self.spaces(alloc, task, spec)?,
        })
    }

    /// The body of a task that runs an earlier Task of this name, if there is one.
    fn body_of_named(
        &self,
        alloc: Global,
        earlier: &Earlier<'_>,
        task: &PipelineTask,
        name: &Text,
    ) -> Result<Option<TaskBody>, AllocError>
        ensures { IfOk result (λ body. body ≡ body_of earlier.now self.now.0 self.now.1 task.now (Named name.now)) }
    {
        match earlier.task(name.as_str()) {
            Some(spec) => Ok(Some(self.named_body(alloc, task, name, spec)?)),
            None => Ok(None),
        }
    }

    /// What a task runs, if it is found.
    fn body_of(
        &self,
        alloc: Global,
        earlier: &Earlier<'_>,
        task: &PipelineTask,
    ) -> Result<Option<TaskBody>, AllocError>
        ensures { IfOk result (λ body. body ≡ body_of earlier.now self.now.0 self.now.1 task.now task.now.source) }
    {
        match &task.source {
            TaskSource::Named(name) => self.body_of_named(alloc, earlier, task, name),
            TaskSource::Inlined(spec) => Ok(Some(self.inlined_body(alloc, task, spec)?)),
        }
    }

    /// These bodies with those of some tasks behind them, where each is found.
    fn bodies_behind(
        &self,
        alloc: Global,
        earlier: &Earlier<'_>,
        mut bodies: List<TaskBody>,
        tasks: &[PipelineTask],
    ) -> Result<Option<List<TaskBody>>, AllocError>
        ensures { IfOk result (λ all. all ≡ option_map (λ more. bodies ++ more) (all_some (map (λ (t : T). body_of earlier.now self.now.0 self.now.1 t t.source) tasks.now))) }
    {
        for task in tasks {
            match self.body_of(alloc, earlier, task)? {
                Some(body) => bodies.push(body)?,
                None => return Ok(None),
            }
        }
        Ok(Some(bodies))
    }

    /// The bodies of all tasks, those of `finally` behind the others, where each is found.
    fn bodies(
        &self,
        alloc: Global,
        earlier: &Earlier<'_>,
    ) -> Result<Option<List<TaskBody>>, AllocError>
        ensures { IfOk result (λ bodies. bodies ≡ bodies_of earlier.now self.now.0 self.now.1) }
    {
        let tasks = self.pipeline.tasks.len();
        let count = tasks.saturating_add(self.pipeline.finally.len());
        let none = List::from_vec(Vec::with_capacity(alloc, count)?);
        match self.bodies_behind(alloc, earlier, none, self.pipeline.tasks.as_slice())? {
            Some(bodies) => {
                self.bodies_behind(alloc, earlier, bodies, self.pipeline.finally.as_slice())
            }
            None => Ok(None),
        }
    }
}

/// The bodies of all tasks of a run, those of `finally` behind the others, where each is found; copies share them. The only
/// error is want of memory.
pub(crate) fn bodies_of(
    alloc: Global,
    earlier: &Earlier<'_>,
    run: &RunObject,
    pipeline: &PipelineSpec,
) -> Result<Option<List<TaskBody>>, AllocError>
    ensures { IfOk result (λ bodies. bodies ≡ bodies_of earlier.now run.now pipeline.now) }
{
    let index = RunIndex::new(alloc, run, pipeline)?;
    match index.bodies(alloc, earlier)? {
        Some(bodies) => Ok(Some(bodies.share(alloc)?)),
        None => Ok(None),
    }
}
