ghost use Rattle.std.specs.Prelude.{◌≡◌, ℕ, List, Option, Some, slice_get, option_copied, IfOk, OnOk, OnErr};
ghost use Rattle.tk_journal.specs.declared.act.Admission.TheVariants.{Task};
ghost use Rattle.tk_journal.specs.Names.{task_at};
ghost use Rattle.tk_journal.specs.Effects.{task_run_made, task_run_after, task_run_admitted, child_from, child_made, bindings_for, marks, outcome_kept, attempt_closed, attempts_closed, ending_after, ending_of_attempt, ending_without_attempt, task_run_closed};

use crate::act::{Act, Admission, Closing};
use crate::object::{Attempt, Ending, RunState, TaskRunState};
use std::alloc::{AllocError, Global};
use tk_types::{Asked, Binding, List, Outcome, Start, TaskRunSpec, Text, TryCopy};

/// Whether a status marks a TaskRun.
fn marks(asked: Option<Asked>) -> bool
    ensures { result ≡ marks asked }
{
    match asked {
        Some(Asked::TaskRunCancelled) => true,
        _ => false,
    }
}

/// An attempt's outcome, once it is closed with this one.
fn outcome_kept(
    alloc: Global,
    before: &Option<Outcome>,
    outcome: &Outcome,
) -> Result<Option<Outcome>, AllocError>
    ensures { IfOk result (λ kept. kept ≡ outcome_kept before.now outcome.now) }
{
    match before {
        Some(kept) => Ok(Some(kept.copy(alloc)?)),
        None => Ok(Some(outcome.copy(alloc)?)),
    }
}

/// The attempts, once the open one is closed with this outcome.
fn attempts_closed(
    alloc: Global,
    attempts: &[Attempt],
    outcome: &Outcome,
) -> Result<Vec<Attempt>, AllocError>
    ensures { IfOk result (λ closed. closed.items ≡ attempts_closed outcome.now attempts.now) }
{
    let mut closed = Vec::new(alloc);
    for attempt in attempts {
        closed.push(Attempt {
            moment: attempt.moment,
            outcome: outcome_kept(alloc, &attempt.outcome, outcome)?,
        })?;
    }
    Ok(closed)
}

/// How a TaskRun ends that isn't startable, or is marked without an open attempt.
fn ending_without_attempt(alloc: Global, start: &Start) -> Result<Ending, AllocError>
    ensures { IfOk result (λ ending. ending ≡ ending_without_attempt start.now) }
{
    match start {
        Start::Ready => Ok(Ending::Of(Outcome::Cancelled)),
        Start::Unstartable(reason) => Ok(Ending::Unstartable(reason.copy(alloc)?)),
    }
}

/// A standalone TaskRun as it is admitted.
fn admitted(
    alloc: Global,
    spec: &TaskRunSpec,
    asked: Option<Asked>,
    root: &Text,
) -> Result<TaskRunState, AllocError>
    ensures { IfOk result (λ task_run. Some task_run ≡ task_run_admitted (Task spec.now) asked root.now) }
{
    Ok(TaskRunState {
        spec: spec.copy(alloc)?,
        root: root.copy(alloc)?,
        run: None,
        pipeline: Text::new(alloc),
        task: 0,
        index: 0,
        binding: Binding {
            params: spec.params.copy(alloc)?,
        },
        marked: marks(asked),
        attempts: List::new(alloc),
        closed: None,
    })
}

/// A child as its run has it, if the run has it.
fn child_made(
    alloc: Global,
    name: &Text,
    run_name: &Text,
    run: &RunState,
    task: u32,
    index: u32,
    mark: bool,
) -> Result<Option<TaskRunState>, AllocError>
    ensures { IfOk result (λ made. made ≡ child_made name.now run_name.now task index mark (Some run.now)) }
{
    let Some(binding) = run.binding(task, index) else {
        return Ok(None);
    };
    let Some(body) = run.spec.bodies.as_slice().get(task as usize) else {
        return Ok(None);
    };
    let Some(pipeline_task) = run.spec.task(task as usize) else {
        return Ok(None);
    };
    Ok(Some(TaskRunState {
        spec: TaskRunSpec {
            name: name.copy(alloc)?,
            body: body.copy(alloc)?,
            params: binding.params.copy(alloc)?,
            retries: pipeline_task.retries,
            timeout: pipeline_task.timeout,
            start: Start::Ready,
        },
        root: run.root.copy(alloc)?,
        run: Some(run_name.copy(alloc)?),
        pipeline: run.spec.pipeline.copy(alloc)?,
        task,
        index,
        binding: binding.copy(alloc)?,
        marked: mark,
        attempts: List::new(alloc),
        closed: None,
    }))
}

impl TaskRunState {
    /// The TaskRun that an entry makes, if it makes one, where this is the run that it names, if it is there. The only
    /// error is want of memory.
    pub fn made(
        alloc: Global,
        act: &Act,
        run: Option<&RunState>,
    ) -> Result<Option<TaskRunState>, AllocError>
        ensures { IfOk result (λ made. made ≡ task_run_made (λ name. option_copied run.entry) act.now) }
    {
        match act {
            Act::Admit {
                spec: Admission::Task(spec),
                asked,
                root,
                ..
            } => Ok(Some(admitted(alloc, spec, *asked, root)?)),
            Act::MakeTaskRun {
                name,
                run: run_name,
                task,
                index,
                mark,
            } => match run {
                Some(run) => child_made(alloc, name, run_name, run, *task, *index, *mark),
                None => Ok(None),
            },
            _ => Ok(None),
        }
    }

    /// How an attempt that failed so ends its TaskRun: as the last one permitted, or since the TaskRun is marked.
    fn ending_after(&self, alloc: Global, outcome: &Outcome) -> Result<Option<Ending>, AllocError>
        ensures { IfOk result (λ ending. ending ≡ ending_after self.now outcome.now) }
    {
        if (self.spec.retries as usize) < self.attempts.len() {
            Ok(Some(Ending::Of(outcome.copy(alloc)?)))
        } else if self.marked {
            Ok(Some(Ending::Of(Outcome::Cancelled)))
        } else {
            Ok(None)
        }
    }

    /// How an attempt's outcome ends its TaskRun, if it does.
    fn ending_of_attempt(
        &self,
        alloc: Global,
        outcome: &Outcome,
    ) -> Result<Option<Ending>, AllocError>
        ensures { IfOk result (λ ending. ending ≡ ending_of_attempt self.now outcome.now) }
    {
        match outcome {
            Outcome::Succeeded(_) | Outcome::Cancelled => {
                Ok(Some(Ending::Of(outcome.copy(alloc)?)))
            }
            Outcome::Failed { .. } | Outcome::TimedOut | Outcome::Lost => {
                self.ending_after(alloc, outcome)
            }
        }
    }

    /// What a closing leaves of it.
    fn close(&mut self, alloc: Global, closing: &Closing) -> Result<(), AllocError>
        ensures ok { OnOk result (self.new ≡ task_run_closed closing.now self.old) }
        ensures err { OnErr result (self.new ≡ self.old) }
    {
        match closing {
            Closing::Attempt(outcome) => {
                let closed = self.ending_of_attempt(alloc, outcome)?;
                let attempts = attempts_closed(alloc, self.attempts.as_slice(), outcome)?;
                self.attempts = List::from_vec(attempts);
                self.closed = closed;
            }
            Closing::TaskRun => {
                self.closed = Some(ending_without_attempt(alloc, &self.spec.start)?);
            }
            Closing::Run { .. } => {}
        }
        Ok(())
    }

    /// What an entry that writes this TaskRun leaves of it. The only error is want of memory; it is then as before.
    pub fn apply(&mut self, alloc: Global, moment: u64, act: &Act) -> Result<(), AllocError>
        ensures ok { OnOk result (self.new ≡ task_run_after moment act.now self.old) }
        ensures err { OnErr result (self.new ≡ self.old) }
    {
        match act {
            Act::Ask { .. } | Act::CancelTaskRun { .. } => self.marked = true,
            Act::OpenAttempt { .. } => self.attempts.push(Attempt {
                moment,
                outcome: None,
            })?,
            Act::Close { closing, .. } => self.close(alloc, closing)?,
            _ => {}
        }
        Ok(())
    }
}
