ghost use Rattle.std.specs.Prelude.{◌≡◌, ◌++◌, drop, All, IfOk, OnOk, option_and_then};
ghost use Rattle.std.specs.List.{zip};
ghost use Rattle.tk_vars.specs.Reading.{HasReading, ends_with_star};
ghost use Rattle.tk_bind.specs.Found.{meant};
ghost use Rattle.tk_resolve.specs.Due.{seen};
ghost use Rattle.tk_resolve.specs.Misuse.{any_misuse, declared_type, is_misused, misuses, seen_type, taken, task_and_body, type_by};
ghost use Rattle.tk_resolve.specs.Run.{all_tasks};

use crate::due::Due;
use crate::uses::{Question, any_use};
use std::alloc::{AllocError, Global};
use std::marker::Model;
use tk_bind::{Target, key_part, suits, target_of};
use tk_types::{FirstNamed, Named, ParamType, PipelineSpec, PipelineTask, ResultSpec, TaskBody};
use tk_vars::{Part, Reference, names_no_task};

/// A task with its body, whose results are found by their names. A contract sees the task and the body.
#[derive(Drop)]
pub(crate) struct Declarer<'a> {
    task: &'a PipelineTask,
    body: &'a TaskBody,
    results: FirstNamed<'a, ResultSpec>,
}

impl<'a> Model for Declarer<'a> {
    ghost use Rattle.std.specs.Prelude.{◌≡◌};
    ghost use Rattle.tk_types.specs.declared.task.PipelineTask.{PipelineTask};
    ghost use Rattle.tk_types.specs.declared.task.TaskBody.{TaskBody};

    ghost Value = { PipelineTask × TaskBody };

    ghost view = { λ declarer. (declarer.task.now, declarer.body.now) };

    ghost invariant = { λ declarer. declarer.results ≡ declarer.body.now.spec.results };
}

impl<'a> Named for Declarer<'a> {
    ghost name = { λ d. d.0.name };

    fn name(&self) -> &str {
        self.task.name.as_str()
    }
}

impl<'a> Declarer<'a> {
    /// This task with this body. The only error is want of memory.
    fn new(alloc: Global, task: &'a PipelineTask, body: &'a TaskBody) -> Result<Self, AllocError>
        ensures { IfOk result (λ declarer. declarer ≡ (task.now, body.now)) }
    {
        Ok(Declarer {
            task,
            body,
            results: FirstNamed::new(alloc, body.spec.results.as_slice())?,
        })
    }

    /// The task.
    pub(crate) fn task(&self) -> &'a PipelineTask
        ensures { result.now ≡ self.now.0 }
    {
        self.task
    }

    /// Its body.
    pub(crate) fn body(&self) -> &'a TaskBody
        ensures { result.now ≡ self.now.1 }
    {
        self.body
    }

    /// The type that the body declares for a result.
    fn declared_type(&self, name: &str) -> Option<ParamType>
        ensures { result ≡ declared_type self.now.1 name.now }
    {
        self.results.get(name).map(|spec| spec.kind)
    }

    /// The type of a result of this declared type as others see it.
    fn seen_type(&self, kind: ParamType) -> Option<ParamType>
        ensures { result ≡ seen_type self.now.0 kind }
    {
        match kind {
            ParamType::Str if self.task.matrix.is_some() => Some(ParamType::Arr),
            _ if self.task.matrix.is_some() => None,
            kind => Some(kind),
        }
    }

    /// The type of what a reference takes of a result.
    fn type_by(&self, name: &str, selector: &[Part<'_>]) -> Option<ParamType>
        ensures { result ≡ type_by name.now selector.now self.now }
    {
        let kind = self.seen_type(self.declared_type(name)?)?;
        taken(kind, selector)
    }
}

/// Whether the last part is `[*]`.
fn ends_with_star(parts: &[Part<'_>]) -> bool
    ensures { result ≡ ends_with_star parts.now }
{
    match parts.last() {
        Some(part) => part.is_star(),
        None => false,
    }
}

/// The type of what a selector takes of a value of a type, if it suits that.
fn taken(kind: ParamType, selector: &[Part<'_>]) -> Option<ParamType>
    ensures { result ≡ taken kind selector.now }
{
    if !suits(kind, selector) {
        return None;
    }
    if ends_with_star(selector) {
        return Some(kind);
    }
    Some(ParamType::Str)
}

/// The tasks of a Pipeline, those of `finally` last, each with its body. The only error is want of memory.
pub(crate) fn declarers<'a>(
    alloc: Global,
    pipeline: &'a PipelineSpec,
    bodies: &'a [TaskBody],
) -> Result<Vec<Declarer<'a>>, AllocError>
    ensures { IfOk result (λ declarers. declarers.items ≡ zip (all_tasks pipeline.now) bodies.now) }
{
    let tasks = pipeline.tasks.as_slice().iter();
    let all = tasks.chain(pipeline.finally.as_slice());
    let mut made = Vec::with_capacity(alloc, bodies.len())?;
    for (task, body) in all.zip(bodies) {
        made.push(Declarer::new(alloc, task, body)?)?;
    }
    Ok(made)
}

/// The type of what a reference takes of a result of a task.
fn type_of_result(
    tasks: &FirstNamed<'_, Declarer<'_>>,
    task: &str,
    name: &str,
    selector: &[Part<'_>],
) -> Option<ParamType>
    ensures { result ≡ option_and_then (type_by name.now selector.now) (task_and_body tasks.now task.now) }
{
    tasks.get(task)?.type_by(name, selector)
}

/// Whether this is a result that its task doesn't declare, or that is used against its declared type.
fn is_misused(
    alloc: Global,
    tasks: &FirstNamed<'_, Declarer<'_>>,
    due: Due,
    target: Target<'_>,
) -> Result<bool, AllocError>
    ensures { IfOk result (λ misused. misused ≡ is_misused tasks.now due (meant target.entry)) }
{
    match target {
        Target::Result {
            task,
            name,
            selector,
        } => {
            let name = key_part(alloc, name)?;
            match type_of_result(tasks, task.as_str(), name.as_str(), selector) {
                Some(kind) => Ok(!due.takes(kind)),
                None => Ok(true),
            }
        }
        _ => Ok(false),
    }
}

/// Whether a reference is to a result that its task doesn't declare, or that is used against its declared type.
#[derive(Drop)]
struct Misuses<'l, 'e, 'a> {
    tasks: &'l FirstNamed<'e, Declarer<'a>>,
}

impl<'l, 'e, 'a> Question for Misuses<'l, 'e, 'a> {
    ghost asks = { λ q due r. misuses q.tasks.now due r };

    fn passes_over(&self, text: &str) -> bool {
        names_no_task(text)
    }

    fn holds(
        &self,
        alloc: Global,
        due: Due,
        reference: &Reference<'_>,
    ) -> Result<bool, AllocError> {
        is_misused(
            alloc,
            self.tasks,
            due,
            target_of(reference.parts.as_slice()),
        )
    }
}

/// Whether some reference of these texts is to a result that its task doesn't declare, or that is used against its
/// declared type. The only error is want of memory.
pub(crate) fn any_misuse(
    alloc: Global,
    tasks: &FirstNamed<'_, Declarer<'_>>,
    texts: &[(Due, &str)],
) -> Result<bool, AllocError>
    requires { All (λ t. HasReading t.1.now) texts.now }
    ensures { IfOk result (λ any. any ≡ any_misuse tasks.now (seen texts.now)) }
{
    any_use(alloc, &Misuses { tasks }, texts)
}
