ghost use Rattle.std.specs.Prelude.{◌≡◌, ◌++◌, ◌∷◌, [], slice_get, option_copied, ◌==◌, find, IfOk, OnOk, OnErr};
ghost use Rattle.tk_journal.specs.Effects.{is_final, run_made, run_after, bindings_for, asked_list, admitted_run, run_admitted};

use crate::act::{Act, Admission};
use crate::object::{RunState, Scheduled};
use std::alloc::{AllocError, Global};
use tk_types::{Asked, Binding, List, RunSpec, Text, TryCopy};

/// Whether a task's place is one of `finally`.
fn is_final(spec: &RunSpec, task: u32) -> bool
    ensures { result ≡ is_final spec.now task }
{
    spec.tasks.len() <= task as usize
}

/// These statuses, and one behind them.
fn with_asked(alloc: Global, asked: &[Asked], status: Asked) -> Result<List<Asked>, AllocError>
    ensures { IfOk result (λ more. more ≡ asked.now ++ status ∷ []) }
{
    let mut more = Vec::from_slice(alloc, asked)?;
    more.push(status)?;
    Ok(List::from_vec(more))
}

/// The status that was asked for at admission, if one was.
fn asked_at_first(alloc: Global, asked: Option<Asked>) -> Result<List<Asked>, AllocError>
    ensures { IfOk result (λ list. list ≡ asked_list asked) }
{
    match asked {
        Some(status) => with_asked(alloc, &[], status),
        None => Ok(List::new(alloc)),
    }
}

/// A run as it is admitted.
fn admitted(
    alloc: Global,
    spec: &RunSpec,
    pending: bool,
    asked: Option<Asked>,
    root: &Text,
) -> Result<RunState, AllocError>
    ensures { IfOk result (λ run. run ≡ admitted_run spec.now pending asked root.now) }
{
    Ok(RunState {
        spec: spec.copy(alloc)?,
        root: root.copy(alloc)?,
        pending,
        asked: asked_at_first(alloc, asked)?,
        start: None,
        finally_start: None,
        stops: List::new(alloc),
        scheduled: List::new(alloc),
        closed: None,
    })
}

/// The part that is scheduled for a task.
fn part_of(scheduled: &[Scheduled], task: u32) -> Option<&Scheduled>
    ensures { option_copied result ≡ find (λ part. part.task == task) scheduled.now }
{
    scheduled.iter().find(|part| part.task == task)
}

/// The binding at an index.
fn nth(bindings: &[Binding], index: u32) -> Option<&Binding>
    ensures { option_copied result ≡ slice_get bindings.now index }
{
    bindings.get(index as usize)
}

impl RunState {
    /// The run that an entry makes, if it makes one. The only error is want of memory.
    pub fn made(alloc: Global, act: &Act) -> Result<Option<RunState>, AllocError>
        ensures { IfOk result (λ made. made ≡ run_made act.now) }
    {
        if let Act::Admit {
            spec: Admission::Run(spec),
            pending,
            asked,
            root,
            ..
        } = act
        {
            return Ok(Some(admitted(alloc, spec, *pending, *asked, root)?));
        }
        Ok(None)
    }

    /// What an entry that writes this run leaves of it. The only error is want of memory; the run is then as before.
    pub fn apply(&mut self, alloc: Global, moment: u64, act: &Act) -> Result<(), AllocError>
        ensures ok { OnOk result (self.new ≡ run_after moment act.now self.old) }
        ensures err { OnErr result (self.new ≡ self.old) }
    {
        match act {
            Act::Ask { status, .. } => {
                self.asked = with_asked(alloc, self.asked.as_slice(), *status)?;
                self.pending = false;
            }
            Act::Start { .. } => self.start = Some(moment),
            Act::Schedule { task, bindings, .. } => {
                let bindings = bindings.copy(alloc)?;
                self.scheduled.push(Scheduled {
                    task: *task,
                    bindings,
                })?;
                if self.finally_start.is_none() && is_final(&self.spec, *task) {
                    self.finally_start = Some(moment);
                }
            }
            Act::Halt { stop, .. } => self.stops.push(*stop)?,
            Act::Close { closing, .. } => self.closed = Some(closing.copy(alloc)?),
            _ => {}
        }
        Ok(())
    }

    /// The parameters of a task's child.
    pub fn binding(&self, task: u32, index: u32) -> Option<&Binding>
        ensures { option_copied result ≡ slice_get (bindings_for task self.now.scheduled) index }
    {
        match part_of(self.scheduled.as_slice(), task) {
            Some(part) => nth(part.bindings.as_slice(), index),
            None => None,
        }
    }
}
