ghost use Rattle.std.specs.Prelude.{◌≡◌, ◌++◌, [], filter, IfOk, OnOk};
ghost use Rattle.tk_verdict.specs.WellFormed.{IsWellFormed};
ghost use Rattle.tk_labels.specs.Kept.{fresh};
ghost use Rattle.tk_run_cache.specs.declared.step.Step.TheVariants.{Children, Stop as StopStep, TaskRun};
ghost use Rattle.tk_run_cache.specs.Follow.{IsOpen, MayStep, ended_in, is_other, stepped};

use crate::children::is_running;
use crate::step::Step;
use std::alloc::{AllocError, Global};
use std::marker::Model;
use tk_labels::{Change, Labels};
use tk_types::{Child, List, Outcome, RunSpec, Stop};

/// What is kept of a run: its labels, and its children without a TaskRun. A contract sees how the run stands.
#[derive(Drop)]
pub(crate) struct Known {
    labels: Labels,
    missing: Vec<Child>,
}

impl Model for Known {
    ghost use Rattle.tk_run_cache.specs.Labelled.{Standing};

    ghost Value = { Standing };

    ghost view = { λ known. record { facts = known.labels; missing = known.missing.items } };
}

impl Known {
    /// A run without stops and children. The only error is want of memory.
    pub(crate) fn of(alloc: Global, spec: RunSpec) -> Result<Known, AllocError>
        requires formed { IsWellFormed (fresh spec) }
        ensures { IfOk result (λ known. known ≡ record { facts = fresh spec; missing = [] }) }
    {
        let labels = Labels::of(alloc, spec)?;
        Ok(Known {
            labels,
            missing: Vec::new(alloc),
        })
    }

    /// Its labels.
    pub(crate) fn labels(&self) -> &Labels
        ensures { result.now ≡ self.now.facts }
    {
        &self.labels
    }

    /// Its children without a TaskRun, in the order in which they came.
    pub(crate) fn missing(&self) -> &[Child]
        ensures { result.now ≡ self.now.missing }
    {
        self.missing.as_slice()
    }

    /// Makes a step. The only error is want of memory, after which nothing is known.
    pub(crate) fn go(&mut self, alloc: Global, step: Step) -> Result<(), AllocError>
        requires may { MayStep step self.old }
        ensures { OnOk result (self.new ≡ stepped step self.old) }
    {
        match step {
            Step::Stop(stop) => self.stop(alloc, stop),
            Step::Children {
                task,
                outcomes,
                missing,
            } => self.give(alloc, task, outcomes, missing),
            Step::TaskRun {
                task,
                index,
                outcome,
            } => self.end(alloc, task, index, outcome),
        }
    }

    /// Records a stop.
    fn stop(&mut self, alloc: Global, stop: Stop) -> Result<(), AllocError>
        ensures { OnOk result (self.new ≡ stepped (StopStep stop) self.old) }
    {
        self.labels.apply(alloc, Change::Stop(stop))?;
        Ok(())
    }

    /// Gives children to a task.
    fn give(
        &mut self,
        alloc: Global,
        task: u32,
        outcomes: List<Option<Outcome>>,
        missing: List<Child>,
    ) -> Result<(), AllocError>
        requires may { MayStep (Children task outcomes missing) self.old }
        ensures { OnOk result (self.new ≡ stepped (Children task outcomes missing) self.old) }
    {
        self.labels
            .apply(alloc, Change::Children { task, outcomes })?;
        add_all(&mut self.missing, missing)?;
        Ok(())
    }

    /// The child of a task and an index has a TaskRun.
    fn end(
        &mut self,
        alloc: Global,
        task: u32,
        index: u32,
        outcome: Option<Outcome>,
    ) -> Result<(), AllocError>
        requires may { MayStep (TaskRun task index outcome) self.old }
        ensures { OnOk result (self.new ≡ stepped (TaskRun task index outcome) self.old) }
    {
        remove(&mut self.missing, task, index);
        end_child(alloc, &mut self.labels, task, index, outcome)?;
        Ok(())
    }
}

/// Adds children behind these.
fn add_all(children: &mut Vec<Child>, more: List<Child>) -> Result<(), AllocError>
    ensures { OnOk result (children.new.items ≡ children.old.items ++ more) }
{
    let mut more = more.into_vec()?;
    children.append(&mut more)?;
    Ok(())
}

/// Whether a child is another one than that of a task and an index.
fn is_other(child: &Child, task: u32, index: u32) -> bool
    ensures { result ≡ is_other task index child.now }
{
    !(child.task == task && child.index == index)
}

/// Takes the child of a task and an index out of these.
fn remove(children: &mut Vec<Child>, task: u32, index: u32)
    ensures { children.new.items ≡ filter (is_other task index) children.old.items }
{
    children.retain(|child| is_other(child, task, index));
}

/// Ends the child of a task and an index, where there is one, with an outcome, where it has one.
fn end_child(
    alloc: Global,
    labels: &mut Labels,
    task: u32,
    index: u32,
    outcome: Option<Outcome>,
) -> Result<(), AllocError>
    requires opens { IsOpen task index labels.old }
    ensures { OnOk result (labels.new ≡ ended_in task index outcome labels.old) }
{
    let Some(outcome) = outcome else {
        return Ok(());
    };
    if !is_running(labels.children(), task, index) {
        return Ok(());
    }
    labels.apply(
        alloc,
        Change::Ended {
            task,
            index,
            outcome,
        },
    )?;
    Ok(())
}
