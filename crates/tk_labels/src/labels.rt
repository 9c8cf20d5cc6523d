ghost use Rattle.std.specs.Prelude.{◌≡◌, ◌≢◌, ◌<◌, ◌++◌, ℕ, None, Contains, take, length, IfNone, IfOk, IfSome, OnErr, OnOk};
ghost use Rattle.std.specs.List.{list_all};
ghost use Rattle.tk_labels.specs.Change.{changed, children_with};
ghost use Rattle.tk_labels.specs.Kept.{fresh, has_bad, of_run, IsFirstReady, IsKept, MayChange, MayHave};
ghost use Rattle.tk_labels.specs.Spans.{AreSpanned};
ghost use Rattle.tk_labels.specs.declared.change.Change.TheVariants.{Children, Ended, Stop as StopChange};
ghost use Rattle.tk_types.specs.declared.verdict.Verdict.TheVariants.{Ready};
ghost use Rattle.tk_verdict.specs.Condition.{condition_of, results_of};
ghost use Rattle.tk_verdict.specs.Gives.{label_of};
ghost use Rattle.tk_verdict.specs.Labels.{labels_of, ready_bindings};
ghost use Rattle.tk_verdict.specs.Verdict.{is_done};
ghost use Rattle.tk_verdict.specs.WellFormed.{IsWellFormed};

use crate::anew::{anew, whole};
use crate::change::Change;
use crate::judge::bindings_at;
use crate::kids::{add, any_bad, place_of, put};
use crate::ready::{Labelling, is_ready};
use crate::relabel::relabelled;
use crate::spans::{Kids, Span, with_span};
use std::alloc::{AllocError, Global};
use std::marker::Model;
use std::mem;
use tk_graph::all_parents;
use tk_types::{
    Binding, Child, Condition, Facts, List, Outcome, Param, RunSpec, Stop, TryCopy, Verdict,
};
use tk_verdict::judging::{Ranked, by_rank, label_at, ranks_of_run};
use tk_verdict::laws::one_labelling;
use tk_verdict::{Decision, condition_with, pipeline_results};

/// The labels of a run, kept from change to change. A contract sees the facts of the run.
#[derive(Drop)]
pub struct Labels {
    run: Facts,
    children: Vec<Child>,
    spans: Vec<Span>,
    parents: List<List<u32>>,
    sequence: Vec<Ranked>,
    labels: Labelling,
    bad: bool,
}

impl Model for Labels {
    ghost use Rattle.tk_types.specs.declared.run.Facts.{Facts};
    ghost use Rattle.tk_labels.specs.Kept.{of_run, IsHeld};

    ghost Value = { Facts };

    ghost view = { λ labels. of_run labels.run labels.children.items };

    ghost invariant = { λ labels. IsHeld (of_run labels.run labels.children.items) labels.spans.items labels.parents labels.sequence.items labels.labels labels.bad };
}

impl Labels {
    /// The labels of a run without stops and children. The only error is want of memory.
    pub fn of(alloc: Global, spec: RunSpec) -> Result<Labels, AllocError>
        requires { IsWellFormed (fresh spec) }
        ensures { IfOk result (λ labels. labels ≡ fresh spec) }
    {
        let run = Facts {
            spec,
            stops: List::new(alloc),
            children: List::new(alloc),
        };
        let ranks = ranks_of_run(alloc, &run)?;
        let sequence = by_rank(alloc, ranks.list.as_slice())?;
        let parents = all_parents(alloc, run.spec.tasks.as_slice())?;
        let labels = anew(alloc, &run, &[])?;
        Ok(Labels {
            run,
            children: Vec::new(alloc),
            spans: Vec::new(alloc),
            parents,
            sequence,
            labels: Labelling::of(labels),
            bad: false,
        })
    }

    /// The spec of the run.
    pub fn spec(&self) -> &RunSpec
        ensures { result.now ≡ self.now.spec }
    {
        &self.run.spec
    }

    /// The recorded stops, in order.
    pub fn stops(&self) -> &[Stop]
        ensures { result.now ≡ self.now.stops }
    {
        self.run.stops.as_slice()
    }

    /// The children, in the order in which they came.
    pub fn children(&self) -> &[Child]
        ensures { result.now ≡ self.now.children }
    {
        self.children.as_slice()
    }

    /// The facts are well formed: a law for whoever holds labels, which does nothing.
    pub fn formed(&self)
        ensures { IsWellFormed self.now }
    {
        let _ = &self.run;
    }

    /// The facts themselves, as a value of their own. The only error is want of memory.
    pub fn facts(&self, alloc: Global) -> Result<Facts, AllocError>
        ensures { IfOk result (λ facts. facts ≡ self.now) }
    {
        whole(alloc, &self.run, self.children.as_slice())
    }

    /// The label of each task, those of `tasks` first. It takes no memory.
    pub fn labels(&self) -> &[Verdict]
        ensures { result.now ≡ labels_of self.now }
    {
        self.labels.as_slice()
    }

    /// The label of the task at a place, and Waits for a place of no task. It takes no memory.
    pub fn verdict(&self, task: u32) -> Verdict
        ensures { result ≡ label_of self.now task }
    {
        label_at(self.labels.as_slice(), task as usize)
    }

    /// The first place whose task is Ready. It takes no memory.
    pub fn first_ready(&self) -> Option<u32>
        ensures some { IfSome result (λ task. IsFirstReady (labels_of self.now) task) }
        ensures none { IfNone result ((task : ℕ) → label_of self.now task ≢ Ready) }
    {
        one_labelling();
        match self.labels.first_ready() {
            Some(place) => Some(place as u32),
            None => None,
        }
    }

    /// Whether each task ran or is skipped. It takes no memory.
    pub fn all_done(&self) -> bool
        ensures { result ≡ list_all is_done (labels_of self.now) }
    {
        self.labels.are_done()
    }

    /// Whether some child of `tasks` ended and isn't good for its task. It takes no memory.
    pub fn has_bad(&self) -> bool
        ensures { result ≡ has_bad self.now }
    {
        self.bad
    }

    /// The bindings of the task at a place, one for each of its combinations in order, Some exactly where the task is Ready
    /// (Tekton, Matrix, Fanning out). The only error is want of memory.
    pub fn bindings(&self, alloc: Global, task: u32) -> Result<Option<List<Binding>>, AllocError>
        ensures { IfOk result (λ made. made ≡ ready_bindings self.now (labels_of self.now) task) }
    {
        if (task as usize) < self.parents.len() {
            return self.task_bindings(alloc, task);
        }
        let facts = whole(alloc, &self.run, self.children.as_slice())?;
        Decision::new(alloc, &facts)?.ready_with(alloc, self.labels.as_slice(), task)
    }

    /// The same of a task of `tasks`, by its parents' results alone.
    fn task_bindings(&self, alloc: Global, task: u32) -> Result<Option<List<Binding>>, AllocError>
        requires { task < length self.now.spec.tasks }
        ensures { IfOk result (λ made. made ≡ ready_bindings self.now (labels_of self.now) task) }
    {
        if !is_ready(self.verdict(task)) {
            return Ok(None);
        }
        let above = self.parents.as_slice()[task as usize].as_slice();
        let kids = Kids::new(self.children.as_slice(), self.spans.as_slice());
        bindings_at(alloc, &self.run, &kids, above, task)
    }

    /// The condition of the run, None exactly where the run can start and some task is neither Ran nor Skipped (Tekton,
    /// PipelineRuns, Monitoring execution status). The only error is want of memory.
    pub fn condition(&self, alloc: Global) -> Result<Option<Condition>, AllocError>
        ensures { IfOk result (λ condition. condition ≡ condition_of self.now (labels_of self.now)) }
    {
        let facts = whole(alloc, &self.run, self.children.as_slice())?;
        condition_with(alloc, &facts, self.labels.as_slice())
    }

    /// The results of the run's pipeline all of whose references have values (Tekton, Pipelines, Emitting Results from a
    /// Pipeline). The only error is want of memory.
    pub fn results(&self, alloc: Global) -> Result<List<Param>, AllocError>
        ensures { IfOk result (λ results. results ≡ results_of self.now) }
    {
        let facts = whole(alloc, &self.run, self.children.as_slice())?;
        pipeline_results(alloc, &facts)
    }

    /// Makes a change. The only error is want of memory, and it leaves everything as it was.
    pub fn apply(&mut self, alloc: Global, change: Change) -> Result<(), AllocError>
        requires { MayChange change self.old }
        ensures ok { OnOk result (self.new ≡ changed change self.old) }
        ensures err { OnErr result (self.new ≡ self.old) }
    {
        match change {
            Change::Stop(stop) => self.stop(alloc, stop),
            Change::Children { task, outcomes } => self.give(alloc, task, outcomes.as_slice()),
            Change::Ended {
                task,
                index,
                outcome,
            } => self.end(alloc, task, index, outcome),
        }
    }

    /// Records a stop.
    fn stop(&mut self, alloc: Global, stop: Stop) -> Result<(), AllocError>
        ensures ok { OnOk result (self.new ≡ changed (StopChange stop) self.old) }
        ensures err { OnErr result (self.new ≡ self.old) }
    {
        let mut stops = self.run.stops.copy(alloc)?;
        stops.push(stop)?;
        let before = mem::replace(&mut self.run.stops, stops);
        match anew(alloc, &self.run, self.children.as_slice()) {
            Ok(labels) => {
                self.labels = Labelling::of(labels);
                Ok(())
            }
            Err(AllocError) => {
                self.run.stops = before;
                Err(AllocError)
            }
        }
    }

    /// Gives children with these outcomes to a task.
    fn give(
        &mut self,
        alloc: Global,
        task: u32,
        outcomes: &[Option<Outcome>],
    ) -> Result<(), AllocError>
        requires { MayHave self.old task (length outcomes.now) }
        ensures ok { OnOk result (self.new ≡ changed (Children task outcomes.now) self.old) }
        ensures err { OnErr result (self.new ≡ self.old) }
    {
        let from = self.children.len();
        let to = from + outcomes.len();
        let spans = with_span(alloc, self.spans.as_slice(), task, Span { from, to })?;
        let made = given(
            alloc,
            &self.run,
            &mut self.children,
            spans.as_slice(),
            self.parents.as_slice(),
            self.sequence.as_slice(),
            self.labels.as_slice(),
            task,
            outcomes,
        );
        match made {
            Ok(labels) => {
                self.spans = spans;
                self.labels = Labelling::of(labels);
                self.bad = any_bad(&self.run.spec, self.children.as_slice());
                Ok(())
            }
            Err(AllocError) => {
                self.children.truncate(from);
                Err(AllocError)
            }
        }
    }

    /// Ends the child of a task and an index.
    fn end(
        &mut self,
        alloc: Global,
        task: u32,
        index: u32,
        outcome: Outcome,
    ) -> Result<(), AllocError>
        requires { Contains self.old.children (record { task = task; index = index; outcome = None }) }
        ensures ok { OnOk result (self.new ≡ changed (Ended task index outcome) self.old) }
        ensures err { OnErr result (self.new ≡ self.old) }
    {
        let place = place_of(self.children.as_slice(), task, index);
        put(&mut self.children, place, task, index, Some(outcome));
        let made = relabelled(
            alloc,
            &self.run,
            self.children.as_slice(),
            self.spans.as_slice(),
            self.parents.as_slice(),
            self.sequence.as_slice(),
            self.labels.as_slice(),
            task,
        );
        match made {
            Ok(labels) => {
                self.labels = Labelling::of(labels);
                self.bad = any_bad(&self.run.spec, self.children.as_slice());
                Ok(())
            }
            Err(AllocError) => {
                put(&mut self.children, place, task, index, None);
                Err(AllocError)
            }
        }
    }
}

/// Adds children with these outcomes of a task, and makes the labels with them. Where memory is wanting, some of them may
/// stand behind the others.
fn given(
    alloc: Global,
    run: &Facts,
    children: &mut Vec<Child>,
    spans: &[Span],
    parents: &[List<u32>],
    sequence: &[Ranked],
    was: &[Verdict],
    task: u32,
    outcomes: &[Option<Outcome>],
) -> Result<Vec<Verdict>, AllocError>
    requires kept { IsKept (of_run run.now children.old.items) parents.now sequence.now was.now }
    requires may { MayHave (of_run run.now children.old.items) task (length outcomes.now) }
    requires spanned { AreSpanned (children.old.items ++ children_with task outcomes.now) spans.now }
    ensures added { OnOk result (children.new.items ≡ children.old.items ++ children_with task outcomes.now) }
    ensures labels { IfOk result (λ labels. labels.items ≡ labels_of (of_run run.now (children.old.items ++ children_with task outcomes.now))) }
    ensures err { OnErr result (take (length children.old.items) children.new.items ≡ children.old.items) }
{
    add(alloc, children, task, outcomes)?;
    relabelled(
        alloc,
        run,
        children.as_slice(),
        spans,
        parents,
        sequence,
        was,
        task,
    )
}
