ghost use Rattle.std.specs.Prelude.{◌≡◌, IfOk};
ghost use Rattle.tk_verdict.specs.Available.{available_results as results_available};
ghost use Rattle.tk_verdict.specs.Condition.{condition_of, results_of};
ghost use Rattle.tk_verdict.specs.Labels.{labels_of, ready_bindings};
ghost use Rattle.tk_verdict.specs.WellFormed.{IsWellFormed};
ghost use Rattle.tk_verdict.specs.Words.{status_words as words_of_status};

use crate::available::available_results;
use crate::bindings::ready_bindings;
use crate::calls::{groups_of, ranks_of_run};
use crate::emit::results_with;
use crate::finished::condition_with;
use crate::groups::Groups;
use crate::labels::labels;
use crate::status::status_words;
use std::alloc::{AllocError, Global};
use std::marker::Model;
use tk_bind::Given;
use tk_graph::Ranks;
use tk_types::{Binding, Condition, Facts, List, Pair, Param, Verdict};

/// The decision of a run: what all its answers stand on is made once. A contract sees the facts of the run.
#[derive(Drop)]
pub struct Decision<'f> {
    facts: &'f Facts,
    ranks: Ranks,
    groups: Groups<'f>,
    results: List<Given>,
}

impl<'f> Model for Decision<'f> {
    ghost use Rattle.std.specs.Prelude.{◌≡◌};
    ghost use Rattle.tk_types.specs.declared.run.Facts.{Facts};
    ghost use Rattle.tk_verdict.specs.Decision.{IsPrepared};

    ghost Value = { Facts };

    ghost view = { λ decision. decision.facts.now };

    ghost invariant = { λ decision. IsPrepared decision.facts.now decision.ranks.list decision.groups decision.results };
}

impl<'f> Decision<'f> {
    /// The decision of a run with these facts. The only error is want of memory.
    pub fn new(alloc: Global, facts: &'f Facts) -> Result<Self, AllocError>
        requires { IsWellFormed facts.now }
        ensures { IfOk result (λ decision. decision ≡ facts.now) }
    {
        let ranks = ranks_of_run(alloc, facts)?;
        let groups = groups_of(alloc, facts)?;
        let results = available_results(alloc, facts, &groups)?;
        Ok(Decision {
            facts,
            ranks,
            groups,
            results,
        })
    }

    /// The label of each task, `tasks` first (Tekton, Pipelines, Monitoring execution status): the one right labelling
    /// of a run. The only error is want of memory.
    pub fn labels(&self, alloc: Global) -> Result<List<Verdict>, AllocError>
        ensures { IfOk result (λ labels. labels ≡ labels_of self.now) }
    {
        let made = labels(
            alloc,
            self.facts,
            &self.groups,
            self.results.as_slice(),
            self.ranks.list.as_slice(),
        )?;
        Ok(List::from_vec(made))
    }

    /// The bindings of the task at a place, by the labels of the run: one for each of its combinations in order, Some
    /// exactly where the task is Ready (Tekton, Matrix, Fanning out): the task's own parameters first, then the
    /// combination's. The only error is want of memory.
    pub fn ready_with(
        &self,
        alloc: Global,
        labels: &[Verdict],
        task: u32,
    ) -> Result<Option<List<Binding>>, AllocError>
        requires { labels.now ≡ labels_of self.now }
        ensures { IfOk result (λ made. made ≡ ready_bindings self.now labels.now task) }
    {
        ready_bindings(
            alloc,
            self.facts,
            &self.groups,
            self.results.as_slice(),
            labels,
            task,
        )
    }

    /// The results that the run's children gave, as its texts see them. It takes no memory.
    pub fn given(&self) -> &[Given]
        ensures { result.now ≡ results_available self.now }
    {
        self.results.as_slice()
    }

    /// The status variables that the texts of `finally` see beside a task's own words, with these labels of `tasks`
    /// (Tekton, Pipelines, Using execution status of `PipelineTask`). The only error is want of memory.
    pub fn status_words(&self, alloc: Global, labels: &[Verdict]) -> Result<List<Pair>, AllocError>
        ensures { IfOk result (λ words. words ≡ words_of_status self.now labels.now) }
    {
        status_words(alloc, self.facts, &self.groups, labels)
    }

    /// The condition of the run by its labels, None exactly where the run can start and some task is neither Ran nor
    /// Skipped. The only error is want of memory.
    pub fn condition_with(
        &self,
        alloc: Global,
        labels: &[Verdict],
    ) -> Result<Option<Condition>, AllocError>
        ensures { IfOk result (λ condition. condition ≡ condition_of self.now labels.now) }
    {
        condition_with(alloc, self.facts, labels)
    }

    /// The results of the run's pipeline all of whose references have values (Tekton, Pipelines, Emitting Results from
    /// a Pipeline). The only error is want of memory.
    pub fn results(&self, alloc: Global) -> Result<List<Param>, AllocError>
        ensures { IfOk result (λ results. results ≡ results_of self.now) }
    {
        results_with(alloc, self.facts, self.results.as_slice())
    }
}

/// The label of each task of a run, as `Decision::labels` gives it.
pub fn verdicts(alloc: Global, facts: &Facts) -> Result<List<Verdict>, AllocError>
    requires well_formed { IsWellFormed facts.now }
    ensures { IfOk result (λ labels. labels ≡ labels_of facts.now) }
{
    Decision::new(alloc, facts)?.labels(alloc)
}

/// The condition of a run, as `Decision::condition_with` gives it by its labels.
pub fn condition(alloc: Global, facts: &Facts) -> Result<Option<Condition>, AllocError>
    requires well_formed { IsWellFormed facts.now }
    ensures { IfOk result (λ condition. condition ≡ condition_of facts.now (labels_of facts.now)) }
{
    let labels = verdicts(alloc, facts)?;
    condition_with(alloc, facts, labels.as_slice())
}

/// The bindings of the task at a place, as `Decision::ready_with` gives them by the labels of the run.
pub fn ready(alloc: Global, facts: &Facts, task: u32) -> Result<Option<List<Binding>>, AllocError>
    requires well_formed { IsWellFormed facts.now }
    ensures { IfOk result (λ made. made ≡ ready_bindings facts.now (labels_of facts.now) task) }
{
    let decision = Decision::new(alloc, facts)?;
    let labels = decision.labels(alloc)?;
    decision.ready_with(alloc, labels.as_slice(), task)
}

/// The results of a run's pipeline, as `Decision::results` gives them.
pub fn pipeline_results(alloc: Global, facts: &Facts) -> Result<List<Param>, AllocError>
    requires well_formed { IsWellFormed facts.now }
    ensures { IfOk result (λ results. results ≡ results_of facts.now) }
{
    Decision::new(alloc, facts)?.results(alloc)
}
