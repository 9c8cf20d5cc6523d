ghost use Rattle.std.specs.Prelude.{◌≡◌, ◌||◌, [], All, Some, IfOk};
ghost use Rattle.std.specs.List.{list_any};
ghost use Rattle.tk_types.specs.declared.task.PipelineTask.{PipelineTask as TaskRecord};
ghost use Rattle.tk_types.specs.declared.task.TaskBody.{TaskBody as BodyRecord};
ghost use Rattle.tk_bind.specs.Readings.{ReadsParams, ReadsPipelineTask, ReadsTaskSpec};
ghost use Rattle.tk_resolve.specs.Due.{task_dues};
ghost use Rattle.tk_resolve.specs.Misuse.{any_lacks};
ghost use Rattle.tk_resolve.specs.Run.{env_with, results_lack, task_lacks, task_words};
ghost use Rattle.tk_resolve.specs.TaskRun.{spec_of};
ghost use Rattle.tk_resolve.specs.Values.{all_values, has_missing};

use crate::beside::all_fit;
use crate::due::{result_dues, task_dues};
use crate::lookup::Earlier;
use crate::misuse::Declarer;
use crate::questions::any_lacks_value;
use crate::spec::pipeline_name;
use crate::values::has_missing;
use std::alloc::{AllocError, Global};
use std::marker::Model;
use tk_bind::{EnvIndex, Lookup};
use tk_early::RunWords;
use tk_types::{FirstNamed, Pair, Param, PipelineSpec, PipelineTask, RunObject};

/// A run with its Pipeline, whose values are found by their names. A contract sees the run and the Pipeline.
#[derive(Drop)]
pub(crate) struct Admission<'a> {
    run: &'a RunObject,
    pipeline: &'a PipelineSpec,
    values: EnvIndex<'a, 'a, 'a>,
    words: RunWords<'a>,
}

impl<'a> Model for Admission<'a> {
    ghost use Rattle.std.specs.Prelude.{◌≡◌, []};
    ghost use Rattle.tk_types.specs.declared.object.PipelineSpec.{PipelineSpec};
    ghost use Rattle.tk_types.specs.declared.object.RunObject.{RunObject};
    ghost use Rattle.tk_resolve.specs.Run.{env_with, pipeline_name};

    ghost Value = { RunObject × PipelineSpec };

    ghost view = { λ admission. (admission.run.now, admission.pipeline.now) };

    ghost invariant = { λ admission. (admission.values ≡ env_with admission.run.now admission.pipeline.now [])
        × (admission.words ≡ (admission.run.now.name, pipeline_name admission.run.now admission.run.now.source)) };
}

/// Whether a text of a task takes of a parameter what isn't there or isn't due.
fn texts_lack(alloc: Global, lookup: &Lookup, task: &PipelineTask) -> Result<bool, AllocError>
    requires { ReadsPipelineTask task.now }
    ensures { IfOk result (λ lack. lack ≡ any_lacks lookup.now [] (task_dues task.now)) }
{
    let spared = FirstNamed::new(alloc, &[])?;
    let texts = task_dues(alloc, task)?;
    any_lacks_value(alloc, lookup, &spared, texts.as_slice())
}

impl<'a> Admission<'a> {
    /// A run with its Pipeline, whose parameters take these values. The only error is want of memory.
    pub(crate) fn new(
        alloc: Global,
        run: &'a RunObject,
        pipeline: &'a PipelineSpec,
        values: &'a [Param],
    ) -> Result<Self, AllocError>
        requires { values.now ≡ all_values pipeline.now.params run.now.params }
        ensures { IfOk result (λ admission. admission ≡ (run.now, pipeline.now)) }
    {
        Ok(Admission {
            run,
            pipeline,
            words: RunWords::new(alloc, &run.name, pipeline_name(run))?,
            values: EnvIndex::new(alloc, values, &[], &[])?,
        })
    }

    /// The values, with these words.
    fn lookup<'s>(&'s self, words: &'s [Pair]) -> Lookup<'s, 'a, 'a, 'a, 's>
        ensures { result ≡ env_with self.now.0 self.now.1 words.now }
    {
        Lookup::new(&self.values, words)
    }

    /// Whether a text of a task takes of a parameter what isn't there or isn't due, or a known combination doesn't fit.
    fn task_lacks(
        &self,
        alloc: Global,
        earlier: &Earlier<'_>,
        declarer: &Declarer<'_>,
    ) -> Result<bool, AllocError>
        requires source { spec_of earlier.now declarer.now.0.source ≡ Some declarer.now.1.spec }
        requires task { ReadsPipelineTask declarer.now.0 }
        requires body { ReadsTaskSpec declarer.now.1.spec }
        ensures { IfOk result (λ lacks. lacks ≡ task_lacks self.now.0 self.now.1 declarer.now) }
    {
        let task = declarer.task();
        let words = self.words.of(alloc, task)?;
        let lookup = self.lookup(words.as_slice());
        if texts_lack(alloc, &lookup, task)? {
            return Ok(true);
        }
        Ok(!all_fit(alloc, earlier, &lookup, task, declarer.body())?)
    }

    /// Whether this holds of some task.
    fn tasks_lack(
        &self,
        alloc: Global,
        earlier: &Earlier<'_>,
        tasks: &[Declarer<'_>],
    ) -> Result<bool, AllocError>
        requires sources { All (λ t. spec_of earlier.now t.0.source ≡ Some t.1.spec) tasks.now }
        requires tasks { All (λ t. ReadsPipelineTask t.0) tasks.now }
        requires bodies { All (λ t. ReadsTaskSpec t.1.spec) tasks.now }
        ensures { IfOk result (λ lack. lack ≡ list_any (task_lacks self.now.0 self.now.1) tasks.now) }
    {
        for declarer in tasks {
            if self.task_lacks(alloc, earlier, declarer)? {
                return Ok(true);
            }
        }
        Ok(false)
    }

    /// Whether a text of the Pipeline's results takes of a parameter what isn't there or isn't due.
    fn results_lack(&self, alloc: Global) -> Result<bool, AllocError>
        requires { ReadsParams self.now.1.results }
        ensures { IfOk result (λ lack. lack ≡ results_lack self.now.0 self.now.1) }
    {
        let lookup = self.lookup(&[]);
        let spared = FirstNamed::new(alloc, &[])?;
        let texts = result_dues(alloc, self.pipeline.results.as_slice())?;
        any_lacks_value(alloc, &lookup, &spared, texts.as_slice())
    }

    /// Whether a needed parameter is missing. The only error is want of memory.
    pub(crate) fn lacks_parameter(
        &self,
        alloc: Global,
        earlier: &Earlier<'_>,
        tasks: &[Declarer<'_>],
    ) -> Result<bool, AllocError>
        requires sources { All (λ t. spec_of earlier.now t.0.source ≡ Some t.1.spec) tasks.now }
        requires tasks { All (λ t. ReadsPipelineTask t.0) tasks.now }
        requires bodies { All (λ t. ReadsTaskSpec t.1.spec) tasks.now }
        requires results { ReadsParams self.now.1.results }
        ensures { IfOk result (λ lacks. lacks ≡ (has_missing self.now.1.params self.now.0.params || list_any (task_lacks self.now.0 self.now.1) tasks.now || results_lack self.now.0 self.now.1)) }
    {
        let wanted = self.pipeline.params.as_slice();
        if has_missing(alloc, wanted, self.run.params.as_slice())? {
            return Ok(true);
        }
        if self.tasks_lack(alloc, earlier, tasks)? {
            return Ok(true);
        }
        self.results_lack(alloc)
    }
}
