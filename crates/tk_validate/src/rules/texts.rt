ghost use Rattle.std.specs.Prelude.{◌≡◌, false};
ghost use Rattle.tk_types.specs.Rejected.{Reads};
ghost use Rattle.tk_validate.specs.Parts.{given_params};
ghost use Rattle.tk_validate.specs.Texts.{alone_texts, inlined_texts, pipeline_texts, runs_after_known, task_texts, texts};
ghost use Rattle.tk_validate.specs.TextsBy.{texts_by};

use crate::parts::{check_inlined, check_pipeline, check_task_spec, check_tasks};
use crate::rule::{Checked, Rule, check_all, check_there};
use crate::rules::step_texts::check_step_texts;
use crate::rules::text_rule::InScope;
use crate::seen::Seen;
use crate::seen::context::{InlinedContext, pipeline_context, task_context};
use crate::seen::layers::Layers;
use crate::seen::outside::{add_given, pipeline_seen};
use crate::seen::scope::LayeredNames;
use crate::seen::task_seen::given_by_task;
use std::alloc::Global;
use tk_types::{
    Fault, FirstNamed, ItemObject, List, Location, NameSet, Param, PipelineSpec, PipelineTask,
    TaskSpec, Text, told_name,
};

/// The texts of a spec inlined in a task, which see what the task gives and what its pipeline sees.
#[derive(Drop)]
struct InTask<'s> {
    outer: &'s FirstNamed<'s, Seen>,
    context: &'s InlinedContext,
    task: &'s PipelineTask,
}

impl<'s> Rule<TaskSpec> for InTask<'s> {
    ghost finding = { λ rule. inlined_texts rule.outer.now rule.task.now };

    fn check(&self, alloc: Global, spec: &TaskSpec, place: &Location<'_>) -> Checked {
        let given = given_by_task(alloc, self.outer, self.task)?;
        let middle = FirstNamed::new(alloc, given.as_slice())?;
        let words = self.context.words(alloc)?;
        check_step_texts(alloc, spec, &middle, self.outer, words, place)
    }
}

/// The texts of a pipeline task, and the names after which it runs.
#[derive(Drop)]
struct OfTask<'s> {
    scope: InScope<'s>,
    outer: &'s FirstNamed<'s, Seen>,
    context: &'s InlinedContext,
}

impl<'s> Rule<Text> for OfTask<'s> {
    ghost finding = { λ rule. runs_after_known rule.scope.firsts.now };

    fn check(&self, alloc: Global, name: &Text, place: &Location<'_>) -> Checked {
        if self.scope.firsts.contains(name.as_str()) {
            return Ok(());
        }
        Err(told_name(alloc, Fault::UNKNOWN_TASK, place, name.as_str()))
    }
}

impl<'s> Rule<PipelineTask> for OfTask<'s> {
    ghost finding = { λ rule. task_texts rule.scope.firsts.now rule.outer.now rule.scope.names.now false };

    fn check(&self, alloc: Global, task: &PipelineTask, place: &Location<'_>) -> Checked {
        let inlined = InTask {
            outer: self.outer,
            context: self.context,
            task,
        };
        check_inlined(alloc, &inlined, &task.source, place)?;
        check_all(alloc, &self.scope, task.params.as_slice(), place, "params")?;
        check_there(alloc, &self.scope, &task.matrix, place, "matrix")?;
        check_all(alloc, self, task.run_after.as_slice(), place, "runAfter")?;
        check_all(alloc, &self.scope, task.when.as_slice(), place, "when")
    }
}

/// Refuses the first text of a pipeline with which something is wrong, by what texts see and name.
fn check_by_names<'x>(
    alloc: Global,
    outer: &'x FirstNamed<'_, Seen>,
    words: &'x FirstNamed<'_, Text>,
    firsts: &'x NameSet<'_>,
    tasks: &'x NameSet<'_>,
    spec: &PipelineSpec,
    place: &Location<'_>,
) -> Checked
    ensures { Reads (texts_by outer.now words.now firsts.now tasks.now place.now spec.now) tt result }
{
    let none = FirstNamed::new(alloc, &[])?;
    let paths = FirstNamed::new(alloc, &[])?;
    let names = LayeredNames {
        seen: Layers::new(&none, &none, &*outer),
        words: &*words,
        paths: &paths,
        tasks: &*tasks,
        results: true,
        finally_results: false,
    };
    let rule = OfTask {
        scope: InScope {
            names: &names,
            firsts: &*firsts,
        },
        outer: &*outer,
        context: &InlinedContext::new(alloc)?,
    };
    check_tasks(alloc, &rule, spec, place)?;
    let names = LayeredNames {
        seen: Layers::new(&none, &none, &*outer),
        words: &*words,
        paths: &paths,
        tasks: &*tasks,
        results: true,
        finally_results: true,
    };
    let rule = InScope {
        names: &names,
        firsts: &*firsts,
    };
    check_all(alloc, &rule, spec.results.as_slice(), place, "results")
}

/// Texts that see what is given to a run.
#[derive(Drop)]
struct Given<'g> {
    params: &'g [Param],
}

impl<'g> Rule<PipelineSpec> for Given<'g> {
    ghost finding = { λ rule. pipeline_texts rule.params.now };

    #[tactic(auto, unfolding(crate::specs::Texts::pipeline_texts))]
    fn check(&self, alloc: Global, spec: &PipelineSpec, place: &Location<'_>) -> Checked {
        let seen = pipeline_seen(alloc, self.params, spec)?;
        let outer = FirstNamed::new(alloc, seen.as_slice())?;
        let words = pipeline_context(alloc)?;
        let words = FirstNamed::new(alloc, words.as_slice())?;
        let firsts = NameSet::of(alloc, spec.tasks.as_slice())?;
        let mut tasks = NameSet::of(alloc, spec.tasks.as_slice())?;
        tasks.add_all(spec.finally.as_slice())?;
        check_by_names(alloc, &outer, &words, &firsts, &tasks, spec, place)
    }
}

impl<'g> Rule<TaskSpec> for Given<'g> {
    ghost finding = { λ rule. alone_texts rule.params.now };

    fn check(&self, alloc: Global, spec: &TaskSpec, place: &Location<'_>) -> Checked {
        let mut seen = List::new(alloc);
        add_given(alloc, &mut seen, self.params)?;
        let outer = FirstNamed::new(alloc, seen.as_slice())?;
        let none = FirstNamed::new(alloc, &[])?;
        let context = task_context(alloc)?;
        check_step_texts(alloc, spec, &none, &outer, context, place)
    }
}

/// The parameters that are given to a run.
fn given_params(object: &ItemObject) -> &[Param]
    ensures { result.now ≡ given_params object.now }
{
    match object {
        ItemObject::TaskRun(run) => run.params.as_slice(),
        ItemObject::PipelineRun(run) => run.params.as_slice(),
        _ => &[],
    }
}

/// Refuses the first text of an object, or name in `runAfter`, with which something is wrong: a text has a reading,
/// names what it may, and uses it by its type (Tekton, Pipelines, Variable Substitutions Supported by Tasks and
/// Pipelines).
pub fn check_texts(alloc: Global, object: &ItemObject, place: &Location<'_>) -> Checked
    ensures { Reads (texts place.now object.now) tt result }
{
    let rule = Given {
        params: given_params(object),
    };
    check_pipeline(alloc, &rule, object, place)?;
    check_task_spec(alloc, &rule, object, place)
}
