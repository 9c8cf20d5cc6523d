ghost use Rattle.std.specs.Prelude.{◌≡◌};
ghost use Rattle.tk_types.specs.Rejected.{Reads};
ghost use Rattle.tk_validate.specs.Parts.{on_each_task};
ghost use Rattle.tk_validate.specs.Finally.{finally_rules, names_no, names_result_of, names_status, pipeline_obeys, refused_in_own, runs_free, task_obeys};

use crate::named::read;
use crate::parts::{check_inlined, check_pipeline, check_task_spec};
use crate::rule::{Checked, Rule, check_all, check_there};
use crate::sited::TextRule;
use std::alloc::{AllocError, Global};
use tk_bind::is_status;
use tk_graph::task_of;
use tk_types::{Fault, ItemObject, Location, NameSet, PipelineSpec, PipelineTask, refusal};
use tk_vars::{Reference, ReferenceTest, any_in_pieces, names_no_task};

/// References to a status.
#[derive(Drop)]
struct Status;

impl ReferenceTest for Status {
    ghost is_met = { λ test. names_status };

    fn passes_over(&self, text: &str) -> bool {
        names_no_task(text)
    }

    fn meets(&self, _alloc: Global, reference: &Reference<'_>) -> Result<bool, AllocError> {
        Ok(is_status(reference.parts.as_slice()))
    }
}

/// Whether a reference is to a result of one of these tasks.
fn names_result_of(lasts: &NameSet<'_>, reference: &Reference<'_>) -> bool
    ensures { result ≡ names_result_of lasts.now reference.now }
{
    match task_of(reference.parts.as_slice()) {
        Some(task) => lasts.contains(task),
        None => false,
    }
}

/// References to a result of one of the tasks of `finally`, and where it may not be named to a status.
#[derive(Drop)]
struct OfFinally<'n, 'a> {
    lasts: &'n NameSet<'a>,
    may_name_status: bool,
}

impl<'n, 'a> ReferenceTest for OfFinally<'n, 'a> {
    ghost is_met = { λ test. refused_in_own test.lasts.now test.may_name_status };

    fn passes_over(&self, text: &str) -> bool {
        names_no_task(text)
    }

    fn meets(&self, _alloc: Global, reference: &Reference<'_>) -> Result<bool, AllocError> {
        if self.may_name_status {
            return Ok(names_result_of(self.lasts, reference));
        }
        Ok(is_status(reference.parts.as_slice()) || names_result_of(self.lasts, reference))
    }
}

/// Texts that name nothing of a kind.
#[derive(Drop)]
struct NamesNo<K> {
    kind: K,
}

impl<K: ReferenceTest> TextRule for NamesNo<K> {
    ghost in_text = { λ rule. names_no (K.is_met rule.kind) };

    #[tactic(auto, unfolding(crate::specs::Finally::names_no))]
    fn check_text(&self, alloc: Global, _whole: bool, text: &str, place: &Location<'_>) -> Checked {
        if self.kind.passes_over(text) {
            return Ok(());
        }
        let Some(pieces) = read(alloc, text)? else {
            return Ok(());
        };
        if any_in_pieces(alloc, &self.kind, pieces.as_slice())? {
            return Err(refusal(alloc, Fault::FINALLY_RULE, place));
        }
        Ok(())
    }
}

/// Refuses a task of `finally` that runs after another.
fn check_runs_free(
    alloc: Global,
    is_last: bool,
    task: &PipelineTask,
    place: &Location<'_>,
) -> Checked
    ensures { Reads (runs_free is_last place.now task.now) tt result }
{
    match task.run_after.as_slice() {
        [_, ..] if is_last => Err(refusal(alloc, Fault::FINALLY_RULE, &place.key("runAfter"))),
        _ => Ok(()),
    }
}

/// Tasks, by what they name of a status and of these tasks of `finally`, and by when they run.
#[derive(Drop)]
struct Obeying<'n, 'a> {
    lasts: &'n NameSet<'a>,
    is_last: bool,
}

impl<'n, 'a> Rule<PipelineTask> for Obeying<'n, 'a> {
    ghost finding = { λ rule. task_obeys rule.lasts.now rule.is_last };

    fn check(&self, alloc: Global, task: &PipelineTask, place: &Location<'_>) -> Checked {
        let own = NamesNo {
            kind: OfFinally {
                lasts: self.lasts,
                may_name_status: self.is_last,
            },
        };
        let either = NamesNo {
            kind: OfFinally {
                lasts: self.lasts,
                may_name_status: false,
            },
        };
        check_inlined(alloc, &either, &task.source, place)?;
        check_all(alloc, &own, task.params.as_slice(), place, "params")?;
        check_there(alloc, &either, &task.matrix, place, "matrix")?;
        check_runs_free(alloc, self.is_last, task, place)?;
        check_all(alloc, &own, task.when.as_slice(), place, "when")
    }
}

/// The same of a pipeline's tasks.
fn check_tasks(
    alloc: Global,
    lasts: &NameSet<'_>,
    spec: &PipelineSpec,
    place: &Location<'_>,
) -> Checked
    ensures { Reads (on_each_task (task_obeys lasts.now) place.now spec.now) tt result }
{
    let first = Obeying {
        lasts,
        is_last: false,
    };
    check_all(alloc, &first, spec.tasks.as_slice(), place, "tasks")?;
    let last = Obeying {
        lasts,
        is_last: true,
    };
    check_all(alloc, &last, spec.finally.as_slice(), place, "finally")
}

/// What `finally` allows.
#[derive(Drop)]
struct Finally;

impl Rule<PipelineSpec> for Finally {
    ghost finding = { λ rule. pipeline_obeys };

    #[tactic(auto, unfolding(crate::specs::Finally::pipeline_obeys))]
    fn check(&self, alloc: Global, spec: &PipelineSpec, place: &Location<'_>) -> Checked {
        let lasts = NameSet::of(alloc, spec.finally.as_slice())?;
        check_tasks(alloc, &lasts, spec, place)?;
        let rule = NamesNo { kind: Status };
        check_all(alloc, &rule, spec.results.as_slice(), place, "results")
    }
}

/// Refuses the first thing in an object that `finally` doesn't allow: a status or a result of a task of `finally` named
/// where it may not be, or a task of `finally` that runs after another.
pub fn check_finally(alloc: Global, object: &ItemObject, place: &Location<'_>) -> Checked
    ensures { Reads (finally_rules place.now object.now) tt result }
{
    check_pipeline(alloc, &Finally, object, place)?;
    let none = NameSet::new(alloc);
    let rule = NamesNo {
        kind: OfFinally {
            lasts: &none,
            may_name_status: false,
        },
    };
    check_task_spec(alloc, &rule, object, place)
}
