ghost use Rattle.std.specs.Prelude.{◌≡◌, false, ◌++◌, map, filter, filter_map, codes, is_some, option_map, IfOk, OnOk};
ghost use Rattle.tk_types.specs.First.{first_if_there, first_of};
ghost use Rattle.tk_types.specs.Place.{◌▸◌};
ghost use Rattle.tk_types.specs.Rejected.{Reads};
ghost use Rattle.tk_vars.specs.Target.{referenced};
ghost use Rattle.tk_validate.specs.Conflicts.{apart, conflicts, entry_finding, include_finding, list_finding, matrix_finding, matrixed, may_be_list, pipeline_conflicts, taken_in_part, takes_whole, task_conflicts};
ghost use Rattle.tk_validate.specs.Names.{names_of};

use crate::named::{read, reads_no_task};
use crate::parts::{check_pipeline, check_tasks};
use crate::rule::{Checked, Rule, check_all};
use crate::sited::TextRule;
use std::alloc::{AllocError, Global};
use tk_graph::task_of;
use tk_types::{
    Fault, FirstNamed, ItemObject, List, Location, Matrix, NameSet, Param, PipelineSpec,
    PipelineTask, Value, told_name,
};
use tk_vars::{Piece, Reference, whole_of};

/// The task of these of which a reference takes a result other than as `[*]`.
fn taken_of<'p, 't>(names: &NameSet<'_>, reference: &'p Reference<'t>) -> Option<&'p str>
    ensures { option_map (λ task. task.now) result ≡ taken_in_part names.now reference.now }
{
    if reference.parts.ends_with_star() {
        return None;
    }
    match task_of(reference.parts.as_slice()) {
        Some(task) if names.contains(task) => Some(task),
        _ => None,
    }
}

/// The first such task of some pieces.
fn first_taken<'p, 't>(names: &NameSet<'_>, pieces: &'p [Piece<'t>]) -> Option<&'p str>
    ensures { option_map (λ task. task.now) result ≡ first_of (map (taken_in_part names.now) (filter_map referenced pieces.now)) }
{
    for piece in pieces {
        if let Piece::Ref(reference) = piece
            && let Some(task) = taken_of(names, reference)
        {
            return Some(task);
        }
    }
    None
}

/// Texts that take the results of these tasks as `[*]` alone.
#[derive(Drop)]
struct TakesWhole<'n, 'a> {
    names: &'n NameSet<'a>,
}

impl<'n, 'a> TextRule for TakesWhole<'n, 'a> {
    ghost in_text = { λ rule. takes_whole rule.names.now };

    #[tactic(auto, unfolding(crate::specs::Conflicts::takes_whole))]
    fn check_text(&self, alloc: Global, _whole: bool, text: &str, place: &Location<'_>) -> Checked {
        if reads_no_task(text) {
            return Ok(());
        }
        let Some(pieces) = read(alloc, text)? else {
            return Ok(());
        };
        match first_taken(self.names, pieces.as_slice()) {
            Some(task) => Err(told_name(alloc, Fault::MATRIX_CONFLICT, place, task)),
            None => Ok(()),
        }
    }
}

/// Whether a value is a list, or may be one, as a `[*]` that is a whole text.
fn may_be_list(alloc: Global, value: &Value) -> Result<bool, AllocError>
    ensures { IfOk result (λ may. may ≡ may_be_list value.now) }
{
    match value {
        Value::Str(text) => match read(alloc, text.as_str())? {
            Some(pieces) => Ok(whole_of(pieces.as_slice()).is_some()),
            None => Ok(false),
        },
        Value::Arr(_) => Ok(true),
        Value::Obj(_) => Ok(false),
    }
}

/// Refuses a parameter of a matrix with the name of one of the task's own.
fn check_apart(
    alloc: Global,
    own: &FirstNamed<'_, Param>,
    param: &Param,
    place: &Location<'_>,
) -> Checked
    ensures { Reads (apart own.now place.now param.now) tt result }
{
    if own.get(param.name.as_str()).is_some() {
        return Err(told_name(alloc, Fault::MATRIX_CONFLICT, place, param.name.as_str()));
    }
    Ok(())
}

/// A matrix beside the task's own parameters and what texts take of some tasks.
#[derive(Drop)]
struct Beside<'n> {
    takes: TakesWhole<'n, 'n>,
    own: &'n FirstNamed<'n, Param>,
}

impl<'n> Rule<Param> for Beside<'n> {
    ghost finding = { λ rule. entry_finding rule.takes.names.now rule.own.now };

    fn check(&self, alloc: Global, param: &Param, place: &Location<'_>) -> Checked {
        check_apart(alloc, self.own, param, place)?;
        self.takes.check(alloc, param, place)
    }
}

/// Its parameters, whose values are lists.
#[derive(Drop)]
struct Lists<'n> {
    beside: &'n Beside<'n>,
}

impl<'n> Rule<Param> for Lists<'n> {
    ghost finding = { λ rule. list_finding rule.beside.now.takes.names.now rule.beside.now.own.now };

    fn check(&self, alloc: Global, param: &Param, place: &Location<'_>) -> Checked {
        check_apart(alloc, self.beside.own, param, place)?;
        if !may_be_list(alloc, &param.value)? {
            let value = place.key("value");
            return Err(told_name(alloc, Fault::MATRIX_CONFLICT, &value, param.name.as_str()));
        }
        self.beside.takes.check(alloc, param, place)
    }
}

impl<'n> Rule<List<Param>> for Beside<'n> {
    ghost finding = { λ rule. include_finding rule.takes.names.now rule.own.now };

    fn check(&self, alloc: Global, params: &List<Param>, place: &Location<'_>) -> Checked {
        check_all(alloc, self, params.as_slice(), place, "params")
    }
}

impl<'n> Rule<Matrix> for Beside<'n> {
    ghost finding = { λ rule. matrix_finding rule.takes.names.now rule.own.now };

    fn check(&self, alloc: Global, matrix: &Matrix, place: &Location<'_>) -> Checked {
        let lists = Lists { beside: self };
        check_all(alloc, &lists, matrix.params.as_slice(), place, "params")?;
        check_all(alloc, self, matrix.include.as_slice(), place, "include")
    }
}

/// Refuses what conflicts in a task's matrix, if it has one.
fn check_matrix(
    alloc: Global,
    names: &NameSet<'_>,
    task: &PipelineTask,
    place: &Location<'_>,
) -> Checked
    ensures { Reads (first_if_there (matrix_finding names.now task.now.params (place.now ▸ codes "matrix")) task.now.matrix) tt result }
{
    let Some(matrix) = &task.matrix else {
        return Ok(());
    };
    let own = FirstNamed::new(alloc, task.params.as_slice())?;
    let takes = TakesWhole { names };
    Beside { takes, own: &own }.check(alloc, matrix, &place.key("matrix"))
}

impl<'n, 'a> Rule<PipelineTask> for TakesWhole<'n, 'a> {
    ghost finding = { λ rule. task_conflicts rule.names.now false };

    fn check(&self, alloc: Global, task: &PipelineTask, place: &Location<'_>) -> Checked {
        check_all(alloc, self, task.params.as_slice(), place, "params")?;
        check_matrix(alloc, self.names, task, place)?;
        check_all(alloc, self, task.when.as_slice(), place, "when")
    }
}

/// Adds the names of the tasks that have a matrix.
fn add_matrixed<'a>(names: &mut NameSet<'a>, tasks: &'a [PipelineTask]) -> Result<(), AllocError>
    ensures { OnOk result (names.new ≡ names.old ++ names_of (filter (λ t. is_some t.matrix) tasks.now)) }
{
    for task in tasks {
        if task.matrix.is_some() {
            names.add(task.name.as_str())?;
        }
    }
    Ok(())
}

/// The names of a pipeline's tasks that have a matrix.
fn matrixed<'a>(alloc: Global, spec: &'a PipelineSpec) -> Result<NameSet<'a>, AllocError>
    ensures { IfOk result (λ names. names ≡ matrixed spec.now) }
{
    let mut names = NameSet::new(alloc);
    add_matrixed(&mut names, spec.tasks.as_slice())?;
    add_matrixed(&mut names, spec.finally.as_slice())?;
    Ok(names)
}

/// The matrices of a pipeline: beside a task's own parameters, by what their values may be, and by what is taken of a
/// matrixed task's results.
#[derive(Drop)]
struct Matrices;

impl Rule<PipelineSpec> for Matrices {
    ghost finding = { λ rule. pipeline_conflicts };

    #[tactic(auto, unfolding(crate::specs::Conflicts::pipeline_conflicts))]
    fn check(&self, alloc: Global, spec: &PipelineSpec, place: &Location<'_>) -> Checked {
        let names = matrixed(alloc, spec)?;
        let rule = TakesWhole { names: &names };
        check_tasks(alloc, &rule, spec, place)?;
        check_all(alloc, &rule, spec.results.as_slice(), place, "results")
    }
}

/// Refuses the first conflict of the matrices of an object's pipeline.
pub fn check_conflicts(alloc: Global, object: &ItemObject, place: &Location<'_>) -> Checked
    ensures { Reads (conflicts place.now object.now) tt result }
{
    check_pipeline(alloc, &Matrices, object, place)
}
