ghost use Rattle.std.specs.Prelude.{◌≡◌, ◌++◌, [], ◌∷◌, Some, option_map, option_to_list, IfOk, OnOk};
ghost use Rattle.tk_types.specs.First.{first_if_there, first_of};
ghost use Rattle.tk_types.specs.Place.{◌▸◌};
ghost use Rattle.tk_types.specs.Rejected.{Reads};
ghost use Rattle.tk_validate.specs.Names.{bindings_differ, differ, differ_from, duplicates, env_differs, matrix_names, nothing_inside, params_differ, pipeline_names, task_names, task_spec_names, told_before};

use crate::parts::{check_inlined, check_pipeline, check_task_spec};
use crate::rule::{Checked, Rule, check_all, check_there};
use std::alloc::Global;
use tk_types::{
    Fault, ItemObject, List, Location, Matrix, NameSet, Named, Param, PipelineSpec, PipelineTask,
    Space, Step, TaskSpec, told_name,
};

/// A rule on the entries of a list in which no name stands twice.
trait Entries<T>: Rule<T> {
    ghost use Rattle.std.specs.Prelude.{List, ℕ, Option};

    ghost label: { T → Option (List ℕ) };

    /// The name of an entry, if it has one.
    fn label<'e>(&self, entry: &'e T) -> Option<&'e str>
        ensures { option_map (λ name. name.now) result ≡ label entry.now };
}

/// Entries in which nothing can be wrong.
#[derive(Drop)]
struct Nothing;

impl<P> Rule<P> for Nothing {
    ghost finding = { λ rule. nothing_inside };

    fn check(&self, _alloc: Global, _part: &P, _place: &Location<'_>) -> Checked {
        Ok(())
    }
}

impl<T: Named> Entries<T> for Nothing {
    ghost label = { λ entry. Some (T.name entry) };

    fn label<'e>(&self, entry: &'e T) -> Option<&'e str> {
        Some(entry.name())
    }
}

/// Adds a name, if there is one, and refuses one that is there.
fn add_name<'a>(
    alloc: Global,
    names: &mut NameSet<'a>,
    name: Option<&'a str>,
    place: &Location<'_>,
) -> Checked
    ensures found { Reads (first_if_there (told_before names.old place.now) (option_map (λ n. n.now) name.entry)) tt result }
    ensures added { OnOk result (names.new ≡ names.old ++ option_to_list (option_map (λ n. n.now) name.entry)) }
{
    match name {
        Some(name) if names.add(name)? => Err(told_name(alloc, Fault::DUPLICATE, place, name)),
        _ => Ok(()),
    }
}

/// Refuses the first entry with a name that stands before it, in the list or among some names, or in which something is
/// wrong.
#[tactic(auto, unfolding(crate::specs::Names::differ_from))]
fn check_entries<'a, T, R: Entries<T>>(
    alloc: Global,
    mut names: NameSet<'a>,
    rule: &R,
    entries: &'a [T],
    place: &Location<'_>,
) -> Checked
    ensures { Reads (differ_from names.entry R.label (R.finding rule.now) place.now entries.now) tt result }
{
    for (index, entry) in entries.iter().enumerate() {
        let element = (&*place).at(index as u64);
        add_name(alloc, &mut names, rule.label(entry), &element)?;
        rule.check(alloc, entry, &element)?;
    }
    Ok(())
}

/// The same of a list at a key, with no names before it.
fn check_first<T, R: Entries<T>>(
    alloc: Global,
    rule: &R,
    entries: &List<T>,
    place: &Location<'_>,
    key: &str,
) -> Checked
    ensures { Reads (differ_from [] R.label (R.finding rule.now) (place.now ▸ key.now) entries.now) tt result }
{
    let names = NameSet::new(alloc);
    check_entries(alloc, names, rule, entries.as_slice(), &place.key(key))
}

/// The same of a list in whose entries nothing can be wrong.
#[tactic(auto, using(crate::proofs::InOrder::few_pass))]
fn check_list<T: Named>(
    alloc: Global,
    entries: &List<T>,
    place: &Location<'_>,
    key: &str,
) -> Checked
    ensures { Reads (differ T.name (place.now ▸ key.now) entries.now) tt result }
{
    match entries.as_slice() {
        [] | [_] => Ok(()),
        _ => check_first(alloc, &Nothing, entries, place, key),
    }
}

/// What has names in lists, none of which stands twice in one.
#[derive(Drop)]
struct Apart;

impl Rule<Step> for Apart {
    ghost finding = { λ rule. env_differs };

    fn check(&self, alloc: Global, step: &Step, place: &Location<'_>) -> Checked {
        check_list(alloc, &step.env, place, "env")
    }
}

impl Entries<Step> for Apart {
    ghost label = { λ step. step.name };

    fn label<'e>(&self, step: &'e Step) -> Option<&'e str> {
        match &step.name {
            Some(name) => Some(name.as_str()),
            None => None,
        }
    }
}

impl Rule<TaskSpec> for Apart {
    ghost finding = { λ rule. task_spec_names };

    fn check(&self, alloc: Global, spec: &TaskSpec, place: &Location<'_>) -> Checked {
        check_list(alloc, &spec.params, place, "params")?;
        check_first(alloc, self, &spec.steps, place, "steps")?;
        check_list(alloc, &spec.results, place, "results")?;
        check_first(alloc, &Nothing, &spec.spaces, place, "workspaces")
    }
}

impl Rule<List<Param>> for Apart {
    ghost finding = { λ rule. params_differ };

    fn check(&self, alloc: Global, params: &List<Param>, place: &Location<'_>) -> Checked {
        check_list(alloc, params, place, "params")
    }
}

impl Rule<Matrix> for Apart {
    ghost finding = { λ rule. matrix_names };

    fn check(&self, alloc: Global, matrix: &Matrix, place: &Location<'_>) -> Checked {
        check_list(alloc, &matrix.params, place, "params")?;
        check_all(alloc, self, matrix.include.as_slice(), place, "include")
    }
}

impl Rule<PipelineTask> for Apart {
    ghost finding = { λ rule. task_names };

    fn check(&self, alloc: Global, task: &PipelineTask, place: &Location<'_>) -> Checked {
        check_inlined(alloc, self, &task.source, place)?;
        check_list(alloc, &task.params, place, "params")?;
        check_there(alloc, self, &task.matrix, place, "matrix")?;
        check_list(alloc, &task.spaces, place, "workspaces")
    }
}

impl Entries<PipelineTask> for Apart {
    ghost label = { λ task. Some task.name };

    fn label<'e>(&self, task: &'e PipelineTask) -> Option<&'e str> {
        Some(task.name.as_str())
    }
}

impl Rule<PipelineSpec> for Apart {
    ghost finding = { λ rule. pipeline_names };

    #[tactic(auto, unfolding(crate::specs::Names::pipeline_names))]
    fn check(&self, alloc: Global, spec: &PipelineSpec, place: &Location<'_>) -> Checked {
        check_list(alloc, &spec.params, place, "params")?;
        check_first(alloc, self, &spec.tasks, place, "tasks")?;
        let names = NameSet::of(alloc, spec.tasks.as_slice())?;
        let lasts = spec.finally.as_slice();
        check_entries(alloc, names, self, lasts, &place.key("finally"))?;
        check_list(alloc, &spec.results, place, "results")?;
        check_first(alloc, &Nothing, &spec.spaces, place, "workspaces")
    }
}

/// Refuses the first parameter or workspace that is given to a run twice.
fn check_given(
    alloc: Global,
    params: &List<Param>,
    bindings: &List<Space>,
    place: &Location<'_>,
) -> Checked
    ensures { Reads (first_of (params_differ place.now params.now ∷ bindings_differ place.now bindings.now ∷ [])) tt result }
{
    check_list(alloc, params, place, "params")?;
    check_list(alloc, bindings, place, "workspaces")
}

/// Refuses the first name that stands twice in a list of an object, or a parameter or workspace that is given twice.
pub fn check_names(alloc: Global, object: &ItemObject, place: &Location<'_>) -> Checked
    ensures { Reads (duplicates place.now object.now) tt result }
{
    check_pipeline(alloc, &Apart, object, place)?;
    check_task_spec(alloc, &Apart, object, place)?;
    match object {
        ItemObject::TaskRun(run) => check_given(alloc, &run.params, &run.bindings, place),
        ItemObject::PipelineRun(run) => check_given(alloc, &run.params, &run.bindings, place),
        _ => Ok(()),
    }
}
