ghost use Rattle.std.specs.Prelude.{◌≡◌, ◌<◌, ◌+◌, ◌^◌, ◌++◌, ℕ, [], flat_map, length, map, take, option_and_then, option_copied, option_map, IfOk, OnOk};
ghost use Rattle.std.specs.List.{cons_option, enumerate_from};
ghost use Rattle.tk_types.specs.declared.run.Facts.{Facts as FactsRecord};
ghost use Rattle.tk_types.specs.declared.value.Value.TheVariants.{Arr};
ghost use Rattle.tk_types.specs.Lists.{all_some};
ghost use Rattle.tk_types.specs.Value.{value_named};
ghost use Rattle.tk_bind.specs.Substitute.{as_text};
ghost use Rattle.tk_verdict.specs.Facts.{all_ended, children_of, is_good, task_total};
ghost use Rattle.tk_verdict.specs.Available.{available_of, available_results, emitted as results_of};
ghost use Rattle.tk_verdict.specs.GivenResults.{firsts_given, given, lists_given};

use crate::emitted::{EmittedResult, all_emitted, emitted, indexes};
use crate::groups::Groups;
use crate::outcome::ended_well;
use crate::sorted::by_index;
use std::alloc::{AllocError, Global};
use tk_bind::Given;
use tk_types::{Child, Facts, FirstNamed, List, Param, PipelineTask, Text, TryCopy, Value};

/// Adds a result, where there is one.
fn add_given(made: &mut List<Given>, given: Option<Given>) -> Result<(), AllocError>
    ensures { OnOk result (made.new ≡ made.old ++ cons_option given []) }
{
    if let Some(given) = given {
        made.push(given)?;
    }
    Ok(())
}

/// A result of a task without a matrix, with the first value that a child emitted under its name.
fn first_given(
    alloc: Global,
    task: &Text,
    index: &FirstNamed<EmittedResult>,
    name: &Text,
) -> Result<Option<Given>, AllocError>
    ensures { IfOk result (λ made. made ≡ option_map (given task.now name.now) (value_named name.now (map (λ result. result.param.now) index.now))) }
{
    match index.get(name.as_str()) {
        Some(first) => Ok(Some(Given {
            task: task.copy(alloc)?,
            name: name.copy(alloc)?,
            value: first.param.value.copy(alloc)?,
        })),
        None => Ok(None),
    }
}

/// Adds the available results of a task without a matrix, whose children are good, in order of index.
fn add_first(
    alloc: Global,
    made: &mut List<Given>,
    task: &Text,
    children: &[&Child],
) -> Result<(), AllocError>
    ensures { OnOk result (made.new ≡ made.old ++ firsts_given task.now (map (λ child. child.now) children.now)) }
{
    let all = all_emitted(alloc, children)?;
    let index = FirstNamed::new(alloc, all.as_slice())?;
    for result in all.as_slice() {
        let given = first_given(alloc, task, &index, &result.param.name)?;
        add_given(made, given)?;
    }
    Ok(())
}

/// The text of a name among a child's results.
fn text_named<'a>(index: &FirstNamed<'a, Param>, name: &str) -> Option<&'a Text>
    ensures { option_copied result ≡ option_and_then as_text (value_named name.now index.now) }
{
    match index.get(name) {
        Some(param) => match &param.value {
            Value::Str(text) => Some(text),
            _ => None,
        },
        None => None,
    }
}

/// The text of a name of each child, where each has one.
fn texts_named(
    alloc: Global,
    indexes: &[FirstNamed<Param>],
    name: &str,
) -> Result<Option<List<Text>>, AllocError>
    ensures { IfOk result (λ texts. texts ≡ all_some (map (λ params. option_and_then as_text (value_named name.now params)) indexes.now)) }
{
    let mut texts = List::new(alloc);
    for index in indexes {
        match text_named(index, name) {
            Some(text) => texts.push(text.copy(alloc)?)?,
            None => return Ok(None),
        }
    }
    Ok(Some(texts))
}

/// A result of a task with a matrix, with the text that each child emitted under its name.
fn list_given(
    alloc: Global,
    task: &Text,
    indexes: &[FirstNamed<Param>],
    name: &Text,
) -> Result<Option<Given>, AllocError>
    ensures { IfOk result (λ made. made ≡ option_map (given task.now name.now) (option_map Arr (all_some (map (λ params. option_and_then as_text (value_named name.now params)) indexes.now)))) }
{
    match texts_named(alloc, indexes, name.as_str())? {
        Some(texts) => Ok(Some(Given {
            task: task.copy(alloc)?,
            name: name.copy(alloc)?,
            value: Value::Arr(texts),
        })),
        None => Ok(None),
    }
}

/// The results that the first child emitted.
fn of_first<'a>(children: &[&'a Child]) -> &'a [Param]
    ensures { result.now ≡ flat_map results_of (take 1 (map (λ child. child.now) children.now)) }
{
    match children.first() {
        Some(child) => emitted(*child),
        None => &[],
    }
}

/// Adds the available results of a task with a matrix, whose children are good, in order of index.
fn add_lists(
    alloc: Global,
    made: &mut List<Given>,
    task: &Text,
    children: &[&Child],
) -> Result<(), AllocError>
    ensures { OnOk result (made.new ≡ made.old ++ lists_given task.now (map (λ child. child.now) children.now)) }
{
    let indexes = indexes(alloc, children)?;
    for param in of_first(children) {
        let given = list_given(alloc, task, indexes.as_slice(), &param.name)?;
        add_given(made, given)?;
    }
    Ok(())
}

/// Whether the task has children and all are good.
fn are_good(task: &PipelineTask, children: &[&Child]) -> bool
    ensures { result ≡ all_ended (is_good task.now) (map (λ child. child.now) children.now) }
{
    for child in children {
        if !ended_well(*child, task.ignore_failure) {
            return false;
        }
    }
    !children.is_empty()
}

/// Adds the available results of a task with these children: none where not all are good. The only error is want of memory.
pub fn add_of_task(
    alloc: Global,
    made: &mut List<Given>,
    task: &PipelineTask,
    children: &[&Child],
) -> Result<(), AllocError>
    ensures { OnOk result ((facts : FactsRecord) (place : ℕ) → map (λ child. child.now) children.now ≡ children_of facts place → made.new ≡ made.old ++ available_of facts (place, task.now)) }
{
    if !are_good(task, children) {
        return Ok(());
    }
    let sorted = by_index(alloc, children)?;
    if task.matrix.is_some() {
        add_lists(alloc, made, &task.name, sorted.as_slice())
    } else {
        add_first(alloc, made, &task.name, sorted.as_slice())
    }
}

/// Adds the available results of tasks, of which the first stands at a place.
fn add_of_tasks(
    alloc: Global,
    made: &mut List<Given>,
    tasks: &[PipelineTask],
    first: u32,
    groups: &Groups,
) -> Result<(), AllocError>
    requires few { first + length tasks.now < 2 ^ 32 }
    ensures { OnOk result ((facts : FactsRecord) → groups.now ≡ facts.children → made.new ≡ made.old ++ flat_map (available_of facts) (enumerate_from first tasks.now)) }
{
    for (place, task) in tasks.iter().enumerate() {
        add_of_task(alloc, made, task, groups.at(first + place as u32))?;
    }
    Ok(())
}

/// The available results of all tasks.
pub(crate) fn available_results(
    alloc: Global,
    facts: &Facts,
    groups: &Groups,
) -> Result<List<Given>, AllocError>
    requires few { task_total facts.now < 2 ^ 32 }
    requires same { groups.now ≡ facts.now.children }
    ensures { IfOk result (λ results. results ≡ available_results facts.now) }
{
    let mut made = List::new(alloc);
    let tasks = facts.spec.tasks.as_slice();
    add_of_tasks(alloc, &mut made, tasks, 0, groups)?;
    add_of_tasks(
        alloc,
        &mut made,
        facts.spec.finally.as_slice(),
        tasks.len() as u32,
        groups,
    )?;
    Ok(made)
}
