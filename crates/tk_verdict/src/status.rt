ghost use Rattle.std.specs.Prelude.{◌≡◌, ◌++◌, ◌||◌, ◌<◌, ◌^◌, length, map, not, option_map, filter_map, IfOk, OnOk};
ghost use Rattle.std.specs.List.{enumerate_from, list_any};
ghost use Rattle.tk_verdict.specs.Facts.{has_ended, is_good_where};
ghost use Rattle.tk_verdict.specs.Verdict.{is_broken_label, is_skipped as is_skipped_label, is_stopped_label};
ghost use Rattle.tk_verdict.specs.Status.{has_bad_child_among, run_status_among, word_among, word_of};
ghost use Rattle.tk_verdict.specs.Words.{status_words as words_of_status, task_status as status_of_task};

use crate::children::are_all_good;
use crate::groups::Groups;
use crate::label::{is_broken, is_skipped, is_stopped};
use crate::outcome::ended_well;
use crate::parents::label_at;
use std::alloc::{AllocError, Global};
use tk_types::{Child, Facts, List, Pair, PipelineTask, Text, Verdict};

/// Whether a child ended, and not well for a task that ignores failures or not.
fn ended_badly(child: &Child, ignores: bool) -> bool
    ensures { result ≡ has_ended (λ outcome. not (is_good_where ignores outcome)) child.now }
{
    child.outcome.is_some() && !ended_well(child, ignores)
}

/// Whether one of the children ended, and not well.
pub(crate) fn is_any_bad(children: &[&Child], ignores: bool) -> bool
    ensures { result ≡ list_any (has_ended (λ outcome. not (is_good_where ignores outcome))) (map (λ c. c.now) children.now) }
{
    for child in children {
        if ended_badly(child, ignores) {
            return true;
        }
    }
    false
}

/// The status of a task with these children and this label, if it has one yet.
fn task_status(children: &[&Child], label: Verdict) -> Option<&'static str>
    ensures { option_map (λ t. t.now) result ≡ status_of_task (map (λ c. c.now) children.now) label }
{
    if are_all_good(children, false) {
        Some("Succeeded")
    } else if is_any_bad(children, false) {
        Some("Failed")
    } else if is_skipped(label) {
        Some("None")
    } else {
        None
    }
}

/// Whether a child of `tasks` ended, and not well for its task.
fn has_bad_children(groups: &Groups, tasks: &[PipelineTask]) -> bool
    requires few { length tasks.now < 2 ^ 32 }
    ensures { result ≡ list_any (has_bad_child_among groups.now) (enumerate_from 0 tasks.now) }
{
    for (place, task) in tasks.iter().enumerate() {
        if is_any_bad(groups.at(place as u32), task.ignore_failure) {
            return true;
        }
    }
    false
}

fn has_broken(labels: &[Verdict]) -> bool
    ensures { result ≡ list_any (λ label. is_broken_label label || is_stopped_label label) labels.now }
{
    labels
        .iter()
        .any(|label| is_broken(*label) || is_stopped(*label))
}

fn has_skipped(labels: &[Verdict]) -> bool
    ensures { result ≡ list_any is_skipped_label labels.now }
{
    labels.iter().any(|label| is_skipped(*label))
}

/// The status of all of `tasks`.
fn run_status(groups: &Groups, tasks: &[PipelineTask], labels: &[Verdict]) -> &'static str
    requires few { length tasks.now < 2 ^ 32 }
    ensures { result.now ≡ run_status_among groups.now tasks.now labels.now }
{
    if has_bad_children(groups, tasks) {
        "Failed"
    } else if has_broken(labels) {
        "None"
    } else if has_skipped(labels) {
        "Completed"
    } else {
        "Succeeded"
    }
}

/// The status variable of a task, if it has a status yet.
fn status_word(
    alloc: Global,
    children: &[&Child],
    label: Verdict,
    task: &PipelineTask,
) -> Result<Option<Pair>, AllocError>
    ensures { IfOk result (λ word. word ≡ word_of (map (λ c. c.now) children.now) label task.now) }
{
    let Some(status) = task_status(children, label) else {
        return Ok(None);
    };
    let mut key = String::from_str(alloc, "tasks.")?;
    key.push_str(task.name.as_str())?;
    key.push_str(".status")?;
    Ok(Some(Pair {
        key: Text::from_string(key),
        value: Text::from_str(alloc, status)?,
    }))
}

/// Adds the status variables of tasks.
fn push_status_words(
    alloc: Global,
    words: &mut List<Pair>,
    groups: &Groups,
    tasks: &[PipelineTask],
    labels: &[Verdict],
) -> Result<(), AllocError>
    requires few { length tasks.now < 2 ^ 32 }
    ensures { OnOk result (words.new ≡ words.old ++ filter_map (word_among groups.now labels.now) (enumerate_from 0 tasks.now)) }
{
    for (place, task) in tasks.iter().enumerate() {
        let label = label_at(labels, place);
        let place = place as u32;
        if let Some(word) = status_word(alloc, groups.at(place), label, task)? {
            words.push(word)?;
        }
    }
    Ok(())
}

/// The status variables that a task of `finally` sees, with these labels of `tasks`. The only error is want of memory.
pub fn status_words(
    alloc: Global,
    facts: &Facts,
    groups: &Groups,
    labels: &[Verdict],
) -> Result<List<Pair>, AllocError>
    requires few { length facts.now.spec.tasks < 2 ^ 32 }
    requires same { groups.now ≡ facts.now.children }
    ensures { IfOk result (λ words. words ≡ words_of_status facts.now labels.now) }
{
    let tasks = facts.spec.tasks.as_slice();
    let mut words = List::new(alloc);
    words.push(Pair {
        key: Text::from_str(alloc, "tasks.status")?,
        value: Text::from_str(alloc, run_status(groups, tasks, labels))?,
    })?;
    push_status_words(alloc, &mut words, groups, tasks, labels)?;
    Ok(words)
}
