//! What is decided of entries that a file may have, over a journal that `simulate` brings about: whether what is admitted is sound,
//! the names of its TaskRuns, and why a call doesn't go on from it.
ghost use Rattle.tk_journal.specs.Legal.{IsLegal};

use crate::journals::journal_of;
use std::alloc::{AllocError, Global};
use std::test::Fail;
use tk_child_names::add_names;
use tk_journal::{Act, Admission, Entry, Journal};
use tk_lives::{Unfit, find_unfit, greatest_life};
use tk_spec_sound::is_sound;
use tk_spec_sound::laws::sound_can_be_named;
use tk_taken_names::TakenNames;
use tk_types::{Asked, List, TryCopy};

/// A run of a task and of one with a matrix of two combinations, and a TaskRun.
const INPUT: &str = r#"{"apiVersion": "v1", "kind": "List", "items": [
    {"apiVersion": "tekton.dev/v1", "kind": "PipelineRun", "metadata": {"name": "r"}, "spec": {"pipelineSpec": {"tasks": [
        {"name": "a", "taskSpec": {"steps": [{"command": ["true"]}]}},
        {"name": "b", "matrix": {"params": [{"name": "p", "value": ["x", "y"]}]}, "taskSpec": {"params": [{"name": "p"}], "steps": [{"command": ["true"]}]}}]}}},
    {"apiVersion": "tekton.dev/v1", "kind": "TaskRun", "metadata": {"name": "t"}, "spec": {"taskSpec": {"steps": [{"command": ["true"]}]}}}]}"#;

/// How many names the TaskRuns of an admission may have, which are taken then: 0 where it isn't sound or one of them is taken.
fn take_names(
    alloc: Global,
    taken: &mut TakenNames,
    name: &str,
    asked: &Option<Asked>,
    admission: &Admission,
) -> Result<usize, AllocError> {
    if !is_sound(alloc, name, asked, admission)? {
        return Ok(0);
    }
    sound_can_be_named();
    let mut names = List::new(alloc);
    add_names(alloc, &mut names, admission)?;
    if !taken.are_new(alloc, names.as_slice())? {
        return Ok(0);
    }
    taken.add(alloc, names.as_slice())?;
    Ok(names.len())
}

/// The same of an entry, in words: under its own name, once more, and under another name.
fn named(alloc: Global, taken: &mut TakenNames, entry: &Entry) -> Result<String, AllocError> {
    let Act::Admit {
        name,
        spec,
        asked,
        ..
    } = &entry.act
    else {
        return Ok(String::new(alloc));
    };
    let other = take_names(alloc, taken, "other", asked, spec)?;
    let own = take_names(alloc, taken, name.as_str(), asked, spec)?;
    let again = take_names(alloc, taken, name.as_str(), asked, spec)?;
    format!(in alloc; "{} {own} {again} {other};", name.as_str())
}

/// What is told of the entries of a journal.
fn names_of(alloc: Global, journal: &Journal) -> Result<String, AllocError> {
    let mut taken = TakenNames::new(alloc);
    let mut told = String::new(alloc);
    for place in 0..journal.len() {
        let line = named(alloc, &mut taken, journal.entry(place + 1))?;
        told.push_str(line.as_str())?;
    }
    Ok(told)
}

/// The entries of a journal that admit something, and how many there are of these at most.
fn admitted(alloc: Global, journal: &Journal, most: usize) -> Result<List<Entry>, AllocError> {
    let mut given = List::new(alloc);
    for place in 0..journal.len() {
        let entry = journal.entry(place + 1);
        if matches!(&entry.act, Act::Admit { .. }) && given.len() < most {
            given.push(entry.copy(alloc)?)?;
        }
    }
    Ok(given)
}

/// Why a call of so many of the admitted entries on so many nodes doesn't go on from a journal.
fn unfit(alloc: Global, journal: &Journal, most: usize, nodes: u32) -> Result<String, AllocError>
    requires { IsLegal journal.now.history }
{
    let given = admitted(alloc, journal, most)?;
    match find_unfit(alloc, journal, given.as_slice(), nodes)? {
        None => String::from_str(alloc, "fit"),
        Some(Unfit::Differs { position }) => format!(in alloc; "differs {position}"),
        Some(Unfit::Nodes { number }) => format!(in alloc; "nodes {number}"),
    }
}

/// What is told of the input's journal: names, then whether a call goes on.
fn told(alloc: Global) -> Result<String, AllocError> {
    let Some(journal) = journal_of(alloc, INPUT) else {
        return String::from_str(alloc, "refused");
    };
    let names = names_of(alloc, &journal)?;
    let whole = unfit(alloc, &journal, 2, 1)?;
    let fewer = unfit(alloc, &journal, 1, 1)?;
    let life = greatest_life(&journal, 0);
    format!(in alloc;
        "{} {} {} {life}",
        names.as_str(),
        whole.as_str(),
        fewer.as_str()
    )
}

#[test]
fn what_a_file_says_is_decided(rt: HostRuntime) -> Result<(), Fail> {
    assert_eq!(rt;
        told(rt.alloc())?.as_str(),
        "r 3 0 0;t 1 0 0; fit differs 2 1"
    );
    Ok(())
}
