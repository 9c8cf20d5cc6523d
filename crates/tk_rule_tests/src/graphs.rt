//! The parents of one task.

use std::alloc::{AllocError, Global};
use std::test::Fail;
use tk_graph::parents;
use tk_types::{List, PipelineTask, TaskSource, Text};

/// The words of a text.
fn words(alloc: Global, text: &str) -> Result<List<Text>, AllocError> {
    let mut words = List::new(alloc);
    for word in text.split_whitespace() {
        words.push(Text::from_str(alloc, word)?)?;
    }
    Ok(words)
}

/// A task, by its name and the names after which it runs.
fn task(alloc: Global, line: &str) -> Result<PipelineTask, AllocError> {
    let (name, after) = line.split_once(' ').unwrap_or((line, ""));
    Ok(PipelineTask {
        name: Text::from_str(alloc, name)?,
        source: TaskSource::Named(Text::new(alloc)),
        params: List::new(alloc),
        matrix: None,
        run_after: words(alloc, after)?,
        when: List::new(alloc),
        retries: 0,
        timeout: 0,
        ignore_failure: false,
        spaces: List::new(alloc),
    })
}

#[test]
fn parents_are_told_by_their_places(rt: HostRuntime) -> Result<(), Fail> {
    let alloc = rt.alloc();
    let mut tasks = Vec::new(alloc);
    for line in "a,b a a,a".split(',') {
        tasks.push(task(alloc, line)?)?;
    }
    assert_eq!(rt; tasks.len(), 3);
    let places = parents(alloc, tasks.as_slice(), 1)?;
    assert_eq!(rt; places.as_slice(), [0, 2].as_slice());
    Ok(())
}
