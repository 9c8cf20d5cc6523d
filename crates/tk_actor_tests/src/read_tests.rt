//! The calls of `tk_journal` that read an object at a position, which no command makes, and the children that a cache shows.
ghost use Rattle.tk_journal.specs.Legal.{IsLegal};

use crate::journals::{fresh, journal_of, show};
use std::alloc::{AllocError, Global};
use std::test::Fail;
use tk_journal::{Ending, Journal, Object, PodState, RunState, TaskRunState};
use tk_types::{Kind, Outcome, Text};

/// Inputs, and behind `=> ` what is read of their journals: a kind, a name and a position, and behind `: ` the version there
/// and the object. In the first a pending run is asked to start, and the first attempt of its task fails; in the second a user
/// asks before the task has a TaskRun that the run be cancelled, and in the third that a TaskRun be. An empty line parts them.
const ROWS: &str = r#"{"apiVersion": "v1", "kind": "List", "items": [
    {"apiVersion": "tekton.dev/v1", "kind": "PipelineRun", "metadata": {"name": "r"}, "spec": {"status": "PipelineRunPending", "pipelineSpec": {"tasks": [{"name": "a", "retries": 1, "taskSpec": {"steps": [{"command": ["true"]}]}}]}}},
    {"apiVersion": "tkn.local/v1", "kind": "Scenario", "metadata": {"name": "s"}, "spec": {"outcomes": [{"taskRun": "r-a", "attempt": 1, "exits": [3]}], "events": ["ask r Start"]}}]}
=> Runs r 0: 0 none
Runs r 1: 1 pending true asked 0 started false stops 0 tasks 0 closed false
Runs r 16: 16 pending false asked 1 started true stops 0 tasks 1 closed true
TaskRuns r 16: 0 none
TaskRuns r-a 4: 0 none
TaskRuns r-a 9: 6 retries 1 marked false attempts 1 open
TaskRuns r-a 15: 15 retries 1 marked false attempts 2 succeeded
Pods r-a-pod-1 7: 7 attempt 1 claimed false ended false
Pods r-a-pod-1 16: 9 attempt 1 claimed true ended true
Children r 4: none
Children r 16: r-a
Runs r 17: not yet

{"apiVersion": "v1", "kind": "List", "items": [
    {"apiVersion": "tekton.dev/v1", "kind": "PipelineRun", "metadata": {"name": "r"}, "spec": {"pipelineSpec": {"tasks": [{"name": "a", "taskSpec": {"steps": [{"command": ["true"]}]}}]}}},
    {"apiVersion": "tkn.local/v1", "kind": "Scenario", "metadata": {"name": "s"}, "spec": {"events": ["deliver controller 0 all", "turn runs 0", "deliver controller 0 all", "turn runs 0", "ask r Cancelled"]}}]}
=> Runs r 4: 4 pending false asked 1 started true stops 0 tasks 1 closed false
Runs r 8: 8 pending false asked 1 started true stops 1 tasks 1 closed true
TaskRuns r-a 6: 6 retries 0 marked true attempts 0 open
TaskRuns r-a 8: 7 retries 0 marked true attempts 0 cancelled
Runs r 9: not yet

{"apiVersion": "v1", "kind": "List", "items": [
    {"apiVersion": "tekton.dev/v1", "kind": "TaskRun", "metadata": {"name": "t"}, "spec": {"taskSpec": {"steps": [{"command": ["true"]}]}}},
    {"apiVersion": "tkn.local/v1", "kind": "Scenario", "metadata": {"name": "s"}, "spec": {"events": ["ask t TaskRunCancelled"]}}]}
=> TaskRuns t 1: 1 retries 0 marked false attempts 0 open
TaskRuns t 3: 3 retries 0 marked true attempts 0 cancelled
TaskRuns t 4: not yet"#;

fn run_line(alloc: Global, run: &RunState) -> Result<String, AllocError> {
    format!(in alloc;
        "pending {} asked {} started {} stops {} tasks {} closed {}",
        run.pending,
        run.asked.len(),
        run.start.is_some(),
        run.stops.len(),
        run.scheduled.len(),
        run.closed.is_some()
    )
}

fn ending(closed: &Option<Ending>) -> &'static str {
    match closed {
        None => "open",
        Some(Ending::Of(Outcome::Succeeded(_))) => "succeeded",
        Some(Ending::Of(Outcome::Cancelled)) => "cancelled",
        Some(_) => "ended",
    }
}

fn task_run_line(alloc: Global, task_run: &TaskRunState) -> Result<String, AllocError> {
    format!(in alloc;
        "retries {} marked {} attempts {} {}",
        task_run.spec.retries,
        task_run.marked,
        task_run.attempts.len(),
        ending(&task_run.closed)
    )
}

fn pod_line(alloc: Global, pod: &PodState) -> Result<String, AllocError> {
    format!(in alloc;
        "attempt {} claimed {} ended {}",
        pod.attempt,
        pod.claim.is_some(),
        pod.ended.is_some()
    )
}

/// An object at a position, in words.
fn line(
    alloc: Global,
    journal: &Journal,
    kind: Kind,
    name: &str,
    position: u64,
) -> Result<String, AllocError> {
    if journal.len() < position {
        return String::from_str(alloc, "no object");
    }
    match journal.object_at(alloc, kind, name, position)? {
        None => String::from_str(alloc, "none"),
        Some(Object::Run(run)) => run_line(alloc, &run),
        Some(Object::TaskRun(task_run)) => task_run_line(alloc, &task_run),
        Some(Object::Pod(pod)) => pod_line(alloc, &pod),
    }
}

/// Its version and itself.
fn object(
    alloc: Global,
    journal: &Journal,
    kind: Kind,
    name: &str,
    position: u64,
) -> Result<String, AllocError> {
    if journal.len() < position {
        return String::from_str(alloc, "not yet");
    }
    let version = journal.version_of(kind, name, position);
    let line = line(alloc, journal, kind, name, position)?;
    format!(in alloc; "{version} {line}")
}

/// Names with a blank between each two, or `none`.
fn names_told(alloc: Global, names: &[Text]) -> Result<String, AllocError> {
    let mut text = String::new(alloc);
    for name in names {
        if !text.is_empty() {
            text.push_str(" ")?;
        }
        text.push_str(name.as_str())?;
    }
    if text.is_empty() {
        text.push_str("none")?;
    }
    Ok(text)
}

/// The children of a run that a cache shows once it lists runs and TaskRuns as they stood at a position.
fn children(
    alloc: Global,
    journal: &Journal,
    run: &str,
    position: u64,
) -> Result<String, AllocError>
    requires { IsLegal journal.now.history }
{
    let mut cache = fresh(alloc, journal);
    show(&mut cache, journal, Kind::Runs, position)?;
    show(&mut cache, journal, Kind::TaskRuns, position)?;
    names_told(alloc, cache.cache().children(run))
}

/// What is read of a journal by a kind, a name and a position.
fn read(alloc: Global, journal: &Journal, query: &str) -> Result<String, AllocError>
    requires { IsLegal journal.now.history }
{
    let (kind, rest) = query.split_once(' ').unwrap_or((query, ""));
    let (name, position) = rest.split_once(' ').unwrap_or((rest, ""));
    let position = position.parse::<u64>().unwrap_or(0);
    match kind {
        "Runs" => object(alloc, journal, Kind::Runs, name, position),
        "TaskRuns" => object(alloc, journal, Kind::TaskRuns, name, position),
        "Pods" => object(alloc, journal, Kind::Pods, name, position),
        "Children" => children(alloc, journal, name, position),
        _ => String::from_str(alloc, "no kind"),
    }
}

/// The lines of a row with what is read of its journal.
fn read_all(alloc: Global, journal: &Journal, lines: &str) -> Result<String, AllocError>
    requires { IsLegal journal.now.history }
{
    let mut text = String::new(alloc);
    for line in lines.split('\n') {
        let (query, _) = line.split_once(": ").unwrap_or((line, ""));
        if !text.is_empty() {
            text.push_str("\n")?;
        }
        text.push_str(query)?;
        text.push_str(": ")?;
        text.push_str(read(alloc, journal, query)?.as_str())?;
    }
    Ok(text)
}

/// The same of an input, where it is admitted.
fn told(alloc: Global, input: &str, lines: &str) -> Result<String, AllocError> {
    match journal_of(alloc, input) {
        Some(journal) => read_all(alloc, &journal, lines),
        None => String::from_str(alloc, "refused"),
    }
}

#[test]
fn objects_are_what_the_entries_leave(rt: HostRuntime) -> Result<(), Fail> {
    for row in ROWS.split("\n\n") {
        let (input, wanted) = row.split_once("\n=> ").unwrap_or((row, "no answer"));
        assert_eq!(rt;
            told(rt.alloc(), input, wanted)?.as_str(),
            wanted,
            "of {input}"
        );
    }
    Ok(())
}
