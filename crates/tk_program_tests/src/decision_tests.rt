//! The calls of `tk_verdict` that no command makes, over the facts that an input gives.
ghost use Rattle.std.specs.Option.{ForSome};
ghost use Rattle.tk_verdict.specs.WellFormed.{IsWellFormed};

use crate::rows::whole;
use std::alloc::{AllocError, Global};
use std::test::Fail;
use tk_admit::admit;
use tk_manifest::{Document, KindSet};
use tk_types::{Binding, Facts, Param, Value};
use tk_verdict::{condition, pipeline_results, ready, verdicts};

// A skipped task, one that ran, and two of `finally`: of them one sees the status of all tasks, one a missing result.
const RUN: &str = r#"{@list, "items": [{@run, "spec": {"pipelineSpec": {
    "results": [{"name": "o", "value": "of $(context.pipelineRun.name)"}],
    "tasks": [
        {"name": "a", "when": [{"input": "x", "operator": "in", "values": ["y"]}], "taskSpec": {"results": [{"name": "r"}], "steps": [{"command": ["true"]}]}},
        {"name": "b", @step}],
    "finally": [
        {"name": "f", "params": [{"name": "status", "value": "$(tasks.status)"}], "taskSpec": {"params": [{"name": "status"}], "steps": [{"command": ["true"]}]}},
        {"name": "g", "params": [{"name": "r", "value": "$(tasks.a.results.r)"}], "taskSpec": {"params": [{"name": "r"}], "steps": [{"command": ["true"]}]}}]}}},
    {@outcomes, "spec": {"children": ["#;

/// The children, and behind `=> ` how many labels there are, the text of the run's result, the first text that each task gets
/// where it is ready, and the reason of the condition where it holds.
const ROWS: &str = r#"{"task": "b", "index": 0, "outcome": "Running"}
=> 4 labels, of r, gets - - - -, none

{"task": "b", "index": 0, "outcome": "Succeeded"}
=> 4 labels, of r, gets - - Completed -, none

{"task": "b", "index": 0, "outcome": "Succeeded"}, {"task": "f", "index": 0, "outcome": "Succeeded"}
=> 4 labels, of r, gets - - - -, Completed"#;

/// The text of the first of some parameters.
fn first_param(params: &[Param]) -> &str {
    match params {
        [param, ..] => match &param.value {
            Value::Str(text) => text.as_str(),
            _ => "no text",
        },
        _ => "no parameter",
    }
}

/// The first text that the first binding gives.
fn first_text(bindings: &[Binding]) -> &str {
    match bindings {
        [binding, ..] => first_param(binding.params.as_slice()),
        _ => "no binding",
    }
}

/// The first text that a task gets, if it is ready.
fn got(alloc: Global, facts: &Facts, task: u32) -> Result<String, AllocError>
    requires { IsWellFormed facts.now }
{
    match ready(alloc, facts, task)? {
        None => String::from_str(alloc, " -"),
        Some(bindings) => {
            let text = first_text(bindings.as_slice());
            format!(in alloc; " {text}")
        }
    }
}

/// The reason of the condition, where it holds.
fn reason(alloc: Global, facts: &Facts) -> Result<String, AllocError>
    requires { IsWellFormed facts.now }
{
    match condition(alloc, facts)? {
        Some(condition) if condition.holds => String::from_str(alloc, condition.reason.as_str()),
        Some(_) => String::from_str(alloc, "false"),
        None => String::from_str(alloc, "none"),
    }
}

/// The text of the first of the run's results.
fn result(alloc: Global, facts: &Facts) -> Result<String, AllocError>
    requires { IsWellFormed facts.now }
{
    let results = pipeline_results(alloc, facts)?;
    String::from_str(alloc, first_param(results.as_slice()))
}

/// How many labels there are.
fn label_count(alloc: Global, facts: &Facts) -> Result<usize, AllocError>
    requires { IsWellFormed facts.now }
{
    Ok(verdicts(alloc, facts)?.len())
}

/// What is decided of facts, as a row tells it.
fn told(alloc: Global, facts: &Facts) -> Result<String, AllocError>
    requires { IsWellFormed facts.now }
{
    let count = label_count(alloc, facts)?;
    let result = result(alloc, facts)?;
    let mut text = format!(in alloc; "{count} labels, {result}, gets")?;
    for task in 0..4 {
        text.push_str(got(alloc, facts, task)?.as_str())?;
    }
    text.push_str(", ")?;
    text.push_str(reason(alloc, facts)?.as_str())?;
    Ok(text)
}

/// What is decided of facts, if there are any.
fn told_of(alloc: Global, facts: &Option<Facts>) -> Result<String, AllocError>
    requires { ForSome facts.now IsWellFormed }
{
    match facts {
        Some(facts) => told(alloc, facts),
        None => String::from_str(alloc, "no facts"),
    }
}

/// What is decided of the run with these children.
fn decided(alloc: Global, children: &str) -> Result<String, AllocError> {
    let text = format!(in alloc; "{RUN}{children}]}}}}]}}")?;
    let input = whole(alloc, text.as_str())?;
    let document = Document::new(alloc, input.as_slice())?;
    match admit(alloc, &document, KindSet::WithOutcomes, 0, "/work") {
        Ok(admitted) => told_of(alloc, &admitted.outcomes),
        Err(_) => String::from_str(alloc, "refused"),
    }
}

#[test]
fn a_ready_task_of_finally_sees_the_status_of_all(rt: HostRuntime) -> Result<(), Fail> {
    for row in ROWS.split("\n\n") {
        let (children, wanted) = row.split_once("\n=> ").unwrap_or((row, "no answer"));
        assert_eq!(rt;
            decided(rt.alloc(), children)?.as_str(),
            wanted,
            "of {children}"
        );
    }
    Ok(())
}
