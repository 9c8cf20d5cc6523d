ghost use Rattle.tk_world.specs.Goes.{MayTakeAll};
ghost use Rattle.tk_world.specs.Whole.{IsWorld};

use std::alloc::{AllocError, Global};
use std::test::Fail;
use tk_kubelet::KubeletTurn;
use tk_simulate::start;
use tk_store::Turn;
use tk_types::Event;
use tk_user::AskAnswer;
use tk_world::{Stepped, World};

/// A run with one task, in front of its Scenario's `spec`.
const ONE_TASK: &str = r#"{"apiVersion": "v1", "kind": "List", "items": [
    {"apiVersion": "tekton.dev/v1", "kind": "PipelineRun", "metadata": {"name": "r"}, "spec": {"pipelineSpec": {"tasks": [
        {"name": "a", "taskSpec": {"steps": [{"command": ["true"]}]}}]}}},
    {"apiVersion": "tkn.local/v1", "kind": "Scenario", "metadata": {"name": "s"}, "spec": "#;

/// The same with a task of `finally`, and timeouts.
const WITH_TIMEOUTS: &str = r#"{"apiVersion": "v1", "kind": "List", "items": [
    {"apiVersion": "tekton.dev/v1", "kind": "PipelineRun", "metadata": {"name": "r"}, "spec": {"pipelineSpec": {
        "tasks": [{"name": "a", "taskSpec": {"steps": [{"command": ["true"]}]}}],
        "finally": [{"name": "f", "taskSpec": {"steps": [{"command": ["true"]}]}}]}, "timeouts": {"pipeline": "10s", "tasks": "8s"}}},
    {"apiVersion": "tkn.local/v1", "kind": "Scenario", "metadata": {"name": "s"}, "spec": "#;

/// The bytes of an input of these runs and a Scenario's `spec`.
pub(crate) fn input(alloc: Global, runs: &str, scenario: &str) -> Result<Vec<u8>, AllocError> {
    let text = format!(in alloc; "{runs}{scenario}}}]}}")?;
    Vec::from_slice(alloc, text.as_str().as_bytes())
}

/// What the world answers to each event, in order.
fn taken(alloc: Global, world: World, events: &[Event]) -> Result<Vec<Stepped>, AllocError>
    requires world { IsWorld world }
    requires may { MayTakeAll world events.now }
{
    let mut now = world;
    let mut answers = Vec::new(alloc);
    for event in events {
        answers.push(now.step(event)?)?;
    }
    Ok(answers)
}

/// What an input's world answers to each event of its Scenario, or nothing where the input is refused.
fn answers(alloc: Global, runs: &str, scenario: &str) -> Result<Vec<Stepped>, AllocError> {
    let bytes = input(alloc, runs, scenario)?;
    match start(alloc, bytes.as_slice()) {
        Ok(started) => taken(alloc, started.world, started.scenario.events.as_slice()),
        Err(_) => Ok(Vec::new(alloc)),
    }
}

/// A worker's answer, as a row tells it.
fn worker_told(alloc: Global, turn: Turn) -> Result<String, AllocError> {
    match turn {
        Turn::Wrote { version } => format!(in alloc; "wrote {version}"),
        Turn::Exists { holder, version } => format!(in alloc; "exists {holder} {version}"),
        Turn::Conflict { found } => format!(in alloc; "conflict {found}"),
        Turn::Idle => String::from_str(alloc, "idle"),
        Turn::Memory => String::from_str(alloc, "memory"),
    }
}

/// A kubelet's answer, as a row tells it.
fn kubelet_told(alloc: Global, turn: KubeletTurn) -> Result<String, AllocError> {
    match turn {
        KubeletTurn::Wrote { version } => format!(in alloc; "kubelet wrote {version}"),
        KubeletTurn::Conflict { found } => format!(in alloc; "kubelet conflict {found}"),
        KubeletTurn::Acted => String::from_str(alloc, "kubelet acted"),
        KubeletTurn::Idle => String::from_str(alloc, "kubelet idle"),
        KubeletTurn::HostFault => String::from_str(alloc, "kubelet host fault"),
    }
}

/// The answer to an ask, as a row tells it.
fn ask_told(alloc: Global, answer: AskAnswer) -> Result<String, AllocError> {
    match answer {
        AskAnswer::Wrote { version } => format!(in alloc; "ask wrote {version}"),
        AskAnswer::NoSuch => String::from_str(alloc, "ask no such"),
        AskAnswer::Finished { version } => format!(in alloc; "ask finished {version}"),
        AskAnswer::NotHigher { level } => format!(in alloc; "ask not higher {level}"),
    }
}

/// An answer, as a row tells it.
fn answer_told(alloc: Global, answer: Stepped) -> Result<String, AllocError> {
    match answer {
        Stepped::Worker(turn) => worker_told(alloc, turn),
        Stepped::Kubelet(turn) => kubelet_told(alloc, turn),
        Stepped::Asked(answer) => ask_told(alloc, answer),
        Stepped::Moved => String::from_str(alloc, "moved"),
    }
}

/// The runs of this name.
fn runs_named(name: &str) -> &'static str {
    match name {
        "one task" => ONE_TASK,
        "with timeouts" => WITH_TIMEOUTS,
        _ => "",
    }
}

/// The last two answers to the events of a row's Scenario, as the row tells them.
fn told(alloc: Global, given: &str) -> Result<String, AllocError> {
    let (runs, scenario) = given.split_once('\n').unwrap_or((given, ""));
    let answers = answers(alloc, runs_named(runs), scenario)?;
    let front = answers.len().saturating_sub(2);
    let mut text = String::new(alloc);
    for answer in &answers.as_slice()[front..] {
        if !text.is_empty() {
            text.push_str(", ")?;
        }
        text.push_str(answer_told(alloc, *answer)?.as_str())?;
    }
    Ok(text)
}

/// The name of runs, a Scenario's `spec`, and behind `=> ` the last two answers. In the first row the second controller is
/// told late. In the next three the run is closed, and its controller lists it again as it was. Then a timeout has passed at
/// its moment, and not before. Then come asks; a task worker whose views are older than what was written; asks above one
/// another, and of what isn't there; a run worker that missed an ask; and last a kubelet that claims a pod, doesn't see its
/// claim, takes the pod to its end, forgets what it saw, or comes back in its next life. An empty line parts the rows.
const ROWS: &str = r#"one task
{"controllers": 2, "events": ["deliver controller 0 all", "turn runs 0", "deliver controller 0 all",
                "deliver controller 1 all", "turn runs 0", "turn runs 1"]}
=> wrote 3, conflict 3

one task
{"events": ["round", "round", "round", "round", "round", "round", "round", "round", "round", "relist controller 0 runs 3",
                "relist controller 0 taskruns 0", "turn runs 0"]}
=> moved, exists 4 9

one task
{"events": ["round", "round", "round", "round", "round", "round", "round", "round", "round", "relist controller 0 runs 1", "turn runs 0"]}
=> moved, conflict 10

one task
{"events": ["round", "round", "round", "round", "round", "round", "round", "round", "round", "relist controller 0 runs 0", "turn runs 0"]}
=> moved, idle

with timeouts
{"events": ["round", "round", "round", "round", "round", "clock 7999", "turn runs 0"]}
=> moved, idle

with timeouts
{"events": ["round", "round", "round", "round", "round", "clock 7999", "turn runs 0", "clock 8000", "turn runs 0"]}
=> moved, wrote 8

one task
{"events": ["round", "ask r StoppedRunFinally", "ask r StoppedRunFinally"]}
=> ask wrote 3, ask not higher 1

one task
{"events": ["round", "round", "round", "round", "round", "round", "round", "round", "round", "ask r Cancelled", "ask q Cancelled"]}
=> ask finished 10, ask no such

one task
{"events": ["round", "round", "round", "round", "round", "round", "round", "round", "round", "relist controller 0 taskruns 4", "turn tasks 0"]}
=> moved, conflict 9

one task
{"events": ["round", "round", "round", "round", "round", "round", "round", "round", "round", "relist controller 0 taskruns 5", "turn tasks 0"]}
=> moved, conflict 9

one task
{"events": ["round", "round", "round", "round", "round", "round", "round", "round", "round",
                "relist controller 0 taskruns 5", "relist controller 0 pods 0", "turn tasks 0"]}
=> moved, exists 6 8

one task
{"events": ["round", "round", "round", "round", "round", "round", "round", "round", "round", "relist controller 0 taskruns 3", "turn tasks 0"]}
=> moved, idle

one task
{"events": ["round", "ask r Start", "ask r StoppedRunFinally"]}
=> ask not higher 0, ask wrote 3

one task
{"events": ["round", "ask r StoppedRunFinally", "ask r CancelledRunFinally", "ask r StoppedRunFinally"]}
=> ask wrote 4, ask not higher 2

one task
{"events": ["round", "ask r StoppedRunFinally", "ask r CancelledRunFinally", "ask r Cancelled", "ask r CancelledRunFinally"]}
=> ask wrote 5, ask not higher 4

one task
{"events": ["round", "round", "round", "ask r-a Cancelled", "ask r-a TaskRunCancelled"]}
=> ask no such, ask no such

one task
{"events": ["round", "ask q TaskRunCancelled", "ask r TaskRunCancelled"]}
=> ask no such, ask no such

one task
{"events": ["round", "deliver controller 0 all", "ask r Cancelled", "turn runs 0"]}
=> ask wrote 3, conflict 3

one task
{"events": ["round", "round", "round", "deliver controller 0 all", "turn tasks 0", "deliver kubelet 0 all", "turn kubelet 0"]}
=> moved, kubelet wrote 7

one task
{"events": ["round", "round", "round", "deliver controller 0 all", "turn tasks 0", "deliver kubelet 0 all", "turn kubelet 0", "turn kubelet 0"]}
=> kubelet wrote 7, kubelet conflict 7

one task
{"events": ["round", "round", "round", "deliver controller 0 all", "turn tasks 0", "deliver kubelet 0 all", "turn kubelet 0", "deliver kubelet 0 all",
                "turn kubelet 0", "turn kubelet 0"]}
=> kubelet acted, kubelet wrote 8

one task
{"events": ["round", "round", "round", "deliver controller 0 all", "turn tasks 0", "deliver kubelet 0 all", "turn kubelet 0", "deliver kubelet 0 all",
                "turn kubelet 0", "turn kubelet 0", "deliver kubelet 0 all", "turn kubelet 0"]}
=> moved, kubelet idle

one task
{"events": ["round", "round", "round", "deliver controller 0 all", "turn tasks 0", "deliver kubelet 0 all", "turn kubelet 0", "relist kubelet 0 pods 0", "turn kubelet 0"]}
=> moved, kubelet acted

one task
{"events": ["round", "round", "round", "deliver controller 0 all", "turn tasks 0", "deliver kubelet 0 all", "turn kubelet 0", "restart kubelet 0",
                "turn kubelet 0", "deliver kubelet 0 all", "turn kubelet 0"]}
=> moved, kubelet wrote 8"#;

#[test]
fn workers_answer_by_what_they_saw(rt: HostRuntime) -> Result<(), Fail> {
    for row in ROWS.split("\n\n") {
        let (given, wanted) = row.split_once("\n=> ").unwrap_or((row, "no answer"));
        assert_eq!(rt; told(rt.alloc(), given)?.as_str(), wanted, "of {given}");
    }
    Ok(())
}
