//! What is said to people, sentence by sentence.

use crate::rows::words;
use std::alloc::{AllocError, Global};
use std::test::Fail;
use tk_advice::{
    USAGE, Unready, advice, complaint, help, message, remarks, unread_words, warnings,
};

/// A line, an input where it counts, and behind `=> ` the beginning and the end of what is said of it, with two dots between
/// them. In an input `\n` stands for a line feed, `^` for a byte order mark, and `~` for a byte that no text has.
const ADVICE: &str = r#"rejected 1 BadJson => the input isn't one JSON value..; mend it
rejected 2 WrongShape $.spec => this value has another form..: $.spec
rejected 3 WrongVersion $.apiVersion => this apiVersion isn't read..: $.apiVersion
rejected 4 WrongKind $.kind => this kind isn't read..: $.kind
rejected 5 MissingField $.metadata => the last key of the place is missing..: $.metadata
rejected 6 UnknownField $.spec.tsaks => there is no such field..: $.spec.tsaks
rejected 7 Unsupported $.spec.x => this field of Tekton isn't carried out..: $.spec.x
rejected 8 BadName $.metadata.name => this name breaks the rules..: $.metadata.name
rejected 9 Duplicate $.spec.tasks[1] a => this name, which stands behind the place..: $.spec.tasks[1] a
rejected 10 BadDuration $.spec.timeout => this isn't a duration..: $.spec.timeout
rejected 11 BadChoice $.spec.x => this value isn't one of those that may stand here: ..$.spec.x
rejected 12 UnknownTask $.spec.tasks[0].runAfter[0] b => no task has the name.. b
rejected 13 Cycle $.spec.tasks a b => the tasks behind the place wait for one another..: $.spec.tasks a b
rejected 14 BadReference $.spec.x 3 => this text has no valid reference..: $.spec.x 3
rejected 15 UnknownVariable $.spec.x params.p => the variable behind the place..: $.spec.x params.p
rejected 16 WrongType $.spec.x => a text, an array and an object..: $.spec.x
rejected 17 TimeoutsOverrun $.spec.timeouts => the timeouts of `tasks` and `finally`..: $.spec.timeouts
rejected 18 MatrixConflict $.spec.x p => the name behind the place is in conflict..: $.spec.x p
rejected 19 FinallyRule $.spec.x => this can't stand here..: $.spec.x
rejected 20 NameClash $.items[1] $.items[0] => a TaskRun of this object..: $.items[1] $.items[0]
rejected 21 TooLarge $ 256 257 => here is more than the first number..: $ 256 257
rejected 22 TooLong => the input is longer..split it
pipelinerun r True Succeeded => nothing
rejected 23 New $ => nothing
rejected 1 BadJson | ^{} => ..remove its first three bytes
rejected 1 BadJson | ~{} => ..write it in that encoding
rejected 1 BadJson |  \n => ..give it by `< INPUT.json` or by a pipe
rejected 1 BadJson | metadata:\n  name: a\n => ..it looks like YAML; convert it, for example with `yq -o json`
rejected 1 BadJson | # a\n---\nkind: Task\n => ..it looks like YAML; convert it, for example with `yq -o json`
rejected 1 BadJson | ---\nkind: Task\n---\nkind: Task\n => ..it looks like several documents of YAML; make one List of them, for example with `yq -o json` and then `jq -s '{apiVersion: "v1", kind: "List", items: .}'`
rejected 1 BadJson | # a\n{} => ..: JSON has no comments; take them out
rejected 1 BadJson | // a: b\n{} => ..: JSON has no comments; take them out
rejected 1 BadJson | {"a": 1 // b\n} => ..line 1 column 9, where a comment stands; JSON has no comments, take them out
rejected 1 BadJson | {"a": 1\n "b": 2} => ..: invalid JSON at line 2 column 2
rejected 1 BadJson | {"a": 1,\n} => ..line 2 column 1, behind a comma with which nothing follows; take the comma out
rejected 1 BadJson | {"a": [1, ]} => ..line 1 column 11, behind a comma with which nothing follows; take the comma out
rejected 1 BadJson | {"a": [1 => ..where the text ends and a bracket or a quote is open; give all of it
rejected 1 BadJson | {}\n{} => ..line 2 column 1, where a second value begins; put all objects into one List, for example with `jq -s '{apiVersion: "v1", kind: "List", items: .}'`
rejected 1 BadJson | {}} => ..line 1 column 3, where something stands behind the value; take it out
rejected 2 WrongShape $ | [{}] => the input is an array, where an object or a List is read; make a List of it, for example with `jq '{apiVersion: "v1", kind: "List", items: .}'`: $..
rejected 2 WrongShape $ | 1 => this value has another form..: $
rejected 4 WrongKind $.kind | {"kind": "Pod"} => this kind isn't read; the kinds are PipelineRun, Pipeline, TaskRun and Task, a List of these, and..: $.kind
rejected 4 WrongKind $.items[0].kind | {"items": [{"kind": "Scenario"}]} => a Scenario is read by `simulate` alone; call `tkn simulate`, or take the object out..: $.items[0].kind
rejected 4 WrongKind $.items[0].kind | {"items": [{"kind": "Outcomes"}]} => Outcomes are read by `decide` alone; call `tkn decide`, or take the object out..: $.items[0].kind
rejected 4 WrongKind $.items[0].kind | {"items": [{"kind": "List"}]} => a List stands in no List..: $.items[0].kind
rejected 5 MissingField $ | {"kind": "Outcomes"} => ..add one to the List
rejected 5 MissingField $ | {"items": [{"kind": "PipelineRun"}]} => ..beside the PipelineRun; add one to the List
rejected 5 MissingField $.metadata | {} => ..add it: $.metadata
rejected 5 MissingField $.spec.taskSpec | {} => either `taskRef` or `taskSpec` is missing..: $.spec.taskSpec
rejected 5 MissingField $.spec.pipelineSpec | {} => either `pipelineRef` or `pipelineSpec` is missing..: $.spec.pipelineSpec
rejected 5 MissingField $.spec.workspaces[0].emptyDir | {} => either `emptyDir` or `persistentVolumeClaim`..emptyDir
rejected 5 MissingField $.metadata.name | {} => either `name` or `generateName`..: $.metadata.name
rejected 5 MissingField $.spec.tasks[0].name | {} => the last key of the place is missing..name
rejected 7 Unsupported $.spec.steps[0] | {} => add `command` or `script`: a step that relies on its image's own command isn't carried out: $.spec.steps[0]..
rejected 7 Unsupported $.spec.tasks[0].taskRef.kind | {} => a Task or a Pipeline of `tekton.dev/v1` alone..: $.spec.tasks[0].taskRef.kind
rejected 9 Duplicate $ q | {"items": [{"kind": "PipelineRun"}, {"kind": "Outcomes"}, {"kind": "PipelineRun"}]} => `decide` takes one PipelineRun; leave out this one or the other: $ q..
rejected 9 Duplicate $ q | {"items": [{"kind": "PipelineRun"}, {"kind": "Outcomes"}, {"kind": "Outcomes"}]} => `decide` takes one Outcomes object..: $ q
rejected 9 Duplicate $ q | {"items": [{"kind": "Scenario"}, {"kind": "Scenario"}]} => one Scenario alone may stand in an input..: $ q
rejected 11 BadChoice $.spec.params[0].type | {} => a type is one of `string`, `array` and `object`..: $.spec.params[0].type
rejected 11 BadChoice $.spec.tasks[0].when[0].operator | {} => an operator is `in` or `notin`..operator
rejected 11 BadChoice $.spec.onError | {"spec": {"onError": "never"}} => `onError` is `continue` or `stopAndFail`..: $.spec.onError
rejected 11 BadChoice $.spec.onError | {"spec": {"onError": "continue"}} => `onError: continue` and `retries` exclude each other..: $.spec.onError
rejected 11 BadChoice $.spec.steps[0].script | {} => `command` and `script` exclude each other..script
rejected 11 BadChoice $.spec.taskSpec | {} => `taskRef` and `taskSpec` exclude each other..: $.spec.taskSpec
rejected 11 BadChoice $.spec.pipelineSpec | {} => `pipelineRef` and `pipelineSpec` exclude each other..: $.spec.pipelineSpec
rejected 11 BadChoice $.spec.workspaces[0].persistentVolumeClaim | {} => `emptyDir` and `persistentVolumeClaim` exclude each other..Claim
rejected 11 BadChoice $.spec.tasks[0].workspaces[0] | {} => the Pipeline doesn't declare the workspace..: $.spec.tasks[0].workspaces[0]
rejected 11 BadChoice $.spec.status | {"kind": "TaskRun"} => the status of a TaskRun is `TaskRunCancelled`..: $.spec.status
rejected 11 BadChoice $.items[0].spec.status | {"items": [{"kind": "PipelineRun"}]} => the status of a PipelineRun is one of `PipelineRunPending`, `StoppedRunFinally`, `CancelledRunFinally` and `Cancelled`..status
rejected 11 BadChoice $.spec.stops[1] | {} => a stop is above the one before it..: $.spec.stops[1]
rejected 11 BadChoice $.spec.children[0].outcome | {} => an outcome is one of `Succeeded`, `Failed`, `TimedOut`, `Cancelled`, `Lost` and `Running`..outcome
rejected 11 BadChoice $.spec.children[0].exit | {} => `exit` stands beside the outcome `Failed` alone..exit
rejected 11 BadChoice $.spec.children[0].results | {} => `results` stand beside the outcomes `Succeeded` and `Failed` alone..results
rejected 11 BadChoice $.spec.kubelets | {} => there are 1 to 8 controllers, and 1 to 8 kubelets..: $.spec.kubelets
rejected 11 BadChoice $.spec.outcomes[1] | {} => an outcome of the same `taskRun` and `attempt`..: $.spec.outcomes[1]
rejected 11 BadChoice $.spec.events[1] | {} => an event has one of the forms `deliver controller|kubelet I runs|taskruns|pods N`..: $.spec.events[1]
rejected 17 TimeoutsOverrun $.spec.timeouts | {"spec": {"timeouts": {"tasks": "2h"}}} => ..which is one hour where none is written; write it, or shorten one of them: $.spec.timeouts
rejected 17 TimeoutsOverrun $.spec.timeouts | {"spec": {"timeouts": {"pipeline": "1h", "tasks": "2h"}}} => ..are together over that of `pipeline`; shorten one of them: $.spec.timeouts
rejected 20 NameClash $.items[1] $.items[0] | {"items": [{"kind": "PipelineRun", "metadata": {"name": "a"}, "spec": {"pipelineSpec": {"tasks": [{"name": "b-c"}]}}}, {"kind": "PipelineRun", "metadata": {"name": "a-b"}, "spec": {"pipelineSpec": {"tasks": [{"name": "d"}, {"name": "c"}]}}}]} => ..: $.items[1] $.items[0]; the name is a-b-c
rejected 20 NameClash $ $ | {"kind": "PipelineRun", "metadata": {"name": "r"}, "spec": {"pipelineSpec": {"tasks": [{"name": "a", "matrix": {"params": [{"name": "x", "value": ["0", "1"]}]}}, {"name": "a-1"}]}}} => ..: $ $; the name is r-a-1
rejected 20 NameClash $.items[1] $.items[0] | {"items": [{"kind": "TaskRun", "metadata": {"name": "r-a"}, "spec": {}}, {"kind": "PipelineRun", "metadata": {"name": "r"}, "spec": {"pipelineSpec": {"finally": [{"name": "a"}]}}}]} => ..; the name is r-a
rejected 21 TooLarge $ 256 272 | {"kind": "PipelineRun", "metadata": {"name": "r"}, "spec": {}} => ..: $ 256 272
rejected 21 TooLarge $ 200000 200001 | {"items": [{"kind": "TaskRun", "metadata": {"name": "q"}, "spec": {"retries": 4, "taskSpec": {"steps": [{}, {}]}}}, {"kind": "PipelineRun", "metadata": {"name": "r"}, "spec": {"params": [{"name": "l", "value": ["a", "b", "c"]}], "pipelineSpec": {"tasks": [{"name": "a", "taskSpec": {"steps": [{}]}, "matrix": {"params": [{"name": "x", "value": ["$(params.l[*])", "d", "e"]}]}}]}}}]} => ..: $ 200000 200001; they are the entries that the runs may write: of a run seven and one for each task, of a TaskRun three, or four where it stands alone, of each attempt five and two for each step, and one for each ask; PipelineRun r weighs most
pipelinerun r True Succeeded | {} => nothing"#;

/// Whether what is said begins with what stands before two dots and ends with what stands behind them. Where nothing is
/// said, `nothing` is wanted.
fn is_said(said: &str, wanted: &str) -> bool {
    match wanted.split_once("..") {
        Some((front, end)) => said.starts_with(front) && said.ends_with(end),
        None => said == wanted,
    }
}

/// The bytes of an input.
fn bytes(alloc: Global, input: &str) -> Result<Vec<u8>, AllocError> {
    let input = input.replace(alloc, "\\n", "\n")?;
    let input = input.as_str().replace(alloc, "^", "\u{FEFF}")?;
    let mut bytes = Vec::new(alloc);
    for byte in input.as_str().bytes() {
        bytes.push(if byte == b'~' { 0xff } else { byte })?;
    }
    Ok(bytes)
}

/// What is said of a row's line and input.
fn advised(alloc: Global, given: &str) -> Result<String, AllocError> {
    let (line, input) = given.split_once(" | ").unwrap_or((given, "{}"));
    let line = format!(in alloc; "{line}\n")?;
    match advice(alloc, line.as_str(), bytes(alloc, input)?.as_slice())? {
        Some(said) => Ok(said),
        None => String::from_str(alloc, "nothing"),
    }
}

#[test]
fn faults_and_inputs_have_their_sentences(rt: HostRuntime) -> Result<(), Fail> {
    for row in ADVICE.split('\n') {
        let (given, wanted) = row.split_once(" => ").unwrap_or((row, "no answer"));
        let told = advised(rt.alloc(), given)?;
        assert!(rt; is_said(told.as_str(), wanted), "of {given}: {told}");
    }
    Ok(())
}

/// Words that are no command, words that ask for help, a status, or why words can't be had, and behind `=> ` what is said of
/// it, of help the first line.
const WORDS: &str = r#"tkn @none => there is no command
tkn --help more => there is no such command: "--help"
tkn build => there is no such command: "build"
tkn check build.json => a command reads standard input; give a file by `< FILE`: "build.json"
tkn simulate --jsno => the command has no such option: "--jsno"
tkn generate 1 => `generate` takes a number below 2147483648 and a size of 1 to 4000
tkn generate --json 1 2 => the command has no such option: "--json"
tkn run --json --json => an option stands once: "--json"
tkn run --root x => the folder behind --root is given whole, from `/` on: "x"
tkn run --root=x => the folder behind --root is given whole, from `/` on: "x"
tkn run --root /a --root=/b => an option stands once: "--root"
tkn run r => `run` takes options and asks of the form RUN=STATUS@DURATION: "r"
tkn run r=Stop@1s => an ask has one of Start, StoppedRunFinally, CancelledRunFinally, Cancelled and TaskRunCancelled, then `@` and when: "r=Stop@1s"
tkn run r=Start@soon q=Start@1s => behind `@` of an ask stands a duration such as 90s or 1m30s: "r=Start@soon"
tkn run r=Start@0 q=Start@1h30m p=Start@5ms q=Start@1d => behind `@` of an ask stands a duration such as 90s or 1m30s: "q=Start@1d"
tkn run =Start@0 q=Start@0 => `run` takes options and asks of the form RUN=STATUS@DURATION: "=Start@0"
tkn run r=Cancelled@soon => behind `@` of an ask stands a duration such as 90s or 1m30s: "r=Cancelled@soon"
tkn run R=Cancelled@1s => before `=` of an ask stands the name of a run: small letters, digits, `-` and `.`: "R=Cancelled@1s"
help --help => tkn runs Tekton's PipelineRuns and TaskRuns (tekton.dev/v1) on this machine, their steps as its programs.
help --version => tkn of Wafnjold, for tekton.dev/v1
help --help check => nothing
help check => nothing
status 0 => nothing
status 1 => nothing
status 2 => nothing
status 3 => nothing
status 4 => standard input can't be read; give the input by < INPUT.json or by a pipe
status 5 => standard output can't be written, so the text is cut; free the disk or keep the pipe open
status 6 => there is not enough memory for this input; split it or give more memory
status 7 => nothing
unread text => a word isn't text in UTF-8
unread memory => nothing"#;

/// How a program ends whose words can't be had, as a row tells it.
fn unread(lacks_memory: bool) -> &'static str {
    match unread_words(lacks_memory) {
        (2, Some(complaint)) => complaint,
        (6, None) => "nothing",
        _ => "another end",
    }
}

/// The first line of a text.
fn first_line(text: &'static str) -> &'static str {
    match text.split_once('\n') {
        Some((line, _)) => line,
        None => text,
    }
}

/// What is said of a row's words or status.
fn said(alloc: Global, given: &str) -> Result<String, AllocError> {
    let (verb, rest) = given.split_once(' ').unwrap_or((given, ""));
    match verb {
        "tkn" => {
            let words = words(alloc, rest)?;
            format!(in alloc; "{}", complaint(words.as_slice()))
        }
        "help" => {
            let text = help(words(alloc, rest)?.as_slice());
            String::from_str(alloc, first_line(text.unwrap_or("nothing")))
        }
        "status" => String::from_str(
            alloc,
            message(rest.parse::<u8>().unwrap_or(u8::MAX)).unwrap_or("nothing"),
        ),
        "unread" => String::from_str(alloc, unread(rest == "memory")),
        _ => String::from_str(alloc, "no row"),
    }
}

#[test]
fn words_and_statuses_have_their_sentences(rt: HostRuntime) -> Result<(), Fail> {
    for row in WORDS.split('\n') {
        let (given, wanted) = row.split_once(" => ").unwrap_or((row, "no answer"));
        assert_eq!(rt; said(rt.alloc(), given)?.as_str(), wanted, "of {given}");
    }
    assert!(rt; USAGE.starts_with("usage: tkn check < INPUT.json, "));
    Ok(())
}

/// Objects that can't start: for each the list of items, the kind, the name and the reason, and behind `=> ` what is said behind
/// the reason.
const UNREADY: &str =
    r#"{"kind": "PipelineRun", "metadata": {"name": "r"}, "spec": {"pipelineRef": {"name": "p"}}}
PipelineRun r CouldntGetPipeline
=> no Pipeline has the name p; add one in front of it

{"kind": "PipelineRun", "metadata": {"name": "r"}, "spec": {"pipelineRef": {"name": "a b"}}}
PipelineRun r CouldntGetPipeline
=> no Pipeline has the name "a b"; add one in front of it

{"kind": "PipelineRun", "metadata": {"name": "r"}, "spec": {"pipelineRef": {"name": "p"}}}, {"kind": "Pipeline", "metadata": {"name": "p"}}
PipelineRun r CouldntGetPipeline
=> Pipeline p stands only behind it; put it in front of it

{"kind": "PipelineRun", "metadata": {"name": "r"}, "spec": {"pipelineSpec": {"tasks": [{"name": "x", "taskRef": {"name": "a"}}], "finally": [{"name": "y", "taskRef": {"name": "t"}}]}}}, {"kind": "Task", "metadata": {"name": "t"}}
PipelineRun r CouldntGetTask
=> Task t of pipeline task y stands only behind it; put it in front of it

{"kind": "Pipeline", "metadata": {"name": "p"}, "spec": {"tasks": [{"name": "x", "taskRef": {"name": "t"}}]}}, {"kind": "PipelineRun", "metadata": {"name": "r"}, "spec": {"pipelineRef": {"name": "p"}}}, {"kind": "Task", "metadata": {"name": "t"}}
PipelineRun r CouldntGetTask
=> Task t of pipeline task x stands only behind it; put it in front of it

{"kind": "Task", "metadata": {"name": "t"}}, {"kind": "PipelineRun", "metadata": {"name": "r"}, "spec": {"pipelineSpec": {"tasks": [{"name": "x", "taskRef": {"name": "t"}}, {"name": "y", "taskRef": {"name": "u"}}]}}}
PipelineRun r CouldntGetTask
=> no Task has the name u of pipeline task y; add one in front of it

{"kind": "TaskRun", "metadata": {"name": "r"}, "spec": {"taskRef": {"name": "t"}}}, {"kind": "Task", "metadata": {"name": "t"}}
TaskRun r CouldntGetTask
=> Task t stands only behind it; put it in front of it

{"kind": "TaskRun", "metadata": {"name": "r"}, "spec": {"taskRef": {"name": "t"}}}
TaskRun r CouldntGetTask
=> no Task has the name t; add one in front of it

{"kind": "PipelineRun", "metadata": {"name": "r"}, "spec": {"params": [{"name": "x", "value": "1"}], "pipelineSpec": {"params": [{"name": "x"}, {"name": "y", "default": ""}, {"name": "z"}]}}}
PipelineRun r ParameterMissing
=> parameter z of the Pipeline has no value; give it in the run's `params`, or declare a `default`

{"kind": "PipelineRun", "metadata": {"name": "r"}, "spec": {"pipelineSpec": {"tasks": [{"name": "a", "params": [{"name": "x", "value": "1"}], "matrix": {"params": [{"name": "y", "value": ["1"]}], "include": [{"params": [{"name": "z", "value": "1"}]}]}, "taskSpec": {"params": [{"name": "x"}, {"name": "y"}, {"name": "z"}, {"name": "w"}]}}]}}}
PipelineRun r ParameterMissing
=> parameter w of the Task of pipeline task a has no value; give it in `params`, or declare a `default`

{"kind": "TaskRun", "metadata": {"name": "r"}, "spec": {"taskSpec": {"params": [{"name": "x"}]}}}
TaskRun r ParameterMissing
=> parameter x of the Task has no value; give it in `params`, or declare a `default`

{"kind": "PipelineRun", "metadata": {"name": "r"}, "spec": {"params": [{"name": "x", "value": "1"}, {"name": "y", "value": "1"}], "pipelineSpec": {"params": [{"name": "x"}, {"name": "y", "default": ["a"]}]}}}
PipelineRun r ParameterTypeMismatch
=> parameter y is declared of type array, and the value in `params` is of type string; change one of the two

{"kind": "PipelineRun", "metadata": {"name": "r"}, "spec": {"pipelineSpec": {"tasks": [{"name": "a", "taskSpec": {"results": [{"name": "out"}, {"name": "map"}]}}, {"name": "b", "params": [{"name": "x", "value": "$(tasks.a.results.out) $(tasks.a.results.map.k) $(tasks.a.results.other[*])"}]}]}}}
PipelineRun r InvalidTaskResultReference
=> pipeline task b takes result other of pipeline task a, whose Task doesn't declare it; declare it in its `results`, or correct the name

{"kind": "PipelineRun", "metadata": {"name": "r"}, "spec": {"pipelineSpec": {"tasks": [{"name": "a", "taskSpec": {}}], "results": [{"name": "r", "value": "$(tasks.a.results.out)"}]}}}
PipelineRun r InvalidTaskResultReference
=> a result of the Pipeline takes result out of pipeline task a, whose Task doesn't declare it; declare it in its `results`, or correct the name

{"kind": "PipelineRun", "metadata": {"name": "r"}, "spec": {"pipelineSpec": {"workspaces": [{"name": "o", "optional": true}, {"name": "w"}]}}}
PipelineRun r InvalidWorkspaceBindings
=> workspace w of the Pipeline isn't bound; bind it in the run's `workspaces`

{"kind": "PipelineRun", "metadata": {"name": "r"}, "spec": {"workspaces": [{"name": "w"}], "pipelineSpec": {"workspaces": [{"name": "w"}], "tasks": [{"name": "a", "taskSpec": {"workspaces": [{"name": "v"}]}}]}}}
PipelineRun r InvalidWorkspaceBindings
=> workspace v of the Task of pipeline task a isn't bound; bind it in `workspaces`

{}
PipelineRun r ParameterMissing
=> a parameter has no value, or a reference takes more of it than is there; give it in `params`, or declare a `default`

{}
PipelineRun r ParameterTypeMismatch
=> a parameter's value isn't of its declared type; compare the two

{}
PipelineRun r InvalidTaskResultReference
=> a reference takes a result that its task doesn't declare, or takes it for another type; declare it in `results` of the task

{}
PipelineRun r InvalidWorkspaceBindings
=> a declared workspace isn't bound, or is bound to none of the run's; bind it in `workspaces`"#;

/// What is said of the object of a line, beside a List of these items.
fn warned(alloc: Global, items: &str, line: &str) -> Result<String, AllocError> {
    let input = format!(in alloc; r#"{{"kind": "List", "items": [{items}]}}"#)?;
    let (kind, rest) = line.split_once(' ').unwrap_or((line, ""));
    let (name, reason) = rest.split_once(' ').unwrap_or((rest, ""));
    let unready = Unready {
        is_task_run: kind == "TaskRun",
        name,
        reason,
    };
    warnings(alloc, &[unready], input.as_str().as_bytes())
}

/// What is wanted of it.
fn wanted_of(alloc: Global, line: &str, behind: &str) -> Result<String, AllocError> {
    let (object, reason) = line.rsplit_once(' ').unwrap_or((line, ""));
    format!(in alloc; "tkn: warning: {object} is admitted and can't start ({reason}): {behind}")
}

#[test]
fn each_reason_is_said(rt: HostRuntime) -> Result<(), Fail> {
    let alloc = rt.alloc();
    for row in UNREADY.split("\n\n") {
        let (given, behind) = row.split_once("\n=> ").unwrap_or((row, "no answer"));
        let (items, line) = given.split_once('\n').unwrap_or((given, ""));
        let said = warned(alloc, items, line)?;
        assert_eq!(rt; said.as_str(), wanted_of(alloc, line, behind)?.as_str());
    }
    Ok(())
}

/// What commands printed for an input, in three lines, where `\n` stands for a line feed, and behind `=> ` what is said of it.
const BESIDE: &str = r#"simulate
pipelinerun r False CouldntGetPipeline
{"kind": "PipelineRun", "metadata": {"name": "r"}, "spec": {"pipelineRef": {"name": "p"}}}
=> tkn: warning: PipelineRun r is admitted and can't start (CouldntGetPipeline): no Pipeline has the name p; add one in front of it

decide
pipelinerun r False ParameterMissing
{"items": [{"kind": "PipelineRun", "metadata": {"name": "r"}, "spec": {"pipelineSpec": {"params": [{"name": "x"}]}}}, {"kind": "Outcomes"}]}
=> tkn: warning: PipelineRun r is admitted and can't start (ParameterMissing): parameter x of the Pipeline has no value; give it in the run's `params`, or declare a `default`

simulate
pipelinerun p True Succeeded\n  taskrun p-a a 0 Succeeded attempts 1\ntaskrun q False CouldntGetTask attempts 0\npipelinerun r False CouldntGetPipeline
{"items": [{"kind": "TaskRun", "metadata": {"name": "q"}, "spec": {"taskRef": {"name": "t"}}}]}
=> tkn: warning: TaskRun q is admitted and can't start (CouldntGetTask): no Task has the name t; add one in front of it\ntkn: warning: PipelineRun r is admitted and can't start (CouldntGetPipeline): no Pipeline has the name in its `pipelineRef`; add it in front of it

simulate --json
[{"childReferences":[],"kind":"PipelineRun","name":"r","reason":"CouldntGetPipeline","results":[],"skippedTasks":[],"startTime":null,"status":"False"}]
{"kind": "PipelineRun", "metadata": {"name": "r"}, "spec": {"pipelineRef": {"name": "p"}}}
=> tkn: warning: PipelineRun r is admitted and can't start (CouldntGetPipeline): no Pipeline has the name p; add one in front of it

simulate
pipelinerun r False InvalidTaskResultReference\n  taskrun r-a a 0 Succeeded attempts 1\n  skipped c Results were missing
{"kind": "PipelineRun", "metadata": {"name": "r"}, "spec": {}}
=> tkn: warning: results of a simulation come from a Scenario alone; add one whose `outcomes` have the `results` of the TaskRuns

simulate --json
[{"kind":"PipelineRun","name":"r","reason":"InvalidTaskResultReference","startTime":"1970-01-01T00:00:00.000Z","status":"False"}]
{"kind": "PipelineRun", "metadata": {"name": "r"}, "spec": {}}
=> tkn: warning: results of a simulation come from a Scenario alone; add one whose `outcomes` have the `results` of the TaskRuns

simulate
pipelinerun r False InvalidTaskResultReference\n  taskrun r-a a 0 Succeeded attempts 1
{"items": [{"kind": "PipelineRun"}, {"kind": "Scenario"}]}
=> nothing

run
pipelinerun r False InvalidTaskResultReference\n  taskrun r-a a 0 Succeeded attempts 1
{"kind": "PipelineRun", "metadata": {"name": "r"}, "spec": {}}
=> nothing

simulate
@nothing
{"kind": "Task"}
=> tkn: warning: the input has no PipelineRun and no TaskRun, so there is nothing to simulate; add one

run --json
[]
{"items": []}
=> tkn: warning: the input has no PipelineRun and no TaskRun, so there is nothing to run; add one

simulate
@nothing
{"kind": "TaskRun"}
=> nothing

simulate
pipelinerun r False Failed\n  taskrun r-a a 0 Failed 1 attempts 1
{"kind": "PipelineRun"}
=> nothing

check
ok 1
{"kind": "Task"}
=> nothing

generate 1 2
{}
{}
=> nothing"#;

/// What is said beside what a row's command printed for its input.
fn said_beside(alloc: Global, given: &str) -> Result<String, AllocError> {
    let (line, rest) = given.split_once('\n').unwrap_or((given, ""));
    let (printed, input) = rest.split_once('\n').unwrap_or((rest, ""));
    let printed = if printed == "@nothing" { "" } else { printed };
    let printed = format!(in alloc; "{printed}\\n")?;
    let printed = bytes(alloc, printed.as_str())?;
    let words = words(alloc, line)?;
    let said = remarks(
        alloc,
        words.as_slice(),
        printed.as_slice(),
        input.as_bytes(),
    )?;
    match said {
        Some(said) => Ok(said),
        None => String::from_str(alloc, "nothing"),
    }
}

#[test]
fn reports_have_their_remarks(rt: HostRuntime) -> Result<(), Fail> {
    let alloc = rt.alloc();
    for row in BESIDE.split("\n\n") {
        let (given, wanted) = row.split_once("\n=> ").unwrap_or((row, "no answer"));
        let wanted = wanted.replace(alloc, "\\n", "\n")?;
        assert_eq!(rt;
            said_beside(alloc, given)?.as_str(),
            wanted.as_str(),
            "of {given}"
        );
    }
    Ok(())
}
