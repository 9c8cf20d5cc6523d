//! Objects as they are read, each shape once whole and once for each of its faults.

use std::alloc::{AllocError, Global};
use std::process::Abort;
use std::test::Fail;
use tk_manifest::{Document, KindSet, read_objects};
use tk_types::{Item, ItemObject, Rejected, Text};

/// Blocks with an empty line between them. Each has a kind, and the spec of such an object or, behind `four` or `outcomes`, a whole
/// text. Its other lines are what stands at `@` of it, and behind `=> ` the objects that are read, or the first fault.
const BLOCKS: &str = r#"four @
 => rejected 1 BadJson
{"apiVersion":"v1","kind":"List","items":[ => rejected 1 BadJson
{"apiVersion":"v1","kind":"List","items":[]} => read
{"apiVersion":"v1","kind":"List","items":[]} x => rejected 1 BadJson
{"apiVersion":"v1","kind":"\ud800","items":[]} => rejected 1 BadJson
{"apiVersion":"v1","kind":"List","items":[1e999]} => rejected 1 BadJson
[] => rejected 2 WrongShape $

outcomes @
{"other": 1} => rejected 5 MissingField $.apiVersion
{"apiVersion": 1} => rejected 5 MissingField $.kind
{"apiVersion": 1, "kind": null} => rejected 2 WrongShape $.apiVersion
{"apiVersion": "", "kind": null} => rejected 2 WrongShape $.kind
{"apiVersion": "", "kind": "task"} => rejected 4 WrongKind $.kind
{"apiVersion": "v1", "kind": "Scenario"} => rejected 4 WrongKind $.kind
{"apiVersion": "tekton.dev/v1beta1", "kind": "Task", "Spec": {}} => rejected 3 WrongVersion $.apiVersion
{"apiVersion": "tkn.local/v1", "kind": "Task"} => rejected 3 WrongVersion $.apiVersion
{"apiVersion": "tekton.dev/v1", "kind": "Outcomes"} => rejected 3 WrongVersion $.apiVersion
{"apiVersion": "tekton.dev/v1", "kind": "List"} => rejected 3 WrongVersion $.apiVersion
{"apiVersion": "tekton.dev/v1", "kind": "Task", "Spec": {}} => rejected 6 UnknownField $.Spec
{"apiVersion": "tekton.dev/v1", "kind": "Task"} => rejected 5 MissingField $.metadata

four {"apiVersion": "v1", "kind": "List", @}
"metadata": {} => rejected 5 MissingField $.items
"items": {} => rejected 2 WrongShape $.items
"items": [], "status": {} => rejected 6 UnknownField $.status
"items": [1] => rejected 2 WrongShape $.items[0]
"items": [{"apiVersion": "v1", "kind": "List", "items": []}] => rejected 4 WrongKind $.items[0].kind
"items": [{"apiVersion": "tekton.dev/v1", "kind": "TaskRun", "metadata": {"name": "a"}, "spec": {"taskRef": {"name": "t"}}}, null] => rejected 2 WrongShape $.items[1]

four {"apiVersion": "tekton.dev/v1", "kind": "PipelineRun", "metadata": @, "spec": 1, "status": 1}
[] => rejected 2 WrongShape $.metadata
{"labels": {}} => rejected 5 MissingField $.metadata.name
{"name": 1} => rejected 2 WrongShape $.metadata.name
{"name": "A"} => rejected 8 BadName $.metadata.name
{"generateName": ""} => rejected 8 BadName $.metadata.generateName
{"name": "a", "generateName": "-"} => rejected 8 BadName $.metadata.generateName
{"name": "a.b-0", "labels": {"a": "b"}, "uid": "1"} => rejected 2 WrongShape $.spec
{"generateName": "a-"} => rejected 2 WrongShape $.spec

four {"apiVersion": "tekton.dev/v1", "metadata": {"annotations": {"a/b": "c"}, "creationTimestamp": "2024-01-01T00:00:00Z", "generateName": "a-", "generation": 1, "labels": {}, "name": "a-x", "namespace": "default", "resourceVersion": "1", "uid": "0"}, "status": {"conditions": [{"type": "Succeeded"}]}, @}
"kind": "Task", "spec": {"steps": [{"script": ""}]} => read Task a-x $
"kind": "Pipeline", "spec": {"tasks": [{"name": "a", "taskRef": {"name": "t"}}]} => read Pipeline a-x $
"kind": "TaskRun", "spec": {"taskRef": {"name": "t", "kind": "Task"}, "serviceAccountName": "default", "timeout": "1h0m0s"} => read TaskRun a-x $
"kind": "PipelineRun", "spec": {"pipelineRef": {"name": "p"}, "taskRunTemplate": {"serviceAccountName": "default"}, "timeouts": {"pipeline": "1h0m0s"}} => read PipelineRun a-x $

PipelineRun @
{"pipelineRef": {"name": "P", "apiVersion": 1, "kind": 1}, "params": [{"name": "a", "value": "v"}], "status": "PipelineRunPending", "timeouts": {"pipeline": "1h30m", "tasks": "0", "finally": "05s"}, "workspaces": [{"name": "w", "emptyDir": {}}], "taskRunTemplate": 1, "taskRunSpecs": 1} => read PipelineRun a $
{"podTemplate": 1} => rejected 6 UnknownField $.spec.podTemplate
{"managedBy": 1} => rejected 7 Unsupported $.spec.managedBy
{} => rejected 5 MissingField $.spec.pipelineSpec
{"pipelineRef": {"name": "p"}, "pipelineSpec": {"tasks": [{"name": "a", "taskRef": {"name": "t"}}]}} => rejected 11 BadChoice $.spec.pipelineSpec
{"pipelineRef": {"resolver": "git"}} => rejected 7 Unsupported $.spec.pipelineRef.resolver
{"pipelineRef": {}} => rejected 5 MissingField $.spec.pipelineRef.name
{"status": "TaskRunCancelled"} => rejected 11 BadChoice $.spec.status
{"timeouts": {"tasks": "1 h"}} => rejected 10 BadDuration $.spec.timeouts.tasks
{"timeouts": {"task": "1h"}} => rejected 6 UnknownField $.spec.timeouts.task

TaskRun @
{"taskRef": {"name": "T", "kind": "Task", "apiVersion": ""}, "params": [], "status": "TaskRunCancelled", "timeout": "0", "retries": 4294967295, "workspaces": [], "serviceAccountName": 1, "podTemplate": 1, "computeResources": 1, "statusMessage": 1} => read TaskRun a $
{"taskref": 1} => rejected 6 UnknownField $.spec.taskref
{"debug": 1} => rejected 7 Unsupported $.spec.debug
{"retries": 1} => rejected 5 MissingField $.spec.taskSpec
{"retries": 1.0} => rejected 2 WrongShape $.spec.retries
{"retries": 4294967296} => rejected 2 WrongShape $.spec.retries
{"status": "Cancelled"} => rejected 11 BadChoice $.spec.status
{"timeout": ""} => rejected 10 BadDuration $.spec.timeout
{"taskRef": {"name": "t", "kind": "StepAction"}} => rejected 7 Unsupported $.spec.taskRef.kind
{"taskRef": {"name": "t", "apiVersion": "v1"}} => rejected 7 Unsupported $.spec.taskRef.apiVersion
{"taskRef": {"name": "t"}, "taskSpec": {"steps": [{"script": ""}]}} => rejected 11 BadChoice $.spec.taskSpec

Task @
{"params": [{"name": "p"}], "steps": [{"script": ""}], "results": [{"name": "r", "type": "object", "properties": {"k": {}}, "description": 1}], "workspaces": [{"name": "w", "optional": true, "description": 1, "mountPath": 1, "readOnly": 1}], "description": 1, "displayName": 1, "metadata": 1} => read Task a $
{"step": []} => rejected 6 UnknownField $.spec.step
{"sidecars": []} => rejected 7 Unsupported $.spec.sidecars
{} => rejected 5 MissingField $.spec.steps
{"steps": []} => rejected 5 MissingField $.spec.steps
{"steps": [{"script": ""}], "results": [{"name": "r", "value": 1}]} => rejected 7 Unsupported $.spec.results[0].value
{"steps": [{"script": ""}], "results": [{"name": "-r"}]} => rejected 8 BadName $.spec.results[0].name
{"steps": [{"script": ""}], "workspaces": [{"name": "w", "optional": 1}]} => rejected 2 WrongShape $.spec.workspaces[0].optional

Task {"steps": [@]}
{"name": "s", "command": [], "args": ["a"], "script": "", "env": [{"name": "E"}, {"name": "F", "value": "v"}], "workingDir": "/", "onError": "continue", "image": 1, "imagePullPolicy": 1, "computeResources": 1, "displayName": 1, "securityContext": 1} => read Task a $
{"images": 1} => rejected 6 UnknownField $.spec.steps[0].images
{"workspaces": []} => rejected 7 Unsupported $.spec.steps[0].workspaces
{"name": "S"} => rejected 8 BadName $.spec.steps[0].name
{"command": ["a", null]} => rejected 2 WrongShape $.spec.steps[0].command[1]
{"env": [{"name": "a=b"}]} => rejected 8 BadName $.spec.steps[0].env[0].name
{"env": [{"valueFrom": 1}]} => rejected 7 Unsupported $.spec.steps[0].env[0].valueFrom
{"onError": "Continue"} => rejected 11 BadChoice $.spec.steps[0].onError
{"script": "", "command": ["a"]} => rejected 11 BadChoice $.spec.steps[0].script
{"command": []} => rejected 7 Unsupported $.spec.steps[0]

Task {"params": [@], "steps": [{"script": ""}]}
{"name": "_", "type": "string", "default": ["v"], "properties": {"k": {"type": "array", "description": 1}}, "description": 1} => read Task a $
{"enum": []} => rejected 7 Unsupported $.spec.params[0].enum
{"name": "0"} => rejected 8 BadName $.spec.params[0].name
{"name": "o.p", "type": "string", "properties": {"k": {}}} => read Task a $
{"name": "o.p", "properties": {"k": {}}} => rejected 8 BadName $.spec.params[0].name
{"name": "p", "type": "number"} => rejected 11 BadChoice $.spec.params[0].type
{"name": "p", "default": 1} => rejected 2 WrongShape $.spec.params[0].default
{"name": "p", "properties": {"k": {"types": 1}}} => rejected 6 UnknownField $.spec.params[0].properties.k.types

TaskRun {"taskRef": {"name": "t"}, "params": [@]}
{"name": "p", "value": {"k": "v"}} => read TaskRun a $
{"name": "p", "value": ["v", 1]} => rejected 2 WrongShape $.spec.params[0].value[1]
{"name": "p", "value": {"k": null}} => rejected 2 WrongShape $.spec.params[0].value.k
{"name": "p"} => rejected 5 MissingField $.spec.params[0].value

Pipeline @
{"params": [], "tasks": [{"name": "a", "taskRef": {"name": "t"}}], "finally": [], "results": [{"name": "_", "value": "v", "type": 1, "description": 1}], "workspaces": [{"name": "w", "optional": false, "description": 1}], "description": 1, "displayName": 1} => read Pipeline a $
{"tsaks": [], "tasks": []} => rejected 6 UnknownField $.spec.tsaks
{"tasks": []} => rejected 5 MissingField $.spec.tasks
{"tasks": [{"name": "a", "taskRef": {"name": "t"}}], "finally": [{}]} => rejected 5 MissingField $.spec.finally[0].name
{"tasks": [{"name": "a", "taskRef": {"name": "t"}}], "results": [{"name": "-", "value": ""}]} => rejected 8 BadName $.spec.results[0].name
{"tasks": [{"name": "a", "taskRef": {"name": "t"}}], "workspaces": [{"name": "w", "mountPath": "/"}]} => rejected 6 UnknownField $.spec.workspaces[0].mountPath

Pipeline {"tasks": [@]}
{"name": "a", "taskSpec": {"steps": [{"script": ""}]}, "params": [], "matrix": {"params": [{"name": "p", "value": []}]}, "runAfter": ["A"], "when": [], "retries": 0, "timeout": "1h", "onError": "continue", "workspaces": [], "description": 1, "displayName": 1} => read Pipeline a $
{"pipelineSpec": {}} => rejected 7 Unsupported $.spec.tasks[0].pipelineSpec
{"name": "a.b"} => rejected 8 BadName $.spec.tasks[0].name
{"name": "a"} => rejected 5 MissingField $.spec.tasks[0].taskSpec
{"name": "a", "taskRef": {"name": 1}, "taskSpec": 1} => rejected 2 WrongShape $.spec.tasks[0].taskRef.name
{"name": "a", "retries": -1} => rejected 2 WrongShape $.spec.tasks[0].retries
{"name": "a", "timeout": "1"} => rejected 10 BadDuration $.spec.tasks[0].timeout
{"name": "a", "onError": "fail"} => rejected 11 BadChoice $.spec.tasks[0].onError
{"name": "a", "taskRef": {"name": "t"}, "onError": "continue", "retries": 1} => rejected 11 BadChoice $.spec.tasks[0].onError

Pipeline {"tasks": [{"name": "a", "taskRef": {"name": "t"}, @}]}
"matrix": {} => rejected 5 MissingField $.spec.tasks[0].matrix
"matrix": {"include": [{"params": [], "name": 1}]} => read Pipeline a $
"matrix": {"include": [{}]} => rejected 5 MissingField $.spec.tasks[0].matrix.include[0].params
"when": [{"input": "", "operator": "in", "values": []}] => read Pipeline a $
"when": [{"cel": "x"}] => rejected 7 Unsupported $.spec.tasks[0].when[0].cel
"when": [{"input": "", "operator": "In"}] => rejected 11 BadChoice $.spec.tasks[0].when[0].operator
"when": [{"input": "", "operator": "in"}] => rejected 5 MissingField $.spec.tasks[0].when[0].values
"workspaces": [{"name": "w", "workspace": "W", "subPath": ".a/b"}] => read Pipeline a $
"workspaces": [{"name": "w", "subPath": "a/../b"}] => rejected 8 BadName $.spec.tasks[0].workspaces[0].subPath

TaskRun {"taskRef": {"name": "t"}, "workspaces": [@]}
{"name": "w", "subPath": "a", "emptyDir": {"medium": "Memory"}} => read TaskRun a $
{"name": "w", "persistentVolumeClaim": {"claimName": "c", "readOnly": 1}} => read TaskRun a $
{"name": "w", "secret": 1} => rejected 7 Unsupported $.spec.workspaces[0].secret
{"name": "w"} => rejected 5 MissingField $.spec.workspaces[0].emptyDir
{"name": "w", "persistentVolumeClaim": {"claimName": "C"}} => rejected 8 BadName $.spec.workspaces[0].persistentVolumeClaim.claimName
{"name": "w", "emptyDir": {}, "persistentVolumeClaim": {"claimName": "c"}} => rejected 11 BadChoice $.spec.workspaces[0].persistentVolumeClaim

Outcomes @
{"stops": ["Failure", "TasksTimeout", "FinallyTimeout", "Cancelled"], "children": [{"task": "a", "index": 0, "outcome": "Failed", "exit": 255, "results": {"r": ["v"]}}, {"task": "a", "index": 1, "outcome": "Running"}]} => read Outcomes a $
{"stop": []} => rejected 6 UnknownField $.spec.stop
{"stops": ["Failure", "StoppedRunFinally"]} => rejected 11 BadChoice $.spec.stops[1]
{"stops": ["failure", 1]} => rejected 11 BadChoice $.spec.stops[0]
{"children": [{"task": "a", "index": 0}]} => rejected 5 MissingField $.spec.children[0].outcome
{"children": [{"task": "a", "index": 0, "outcome": "Failed", "exit": 256}]} => rejected 2 WrongShape $.spec.children[0].exit
{"children": [{"task": "a", "index": 0, "outcome": "Lost", "exit": 0, "results": {}}]} => rejected 11 BadChoice $.spec.children[0].exit
{"children": [{"task": "a", "index": 0, "outcome": "Lost", "results": {}}]} => rejected 11 BadChoice $.spec.children[0].results

Scenario @
{"controllers": 2, "events": ["round"]} => read Scenario a $
{"events": ["turn  runs 0"]} => rejected 11 BadChoice $.spec.events[0]
{} => read Scenario a $
[] => rejected 2 WrongShape $.spec
{"Events": []} => rejected 6 UnknownField $.spec.Events
{"controllers": 8, "kubelets": 1} => read Scenario a $
{"controllers": 0} => rejected 11 BadChoice $.spec.controllers
{"kubelets": 9} => rejected 11 BadChoice $.spec.kubelets
{"kubelets": 1.0} => rejected 2 WrongShape $.spec.kubelets
{"kubelets": null} => rejected 2 WrongShape $.spec.kubelets
{"events": ["turn runs 1"]} => rejected 11 BadChoice $.spec.events[0]
{"events": ["clock 5", "clock 5", "round"]} => read Scenario a $
{"events": ["clock 5", "round", "clock 4"]} => rejected 11 BadChoice $.spec.events[2]
{"events": ["round", 1, ""]} => rejected 2 WrongShape $.spec.events[1]
{"events": {}, "outcomes": null} => rejected 2 WrongShape $.spec.outcomes
{"outcomes": [{"taskRun": "", "attempt": 0, "exits": [0, 255], "results": {"": "x"}}]} => read Scenario a $
{"outcomes": [{"taskRun": "a"}]} => rejected 5 MissingField $.spec.outcomes[0].attempt
{"outcomes": [{"taskRun": "a", "attempt": 4294967296}]} => rejected 2 WrongShape $.spec.outcomes[0].attempt
{"outcomes": [{"taskRun": "a", "attempt": 1, "exits": [256]}]} => rejected 2 WrongShape $.spec.outcomes[0].exits[0]
{"outcomes": [{"taskRun": "a", "attempt": 1, "results": {"r": 1}}]} => rejected 2 WrongShape $.spec.outcomes[0].results.r
{"outcomes": [{"taskRun": "a", "attempt": 1}, {"taskRun": "a", "attempt": 2}, {"taskRun": "b", "attempt": 1}]} => read Scenario a $
{"outcomes": [{"taskRun": "a", "attempt": 1}, {"taskRun": "b", "attempt": 1}, {"taskRun": "a", "attempt": 1}, 1]} => rejected 11 BadChoice $.spec.outcomes[2]

Scenario {"controllers": 3, "kubelets": 2, "events": ["@"]}
deliver controller 0 runs 18446744073709551615 => read Scenario a $
deliver kubelet 1 all => read Scenario a $
relist kubelet 0 pods 0 => read Scenario a $
turn tasks 2 => read Scenario a $
turn kubelet 1 => read Scenario a $
restart controller 2 => read Scenario a $
ask a.b-0 StoppedRunFinally => read Scenario a $
clock 253402300799999 => read Scenario a $
round => read Scenario a $
 => rejected 11 BadChoice $.spec.events[0]
rounds => rejected 11 BadChoice $.spec.events[0]
 round => rejected 11 BadChoice $.spec.events[0]
deliver controller 0 runs 18446744073709551616 => rejected 11 BadChoice $.spec.events[0]
deliver controller 0 runs 01 => rejected 11 BadChoice $.spec.events[0]
deliver controller 0 runs +1 => rejected 11 BadChoice $.spec.events[0]
deliver controller 0 runs -1 => rejected 11 BadChoice $.spec.events[0]
deliver controller 0 runs  => rejected 11 BadChoice $.spec.events[0]
deliver controller  0 runs 1 => rejected 11 BadChoice $.spec.events[0]
deliver controller 0 tasks 1 => rejected 11 BadChoice $.spec.events[0]
deliver runs 0 runs 1 => rejected 11 BadChoice $.spec.events[0]
deliver controller 3 all => rejected 11 BadChoice $.spec.events[0]
deliver kubelet 2 all => rejected 11 BadChoice $.spec.events[0]
deliver kubelet 1 every => rejected 11 BadChoice $.spec.events[0]
relist kubelet 0 pods => rejected 11 BadChoice $.spec.events[0]
relist kubelet 0 all => rejected 11 BadChoice $.spec.events[0]
turn controller 0 => rejected 11 BadChoice $.spec.events[0]
turn kubelet 2 => rejected 11 BadChoice $.spec.events[0]
turn runs 00 => rejected 11 BadChoice $.spec.events[0]
restart runs 0 => rejected 11 BadChoice $.spec.events[0]
restart kubelet 0 0 => rejected 11 BadChoice $.spec.events[0]
ask A Cancelled => rejected 11 BadChoice $.spec.events[0]
ask a cancelled => rejected 11 BadChoice $.spec.events[0]
clock 253402300800000 => rejected 11 BadChoice $.spec.events[0]
clock 5s => rejected 11 BadChoice $.spec.events[0]"#;

/// An object's kind and its name.
fn kind_and_name(object: &ItemObject) -> (&'static str, &str) {
    match object {
        ItemObject::Task { name, .. } => ("Task", name.as_str()),
        ItemObject::Pipeline { name, .. } => ("Pipeline", name.as_str()),
        ItemObject::TaskRun(run) => ("TaskRun", run.name.as_str()),
        ItemObject::PipelineRun(run) => ("PipelineRun", run.name.as_str()),
        ItemObject::Outcomes { name, .. } => ("Outcomes", name.as_str()),
        ItemObject::Scenario { name, .. } => ("Scenario", name.as_str()),
    }
}

/// The kind, the name and the place of each object.
fn listed(alloc: Global, items: &[Item]) -> Result<String, AllocError> {
    let mut line = String::from_str(alloc, "read")?;
    for item in items {
        let (kind, name) = kind_and_name(&item.object);
        write!(&mut line, " {kind} {name} ")?;
        item.place.write_to(alloc, &mut line)?;
    }
    line.push_str("\n")?;
    Ok(line)
}

/// What is told of a text.
pub(crate) fn told(alloc: Global, kinds: KindSet, text: &str) -> Result<Text, AllocError> {
    let document = Document::new(alloc, text.as_bytes())?;
    match read_objects(alloc, &document, kinds) {
        Ok(items) => Ok(Text::from_string(listed(alloc, items.as_slice())?)),
        Err(Rejected::Fault(fault)) => fault.line(alloc),
        Err(Rejected::Memory) => Err(AllocError),
    }
}

/// The text of a block.
fn text_of(alloc: Global, kind: &str, text: &str) -> Result<String, AllocError> {
    let version = match kind {
        "four" | "outcomes" => return String::from_str(alloc, text),
        "Outcomes" | "Scenario" => "tkn.local/v1",
        _ => "tekton.dev/v1",
    };
    format!(in alloc;
        r#"{{"apiVersion": "{version}", "kind": "{kind}", "metadata": {{"name": "a"}}, "spec": {text}}}"#
    )
}

/// The kinds that an input may have.
fn kinds_of(kind: &str) -> KindSet {
    match kind {
        "outcomes" | "Outcomes" => KindSet::WithOutcomes,
        "Scenario" => KindSet::WithScenario,
        _ => KindSet::Four,
    }
}

/// Whether each line of a block is told as it says.
fn block_holds(
    rt: &impl Abort,
    alloc: Global,
    kind: &str,
    text: &str,
    rows: &str,
) -> Result<(), Fail> {
    let text = text_of(alloc, kind, text)?;
    for row in rows.split('\n') {
        let (value, wanted) = row.split_once(" => ").unwrap_or((row, "no answer"));
        let whole = text.as_str().replace(alloc, "@", value)?;
        let told = told(alloc, kinds_of(kind), whole.as_str())?;
        assert_eq!(rt;
            told.as_str().strip_suffix('\n'),
            Some(wanted),
            "of {kind} {value}"
        );
    }
    Ok(())
}

#[test]
fn objects_are_read_or_refused(rt: HostRuntime) -> Result<(), Fail> {
    for block in BLOCKS.split("\n\n") {
        let (head, rows) = block.split_once('\n').unwrap_or((block, "no rows"));
        let (kind, text) = head.split_once(' ').unwrap_or((head, ""));
        block_holds(&rt, rt.alloc(), kind, text, rows)?;
    }
    Ok(())
}
