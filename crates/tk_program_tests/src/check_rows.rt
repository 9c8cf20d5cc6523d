//! Rows of `check`, of the reasons why a run can't start, and of words, reads and writes that fail.

/// Objects that are admitted, and the first fault of others.
pub(crate) const CHECKED: &str =
    r#"# Inputs that are checked, and the first fault of those that have one.
check
{@list, "items": []}
=> 0 ok 0

check
{"apiVersion":"v1","kind":"List","items":[
=> 3 rejected 1 BadJson

check
{"apiVersion": "tekton.dev/v1beta1", "kind": "PipelineRun", "metadata": {"name": "r"}, "spec": {"pipelineSpec": {"tasks": [{"name": "a", @step}]}}}
=> 3 rejected 3 WrongVersion $.apiVersion

check
{"apiVersion": "tekton.dev/v1", "kind": "TaskRun", "metadata": {"name": "t"}, "spec": {"taskSpec": {"steps": [{"script": "true"}]}}}
=> 0 ok 1

check
{@outcomes, "spec": {}}
=> 3 rejected 4 WrongKind $.kind

check
{@list, "items": [
    {"apiVersion": "tekton.dev/v1", "kind": "PipelineRun", "metadata": {"name": "a"}, "spec": {"pipelineSpec": {"tasks": [{"name": "b-c", @step}]}}},
    {"apiVersion": "tekton.dev/v1", "kind": "PipelineRun", "metadata": {"name": "a-b"}, "spec": {"pipelineSpec": {"tasks": [{"name": "c", @step}]}}}]}
=> 3 rejected 20 NameClash $.items[1] $.items[0]

check
{@list, "items": [
    {"apiVersion": "tekton.dev/v1", "kind": "Task", "metadata": {"name": "a"}, "spec": {"steps": [{"command": ["true"]}]}},
    {"apiVersion": "tekton.dev/v1", "kind": "TaskRun", "metadata": {"name": "a"}, "spec": {"taskRef": {"name": "a"}}},
    {"apiVersion": "tekton.dev/v1", "kind": "Task", "metadata": {"name": "a"}, "spec": {"steps": [{"command": ["false"]}]}}]}
=> 3 rejected 9 Duplicate $.items[2] a

check
{@run, "spec": {"timeouts": {"pipeline": "10s", "tasks": "8s", "finally": "3s"}, "pipelineSpec": {"tasks": [{"name": "a", @step}], "finally": [{"name": "f", @step}]}}}
=> 3 rejected 17 TimeoutsOverrun $.spec.timeouts

check
{@run, "spec": {"pipelineSpec": {"tasks": [{"name": "a", "runAfter": ["b\nok 1"], @step}]}}}
=> 3 rejected 12 UnknownTask $.spec.pipelineSpec.tasks[0].runAfter[0] "b\nok 1"

check
{@run, "spec": {"pipelineSpec": {"tasks": [{"name": "a", @step}]}}}
=> 0 ok 1

check
{@run, "spec": {"pipelineSpec": {"tasks": [{"name": "a", @step}], "tsaks": []}}}
=> 3 rejected 6 UnknownField $.spec.pipelineSpec.tsaks

check
{@run, "spec": {"pipelineSpec": {"tasks": [{"name": "a", @step, "when": [{"cel": "x"}]}]}}}
=> 3 rejected 7 Unsupported $.spec.pipelineSpec.tasks[0].when[0].cel

check
{@run, "spec": {"pipelineSpec": {"tasks": [{"name": "a", @step, "onError": "continue", "retries": 1}]}}}
=> 3 rejected 11 BadChoice $.spec.pipelineSpec.tasks[0].onError

check
{@run, "spec": {"pipelineSpec": {"tasks": [{"name": "a", @step, "params": [{"name": "v", "value": "$(tasks.b.results.r)"}]},
    {"name": "b", "runAfter": ["a"], "taskSpec": {"steps": [{"command": ["true"]}], "results": [{"name": "r"}]}}]}}}
=> 3 rejected 13 Cycle $.spec.pipelineSpec.tasks a b

check
{@run, "spec": {"pipelineSpec": {"tasks": [{"name": "t", @step, "matrix": {"params": [{"name": "os", "value": ["linux", "mac"]}]}},
    {"name": "t-0", @step}]}}}
=> 3 rejected 20 NameClash $ $

check
{@run, "spec": {"pipelineSpec": {"tasks": [{"name": "a", "runAfter": ["c"], @step}]}}}
=> 3 rejected 12 UnknownTask $.spec.pipelineSpec.tasks[0].runAfter[0] c

check
{@run, "spec": {"pipelineSpec": {"tasks": [{"name": "a", "taskSpec": {"steps": [{"command": ["echo", "x $(params.)"]}]}}]}}}
=> 3 rejected 14 BadReference $.spec.pipelineSpec.tasks[0].taskSpec.steps[0].command[1] 2

check
{@run, "spec": {"pipelineSpec": {"tasks": [{"name": "a", "taskSpec": {"steps": [{"command": ["echo", "$(params.x)"]}]}}]}}}
=> 3 rejected 15 UnknownVariable $.spec.pipelineSpec.tasks[0].taskSpec.steps[0].command[1] $(params.x)

check
{@run, "spec": {"pipelineSpec": {"tasks": [{"name": "a", "retries": 100, @step,
    "matrix": {"params": [{"name": "x", "value": ["0", "1", "2", "3", "4", "5", "6", "7", "8", "9", "10", "11", "12", "13", "14", "15"]},
    {"name": "y", "value": ["0", "1", "2", "3", "4", "5", "6", "7", "8", "9", "10", "11", "12", "13", "14", "15"]}]}},
    {"name": "b", "retries": 100, @step,
    "matrix": {"params": [{"name": "x", "value": ["0", "1", "2", "3", "4", "5", "6", "7", "8", "9", "10", "11", "12", "13", "14", "15"]},
    {"name": "y", "value": ["0", "1", "2", "3", "4", "5", "6", "7", "8", "9", "10", "11", "12", "13", "14", "15"]}]}}]}}}
=> 3 rejected 21 TooLarge $ 200000 363529

check
{@run, "spec": {"pipelineSpec": {"tasks": [{"name": "a", @step,
    "matrix": {"params": [{"name": "x", "value": ["0", "1", "2", "3", "4", "5", "6", "7", "8", "9", "10", "11", "12", "13", "14", "15"]},
    {"name": "y", "value": ["0", "1", "2", "3", "4", "5", "6", "7", "8", "9", "10", "11", "12", "13", "14", "15", "16"]}]}}]}}}
=> 3 rejected 21 TooLarge $ 256 272

# What is admitted and can't start, with what is said of it.
check
{@run, "spec": {"pipelineRef": {"name": "p"}}}
=> 0 ok 1
tkn: warning: PipelineRun r is admitted and can't start (CouldntGetPipeline): no Pipeline has the name p; add one in front of it

check
{@list, "items": [
    {@run, "spec": {"pipelineSpec": {"tasks": [{"name": "a", "taskRef": {"name": "t"}}]}}},
    {"apiVersion": "tekton.dev/v1", "kind": "Task", "metadata": {"name": "t"}, "spec": {"steps": [{"command": ["true"]}]}}]}
=> 0 ok 2
tkn: warning: PipelineRun r is admitted and can't start (CouldntGetTask): Task t of pipeline task a stands only behind it; put it in front of it

check
{@list, "items": [
    {@run, "spec": {"pipelineSpec": {"params": [{"name": "p"}], "tasks": [{"name": "a", @step}]}}},
    {"apiVersion": "tekton.dev/v1", "kind": "TaskRun", "metadata": {"name": "q"}, "spec": {"taskRef": {"name": "t"}}}]}
=> 0 ok 2
tkn: warning: PipelineRun r is admitted and can't start (ParameterMissing): parameter p of the Pipeline has no value; give it in the run's `params`, or declare a `default`
tkn: warning: TaskRun q is admitted and can't start (CouldntGetTask): no Task has the name t; add one in front of it

# Each rule, and of two rules the one that is told.
check
{@run, "spec": {"pipelineSpec": {"tasks": [{"name": "a", "retries": 101, @step}]}}}
=> 3 rejected 21 TooLarge $.spec.pipelineSpec.tasks[0].retries 100 101

check
{@run, "spec": {"pipelineSpec": {"params": [{"name": "x"}, {"name": "x"}], "tasks": [{"name": "a", @step}]}}}
=> 3 rejected 9 Duplicate $.spec.pipelineSpec.params[1] x

check
{@run, "spec": {"pipelineSpec": {"tasks": [{"name": "a", @step}, {"name": "a", @step}]}}}
=> 3 rejected 9 Duplicate $.spec.pipelineSpec.tasks[1] a

check
{@run, "spec": {"pipelineSpec": {"tasks": [{"name": "a", @step}], "finally": [{"name": "a", @step}]}}}
=> 3 rejected 9 Duplicate $.spec.pipelineSpec.finally[0] a

check
{@run, "spec": {"pipelineSpec": {"tasks": [{"name": "a", @step}], "results": [{"name": "r", "value": ""}, {"name": "r", "value": ""}]}}}
=> 3 rejected 9 Duplicate $.spec.pipelineSpec.results[1] r

check
{@run, "spec": {"pipelineSpec": {"tasks": [{"name": "a", "params": [{"name": "p", "value": ""}, {"name": "p", "value": ""}], @step}]}}}
=> 3 rejected 9 Duplicate $.spec.pipelineSpec.tasks[0].params[1] p

check
{@run, "spec": {"pipelineSpec": {"tasks": [{"name": "a", "matrix": {"params": [{"name": "p", "value": []}, {"name": "p", "value": []}]}, @step}]}}}
=> 3 rejected 9 Duplicate $.spec.pipelineSpec.tasks[0].matrix.params[1] p

check
{@run, "spec": {"pipelineSpec": {"tasks": [{"name": "a", "taskSpec": {"params": [{"name": "p"}, {"name": "p"}], "steps": [{"script": ""}]}}]}}}
=> 3 rejected 9 Duplicate $.spec.pipelineSpec.tasks[0].taskSpec.params[1] p

check
{@run, "spec": {"pipelineSpec": {"tasks": [{"name": "a", "taskSpec": {"results": [{"name": "r"}, {"name": "r"}], "steps": [{"script": ""}]}}]}}}
=> 3 rejected 9 Duplicate $.spec.pipelineSpec.tasks[0].taskSpec.results[1] r

check
{@run, "spec": {"pipelineSpec": {"tasks": [{"name": "a", "taskSpec": {"steps": [{"name": "s", "script": ""}, {"name": "s", "script": ""}]}}]}}}
=> 3 rejected 9 Duplicate $.spec.pipelineSpec.tasks[0].taskSpec.steps[1] s

check
{@run, "spec": {"pipelineSpec": {"tasks": [{"name": "a", "taskSpec": {"steps": [{"script": "", "env": [{"name": "E"}, {"name": "E"}]}]}}]}}}
=> 3 rejected 9 Duplicate $.spec.pipelineSpec.tasks[0].taskSpec.steps[0].env[1] E

check
{@run, "spec": {"pipelineSpec": {"params": [{"name": "x", "type": "array", "default": ""}], "tasks": [{"name": "a", @step}]}}}
=> 3 rejected 16 WrongType $.spec.pipelineSpec.params[0].default

check
{@run, "spec": {"pipelineSpec": {"params": [{"name": "x", "type": "object"}], "tasks": [{"name": "a", @step}]}}}
=> 3 rejected 16 WrongType $.spec.pipelineSpec.params[0]

check
{@run, "spec": {"pipelineSpec": {"tasks": [{"name": "a", "matrix": {"include": [{"params": [{"name": "p", "value": ["x"]}]}]}, @step}]}}}
=> 3 rejected 16 WrongType $.spec.pipelineSpec.tasks[0].matrix.include[0].params[0].value

check
{@run, "spec": {"pipelineSpec": {"tasks": [{"name": "a", "params": [{"name": "p", "value": ""}], "matrix": {"params": [{"name": "p", "value": ["x"]}]}, @step}]}}}
=> 3 rejected 18 MatrixConflict $.spec.pipelineSpec.tasks[0].matrix.params[0] p

check
{@run, "spec": {"pipelineSpec": {"tasks": [{"name": "a", "matrix": {"params": [{"name": "p", "value": "x"}]}, @step}]}}}
=> 3 rejected 18 MatrixConflict $.spec.pipelineSpec.tasks[0].matrix.params[0].value p

check
{@run, "spec": {"pipelineSpec": {"tasks": [{"name": "a", "matrix": {"params": [{"name": "p", "value": ["x"]}]}, @step}, {"name": "b", "params": [{"name": "q", "value": "$(tasks.a.results.r)"}], @step}]}}}
=> 3 rejected 18 MatrixConflict $.spec.pipelineSpec.tasks[1].params[0].value a

check
{@run, "spec": {"pipelineSpec": {"tasks": [{"name": "a", @step}], "finally": [{"name": "f", "runAfter": ["a"], @step}]}}}
=> 3 rejected 19 FinallyRule $.spec.pipelineSpec.finally[0].runAfter

check
{@run, "spec": {"pipelineSpec": {"tasks": [{"name": "a", "params": [{"name": "q", "value": "$(tasks.f.results.r)"}], @step}], "finally": [{"name": "f", @step}]}}}
=> 3 rejected 19 FinallyRule $.spec.pipelineSpec.tasks[0].params[0].value

check
{@run, "spec": {"pipelineSpec": {"tasks": [{"name": "a", "params": [{"name": "q", "value": "$(tasks.status)"}], @step}]}}}
=> 3 rejected 19 FinallyRule $.spec.pipelineSpec.tasks[0].params[0].value

check
{@run, "spec": {"pipelineSpec": {"tasks": [{"name": "a", "workspaces": [{"name": "w", "workspace": "v"}], @step}]}}}
=> 3 rejected 11 BadChoice $.spec.pipelineSpec.tasks[0].workspaces[0]

check
{@run, "spec": {"pipelineSpec": {"tasks": [{"name": "a", "when": [{"input": "$(params.", "operator": "in", "values": []}], @step}]}}}
=> 3 rejected 14 BadReference $.spec.pipelineSpec.tasks[0].when[0].input 0

check
{@run, "spec": {"pipelineSpec": {"tasks": [{"name": "a", @step}], "results": [{"name": "r", "value": "x $(params.y)"}]}}}
=> 3 rejected 15 UnknownVariable $.spec.pipelineSpec.results[0].value $(params.y)

check
{@run, "spec": {"pipelineSpec": {"tasks": [{"name": "a", "params": [{"name": "q", "value": "$(tasks.c.results.r)"}], @step}]}}}
=> 3 rejected 12 UnknownTask $.spec.pipelineSpec.tasks[0].params[0].value c

check
{@run, "spec": {"pipelineSpec": {"params": [{"name": "x", "type": "array"}], "tasks": [{"name": "a", "params": [{"name": "q", "value": "-$(params.x)"}], @step}]}}}
=> 3 rejected 16 WrongType $.spec.pipelineSpec.tasks[0].params[0].value

check
{@run, "spec": {"pipelineSpec": {"tasks": [{"name": "a", "runAfter": ["b"], @step}, {"name": "b", "runAfter": ["a"], @step}]}}}
=> 3 rejected 13 Cycle $.spec.pipelineSpec.tasks a b

check
{@run, "spec": {"pipelineSpec": {"params": [{"name": "x"}, {"name": "x"}], "tasks": [{"name": "a", "retries": 101, @step}]}}}
=> 3 rejected 21 TooLarge $.spec.pipelineSpec.tasks[0].retries 100 101

check
{@run, "spec": {"pipelineSpec": {"params": [{"name": "x", "type": "array", "default": ""}], "tasks": [{"name": "a", @step}, {"name": "a", @step}]}}}
=> 3 rejected 9 Duplicate $.spec.pipelineSpec.tasks[1] a

check
{@run, "spec": {"pipelineSpec": {"params": [{"name": "x", "type": "object"}], "tasks": [{"name": "a", "matrix": {"params": [{"name": "p", "value": "x"}]}, @step}]}}}
=> 3 rejected 16 WrongType $.spec.pipelineSpec.params[0]

check
{@run, "spec": {"pipelineSpec": {"tasks": [{"name": "a", "matrix": {"params": [{"name": "p", "value": "x"}]}, @step}], "finally": [{"name": "f", "runAfter": ["a"], @step}]}}}
=> 3 rejected 18 MatrixConflict $.spec.pipelineSpec.tasks[0].matrix.params[0].value p

check
{@run, "spec": {"pipelineSpec": {"tasks": [{"name": "a", "workspaces": [{"name": "w", "workspace": "v"}], @step}], "finally": [{"name": "f", "runAfter": ["a"], @step}]}}}
=> 3 rejected 19 FinallyRule $.spec.pipelineSpec.finally[0].runAfter

check
{@run, "spec": {"pipelineSpec": {"tasks": [{"name": "a", "params": [{"name": "q", "value": "$(params."}], "workspaces": [{"name": "w", "workspace": "v"}], @step}]}}}
=> 3 rejected 11 BadChoice $.spec.pipelineSpec.tasks[0].workspaces[0]

check
{@run, "spec": {"pipelineSpec": {"params": [{"name": "x", "type": "array"}], "tasks": [{"name": "a", "params": [{"name": "q", "value": "$(params.y) $(params."}], @step}]}}}
=> 3 rejected 14 BadReference $.spec.pipelineSpec.tasks[0].params[0].value 12

check
{@run, "spec": {"pipelineSpec": {"tasks": [{"name": "a", "params": [{"name": "q", "value": "$(tasks.c.results.r) $(params.y)"}], @step}]}}}
=> 3 rejected 15 UnknownVariable $.spec.pipelineSpec.tasks[0].params[0].value $(params.y)

check
{@run, "spec": {"pipelineSpec": {"params": [{"name": "x", "type": "array"}], "tasks": [{"name": "a", "params": [{"name": "q", "value": "$(params.x) $(tasks.c.results.r)"}], @step}]}}}
=> 3 rejected 12 UnknownTask $.spec.pipelineSpec.tasks[0].params[0].value c

check
{@run, "spec": {"pipelineSpec": {"params": [{"name": "x", "type": "array"}], "tasks": [{"name": "a", "runAfter": ["a"], "params": [{"name": "q", "value": "-$(params.x)"}], @step}]}}}
=> 3 rejected 16 WrongType $.spec.pipelineSpec.tasks[0].params[0].value

# Each reason why a run can't start, and of two reasons the one that is told.
decide
{@list, "items": [
    {@run, "spec": {"pipelineRef": {"name": "p"}}},
    {@outcomes, "spec": {}}]}
=> 1 pipelinerun r False CouldntGetPipeline

decide
{@list, "items": [
    {@run, "spec": {"pipelineSpec": {"tasks": [{"name": "a", "taskRef": {"name": "t"}}]}}},
    {@outcomes, "spec": {}}]}
=> 1 pipelinerun r False CouldntGetTask

decide
{@list, "items": [
    {@run, "spec": {"pipelineSpec": {"params": [{"name": "x"}], "tasks": [{"name": "a", @step}]}}},
    {@outcomes, "spec": {}}]}
=> 1 pipelinerun r False ParameterMissing

decide
{@list, "items": [
    {@run, "spec": {"params": [{"name": "x", "value": ["y"]}], "pipelineSpec": {"params": [{"name": "x"}], "tasks": [{"name": "a", @step}]}}},
    {@outcomes, "spec": {}}]}
=> 1 pipelinerun r False ParameterTypeMismatch

decide
{@list, "items": [
    {@run, "spec": {"pipelineSpec": {"tasks": [{"name": "a", @step}, {"name": "b", "params": [{"name": "q", "value": "$(tasks.a.results.r)"}], @step}]}}},
    {@outcomes, "spec": {}}]}
=> 1 pipelinerun r False InvalidTaskResultReference

decide
{@list, "items": [
    {@run, "spec": {"pipelineSpec": {"workspaces": [{"name": "w"}], "tasks": [{"name": "a", @step}]}}},
    {@outcomes, "spec": {}}]}
=> 1 pipelinerun r False InvalidWorkspaceBindings

decide
{@list, "items": [
    {@run, "spec": {"pipelineSpec": {"params": [{"name": "x"}], "tasks": [{"name": "a", "taskRef": {"name": "t"}}]}}},
    {@outcomes, "spec": {}}]}
=> 1 pipelinerun r False CouldntGetTask

decide
{@list, "items": [
    {@run, "spec": {"params": [{"name": "x", "value": ["y"]}], "pipelineSpec": {"params": [{"name": "x"}, {"name": "z"}], "tasks": [{"name": "a", @step}]}}},
    {@outcomes, "spec": {}}]}
=> 1 pipelinerun r False ParameterMissing

decide
{@list, "items": [
    {@run, "spec": {"params": [{"name": "x", "value": ["y"]}], "pipelineSpec": {"params": [{"name": "x"}], "tasks": [{"name": "a", @step}, {"name": "b", "params": [{"name": "q", "value": "$(tasks.a.results.r)"}], @step}]}}},
    {@outcomes, "spec": {}}]}
=> 1 pipelinerun r False ParameterTypeMismatch

decide
{@list, "items": [
    {@run, "spec": {"pipelineSpec": {"workspaces": [{"name": "w"}], "tasks": [{"name": "a", @step}, {"name": "b", "params": [{"name": "q", "value": "$(tasks.a.results.r)"}], @step}]}}},
    {@outcomes, "spec": {}}]}
=> 1 pipelinerun r False InvalidTaskResultReference

# Words that are no command, beside one.
decide decide
{
=> 2

decide run
{
=> 2

check check
{
=> 2

check --
{
=> 2

decide --
{
=> 2

decide
{
=> 3 rejected 1 BadJson

@none
=> 2

@empty
=> 2

# A read or a write that fails, or that comes no more.
check | read 0
{
=> 4

check | read 1
{
=> 4

check | read 2
{
=> 3 rejected 1 BadJson

check | write 0
{
=> 5

check | write 1
{
=> 3 rejected 1 BadJson

# An input of 8 MiB, and one that is longer.
decide
@spaces 8388609
=> 3 rejected 22 TooLong

decide
@spaces 8388608
=> 3 rejected 1 BadJson"#;
