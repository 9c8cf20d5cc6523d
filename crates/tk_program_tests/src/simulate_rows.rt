//! Rows of `simulate`.

/// What is printed of runs that are played to their end.
pub(crate) const PLAYED: &str =
    r#"# Objects, with a Scenario or without, and what is printed of their runs.
simulate
{@run, "spec": {"pipelineSpec": {"tasks": [{"name": "a", @step}]}}}
=> 0 pipelinerun r True Succeeded
  taskrun r-a a 0 Succeeded attempts 1

simulate
{@list, "items": [
    {@run, "spec": {"pipelineSpec": {"tasks": [{"name": "a", @step}, {"name": "b", @step, "runAfter": ["a"]}]}}},
    {@scenario, "spec": {"outcomes": [{"taskRun": "r-a", "attempt": 1, "exits": [1]}]}}]}
=> 1 pipelinerun r False Failed
  taskrun r-a a 0 Failed 1 attempts 1
  skipped b PipelineRun was stopping

simulate
{@run, "spec": {"pipelineSpec": {"tasks": [{"name": "a", "when": [{"input": "x", "operator": "in", "values": ["y"]}], "taskSpec": {"steps": [{"command": ["true"]}], "results": [{"name": "r"}]}}, {"name": "b", @step, "runAfter": ["a"]}, {"name": "c", @step, "params": [{"name": "v", "value": "$(tasks.a.results.r)"}]}, {"name": "d", @step, "runAfter": ["c"]}]}}}
=> 0 pipelinerun r True Completed
  skipped a When Expressions evaluated to false
  taskrun r-b b 0 Succeeded attempts 1
  skipped c Results were missing
  skipped d Parent Tasks were skipped

simulate
{@run, "spec": {"params": [{"name": "o", "value": {"a": "x"}}], "pipelineSpec": {"params": [{"name": "o", "type": "object", "properties": {"a": {}, "b": {}}, "default": {"b": "y"}}], "tasks": [
    {"name": "a", "when": [{"input": "$(params.o.a)$(params.o.b)", "operator": "in", "values": ["xy"]}], "params": [{"name": "p", "value": {"k": "$(params.o.a)"}}], "taskSpec": {"params": [{"name": "p", "type": "object", "properties": {"k": {}}}], "steps": [{"command": ["echo", "$(params.p.k)"]}]}},
    {"name": "b", @step, "when": [{"input": "$(params.o.b)", "operator": "in", "values": ["x"]}]}]}}}
=> 0 pipelinerun r True Completed
  taskrun r-a a 0 Succeeded attempts 1
  skipped b When Expressions evaluated to false

simulate
{@run, "spec": {"pipelineSpec": {"tasks": [{"name": "a", @step, "matrix": {"params": [{"name": "p", "value": []}]}}]}}}
=> 0 pipelinerun r True Completed
  skipped a Matrix Parameters have an empty array

simulate
{@list, "items": [
    {@run, "spec": {"pipelineSpec": {"tasks": [{"name": "a", @step, "retries": 2}]}}},
    {@scenario, "spec": {"outcomes": [{"taskRun": "r-a", "attempt": 1, "exits": [1]}, {"taskRun": "r-a", "attempt": 2, "exits": [1]}, {"taskRun": "r-a", "attempt": 3, "exits": [0]}]}}]}
=> 0 pipelinerun r True Succeeded
  taskrun r-a a 0 Succeeded attempts 3

simulate
{@list, "items": [
    {@run, "spec": {"pipelineSpec": {"tasks": [{"name": "a", @step, "retries": 2}]}}},
    {@scenario, "spec": {"outcomes": [{"taskRun": "r-a", "attempt": 1, "exits": [1]}, {"taskRun": "r-a", "attempt": 2, "exits": [1]}, {"taskRun": "r-a", "attempt": 3, "exits": [1]}]}}]}
=> 1 pipelinerun r False Failed
  taskrun r-a a 0 Failed 1 attempts 3

simulate
{@list, "items": [
    {@run, "spec": {"pipelineSpec": {"tasks": [{"name": "a", @step}]}}},
    {@scenario, "spec": {"events": ["deliver controller 0 all", "turn runs 0", "deliver controller 0 all", "turn runs 0", "ask r Cancelled"]}}]}
=> 1 pipelinerun r False Cancelled
  taskrun r-a a 0 Cancelled attempts 0

simulate
{@list, "items": [
    {@run, "spec": {"pipelineSpec": {"tasks": [{"name": "a", @step, "retries": 1}, {"name": "b", @step, "runAfter": ["a"]}], "finally": [{"name": "f", @step}]}}},
    {@scenario, "spec": {"outcomes": [{"taskRun": "r-a", "attempt": 1, "exits": [1]}], "events": ["round", "round", "round", "round", "round", "ask r StoppedRunFinally"]}}]}
=> 1 pipelinerun r False Cancelled
  taskrun r-a a 0 Succeeded attempts 2
  skipped b PipelineRun was gracefully stopped
  taskrun r-f f 0 Succeeded attempts 1

simulate
{@list, "items": [
    {@run, "spec": {"pipelineSpec": {"tasks": [{"name": "a", @step}], "finally": [{"name": "f", @step}]}, "timeouts": {"pipeline": "10s", "tasks": "8s"}}},
    {@scenario, "spec": {"events": ["round", "round", "round", "round", "round", "clock 7999", "turn runs 0", "clock 8000", "turn runs 0"]}}]}
=> 1 pipelinerun r False Failed
  taskrun r-a a 0 Cancelled attempts 1
  taskrun r-f f 0 Succeeded attempts 1

simulate
{@run, "spec": {"pipelineSpec": {"tasks": [{"name": "a", @step}]}, "status": "PipelineRunPending"}}
=> 7 pipelinerun r Unknown PipelineRunPending

simulate
{@list, "items": [
    {@run, "spec": {"pipelineSpec": {"tasks": [{"name": "a", @step}]}, "status": "PipelineRunPending"}},
    {@scenario, "spec": {"events": ["ask r Start"]}}]}
=> 0 pipelinerun r True Succeeded
  taskrun r-a a 0 Succeeded attempts 1

simulate
{@list, "items": [
    {@run, "spec": {"pipelineSpec": {"tasks": [{"name": "a", @step}]}}},
    {@scenario, "spec": {"events": ["round", "round", "round", "round", "restart kubelet 0"]}}]}
=> 1 pipelinerun r False Failed
  taskrun r-a a 0 Lost attempts 1

simulate
{@list, "items": [
    {@run, "spec": {"pipelineSpec": {"tasks": [{"name": "a", @step, "retries": 1}]}}},
    {@scenario, "spec": {"events": ["round", "round", "round", "round", "restart kubelet 0"]}}]}
=> 0 pipelinerun r True Succeeded
  taskrun r-a a 0 Succeeded attempts 2

simulate
{@run, "spec": {"pipelineRef": {"name": "none"}}}
=> 1 pipelinerun r False CouldntGetPipeline

simulate
{@list, "items": [
    {"apiVersion": "tekton.dev/v1", "kind": "Pipeline", "metadata": {"name": "p"}, "spec": {"params": [{"name": "x"}], "tasks": [{"name": "a", @step, "when": [{"input": "$(params.x)", "operator": "in", "values": ["go"]}]}]}},
    {"apiVersion": "tekton.dev/v1", "kind": "PipelineRun", "metadata": {"name": "r1"}, "spec": {"pipelineRef": {"name": "p"}, "params": [{"name": "x", "value": "go"}]}},
    {"apiVersion": "tekton.dev/v1", "kind": "PipelineRun", "metadata": {"name": "r2"}, "spec": {"pipelineRef": {"name": "p"}, "params": [{"name": "x", "value": "go"}]}},
    {"apiVersion": "tekton.dev/v1", "kind": "PipelineRun", "metadata": {"name": "r3"}, "spec": {"pipelineRef": {"name": "p"}, "params": [{"name": "x", "value": "no"}]}},
    {"apiVersion": "tekton.dev/v1", "kind": "PipelineRun", "metadata": {"name": "r4"}, "spec": {"pipelineRef": {"name": "p"}}}]}
=> 1 pipelinerun r1 True Succeeded
  taskrun r1-a a 0 Succeeded attempts 1
pipelinerun r2 True Succeeded
  taskrun r2-a a 0 Succeeded attempts 1
pipelinerun r3 True Completed
  skipped a When Expressions evaluated to false
pipelinerun r4 False ParameterMissing

simulate
{@list, "items": [
    {"apiVersion": "tekton.dev/v1", "kind": "Pipeline", "metadata": {"name": "p"}, "spec": {"params": [{"name": "l", "type": "array"}], "tasks": [{"name": "a", @step, "when": [{"input": "$(params.l[1])", "operator": "in", "values": ["go"]}]}]}},
    {"apiVersion": "tekton.dev/v1", "kind": "PipelineRun", "metadata": {"name": "r1"}, "spec": {"pipelineRef": {"name": "p"}, "params": [{"name": "l", "value": ["u", "go"]}]}},
    {"apiVersion": "tekton.dev/v1", "kind": "PipelineRun", "metadata": {"name": "r2"}, "spec": {"pipelineRef": {"name": "p"}, "params": [{"name": "l", "value": ["v", "no"]}]}},
    {"apiVersion": "tekton.dev/v1", "kind": "PipelineRun", "metadata": {"name": "r3"}, "spec": {"pipelineRef": {"name": "p"}, "params": [{"name": "l", "value": ["w"]}]}}]}
=> 1 pipelinerun r1 True Succeeded
  taskrun r1-a a 0 Succeeded attempts 1
pipelinerun r2 True Completed
  skipped a When Expressions evaluated to false
pipelinerun r3 False ParameterMissing

simulate
{@list, "items": [
    {"apiVersion": "tekton.dev/v1", "kind": "Task", "metadata": {"name": "t"}, "spec": {"steps": [{"command": ["true"]}], "params": [{"name": "x"}]}},
    {@run, "spec": {"pipelineSpec": {"tasks": [{"name": "a", "taskRef": {"name": "t"}}]}}}]}
=> 1 pipelinerun r False ParameterMissing

simulate
{@run, "spec": {"pipelineSpec": {"tasks": [{"name": "a", "taskSpec": {"steps": [{"command": ["true"]}], "results": [{"name": "r"}]}}, {"name": "c", @step, "params": [{"name": "v", "value": "$(tasks.a.results.r)"}]}]}}}
=> 1 pipelinerun r False InvalidTaskResultReference
  taskrun r-a a 0 Succeeded attempts 1
  skipped c Results were missing

simulate
{@run, "spec": {"pipelineSpec": {"tasks": [{"name": "a", @step, "matrix": {"params": [{"name": "os", "value": ["linux", "mac"]}]}}]}}}
=> 0 pipelinerun r True Succeeded
  taskrun r-a-0 a 0 Succeeded attempts 1
  taskrun r-a-1 a 1 Succeeded attempts 1

simulate
{"apiVersion": "tekton.dev/v1", "kind": "TaskRun", "metadata": {"name": "q"}, "spec": {@step}}
=> 0 taskrun q True Succeeded attempts 1

simulate
{@run, "spec": {"pipelineSpec": {"tasks": [{"name": "a", @step}]}, "status": "Cancelled"}}
=> 1 pipelinerun r False Cancelled
  skipped a PipelineRun was cancelled

simulate
{@list, "items": [
    {@run, "spec": {"pipelineSpec": {"tasks": [{"name": "a", @step, "onError": "continue"}, {"name": "b", @step, "runAfter": ["a"]}]}}},
    {@scenario, "spec": {"outcomes": [{"taskRun": "r-a", "attempt": 1, "exits": [1]}]}}]}
=> 0 pipelinerun r True Succeeded
  taskrun r-a a 0 Failed 1 attempts 1
  taskrun r-b b 0 Succeeded attempts 1

simulate
{@list, "items": [
    {@run, "spec": {"pipelineSpec": {"tasks": [{"name": "a", "onError": "continue", "taskSpec": {"steps": [{"command": ["true"]}], "results": [{"name": "r"}]}}, {"name": "c", @step, "params": [{"name": "v", "value": "$(tasks.a.results.r)"}]}]}}},
    {@scenario, "spec": {"outcomes": [{"taskRun": "r-a", "attempt": 1, "exits": [1], "results": {"r": "v"}}]}}]}
=> 0 pipelinerun r True Succeeded
  taskrun r-a a 0 Failed 1 attempts 1
  taskrun r-c c 0 Succeeded attempts 1

simulate
{@list, "items": [
    {@run, "spec": {"pipelineSpec": {"tasks": [{"name": "a", "onError": "continue", "taskSpec": {"steps": [{"command": ["true"]}], "results": [{"name": "r"}]}}, {"name": "c", @step, "params": [{"name": "v", "value": "$(tasks.a.results.r)"}]}]}}},
    {@scenario, "spec": {"outcomes": [{"taskRun": "r-a", "attempt": 1, "exits": [1]}]}}]}
=> 1 pipelinerun r False InvalidTaskResultReference
  taskrun r-a a 0 Failed 1 attempts 1
  skipped c Results were missing

simulate
{@run, "spec": {"pipelineSpec": {"tasks": [{"name": "a", "taskSpec": {"steps": [{"command": ["true"]}], "workspaces": [{"name": "ws"}]}}]}}}
=> 1 pipelinerun r False InvalidWorkspaceBindings

simulate
{@list, "items": []}
=> 0

# The same runs as text and as JSON.
simulate
{"apiVersion":"v1","kind":"List","items":[]}
=> 0

simulate --json
{"apiVersion":"v1","kind":"List","items":[]}
=> 0 []

simulate
{"apiVersion":"tekton.dev/v1","kind":"PipelineRun","metadata":{"name":"r"},"spec":{"pipelineSpec":{"tasks":[{"name":"a","taskSpec":{"steps":[{"command":["true"]}]}}]}}}
=> 0 pipelinerun r True Succeeded
  taskrun r-a a 0 Succeeded attempts 1

simulate --json
{"apiVersion":"tekton.dev/v1","kind":"PipelineRun","metadata":{"name":"r"},"spec":{"pipelineSpec":{"tasks":[{"name":"a","taskSpec":{"steps":[{"command":["true"]}]}}]}}}
=> 0 [{"childReferences":[{"attempts":1,"index":0,"name":"r-a","outcome":"Succeeded","task":"a"}],"kind":"PipelineRun","name":"r","reason":"Succeeded","results":[],"skippedTasks":[],"startTime":"1970-01-01T00:00:00.000Z","status":"True"}]

simulate
{"apiVersion":"tekton.dev/v1","kind":"PipelineRun","metadata":{"name":"r"},"spec":{"status":"PipelineRunPending","pipelineSpec":{"tasks":[{"name":"a","taskSpec":{"steps":[{"command":["true"]}]}}]}}}
=> 7 pipelinerun r Unknown PipelineRunPending

simulate --json
{"apiVersion":"tekton.dev/v1","kind":"PipelineRun","metadata":{"name":"r"},"spec":{"status":"PipelineRunPending","pipelineSpec":{"tasks":[{"name":"a","taskSpec":{"steps":[{"command":["true"]}]}}]}}}
=> 7 [{"childReferences":[],"kind":"PipelineRun","name":"r","reason":"PipelineRunPending","results":[],"skippedTasks":[],"startTime":null,"status":"Unknown"}]

simulate
{"apiVersion":"tekton.dev/v1","kind":"PipelineRun","metadata":{"name":"r"},"spec":{"pipelineRef":{"name":"none"}}}
=> 1 pipelinerun r False CouldntGetPipeline

simulate --json
{"apiVersion":"tekton.dev/v1","kind":"PipelineRun","metadata":{"name":"r"},"spec":{"pipelineRef":{"name":"none"}}}
=> 1 [{"childReferences":[],"kind":"PipelineRun","name":"r","reason":"CouldntGetPipeline","results":[],"skippedTasks":[],"startTime":null,"status":"False"}]

simulate
{"apiVersion":"tekton.dev/v1","kind":"PipelineRun","metadata":{"name":"r"},"spec":{"params":[{"name":"p","value":"x"}],"pipelineSpec":{"params":[{"name":"p"}],"tasks":[{"name":"a","when":[{"input":"$(params.p)","operator":"in","values":["y","z"]}],"taskSpec":{"results":[{"name":"out"}],"steps":[{"command":["true"]}]}},{"name":"b","when":[{"input":"$(tasks.a.results.out)","operator":"notin","values":["1"]}],"taskSpec":{"steps":[{"command":["true"]}]}}]}}}
=> 0 pipelinerun r True Completed
  skipped a When Expressions evaluated to false
  skipped b Results were missing

simulate --json
{"apiVersion":"tekton.dev/v1","kind":"PipelineRun","metadata":{"name":"r"},"spec":{"params":[{"name":"p","value":"x"}],"pipelineSpec":{"params":[{"name":"p"}],"tasks":[{"name":"a","when":[{"input":"$(params.p)","operator":"in","values":["y","z"]}],"taskSpec":{"results":[{"name":"out"}],"steps":[{"command":["true"]}]}},{"name":"b","when":[{"input":"$(tasks.a.results.out)","operator":"notin","values":["1"]}],"taskSpec":{"steps":[{"command":["true"]}]}}]}}}
=> 0 [{"childReferences":[],"kind":"PipelineRun","name":"r","reason":"Completed","results":[],"skippedTasks":[{"name":"a","reason":"When Expressions evaluated to false","whenExpressions":[{"input":"x","operator":"in","values":["y","z"]}]},{"name":"b","reason":"Results were missing","whenExpressions":[{"input":"$(tasks.a.results.out)","operator":"notin","values":["1"]}]}],"startTime":"1970-01-01T00:00:00.000Z","status":"True"}]

simulate
{"apiVersion":"v1","kind":"List","items":[{"apiVersion":"tekton.dev/v1","kind":"PipelineRun","metadata":{"name":"r"},"spec":{"pipelineSpec":{"tasks":[{"name":"m","retries":1,"matrix":{"params":[{"name":"q","value":["0","1"]}]},"taskSpec":{"params":[{"name":"q"}],"steps":[{"command":["true"]}]}},{"name":"n","runAfter":["m"],"taskSpec":{"steps":[{"command":["true"]}]}}]}}},{"apiVersion":"tkn.local/v1","kind":"Scenario","metadata":{"name":"s"},"spec":{"outcomes":[{"taskRun":"r-m-0","attempt":1,"exits":[3]},{"taskRun":"r-m-0","attempt":2,"exits":[4]}]}}]}
=> 1 pipelinerun r False Failed
  taskrun r-m-0 m 0 Failed 4 attempts 2
  taskrun r-m-1 m 1 Succeeded attempts 1
  skipped n PipelineRun was stopping

simulate --json
{"apiVersion":"v1","kind":"List","items":[{"apiVersion":"tekton.dev/v1","kind":"PipelineRun","metadata":{"name":"r"},"spec":{"pipelineSpec":{"tasks":[{"name":"m","retries":1,"matrix":{"params":[{"name":"q","value":["0","1"]}]},"taskSpec":{"params":[{"name":"q"}],"steps":[{"command":["true"]}]}},{"name":"n","runAfter":["m"],"taskSpec":{"steps":[{"command":["true"]}]}}]}}},{"apiVersion":"tkn.local/v1","kind":"Scenario","metadata":{"name":"s"},"spec":{"outcomes":[{"taskRun":"r-m-0","attempt":1,"exits":[3]},{"taskRun":"r-m-0","attempt":2,"exits":[4]}]}}]}
=> 1 [{"childReferences":[{"attempts":2,"index":0,"name":"r-m-0","outcome":"Failed 4","task":"m"},{"attempts":1,"index":1,"name":"r-m-1","outcome":"Succeeded","task":"m"}],"kind":"PipelineRun","name":"r","reason":"Failed","results":[],"skippedTasks":[{"name":"n","reason":"PipelineRun was stopping","whenExpressions":[]}],"startTime":"1970-01-01T00:00:00.000Z","status":"False"}]

simulate
{"apiVersion":"v1","kind":"List","items":[{"apiVersion":"tekton.dev/v1","kind":"PipelineRun","metadata":{"name":"r"},"spec":{"pipelineSpec":{"results":[{"name":"all","value":"$(tasks.a.results.out)-1"}],"tasks":[{"name":"a","taskSpec":{"results":[{"name":"out"}],"steps":[{"command":["true"]}]}}]}}},{"apiVersion":"tekton.dev/v1","kind":"TaskRun","metadata":{"name":"q"},"spec":{"taskSpec":{"results":[{"name":"list","type":"array"}],"steps":[{"command":["true"]}]}}},{"apiVersion":"tkn.local/v1","kind":"Scenario","metadata":{"name":"s"},"spec":{"outcomes":[{"taskRun":"r-a","attempt":1,"exits":[0],"results":{"out":"v"}},{"taskRun":"q","attempt":1,"exits":[0],"results":{"list":"[\"b\",\"c\"]"}}]}}]}
=> 0 pipelinerun r True Succeeded
  taskrun r-a a 0 Succeeded attempts 1
  result all "v-1"
taskrun q True Succeeded attempts 1
  result list ["b","c"]

simulate --json
{"apiVersion":"v1","kind":"List","items":[{"apiVersion":"tekton.dev/v1","kind":"PipelineRun","metadata":{"name":"r"},"spec":{"pipelineSpec":{"results":[{"name":"all","value":"$(tasks.a.results.out)-1"}],"tasks":[{"name":"a","taskSpec":{"results":[{"name":"out"}],"steps":[{"command":["true"]}]}}]}}},{"apiVersion":"tekton.dev/v1","kind":"TaskRun","metadata":{"name":"q"},"spec":{"taskSpec":{"results":[{"name":"list","type":"array"}],"steps":[{"command":["true"]}]}}},{"apiVersion":"tkn.local/v1","kind":"Scenario","metadata":{"name":"s"},"spec":{"outcomes":[{"taskRun":"r-a","attempt":1,"exits":[0],"results":{"out":"v"}},{"taskRun":"q","attempt":1,"exits":[0],"results":{"list":"[\"b\",\"c\"]"}}]}}]}
=> 0 [{"childReferences":[{"attempts":1,"index":0,"name":"r-a","outcome":"Succeeded","task":"a"}],"kind":"PipelineRun","name":"r","reason":"Succeeded","results":[{"name":"all","value":"v-1"}],"skippedTasks":[],"startTime":"1970-01-01T00:00:00.000Z","status":"True"},{"childReferences":[],"kind":"TaskRun","name":"q","reason":"Succeeded","results":[{"name":"list","value":["b","c"]}],"skippedTasks":[],"startTime":null,"status":"True"}]

# Result files: an undeclared name is ignored, a missing file is no result, and one of another type is refused.
simulate
{@list, "items": [
    {"apiVersion": "tekton.dev/v1", "kind": "TaskRun", "metadata": {"name": "q"}, "spec": {"taskSpec": {"results": [{"name": "s"}, {"name": "l", "type": "array"}], "steps": [{"command": ["true"]}]}}},
    {@scenario, "spec": {"outcomes": [{"taskRun": "q", "attempt": 1, "exits": [0], "results": {"x": "[1]", "l": "[]", "y": ""}}]}}]}
=> 0 taskrun q True Succeeded attempts 1
  result l []

simulate
{@list, "items": [
    {"apiVersion": "tekton.dev/v1", "kind": "TaskRun", "metadata": {"name": "q"}, "spec": {"taskSpec": {"results": [{"name": "s"}, {"name": "l", "type": "array"}], "steps": [{"command": ["true"]}]}}},
    {@scenario, "spec": {"outcomes": [{"taskRun": "q", "attempt": 1, "exits": [0], "results": {"s": "a", "l": "[1]"}}]}}]}
=> 1 taskrun q False Failed attempts 1

# An attempt whose timeout has passed ends at its moment, and not before.
simulate
{@list, "items": [
    {@run, "spec": {"pipelineSpec": {"tasks": [{"name": "a", @step, "timeout": "1s"}]}}},
    {@scenario, "spec": {"events": ["round", "round", "round", "round", "clock 1000"]}}]}
=> 1 pipelinerun r False Failed
  taskrun r-a a 0 TimedOut attempts 1

simulate
{@list, "items": [
    {@run, "spec": {"pipelineSpec": {"tasks": [{"name": "a", @step, "timeout": "1s"}]}}},
    {@scenario, "spec": {"events": ["round", "round", "round", "round", "clock 999"]}}]}
=> 0 pipelinerun r True Succeeded
  taskrun r-a a 0 Succeeded attempts 1

# A run that is cancelled from the start: it is admitted, starts, stops and is closed.
simulate | tell entries
{@run, "spec": {"pipelineSpec": {"tasks": [{"name": "a", @step}]}, "status": "Cancelled"}}
=> 1 pipelinerun r False Cancelled
  skipped a PipelineRun was cancelled
entries 4

simulate | tell entries
{@run, "spec": {"pipelineSpec": {"tasks": [{"name": "a", @step}]}}}
=> 0 pipelinerun r True Succeeded
  taskrun r-a a 0 Succeeded attempts 1
entries 10"#;
