//! Rows of `decide`.

/// Labels, conditions and results of a run.
pub(crate) const DECIDED: &str = r#"# Runs whose labels and condition are decided.
decide
{@list, "items": [
    {@run, "spec": {"pipelineSpec": {"tasks": [{"name": "a", @step}, {"name": "b", @step}]}}},
    {@outcomes, "spec": {"children": [{"task": "a", "index": 0, "outcome": "Succeeded"}, {"task": "b", "index": 0, "outcome": "Succeeded"}]}}]}
=> 0 pipelinerun r True Succeeded
  ran a
  ran b

decide
{@list, "items": [
    {@run, "spec": {"pipelineSpec": {"tasks": [{"name": "a", @step}, {"name": "b", @step}]}}},
    {@outcomes, "spec": {"children": [{"task": "a", "index": 0, "outcome": "Succeeded"}, {"task": "b", "index": 0, "outcome": "Failed", "exit": 2}]}}]}
=> 1 pipelinerun r False Failed
  ran a
  ran b

decide
{@list, "items": [
    {@run, "spec": {"pipelineSpec": {"tasks": [{"name": "a", @step}, {"name": "b", @step}]}}},
    {@outcomes, "spec": {"children": [{"task": "a", "index": 0, "outcome": "Succeeded"}]}}]}
=> 7 pipelinerun r Unknown Running
  ran a
  ready b

decide
{@list, "items": [
    {@run, "spec": {"pipelineSpec": {"tasks": [{"name": "a", @step}, {"name": "b", @step, "runAfter": ["a"]}]}}},
    {@outcomes, "spec": {"children": [{"task": "a", "index": 0, "outcome": "Succeeded"}, {"task": "b", "index": 0, "outcome": "Succeeded"}]}}]}
=> 0 pipelinerun r True Succeeded
  ran a
  ran b

decide
{@list, "items": [
    {@run, "spec": {"pipelineSpec": {"tasks": [{"name": "a", @step}, {"name": "b", @step, "runAfter": ["a"]}]}}},
    {@outcomes, "spec": {"children": [{"task": "a", "index": 0, "outcome": "Succeeded"}]}}]}
=> 7 pipelinerun r Unknown Running
  ran a
  ready b

decide
{@list, "items": [
    {@run, "spec": {"pipelineSpec": {"tasks": [{"name": "a", @step}, {"name": "b", @step, "runAfter": ["a"]}]}}},
    {@outcomes, "spec": {"children": [{"task": "a", "index": 0, "outcome": "Running"}]}}]}
=> 7 pipelinerun r Unknown Running
  runs a
  waits b

decide
{@list, "items": [
    {@run, "spec": {"pipelineSpec": {"tasks": [{"name": "a", @step}, {"name": "b", @step, "runAfter": ["a"]}]}}},
    {@outcomes, "spec": {"children": [{"task": "a", "index": 0, "outcome": "Failed", "exit": 1}]}}]}
=> 7 pipelinerun r Unknown Running
  ran a
  waits b

decide
{@list, "items": [
    {@run, "spec": {"pipelineSpec": {"tasks": [{"name": "a", @step}, {"name": "b", @step, "runAfter": ["a"]}]}}},
    {@outcomes, "spec": {"stops": ["Failure"], "children": [{"task": "a", "index": 0, "outcome": "Failed", "exit": 1}]}}]}
=> 1 pipelinerun r False Failed
  ran a
  skipped b PipelineRun was stopping

decide
{@list, "items": [
    {@run, "spec": {"pipelineSpec": {"tasks": [{"name": "a", @step}]}}},
    {@outcomes, "spec": {"children": [{"task": "a", "index": 0, "outcome": "Cancelled"}]}}]}
=> 1 pipelinerun r False Cancelled
  ran a

decide
{@list, "items": [
    {@run, "spec": {"pipelineSpec": {"tasks": [{"name": "a", @step, "runAfter": ["b"]}, {"name": "b", @step, "runAfter": ["a"]}]}}},
    {@outcomes, "spec": {"children": []}}]}
=> 3 rejected 13 Cycle $.items[0].spec.pipelineSpec.tasks a b

decide
{@list, "items": [
    {@run, "spec": {"pipelineSpec": {"tasks": [{"name": "a", @step}, {"name": "b", @step}]}}},
    {@outcomes, "spec": {"children": [{"task": "a", "index": 0, "outcome": "Succeeded"}, {"task": "a", "index": 0, "outcome": "Failed"}]}}]}
=> 3 rejected 9 Duplicate $.items[1].spec.children[1] a

decide
{@list, "items": [
    {@run, "spec": {"pipelineSpec": {"tasks": [{"name": "a", @step}, {"name": "b", @step}]}}},
    {@outcomes, "spec": {"children": [{"task": "c", "index": 0, "outcome": "Succeeded"}]}}]}
=> 3 rejected 12 UnknownTask $.items[1].spec.children[0].task c

decide
{@list, "items": [
    {@run, "spec": {"pipelineSpec": {"tasks": []}}},
    {@outcomes, "spec": {"children": []}}]}
=> 3 rejected 5 MissingField $.items[0].spec.pipelineSpec.tasks

# A run behind some stops.
decide
{@list, "items": [
    {@run, "spec": {"pipelineSpec": {"tasks": [{"name": "a", @step}]}}},
    {@outcomes, "spec": {"stops": ["Failure"]}}]}
=> 0 pipelinerun r True Completed
  skipped a PipelineRun was stopping

decide
{@list, "items": [
    {@run, "spec": {"pipelineSpec": {"tasks": [{"name": "a", @step}]}}},
    {@outcomes, "spec": {"stops": ["StoppedRunFinally"]}}]}
=> 1 pipelinerun r False Cancelled
  skipped a PipelineRun was gracefully stopped

decide
{@list, "items": [
    {@run, "spec": {"pipelineSpec": {"tasks": [{"name": "a", @step}]}}},
    {@outcomes, "spec": {"stops": ["CancelledRunFinally"]}}]}
=> 1 pipelinerun r False Cancelled
  skipped a PipelineRun was gracefully cancelled

decide
{@list, "items": [
    {@run, "spec": {"pipelineSpec": {"tasks": [{"name": "a", @step}]}}},
    {@outcomes, "spec": {"stops": ["TasksTimeout"]}}]}
=> 1 pipelinerun r False Failed
  skipped a PipelineRun Tasks timeout has been reached

decide
{@list, "items": [
    {@run, "spec": {"pipelineSpec": {"tasks": [{"name": "a", @step}]}}},
    {@outcomes, "spec": {"stops": ["FinallyTimeout"]}}]}
=> 1 pipelinerun r False Failed
  skipped a PipelineRun Finally timeout has been reached

decide
{@list, "items": [
    {@run, "spec": {"pipelineSpec": {"tasks": [{"name": "a", @step}]}}},
    {@outcomes, "spec": {"stops": ["Cancelled"]}}]}
=> 1 pipelinerun r False Cancelled
  skipped a PipelineRun was cancelled

decide
{@list, "items": [
    {@run, "spec": {"pipelineSpec": {"tasks": [{"name": "a", @step}]}}},
    {@outcomes, "spec": {"stops": ["PipelineTimeout"]}}]}
=> 1 pipelinerun r False PipelineRunTimeout
  skipped a PipelineRun timeout has been reached

decide
{@list, "items": [
    {@run, "spec": {"pipelineSpec": {"tasks": [{"name": "a", @step}]}}},
    {@outcomes, "spec": {"stops": ["Failure", "TasksTimeout"]}}]}
=> 1 pipelinerun r False Failed
  skipped a PipelineRun was stopping

decide
{@list, "items": [
    {@run, "spec": {"pipelineSpec": {"tasks": [{"name": "a", @step}]}}},
    {@outcomes, "spec": {"stops": ["TasksTimeout", "Failure"]}}]}
=> 3 rejected 11 BadChoice $.items[1].spec.stops[1]

decide
{@list, "items": [
    {@run, "spec": {"pipelineSpec": {"tasks": [{"name": "a", @step}]}}},
    {@outcomes, "spec": {"stops": ["Failure", "Failure"]}}]}
=> 3 rejected 11 BadChoice $.items[1].spec.stops[1]

decide
{@list, "items": [
    {@run, "spec": {"pipelineSpec": {"tasks": [{"name": "a", @step}]}}},
    {@outcomes, "spec": {"stops": ["Stopped"]}}]}
=> 3 rejected 11 BadChoice $.items[1].spec.stops[0]

# Results of a run.
decide
{@list, "items": [
    {@run, "spec": {"pipelineSpec": {
        "tasks": [{"name": "a", "taskSpec": {"results": [{"name": "id"}, {"name": "files", "type": "array"}], "steps": [{"script": "true"}]}},
            {"name": "b", "when": [{"input": "$(tasks.a.results.id)", "operator": "in", "values": ["xyz"]}], "taskSpec": {"steps": [{"script": "true"}]}}],
        "finally": [{"name": "f", "taskSpec": {"steps": [{"script": "true"}]}}],
        "results": [{"name": "image", "value": "img-$(tasks.a.results.id)"}, {"name": "files", "value": "$(tasks.a.results.files[*])"}]}}},
    {@outcomes, "spec": {"children": [{"task": "f", "index": 0, "outcome": "Succeeded"}, {"task": "a", "index": 0, "outcome": "Succeeded", "results": {"id": "abc", "files": ["x", "y"]}}]}}]}
=> 0 pipelinerun r True Completed
  ran a
  skipped b When Expressions evaluated to false
  ran f
  result image "img-abc"
  result files ["x","y"]

decide
{@list, "items": [
    {@run, "spec": {"pipelineSpec": {
        "tasks": [{"name": "a", "taskSpec": {"results": [{"name": "id"}, {"name": "files", "type": "array"}], "steps": [{"script": "true"}]}},
            {"name": "b", "when": [{"input": "$(tasks.a.results.id)", "operator": "in", "values": ["xyz"]}], "taskSpec": {"steps": [{"script": "true"}]}}],
        "finally": [{"name": "f", "taskSpec": {"steps": [{"script": "true"}]}}],
        "results": [{"name": "image", "value": "img-$(tasks.a.results.id)"}, {"name": "files", "value": "$(tasks.a.results.files[*])"}]}}},
    {@outcomes, "spec": {"children": [{"task": "a", "index": 0, "outcome": "Succeeded", "results": {"id": "abc"}}, {"task": "f", "index": 0, "outcome": "Succeeded"}]}}]}
=> 0 pipelinerun r True Completed
  ran a
  skipped b When Expressions evaluated to false
  ran f
  result image "img-abc"

decide
{@list, "items": [
    {@run, "spec": {"pipelineSpec": {
        "tasks": [{"name": "a", "taskSpec": {"results": [{"name": "id"}, {"name": "files", "type": "array"}], "steps": [{"script": "true"}]}},
            {"name": "b", "when": [{"input": "$(tasks.a.results.id)", "operator": "in", "values": ["xyz"]}], "taskSpec": {"steps": [{"script": "true"}]}}],
        "finally": [{"name": "f", "taskSpec": {"steps": [{"script": "true"}]}}],
        "results": [{"name": "image", "value": "img-$(tasks.a.results.id)"}, {"name": "files", "value": "$(tasks.a.results.files[*])"}]}}},
    {@outcomes, "spec": {"children": [{"task": "a", "index": 0, "outcome": "Succeeded", "results": {"id": "xyz"}}]}}]}
=> 7 pipelinerun r Unknown Running
  ran a
  ready b
  waits f

decide
{@list, "items": [
    {@run, "spec": {"pipelineSpec": {
        "tasks": [{"name": "a", "taskSpec": {"results": [{"name": "id"}, {"name": "files", "type": "array"}], "steps": [{"script": "true"}]}},
            {"name": "b", "when": [{"input": "$(tasks.a.results.id)", "operator": "in", "values": ["xyz"]}], "taskSpec": {"steps": [{"script": "true"}]}}],
        "finally": [{"name": "f", "taskSpec": {"steps": [{"script": "true"}]}}],
        "results": [{"name": "image", "value": "img-$(tasks.a.results.id)"}, {"name": "files", "value": "$(tasks.a.results.files[*])"}]}}},
    {@outcomes, "spec": {"children": [{"task": "a", "index": 0, "outcome": "Succeeded", "results": {"id": "abc"}}]}}]}
=> 7 pipelinerun r Unknown Running
  ran a
  skipped b When Expressions evaluated to false
  ready f

# `decide` takes one run and its Outcomes.
decide
{@list, "items": []}
=> 3 rejected 5 MissingField $

decide
{@list, "items": [{@run, "spec": {"pipelineRef": {"name": "p"}}}]}
=> 3 rejected 5 MissingField $

decide
{@list, "items": [{@outcomes, "spec": {}}]}
=> 3 rejected 5 MissingField $

decide
{@list, "items": [
    {@run, "spec": {"pipelineRef": {"name": "p"}}},
    {"apiVersion": "tekton.dev/v1", "kind": "PipelineRun", "metadata": {"name": "q"}, "spec": {"pipelineRef": {"name": "p"}}}]}
=> 3 rejected 5 MissingField $

decide
{@list, "items": [
    {@run, "spec": {"pipelineRef": {"name": "p"}}},
    {@outcomes, "spec": {"children": [{"task": "a", "index": 0, "outcome": "Lost"}]}}]}
=> 3 rejected 12 UnknownTask $.items[1].spec.children[0].task a

decide
{@list, "items": [
    {@run, "spec": {"pipelineRef": {"name": "p"}}},
    {@outcomes, "spec": {}}]}
=> 1 pipelinerun r False CouldntGetPipeline

decide
{@list, "items": [
    {@outcomes, "spec": {}},
    {@run, "spec": {"pipelineRef": {"name": "p"}}}]}
=> 1 pipelinerun r False CouldntGetPipeline

decide
{@list, "items": [
    {@run, "spec": {"pipelineRef": {"name": "p"}}},
    {@run, "spec": {"pipelineRef": {"name": "p"}}}]}
=> 3 rejected 9 Duplicate $.items[1] r

decide
{@list, "items": [
    {@run, "spec": {"pipelineRef": {"name": "p"}}},
    {@outcomes, "spec": {}},
    {"apiVersion": "tekton.dev/v1", "kind": "PipelineRun", "metadata": {"name": "q"}, "spec": {"pipelineRef": {"name": "p"}}}]}
=> 3 rejected 9 Duplicate $ q

decide
{@list, "items": [
    {@run, "spec": {"pipelineRef": {"name": "p"}}},
    {@outcomes, "spec": {}},
    {"apiVersion": "tkn.local/v1", "kind": "Outcomes", "metadata": {"name": "t"}, "spec": {}}]}
=> 3 rejected 9 Duplicate $ t

decide
{@list, "items": [
    {@run, "spec": {"pipelineRef": {"name": "p"}}},
    {@outcomes, "spec": {}},
    {@outcomes, "spec": {}}]}
=> 3 rejected 9 Duplicate $.items[2] s"#;
