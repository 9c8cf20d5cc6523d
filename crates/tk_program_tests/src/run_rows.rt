//! Rows of `run` and `generate`.

/// A run that fetches, lints, tests twice, packages and notifies, and has results.
pub(crate) const BUILD: &str =
    r##"{"apiVersion":"v1","kind":"List","items":[{"apiVersion":"tekton.dev/v1","kind":"Task","metadata":{"name":"fetch"},"spec":{"params":[{"name":"url"}],"results":[{"name":"commit"}],"steps":[{"name":"clone","image":"alpine/git","script":"#!/bin/sh\necho $(params.url)\nprintf abc123 > $(results.commit.path)"}]}},{"apiVersion":"tekton.dev/v1","kind":"PipelineRun","metadata":{"generateName":"build-"},"spec":{"params":[{"name":"url","value":"git.example/app"}],"pipelineSpec":{"params":[{"name":"url"}],"tasks":[{"name":"fetch","taskRef":{"name":"fetch"},"params":[{"name":"url","value":"$(params.url)"}]},{"name":"lint","runAfter":["fetch"],"taskSpec":{"steps":[{"image":"lint","script":"true"}]}},{"name":"test","runAfter":["fetch"],"matrix":{"params":[{"name":"os","value":["linux","mac"]}]},"taskSpec":{"params":[{"name":"os"}],"results":[{"name":"log"}],"steps":[{"script":"printf ok-$(params.os) > $(results.log.path)"}]}},{"name":"package","runAfter":["lint"],"params":[{"name":"commit","value":"$(tasks.fetch.results.commit)"},{"name":"logs","value":"$(tasks.test.results.log[*])"}],"taskSpec":{"params":[{"name":"commit"},{"name":"logs","type":"array"}],"results":[{"name":"image"},{"name":"logs","type":"array"}],"steps":[{"script":"printf img-$(params.commit) > $(results.image.path)\nprintf '[\"%s\",\"%s\"]' \"$1\" \"$2\" > $(results.logs.path)","args":["$(params.logs[*])"]}]}}],"finally":[{"name":"notify","params":[{"name":"st","value":"$(tasks.status)"}],"taskSpec":{"params":[{"name":"st"}],"steps":[{"script":"[ $(params.st) = Succeeded ]"}]}}],"results":[{"name":"image","value":"$(tasks.package.results.image)"},{"name":"logs","value":"$(tasks.package.results.logs[*])"}]}}}]}"##;

/// What runs come to on a bench, and manifests of a number.
pub(crate) const RAN: &str = r#"# Words of each command.
run
{@run, "spec": {"pipelineSpec": {"tasks": [{"name": "a", @step}]}}}
=> 0 pipelinerun r True Succeeded
  taskrun r-a a 0 Succeeded attempts 1

run --json
{@run, "spec": {"pipelineSpec": {"tasks": [{"name": "a", @step}]}}}
=> 0 [{"childReferences":[{"attempts":1,"index":0,"name":"r-a","outcome":"Succeeded","task":"a"}],"kind":"PipelineRun","name":"r","reason":"Succeeded","results":[],"skippedTasks":[],"startTime":"1970-01-01T00:00:00.000Z","status":"True"}]

run --root /a r=Cancelled@0
{@run, "spec": {"pipelineSpec": {"tasks": [{"name": "a", @step}]}}}
=> 1 pipelinerun r False Cancelled
  skipped a PipelineRun was cancelled

run
{@run, "spec": {"status": "PipelineRunPending", "pipelineSpec": {"tasks": [{"name": "a", @step}]}}}
=> 7 pipelinerun r Unknown PipelineRunPending

run r=Start@0
{@run, "spec": {"status": "PipelineRunPending", "pipelineSpec": {"tasks": [{"name": "a", @step}]}}}
=> 0 pipelinerun r True Succeeded
  taskrun r-a a 0 Succeeded attempts 1

run
[
=> 3 rejected 1 BadJson

run --root=x
{@run, "spec": {"pipelineSpec": {"tasks": [{"name": "a", @step}]}}}
=> 2

start
{@run, "spec": {"pipelineSpec": {"tasks": [{"name": "a", @step}]}}}
=> 2

run | read 0
{@run, "spec": {"pipelineSpec": {"tasks": [{"name": "a", @step}]}}}
=> 4

run | write 0
{@run, "spec": {"pipelineSpec": {"tasks": [{"name": "a", @step}]}}}
=> 5

check
{@run, "spec": {"pipelineSpec": {"tasks": [{"name": "a", @step}]}}}
=> 0 ok 1

simulate --json
{@run, "spec": {"pipelineSpec": {"tasks": [{"name": "a", @step}]}}}
=> 0 [{"childReferences":[{"attempts":1,"index":0,"name":"r-a","outcome":"Succeeded","task":"a"}],"kind":"PipelineRun","name":"r","reason":"Succeeded","results":[],"skippedTasks":[],"startTime":"1970-01-01T00:00:00.000Z","status":"True"}]

check
{"apiVersion":"v1","items":[{"apiVersion":"tekton.dev/v1","kind":"PipelineRun","metadata":{"name":"gen"},"spec":{"pipelineSpec":{"tasks":[{"name":"t0","retries":0,"taskSpec":{"steps":[{"command":["true"]}]}}]}}}],"kind":"List"}
=> 0 ok 1

generate 1 2 --run | read 0
=> 0 runs 1 true 1 false 0 taskruns 2 attempts 2 entries 17

generate --run -- 1 2
=> 0 runs 1 true 1 false 0 taskruns 2 attempts 2 entries 17

generate --run 1 2 | write 0
=> 5

generate 0 0
=> 2

generate 1
=> 2

generate 1 2 3
=> 2

generate 01 2
=> 2

generate 2147483648 2
=> 2

generate 1 4001
=> 2

generate --run 1 --run 2
=> 2

generate -- --run 1 2
=> 2

generate 1 1
left
=> 0 {"apiVersion":"v1","items":[{"apiVersion":"tekton.dev/v1","kind":"PipelineRun","metadata":{"name":"gen"},"spec":{"pipelineSpec":{"tasks":[{"name":"t0","retries":0,"taskSpec":{"steps":[{"command":["true"]}]}}]}}}],"kind":"List"}

# Asks, and words that are none.
run r=Start@0 r=Start@0
{@run, "spec": {"status": "PipelineRunPending", "pipelineSpec": {"tasks": [{"name": "a", @step}]}}}
=> 0 pipelinerun r True Succeeded
  taskrun r-a a 0 Succeeded attempts 1

run q=Cancelled@0
{@run, "spec": {"pipelineSpec": {"tasks": [{"name": "a", "taskSpec": {"steps": [{"name": "s", "image": "i", "script": "true"}]}}]}}}
=> 0 pipelinerun r True Succeeded
  taskrun r-a a 0 Succeeded attempts 1

run r=Start@0 --json q=StoppedRunFinally@0m -- t=TaskRunCancelled@0ms
{@run, "spec": {"status": "PipelineRunPending", "pipelineSpec": {"tasks": [{"name": "a", @step}]}}}
=> 0 [{"childReferences":[{"attempts":1,"index":0,"name":"r-a","outcome":"Succeeded","task":"a"}],"kind":"PipelineRun","name":"r","reason":"Succeeded","results":[],"skippedTasks":[],"startTime":"1970-01-01T00:00:00.000Z","status":"True"}]

run --root=/a --json --
{@run, "spec": {"status": "PipelineRunPending", "pipelineSpec": {"tasks": [{"name": "a", @step}]}}}
=> 7 [{"childReferences":[],"kind":"PipelineRun","name":"r","reason":"PipelineRunPending","results":[],"skippedTasks":[],"startTime":null,"status":"Unknown"}]

run
{}
=> 3 rejected 5 MissingField $.apiVersion

run --json --json
{
=> 2

run --root
{
=> 2

run --root /a --root=/b
{
=> 2

run -j
{
=> 2

run r=Stopped@1s
{
=> 2

run r=Cancelled@soon
{
=> 2

run =Cancelled@1s
{
=> 2

run R=Cancelled@1s
{
=> 2

# Asks that are refused for good aren't waited for: of a run that isn't there, and of one that is closed.
run q=Cancelled@90s r=Cancelled@90s
{@run, "spec": {"pipelineSpec": {"tasks": [{"name": "a", @step}]}}}
=> 0 pipelinerun r True Succeeded
  taskrun r-a a 0 Succeeded attempts 1

# Gates that let their members work once two of them were asked at once, which only threads do.
run | members 1 | gate meets
{@run, "spec": {"pipelineSpec": {"tasks": [{"name": "a", @step}]}}}
=> 0 pipelinerun r True Succeeded
  taskrun r-a a 0 Succeeded attempts 1

# Gates that let their members see one entry at a time: the second entry is written by one that saw the first alone.
run | members 1 | gate single | tell fronts
{@run, "spec": {"pipelineSpec": {"tasks": [{"name": "a", "taskSpec": {"steps": [{"name": "s", "image": "i", "script": "true"}]}}]}}}
=> 0 pipelinerun r True Succeeded
  taskrun r-a a 0 Succeeded attempts 1
fronts 1 0 0

run | members 1 | gate single | tell fronts
{@run, "spec": {"pipelineSpec": {"tasks": [{"name": "a", "taskSpec": {"steps": [{"name": "s", "image": "i", "script": "true"}]}}, {"name": "b", "runAfter": ["a"], "taskSpec": {"steps": [{"name": "s", "image": "i", "script": "true"}, {"name": "t", "image": "i", "script": "true"}]}}]}}}
=> 0 pipelinerun r True Succeeded
  taskrun r-a a 0 Succeeded attempts 1
  taskrun r-b b 0 Succeeded attempts 1
fronts 1 0 0

run --root /work | members 1 | gate single | tell fronts
@build
=> 0 pipelinerun build-00001 True Succeeded
  taskrun build-00001-fetch fetch 0 Succeeded attempts 1
  taskrun build-00001-lint lint 0 Succeeded attempts 1
  taskrun build-00001-test-0 test 0 Succeeded attempts 1
  taskrun build-00001-test-1 test 1 Succeeded attempts 1
  taskrun build-00001-package package 0 Succeeded attempts 1
  taskrun build-00001-notify notify 0 Succeeded attempts 1
  result image "img-abc123"
  result logs ["ok-linux","ok-mac"]
fronts 1 0 0

# Gates that list each kind from nothing again and again.
run | members 1 | gate lists
{@run, "spec": {"pipelineSpec": {"tasks": [{"name": "a", "taskSpec": {"steps": [{"name": "s", "image": "i", "script": "true"}]}}]}}}
=> 0 pipelinerun r True Succeeded
  taskrun r-a a 0 Succeeded attempts 1

run | members 1 | gate lists
{@run, "spec": {"pipelineSpec": {"tasks": [{"name": "a", "taskSpec": {"steps": [{"name": "s", "image": "i", "script": "true"}]}}, {"name": "b", "runAfter": ["a"], "taskSpec": {"steps": [{"name": "s", "image": "i", "script": "true"}, {"name": "t", "image": "i", "script": "true"}]}}]}}}
=> 0 pipelinerun r True Succeeded
  taskrun r-a a 0 Succeeded attempts 1
  taskrun r-b b 0 Succeeded attempts 1

run --root /work | members 1 | gate lists
@build
=> 0 pipelinerun build-00001 True Succeeded
  taskrun build-00001-fetch fetch 0 Succeeded attempts 1
  taskrun build-00001-lint lint 0 Succeeded attempts 1
  taskrun build-00001-test-0 test 0 Succeeded attempts 1
  taskrun build-00001-test-1 test 1 Succeeded attempts 1
  taskrun build-00001-package package 0 Succeeded attempts 1
  taskrun build-00001-notify notify 0 Succeeded attempts 1
  result image "img-abc123"
  result logs ["ok-linux","ok-mac"]

# One controller and one node, and 64 of each, whose gates keep caches fresh, or pause at first.
run --root /work | members 1 | pauses 0
@build
=> 0 pipelinerun build-00001 True Succeeded
  taskrun build-00001-fetch fetch 0 Succeeded attempts 1
  taskrun build-00001-lint lint 0 Succeeded attempts 1
  taskrun build-00001-test-0 test 0 Succeeded attempts 1
  taskrun build-00001-test-1 test 1 Succeeded attempts 1
  taskrun build-00001-package package 0 Succeeded attempts 1
  taskrun build-00001-notify notify 0 Succeeded attempts 1
  result image "img-abc123"
  result logs ["ok-linux","ok-mac"]

run --root /work | members 64 | pauses 0
@build
=> 0 pipelinerun build-00001 True Succeeded
  taskrun build-00001-fetch fetch 0 Succeeded attempts 1
  taskrun build-00001-lint lint 0 Succeeded attempts 1
  taskrun build-00001-test-0 test 0 Succeeded attempts 1
  taskrun build-00001-test-1 test 1 Succeeded attempts 1
  taskrun build-00001-package package 0 Succeeded attempts 1
  taskrun build-00001-notify notify 0 Succeeded attempts 1
  result image "img-abc123"
  result logs ["ok-linux","ok-mac"]

run --root /work | members 1 | pauses 3
@build
=> 0 pipelinerun build-00001 True Succeeded
  taskrun build-00001-fetch fetch 0 Succeeded attempts 1
  taskrun build-00001-lint lint 0 Succeeded attempts 1
  taskrun build-00001-test-0 test 0 Succeeded attempts 1
  taskrun build-00001-test-1 test 1 Succeeded attempts 1
  taskrun build-00001-package package 0 Succeeded attempts 1
  taskrun build-00001-notify notify 0 Succeeded attempts 1
  result image "img-abc123"
  result logs ["ok-linux","ok-mac"]

run --root /work | members 64 | pauses 3
@build
=> 0 pipelinerun build-00001 True Succeeded
  taskrun build-00001-fetch fetch 0 Succeeded attempts 1
  taskrun build-00001-lint lint 0 Succeeded attempts 1
  taskrun build-00001-test-0 test 0 Succeeded attempts 1
  taskrun build-00001-test-1 test 1 Succeeded attempts 1
  taskrun build-00001-package package 0 Succeeded attempts 1
  taskrun build-00001-notify notify 0 Succeeded attempts 1
  result image "img-abc123"
  result logs ["ok-linux","ok-mac"]

# A call on the host that fails: making the folder, putting the wait file and the script, launching, two watches; no call is left.
run | members 1 | host 0
{@run, "spec": {"pipelineSpec": {"tasks": [{"name": "a", "taskSpec": {"steps": [{"name": "s", "image": "i", "script": "true"}]}}]}}}
=> 1 pipelinerun r False Failed
  taskrun r-a a 0 Failed - attempts 1

run | members 1 | host 1
{@run, "spec": {"pipelineSpec": {"tasks": [{"name": "a", "taskSpec": {"steps": [{"name": "s", "image": "i", "script": "true"}]}}]}}}
=> 1 pipelinerun r False Failed
  taskrun r-a a 0 Failed - attempts 1

run | members 1 | host 2
{@run, "spec": {"pipelineSpec": {"tasks": [{"name": "a", "taskSpec": {"steps": [{"name": "s", "image": "i", "script": "true"}]}}]}}}
=> 1 pipelinerun r False Failed
  taskrun r-a a 0 Failed - attempts 1

run | members 1 | host 3
{@run, "spec": {"pipelineSpec": {"tasks": [{"name": "a", "taskSpec": {"steps": [{"name": "s", "image": "i", "script": "true"}]}}]}}}
=> 1 pipelinerun r False Failed
  taskrun r-a a 0 Failed - attempts 1

run | members 1 | host 4
{@run, "spec": {"pipelineSpec": {"tasks": [{"name": "a", "taskSpec": {"steps": [{"name": "s", "image": "i", "script": "true"}]}}]}}}
=> 1 pipelinerun r False Failed
  taskrun r-a a 0 Failed - attempts 1

run | members 1 | host 5
{@run, "spec": {"pipelineSpec": {"tasks": [{"name": "a", "taskSpec": {"steps": [{"name": "s", "image": "i", "script": "true"}]}}]}}}
=> 1 pipelinerun r False Failed
  taskrun r-a a 0 Failed - attempts 1

run | members 1 | host 6
{@run, "spec": {"pipelineSpec": {"tasks": [{"name": "a", "taskSpec": {"steps": [{"name": "s", "image": "i", "script": "true"}]}}]}}}
=> 0 pipelinerun r True Succeeded
  taskrun r-a a 0 Succeeded attempts 1

# Manifests of a number; of four thousand tasks a program in Python counted the 4,926 combinations.
generate 1 2
=> 0 {"apiVersion":"v1","items":[{"apiVersion":"tekton.dev/v1","kind":"PipelineRun","metadata":{"name":"gen"},"spec":{"pipelineSpec":{"tasks":[{"name":"t0","retries":0,"taskSpec":{"steps":[{"command":["true"]}]}},{"name":"t1","retries":2,"runAfter":["t0"],"taskSpec":{"steps":[{"command":["true"]}]}}]}}}],"kind":"List"}

generate 17 2
=> 0 {"apiVersion":"v1","items":[{"apiVersion":"tekton.dev/v1","kind":"PipelineRun","metadata":{"name":"gen"},"spec":{"pipelineSpec":{"tasks":[{"matrix":{"params":[{"name":"p","value":["x","y","z"]}]},"name":"t0","retries":2,"taskSpec":{"steps":[{"command":["true"]}]}},{"matrix":{"params":[{"name":"p","value":["x","y","z"]}]},"name":"t1","retries":2,"runAfter":["t0"],"taskSpec":{"steps":[{"command":["true"]}]}}]}}}],"kind":"List"}

generate 1 4000 --run
=> 0 runs 1 true 1 false 0 taskruns 4926 attempts 4926 entries 33559"#;
