//! The results of a pod, of the files that its steps left (Tekton, Tasks, Emitting Results).
ghost use Rattle.std.specs.Prelude.{◌≡◌, ℕ, bytes_eq, Contains, IfOk};
ghost use Rattle.std.specs.List.{list_any};
ghost use Rattle.tk_types.specs.declared.value.ResultSpec.{ResultSpec as ASpec};
ghost use Rattle.tk_edge.specs.Causes.{Counts};
ghost use Rattle.tk_steps.specs.Held.{HoldsPod};
ghost use Rattle.tk_steps.specs.Moves.{Moves, count_actions};
ghost use Rattle.tk_steps.specs.Ready.{ReadyIsSo};
ghost use Rattle.tk_outcome.specs.Fetches.{FetchesOne};
ghost use Rattle.tk_outcome.specs.Walked.{once_each as firsts_of, IsFetched, AreFetched, HasResults};

use std::alloc::{AllocError, Global};
use tk_edge::{Host, Miss};
use tk_results::{Fetched, GatherError, gather};
use tk_steps::{HeldPod, result_path};
use tk_types::{List, Param, ResultSpec, Text, TryCopy};

/// How many bytes of a result's file are fetched: one more than the results of an attempt may have together.
const FETCH_LIMIT: u64 = 4_097;

/// Whether one of the results has this name.
fn has_name(specs: &[ResultSpec], name: &str) -> bool
    ensures { result ≡ list_any (λ (spec : ASpec). bytes_eq spec.name name.now) specs.now }
{
    specs.iter().any(|spec| spec.name.as_str() == name)
}

/// The declared results, of each name the first.
fn once_each(alloc: Global, specs: &[ResultSpec]) -> Result<Vec<ResultSpec>, AllocError>
    ensures { IfOk result (λ firsts. firsts.items ≡ firsts_of specs.now) }
{
    let mut firsts = Vec::new(alloc);
    for spec in specs {
        if has_name(firsts.as_slice(), spec.name.as_str()) {
            continue;
        }
        firsts.push(spec.copy(alloc)?)?;
    }
    Ok(firsts)
}

/// Fetches the file of a declared result. A missing file is no failure.
fn fetch_result<H: Host>(
    alloc: Global,
    host: &mut H,
    root: &Text,
    pod: &HeldPod,
    spec: &ResultSpec,
) -> Result<Fetched, Miss>
    requires declared { Contains pod.now.plan.results spec.now }
    requires holds { HoldsPod (H.told host.old) pod.now }
    ensures told { IfOk result (FetchesOne root.now pod.now.name spec.now (H.told host.old) (H.told host.new)) }
    ensures fetched { IfOk result (IsFetched root.now pod.now.name (H.told host.new) (H.files host.new) spec.now) }
    ensures moves { Moves root.now pod.now pod.now (H.told host.old) (H.told host.new) }
    ensures stays { ReadyIsSo root.now pod.now (H.told host.old) → ReadyIsSo root.now pod.now (H.told host.new) }
    ensures quiet { count_actions (H.told host.new) ≡ count_actions (H.told host.old) }
    ensures files { H.files host.new ≡ H.files host.old }
    ensures killed { H.killed host.new ≡ H.killed host.old }
    ensures watches { H.watches host.new ≡ H.watches host.old }
    ensures plays { H.plays host.new ≡ H.plays host.old }
    ensures count { Counts (H.faults host.old) (H.faults host.new) result }
{
    let path = result_path(alloc, root, &pod.name, spec.name.as_str())?;
    let name = spec.name.copy(alloc)?;
    let bytes = host.fetch(path.as_str(), FETCH_LIMIT)?;
    Ok(Fetched { name, bytes })
}

/// Fetches the files of the declared results in order, up to a call that fails.
fn fetch_results<H: Host>(
    alloc: Global,
    host: &mut H,
    root: &Text,
    pod: &HeldPod,
    specs: &[ResultSpec],
) -> Result<Vec<Fetched>, Miss>
    requires declared { specs.now ≡ firsts_of pod.now.plan.results }
    requires holds { HoldsPod (H.told host.old) pod.now }
    ensures fetched { IfOk result (λ found. AreFetched root.now pod.now.name (H.told host.new) (H.files host.new) specs.now found.items) }
    ensures moves { Moves root.now pod.now pod.now (H.told host.old) (H.told host.new) }
    ensures stays { ReadyIsSo root.now pod.now (H.told host.old) → ReadyIsSo root.now pod.now (H.told host.new) }
    ensures quiet { count_actions (H.told host.new) ≡ count_actions (H.told host.old) }
    ensures files { H.files host.new ≡ H.files host.old }
    ensures killed { H.killed host.new ≡ H.killed host.old }
    ensures watches { H.watches host.new ≡ H.watches host.old }
    ensures plays { H.plays host.new ≡ H.plays host.old }
    ensures count { Counts (H.faults host.old) (H.faults host.new) result }
{
    let mut found = Vec::new(alloc);
    for place in 0..specs.len() {
        let file = fetch_result(alloc, host, root, pod, &specs[place])?;
        found.push(file)?;
    }
    Ok(found)
}

/// Fetches the files of the pod's declared results, of each name once, and gathers them: None where they are refused.
pub(crate) fn results_of<H: Host>(
    alloc: Global,
    host: &mut H,
    root: &Text,
    pod: &HeldPod,
) -> Result<Option<List<Param>>, Miss>
    requires holds { HoldsPod (H.told host.old) pod.now }
    ensures results { IfOk result (HasResults root.now (H.told host.new) (H.files host.new) pod.now) }
    ensures moves { Moves root.now pod.now pod.now (H.told host.old) (H.told host.new) }
    ensures stays { ReadyIsSo root.now pod.now (H.told host.old) → ReadyIsSo root.now pod.now (H.told host.new) }
    ensures quiet { count_actions (H.told host.new) ≡ count_actions (H.told host.old) }
    ensures files { H.files host.new ≡ H.files host.old }
    ensures killed { H.killed host.new ≡ H.killed host.old }
    ensures watches { H.watches host.new ≡ H.watches host.old }
    ensures plays { H.plays host.new ≡ H.plays host.old }
    ensures count { Counts (H.faults host.old) (H.faults host.new) result }
{
    let specs = once_each(alloc, pod.plan.results.as_slice())?;
    let found = fetch_results(alloc, host, root, pod, specs.as_slice())?;
    match gather(alloc, specs.as_slice(), found.as_slice()) {
        Ok(results) => Ok(Some(results)),
        Err(GatherError::Memory) => Err(Miss::Memory),
        Err(GatherError::TooMany { .. }) => Ok(None),
        Err(GatherError::Bad { .. }) => Ok(None),
    }
}
