ghost use Rattle.std.specs.Prelude.{◌≡◌, ◌≤◌, ◌++◌, [], IfOk, OnOk, codes, decimal, map, length, option_copied, option_map};
ghost use Rattle.std.specs.List.{enumerate_from};
ghost use Rattle.std.specs.Option.{option_map_or};
ghost use Rattle.tk_journal.specs.Plan.{argv_of, dir_in, folder_of, is_absolute, keep_of, plan_env, plan_of, plan_with, pod_of_attempt, script_file};
ghost use Rattle.tk_space.specs.Space.{below, bound_space, folders_of, space_folder as folder_of_space};
ghost use Rattle.tk_taskrec.specs.Planned.{bound_to_body, order_at, planned_with, script_at, step_of};
ghost use Rattle.tk_taskrec.specs.Fit.{IsFit};
ghost use Rattle.tk_types.specs.Limits.{most_steps};

use crate::script::{file_of, push_words};
use crate::texts::{Filled, fill_all};
use crate::words::{below, plan_words};
use std::alloc::{AllocError, Global};
use tk_bind::{BindError, Env, Lookup, bind_params, index_of, step_env};
use tk_edge::Order;
use tk_journal::{Plan, TaskRunState};
use tk_names::pod_name;
use tk_space::folder as space_folder;
use tk_types::{List, Param, Space, SpaceSpec, Step, Text, TryCopy};

/// The bits of the steps that continue on error.
fn keep_of(steps: &[Step]) -> u32
    requires few { length steps.now ≤ most_steps }
    ensures { result ≡ keep_of steps.now }
{
    let mut keep = 0u32;
    for place in 0..steps.len() {
        if steps[place].keep_going {
            keep += 1u32 << (place as u32);
        }
    }
    keep
}

/// The text of a step's script as it is put, and nothing where it has none.
fn script_of(alloc: Global, script: &Option<Text>) -> Result<Text, AllocError>
    ensures { IfOk result (λ text. text ≡ option_map_or script_file script.now []) }
{
    match script {
        Some(script) => file_of(alloc, script.as_str()),
        None => Ok(Text::new(alloc)),
    }
}

/// The texts of the steps' scripts.
fn scripts_of(alloc: Global, steps: &[Filled]) -> Result<List<Text>, AllocError>
    ensures { IfOk result (λ scripts. scripts ≡ map script_at steps.now) }
{
    let mut scripts = List::new(alloc);
    for step in steps {
        scripts.push(script_of(alloc, &step.script)?)?;
    }
    Ok(scripts)
}

/// The path of a step's script in the folder of its pod.
fn script_path(alloc: Global, folder: &str, place: u32) -> Result<Text, AllocError>
    ensures { IfOk result (λ path. path ≡ below (below folder.now (codes "scripts")) (decimal place)) }
{
    let scripts = below(alloc, folder, "scripts")?;
    let name = place.to_string(alloc)?;
    below(alloc, scripts.as_str(), name.as_str())
}

/// The words that run a step's script, or its command.
fn head_of(alloc: Global, folder: &str, place: u32, step: &Filled) -> Result<List<Text>, AllocError>
    ensures { IfOk result (λ words. words ++ step.now.args ≡ argv_of folder.now place (step_of step.now)) }
{
    match &step.script {
        Some(script) => {
            let mut words = List::new(alloc);
            push_words(alloc, &mut words, script.as_str())?;
            words.push(script_path(alloc, folder, place)?)?;
            Ok(words)
        }
        None => step.command.copy(alloc),
    }
}

/// Adds copies of texts.
fn push_texts(alloc: Global, words: &mut List<Text>, more: &[Text]) -> Result<(), AllocError>
    ensures { OnOk result (words.new ≡ words.old ++ more.now) }
{
    for text in more {
        words.push(text.copy(alloc)?)?;
    }
    Ok(())
}

/// The words of a step.
fn argv_of(alloc: Global, folder: &str, place: u32, step: &Filled) -> Result<List<Text>, AllocError>
    ensures { IfOk result (λ words. words ≡ argv_of folder.now place (step_of step.now)) }
{
    let mut words = head_of(alloc, folder, place, step)?;
    push_texts(alloc, &mut words, step.args.as_slice())?;
    Ok(words)
}

/// Whether a path begins at the root of all folders.
fn is_absolute(path: &str) -> bool
    ensures { result ≡ is_absolute path.now }
{
    match path.as_bytes() {
        [first, ..] => *first == b'/',
        [] => false,
    }
}

/// A step's own folder: from the pod's folder on, where it isn't absolute.
fn dir_in(alloc: Global, folder: &str, dir: &str) -> Result<Text, AllocError>
    ensures { IfOk result (λ path. path ≡ dir_in folder.now dir.now) }
{
    if is_absolute(dir) {
        return Text::from_str(alloc, dir);
    }
    below(alloc, folder, dir)
}

/// The folder that a step runs in: its own, or the pod's.
fn dir_of(alloc: Global, folder: &str, dir: &Option<Text>) -> Result<Text, AllocError>
    ensures { IfOk result (λ path. path ≡ option_map_or (dir_in folder.now) dir.now folder.now) }
{
    match dir {
        Some(dir) => dir_in(alloc, folder, dir.as_str()),
        None => Text::from_str(alloc, folder),
    }
}

/// What a kubelet starts for a step.
fn order_of(
    alloc: Global,
    pod: &str,
    folder: &str,
    place: u32,
    step: &Filled,
) -> Result<Order, AllocError>
    ensures { IfOk result (λ order. order ≡ order_at pod.now folder.now (place, step.now)) }
{
    Ok(Order {
        pod: Text::from_str(alloc, pod)?,
        step: place,
        argv: argv_of(alloc, folder, place, step)?,
        env: step.env.copy(alloc)?,
        dir: dir_of(alloc, folder, &step.dir)?,
    })
}

/// What a kubelet starts for each step.
fn orders_of(
    alloc: Global,
    pod: &str,
    folder: &str,
    steps: &[Filled],
) -> Result<List<Order>, AllocError>
    requires few { length steps.now ≤ most_steps }
    ensures { IfOk result (λ orders. orders ≡ map (order_at pod.now folder.now) (enumerate_from 0 steps.now)) }
{
    let mut orders = List::new(alloc);
    for place in 0..steps.len() {
        orders.push(order_of(alloc, pod, folder, place as u32, &steps[place])?)?;
    }
    Ok(orders)
}

/// What a workspace that a Task declares is bound to.
fn bound_space<'a>(bound: &'a [Space], spec: &SpaceSpec) -> Option<&'a Space>
    ensures { option_copied result ≡ bound_space bound.now spec.now }
{
    bound
        .iter()
        .find(|space| space.name.as_str() == spec.name.as_str())
}

/// The folder of a workspace that a Task declares, where it is bound.
fn folder_at(
    alloc: Global,
    root: &str,
    pod: &str,
    bound: &[Space],
    spec: &SpaceSpec,
) -> Result<Option<Text>, AllocError>
    ensures { IfOk result (λ found. found ≡ option_map (folder_of_space root.now pod.now) (bound_space bound.now spec.now)) }
{
    match bound_space(bound, spec) {
        Some(space) => Ok(Some(space_folder(alloc, root, pod, space)?)),
        None => Ok(None),
    }
}

/// The folders of the workspaces that are bound, in the order of the Task's declarations.
fn folders_of(
    alloc: Global,
    root: &str,
    pod: &str,
    specs: &[SpaceSpec],
    bound: &[Space],
) -> Result<List<Text>, AllocError>
    ensures { IfOk result (λ folders. folders ≡ folders_of root.now pod.now specs.now bound.now) }
{
    let mut folders = List::new(alloc);
    for spec in specs {
        if let Some(folder) = folder_at(alloc, root, pod, bound, spec)? {
            folders.push(folder)?;
        }
    }
    Ok(folders)
}

/// The parameters of a TaskRun bound to its body, where each that the body wants has a value that suits.
fn bound_params(alloc: Global, task_run: &TaskRunState) -> Result<Option<List<Param>>, AllocError>
    ensures { IfOk result (λ found. found ≡ bound_to_body task_run.now) }
{
    let body = &task_run.spec.body;
    match bind_params(
        alloc,
        body.spec.params.as_slice(),
        task_run.binding.params.as_slice(),
        body.outer.as_slice(),
        body.fallback.as_slice(),
    ) {
        Ok(params) => Ok(Some(params)),
        Err(BindError::Memory) => Err(AllocError),
        Err(error) => {
            drop(error);
            Ok(None)
        }
    }
}

/// What the texts of an attempt's steps see.
fn plan_env(
    alloc: Global,
    task_run: &TaskRunState,
    attempt: u32,
    pod: &str,
    folder: &str,
    mut params: List<Param>,
) -> Result<Env, AllocError>
    requires from_one { 1 ≤ attempt }
    requires pod { pod.now ≡ pod_of_attempt task_run.now attempt }
    requires folder { folder.now ≡ folder_of task_run.now attempt }
    ensures { IfOk result (λ env. env ≡ plan_env task_run.now attempt params) }
{
    params.push_all(alloc, task_run.binding.params.as_slice())?;
    let mut env = step_env(alloc, &task_run.spec.body, params)?;
    env.words = plan_words(alloc, task_run, attempt, pod, folder)?;
    Ok(env)
}

/// The plan of an attempt from its substituted steps.
#[tactic(auto, using(crate::proofs::Plans::orders_same, crate::proofs::Plans::scripts_same))]
fn plan_with(
    alloc: Global,
    task_run: &TaskRunState,
    attempt: u32,
    pod: &str,
    folder: &str,
    steps: &[Filled],
) -> Result<Plan, AllocError>
    requires fit { IsFit task_run.now }
    requires few { length steps.now ≤ most_steps }
    requires pod { pod.now ≡ pod_of_attempt task_run.now attempt }
    requires folder { folder.now ≡ folder_of task_run.now attempt }
    ensures { IfOk result (λ plan. plan ≡ plan_with task_run.now attempt (map step_of steps.now)) }
{
    let body = &task_run.spec.body;
    Ok(Plan {
        orders: orders_of(alloc, pod, folder, steps)?,
        scripts: scripts_of(alloc, steps)?,
        keep: keep_of(body.spec.steps.as_slice()),
        results: body.spec.results.copy(alloc)?,
        folders: folders_of(
            alloc,
            task_run.root.as_str(),
            pod,
            body.spec.spaces.as_slice(),
            body.bound.as_slice(),
        )?,
    })
}

/// The plan of a TaskRun's attempt with its bound parameters, where each text of its steps has a value.
#[tactic(auto, using(crate::proofs::Plans::steps_few, crate::proofs::Readings::steps_read))]
fn plan_bound(
    alloc: Global,
    task_run: &TaskRunState,
    attempt: u32,
    params: List<Param>,
) -> Result<Option<Plan>, AllocError>
    requires fit { IsFit task_run.now }
    requires from_one { 1 ≤ attempt }
    ensures { IfOk result (λ plan. plan ≡ planned_with task_run.now attempt params) }
{
    let pod = pod_name(alloc, task_run.spec.name.as_str(), attempt)?;
    let folder = below(alloc, task_run.root.as_str(), pod.as_str())?;
    let env = plan_env(
        alloc,
        task_run,
        attempt,
        pod.as_str(),
        folder.as_str(),
        params,
    )?;
    let index = index_of(alloc, &env)?;
    let lookup = Lookup::new(&index, &[]);
    match fill_all(alloc, &lookup, task_run.spec.body.spec.steps.as_slice())? {
        Some(steps) => {
            let steps = steps.as_slice();
            Ok(Some(plan_with(
                alloc,
                task_run,
                attempt,
                pod.as_str(),
                folder.as_str(),
                steps,
            )?))
        }
        None => Ok(None),
    }
}

/// The plan of a TaskRun's attempt, counted from 1, where its parameters suit its body and each text of its steps has a
/// value (Tekton, Tasks, Using variable substitution).
pub fn plan(
    alloc: Global,
    task_run: &TaskRunState,
    attempt: u32,
) -> Result<Option<Plan>, AllocError>
    requires fit { IsFit task_run.now }
    requires from_one { 1 ≤ attempt }
    ensures { IfOk result (λ plan. plan ≡ plan_of task_run.now attempt) }
{
    match bound_params(alloc, task_run)? {
        Some(params) => plan_bound(alloc, task_run, attempt, params),
        None => Ok(None),
    }
}
