//! The files in a pod's folder.
ghost use Rattle.std.specs.Prelude.{◌≡◌, IfOk, OnOk, string_bytes};
ghost use Rattle.tk_space.specs.Space.{below, pod_folder, spaces_folder};
ghost use Rattle.tk_steps.specs.Paths.{start_path as start_of, post_path as post_of, wait_path as wait_of, script_path as script_of, result_path as result_of};

use std::alloc::{AllocError, Global};
use tk_types::Text;

/// Goes on from a folder to what has this name in it.
pub(crate) fn go_below(path: &mut String, name: &str) -> Result<(), AllocError>
    ensures { OnOk result (string_bytes path.new ≡ below (string_bytes path.old) name.now) }
{
    path.push_str("/")?;
    path.push_str(name)?;
    Ok(())
}

/// What has this name in a pod's folder.
fn path_in(alloc: Global, root: &Text, pod: &Text, name: &str) -> Result<String, AllocError>
    ensures { IfOk result (λ path. string_bytes path ≡ below (pod_folder root.now pod.now) name.now) }
{
    let mut path = String::from_str(alloc, root.as_str())?;
    go_below(&mut path, pod.as_str())?;
    go_below(&mut path, name)?;
    Ok(path)
}

/// The folder of a pod.
pub(crate) fn folder_of(alloc: Global, root: &Text, pod: &Text) -> Result<Text, AllocError>
    ensures { IfOk result (λ path. path ≡ pod_folder root.now pod.now) }
{
    let mut path = String::from_str(alloc, root.as_str())?;
    go_below(&mut path, pod.as_str())?;
    Ok(Text::from_string(path))
}

/// In which the pod's emptyDirs have their folders.
pub(crate) fn spaces_path(alloc: Global, root: &Text, pod: &Text) -> Result<String, AllocError>
    ensures { IfOk result (λ path. string_bytes path ≡ spaces_folder root.now pod.now) }
{
    path_in(alloc, root, pod, "ws")
}

/// The file for which a pod's first step waits.
pub(crate) fn start_path(alloc: Global, root: &Text, pod: &Text) -> Result<Text, AllocError>
    ensures { IfOk result (λ path. path ≡ start_of root.now pod.now) }
{
    let mut path = path_in(alloc, root, pod, "run")?;
    go_below(&mut path, "start")?;
    Ok(Text::from_string(path))
}

/// The file that a step leaves once it passed.
pub(crate) fn post_path(
    alloc: Global,
    root: &Text,
    pod: &Text,
    step: u32,
) -> Result<Text, AllocError>
    ensures { IfOk result (λ path. path ≡ post_of root.now pod.now step) }
{
    let number = format!(in alloc; "{step}")?;
    let mut path = path_in(alloc, root, pod, "run")?;
    go_below(&mut path, number.as_str())?;
    go_below(&mut path, "out")?;
    Ok(Text::from_string(path))
}

/// The file for which a step waits: that of the one before it.
pub(crate) fn wait_path(
    alloc: Global,
    root: &Text,
    pod: &Text,
    step: u32,
) -> Result<Text, AllocError>
    ensures { IfOk result (λ path. path ≡ wait_of root.now pod.now step) }
{
    if step == 0 {
        start_path(alloc, root, pod)
    } else {
        post_path(alloc, root, pod, step - 1)
    }
}

/// The file of a step's script.
pub(crate) fn script_path(
    alloc: Global,
    root: &Text,
    pod: &Text,
    step: u32,
) -> Result<Text, AllocError>
    ensures { IfOk result (λ path. path ≡ script_of root.now pod.now step) }
{
    let number = format!(in alloc; "{step}")?;
    let mut path = path_in(alloc, root, pod, "scripts")?;
    go_below(&mut path, number.as_str())?;
    Ok(Text::from_string(path))
}

/// The file that a pod's result of this name is written to: `results/NAME` in the pod's folder.
pub fn result_path(alloc: Global, root: &Text, pod: &Text, name: &str) -> Result<Text, AllocError>
    ensures { IfOk result (λ path. path ≡ result_of root.now pod.now name.now) }
{
    let mut path = path_in(alloc, root, pod, "results")?;
    go_below(&mut path, name)?;
    Ok(Text::from_string(path))
}
