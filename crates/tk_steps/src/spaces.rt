//! The folders of a pod's workspaces (Tekton, Workspaces, Using Workspaces in Tasks).
ghost use Rattle.std.specs.Prelude.{◌≡◌, ◌<◌, ℕ, List, [], ◌∷◌, ◌++◌, length, slice_get, Some, true, IfOk, OnOk};
ghost use Rattle.std.specs.Option.{IfSome};
ghost use Rattle.tk_edge.specs.declared.event.Event.TheVariants.{Put};
ghost use Rattle.tk_space.specs.Apart.{IsWithin};
ghost use Rattle.tk_space.specs.Space.{below};
ghost use Rattle.tk_edge.specs.Causes.{Counts};
ghost use Rattle.tk_steps.specs.Held.{HoldsPod};
ghost use Rattle.tk_steps.specs.May.{IsSpaceOf};
ghost use Rattle.tk_steps.specs.Moves.{Moves, count_actions};
ghost use Rattle.tk_steps.specs.Ready.{AreSpacesMade, space_file as file_of_space};
ghost use Rattle.tk_steps.specs.Scripts.{PutsSpace};

use crate::files::{clear_own, put_own};
use crate::held::HeldPod;
use crate::paths::{go_below, spaces_path};
use std::alloc::{AllocError, Global};
use tk_edge::{Host, Miss, is_under};
use tk_types::Text;

// What stands behind a folder's text.
fn behind_text<'a>(path: &'a str, folder: &str) -> Option<&'a str>
    ensures { IfSome result (λ rest. path.now ≡ folder.now ++ rest.now) }
{
    path.strip_prefix(folder)
}

// What stands behind a slash.
fn behind_slash(text: &str) -> Option<&str>
    ensures { IfSome result (λ rest. text.now ≡ 47 ∷ rest.now) }
{
    text.strip_prefix('/')
}

// What stands behind a folder and a slash.
fn behind<'a>(path: &'a str, folder: &str) -> Option<&'a str>
    ensures { IfSome result (λ rest. path.now ≡ below folder.now rest.now) }
{
    let Some(text) = behind_text(path, folder) else {
        return None;
    };
    behind_slash(text)
}

// The first name of a path.
fn first_name(path: &str) -> &str
    ensures { IsWithin result.now path.now }
{
    match path.split_once('/') {
        Some((name, _)) => name,
        None => path,
    }
}

/// The folder of the emptyDir in which a folder lies, if it lies in one of the pod's.
fn own_space(
    alloc: Global,
    root: &Text,
    pod: &Text,
    folder: &Text,
) -> Result<Option<Text>, AllocError>
    ensures { IfOk result (λ space. IfSome space (IsSpaceOf root.now pod.now folder.now)) }
{
    let mut path = spaces_path(alloc, root, pod)?;
    let Some(rest) = behind(folder.as_str(), path.as_str()) else {
        return Ok(None);
    };
    go_below(&mut path, first_name(rest))?;
    Ok(Some(Text::from_string(path)))
}

/// Makes the emptyDir of the folder at a place anew, where it lies in one.
fn clear_space<H: Host>(
    alloc: Global,
    host: &mut H,
    root: &Text,
    pod: &HeldPod,
    place: usize,
) -> Result<(), Miss>
    requires within { place < length pod.now.plan.folders }
    requires unarmed { pod.now.steps.items ≡ [] }
    requires holds { HoldsPod (H.told host.old) pod.now }
    ensures moves { Moves root.now pod.now pod.now (H.told host.old) (H.told host.new) }
    ensures quiet { count_actions (H.told host.new) ≡ count_actions (H.told host.old) }
    ensures killed { H.killed host.new ≡ H.killed host.old }
    ensures watches { H.watches host.new ≡ H.watches host.old }
    ensures plays { H.plays host.new ≡ H.plays host.old }
    ensures count { Counts (H.faults host.old) (H.faults host.new) result }
{
    let folder = &pod.plan.folders.as_slice()[place];
    match own_space(alloc, root, &pod.name, folder)? {
        Some(space) => clear_own(host, root, pod, &space),
        None => Ok(()),
    }
}

/// Makes each emptyDir anew.
pub(crate) fn clear_spaces<H: Host>(
    alloc: Global,
    host: &mut H,
    root: &Text,
    pod: &HeldPod,
) -> Result<(), Miss>
    requires unarmed { pod.now.steps.items ≡ [] }
    requires holds { HoldsPod (H.told host.old) pod.now }
    ensures moves { Moves root.now pod.now pod.now (H.told host.old) (H.told host.new) }
    ensures quiet { count_actions (H.told host.new) ≡ count_actions (H.told host.old) }
    ensures killed { H.killed host.new ≡ H.killed host.old }
    ensures watches { H.watches host.new ≡ H.watches host.old }
    ensures plays { H.plays host.new ≡ H.plays host.old }
    ensures count { Counts (H.faults host.old) (H.faults host.new) result }
{
    for place in 0..pod.plan.folders.len() {
        clear_space(alloc, host, root, pod, place)?;
    }
    Ok(())
}

/// The file by which the folder of a workspace is made.
fn space_file(alloc: Global, root: &Text, pod: &Text, folder: &Text) -> Result<Text, AllocError>
    ensures { IfOk result (λ path. path ≡ file_of_space root.now pod.now folder.now) }
{
    let spaces = spaces_path(alloc, root, pod)?;
    let file = if is_under(spaces.as_str(), folder.as_str()) {
        ".space"
    } else {
        ".claim"
    };
    let mut path = String::from_str(alloc, folder.as_str())?;
    go_below(&mut path, file)?;
    Ok(Text::from_string(path))
}

/// Makes the folder at a place.
fn put_space<H: Host>(
    alloc: Global,
    host: &mut H,
    root: &Text,
    pod: &HeldPod,
    place: usize,
) -> Result<(), Miss>
    requires within { place < length pod.now.plan.folders }
    requires unarmed { pod.now.steps.items ≡ [] }
    requires holds { HoldsPod (H.told host.old) pod.now }
    ensures put { OnOk result (PutsSpace root.now pod.now.name pod.now.plan place (H.told host.old) (H.told host.new)) }
    ensures moves { Moves root.now pod.now pod.now (H.told host.old) (H.told host.new) }
    ensures quiet { count_actions (H.told host.new) ≡ count_actions (H.told host.old) }
    ensures killed { H.killed host.new ≡ H.killed host.old }
    ensures watches { H.watches host.new ≡ H.watches host.old }
    ensures plays { H.plays host.new ≡ H.plays host.old }
    ensures count { Counts (H.faults host.old) (H.faults host.new) result }
{
    let path = space_file(alloc, root, &pod.name, &pod.plan.folders.as_slice()[place])?;
    put_own(host, root, pod, &path, &[])
}

/// Makes the folders of the workspaces.
pub(crate) fn put_spaces<H: Host>(
    alloc: Global,
    host: &mut H,
    root: &Text,
    pod: &HeldPod,
) -> Result<(), Miss>
    requires unarmed { pod.now.steps.items ≡ [] }
    requires holds { HoldsPod (H.told host.old) pod.now }
    ensures spaces { OnOk result (AreSpacesMade root.now pod.now.name pod.now.plan (H.told host.new)) }
    ensures moves { Moves root.now pod.now pod.now (H.told host.old) (H.told host.new) }
    ensures quiet { count_actions (H.told host.new) ≡ count_actions (H.told host.old) }
    ensures killed { H.killed host.new ≡ H.killed host.old }
    ensures watches { H.watches host.new ≡ H.watches host.old }
    ensures plays { H.plays host.new ≡ H.plays host.old }
    ensures count { Counts (H.faults host.old) (H.faults host.new) result }
{
    for place in 0..pod.plan.folders.len() {
        put_space(alloc, host, root, pod, place)?;
    }
    Ok(())
}
