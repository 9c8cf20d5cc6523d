ghost use Rattle.std.specs.Prelude.{◌≡◌, IfOk, OnOk, map, codes, string_bytes};
ghost use Rattle.tk_space.specs.Space.{below, claims_folder, pod_folder, space_base, space_folder, spaces_folder};

use std::alloc::{AllocError, Global};
use tk_types::{List, Space, Text};

/// Goes on from a folder to what has this name in it.
fn go_below(folder: &mut String, name: &str) -> Result<(), AllocError>
    ensures { OnOk result (string_bytes folder.new ≡ below (string_bytes folder.old) name.now) }
{
    folder.push_str("/")?;
    folder.push_str(name)?;
    Ok(())
}

/// The folder of a claim.
fn claim_base(alloc: Global, root: &str, claim: &str) -> Result<String, AllocError>
    ensures { IfOk result (λ base. string_bytes base ≡ below (claims_folder root.now) claim.now) }
{
    let mut base = String::from_str(alloc, root)?;
    go_below(&mut base, "claims")?;
    go_below(&mut base, claim)?;
    Ok(base)
}

/// The folder of an `emptyDir`.
fn own_base(alloc: Global, root: &str, pod: &str, name: &str) -> Result<String, AllocError>
    ensures { IfOk result (λ base. string_bytes base ≡ below (spaces_folder root.now pod.now) name.now) }
{
    let mut base = String::from_str(alloc, root)?;
    go_below(&mut base, pod)?;
    go_below(&mut base, "ws")?;
    go_below(&mut base, name)?;
    Ok(base)
}

/// The folder of a bound workspace without its `sub`.
fn base(alloc: Global, root: &str, pod: &str, space: &Space) -> Result<String, AllocError>
    ensures { IfOk result (λ base. string_bytes base ≡ space_base root.now pod.now space.now) }
{
    match &space.claim {
        Some(claim) => claim_base(alloc, root, claim.as_str()),
        None => own_base(alloc, root, pod, space.name.as_str()),
    }
}

/// The folder of a bound workspace in an attempt of this pod: `ROOT/POD/ws/NAME` for an `emptyDir` and
/// `ROOT/claims/CLAIM` for a claim, and behind it `sub` where one is written (Tekton, Workspaces, Using Workspaces in
/// Tasks). The only error is want of memory.
pub fn folder(alloc: Global, root: &str, pod: &str, space: &Space) -> Result<Text, AllocError>
    ensures { IfOk result (λ text. text ≡ space_folder root.now pod.now space.now) }
{
    let mut folder = base(alloc, root, pod, space)?;
    if space.sub.is_empty() {
        return Ok(Text::from_string(folder));
    }
    go_below(&mut folder, space.sub.as_str())?;
    Ok(Text::from_string(folder))
}

/// The folders of the bound workspaces, in their order, which a body has from its Task's declarations. The only error
/// is want of memory.
pub fn folders(
    alloc: Global,
    root: &str,
    pod: &str,
    bound: &[Space],
) -> Result<List<Text>, AllocError>
    ensures { IfOk result (λ folders. folders ≡ map (space_folder root.now pod.now) bound.now) }
{
    let mut folders = List::new(alloc);
    for space in bound {
        folders.push(folder(alloc, root, pod, space)?)?;
    }
    Ok(folders)
}
