ghost use Rattle.std.specs.Prelude.{◌≡◌, IfOk, option_map};
ghost use Rattle.tk_resolve.specs.Spaces.{binding_named, handed_on, handed_spaces, has_unbound, is_unbound, joined_path, own_spaces, space_by};

use std::alloc::{AllocError, Global};
use tk_types::{FirstNamed, List, Space, SpaceSpec, SpaceUse, Text, TryCopy};

/// Two paths joined by `/`, either of which may be empty.
fn joined_path(alloc: Global, first: &Text, second: &Text) -> Result<Text, AllocError>
    ensures { IfOk result (λ path. path ≡ joined_path first.now second.now) }
{
    if first.is_empty() {
        return second.copy(alloc);
    }
    if second.is_empty() {
        return first.copy(alloc);
    }
    let mut path = String::from_str(alloc, first.as_str())?;
    path.push_str("/")?;
    path.push_str(second.as_str())?;
    Ok(Text::from_string(path))
}

/// A run's binding as a pipeline task hands it on.
fn handed_on(alloc: Global, handing: &SpaceUse, binding: &Space) -> Result<Space, AllocError>
    ensures { IfOk result (λ space. space ≡ handed_on handing.now binding.now) }
{
    Ok(Space {
        name: handing.name.copy(alloc)?,
        claim: binding.claim.copy(alloc)?,
        sub: joined_path(alloc, &binding.sub, &handing.sub)?,
    })
}

/// What a use of a run's binding hands on, if the run has that binding.
fn handed_by(
    alloc: Global,
    bindings: &FirstNamed<'_, Space>,
    handing: &SpaceUse,
) -> Result<Option<Space>, AllocError>
    ensures { IfOk result (λ space. space ≡ option_map (handed_on handing.now) (binding_named bindings.now handing.now.from)) }
{
    match bindings.get(handing.from.as_str()) {
        Some(binding) => Ok(Some(handed_on(alloc, handing, binding)?)),
        None => Ok(None),
    }
}

/// What a workspace that a Task declares is bound to.
fn space_by(
    alloc: Global,
    bindings: &FirstNamed<'_, Space>,
    uses: &FirstNamed<'_, SpaceUse>,
    wanted: &SpaceSpec,
) -> Result<Option<Space>, AllocError>
    ensures { IfOk result (λ space. space ≡ space_by bindings.now uses.now wanted.now) }
{
    match uses.get(wanted.name.as_str()) {
        Some(handing) => handed_by(alloc, bindings, handing),
        None => Ok(None),
    }
}

/// The bound workspaces of a pipeline task's Task, in the order of its declarations. The only error is want of memory.
pub(crate) fn handed_spaces(
    alloc: Global,
    bindings: &FirstNamed<'_, Space>,
    uses: &FirstNamed<'_, SpaceUse>,
    wanted: &[SpaceSpec],
) -> Result<List<Space>, AllocError>
    ensures { IfOk result (λ spaces. spaces ≡ handed_spaces bindings.now uses.now wanted.now) }
{
    let mut spaces = List::new(alloc);
    for spec in wanted {
        if let Some(space) = space_by(alloc, bindings, uses, spec)? {
            spaces.push(space)?;
        }
    }
    Ok(spaces)
}

/// What a workspace that a TaskRun's own Task declares is bound to.
fn own_space(
    alloc: Global,
    bindings: &FirstNamed<'_, Space>,
    wanted: &SpaceSpec,
) -> Result<Option<Space>, AllocError>
    ensures { IfOk result (λ space. space ≡ binding_named bindings.now wanted.now.name) }
{
    match bindings.get(wanted.name.as_str()) {
        Some(binding) => Ok(Some(binding.copy(alloc)?)),
        None => Ok(None),
    }
}

/// The bound workspaces of a TaskRun's own Task. The only error is want of memory.
pub(crate) fn own_spaces(
    alloc: Global,
    bindings: &FirstNamed<'_, Space>,
    wanted: &[SpaceSpec],
) -> Result<List<Space>, AllocError>
    ensures { IfOk result (λ spaces. spaces ≡ own_spaces bindings.now wanted.now) }
{
    let mut spaces = List::new(alloc);
    for spec in wanted {
        if let Some(space) = own_space(alloc, bindings, spec)? {
            spaces.push(space)?;
        }
    }
    Ok(spaces)
}

/// Whether a declared workspace that isn't optional is bound to nothing.
fn is_unbound(bound: &FirstNamed<'_, Space>, wanted: &SpaceSpec) -> bool
    ensures { result ≡ is_unbound bound.now wanted.now }
{
    !wanted.optional && bound.get(wanted.name.as_str()).is_none()
}

/// Whether some declared workspace that isn't optional is bound to nothing.
pub(crate) fn has_unbound(bound: &FirstNamed<'_, Space>, wanted: &[SpaceSpec]) -> bool
    ensures { result ≡ has_unbound bound.now wanted.now }
{
    wanted.iter().any(|spec| is_unbound(bound, spec))
}
