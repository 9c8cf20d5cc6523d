ghost use Rattle.std.specs.Prelude.{◌≡◌, ◌++◌, IfOk, OnOk, flat_map, option_copied};
ghost use Rattle.tk_space.specs.Space.{bound_space, bound_text, claim_text, path_text, space_word, words_of_space, words_with};

use crate::paths::folder;
use std::alloc::{AllocError, Global};
use tk_types::{List, Pair, Space, SpaceSpec, Text, TryCopy};

/// What a workspace that a Task declares is bound to.
fn bound_space<'a>(bound: &'a [Space], spec: &SpaceSpec) -> Option<&'a Space>
    ensures { option_copied result ≡ bound_space bound.now spec.now }
{
    bound
        .iter()
        .find(|space| space.name.as_str() == spec.name.as_str())
}

/// The folder, where it is bound.
fn path_text(
    alloc: Global,
    root: &str,
    pod: &str,
    space: Option<&Space>,
) -> Result<Text, AllocError>
    ensures { IfOk result (λ text. text ≡ path_text root.now pod.now (option_copied space.entry)) }
{
    match space {
        Some(space) => folder(alloc, root, pod, space),
        None => Ok(Text::new(alloc)),
    }
}

/// `true` where it is bound, else `false`.
fn bound_text(alloc: Global, space: Option<&Space>) -> Result<Text, AllocError>
    ensures { IfOk result (λ text. text ≡ bound_text (option_copied space.entry)) }
{
    match space {
        Some(_) => Text::from_str(alloc, "true"),
        None => Text::from_str(alloc, "false"),
    }
}

/// The claim's name, where it is bound to one.
fn claim_text(alloc: Global, space: Option<&Space>) -> Result<Text, AllocError>
    ensures { IfOk result (λ text. text ≡ claim_text (option_copied space.entry)) }
{
    if let Some(space) = space {
        if let Some(claim) = &space.claim {
            return claim.copy(alloc);
        }
    }
    Ok(Text::new(alloc))
}

/// A word of a workspace.
fn space_word(alloc: Global, name: &Text, end: &str, value: Text) -> Result<Pair, AllocError>
    ensures { IfOk result (λ word. word ≡ space_word name.now end.now value) }
{
    let mut key = String::from_str(alloc, "workspaces.")?;
    key.push_str(name.as_str())?;
    key.push_str(end)?;
    Ok(Pair {
        key: Text::from_string(key),
        value,
    })
}

/// Adds the words of a workspace of this name.
fn push_words(
    alloc: Global,
    root: &str,
    pod: &str,
    name: &Text,
    space: Option<&Space>,
    words: &mut List<Pair>,
) -> Result<(), AllocError>
    ensures { OnOk result (words.new ≡ words.old ++ words_with root.now pod.now name.now (option_copied space.entry)) }
{
    let path = path_text(alloc, root, pod, space)?;
    words.push(space_word(alloc, name, ".path", path)?)?;
    let bound = bound_text(alloc, space)?;
    words.push(space_word(alloc, name, ".bound", bound)?)?;
    let claim = claim_text(alloc, space)?;
    words.push(space_word(alloc, name, ".claim", claim)?)?;
    Ok(())
}

/// The words of the workspaces that a Task declares, in order, as the texts of an attempt of this pod see them: of each
/// N `workspaces.N.path`, its folder or the empty text where it isn't bound, `workspaces.N.bound`, `true` or `false`,
/// and `workspaces.N.claim`, the claim's name or the empty text (Tekton, Workspaces, Using Workspaces in Tasks; Variable
/// Substitutions Supported by Tasks and Pipelines). The only error is want of memory.
pub fn words(
    alloc: Global,
    root: &str,
    pod: &str,
    specs: &[SpaceSpec],
    bound: &[Space],
) -> Result<List<Pair>, AllocError>
    ensures { IfOk result (λ words. words ≡ flat_map (words_of_space root.now pod.now bound.now) specs.now) }
{
    let mut words = List::new(alloc);
    for spec in specs {
        push_words(
            alloc,
            root,
            pod,
            &spec.name,
            bound_space(bound, spec),
            &mut words,
        )?;
    }
    Ok(words)
}
