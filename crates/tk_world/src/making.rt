ghost use Rattle.std.specs.Prelude.{◌≡◌, ℕ, Some, List as Items, length, map, slice_get, replicate, IfOk};
ghost use Rattle.tk_cache.specs.Fronts.{Shows};
ghost use Rattle.tk_cache.specs.Views.{Kept, seen};
ghost use Rattle.tk_machine.specs.State.{new_kubelet, no_fronts};
ghost use Rattle.tk_world.specs.declared.node.Node.{Node as ANode};
ghost use Rattle.tk_world.specs.Nodes.{IsNewNode, state_of};
ghost use Rattle.tk_world.specs.Whole.{AreNewCaches, AreNewNodes};

use crate::node::Node;
use std::alloc::{AllocError, Global};
use tk_script::PodScript;
use tk_task_cache::TaskCache;
use tk_types::{List, TryCopy};

/// A copy of a pod's script.
fn copy_script(alloc: Global, script: &PodScript) -> Result<PodScript, AllocError>
    ensures { IfOk result (λ copied. copied ≡ script.now) }
{
    Ok(PodScript {
        pod: script.pod.copy(alloc)?,
        exits: script.exits.copy(alloc)?,
        files: script.files.copy(alloc)?,
    })
}

/// Copies of the scripts, in order. The only error is want of memory.
pub(crate) fn copy_scripts(
    alloc: Global,
    scripts: &[PodScript],
) -> Result<List<PodScript>, AllocError>
    ensures { IfOk result (λ copied. copied ≡ scripts.now) }
{
    let mut copies = Vec::new(alloc);
    for script in scripts {
        copies.push(copy_script(alloc, script)?)?;
    }
    Ok(List::from_vec(copies))
}

/// So many caches that have seen nothing. The only error is want of memory.
pub(crate) fn new_caches(alloc: Global, count: u32) -> Result<Vec<TaskCache>, AllocError>
    ensures { IfOk result (λ caches. AreNewCaches count caches.items) }
{
    let mut caches = Vec::new(alloc);
    for place in 0..count {
        caches.push(TaskCache::empty(alloc))?;
    }
    Ok(caches)
}

/// So many nodes, of which each has its place as its number. The only error is want of memory.
pub(crate) fn new_nodes(
    alloc: Global,
    count: u32,
    scripts: &[PodScript],
) -> Result<Vec<Node>, AllocError>
    ensures { IfOk result (λ nodes. AreNewNodes scripts.now count nodes.items) }
{
    let mut nodes = Vec::new(alloc);
    for number in 0..count {
        nodes.push(Node::new(alloc, number, scripts)?)?;
    }
    Ok(nodes)
}
