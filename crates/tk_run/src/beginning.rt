ghost use Rattle.std.specs.Prelude.{◌≡◌, ◌<◌, ◌+◌, ◌^◌, ℕ, List, length, All, IfOk};
ghost use Rattle.tk_run.specs.Begun.{AreBegun, controller_begun, node_begun};

use std::alloc::{AllocError, Global};
use tk_edge::{Clock, Gate, Host};
use tk_rounds::{Bench, Controller, Node};
use tk_types::Text;

/// The root, once for each of so many nodes. The only error is want of memory.
pub(crate) fn roots_of(alloc: Global, root: &str, count: usize) -> Result<Vec<Text>, AllocError>
    ensures count { IfOk result (λ roots. length roots.items ≡ count) }
    ensures each { IfOk result (λ roots. All (λ r. r ≡ root.now) roots.items) }
{
    let mut roots = Vec::new(alloc);
    for _ in 0..count {
        roots.push(Text::from_str(alloc, root)?)?;
    }
    Ok(roots)
}

/// Each controller begins with its place as its number.
fn begin_controllers<K: Clock, G: Gate>(controllers: &mut [Controller<K, G>])
    requires few { length controllers.old < 2 ^ 32 }
    ensures count { length controllers.new ≡ length controllers.old }
    ensures begun { AreBegun controller_begun (length controllers.old) controllers.old controllers.new }
{
    for i in 0..controllers.len() as u32 {
        controllers[i as usize].begin(i);
    }
}

/// Takes a root off a list that has one.
fn take_root(roots: &mut Vec<Text>) -> Text
    requires some { 0 < length roots.old.items }
    ensures count { length roots.new.items + 1 ≡ length roots.old.items }
    ensures each { (root : List ℕ) → All (λ r. r ≡ root) roots.old.items → (result ≡ root) × All (λ r. r ≡ root) roots.new.items }
{
    match roots.pop() {
        Some(root) => root,
        None => unreachable!(),
    }
}

/// Each node begins with its place as its number, in its first life, with a root of its own.
fn begin_nodes<K: Clock, H: Host, G: Gate>(
    nodes: &mut [Node<K, H, G>],
    alloc: Global,
    roots: &mut Vec<Text>,
)
    requires few { length nodes.old < 2 ^ 32 }
    requires roots { length roots.old.items ≡ length nodes.old }
    ensures count { length nodes.new ≡ length nodes.old }
    ensures begun { (root : List ℕ) → All (λ r. r ≡ root) roots.old.items → AreBegun (node_begun root) (length nodes.old) nodes.old nodes.new }
{
    for i in 0..nodes.len() as u32 {
        let root = take_root(roots);
        nodes[i as usize].begin(alloc, i, 1, root);
    }
}

/// All members of a bench begin. It takes no memory.
pub(crate) fn begin<K: Clock, H: Host, G: Gate>(
    bench: &mut Bench<K, H, G>,
    alloc: Global,
    roots: &mut Vec<Text>,
)
    requires few { (length bench.old.controllers.items < 2 ^ 32) × (length bench.old.kubelets.items < 2 ^ 32) }
    requires roots { length roots.old.items ≡ length bench.old.kubelets.items }
    ensures user { bench.new.user ≡ bench.old.user }
    ensures counts { (length bench.new.controllers.items ≡ length bench.old.controllers.items) × (length bench.new.kubelets.items ≡ length bench.old.kubelets.items) }
    ensures controllers { AreBegun controller_begun (length bench.old.controllers.items) bench.old.controllers.items bench.new.controllers.items }
    ensures nodes { (root : List ℕ) → All (λ r. r ≡ root) roots.old.items → AreBegun (node_begun root) (length bench.old.kubelets.items) bench.old.kubelets.items bench.new.kubelets.items }
{
    begin_controllers(bench.controllers.as_mut_slice());
    begin_nodes(bench.kubelets.as_mut_slice(), alloc, roots);
}
