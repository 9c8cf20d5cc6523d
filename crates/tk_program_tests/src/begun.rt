//! Benches in memory whose members begin, and an empty store.
ghost use Rattle.std.specs.Prelude.{◌≡◌, [], length, IfOk};
ghost use Rattle.tk_cache.specs.Fronts.{Shows};
ghost use Rattle.tk_cache.specs.Views.{seen};
ghost use Rattle.tk_rounds.specs.Bench.{AllReady, IsReadyController, IsReadyNode, controller_number, node_number};

use std::alloc::{AllocError, Global};
use tk_edge::{CleanHost, Fresh, Gate, Host, ManualClock};
use tk_held::laws::nothing_is_met;
use tk_journal::Admitted;
use tk_rounds::{Bench, Controller, Node};
use tk_store::Store;
use tk_types::{List, Text};

/// A controller over a clock that stands still, with this gate.
fn controller<G: Gate + Drop>(alloc: Global, number: u32, gate: G) -> Controller<ManualClock, G>
    ensures number { result.number ≡ number }
    ensures ready { IsReadyController [] result }
{
    let mut controller = Controller::new(alloc, ManualClock::new(alloc), gate);
    controller.begin(number);
    controller
}

/// A node over such a clock and a host whose steps end with the exit 0, that isn't begun.
fn new_node<G: Gate + Drop>(alloc: Global, gate: G) -> Node<ManualClock, CleanHost, G>
    ensures unseen { Shows (seen result.cache) [] }
    ensures silent { ⟦<CleanHost as Host>⟧.told result.host ≡ [] }
{
    Node::new(
        alloc,
        ManualClock::new(alloc),
        CleanHost::new(alloc, 0),
        gate,
    )
}

/// Such a node, which is begun.
fn node<G: Gate + Drop>(alloc: Global, number: u32, gate: G) -> Node<ManualClock, CleanHost, G>
    ensures number { node_number result ≡ number }
    ensures ready { IsReadyNode (⟦<CleanHost as Host>⟧.told) (⟦<CleanHost as Host>⟧.killed) [] result }
{
    nothing_is_met();
    let mut node = new_node(alloc, gate);
    node.begin(alloc, number, 1, Text::new(alloc));
    node
}

/// One controller and one node, with these gates.
pub(crate) fn pair<G: Gate + Drop>(
    alloc: Global,
    one: G,
    other: G,
) -> Result<Bench<ManualClock, CleanHost, G>, AllocError>
    ensures counts { IfOk result (λ bench. (length bench.controllers.items ≡ 1) × (length bench.kubelets.items ≡ 1)) }
    ensures controllers { IfOk result (λ bench. AllReady controller_number IsReadyController [] bench.controllers.items) }
    ensures nodes { IfOk result (λ bench. AllReady node_number (IsReadyNode (⟦<CleanHost as Host>⟧.told) (⟦<CleanHost as Host>⟧.killed)) [] bench.kubelets.items) }
{
    let mut controllers = Vec::new(alloc);
    controllers.push(controller(alloc, 0, one))?;
    let mut kubelets = Vec::new(alloc);
    kubelets.push(node(alloc, 0, other))?;
    Ok(Bench {
        controllers,
        kubelets,
        user: ManualClock::new(alloc),
    })
}

/// A store without entries.
pub(crate) fn empty(alloc: Global) -> Result<Store, AllocError>
    ensures { IfOk result (λ store. store.history ≡ []) }
{
    Store::new(
        alloc,
        Admitted {
            entries: List::new(alloc),
            weight: 8,
            scenario: None,
            outcomes: None,
            objects: 0,
        },
    )
}
