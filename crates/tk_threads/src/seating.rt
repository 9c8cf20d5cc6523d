// The members of a bench take their seats for a round, and leave them.
ghost use Rattle.std.specs.Prelude.{◌≡◌, ◌≤◌, ◌<◌, ◌^◌, ◌-◌, [], length, map};
ghost use Rattle.std.specs.Vec.{vec_capacity};
ghost use Rattle.tk_rounds.specs.Bench.{controller_number, node_number};
ghost use Rattle.tk_threads.specs.Seating.{AreNumbered, controller_in, leader_of, node_in, worker_of};

use crate::leader::Leader;
use crate::worker::Worker;
use tk_edge::GateTurn;
use tk_passes::Member;
use tk_rounds::{Controller, Node};

/// Controllers in seats, in room that is there.
pub(crate) fn seat_controllers<K: Drop, G: Drop>(
    controllers: Vec<Controller<K, G>>,
    mut seats: Vec<Member<Leader<K, G>>>,
) -> Vec<Member<Leader<K, G>>>
    requires empty { seats.items ≡ [] }
    requires room { length controllers.items ≤ vec_capacity seats }
    requires few { length controllers.items < 2 ^ 31 - 1 }
    requires numbered { AreNumbered controller_number controllers.items }
    ensures { result.items ≡ map leader_of controllers.items }
{
    let mut owner = 1u32;
    for controller in controllers {
        seats.push_reserved(Member {
            actor: Leader {
                controller,
                owner,
                given: GateTurn::Pause,
            },
            pass: None,
            lacked: false,
        });
        owner += 2;
    }
    seats
}

/// The controllers of seats, in room that is there.
pub(crate) fn leave_controllers<K: Drop, G: Drop>(
    seats: Vec<Member<Leader<K, G>>>,
    mut controllers: Vec<Controller<K, G>>,
) -> Vec<Controller<K, G>>
    requires empty { controllers.items ≡ [] }
    requires room { length seats.items ≤ vec_capacity controllers }
    ensures { result.items ≡ map controller_in seats.items }
{
    for seat in seats {
        let Member { actor, .. } = seat;
        let Leader { controller, .. } = actor;
        controllers.push_reserved(controller);
    }
    controllers
}

/// Nodes in seats, in room that is there.
pub(crate) fn seat_nodes<K: Drop, H: Drop, G: Drop>(
    nodes: Vec<Node<K, H, G>>,
    mut seats: Vec<Member<Worker<K, H, G>>>,
) -> Vec<Member<Worker<K, H, G>>>
    requires empty { seats.items ≡ [] }
    requires room { length nodes.items ≤ vec_capacity seats }
    requires few { length nodes.items < 2 ^ 31 - 1 }
    requires numbered { AreNumbered node_number nodes.items }
    ensures { result.items ≡ map worker_of nodes.items }
{
    let mut owner = 2u32;
    for node in nodes {
        seats.push_reserved(Member {
            actor: Worker {
                node,
                owner,
                given: GateTurn::Pause,
            },
            pass: None,
            lacked: false,
        });
        owner += 2;
    }
    seats
}

/// The nodes of seats, in room that is there.
pub(crate) fn leave_nodes<K: Drop, H: Drop, G: Drop>(
    seats: Vec<Member<Worker<K, H, G>>>,
    mut nodes: Vec<Node<K, H, G>>,
) -> Vec<Node<K, H, G>>
    requires empty { nodes.items ≡ [] }
    requires room { length seats.items ≤ vec_capacity nodes }
    ensures { result.items ≡ map node_in seats.items }
{
    for seat in seats {
        let Member { actor, .. } = seat;
        let Worker { node, .. } = actor;
        nodes.push_reserved(node);
    }
    nodes
}
