//! The members of a bench over one store: controllers and nodes, each with a clock and a gate of its own. A member's gate
//! says what it does in its next turn: its cache moves, or it works. A turn makes at most one entry, with the cache's
//! fronts and the one reading that it takes of its clock. So each entry of a member is covered by what its gate let
//! through before it, and has a reading of its own as its moment (`specs/Follows.antt`). A round gives each member in
//! order a part of its turns; a round of nodes alone serves while the controllers wait for what hosts find.
//!
//! `bench.rt` has controllers and nodes, `moving.rt` how a cache moves, `controller.rt` and `node.rt` their turns,
//! `member.rt` what both are and the turns of many, `seats.rt` that they are, `round.rt` rounds, of all members and of
//! the nodes alone. `specs/Covered.antt` and `Timed.antt` say how entries follow from gates and clocks, `Follows.antt`
//! what stands of a member, `Outcomes.antt` how a node's pods ended and what its host did, `Turning.antt` what a turn
//! does, `Bench.antt` and `Growth.antt` what rounds leave; in `proofs/`, `Coverage` and `Standing` have a member's own
//! turn, `Took` what workers and kubelets write, `Growing` and `Parts` the others'; of a node's pods, `Ended` has what
//! its host does, `Recorded` each entry, `Counting` how many failed, `Turns` and `NodeTurn` its turn.
#![tactic(auto)]

mod bench;
mod controller;
mod member;
mod moving;
mod node;
mod round;
mod seats;

pub use bench::{Bench, Controller, Node};
pub use member::Member;
pub use round::{RoundEnd, node_round, serial_round};
