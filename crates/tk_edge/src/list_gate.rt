ghost use Rattle.std.specs.Prelude.{◌≡◌, [], Some};
ghost use Rattle.tk_edge.specs.Gates.{later_answers, next_answer, with_answer};

use crate::gate::{Gate, GateTurn};
use std::marker::Model;
use tk_types::List;

/// A gate that gives the answers of its list in order, and Pause once the list is over. It tells its answers.
#[derive(Drop)]
pub struct ListGate {
    all: List<GateTurn>,
    position: usize,
}

impl Model for ListGate {
    ghost use Rattle.std.specs.Prelude.{◌≤◌, drop, length, reverse, take};
    ghost use Rattle.tk_edge.specs.Gates.{answers_in, Listed};

    ghost Value = { Listed };

    ghost view = { λ g. record { left = drop g.position g.all; answers = answers_in (reverse (take g.position g.all)) } };

    ghost invariant = { λ g. g.position ≤ length g.all };
}

impl ListGate {
    /// A gate that gives these answers.
    pub fn new(answers: List<GateTurn>) -> Self
        ensures { result ≡ record { left = answers; answers = [] } }
    {
        ListGate {
            all: answers,
            position: 0,
        }
    }
}

impl Gate for ListGate {
    ghost answers = { λ g. Some g.answers };

    fn next(&mut self, _lag: u64) -> GateTurn
        ensures answer { result ≡ next_answer self.old.left }
        ensures left { self.new.left ≡ later_answers self.old.left }
        ensures answers { self.new.answers ≡ with_answer result self.old.answers }
    {
        match self.all.as_slice().get(self.position) {
            Some(answer) => {
                let answer = *answer;
                self.position += 1;
                answer
            }
            None => GateTurn::Pause,
        }
    }
}
