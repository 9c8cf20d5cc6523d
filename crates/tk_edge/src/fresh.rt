ghost use Rattle.std.specs.Prelude.{◌≡◌, None};
ghost use Rattle.tk_types.specs.declared.scenario.Kind.TheVariants as kinds;
ghost use Rattle.tk_edge.specs.Gates.{following as following_kind, fresh_answer, fresh_next};

use crate::gate::{Gate, GateTurn};
use tk_types::Kind;

/// A gate that keeps a cache fresh: while the cache lags it is given all entries of one kind after the other, and else it
/// works. It tells no list of answers.
#[derive(Clone, Copy, Debug, PartialEq, Eq)]
pub struct Fresh {
    /// The kind that is delivered next.
    pub kind: Kind,
}

impl Fresh {
    /// A gate that delivers runs first.
    pub fn new() -> Self
        ensures { result ≡ record { kind = kinds.Runs } }
    {
        Fresh { kind: Kind::Runs }
    }
}

/// The kind behind a kind; runs follow pods.
fn following(kind: Kind) -> Kind
    ensures { result ≡ following_kind kind }
{
    match kind {
        Kind::Runs => Kind::TaskRuns,
        Kind::TaskRuns => Kind::Pods,
        Kind::Pods => Kind::Runs,
    }
}

impl Gate for Fresh {
    ghost answers = { λ _. None };

    fn next(&mut self, lag: u64) -> GateTurn
        ensures answer { result ≡ fresh_answer self.old.kind lag }
        ensures kind { self.new.kind ≡ fresh_next self.old.kind lag }
    {
        if lag == 0 {
            return GateTurn::Work;
        }
        let kind = self.kind;
        self.kind = following(kind);
        GateTurn::Deliver { kind, n: u64::MAX }
    }
}
