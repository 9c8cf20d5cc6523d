//! Labels, with what is asked of them at every turn.

ghost use Rattle.std.specs.Prelude.{◌≡◌, ◌≢◌, ◌<◌, ℕ, length, IfNone, IfSome};
ghost use Rattle.std.specs.List.{list_all};
ghost use Rattle.tk_labels.specs.Kept.{IsFirstReady};
ghost use Rattle.tk_types.specs.declared.verdict.Verdict.TheVariants.{Ready};
ghost use Rattle.tk_verdict.specs.Verdict.{is_done, is_ready as is_ready_label, label_at};

use std::marker::Model;
use tk_types::Verdict;
use tk_verdict::judging::are_all_done;

/// Labels, with the first place whose label is Ready, and whether all are done. A contract sees the labels.
#[derive(Drop)]
pub(crate) struct Labelling {
    labels: Vec<Verdict>,
    ready: Option<usize>,
    done: bool,
}

impl Model for Labelling {
    ghost use Rattle.std.specs.Prelude.{List};
    ghost use Rattle.std.specs.List.{list_all};
    ghost use Rattle.tk_types.specs.declared.verdict.Verdict.{Verdict};
    ghost use Rattle.tk_labels.specs.Kept.{IsSummed};

    ghost Value = { List Verdict };

    ghost view = { λ l. l.labels.items };

    ghost invariant = { λ l. IsSummed l.labels.items l.ready l.done };
}

impl Labelling {
    /// These labels.
    pub(crate) fn of(labels: Vec<Verdict>) -> Labelling
        ensures { result ≡ labels.items }
    {
        let ready = first_ready(labels.as_slice());
        let done = are_all_done(labels.as_slice());
        Labelling {
            labels,
            ready,
            done,
        }
    }

    /// All labels.
    pub(crate) fn as_slice(&self) -> &[Verdict]
        ensures { result.now ≡ self.now }
    {
        self.labels.as_slice()
    }

    /// The first place whose label is Ready.
    pub(crate) fn first_ready(&self) -> Option<usize>
        ensures some { IfSome result (λ place. IsFirstReady self.now place) }
        ensures none { IfNone result ((place : ℕ) → label_at self.now place ≢ Ready) }
    {
        self.ready
    }

    /// Whether all are done.
    pub(crate) fn are_done(&self) -> bool
        ensures { result ≡ list_all is_done self.now }
    {
        self.done
    }
}

/// Whether a task is to get children.
pub(crate) fn is_ready(label: Verdict) -> bool
    ensures { result ≡ is_ready_label label }
{
    matches!(label, Verdict::Ready)
}

/// The first place whose label is Ready.
fn first_ready(labels: &[Verdict]) -> Option<usize>
    ensures some { IfSome result (λ place. IsFirstReady labels.now place) }
    ensures none { IfNone result ((place : ℕ) → label_at labels.now place ≢ Ready) }
{
    for (place, label) in labels.iter().enumerate() {
        if is_ready(*label) {
            return Some(place);
        }
    }
    None
}
