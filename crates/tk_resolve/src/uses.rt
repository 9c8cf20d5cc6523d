ghost use Rattle.std.specs.Prelude.{◌≡◌, false, All, IfOk, IsTrue};
ghost use Rattle.std.specs.List.{list_any};
ghost use Rattle.tk_vars.specs.Reading.{HasReading, pieces_of};
ghost use Rattle.tk_vars.specs.Target.{references_of};
ghost use Rattle.tk_resolve.specs.Due.{seen};
ghost use Rattle.tk_resolve.specs.Misuse.{any_use, passes};

use crate::due::Due;
use std::alloc::{AllocError, Global};
use tk_vars::{Reference, ReferenceTest, any_reference};

/// A question about a reference where something is due.
pub(crate) trait Question {
    ghost use Rattle.std.specs.Prelude.{Bool};
    ghost use Rattle.tk_vars.specs.declared.reference.Reference.{Reference};
    ghost use Rattle.tk_resolve.specs.declared.due.Due.{Due};

    ghost asks: { Self → Due → Reference → Bool };

    /// Whether a text may be passed over without a look at its pieces: the answer is no for each of its references.
    fn passes_over(&self, text: &str) -> bool
        ensures { IsTrue result → (due : Due) → list_any (asks self.now due) (references_of text.now) ≡ false };

    /// The answer. The only error is want of memory.
    fn holds(&self, alloc: Global, due: Due, reference: &Reference<'_>) -> Result<bool, AllocError>
        ensures { IfOk result (λ holds. holds ≡ asks self.now due reference.now) };
}

/// A question where one thing is due.
#[derive(Drop)]
struct WhereDue<'q, Q: Question> {
    question: &'q Q,
    due: Due,
}

impl<'q, Q: Question> ReferenceTest for WhereDue<'q, Q> {
    ghost is_met = { λ test. Q.asks test.question.now test.due };

    fn passes_over(&self, text: &str) -> bool {
        self.question.passes_over(text)
    }

    fn meets(&self, alloc: Global, reference: &Reference<'_>) -> Result<bool, AllocError> {
        Ok(self.question.holds(alloc, self.due, reference)?)
    }
}

/// Whether the answer is yes for some reference of a text.
fn any_in_text<Q: Question>(
    alloc: Global,
    question: &Q,
    due: Due,
    text: &str,
) -> Result<bool, AllocError>
    requires { HasReading text.now }
    ensures { IfOk result (λ any. any ≡ list_any (passes (Q.asks question.now due)) (pieces_of text.now)) }
{
    any_reference(alloc, &WhereDue { question, due }, text)
}

/// Whether the answer is yes for some reference of these texts. The only error is want of memory.
pub(crate) fn any_use<Q: Question>(
    alloc: Global,
    question: &Q,
    texts: &[(Due, &str)],
) -> Result<bool, AllocError>
    requires { All (λ t. HasReading t.1.now) texts.now }
    ensures { IfOk result (λ any. any ≡ any_use (Q.asks question.now) (seen texts.now)) }
{
    for standing in texts {
        if any_in_text(alloc, question, standing.0, standing.1)? {
            return Ok(true);
        }
    }
    Ok(false)
}
