//! Facts that stay well formed.

ghost use Rattle.tk_types.specs.declared.run.Facts.{Facts};
ghost use Rattle.tk_labels.specs.declared.change.Change.{Change};
ghost use Rattle.tk_labels.specs.Change.{changed};
ghost use Rattle.tk_labels.specs.Kept.{MayChange};
ghost use Rattle.tk_verdict.specs.WellFormed.{IsWellFormed};

/// Well-formed facts are well formed after a change.
pub fn changed_formed()
    ensures { (change : Change) (facts : Facts) → IsWellFormed facts → MayChange change facts → IsWellFormed (changed change facts) }
{}
