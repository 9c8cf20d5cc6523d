//! How a run goes on.

ghost use Rattle.std.specs.Prelude.{◌≡◌, ◌≢◌, ◌<◌, ◌↔◌, ◌⊎◌, ℕ, List, [], Some, length, All, IsSome};
ghost use Rattle.tk_types.specs.declared.run.Child.{Child};
ghost use Rattle.tk_types.specs.declared.run.Facts.{Facts};
ghost use Rattle.tk_types.specs.declared.run.Start.TheVariants.{Ready as Startable};
ghost use Rattle.tk_types.specs.declared.run.Stop.{Stop};
ghost use Rattle.tk_types.specs.declared.verdict.Binding.{Binding};
ghost use Rattle.tk_types.specs.declared.verdict.Verdict.TheVariants.{Ready, Wrong};
ghost use Rattle.tk_graph.specs.Parents.{IsAcyclic};
ghost use Rattle.tk_verdict.specs.Condition.{condition_of};
ghost use Rattle.tk_types.specs.Behaviour.{level_of};
ghost use Rattle.tk_verdict.specs.Facts.{task_total};
ghost use Rattle.tk_verdict.specs.Gives.{label_of, Gives};
ghost use Rattle.tk_verdict.specs.Labels.{labels_of, ready_bindings};
ghost use Rattle.tk_verdict.specs.Progress.{AllDone, SomeReady, IsFailing};

/// A run has a condition exactly where it can't start or all its tasks are done.
pub fn decided()
    ensures { (facts : Facts) → IsSome (condition_of facts (labels_of facts)) ↔ ((facts.spec.start ≢ Startable) ⊎ AllDone facts) }
{}

/// The rules give a task that is Ready the bindings that `ready_bindings` computes, and no stop is in its way: for a
/// task of `tasks` none is recorded, and for one of `finally` none of level 3 or 4.
pub fn ready_goes_on()
    ensures given { (facts : Facts) (place : ℕ) → IsAcyclic facts.spec.tasks → label_of facts place ≡ Ready
        → (bindings : List Binding) × (ready_bindings facts (labels_of facts) place ≡ Some bindings) × Gives facts place bindings }
    ensures unstopped { (facts : Facts) (place : ℕ) → place < length facts.spec.tasks → label_of facts place ≡ Ready → facts.stops ≡ [] }
    ensures not_late { (facts : Facts) (place : ℕ) → label_of facts place ≡ Ready → All (λ (stop : Stop). level_of stop < 3) facts.stops }
{}

/// Once all children ended and no task is Wrong, all tasks are done, or one is Ready, or no stop is recorded, a child of
/// `tasks` isn't good, and a task of `tasks` has no children.
pub fn goes_on()
    ensures { (facts : Facts) → IsAcyclic facts.spec.tasks → All (λ (child : Child). IsSome child.outcome) facts.children
        → ((place : ℕ) → place < task_total facts → label_of facts place ≢ Wrong) → AllDone facts ⊎ (SomeReady facts ⊎ IsFailing facts) }
{}
