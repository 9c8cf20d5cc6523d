//! Laws of admitted Scenarios: each call promises its law and does nothing.

ghost use Rattle.tk_scenario_laws.specs.Laws.{AdmittedIsPlayable, AsksAreWeighed, ScenarioIsPlayable};

/// A Scenario without a fault has 1 to 8 controllers and 1 to 8 kubelets, and its events may come to them.
pub fn scenario_is_playable()
    ensures { ScenarioIsPlayable }
{}

/// So has one that stands in an input without a fault.
pub fn admitted_is_playable()
    ensures { AdmittedIsPlayable }
{}

/// The weight of such an input counts each ask of its Scenario.
pub fn asks_are_weighed()
    ensures { AsksAreWeighed }
{}
