ghost use Rattle.std.specs.Prelude.{◌≡◌, IfOk};
ghost use Rattle.tk_simulate.specs.Played.{MayBePlayed};
ghost use Rattle.tk_simulate.specs.Scripts.{scenario_in};
ghost use Rattle.tk_simulate.specs.Started.{IsStarted, Starts};

use crate::scripts::scripts_of;
use std::alloc::{AllocError, Global};
use tk_admit::admit;
use tk_journal::Admitted;
use tk_manifest::{Document, KindSet};
use tk_sound::laws::admitted_is_legal;
use tk_types::{List, Rejected, Scenario};
use tk_world::World;

/// The folder of all pods.
const ROOT: &str = "/work";

/// An input's runs in a world, before the first event of its Scenario; and the weight, which bounds the world's journal.
#[derive(Drop)]
pub struct Started {
    pub world: World,
    pub scenario: Scenario,
    pub weight: u64,
}

/// The Scenario, or that of one controller and one kubelet without outcomes and events.
fn scenario_or_plain(alloc: Global, given: Option<Scenario>) -> Scenario
    ensures { result ≡ scenario_in given }
{
    match given {
        Some(scenario) => scenario,
        None => Scenario {
            controllers: 1,
            kubelets: 1,
            outcomes: List::new(alloc),
            events: List::new(alloc),
        },
    }
}

/// What was admitted, in a world. The only error is want of memory.
fn begin(alloc: Global, given: Admitted) -> Result<Started, AllocError>
    requires { MayBePlayed given }
    ensures { IfOk result (IsStarted given) }
{
    let Admitted {
        entries,
        weight,
        scenario,
        objects,
        ..
    } = given;
    let scenario = scenario_or_plain(alloc, scenario);
    let scripts = scripts_of(alloc, scenario.outcomes.as_slice())?;
    let admitted = Admitted {
        entries,
        weight,
        scenario: None,
        outcomes: None,
        objects,
    };
    let world = World::new(
        alloc,
        admitted,
        scenario.controllers,
        scenario.kubelets,
        scripts,
    )?;
    Ok(Started {
        world,
        scenario,
        weight,
    })
}

/// The runs of an input in a world, before the first event of its Scenario. The input is refused for its first fault; the
/// only other error is want of memory.
pub fn start(alloc: Global, bytes: &[u8]) -> Result<Started, Rejected>
    ensures { Starts bytes.now result }
{
    let document = Document::new(alloc, bytes)?;
    let admitted = admit(alloc, &document, KindSet::WithScenario, 0, ROOT)?;
    admitted_is_legal();
    Ok(begin(alloc, admitted)?)
}
