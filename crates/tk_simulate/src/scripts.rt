ghost use Rattle.std.specs.Prelude.{◌≡◌, IfOk};
ghost use Rattle.tk_simulate.specs.Scripts.{script_by, scripts_by};

use std::alloc::{AllocError, Global};
use tk_names::pod_name;
use tk_script::PodScript;
use tk_types::{List, Scripted, TryCopy};

/// The script of a pod that an outcome gives. The only error is want of memory.
fn script_of(alloc: Global, outcome: &Scripted) -> Result<PodScript, AllocError>
    ensures { IfOk result (λ script. script ≡ script_by outcome.now) }
{
    Ok(PodScript {
        pod: pod_name(alloc, outcome.task_run.as_str(), outcome.attempt)?,
        exits: outcome.exits.copy(alloc)?,
        files: outcome.files.copy(alloc)?,
    })
}

/// The scripts of the pods that outcomes give, in order. The only error is want of memory.
pub(crate) fn scripts_of(
    alloc: Global,
    outcomes: &[Scripted],
) -> Result<List<PodScript>, AllocError>
    ensures { IfOk result (λ scripts. scripts ≡ scripts_by outcomes.now) }
{
    let mut scripts = Vec::new(alloc);
    for outcome in outcomes {
        scripts.push(script_of(alloc, outcome)?)?;
    }
    Ok(List::from_vec(scripts))
}
