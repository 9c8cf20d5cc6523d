ghost use Rattle.std.specs.Prelude.{◌≡◌, IfOk, flat_map};
ghost use Rattle.tk_resolve.specs.Asks.{AsksTheSame};
ghost use Rattle.tk_resolve.specs.Due.{seen, step_dues};

use crate::asks::asks_of;
use crate::due::{Due, steps_dues};
use std::alloc::{AllocError, Global};
use std::marker::Model;
use tk_types::TaskSpec;

/// A Task that is admitted, with what its texts ask, which is found once for all that run it. A contract sees the spec.
#[derive(Drop)]
pub(crate) struct KnownTask<'a> {
    spec: &'a TaskSpec,
    asks: Vec<(Due, &'a str)>,
}

impl<'a> Model for KnownTask<'a> {
    ghost use Rattle.std.specs.Prelude.{flat_map};
    ghost use Rattle.tk_types.specs.declared.task.TaskSpec.{TaskSpec as Spec};
    ghost use Rattle.tk_resolve.specs.Asks.{AsksTheSame};
    ghost use Rattle.tk_resolve.specs.Due.{seen, step_dues};

    ghost Value = { Spec };

    ghost view = { λ task. task.spec.now };

    ghost invariant = { λ task. AsksTheSame (flat_map step_dues task.spec.now.steps) (seen task.asks.items) };
}

impl<'a> KnownTask<'a> {
    /// A Task of this spec. The only error is want of memory.
    pub(crate) fn new(alloc: Global, spec: &'a TaskSpec) -> Result<Self, AllocError>
        ensures { IfOk result (λ task. task ≡ spec.now) }
    {
        let texts = steps_dues(alloc, spec.steps.as_slice())?;
        let asks = asks_of(alloc, texts.as_slice())?;
        Ok(KnownTask { spec, asks })
    }

    /// Its spec.
    pub(crate) fn spec(&self) -> &'a TaskSpec
        ensures { result.now ≡ self.now }
    {
        self.spec
    }

    /// What the texts of its steps ask.
    pub(crate) fn asks(&self) -> &[(Due, &'a str)]
        ensures { AsksTheSame (flat_map step_dues self.now.steps) (seen result.now) }
    {
        self.asks.as_slice()
    }
}
