ghost use Rattle.std.specs.Prelude.{◌≡◌, IfOk, Some, flat_map, option_map};
ghost use Rattle.tk_types.specs.declared.task.TaskSpec.{TaskSpec as Spec};
ghost use Rattle.tk_resolve.specs.Asks.{AsksTheSame};
ghost use Rattle.tk_resolve.specs.Due.{seen, step_dues};
ghost use Rattle.tk_resolve.specs.TaskRun.{spec_of};

use crate::asks::asks_of;
use crate::due::{Due, steps_dues};
use crate::lookup::Earlier;
use std::alloc::{AllocError, Global};
use std::marker::Model;
use tk_types::{Step, TaskSource};

/// Texts of a Task that is known, or of a body's own.
#[derive(Drop)]
enum Texts<'a> {
    Known(&'a [(Due, &'a str)]),
    Own(Vec<(Due, &'a str)>),
}

/// What the texts of a body's steps ask: as it was found of its Task, or as the body's own texts do. A contract sees the
/// texts with what is due of each.
#[derive(Drop)]
pub(crate) struct BodyAsks<'a> {
    texts: Texts<'a>,
}

impl<'a> Model for BodyAsks<'a> {
    ghost use Rattle.std.specs.Prelude.{List as Items, ℕ};
    ghost use Rattle.tk_resolve.specs.declared.due.Due.{Due as D};
    ghost use Rattle.tk_resolve.specs.declared.body_asks.Texts.TheVariants.{Known, Own};
    ghost use Rattle.tk_resolve.specs.Due.{seen};

    ghost Value = { Items (D × Items ℕ) };

    ghost view = { λ asks. elim asks.texts [ Known texts ↦ seen texts.now | Own texts ↦ seen texts.items ] };
}

impl<'a> BodyAsks<'a> {
    /// What the texts of an embedded spec ask: all its texts where they are judged once.
    fn own(alloc: Global, steps: &'a [Step], is_judged_often: bool) -> Result<Self, AllocError>
        ensures { IfOk result (λ asks. AsksTheSame (flat_map step_dues steps.now) asks) }
    {
        let all = steps_dues(alloc, steps)?;
        let texts = if is_judged_often {
            Texts::Own(asks_of(alloc, all.as_slice())?)
        } else {
            Texts::Own(all)
        };
        Ok(BodyAsks { texts })
    }

    /// What the texts of a body ask that runs this source, whose steps these are. The only error is want of memory.
    pub(crate) fn new(
        alloc: Global,
        earlier: &'a Earlier<'_>,
        source: &TaskSource,
        steps: &'a [Step],
        is_judged_often: bool,
    ) -> Result<Self, AllocError>
        requires { option_map (λ (s : Spec). s.steps) (spec_of earlier.now source.now) ≡ Some steps.now }
        ensures { IfOk result (λ asks. AsksTheSame (flat_map step_dues steps.now) asks) }
    {
        if let TaskSource::Named(name) = source {
            if let Some(known) = earlier.known_task(name.as_str()) {
                let texts = Texts::Known(known.asks());
                return Ok(BodyAsks { texts });
            }
        }
        BodyAsks::own(alloc, steps, is_judged_often)
    }

    /// The texts with what is due of each.
    pub(crate) fn as_slice(&self) -> &[(Due, &'a str)]
        ensures { seen result.now ≡ self.now }
    {
        match &self.texts {
            Texts::Known(texts) => texts,
            Texts::Own(texts) => texts.as_slice(),
        }
    }
}
