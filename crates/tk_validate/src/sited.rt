ghost use Rattle.std.specs.Prelude.{◌≡◌, map};
ghost use Rattle.tk_types.specs.First.{first_of};
ghost use Rattle.tk_types.specs.Rejected.{Reads};
ghost use Rattle.tk_validate.specs.Sited.{in_guard, in_matrix, in_pair, in_param, in_params, in_step, in_steps, in_value, in_variable};

use crate::rule::{Checked, Rule, check_all, check_each, check_there};
use std::alloc::Global;
use tk_types::{List, Location, Matrix, Pair, Param, Step, TaskSpec, Text, Value, When};

/// A rule on texts in which references are substituted.
pub(crate) trait TextRule {
    ghost use Rattle.std.specs.Prelude.{Bool, List, ℕ};
    ghost use Rattle.tk_types.specs.Place.{Place};
    ghost use Rattle.tk_types.specs.First.{Finding};

    ghost in_text: { Self → Bool → Place → List ℕ → Finding };

    /// Refuses a text with which something is wrong; `whole` says whether it may be a `[*]` as a whole. The only other
    /// error is want of memory.
    fn check_text(&self, alloc: Global, whole: bool, text: &str, place: &Location<'_>) -> Checked
        ensures { Reads (in_text self.now whole place.now text.now) tt result };
}

/// Texts, which may be a `[*]` as a whole where `whole` says so.
#[derive(Drop)]
struct Texts<'r, R> {
    rule: &'r R,
    whole: bool,
}

impl<'r, R: TextRule> Rule<Text> for Texts<'r, R> {
    ghost finding = { λ texts. R.in_text texts.rule.now texts.whole };

    fn check(&self, alloc: Global, text: &Text, place: &Location<'_>) -> Checked {
        self.rule
            .check_text(alloc, self.whole, text.as_str(), place)
    }
}

/// Refuses the first text of an object's pairs with which something is wrong.
fn check_pairs<R: TextRule>(
    alloc: Global,
    rule: &R,
    pairs: &[Pair],
    place: &Location<'_>,
) -> Checked
    ensures { Reads (first_of (map (in_pair (R.in_text rule.now) place.now) pairs.now)) tt result }
{
    for pair in pairs {
        let member = (&*place).key(pair.key.as_str());
        rule.check_text(alloc, true, pair.value.as_str(), &member)?;
    }
    Ok(())
}

impl<R: TextRule> Rule<Value> for R {
    ghost finding = { λ rule. in_value (R.in_text rule) };

    fn check(&self, alloc: Global, value: &Value, place: &Location<'_>) -> Checked {
        let rule = Texts {
            rule: self,
            whole: true,
        };
        match value {
            Value::Str(text) => rule.check(alloc, text, place),
            Value::Arr(texts) => check_each(alloc, &rule, texts.as_slice(), place),
            Value::Obj(pairs) => check_pairs(alloc, self, pairs.as_slice(), place),
        }
    }
}

impl<R: TextRule> Rule<Param> for R {
    ghost finding = { λ rule. in_param (R.in_text rule) };

    fn check(&self, alloc: Global, param: &Param, place: &Location<'_>) -> Checked {
        self.check(alloc, &param.value, &place.key("value"))
    }
}

impl<R: TextRule> Rule<List<Param>> for R {
    ghost finding = { λ rule. in_params (R.in_text rule) };

    fn check(&self, alloc: Global, params: &List<Param>, place: &Location<'_>) -> Checked {
        check_all(alloc, self, params.as_slice(), place, "params")
    }
}

impl<R: TextRule> Rule<Matrix> for R {
    ghost finding = { λ rule. in_matrix (R.in_text rule) };

    fn check(&self, alloc: Global, matrix: &Matrix, place: &Location<'_>) -> Checked {
        check_all(alloc, self, matrix.params.as_slice(), place, "params")?;
        check_all(alloc, self, matrix.include.as_slice(), place, "include")
    }
}

impl<R: TextRule> Rule<When> for R {
    ghost finding = { λ rule. in_guard (R.in_text rule) };

    fn check(&self, alloc: Global, guard: &When, place: &Location<'_>) -> Checked {
        self.check_text(alloc, false, guard.input.as_str(), &place.key("input"))?;
        let rule = Texts {
            rule: self,
            whole: true,
        };
        check_all(alloc, &rule, guard.values.as_slice(), place, "values")
    }
}

impl<R: TextRule> Rule<Pair> for R {
    ghost finding = { λ rule. in_variable (R.in_text rule) };

    fn check(&self, alloc: Global, variable: &Pair, place: &Location<'_>) -> Checked {
        let value = place.key("value");
        self.check_text(alloc, false, variable.value.as_str(), &value)
    }
}

impl<R: TextRule> Rule<Step> for R {
    ghost finding = { λ rule. in_step (R.in_text rule) };

    fn check(&self, alloc: Global, step: &Step, place: &Location<'_>) -> Checked {
        let element = Texts {
            rule: self,
            whole: true,
        };
        let single = Texts {
            rule: self,
            whole: false,
        };
        check_all(alloc, &element, step.command.as_slice(), place, "command")?;
        check_all(alloc, &element, step.args.as_slice(), place, "args")?;
        check_there(alloc, &single, &step.script, place, "script")?;
        check_all(alloc, self, step.env.as_slice(), place, "env")?;
        check_there(alloc, &single, &step.dir, place, "workingDir")
    }
}

impl<R: TextRule> Rule<TaskSpec> for R {
    ghost finding = { λ rule. in_steps (R.in_text rule) };

    fn check(&self, alloc: Global, spec: &TaskSpec, place: &Location<'_>) -> Checked {
        check_all(alloc, self, spec.steps.as_slice(), place, "steps")
    }
}
