ghost use Rattle.std.specs.Prelude.{◌≡◌, false, [], map, Option, List as Items, IfOk};
ghost use Rattle.std.specs.Option.{option_map_or};
ghost use Rattle.tk_types.specs.declared.value.Param.{Param as ParamRecord};
ghost use Rattle.tk_verdict.specs.Labels.{has_exact_children, label_by as label_of};
ghost use Rattle.tk_verdict.specs.Parting.{label_with};

use crate::children::{are_exact, is_any_running};
use std::alloc::{AllocError, Global};
use tk_types::{Child, List, Param, SkipReason, Stop, Verdict};

/// The label of a task without children, by the reason of its first row, the stop that reaches it, and the label that is
/// left.
fn childless(row: Option<SkipReason>, stop: Option<Stop>, next: Verdict) -> Verdict
    ensures { (combinations : Option (Items (Items ParamRecord))) → result ≡ label_of [] combinations row stop next }
{
    match (row, stop) {
        (Some(reason), _) => Verdict::Skipped(reason),
        (None, Some(stop)) => Verdict::Skipped(SkipReason::Stopped(stop)),
        (None, None) => next,
    }
}

/// Whether the children are exactly those of the combinations.
fn are_of(
    alloc: Global,
    children: &[&Child],
    combinations: &Option<List<List<Param>>>,
) -> Result<bool, AllocError>
    ensures { IfOk result (λ exact. exact ≡ option_map_or (has_exact_children (map (λ c. c.now) children.now)) combinations.now false) }
{
    match combinations {
        Some(combinations) => are_exact(alloc, children, combinations.len()),
        None => Ok(false),
    }
}

/// The label of a task with at least one child.
fn with_children(
    alloc: Global,
    children: &[&Child],
    combinations: &Option<List<List<Param>>>,
    row: Option<SkipReason>,
) -> Result<Verdict, AllocError>
    ensures { IfOk result (λ label. label ≡ label_with (map (λ c. c.now) children.now) combinations.now row) }
{
    if is_any_running(children) {
        return Ok(Verdict::Runs);
    }
    if row.is_none() && are_of(alloc, children, combinations)? {
        return Ok(Verdict::Ran);
    }
    Ok(Verdict::Wrong)
}

/// The label of a task with these children: of its combinations where they are defined, the reason of its first row where
/// one holds, the stop that reaches it, and the label that is left without children, reason and stop. The only error is want
/// of memory.
pub fn label_by(
    alloc: Global,
    children: &[&Child],
    combinations: &Option<List<List<Param>>>,
    row: Option<SkipReason>,
    stop: Option<Stop>,
    next: Verdict,
) -> Result<Verdict, AllocError>
    ensures { IfOk result (λ label. label ≡ label_of (map (λ c. c.now) children.now) combinations.now row stop next) }
{
    match children {
        [] => Ok(childless(row, stop, next)),
        _ => with_children(alloc, children, combinations, row),
    }
}
