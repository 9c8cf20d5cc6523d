ghost use Rattle.std.specs.Prelude.{◌≡◌, ◌<◌, ◌^◌, ◌++◌, ℕ, length, map, IfOk, OnOk};
ghost use Rattle.std.specs.List.{range_with_len};
ghost use Rattle.tk_graph.specs.Parents.{IsRanking};
ghost use Rattle.tk_verdict.specs.Available.{available_results};
ghost use Rattle.tk_verdict.specs.Facts.{task_total};
ghost use Rattle.tk_verdict.specs.Gathered.{final_line, IsReadable};
ghost use Rattle.tk_verdict.specs.Labels.{labels_of, verdict_line};
ghost use Rattle.tk_verdict.specs.Verdict.{label_at};

use crate::finals::final_labels;
use crate::good::good_tasks;
use crate::groups::Groups;
use crate::laws::one_labelling;
use crate::status::status_words;
use crate::walk::walk;
use std::alloc::{AllocError, Global};
use tk_bind::{EnvIndex, Given};
use tk_graph::all_parents;
use tk_types::{Facts, Verdict};

/// The labels of `tasks`, by these available results.
fn first_labels(
    alloc: Global,
    facts: &Facts,
    groups: &Groups,
    results: &[Given],
    ranks: &[u32],
) -> Result<Vec<Verdict>, AllocError>
    requires few { task_total facts.now < 2 ^ 32 }
    requires readable { IsReadable facts.now }
    requires same { groups.now ≡ facts.now.children }
    requires results { results.now ≡ available_results facts.now }
    requires ranking { IsRanking facts.now.spec.tasks ranks.now }
    ensures count { IfOk result (λ labels. length labels.items ≡ length facts.now.spec.tasks) }
    ensures right { IfOk result (λ labels. (place : ℕ) → place < length facts.now.spec.tasks → label_at labels.items place ≡ verdict_line facts.now labels.items place) }
{
    let good = good_tasks(alloc, facts, groups)?;
    let parents = all_parents(alloc, facts.spec.tasks.as_slice())?;
    let index = EnvIndex::new(alloc, facts.spec.params.as_slice(), results, &[])?;
    walk(
        alloc,
        facts,
        groups,
        good.as_slice(),
        &index,
        parents.as_slice(),
        ranks,
    )
}

/// The labels of the tasks of `finally`, by these available results and these labels of `tasks`.
fn last_labels(
    alloc: Global,
    facts: &Facts,
    groups: &Groups,
    results: &[Given],
    labels: &[Verdict],
) -> Result<Vec<Verdict>, AllocError>
    requires few { task_total facts.now < 2 ^ 32 }
    requires readable { IsReadable facts.now }
    requires same { groups.now ≡ facts.now.children }
    requires results { results.now ≡ available_results facts.now }
    ensures { IfOk result (λ made. made.items ≡ map (final_line facts.now labels.now) (range_with_len 0 (length facts.now.spec.finally))) }
{
    let words = status_words(alloc, facts, groups, labels)?;
    let index = EnvIndex::new(
        alloc,
        facts.spec.params.as_slice(),
        results,
        words.as_slice(),
    )?;
    final_labels(alloc, facts, groups, &index, labels)
}

/// Adds labels behind others.
fn push_all(labels: &mut Vec<Verdict>, more: &[Verdict]) -> Result<(), AllocError>
    ensures { OnOk result (labels.new.items ≡ labels.old.items ++ more.now) }
{
    for label in more {
        labels.push(*label)?;
    }
    Ok(())
}

/// The label of each task, `tasks` first, by these available results. The only error is want of memory.
pub(crate) fn labels(
    alloc: Global,
    facts: &Facts,
    groups: &Groups,
    results: &[Given],
    ranks: &[u32],
) -> Result<Vec<Verdict>, AllocError>
    requires few { task_total facts.now < 2 ^ 32 }
    requires readable { IsReadable facts.now }
    requires same { groups.now ≡ facts.now.children }
    requires results { results.now ≡ available_results facts.now }
    requires ranking { IsRanking facts.now.spec.tasks ranks.now }
    ensures { IfOk result (λ labels. labels.items ≡ labels_of facts.now) }
{
    one_labelling();
    let mut labels = first_labels(alloc, facts, groups, results, ranks)?;
    let last = last_labels(alloc, facts, groups, results, labels.as_slice())?;
    push_all(&mut labels, last.as_slice())?;
    Ok(labels)
}
