ghost use Rattle.std.specs.Prelude.{◌≡◌, IfOk, None, reverse};
ghost use Rattle.tk_journal.specs.Legal.{IsLegal};
ghost use Rattle.tk_lives.specs.Taking.{GoesOnFrom, unfit, unfit_nodes};

use crate::differing::first_difference;
use crate::lives::spent_node;
use crate::strange::strange_node;
use crate::unfit::Unfit;
use std::alloc::{AllocError, Global};
use tk_journal::{Entry, Journal};

/// Which node a bench lacks, or has that can't begin another life. The only error is want of memory.
fn unfit_node(alloc: Global, journal: &Journal, nodes: u32) -> Result<Option<Unfit>, AllocError>
    requires legal { IsLegal journal.now.history }
    ensures { IfOk result (λ why. why ≡ unfit_nodes nodes journal.now.history) }
{
    if let Some(number) = strange_node(alloc, journal, nodes)? {
        return Ok(Some(Unfit::Nodes { number }));
    }
    match spent_node(journal, nodes) {
        Some(number) => Ok(Some(Unfit::Nodes { number })),
        None => Ok(None),
    }
}

/// Why a call of these Admit entries on so many nodes doesn't go on from a journal. The only error is want of memory.
pub fn find_unfit(
    alloc: Global,
    journal: &Journal,
    given: &[Entry],
    nodes: u32,
) -> Result<Option<Unfit>, AllocError>
    requires legal { IsLegal journal.now.history }
    ensures why { IfOk result (λ why. why ≡ unfit nodes journal.now.history given.now) }
    ensures none { IfOk result (λ why. why ≡ None → GoesOnFrom (reverse journal.now.history) given.now) }
{
    match first_difference(alloc, journal, given)? {
        Some(place) => Ok(Some(Unfit::Differs {
            position: place + 1,
        })),
        None => unfit_node(alloc, journal, nodes),
    }
}
