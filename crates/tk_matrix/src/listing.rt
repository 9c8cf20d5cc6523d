ghost use Rattle.std.specs.Prelude.{◌≡◌, ◌<◌, ◌≤◌, IfOk};
ghost use Rattle.tk_types.specs.Limits.{most_combinations};
ghost use Rattle.tk_matrix.specs.Product.{HasLists};
ghost use Rattle.tk_matrix.specs.Combinations.{combination_count, combination, combinations};

use crate::choice::own_entry;
use crate::include::extended;
use crate::product::chosen;
use crate::size::{capped_count, capped_list_count};
use std::alloc::{AllocError, Global};
use tk_types::{List, Matrix, Param};

/// The combination at an index: a text of each list, the first parameter varying fastest, with what the include
/// entries that agree add to it, and past the lists the entries that agree with none. The task's own parameters
/// aren't in it (Tekton, Matrix, Specifying both `params` and `include` in a `Matrix`).
pub fn combination(alloc: Global, matrix: &Matrix, index: u32) -> Result<List<Param>, AllocError>
    requires lists { HasLists matrix.now }
    requires below { index < combination_count matrix.now }
    ensures { IfOk result (λ made. made ≡ combination matrix.now index) }
{
    let params = matrix.params.as_slice();
    let entries = matrix.include.as_slice();
    let listed = capped_list_count(params);
    let place = u64::from(index);
    if place < listed {
        extended(alloc, entries, chosen(alloc, params, index)?)
    } else {
        own_entry(alloc, params, entries, place - listed)
    }
}

/// All combinations of a matrix that has at most 256, in order.
pub fn all(alloc: Global, matrix: &Matrix) -> Result<List<List<Param>>, AllocError>
    requires lists { HasLists matrix.now }
    requires fits { combination_count matrix.now ≤ most_combinations }
    ensures { IfOk result (λ made. made ≡ combinations matrix.now) }
{
    let mut made = List::new(alloc);
    for index in 0..capped_count(matrix) as u32 {
        made.push(combination(alloc, matrix, index)?)?;
    }
    Ok(made)
}
