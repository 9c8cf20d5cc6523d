ghost use Rattle.std.specs.Prelude.{◌≡◌, ◌≤◌, ◌-◌, ◌^◌, ◌↔◌, min, IsOk, IfOk, IfErr};
ghost use Rattle.tk_types.specs.Limits.{most_combinations};
ghost use Rattle.tk_matrix.specs.Product.{HasLists};
ghost use Rattle.tk_matrix.specs.Combinations.{combination_count, list_count};

use crate::choice::count_own;
use crate::product::count_product;
use thiserror::Error;
use tk_types::{MOST_COMBINATIONS, Matrix, Param};

/// A matrix has more than 256 combinations: `count` of them, or at least that many where it is 2^64 - 1.
#[derive(Clone, Copy, Debug, PartialEq, Eq, Error)]
#[error("the matrix has {count} combinations, and 256 are allowed")]
pub struct TooLarge {
    pub count: u64,
}

/// How many combinations a matrix has, which is 0 where one of its lists is empty. It takes no memory (Tekton,
/// Matrix, Concurrency Control).
pub fn count(matrix: &Matrix) -> Result<u32, TooLarge>
    requires { HasLists matrix.now }
    ensures fits { IsOk result ↔ (combination_count matrix.now ≤ most_combinations) }
    ensures ok { IfOk result (λ n. n ≡ combination_count matrix.now) }
    ensures too_large { IfErr result (λ e. e.count ≡ min (combination_count matrix.now) (2 ^ 64 - 1)) }
{
    let count = capped_count(matrix);
    if count <= u64::from(MOST_COMBINATIONS) {
        Ok(count as u32)
    } else {
        Err(TooLarge { count })
    }
}

/// How many combinations a matrix has, where more than 2^64 - 1 are given as that number.
pub(crate) fn capped_count(matrix: &Matrix) -> u64
    ensures { result ≡ min (combination_count matrix.now) (2 ^ 64 - 1) }
{
    let params = matrix.params.as_slice();
    if count_product(params) == 0 {
        return 0;
    }
    let own = count_own(params, matrix.include.as_slice());
    capped_list_count(params).saturating_add(own as u64)
}

/// How many combinations the lists have, none where there are no lists, and 2^64 - 1 where there are more.
pub(crate) fn capped_list_count(params: &[Param]) -> u64
    ensures { result ≡ min (list_count params.now) (2 ^ 64 - 1) }
{
    if params.is_empty() {
        0
    } else {
        count_product(params)
    }
}
