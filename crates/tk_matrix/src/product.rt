ghost use Rattle.std.specs.Prelude.{◌≡◌, ◌-◌, ◌^◌, ◌<◌, min, IfOk};
ghost use Rattle.tk_matrix.specs.Product.{list_of, product_count, product_combination};

use std::alloc::{AllocError, Global};
use tk_types::{List, Param, Text, TryCopy, Value};

/// The texts of a list, and none where the value isn't a list.
pub(crate) fn texts_of(value: &Value) -> &[Text]
    ensures { result.now ≡ list_of value.now }
{
    match value {
        Value::Arr(texts) => texts.as_slice(),
        _ => &[],
    }
}

/// How many combinations the lists have, where more than 2^64 - 1 are given as that number.
pub(crate) fn count_product(params: &[Param]) -> u64
    ensures { result ≡ min (product_count params.now) (2 ^ 64 - 1) }
{
    let mut count: u64 = 1;
    for param in params {
        count = count.saturating_mul(texts_of(&param.value).len() as u64);
    }
    count
}

/// The combination of the lists at an index: it is read as a number whose least digit is the first parameter's.
pub(crate) fn chosen(alloc: Global, params: &[Param], index: u32) -> Result<List<Param>, AllocError>
    requires { 0 < product_count params.now }
    ensures { IfOk result (λ made. made ≡ product_combination params.now index) }
{
    let mut made = List::new(alloc);
    let mut rest = index as usize;
    for param in params {
        let texts = texts_of(&param.value);
        let text = texts[rest % texts.len()].copy(alloc)?;
        made.push(Param {
            name: param.name.copy(alloc)?,
            value: Value::Str(text),
        })?;
        rest /= texts.len();
    }
    Ok(made)
}
