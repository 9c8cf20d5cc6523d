//! The calls of `tk_types` that no command makes yet.
use std::test::Fail;
use tk_types::{List, TryCopy};

#[test]
fn an_element_of_a_list_is_changed_in_place(rt: HostRuntime) -> Result<(), Fail> {
    let alloc = rt.alloc();
    let mut list = List::new(alloc);
    list.push(1u32)?;
    list.push(2)?;
    list.push(3)?;
    assert_eq!(rt; list.replace(1, 5)?, 2);
    let list = list.share(alloc)?;
    let mut copy = list.copy(alloc)?;
    assert_eq!(rt; copy.replace(0, 7)?, 1);
    assert_eq!(rt; list.into_vec()?.as_slice(), [1, 5, 3].as_slice());
    assert_eq!(rt; copy.into_vec()?.as_slice(), [7, 5, 3].as_slice());
    Ok(())
}
