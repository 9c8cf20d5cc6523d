//! The folders of all workspaces of a pod.

use std::alloc::{AllocError, Global};
use std::test::Fail;
use tk_space::folders;
use tk_types::{Space, Text};

/// The workspace `ws` with a path in it, or `data`, which is a claim.
fn space(alloc: Global, name: &str) -> Result<Space, AllocError> {
    let is_own = name == "ws";
    Ok(Space {
        name: Text::from_str(alloc, name)?,
        claim: if is_own {
            None
        } else {
            Some(Text::from_str(alloc, "c")?)
        },
        sub: Text::from_str(alloc, if is_own { "x" } else { "" })?,
    })
}

#[test]
fn workspaces_have_folders(rt: HostRuntime) -> Result<(), Fail> {
    let alloc = rt.alloc();
    let bound = vec![in alloc; space(alloc, "ws")?, space(alloc, "data")?]?;
    let mut lines = String::new(alloc);
    for path in folders(alloc, "/work", "r-a-pod-2", bound.as_slice())?.as_slice() {
        lines.push_str(path.as_str())?;
        lines.push_str("\n")?;
    }
    assert_eq!(rt; lines.as_str(), "/work/r-a-pod-2/ws/ws/x\n/work/claims/c\n");
    Ok(())
}
