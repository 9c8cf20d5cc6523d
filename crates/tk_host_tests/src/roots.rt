//! The folder below which the files of runs stand.

use std::fs::Permissions;
use std::os::unix::fs::{PermissionsExt, symlink};
use std::test::Fail;
use std::{env, fs, process};
use tk_system::{RootError, claim};

/// What an attempt to take a root came to.
fn told(rt: &HostRuntime, folder: &str) -> &'static str {
    match claim(rt, rt.alloc(), folder) {
        Ok(_root) => "had",
        Err(RootError::Memory) => "no memory",
        Err(RootError::NoFolder) => "no folder",
        Err(RootError::Foreign) => "foreign",
        Err(RootError::Open) => "open",
        Err(RootError::Busy) => "busy",
        Err(RootError::System(_)) => "failed",
    }
}

#[test]
fn a_root_is_had_once_and_where_it_is_safe(rt: HostRuntime) -> Result<(), Fail> {
    let alloc = rt.alloc();
    let temp = env::temp_dir(&rt)?;
    let temp = temp.as_str();
    let id = process::id(rt.process());
    let folder = format!(in alloc; "{temp}/wafnjold root {id}")?;
    let folder = folder.as_str();
    let link = format!(in alloc; "{folder}/link")?;
    let link = link.as_str();
    let file = format!(in alloc; "{folder}/.lock")?;
    let Ok(root) = claim(&rt, alloc, folder) else {
        return Err(Fail::new("the root can't be had"));
    };
    assert_eq!(rt; told(&rt, folder), "busy");
    assert!(rt; root.make_old(&rt, alloc, 1).is_ok());
    root.remove_old(&rt, alloc);
    drop(root);
    assert_eq!(rt; told(&rt, folder), "had");
    symlink(&rt, folder, link)?;
    assert_eq!(rt; told(&rt, link), "no folder");
    assert_eq!(rt; told(&rt, file.as_str()), "no folder");
    fs::set_permissions(&rt, folder, Permissions::from_mode(0o777))?;
    assert_eq!(rt; told(&rt, folder), "open");
    fs::remove_dir_all(&rt, folder)?;
    Ok(())
}
