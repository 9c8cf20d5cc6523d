//! Texts of entries, and other texts.
use crate::making::start;
use std::test::*;
use tk_payload::{entry_bytes, read_entry};

#[test]
fn a_start_is_written(rt: HostRuntime) -> Result<(), Fail> {
    let bytes = entry_bytes(rt.alloc(), &start(rt.alloc(), 0)?)?;
    assert_eq!(rt; bytes.as_slice(), START.as_bytes());
    Ok(())
}

const START: &str =
    r#"{"act":{"Start":{"name":"r"}},"actor":{"Runs":0},"fronts":{"pods":0,"runs":1,"task_runs":0},"moment":0}"#;

/// A front, a name, an actor and a moment: a space, another order, another escape, a leading zero, a number that is too
/// large, more behind it, a field too many, too few or twice, a variant that there isn't, `null` for a list, half of a pair
/// of surrogates.
const OTHERS: &str = r#"
{}
null
{"act":{"Start":{"name":"r"}},"actor":{"Runs":0},"fronts":{"pods":0,"runs":1,"task_runs":0},"moment": 0}
{"actor":{"Runs":0},"act":{"Start":{"name":"r"}},"fronts":{"pods":0,"runs":1,"task_runs":0},"moment":0}
{"act":{"Start":{"name":"\u0072"}},"actor":{"Runs":0},"fronts":{"pods":0,"runs":1,"task_runs":0},"moment":0}
{"act":{"Start":{"name":"r"}},"actor":{"Runs":00},"fronts":{"pods":0,"runs":1,"task_runs":0},"moment":0}
{"act":{"Start":{"name":"r"}},"actor":{"Runs":-0},"fronts":{"pods":0,"runs":1,"task_runs":0},"moment":0}
{"act":{"Start":{"name":"r"}},"actor":{"Runs":0.0},"fronts":{"pods":0,"runs":1,"task_runs":0},"moment":0}
{"act":{"Start":{"name":"r"}},"actor":{"Runs":4294967296},"fronts":{"pods":0,"runs":1,"task_runs":0},"moment":0}
{"act":{"Start":{"name":"r"}},"actor":{"Runs":0},"fronts":{"pods":0,"runs":1,"task_runs":0},"moment":18446744073709551616}
{"act":{"Start":{"name":"r"}},"actor":{"Runs":0},"fronts":{"pods":0,"runs":1,"task_runs":0},"moment":0} 
{"act":{"Start":{"name":"r"}},"actor":{"Runs":0},"fronts":{"pods":0,"runs":1,"task_runs":0},"moment":0}}
{"act":{"Start":{"name":"r","x":0}},"actor":{"Runs":0},"fronts":{"pods":0,"runs":1,"task_runs":0},"moment":0}
{"act":{"Start":{"name":"r"}},"actor":{"Runs":0},"fronts":{"pods":0,"runs":1},"moment":0}
{"act":{"Start":{"name":"r"}},"actor":{"Runs":0},"fronts":{"pods":0,"pods":0,"runs":1,"task_runs":0},"moment":0}
{"act":{"Begin":{"name":"r"}},"actor":{"Runs":0},"fronts":{"pods":0,"runs":1,"task_runs":0},"moment":0}
{"act":{"Start":{"name":"r"}},"actor":"Runs","fronts":{"pods":0,"runs":1,"task_runs":0},"moment":0}
{"act":{"Start":{"name":"\ud800"}},"actor":{"Runs":0},"fronts":{"pods":0,"runs":1,"task_runs":0},"moment":0}
{"act":{"EndPod":{"exits":null,"name":"p","outcome":"Lost"}},"actor":{"Kubelet":{"life":1,"number":0}},"fronts":{"pods":1,"runs":1,"task_runs":1},"moment":0}"#;

#[test]
fn no_other_text_is_read(rt: HostRuntime) -> Result<(), Fail> {
    let alloc = rt.alloc();
    for line in OTHERS.split("\n") {
        assert!(rt; read_entry(alloc, line.as_bytes())?.is_none(), "{line}");
    }
    assert!(rt; read_entry(alloc, &[255])?.is_none());
    Ok(())
}
