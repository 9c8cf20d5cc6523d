//! A host in memory whose steps all end with one exit.

use crate::calls::called;
use std::test::Fail;
use tk_edge::CleanHost;

/// Each call but `watch`.
const CALLS: &str = "put | @/a | abc => done
look | @/a => stands
fetch | @/a | 2 => ab
clear | @ => done
look | @/a => none
start p 0 => 0
poll 0 => exited 7
kill 0 => done";

#[test]
fn each_call_of_a_host_answers(rt: HostRuntime) -> Result<(), Fail> {
    let alloc = rt.alloc();
    let mut host = CleanHost::new(alloc, 7);
    for line in CALLS.split('\n') {
        let (call, wanted) = line.split_once(" => ").unwrap_or((line, "no answer"));
        let told = called(alloc, &mut host, "/p", call)?;
        assert_eq!(rt; told.as_str(), wanted, "of {call}");
    }
    Ok(())
}
