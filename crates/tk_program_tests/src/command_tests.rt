//! The commands, by their tables of rows.

use crate::check_rows::CHECKED;
use crate::decide_rows::DECIDED;
use crate::rows::rows_hold;
use crate::run_rows::RAN;
use crate::simulate_rows::PLAYED;
use std::test::Fail;

#[test]
fn inputs_are_checked(rt: HostRuntime) -> Result<(), Fail> {
    rows_hold(&rt, rt.alloc(), CHECKED)
}

#[test]
fn runs_are_decided(rt: HostRuntime) -> Result<(), Fail> {
    rows_hold(&rt, rt.alloc(), DECIDED)
}

#[test]
fn runs_are_played(rt: HostRuntime) -> Result<(), Fail> {
    rows_hold(&rt, rt.alloc(), PLAYED)
}

#[test]
fn runs_come_to_their_end(rt: HostRuntime) -> Result<(), Fail> {
    rows_hold(&rt, rt.alloc(), RAN)
}
