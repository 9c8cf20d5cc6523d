//! What an admitted Scenario gives to the machine: its events may come, one after the other.
//!
//! `specs/Laws.antt` says what the law says.
#![tactic(auto)]

pub mod laws;
