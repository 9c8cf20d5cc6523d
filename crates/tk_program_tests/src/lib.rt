//! Tests of the program and of what stands right below it: commands by their words, worlds step by step, rounds in threads,
//! and what is said to people.
//!
//! `rows.rt` plays rows of text over a bench in memory, which `bench.rt` makes; `decide_rows.rt`, `check_rows.rt`,
//! `simulate_rows.rt` and `run_rows.rt` have the rows, `command_tests.rt` tries them. `answers.rt` has the answers of a world,
//! `meeting.rt` a round in threads over the benches of `begun.rt`, `file_tests.rt` the file of a played journal.
#![tactic(auto)]

#[cfg(test)]
mod advice_tests;
#[cfg(test)]
mod answers;
#[cfg(test)]
mod begun;
#[cfg(test)]
mod bench;
#[cfg(test)]
mod check_rows;
#[cfg(test)]
mod command_tests;
#[cfg(test)]
mod data_tests;
#[cfg(test)]
mod decide_rows;
#[cfg(test)]
mod decision_tests;
#[cfg(test)]
mod file_tests;
#[cfg(test)]
mod generated_tests;
#[cfg(test)]
mod meeting;
#[cfg(test)]
mod outside_tests;
#[cfg(test)]
mod rows;
#[cfg(test)]
mod run_rows;
#[cfg(test)]
mod simulate_rows;
