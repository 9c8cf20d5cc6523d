//! Tests of what stands outside, and of turns: clocks, hosts in memory, over scripts, over real programs and over processes, the
//! entrypoints over them and their program, and rounds of actors in threads. They stand above the crates that they run, so that these are proved once.
#![tactic(auto)]

#[cfg(test)]
mod calls;
#[cfg(test)]
mod clean_host;
#[cfg(test)]
mod clocks;
#[cfg(test)]
mod entering;
#[cfg(test)]
mod entrypoint;
#[cfg(test)]
mod log;
#[cfg(test)]
mod meeting;
#[cfg(test)]
mod processes;
#[cfg(test)]
mod real_host;
#[cfg(test)]
mod roots;
#[cfg(test)]
mod script_host;
#[cfg(test)]
mod writing;
