//! A host in memory that plays a script, for a simulation of the whole: each step of a pod ends with the exit that the
//! pod's script gives it, and the results that the script gives stand from the pod's first started step on. Its calls
//! fail exactly where its list of failing calls says so. Its questions are answered by indexes, so that they don't take
//! longer as its history grows.
//!
//! `pod_script.rt` is the script of one pod, `script_log.rt` the record of its history over `tk_edge`'s, with an index
//! of its files by path (`file_table.rt`) that knows which folders may hold some (`folders.rt`), `script_watch.rt` one
//! watch, `script_host.rt` the host. `specs/ScriptHost.antt` says which files stand and what each watch and poll
//! answers.
#![tactic(auto)]

mod file_table;
mod folders;
mod pod_script;
mod script_host;
mod script_log;
mod script_table;
mod script_watch;

pub use pod_script::PodScript;
pub use script_host::ScriptHost;
