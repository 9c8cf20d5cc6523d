//! The traits of `tk_edge` over the machine: `RealHost` over its folders, files and programs, `SystemClock` over its clocks,
//! `ReadSource` and `WriteSink` over any reader and writer. They keep the clauses of their traits, and say nothing of what
//! the machine answers. The programs and their tests alone stand on this crate, so a change of it proves nothing else again.
//!
//! `real_host.rt` keeps what the host did by the record of `tk_edge`, which has an index by child; `files.rt` has files and
//! folders and why a call on them failed, `children.rt` programs that were started. `progress.rt` is a host before any other,
//! which tells each step's start and end. `root.rt` takes the folder below which all of that stands.
#![tactic(auto)]

mod children;
mod clock;
mod file_disk;
mod files;
mod progress;
mod real_host;
mod root;
mod stream;

pub use clock::SystemClock;
pub use file_disk::FileDisk;
pub use progress::{Progress, Tally};
pub use real_host::RealHost;
pub use root::{Root, RootError, claim};
pub use stream::{ReadSource, WriteSink};
