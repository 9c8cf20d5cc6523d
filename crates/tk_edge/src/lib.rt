//! The outside of the program: where its input comes from, where its text goes, what time it is, what an actor does
//! next, and the folders, files and child programs that run its steps. Each trait has a written meaning, and a count of
//! faults where its calls may fail, which rises by one in a call that fails and in no other. Code above is generic over
//! the traits. The forms in memory tell all; the adapters over the machine are in `tk_system`.
//!
//! A `Source` tells the bytes that are left, a `Sink` those that were written, a `Clock` its readings and a `Gate` its
//! answers, where they tell them, the newest first. A `Host` tells **one history**, the list of what it did, the newest
//! first: files put, folders cleared, files fetched, entries armed, steps started, ended and refused. Beside it it tells
//! which children were killed and how often each was watched, which take no memory, and its files where it can. All else
//! that is asked of a host is a function of its history. `laws` says what a kubelet keeps of it: its steps start in
//! order, each at most once, each only once all before it passed.
//!
//! `source.rt`, `sink.rt`, `clock.rt`, `gate.rt` and `host.rt` have the traits, `miss.rt` why a call answers nothing,
//! `order.rt` and `event.rt` what a host starts and tells. `memory.rt` has streams of which scripted calls fail,
//! `clean.rt` streams that never fail, `manual.rt` a clock that is set, `list_gate.rt` a gate over a list,
//! `clean_host.rt` a host in memory, which is the plain program of its definitions; `fresh.rt` is the gate of a real run.
//! `host_log.rt` is the record of a history with an index by child, over which `clean_host.rt` and other hosts stand.
//! `armed.rt` is one turn of an entrypoint over any host, `wait_file.rt` the file that it waits for, whose path with
//! `.err` is made once. `specs/Causes.antt` says how calls are counted,
//! `History.antt` what a history says, `Calls.antt` what each call adds to it, `Files.antt` and `Markers.antt` what
//! holds of files where they are told, `Armed.antt` what a turn of an entrypoint gives, `InOrder.antt` when a history
//! is in order for the pods that a kubelet claimed, and what it must keep for that, `Laws.antt` that every call keeps
//! it, which `proofs/InOrder.antt` shows.
#![tactic(auto)]

mod armed;
mod clean;
mod clean_host;
mod clock;
mod cursor;
mod event;
mod fresh;
mod gate;
mod host;
mod host_log;
pub mod laws;
mod list_gate;
mod manual;
mod memory;
mod miss;
mod order;
mod script;
mod sink;
mod source;
mod texts;
mod wait_file;

pub use armed::{Armed, armed_turn};
pub use clean::{CleanSink, CleanSource};
pub use clean_host::{CleanHost, arming_from, copy_bytes, ended, first_bytes, passes};
pub use clock::{Clock, LAST_MOMENT};
pub use event::{Arming, Event};
pub use fresh::Fresh;
pub use gate::{Gate, GateTurn};
pub use host::Host;
pub use host_log::{ChildLog, HostLog, push_within};
pub use list_gate::ListGate;
pub use manual::ManualClock;
pub use memory::{MemSink, MemSource};
pub use miss::{Failed, Miss};
pub use order::{Order, Poll, Watch};
pub use script::Script;
pub use sink::Sink;
pub use source::Source;
pub use texts::{broken, bytes_of, is_under};
pub use wait_file::WaitFile;
