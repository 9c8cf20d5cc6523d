//! Durations and moments, in milliseconds. A duration is read exactly where the grammar of durations has its text, with
//! no memory; printed, it reads back. A moment is printed with the date that the calendar gives, and reads back.
//!
//! `reading.rt` and `printing.rt` for durations, `moment.rt` for moments.
//!
//! ```text
//! read_duration("1h30m")                      Some(5_400_000)
//! read_duration("5")                          None: a unit lacks
//! print_duration(alloc, 61_001)?              "1m1s1ms"
//! print_moment(alloc, 951_782_400_123)?       "2000-02-29T00:00:00.123Z"
//! ```
#![tactic(auto)]

pub mod laws;
mod moment;
mod printing;
mod reading;

pub use moment::print_moment;
pub use printing::print_duration;
pub use reading::read_duration;
