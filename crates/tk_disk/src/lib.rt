//! A disk: where bytes stand that outlive the program. The trait says what a crash at any moment may leave, during a call
//! too, and code above is proved over it. A disk may also tell nothing of its bytes, as the adapter over a file of
//! `tk_system`.
//!
//! `disk.rt` has the trait, `memory.rt` a disk in memory that tells all, of which scripted calls fail. `specs/Disk.antt`
//! says what a call does to the content and to what a crash may leave, `Memory.antt` what it may leave of the disk in
//! memory.
#![tactic(auto)]

mod disk;
mod memory;

pub use disk::{Disk, Failed};
pub use memory::{Call, MemDisk, Step};
