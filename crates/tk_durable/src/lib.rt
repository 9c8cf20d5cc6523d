//! A journal of entries on a disk. From a creation or an opening that went well on, a crash at any moment, during a call
//! too, leaves the entries so far, and within an append, or after one that the disk failed, these with the new one or
//! without. Once an append has gone well, every crash leaves its entry.
//!
//! A file begins with 8 bytes, and then for each entry it has an open gate, the length of the entry's text and the text
//! (`tk_payload`); a closed gate ends it, whatever follows. An entry is written behind the closed gate, with a closed gate
//! behind it, and synced; only then is the gate opened, and synced.
//!
//! `specs/Journal.antt` says which entries a file has, `Damage.antt` where it has none and which gate is at fault; `laws`
//! says that it has at most one journal, and none where it is damaged. `durable.rt` is a journal that is open, over
//! `gate.rt`, which writes behind a gate and opens it; `creation.rt` begins one, `opening.rt` opens one, `file.rt` reads
//! one from bytes.
#![tactic(auto)]

mod creation;
mod durable;
mod file;
mod gate;
pub mod laws;
mod opening;

pub use creation::{Created, create};
pub use durable::{Append, Durable};
pub use file::{FileRead, read_file};
pub use opening::{Opened, open};
