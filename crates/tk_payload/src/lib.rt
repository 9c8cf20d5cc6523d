//! The text of a journal's entry, both ways and exact: compact JSON with the keys in byte order.
//!
//! `specs/Forms.antt` says which JSON an entry is, and `entry_text` is that JSON's text; `Fits.antt` says which entries a
//! program can hold. `entry_bytes` writes the text. `read_entry` gives an entry exactly where the bytes are its text
//! (`laws::one_entry`: no text is that of two).
//!
//! Each part of an entry is a `Part`, which writes itself token by token and reads itself from the tokens of `json`'s
//! reader. What was read is written again and compared, so bytes in another order, with a space or with another escape are
//! refused. `payload.rt` has the two calls, `part.rt` the trait, `steps.rt` what the parts are made of; `number.rt`,
//! `text.rt`, `option.rt` and `list.rt` have the plain parts, `value.rt`, `task.rt`, `run.rt`, `verdict.rt`, `plan.rt`,
//! `act.rt` and `entry.rt` those of an entry, from the values up. The other files of `specs/` say what these answer.
#![tactic(auto)]

mod act;
mod entry;
pub mod laws;
mod list;
mod number;
mod option;
mod part;
mod payload;
mod plan;
mod refusal;
mod run;
mod steps;
mod task;
mod text;
mod value;
mod verdict;

pub use payload::{entry_bytes, read_entry};
