//! Reading the fields of JSON objects: which keys an object may have, what each field must be, and what is wrong
//! first, told as a fault at its place.
//!
//! A form of value is a type with a `Reader`: a check, which finds what is wrong first with a value, and what a value
//! says. `read` gives exactly that, so `Each<R>`, `required::<R>` and the like are written and proved once. The form
//! of an object's fields is a few lines in a crate above:
//!
//! ```text
//! check_object(alloc, value, &field_table!(Used "input" "values", Refused "cel"), place)?;
//! let guard = Guard {
//!     input: required::<AnyText>(alloc, value, place, "input")?,
//!     values: or_empty::<Each<AnyText>>(alloc, value, place, "values")?,
//! };
//! ```
//!
//! and behind the last field the rules between fields, as `just_one`. Where a value stands is a `Location` of
//! `tk_types`. An object of more than about five fields is read in parts, its keys and some fields at a time, each by a
//! function of its own whose check is an `unfoldable` definition; the check of the whole is `in_order` of them.
//!
//! `reader.rt` has the trait `Reader` (a check, a value, and `read`, which gives exactly these) and fields that must or
//! may stand. `text.rt`, `number.rt`, `list.rt` and `members.rt` have the forms, `table.rt` the keys, `object.rt`
//! objects and the choice of two fields. `specs/Check.antt` says what is wrong first with a value, `Get.antt` what
//! stands there, `Keys.antt` and `Shape.antt` the keys and fields of an object.
#![tactic(auto)]

pub mod laws;
mod list;
mod members;
mod number;
mod object;
mod reader;
mod table;
mod text;

pub use list::{Each, SomeOf, elements_of};
pub use members::{EachMember, Entry, TextEntry};
pub use number::{Below8, Below32, NumberRule, NumberThat, Truth};
pub use object::{check_object, just_one, object_at};
pub use reader::{OrEmpty, Reader, optional, or_empty, required};
pub use table::{FieldTable, Key, Role, check_fields};
pub use text::{AnyText, OneOf, TextRule, TextThat, Words};
