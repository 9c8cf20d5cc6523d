//! What judges one task of a run, part by part, for labels that are kept from turn to turn: its children, what its own
//! texts give, its parents' labels, its label, and its bindings. All of them are by the definitions of the labels.

pub use crate::available::add_of_task;
pub use crate::bindings::bindings_in;
pub use crate::calls::{groups_of, ranks_of_run};
pub use crate::children::are_all_good;
pub use crate::combined::Combined;
pub use crate::finals::{are_all_done, due_label, early_label, late_stop};
pub use crate::groups::Groups;
pub use crate::judge::label_by;
pub use crate::label::{blocks, is_done, is_skipped, is_skipped_by_when};
pub use crate::missing::lacks_any_result;
pub use crate::outcome::ended_well;
pub use crate::own::{Own, own_of, own_row};
pub use crate::parents::{is_blocked, label_at, lacks_result};
pub use crate::sequence::{Ranked, by_rank};
pub use crate::status::status_words;
