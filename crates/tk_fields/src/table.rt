ghost use Rattle.std.specs.Prelude.{◌≡◌, List, ℕ, map};
ghost use Rattle.tk_types.specs.Rejected.{Reads};
ghost use Rattle.serde_json.specs.Data.{object as json_object};
ghost use Rattle.serde_json.specs.View.{members_view};
ghost use Rattle.tk_fields.specs.Get.{keys_of};
ghost use Rattle.tk_fields.specs.Keys.{role_among, key_finding, first_bad_key, rows_of};

use serde_json::{Map, Value};
use std::alloc::Global;
use tk_types::{Location, Rejected, refusal};

/// What becomes of a key that a table names.
#[derive(Clone, Copy, Debug, PartialEq, Eq)]
pub enum Role {
    Used,
    Ignored,
    Refused,
}

/// A key of a table: a text of the program.
pub trait Key: Drop {
    ghost key: { Self → List ℕ };

    /// The key as a text.
    fn as_key(&self) -> &str
        ensures { result.now ≡ key self.now };
}

impl Key for &'static str {
    ghost key = { λ name. name.now };

    fn as_key(&self) -> &str {
        *self
    }
}

/// The keys that an object may have and those that are refused, each with its role; every other key is unknown.
#[derive(Drop)]
pub struct FieldTable<const N: usize, K = &'static str> {
    pub names: [K; N],
    pub roles: [Role; N],
}

/// A table of keys by their roles, as `field_table!(Used "name" "value", Refused "valueFrom")`.
#[macro_export]
macro_rules! field_table {
    (@role $role:ident $name:literal) => { $crate::Role::$role };
    ($($role:ident $($name:literal)*),* $(,)?) => {
        $crate::FieldTable {
            names: [$($($name,)*)*],
            roles: [$($($crate::field_table!(@role $role $name),)*)*],
        }
    };
}

/// The role of a key, by the first row that names it.
fn find_role<K: Key>(mut names: &[K], mut roles: &[Role], key: &str) -> Option<Role>
    ensures { result ≡ role_among (map K.key names.now) roles.now key.now }
{
    while let [name, names_left @ ..] = names {
        let [role, roles_left @ ..] = roles else {
            return None;
        };
        if name.as_key() == key {
            return Some(*role);
        }
        names = names_left;
        roles = roles_left;
    }
    None
}

/// Whether a key in this role may stand.
fn check_key(
    alloc: Global,
    role: Option<Role>,
    key: &str,
    place: &Location<'_>,
) -> Result<(), Rejected>
    ensures { Reads (key_finding place.now key.now role) tt result }
{
    let number = match role {
        Some(Role::Used) | Some(Role::Ignored) => return Ok(()),
        Some(Role::Refused) => 7,
        None => 6,
    };
    Err(refusal(alloc, number, &place.key(key)))
}

/// Refuses the first key, in key order, that the table doesn't name (`UnknownField`) or refuses (`Unsupported`).
pub fn check_fields<K: Key, const N: usize>(
    alloc: Global,
    object: &Map<String, Value>,
    table: &FieldTable<N, K>,
    place: &Location<'_>,
) -> Result<(), Rejected>
    ensures { Reads (first_bad_key (rows_of (map K.key table.now.names) table.now.roles) place.now (keys_of (json_object (members_view object.now.entries)))) tt result }
{
    check_keys(
        alloc,
        object,
        table.names.as_slice(),
        table.roles.as_slice(),
        place,
    )
}

/// The same, of a table in two slices.
fn check_keys<K: Key>(
    alloc: Global,
    object: &Map<String, Value>,
    names: &[K],
    roles: &[Role],
    place: &Location<'_>,
) -> Result<(), Rejected>
    ensures { Reads (first_bad_key (rows_of (map K.key names.now) roles.now) place.now (keys_of (json_object (members_view object.now.entries)))) tt result }
{
    for key in object.keys() {
        let role = find_role(names, roles, key.as_str());
        check_key(alloc, role, key.as_str(), place)?;
    }
    Ok(())
}
