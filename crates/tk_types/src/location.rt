ghost use Rattle.std.specs.Prelude.{◌≡◌, [], ◌∷◌, Some, IfOk};
ghost use Rattle.tk_types.specs.Fault.{fault};
ghost use Rattle.tk_types.specs.declared.fault.Detail.TheVariants.{Names as NamesTold, Nothing};
ghost use Rattle.tk_types.specs.Place.{◌▸◌, ◌#◌};
ghost use Rattle.tk_types.specs.Rejected.{IsRefusal};

use crate::copy::TryCopy;
use crate::fault::{Detail, Fault};
use crate::list::List;
use crate::place::Place;
use crate::rejected::Rejected;
use crate::text::Text;
use std::alloc::{AllocError, Global};
use std::marker::Model;

/// Where a value stands while it is read: each step refers to the one above it, so that going down takes no memory.
/// Contracts see its place.
#[derive(Drop)]
#[cycle(location)]
pub struct Location<'a> {
    way: Way<'a>,
}

/// The last step of a location.
#[derive(Drop)]
#[cycle(location)]
enum Way<'a> {
    Root,
    Known(&'a Place),
    Member(&'a Location<'a>, &'a str),
    Element(&'a Location<'a>, u64),
}

impl<'a> Model for Location<'a> {
    ghost use Rattle.std.specs.Prelude.{length};
    ghost use Rattle.std.proofs.Common.{arith, length-append};
    ghost use Rattle.tk_types.specs.Place.{Place};

    ghost Value = { Place };

    ghost use Rattle.tk_types.specs.Location.{place_of};

    ghost view = { λ location. place_of location.way };

    ghost size = { length };

    ghost size_decreases = { λ a h. Prim.grind (arith, length-append) };
}

impl<'a> Location<'a> {
    /// The whole input.
    pub fn root() -> Location<'a>
        ensures { result ≡ [] }
    {
        Location { way: Way::Root }
    }

    /// A place that is known.
    pub fn of(place: &'a Place) -> Location<'a>
        ensures { result ≡ place.now }
    {
        Location {
            way: Way::Known(place),
        }
    }

    /// An object's member.
    pub fn key(&'a self, key: &'a str) -> Location<'a>
        ensures { result ≡ self.now ▸ key.now }
    {
        Location {
            way: Way::Member(self, key),
        }
    }

    /// An array's element, counted from 0.
    pub fn at(&'a self, index: u64) -> Location<'a>
        ensures { result ≡ self.now # index }
    {
        Location {
            way: Way::Element(self, index),
        }
    }
}

/// The place of a location. The only error is want of memory.
pub fn place_at(alloc: Global, location: &Location<'_>) -> Result<Place, AllocError>
    ensures { IfOk result (λ place. place ≡ location.now) }
{
    match &location.way {
        Way::Root => Ok(Place::root(alloc)),
        Way::Known(place) => place.copy(alloc),
        Way::Member(above, key) => place_at(alloc, above)?.key(alloc, key),
        Way::Element(above, index) => place_at(alloc, above)?.at(alloc, *index),
    }
}

/// A fault of a number that tells nothing more.
pub fn refusal(alloc: Global, number: u8, location: &Location<'_>) -> Rejected
    ensures { IsRefusal (Some (fault number location.now Nothing)) result }
{
    told(alloc, number, location, Detail::Nothing)
}

/// A fault of a number (`Fault::BAD_JSON` and the others) with what it tells.
pub fn told(alloc: Global, number: u8, place: &Location<'_>, detail: Detail) -> Rejected
    ensures { IsRefusal (Some (fault number place.now detail)) result }
{
    match place_at(alloc, place) {
        Ok(place) => Rejected::Fault(Fault {
            number,
            place,
            detail,
        }),
        Err(_) => Rejected::Memory,
    }
}

/// A detail of one name.
fn one_name(alloc: Global, name: &str) -> Result<Detail, AllocError>
    ensures { IfOk result (λ detail. detail ≡ NamesTold (name.now ∷ [])) }
{
    let mut names = List::new(alloc);
    names.push(Text::from_str(alloc, name)?)?;
    Ok(Detail::Names(names))
}

/// A fault of a number about one name.
pub fn told_name(alloc: Global, number: u8, place: &Location<'_>, name: &str) -> Rejected
    ensures { IsRefusal (Some (fault number place.now (NamesTold (name.now ∷ [])))) result }
{
    match one_name(alloc, name) {
        Ok(detail) => told(alloc, number, place, detail),
        Err(_) => Rejected::Memory,
    }
}
