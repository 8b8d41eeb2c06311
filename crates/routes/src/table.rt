//! The table of identifiers: made once of a row of them, and asked for the place of each.

ghost use Rattle.std.specs.Prelude.{◌≡◌, ◌<◌, ◌≤◌, ℕ, length, Some, Ok, Err, IfOk, IfSome, IfNone};
ghost use Rattle.routes.specs.Identifiers.{EachOnce, IsFirstRepeated, StandsAt};
ghost use Rattle.routes.specs.declared.table.RoutesFault.TheVariants as faults;

use crate::sorted::{Route, add, key, search};
use std::alloc::Global;
use std::marker::Model;

/// The most identifiers of a table.
pub const MOST_ROUTES: usize = 512;

/// Why identifiers make no table.
#[derive(Clone, Copy, Debug)]
pub enum RoutesFault {
    /// An identifier that stands at an earlier place too.
    Doubled {
        /// The first such place, from 0.
        place: usize,
    },
    /// Want of memory.
    Memory,
}

/// Identifiers in a row, each once. Contracts see them as a list.
#[derive(Drop)]
pub struct Routes {
    ids: Vec<[u8; 16]>,
    routes: Vec<Route>,
}

impl Model for Routes {
    ghost use Rattle.std.specs.Prelude.{ℕ, List};
    ghost use Rattle.routes.specs.Sorted.{IsSorted};

    ghost Value = { List (List ℕ) };

    ghost view = { λ r. r.ids.items };

    ghost invariant = { λ r. IsSorted r.ids.items r.routes.items };
}

impl Routes {
    /// The table of these identifiers, which are at most 512.
    ///
    /// # Errors
    /// An identifier that stands twice, by its first place that is not the first one; want of memory.
    pub fn new(alloc: Global, ids: &[[u8; 16]]) -> Result<Routes, RoutesFault>
        requires { length ids.now ≤ MOST_ROUTES }
        ensures value { IfOk result (λ r. r ≡ ids.now) }
        ensures once { IfOk result (λ r. EachOnce r) }
        ensures doubled { (place : ℕ) → result ≡ Err (faults.Doubled place) → IsFirstRepeated ids.now place }
    {
        let Ok(mut kept) = Vec::with_capacity(alloc, ids.len()) else {
            return Err(RoutesFault::Memory);
        };
        let Ok(mut routes) = Vec::with_capacity(alloc, ids.len()) else {
            return Err(RoutesFault::Memory);
        };
        for (place, id) in ids.iter().enumerate() {
            match add(&mut kept, &mut routes, id) {
                Ok(true) => {}
                Ok(false) => return Err(RoutesFault::Doubled { place }),
                Err(_) => return Err(RoutesFault::Memory),
            }
        }
        Ok(Routes { ids: kept, routes })
    }

    /// How many identifiers there are.
    pub fn len(&self) -> usize
        ensures { result ≡ length self.now }
    {
        self.ids.len()
    }

    /// The identifier at a place, which is below their number.
    pub fn id(&self, place: usize) -> [u8; 16]
        requires { place < length self.now }
        ensures { StandsAt self.now result place }
    {
        self.ids[place]
    }

    /// The place of an identifier, from 0, if it is one of them.
    pub fn find(&self, id: &[u8; 16]) -> Option<usize>
        ensures found { IfSome result (λ place. StandsAt self.now id.now place) }
        ensures none { IfNone result ((place : ℕ) → StandsAt self.now id.now place → ⊥) }
        ensures only { (place : ℕ) → StandsAt self.now id.now place → result ≡ Some place }
    {
        match search(self.routes.as_slice(), key(id)) {
            Ok(at) => Some(self.routes[at].place),
            Err(_) => None,
        }
    }
}
