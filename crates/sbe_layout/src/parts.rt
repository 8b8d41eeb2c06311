//! What a composite gives to each field of its type: one part for each of its
//! members that is an item. It is resolved once, however many fields there are.

use crate::items::ItemKind;
use lists::List;
use sbe_schema::Presence;
use sbe_value::Bytes;

/// A member of a composite that is an item of each field of that type.
#[derive(Drop)]
pub struct Part {
    /// The member's name.
    pub name: Bytes,
    /// Its first byte, from the composite's start.
    pub place: u128,
    /// How many bytes it takes.
    pub size: u128,
    /// Whether it is always there.
    pub presence: Presence,
    /// Its type.
    pub kind: ItemKind,
}

/// The parts of a type, in the order of its members; only a composite has any.
pub type Parts = List<Part>;
