//! A whole schema.

use crate::{MessageDefs, TypeDefs};
use sbe_prim::Order;

/// A schema (SBE 1.0, message schema).
#[derive(Drop, PartialEq)]
pub struct Schema {
    /// Its id.
    pub id: u16,
    /// Its version.
    pub version: u16,
    /// The byte order of all its numbers.
    pub order: Order,
    /// Its types.
    pub types: TypeDefs,
    /// Its messages.
    pub messages: MessageDefs,
}
