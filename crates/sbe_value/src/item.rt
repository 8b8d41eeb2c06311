//! The value of one field, and the list of a block's values.

ghost use Rattle.std.specs.Prelude.{◌≡◌, ◌↔◌, IsTrue, IfOk};
ghost use Rattle.sbe_value.specs.Equal.{item_eq};

use crate::Bytes;
use lists::{Element, List};
use std::alloc::{AllocError, Global};

/// The value of one field of a block.
#[derive(Drop)]
pub enum Item {
    /// An integer, the raw number of an enum or a set, or a character's code.
    Num(i128),
    /// An optional number that is not set.
    Null,
    /// A field that the message's version does not have.
    Absent,
    /// An array of characters.
    Text(Bytes),
    /// An array of bytes, or a float or a double in wire order.
    Raw(Bytes),
}

impl PartialEq for Item {
    ghost use Rattle.std.specs.Prelude.{◌≡◌, ◌↔◌, IsTrue};
    ghost use Rattle.sbe_value.specs.Equal.{item_eq};
    ghost use Rattle.lists.specs.Exact.{partial_equivalence};
    ghost use Rattle.sbe_value.specs.Laws.{item_exact};

    ghost eq = { item_eq };

    ghost laws = { partial_equivalence item_eq item_exact };

    fn eq(&self, other: &Item) -> bool
        ensures exact { IsTrue result ↔ (self.now ≡ other.now) }
        ensures computed { result ≡ item_eq self.now other.now }
    {
        match (self, other) {
            (Item::Num(a), Item::Num(b)) => *a == *b,
            (Item::Null, Item::Null) | (Item::Absent, Item::Absent) => true,
            (Item::Text(a), Item::Text(b)) | (Item::Raw(a), Item::Raw(b)) => *a == *b,
            _ => false,
        }
    }
}

impl Element for Item {
    ghost use Rattle.sbe_value.specs.Laws.{item_exact};

    fn copy(&self, alloc: Global) -> Result<Item, AllocError> {
        match self {
            Item::Num(n) => Ok(Item::Num(*n)),
            Item::Null => Ok(Item::Null),
            Item::Absent => Ok(Item::Absent),
            Item::Text(text) => Ok(Item::Text(text.copy(alloc)?)),
            Item::Raw(bytes) => Ok(Item::Raw(bytes.copy(alloc)?)),
        }
    }

    ghost exact = { item_exact };
}

/// The items of a block in schema order.
pub type Items = List<Item>;
