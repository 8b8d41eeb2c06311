//! What a plan says of the fields and the data of a block.

use lists::List;
use sbe_prim::Primitive;
use sbe_schema::Presence;
use sbe_value::Bytes;

/// The type of an item, as far as messages depend on it.
#[derive(Clone, Copy)]
pub enum ItemKind {
    /// A number, or an array of numbers where the length is 2 or more.
    Number {
        /// The primitive of each element.
        prim: Primitive,
        /// How many elements there are; below 2 it is the primitive itself.
        length: u16,
        /// The number that stands for no value, where it is not the primitive's.
        null: Option<i128>,
        /// The least number that may be written, where it is not the primitive's.
        min: Option<i128>,
        /// The greatest number that may be written, where it is not the primitive's.
        max: Option<i128>,
    },
    /// An enum.
    Enum {
        /// The primitive that is written.
        prim: Primitive,
        /// The place of the enum among the types of the schema, from 0.
        at: u64,
    },
    /// A set.
    Set {
        /// The primitive that is written.
        prim: Primitive,
        /// The place of the set among the types of the schema, from 0.
        at: u64,
    },
}

/// A field of a block, or a member of a field that is a composite.
#[derive(Drop)]
pub struct ItemPlan {
    /// The field's name, or `field.member`.
    pub name: Bytes,
    /// Its first byte, from the block's start.
    pub offset: u128,
    /// How many bytes it takes.
    pub size: u128,
    /// The version that it came with.
    pub since: i128,
    /// Whether it is always there.
    pub presence: Presence,
    /// Its type.
    pub kind: ItemKind,
}

/// Where a field ends, constants too.
#[derive(Clone, Copy)]
pub struct Mark {
    /// The version that the field came with.
    pub since: i128,
    /// The place behind its last byte, from the block's start.
    pub end: u128,
}

/// A variable-length data field.
#[derive(Drop)]
pub struct DataPlan {
    /// Its name.
    pub name: Bytes,
    /// The version that it came with.
    pub since: i128,
    /// The primitive of its length.
    pub length: Primitive,
}

/// The items of a block, in schema order.
pub type ItemPlans = List<ItemPlan>;

/// The ends of the fields of a block, in schema order.
pub type Marks = List<Mark>;

/// The variable-length data of a block, in schema order.
pub type DataPlans = List<DataPlan>;
