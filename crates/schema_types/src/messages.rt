//! The messages of a schema (SBE 1.0, message schema, message templates).

use crate::groups::GroupDefs;
use crate::types::{Constant, Presence};
use lists::List;
use sbe_prim::Primitive;
use sbe_value::Bytes;

/// A message template.
#[derive(Drop, PartialEq)]
pub struct MessageDef {
    /// Its name.
    pub name: Bytes,
    /// The template's id.
    pub id: u16,
    /// The version that it came with.
    pub since: i128,
    /// The stated length of its root block in bytes.
    pub block_length: Option<i128>,
    /// The fields of its root block.
    pub fields: FieldDefs,
    /// Its repeating groups.
    pub groups: GroupDefs,
    /// Its variable-length data.
    pub vars: DataDefs,
}

/// A field of a block.
#[derive(Drop, PartialEq)]
pub struct FieldDef {
    /// Its name.
    pub name: Bytes,
    /// Its id, one of its message.
    pub id: u16,
    /// The name of a primitive or of a type of the schema.
    pub type_name: Bytes,
    /// Whether it is always there.
    pub presence: Presence,
    /// The value of a constant.
    pub value: Option<Constant>,
    /// The stated offset in bytes from the block's start.
    pub offset: Option<i128>,
    /// The version that it came with.
    pub since: i128,
}

/// A variable-length data field.
#[derive(Drop, PartialEq)]
pub struct DataDef {
    /// Its name.
    pub name: Bytes,
    /// Its id, one of its message.
    pub id: u16,
    /// The primitive of its length.
    pub length: Primitive,
    /// The version that it came with.
    pub since: i128,
}

/// The messages of a schema, in order.
pub type MessageDefs = List<MessageDef>;

/// The fields of a block, in order.
pub type FieldDefs = List<FieldDef>;

/// The variable-length data of a block, in order.
pub type DataDefs = List<DataDef>;
