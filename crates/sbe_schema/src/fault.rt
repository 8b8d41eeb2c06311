//! What may be wrong with a schema, and where.

use sbe_value::Path;

/// A rule that a schema breaks. Where several are broken, the first of them in this order is reported.
#[derive(Debug, Clone, Copy)]
pub enum SchemaKind {
    /// A name that stands twice in one list or block, or a type named as a primitive.
    DuplicateName,
    /// Two messages, or two elements of one message, with one id.
    DuplicateId,
    /// A name that is no type, or a member that is a composite.
    UnknownType,
    /// An offset below what stands before it, or a field that ends past 16,384 bytes.
    BadOffset,
    /// A block length below the end of the block's fields.
    ShortLength,
    /// An enum of another primitive than char, uint8 and uint16, without values, or with a value that is out of range or stands twice.
    BadEnum,
    /// A set of a primitive that is not unsigned, or with a bit that is past its width or stands twice.
    BadSet,
    /// A dimension of other primitives than uint8 and uint16, or one that cannot hold the block length.
    BadDimension,
    /// A data length of another primitive than uint8, uint16 and uint32.
    BadData,
    /// An element that came with a version which an older reader could not skip.
    IllegalExtension,
    /// More elements, levels or bytes than are admitted, or a number or text that its type cannot hold.
    OverLimit,
    /// There was not enough memory to tell.
    Memory,
}

/// The first rule that a schema breaks, and the place of the table that breaks it.
#[derive(Debug, Drop)]
pub struct SchemaFault {
    /// The rule.
    pub kind: SchemaKind,
    /// The place, as `message[0].fields[1]`; empty for the whole schema and for want of memory.
    pub path: Path,
}

/// An array of tables in the text of a schema.
#[derive(Clone, Copy)]
pub enum TableArray {
    /// The types of the schema.
    Types,
    /// The values of an enum.
    Values,
    /// The bits of a set.
    Bits,
    /// The members of a composite.
    Members,
    /// The messages of the schema.
    Messages,
    /// The fields of a block.
    Fields,
    /// The groups of a block.
    Groups,
    /// The data of a block.
    Data,
}

/// A step of a path: a table of one array, by its place in it from 0.
#[derive(Clone, Copy)]
pub struct PathStep {
    /// The array.
    pub array: TableArray,
    /// The place.
    pub at: u64,
}
