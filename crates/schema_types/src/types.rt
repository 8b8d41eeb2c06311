//! The types of a schema (SBE 1.0, message schema, types).

use lists::List;
use sbe_prim::Primitive;
use sbe_value::Bytes;

/// A named type of a schema.
#[derive(Drop, PartialEq)]
pub struct TypeDef {
    /// The name by which fields and members refer to it.
    pub name: Bytes,
    /// What it is.
    pub kind: TypeKind,
}

/// What a type is.
#[derive(Drop, PartialEq)]
pub enum TypeKind {
    /// A number, or an array of numbers where the length is 2 or more.
    Number {
        /// The primitive of each element.
        prim: Primitive,
        /// How many elements there are; 1 is the primitive itself.
        length: u16,
        /// The number that stands for no value, where it is not the primitive's.
        null: Option<i128>,
        /// The least number that may be written, where it is not the primitive's.
        min: Option<i128>,
        /// The greatest number that may be written, where it is not the primitive's.
        max: Option<i128>,
    },
    /// A number with listed values.
    Enum {
        /// The primitive that is written.
        prim: Primitive,
        /// The listed values.
        values: ValueDefs,
    },
    /// A number whose bits are named.
    Set {
        /// The primitive that is written.
        prim: Primitive,
        /// The named bits.
        bits: BitDefs,
    },
    /// Members that follow one another.
    Composite {
        /// The members.
        members: MemberDefs,
    },
}

/// A listed value of an enum.
#[derive(Drop, PartialEq)]
pub struct ValueDef {
    /// Its name.
    pub name: Bytes,
    /// The number that is written for it.
    pub value: i128,
}

/// A named bit of a set.
#[derive(Drop, PartialEq)]
pub struct BitDef {
    /// Its name.
    pub name: Bytes,
    /// Its place; bit 0 is the least significant.
    pub bit: u8,
}

/// Whether a field or a member is always there (SBE 1.0, field presence).
#[derive(Clone, Copy, PartialEq, Eq)]
pub enum Presence {
    /// It always has a value.
    Required,
    /// Its null value stands for no value.
    Optional,
    /// Its value stands in the schema and takes no bytes.
    Constant,
}

/// The value of a constant field or member.
#[derive(Drop, PartialEq)]
pub enum Constant {
    /// A number.
    Num(i128),
    /// The text of a character array.
    Text(Bytes),
}

/// A member of a composite.
#[derive(Drop, PartialEq)]
pub struct MemberDef {
    /// Its name.
    pub name: Bytes,
    /// The name of a primitive or of a type of the schema.
    pub type_name: Bytes,
    /// The stated offset in bytes from the composite's start.
    pub offset: Option<i128>,
    /// Whether it is always there.
    pub presence: Presence,
    /// The value of a constant.
    pub value: Option<Constant>,
}

/// The types of a schema, in order.
pub type TypeDefs = List<TypeDef>;

/// The listed values of an enum, in order.
pub type ValueDefs = List<ValueDef>;

/// The named bits of a set, in order.
pub type BitDefs = List<BitDef>;

/// The members of a composite, in order.
pub type MemberDefs = List<MemberDef>;
