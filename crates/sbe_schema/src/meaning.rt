//! What the name of a type stands for.

use sbe_prim::Primitive;

/// What the name of a type stands for, as far as fields and members depend on it.
#[derive(Clone, Copy)]
pub enum Meaning {
    /// Neither a primitive nor a type of the schema.
    Unknown,
    /// A number, or an array of numbers.
    Number {
        /// The primitive of each element.
        prim: Primitive,
        /// How many elements there are.
        length: u16,
    },
    /// An enum or a set.
    Code {
        /// The primitive that is written.
        prim: Primitive,
    },
    /// A composite.
    Composite,
}
