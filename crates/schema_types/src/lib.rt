//! Schemas of Simple Binary Encoding 1.0 as values: their types and messages,
//! with copies and a test of equality that is exact. It stands on the primitives
//! and on the list types.
#![tactic(auto)]

mod copies;
mod groups;
mod messages;
mod schema;
mod types;

pub use groups::{GroupDef, GroupDefs};
pub use messages::{DataDef, DataDefs, FieldDef, FieldDefs, MessageDef, MessageDefs};
pub use schema::Schema;
pub use types::{
    BitDef, BitDefs, Constant, MemberDef, MemberDefs, Presence, TypeDef, TypeDefs, TypeKind,
    ValueDef, ValueDefs,
};
