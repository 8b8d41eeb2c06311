//! The check that a schema of Simple Binary Encoding 1.0 is one by which messages
//! can be laid out. It stands on the types of a schema and on the primitives.
#![tactic(auto)]

mod checked;
mod checking;
mod conditions;
mod fault;
mod index;
mod meaning;
mod parent;
mod rules;
mod sets;
mod state;
mod walk;

pub use checked::Checked;
pub use checking::{check, fault_tells};
pub use fault::{PathStep, SchemaFault, SchemaKind, TableArray};
pub use index::{Index, offset_of, plus};
pub use meaning::Meaning;
pub use schema_types::{
    BitDef, BitDefs, Constant, DataDef, DataDefs, FieldDef, FieldDefs, GroupDef, GroupDefs,
    MemberDef, MemberDefs, MessageDef, MessageDefs, Presence, Schema, TypeDef, TypeDefs, TypeKind,
    ValueDef, ValueDefs,
};
pub use state::{array_key, path_to};
