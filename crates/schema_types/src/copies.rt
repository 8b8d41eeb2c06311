//! Copies of the parts of a schema, and the law that their test of equality is exact.

ghost use Rattle.std.specs.Prelude.{◌≡◌, IfOk};

use crate::{
    BitDef, Constant, DataDef, FieldDef, GroupDef, GroupDefs, MemberDef, MessageDef, Presence,
    Schema, TypeDef, TypeKind, ValueDef,
};
use lists::Element;
use std::alloc::{AllocError, Global};

impl Element for Presence {
    ghost use Rattle.lists.specs.Exact.{exact_bare};
    ghost use Rattle.schema_types.specs.contracts.types.Presence as presence;

    fn copy(&self, _alloc: Global) -> Result<Presence, AllocError> {
        Ok(*self)
    }

    ghost exact = { exact_bare presence.the_type tt };
}

impl Element for Constant {
    ghost use Rattle.schema_types.specs.Equal.{constant_exact};

    fn copy(&self, alloc: Global) -> Result<Constant, AllocError> {
        match self {
            Constant::Num(number) => Ok(Constant::Num(*number)),
            Constant::Text(text) => Ok(Constant::Text(text.copy(alloc)?)),
        }
    }

    ghost exact = { constant_exact };
}

fn copy_of_value(value: &Option<Constant>, alloc: Global) -> Result<Option<Constant>, AllocError>
    ensures { IfOk result (λ copied. copied ≡ value.now) }
{
    match value {
        None => Ok(None),
        Some(constant) => Ok(Some(constant.copy(alloc)?)),
    }
}

impl Element for ValueDef {
    ghost use Rattle.schema_types.specs.Equal.{value_exact};

    fn copy(&self, alloc: Global) -> Result<ValueDef, AllocError> {
        let name = self.name.copy(alloc)?;
        Ok(ValueDef {
            name,
            value: self.value,
        })
    }

    ghost exact = { value_exact };
}

impl Element for BitDef {
    ghost use Rattle.schema_types.specs.Equal.{bit_exact};

    fn copy(&self, alloc: Global) -> Result<BitDef, AllocError> {
        let name = self.name.copy(alloc)?;
        Ok(BitDef {
            name,
            bit: self.bit,
        })
    }

    ghost exact = { bit_exact };
}

impl Element for MemberDef {
    ghost use Rattle.schema_types.specs.Equal.{member_exact};

    fn copy(&self, alloc: Global) -> Result<MemberDef, AllocError> {
        let name = self.name.copy(alloc)?;
        let type_name = self.type_name.copy(alloc)?;
        let value = copy_of_value(&self.value, alloc)?;
        Ok(MemberDef {
            name,
            type_name,
            offset: self.offset,
            presence: self.presence,
            value,
        })
    }

    ghost exact = { member_exact };
}

impl Element for TypeKind {
    ghost use Rattle.schema_types.specs.Equal.{kind_exact};

    fn copy(&self, alloc: Global) -> Result<TypeKind, AllocError> {
        match self {
            TypeKind::Number {
                prim,
                length,
                null,
                min,
                max,
            } => Ok(TypeKind::Number {
                prim: *prim,
                length: *length,
                null: *null,
                min: *min,
                max: *max,
            }),
            TypeKind::Enum { prim, values } => {
                let values = values.copy(alloc)?;
                Ok(TypeKind::Enum {
                    prim: *prim,
                    values,
                })
            }
            TypeKind::Set { prim, bits } => {
                let bits = bits.copy(alloc)?;
                Ok(TypeKind::Set { prim: *prim, bits })
            }
            TypeKind::Composite { members } => {
                let members = members.copy(alloc)?;
                Ok(TypeKind::Composite { members })
            }
        }
    }

    ghost exact = { kind_exact };
}

impl Element for TypeDef {
    ghost use Rattle.schema_types.specs.Equal.{type_exact};

    fn copy(&self, alloc: Global) -> Result<TypeDef, AllocError> {
        let name = self.name.copy(alloc)?;
        let kind = self.kind.copy(alloc)?;
        Ok(TypeDef { name, kind })
    }

    ghost exact = { type_exact };
}

impl Element for FieldDef {
    ghost use Rattle.schema_types.specs.Equal.{field_exact};

    fn copy(&self, alloc: Global) -> Result<FieldDef, AllocError> {
        let name = self.name.copy(alloc)?;
        let type_name = self.type_name.copy(alloc)?;
        let value = copy_of_value(&self.value, alloc)?;
        Ok(FieldDef {
            name,
            id: self.id,
            type_name,
            presence: self.presence,
            value,
            offset: self.offset,
            since: self.since,
        })
    }

    ghost exact = { field_exact };
}

impl Element for DataDef {
    ghost use Rattle.schema_types.specs.Equal.{data_exact};

    fn copy(&self, alloc: Global) -> Result<DataDef, AllocError> {
        let name = self.name.copy(alloc)?;
        Ok(DataDef {
            name,
            id: self.id,
            length: self.length,
            since: self.since,
        })
    }

    ghost exact = { data_exact };
}

impl Element for GroupDef {
    ghost use Rattle.schema_types.specs.TreeEqual.{group_exact};

    fn copy(&self, alloc: Global) -> Result<GroupDef, AllocError> {
        GroupDef::copy(self, alloc)
    }

    ghost exact = { group_exact };
}

impl Element for GroupDefs {
    ghost use Rattle.schema_types.specs.TreeEqual.{tree_exact};

    fn copy(&self, alloc: Global) -> Result<GroupDefs, AllocError> {
        GroupDefs::copy(self, alloc)
    }

    ghost exact = { tree_exact };
}

impl Element for MessageDef {
    ghost use Rattle.schema_types.specs.SchemaEqual.{message_exact};

    fn copy(&self, alloc: Global) -> Result<MessageDef, AllocError> {
        let name = self.name.copy(alloc)?;
        let fields = self.fields.copy(alloc)?;
        let groups = self.groups.copy(alloc)?;
        let vars = self.vars.copy(alloc)?;
        Ok(MessageDef {
            name,
            id: self.id,
            since: self.since,
            block_length: self.block_length,
            fields,
            groups,
            vars,
        })
    }

    ghost exact = { message_exact };
}

impl Element for Schema {
    ghost use Rattle.schema_types.specs.SchemaEqual.{schema_exact};

    fn copy(&self, alloc: Global) -> Result<Schema, AllocError> {
        let types = self.types.copy(alloc)?;
        let messages = self.messages.copy(alloc)?;
        Ok(Schema {
            id: self.id,
            version: self.version,
            order: self.order,
            types,
            messages,
        })
    }

    ghost exact = { schema_exact };
}
