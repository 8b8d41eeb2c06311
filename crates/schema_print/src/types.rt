//! The types of a schema as TOML tables.

ghost use Rattle.std.specs.Prelude.{◌≡◌, IfOk};
ghost use Rattle.toml.specs.View.{table_view};
ghost use Rattle.schema_print.specs.Written.{kind_pairs, with_keys};

use crate::table::{Written, put, put_list, put_one, put_some};
use sbe_schema::{BitDef, MemberDef, TypeDef, TypeKind, ValueDef};
use std::alloc::{AllocError, Global};
use toml::{Table, Value};

impl Written for ValueDef {
    ghost use Rattle.schema_print.specs.Written.{value_data};

    ghost spelling = { value_data };

    fn to_value(&self, alloc: Global) -> Result<Value, AllocError> {
        let table = put_one(alloc, Table::new(alloc), "name", &self.name)?;
        let table = put_one(alloc, table, "value", &self.value)?;
        Ok(Value::Table(table))
    }
}

impl Written for BitDef {
    ghost use Rattle.schema_print.specs.Written.{bit_data};

    ghost spelling = { bit_data };

    fn to_value(&self, alloc: Global) -> Result<Value, AllocError> {
        let table = put_one(alloc, Table::new(alloc), "name", &self.name)?;
        let table = put_one(alloc, table, "bit", &self.bit)?;
        Ok(Value::Table(table))
    }
}

impl Written for MemberDef {
    ghost use Rattle.schema_print.specs.Written.{member_data};

    ghost spelling = { member_data };

    fn to_value(&self, alloc: Global) -> Result<Value, AllocError> {
        let table = put_one(alloc, Table::new(alloc), "name", &self.name)?;
        let table = put_one(alloc, table, "type", &self.type_name)?;
        let table = put_some(alloc, table, "offset", &self.offset)?;
        let table = put_one(alloc, table, "presence", &self.presence)?;
        let table = put_some(alloc, table, "value", &self.value)?;
        Ok(Value::Table(table))
    }
}

/// The table, with the keys of a kind.
fn put_kind(alloc: Global, table: Table, kind: &TypeKind) -> Result<Table, AllocError>
    ensures { IfOk result (λ t. table_view t ≡ with_keys (table_view table) (kind_pairs kind.now)) }
{
    match kind {
        TypeKind::Number {
            prim,
            length,
            null,
            min,
            max,
        } => {
            let table = put(alloc, table, "kind", Value::string(alloc, "number")?)?;
            let table = put_one(alloc, table, "prim", prim)?;
            let table = put_one(alloc, table, "length", length)?;
            let table = put_some(alloc, table, "null", null)?;
            let table = put_some(alloc, table, "min", min)?;
            put_some(alloc, table, "max", max)
        }
        TypeKind::Enum { prim, values } => {
            let table = put(alloc, table, "kind", Value::string(alloc, "enum")?)?;
            let table = put_one(alloc, table, "prim", prim)?;
            put_list(alloc, table, "values", values.as_slice())
        }
        TypeKind::Set { prim, bits } => {
            let table = put(alloc, table, "kind", Value::string(alloc, "set")?)?;
            let table = put_one(alloc, table, "prim", prim)?;
            put_list(alloc, table, "bits", bits.as_slice())
        }
        TypeKind::Composite { members } => {
            let table = put(alloc, table, "kind", Value::string(alloc, "composite")?)?;
            put_list(alloc, table, "members", members.as_slice())
        }
    }
}

impl Written for TypeDef {
    ghost use Rattle.schema_print.specs.Written.{type_data};

    ghost spelling = { type_data };

    fn to_value(&self, alloc: Global) -> Result<Value, AllocError> {
        let table = put_one(alloc, Table::new(alloc), "name", &self.name)?;
        let table = put_kind(alloc, table, &self.kind)?;
        Ok(Value::Table(table))
    }
}
