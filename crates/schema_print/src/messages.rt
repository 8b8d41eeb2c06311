//! The messages of a schema as TOML tables.

ghost use Rattle.std.specs.Prelude.{◌≡◌, IfOk, map};
ghost use Rattle.toml.specs.View.{view};
ghost use Rattle.schema_types.specs.Views.{groups_of, head_of};
ghost use Rattle.schema_print.specs.Written.{group_data, groups_data, groups_list};

use crate::table::{Written, put, put_list, put_one, put_some};
use sbe_schema::{DataDef, FieldDef, GroupDef, MessageDef};
use std::alloc::{AllocError, Global};
use toml::{Table, Value};

impl Written for FieldDef {
    ghost use Rattle.schema_print.specs.Written.{field_data};

    ghost spelling = { field_data };

    fn to_value(&self, alloc: Global) -> Result<Value, AllocError> {
        let table = put_one(alloc, Table::new(alloc), "name", &self.name)?;
        let table = put_one(alloc, table, "id", &self.id)?;
        let table = put_one(alloc, table, "type", &self.type_name)?;
        let table = put_one(alloc, table, "presence", &self.presence)?;
        let table = put_some(alloc, table, "value", &self.value)?;
        let table = put_some(alloc, table, "offset", &self.offset)?;
        let table = put_one(alloc, table, "since", &self.since)?;
        Ok(Value::Table(table))
    }
}

impl Written for DataDef {
    ghost use Rattle.schema_print.specs.Written.{datum_data};

    ghost spelling = { datum_data };

    fn to_value(&self, alloc: Global) -> Result<Value, AllocError> {
        let table = put_one(alloc, Table::new(alloc), "name", &self.name)?;
        let table = put_one(alloc, table, "id", &self.id)?;
        let table = put_one(alloc, table, "length", &self.length)?;
        let table = put_one(alloc, table, "since", &self.since)?;
        Ok(Value::Table(table))
    }
}

/// A group as a table, beside the list of the groups of its entries.
fn group_value(alloc: Global, group: &GroupDef, inner: Value) -> Result<Value, AllocError>
    ensures { IfOk result (λ v. view v ≡ group_data (head_of group.now) (view inner)) }
{
    let table = put_one(alloc, Table::new(alloc), "name", &group.name)?;
    let table = put_one(alloc, table, "id", &group.id)?;
    let table = put_one(alloc, table, "block_prim", &group.block_prim)?;
    let table = put_one(alloc, table, "count_prim", &group.count_prim)?;
    let table = put_one(alloc, table, "since", &group.since)?;
    let table = put_some(alloc, table, "block_length", &group.block_length)?;
    let table = put_list(alloc, table, "fields", group.fields.as_slice())?;
    let table = put(alloc, table, "groups", inner)?;
    let table = put_list(alloc, table, "data", group.vars.as_slice())?;
    Ok(Value::Table(table))
}

/// The values that groups are written as, each with its own groups in it.
fn group_values(alloc: Global, groups: &[GroupDef]) -> Result<Vec<Value>, AllocError>
    ensures { IfOk result (λ list. map view list.items ≡ groups_list (groups_of groups.now)) }
{
    let mut list = Vec::with_capacity(alloc, groups.len())?;
    for group in groups {
        let inner = group_values(alloc, group.groups.as_slice())?;
        let written = group_value(alloc, group, Value::Array(inner))?;
        if list.push(written).is_err() {
            return Err(AllocError);
        }
    }
    Ok(list)
}

impl Written for MessageDef {
    ghost use Rattle.schema_print.specs.Written.{message_data};

    ghost spelling = { message_data };

    fn to_value(&self, alloc: Global) -> Result<Value, AllocError> {
        let groups = group_values(alloc, self.groups.as_slice())?;
        let table = put_one(alloc, Table::new(alloc), "name", &self.name)?;
        let table = put_one(alloc, table, "id", &self.id)?;
        let table = put_one(alloc, table, "since", &self.since)?;
        let table = put_some(alloc, table, "block_length", &self.block_length)?;
        let table = put_list(alloc, table, "fields", self.fields.as_slice())?;
        let table = put(alloc, table, "groups", Value::Array(groups))?;
        let table = put_list(alloc, table, "data", self.vars.as_slice())?;
        Ok(Value::Table(table))
    }
}
