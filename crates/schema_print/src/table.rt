//! Tables of TOML by what is written at their keys.
//! It stands on the tables of `toml`, whose keys ascend by their bytes.

ghost use Rattle.std.specs.Prelude.{◌≡◌, IfOk, option_map, map};
ghost use Rattle.toml.specs.Data.{Data};
ghost use Rattle.toml.specs.View.{view, table_view};
ghost use Rattle.schema_print.specs.Written.{add_if, add_member, list_data};

use std::alloc::{AllocError, Global};
use toml::{Table, Value};

/// What is written as a TOML value.
pub trait Written {
    /// The data that it is written as.
    ghost spelling: { Self → Data };

    /// The value that it is written as.
    fn to_value(&self, alloc: Global) -> Result<Value, AllocError>
        ensures { IfOk result (λ v. view v ≡ spelling self.now) };
}

/// The table, with a value at a key.
pub fn put(alloc: Global, table: Table, key: &str, value: Value) -> Result<Table, AllocError>
    ensures { IfOk result (λ t. table_view t ≡ add_member key.now (view value) (table_view table)) }
{
    let mut table = table;
    match table.insert(String::from_str(alloc, key)?, value) {
        Ok(_) => Ok(table),
        Err(_) => Err(AllocError),
    }
}

/// The table, with what is written at a key.
pub fn put_one<T: Written>(
    alloc: Global,
    table: Table,
    key: &str,
    value: &T,
) -> Result<Table, AllocError>
    ensures { IfOk result (λ t. table_view t ≡ add_member key.now (T.spelling value.now) (table_view table)) }
{
    let value = value.to_value(alloc)?;
    put(alloc, table, key, value)
}

/// The table, with what is written at a key, if it is there.
pub fn put_some<T: Written>(
    alloc: Global,
    table: Table,
    key: &str,
    value: &Option<T>,
) -> Result<Table, AllocError>
    ensures { IfOk result (λ t. table_view t ≡ add_if key.now (option_map T.spelling value.now) (table_view table)) }
{
    match value {
        Some(value) => put_one(alloc, table, key, value),
        None => Ok(table),
    }
}

/// The table, with a list at a key.
pub fn put_list<T: Written>(
    alloc: Global,
    table: Table,
    key: &str,
    values: &[T],
) -> Result<Table, AllocError>
    ensures { IfOk result (λ t. table_view t ≡ add_member key.now (list_data T.spelling values.now) (table_view table)) }
{
    let list = list_of(alloc, values)?;
    put(alloc, table, key, Value::Array(list))
}

/// The values that the elements of a list are written as.
fn list_of<T: Written>(alloc: Global, values: &[T]) -> Result<Vec<Value>, AllocError>
    ensures { IfOk result (λ list. map view list.items ≡ map T.spelling values.now) }
{
    let mut list = Vec::with_capacity(alloc, values.len())?;
    for value in values {
        let written = value.to_value(alloc)?;
        if list.push(written).is_err() {
            return Err(AllocError);
        }
    }
    Ok(list)
}
