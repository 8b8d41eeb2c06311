//! Names, numbers, words and constants as TOML values.

ghost use Rattle.std.specs.Prelude.{◌≡◌, IfOk};
ghost use Rattle.toml.specs.View.{view};
ghost use Rattle.schema_print.specs.Written.{number_data, text_data};

use crate::table::Written;
use sbe_prim::{Order, Primitive, primitive_name};
use sbe_schema::{Constant, Presence};
use sbe_value::Bytes;
use std::alloc::{AllocError, Global};
use toml::Value;

/// The greatest TOML integer; a greater number is a string of decimal digits.
const GREATEST_INTEGER: i128 = (1 << 63) - 1;

/// The least TOML integer.
const LEAST_INTEGER: i128 = -(1 << 63);

/// A text, empty where it is not UTF-8: no schema's text spells any other.
fn text_value(alloc: Global, text: &[u8]) -> Result<Value, AllocError>
    ensures { IfOk result (λ v. view v ≡ text_data text.now) }
{
    match std::str::from_utf8(text) {
        Ok(text) => Value::string(alloc, text),
        Err(_) => Value::string(alloc, ""),
    }
}

/// A number, 0 where it is below the least TOML integer: no schema's text spells any lesser.
fn number_value(alloc: Global, number: i128) -> Result<Value, AllocError>
    ensures { IfOk result (λ v. view v ≡ number_data number) }
{
    if number > GREATEST_INTEGER {
        let wide = number as u128;
        Ok(Value::String(format!(in alloc; "{wide}")?))
    } else if number >= LEAST_INTEGER {
        Ok(Value::Integer(number as i64))
    } else {
        Ok(Value::Integer(0))
    }
}

impl Written for Bytes {
    ghost use Rattle.schema_print.specs.Written.{text_data};

    ghost spelling = { text_data };

    fn to_value(&self, alloc: Global) -> Result<Value, AllocError> {
        text_value(alloc, self.as_slice())
    }
}

impl Written for i128 {
    ghost use Rattle.schema_print.specs.Written.{number_data};

    ghost spelling = { number_data };

    fn to_value(&self, alloc: Global) -> Result<Value, AllocError> {
        number_value(alloc, *self)
    }
}

impl Written for u16 {
    ghost use Rattle.schema_print.specs.Written.{natural_data};

    ghost spelling = { natural_data };

    fn to_value(&self, _alloc: Global) -> Result<Value, AllocError> {
        Ok(Value::Integer(i64::from(*self)))
    }
}

impl Written for u8 {
    ghost use Rattle.schema_print.specs.Written.{natural_data};

    ghost spelling = { natural_data };

    fn to_value(&self, _alloc: Global) -> Result<Value, AllocError> {
        Ok(Value::Integer(i64::from(*self)))
    }
}

impl Written for Order {
    ghost use Rattle.schema_print.specs.Written.{order_data};

    ghost spelling = { order_data };

    fn to_value(&self, alloc: Global) -> Result<Value, AllocError> {
        match self {
            Order::Little => Value::string(alloc, "little"),
            Order::Big => Value::string(alloc, "big"),
        }
    }
}

impl Written for Presence {
    ghost use Rattle.schema_print.specs.Written.{presence_data};

    ghost spelling = { presence_data };

    fn to_value(&self, alloc: Global) -> Result<Value, AllocError> {
        match self {
            Presence::Required => Value::string(alloc, "required"),
            Presence::Optional => Value::string(alloc, "optional"),
            Presence::Constant => Value::string(alloc, "constant"),
        }
    }
}

impl Written for Primitive {
    ghost use Rattle.schema_print.specs.Written.{primitive_data};

    ghost spelling = { primitive_data };

    fn to_value(&self, alloc: Global) -> Result<Value, AllocError> {
        text_value(alloc, primitive_name(*self))
    }
}

impl Written for Constant {
    ghost use Rattle.schema_print.specs.Written.{constant_data};

    ghost spelling = { constant_data };

    fn to_value(&self, alloc: Global) -> Result<Value, AllocError> {
        match self {
            Constant::Num(number) => number_value(alloc, *number),
            Constant::Text(text) => text_value(alloc, text.as_slice()),
        }
    }
}
