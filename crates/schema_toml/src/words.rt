//! Words and constants.

ghost use Rattle.std.specs.Prelude.{◌≡◌};

use sbe_prim::{Order, Primitive, find_primitive};
use sbe_schema::{Constant, Presence};
use sbe_value::{Bytes, Path};
use std::alloc::Global;
use toml::Value;
use toml_walk::{Reader, TomlFault, read_held, wide_number};

/// Byte orders.
pub struct Orders;

impl Reader for Orders {
    type Parent = ();

    type Made = Order;

    ghost use Rattle.schema_toml.specs.Words.{order_of};

    ghost spelled = { λ _. order_of };

    fn read(alloc: Global, _parent: (), value: &Value) -> Result<Order, TomlFault> {
        match value.as_str() {
            Some("little") => Ok(Order::Little),
            Some("big") => Ok(Order::Big),
            Some(_) => Err(TomlFault::Range(Path::new(alloc))),
            None => Err(TomlFault::WrongKind(Path::new(alloc))),
        }
    }
}

/// Presences of fields and members.
pub struct Presences;

impl Reader for Presences {
    type Parent = ();

    type Made = Presence;

    ghost use Rattle.schema_toml.specs.Words.{presence_of};

    ghost spelled = { λ _. presence_of };

    fn read(alloc: Global, _parent: (), value: &Value) -> Result<Presence, TomlFault> {
        match value.as_str() {
            Some("required") => Ok(Presence::Required),
            Some("optional") => Ok(Presence::Optional),
            Some("constant") => Ok(Presence::Constant),
            Some(_) => Err(TomlFault::Range(Path::new(alloc))),
            None => Err(TomlFault::WrongKind(Path::new(alloc))),
        }
    }
}

/// Names of primitives.
pub struct Primitives;

impl Reader for Primitives {
    type Parent = ();

    type Made = Primitive;

    ghost use Rattle.schema_toml.specs.Words.{primitive_of};

    ghost spelled = { λ _. primitive_of };

    fn read(alloc: Global, _parent: (), value: &Value) -> Result<Primitive, TomlFault> {
        match value.as_str() {
            Some(word) => match find_primitive(word.as_bytes()) {
                Some(primitive) => Ok(primitive),
                None => Err(TomlFault::Range(Path::new(alloc))),
            },
            None => Err(TomlFault::WrongKind(Path::new(alloc))),
        }
    }
}

/// Values of constants: numbers and texts.
pub struct Constants;

impl Reader for Constants {
    type Parent = ();

    type Made = Constant;

    ghost use Rattle.schema_toml.specs.Words.{constant_of};

    ghost spelled = { λ _. constant_of };

    fn read(alloc: Global, _parent: (), value: &Value) -> Result<Constant, TomlFault> {
        match value {
            Value::Integer(number) => Ok(Constant::Num(*number as i128)),
            Value::String(text) => match wide_number(text.as_str()) {
                Some(number) => Ok(Constant::Num(read_held(alloc, number)?)),
                None => Ok(Constant::Text(Bytes::from_slice(alloc, text.as_bytes())?)),
            },
            _ => Err(TomlFault::WrongKind(Path::new(alloc))),
        }
    }
}
