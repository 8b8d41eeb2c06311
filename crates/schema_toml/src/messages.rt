//! The messages of a schema.

ghost use Rattle.std.specs.Prelude.{◌≡◌};
ghost use Rattle.toml.specs.View.{view};
ghost use Rattle.toml_walk.specs.Reading.{Reads};
ghost use Rattle.schema_toml.specs.Messages.{own_of};

use crate::groups::groups_or_none;
use crate::words::{Constants, Presences, Primitives};
use sbe_prim::Primitive;
use sbe_schema::{DataDef, DataDefs, FieldDef, FieldDefs, MessageDef, Presence};
use sbe_value::Path;
use std::alloc::Global;
use toml::Value;
use toml_walk::{
    Names, Numbers, Reader, TomlFault, deny_unknown_keys, get_or_default, list_or_empty,
    natural_at, optional, required,
};

/// The greatest id.
pub const GREATEST_ID: u64 = 65534;

/// What holds an element, as far as the element's defaults depend on it.
#[derive(Clone, Copy)]
pub struct Parent {
    /// The version with which it came.
    pub since: i128,
}

/// The version with which a message or a group came, by default that of what holds it.
pub fn read_own(alloc: Global, since: i128, keys: &Value) -> Result<Parent, TomlFault>
    ensures { Reads result (own_of since (view keys.now)) }
{
    let since = get_or_default::<Numbers>(alloc, (), keys, "since", since)?;
    Ok(Parent { since })
}

/// Fields of a block, in what came with a version.
pub struct Fields;

impl Reader for Fields {
    type Parent = Parent;

    type Made = FieldDef;

    ghost use Rattle.schema_toml.specs.Messages.{field_of};

    ghost spelled = { λ parent. field_of parent.since };

    fn read(alloc: Global, parent: Parent, keys: &Value) -> Result<FieldDef, TomlFault> {
        if !keys.is_table() {
            return Err(TomlFault::WrongKind(Path::new(alloc)));
        }
        let name = required::<Names>(alloc, (), keys, "name")?;
        let id = natural_at(alloc, keys, "id", 0, GREATEST_ID)?;
        let type_name = required::<Names>(alloc, (), keys, "type")?;
        let presence = get_or_default::<Presences>(
            alloc,
            (),
            keys,
            "presence",
            Presence::Required,
        )?;
        let value = optional::<Constants>(alloc, (), keys, "value")?;
        let offset = optional::<Numbers>(alloc, (), keys, "offset")?;
        let since = get_or_default::<Numbers>(alloc, (), keys, "since", parent.since)?;
        deny_unknown_keys(
            alloc,
            keys,
            &["name", "id", "type", "presence", "value", "offset", "since"],
        )?;
        Ok(FieldDef {
            name,
            id: id as u16,
            type_name,
            presence,
            value,
            offset,
            since,
        })
    }
}

/// Variable-length data of a block, in what came with a version.
pub struct Data;

impl Reader for Data {
    type Parent = Parent;

    type Made = DataDef;

    ghost use Rattle.schema_toml.specs.Messages.{datum_of};

    ghost spelled = { λ parent. datum_of parent.since };

    fn read(alloc: Global, parent: Parent, keys: &Value) -> Result<DataDef, TomlFault> {
        if !keys.is_table() {
            return Err(TomlFault::WrongKind(Path::new(alloc)));
        }
        let name = required::<Names>(alloc, (), keys, "name")?;
        let id = natural_at(alloc, keys, "id", 0, GREATEST_ID)?;
        let length = get_or_default::<Primitives>(alloc, (), keys, "length", Primitive::UInt16)?;
        let since = get_or_default::<Numbers>(alloc, (), keys, "since", parent.since)?;
        deny_unknown_keys(alloc, keys, &["name", "id", "length", "since"])?;
        Ok(DataDef {
            name,
            id: id as u16,
            length,
            since,
        })
    }
}

/// Messages of a schema.
pub struct Messages;

impl Reader for Messages {
    type Parent = ();

    type Made = MessageDef;

    ghost use Rattle.schema_toml.specs.Messages.{message_of};

    ghost spelled = { λ _. message_of };

    fn read(alloc: Global, _parent: (), keys: &Value) -> Result<MessageDef, TomlFault> {
        if !keys.is_table() {
            return Err(TomlFault::WrongKind(Path::new(alloc)));
        }
        let name = required::<Names>(alloc, (), keys, "name")?;
        let id = natural_at(alloc, keys, "id", 0, GREATEST_ID)?;
        let own = read_own(alloc, 0, keys)?;
        let block_length = optional::<Numbers>(alloc, (), keys, "block_length")?;
        let fields = list_or_empty::<Fields>(alloc, own, keys, "fields")?;
        let groups = groups_or_none(alloc, own, keys)?;
        let vars = list_or_empty::<Data>(alloc, own, keys, "data")?;
        deny_unknown_keys(
            alloc,
            keys,
            &[
                "name",
                "id",
                "since",
                "block_length",
                "fields",
                "groups",
                "data",
            ],
        )?;
        Ok(MessageDef {
            name,
            id: id as u16,
            since: own.since,
            block_length,
            fields: FieldDefs::from(fields),
            groups,
            vars: DataDefs::from(vars),
        })
    }
}
