//! The types of a schema.

ghost use Rattle.std.specs.Prelude.{◌≡◌};
ghost use Rattle.toml.specs.View.{view};
ghost use Rattle.toml_walk.specs.Reading.{Reads};
ghost use Rattle.schema_toml.specs.Types.{composite_kind, enum_kind, kind_keys, number_kind, set_kind};

use crate::words::{Constants, Presences, Primitives};
use sbe_schema::{
    BitDef, BitDefs, MemberDef, MemberDefs, Presence, TypeDef, TypeKind, ValueDef, ValueDefs,
};
use sbe_value::Path;
use std::alloc::Global;
use toml::Value;
use toml_walk::{
    Names, Numbers, Reader, TomlFault, deny_unknown_keys, get_or_default, natural_at, natural_or,
    optional, required, required_list,
};

/// The longest array.
const LENGTH_LIMIT: u64 = 16384;

/// Listed values of an enum.
pub struct Values;

impl Reader for Values {
    type Parent = ();

    type Made = ValueDef;

    ghost use Rattle.schema_toml.specs.Types.{value_of};

    ghost spelled = { λ _. value_of };

    fn read(alloc: Global, _parent: (), keys: &Value) -> Result<ValueDef, TomlFault> {
        if !keys.is_table() {
            return Err(TomlFault::WrongKind(Path::new(alloc)));
        }
        let name = required::<Names>(alloc, (), keys, "name")?;
        let value = required::<Numbers>(alloc, (), keys, "value")?;
        deny_unknown_keys(alloc, keys, &["name", "value"])?;
        Ok(ValueDef { name, value })
    }
}

/// Named bits of a set.
pub struct Bits;

impl Reader for Bits {
    type Parent = ();

    type Made = BitDef;

    ghost use Rattle.schema_toml.specs.Types.{bit_of};

    ghost spelled = { λ _. bit_of };

    fn read(alloc: Global, _parent: (), keys: &Value) -> Result<BitDef, TomlFault> {
        if !keys.is_table() {
            return Err(TomlFault::WrongKind(Path::new(alloc)));
        }
        let name = required::<Names>(alloc, (), keys, "name")?;
        let bit = natural_at(alloc, keys, "bit", 0, 63)?;
        deny_unknown_keys(alloc, keys, &["name", "bit"])?;
        Ok(BitDef {
            name,
            bit: bit as u8,
        })
    }
}

/// Members of a composite.
pub struct Members;

impl Reader for Members {
    type Parent = ();

    type Made = MemberDef;

    ghost use Rattle.schema_toml.specs.Types.{member_of};

    ghost spelled = { λ _. member_of };

    fn read(alloc: Global, _parent: (), keys: &Value) -> Result<MemberDef, TomlFault> {
        if !keys.is_table() {
            return Err(TomlFault::WrongKind(Path::new(alloc)));
        }
        let name = required::<Names>(alloc, (), keys, "name")?;
        let type_name = required::<Names>(alloc, (), keys, "type")?;
        let offset = optional::<Numbers>(alloc, (), keys, "offset")?;
        let presence = get_or_default::<Presences>(
            alloc,
            (),
            keys,
            "presence",
            Presence::Required,
        )?;
        let value = optional::<Constants>(alloc, (), keys, "value")?;
        deny_unknown_keys(
            alloc,
            keys,
            &["name", "type", "offset", "presence", "value"],
        )?;
        Ok(MemberDef {
            name,
            type_name,
            offset,
            presence,
            value,
        })
    }
}

/// What a type may be.
#[derive(Clone, Copy)]
pub enum Kind {
    /// A number or an array.
    Number,
    /// A number with listed values.
    Enum,
    /// A number with named bits.
    Set,
    /// Members that follow one another.
    Composite,
}

/// The words of the kinds.
struct Kinds;

impl Reader for Kinds {
    type Parent = ();

    type Made = Kind;

    ghost use Rattle.schema_toml.specs.Types.{kind_word_of};

    ghost spelled = { λ _. kind_word_of };

    fn read(alloc: Global, _parent: (), value: &Value) -> Result<Kind, TomlFault> {
        match value.as_str() {
            Some("number") => Ok(Kind::Number),
            Some("enum") => Ok(Kind::Enum),
            Some("set") => Ok(Kind::Set),
            Some("composite") => Ok(Kind::Composite),
            Some(_) => Err(TomlFault::Range(Path::new(alloc))),
            None => Err(TomlFault::WrongKind(Path::new(alloc))),
        }
    }
}

fn read_number_kind(alloc: Global, keys: &Value) -> Result<TypeKind, TomlFault>
    ensures { Reads result (number_kind (view keys.now)) }
{
    let prim = required::<Primitives>(alloc, (), keys, "prim")?;
    let length = natural_or(alloc, keys, "length", 1, LENGTH_LIMIT, 1)?;
    let null = optional::<Numbers>(alloc, (), keys, "null")?;
    let min = optional::<Numbers>(alloc, (), keys, "min")?;
    let max = optional::<Numbers>(alloc, (), keys, "max")?;
    deny_unknown_keys(
        alloc,
        keys,
        &["name", "kind", "prim", "length", "null", "min", "max"],
    )?;
    Ok(TypeKind::Number {
        prim,
        length: length as u16,
        null,
        min,
        max,
    })
}

fn read_enum_kind(alloc: Global, keys: &Value) -> Result<TypeKind, TomlFault>
    ensures { Reads result (enum_kind (view keys.now)) }
{
    let prim = required::<Primitives>(alloc, (), keys, "prim")?;
    let values = required_list::<Values>(alloc, (), keys, "values")?;
    deny_unknown_keys(alloc, keys, &["name", "kind", "prim", "values"])?;
    Ok(TypeKind::Enum {
        prim,
        values: ValueDefs::from(values),
    })
}

fn read_set_kind(alloc: Global, keys: &Value) -> Result<TypeKind, TomlFault>
    ensures { Reads result (set_kind (view keys.now)) }
{
    let prim = required::<Primitives>(alloc, (), keys, "prim")?;
    let bits = required_list::<Bits>(alloc, (), keys, "bits")?;
    deny_unknown_keys(alloc, keys, &["name", "kind", "prim", "bits"])?;
    Ok(TypeKind::Set {
        prim,
        bits: BitDefs::from(bits),
    })
}

fn read_composite_kind(alloc: Global, keys: &Value) -> Result<TypeKind, TomlFault>
    ensures { Reads result (composite_kind (view keys.now)) }
{
    let members = required_list::<Members>(alloc, (), keys, "members")?;
    deny_unknown_keys(alloc, keys, &["name", "kind", "members"])?;
    Ok(TypeKind::Composite {
        members: MemberDefs::from(members),
    })
}

fn read_kind(alloc: Global, kind: Kind, keys: &Value) -> Result<TypeKind, TomlFault>
    ensures { Reads result (kind_keys kind (view keys.now)) }
{
    match kind {
        Kind::Number => read_number_kind(alloc, keys),
        Kind::Enum => read_enum_kind(alloc, keys),
        Kind::Set => read_set_kind(alloc, keys),
        Kind::Composite => read_composite_kind(alloc, keys),
    }
}

/// Types of a schema.
pub struct Types;

impl Reader for Types {
    type Parent = ();

    type Made = TypeDef;

    ghost use Rattle.schema_toml.specs.Types.{type_of};

    ghost spelled = { λ _. type_of };

    fn read(alloc: Global, _parent: (), keys: &Value) -> Result<TypeDef, TomlFault> {
        if !keys.is_table() {
            return Err(TomlFault::WrongKind(Path::new(alloc)));
        }
        let name = required::<Names>(alloc, (), keys, "name")?;
        let kind = required::<Kinds>(alloc, (), keys, "kind")?;
        let kind = read_kind(alloc, kind, keys)?;
        Ok(TypeDef { name, kind })
    }
}
