//! The types of the order schema: the sides of an order, the kinds of a report, the name of what is traded, and a price.

ghost use Rattle.std.specs.Prelude.{◌≡◌, [], ◌∷◌, ◌++◌, IfOk, OnOk, option_map};
ghost use Rattle.sbe_prim.specs.declared.Primitive.TheVariants.{UInt8, Char};
ghost use Rattle.schema_types.specs.declared.types.TypeKind.TheVariants.{Number, Enum, Composite};
ghost use Rattle.schema_types.specs.declared.types.Constant.TheVariants.{Num};
ghost use Rattle.order_desk.specs.Schema.{listed, presence_by, member, price_members, sides, kinds, order_types};

use sbe_prim::Primitive;
use sbe_schema::{
    Constant, MemberDef, MemberDefs, Presence, TypeDef, TypeDefs, TypeKind, ValueDef, ValueDefs,
};
use sbe_value::Bytes;
use std::alloc::{AllocError, Global};

/// The four types, in order.
pub fn order_types(alloc: Global) -> Result<TypeDefs, AllocError>
    ensures { IfOk result (λ types. types ≡ order_types) }
{
    let mut types = TypeDefs::new(alloc);
    let kind = enum_of(sides(alloc)?);
    push_type(alloc, &mut types, b"Side", kind)?;
    let kind = enum_of(kinds(alloc)?);
    push_type(alloc, &mut types, b"Kind", kind)?;
    push_type(alloc, &mut types, b"Symbol", symbol_kind())?;
    let kind = price_kind(alloc)?;
    push_type(alloc, &mut types, b"Price", kind)?;
    Ok(types)
}

// A type behind others.
fn push_type(
    alloc: Global,
    types: &mut TypeDefs,
    name: &[u8],
    kind: TypeKind,
) -> Result<(), AllocError>
    ensures { OnOk result (types.new ≡ types.old ++ record { name = name.now; kind = kind } ∷ []) }
{
    let name = Bytes::from_slice(alloc, name)?;
    types.push(TypeDef { name, kind })
}

// An enum whose numbers take a byte.
fn enum_of(values: ValueDefs) -> TypeKind
    ensures { result ≡ Enum UInt8 values }
{
    TypeKind::Enum {
        prim: Primitive::UInt8,
        values,
    }
}

// A listed value behind others.
fn push_value(
    alloc: Global,
    values: &mut ValueDefs,
    name: &[u8],
    number: u8,
) -> Result<(), AllocError>
    ensures { OnOk result (values.new ≡ values.old ++ listed name.now number ∷ []) }
{
    let name = Bytes::from_slice(alloc, name)?;
    values.push(ValueDef {
        name,
        value: number as i128,
    })
}

fn sides(alloc: Global) -> Result<ValueDefs, AllocError>
    ensures { IfOk result (λ values. values ≡ sides) }
{
    let mut values = ValueDefs::new(alloc);
    push_value(alloc, &mut values, b"Buy", 1)?;
    push_value(alloc, &mut values, b"Sell", 2)?;
    Ok(values)
}

fn kinds(alloc: Global) -> Result<ValueDefs, AllocError>
    ensures { IfOk result (λ values. values ≡ kinds) }
{
    let mut values = ValueDefs::new(alloc);
    push_value(alloc, &mut values, b"Accepted", 1)?;
    push_value(alloc, &mut values, b"Filled", 2)?;
    push_value(alloc, &mut values, b"Expired", 3)?;
    push_value(alloc, &mut values, b"Rejected", 4)?;
    Ok(values)
}

// Eight characters.
fn symbol_kind() -> TypeKind
    ensures { result ≡ Number Char 8 None None None }
{
    TypeKind::Number {
        prim: Primitive::Char,
        length: 8,
        null: None,
        min: None,
        max: None,
    }
}

// A mantissa that is written, and an exponent that is not.
fn price_kind(alloc: Global) -> Result<TypeKind, AllocError>
    ensures { IfOk result (λ kind. kind ≡ Composite price_members) }
{
    let mut members = MemberDefs::new(alloc);
    push_member(alloc, &mut members, b"mantissa", b"int64", None)?;
    push_member(alloc, &mut members, b"exponent", b"int8", Some(-4))?;
    Ok(TypeKind::Composite { members })
}

fn presence_by(value: Option<i8>) -> Presence
    ensures { result ≡ presence_by value }
{
    match value {
        None => Presence::Required,
        Some(_) => Presence::Constant,
    }
}

fn constant(value: Option<i8>) -> Option<Constant>
    ensures { result ≡ option_map Num value }
{
    match value {
        None => None,
        Some(number) => Some(Constant::Num(number as i128)),
    }
}

// A member behind others: a constant where it has a value.
fn push_member(
    alloc: Global,
    members: &mut MemberDefs,
    name: &[u8],
    type_name: &[u8],
    value: Option<i8>,
) -> Result<(), AllocError>
    ensures { OnOk result (members.new ≡ members.old ++ member name.now type_name.now value ∷ []) }
{
    let name = Bytes::from_slice(alloc, name)?;
    let type_name = Bytes::from_slice(alloc, type_name)?;
    members.push(MemberDef {
        name,
        type_name,
        offset: None,
        presence: presence_by(value),
        value: constant(value),
    })
}
