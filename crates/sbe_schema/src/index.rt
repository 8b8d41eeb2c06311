//! The types of a schema by their names: what each name stands for, and how many bytes it takes.

ghost use Rattle.std.specs.Prelude.{◌≡◌, Some, None, IfOk, OnOk, ◌-◌, ◌^◌, min, pos};
ghost use Rattle.sbe_schema.specs.Meanings.{meaning_of, meaning_of_kind};
ghost use Rattle.sbe_schema.specs.Offsets.{plus, simple_size, taken, offset_of, member_end, members_end, size_of_kind, type_size, field_end, fields_end, block_length_of};
ghost use Rattle.sbe_schema.specs.Indexed.{Indexes, Holds, meaning_in};

use crate::{FieldDef, Meaning, MemberDef, Presence, Schema, TypeDef, TypeKind};
use sbe_prim::{find_primitive, size};
use sbe_value::Bytes;
use std::alloc::{AllocError, Global};
use std::collections::BTreeMap;

/// The types of a schema by their names.
#[derive(Drop)]
pub struct Index<'a> {
    /// The schema.
    pub schema: &'a Schema,
    /// What the first type of each name stands for.
    pub meanings: BTreeMap<Bytes, Meaning>,
    /// Its size in bytes.
    pub sizes: BTreeMap<Bytes, u128>,
}

impl<'a> Index<'a> {
    /// The index of a schema.
    pub fn new(alloc: Global, schema: &'a Schema) -> Result<Index<'a>, AllocError>
        ensures schema { IfOk result (λ index. index.schema.now ≡ schema.now) }
        ensures whole { IfOk result Indexes }
    {
        let types = schema.types.as_slice();
        let meanings = meanings_of(alloc, types)?;
        let sizes = sizes_of(alloc, &meanings, types)?;
        Ok(Index {
            schema,
            meanings,
            sizes,
        })
    }

    /// What a name stands for.
    pub fn meaning(&self, name: &Bytes) -> Meaning
        requires { Indexes self.now }
        ensures { result ≡ meaning_of self.now.schema.now.types name.now }
    {
        look_up(&self.meanings, name)
    }

    /// How many bytes the type of a name takes; 0 where there is none.
    pub fn size(&self, name: &Bytes) -> u128
        requires { Indexes self.now }
        ensures { result ≡ type_size self.now.schema.now.types name.now }
    {
        match find_primitive(name.as_slice()) {
            Some(p) => size(p) as u128,
            None => self.sizes.get(name).copied().unwrap_or(0),
        }
    }

    /// Where a member ends whose predecessor ends there.
    pub fn member_end(&self, end: u128, member: &MemberDef) -> u128
        requires { Indexes self.now }
        ensures { result ≡ member_end self.now.schema.now.types end member.now }
    {
        let size = simple_size(self.meaning(&member.type_name));
        plus(offset_of(end, member.offset), taken(member.presence, size))
    }

    /// Where a field ends whose predecessor ends there.
    pub fn field_end(&self, end: u128, field: &FieldDef) -> u128
        requires { Indexes self.now }
        ensures { result ≡ field_end self.now.schema.now.types end field.now }
    {
        let size = self.size(&field.type_name);
        plus(offset_of(end, field.offset), taken(field.presence, size))
    }

    /// Where the last field of a block ends.
    pub fn fields_end(&self, fields: &[FieldDef]) -> u128
        requires { Indexes self.now }
        ensures { result ≡ fields_end self.now.schema.now.types 0 fields.now }
    {
        let mut end = 0u128;
        for field in fields {
            end = self.field_end(end, field);
        }
        end
    }

    /// The length of a block: the stated one, or the end of its last field.
    pub fn block_length(&self, stated: Option<i128>, fields: &[FieldDef]) -> u128
        requires { Indexes self.now }
        ensures { result ≡ block_length_of self.now.schema.now.types stated fields.now }
    {
        offset_of(self.fields_end(fields), stated)
    }
}

fn look_up(meanings: &BTreeMap<Bytes, Meaning>, name: &Bytes) -> Meaning
    ensures { result ≡ meaning_in meanings.now name.now }
{
    match find_primitive(name.as_slice()) {
        Some(prim) => Meaning::Number { prim, length: 1 },
        None => meanings.get(name).copied().unwrap_or(Meaning::Unknown),
    }
}

// From the last type to the first, so that the first of a name stays.
fn meanings_of(alloc: Global, types: &[TypeDef]) -> Result<BTreeMap<Bytes, Meaning>, AllocError>
    ensures { IfOk result (λ map. Holds map meaning_of_kind types.now) }
{
    let mut map = BTreeMap::new(alloc);
    let mut i = types.len();
    while i > 0 {
        i -= 1;
        let t = &types[i];
        map.insert(t.name.copy(alloc)?, meaning_of_kind(&t.kind))?;
    }
    Ok(map)
}

fn sizes_of(
    alloc: Global,
    meanings: &BTreeMap<Bytes, Meaning>,
    types: &[TypeDef],
) -> Result<BTreeMap<Bytes, u128>, AllocError>
    requires { Holds meanings.now meaning_of_kind types.now }
    ensures { IfOk result (λ map. Holds map (size_of_kind types.now) types.now) }
{
    let mut map = BTreeMap::new(alloc);
    let mut i = types.len();
    while i > 0 {
        i -= 1;
        let t = &types[i];
        map.insert(t.name.copy(alloc)?, size_of_kind(meanings, types, &t.kind))?;
    }
    Ok(map)
}

fn meaning_of_kind(kind: &TypeKind) -> Meaning
    ensures { result ≡ meaning_of_kind kind.now }
{
    match kind {
        TypeKind::Number { prim, length, .. } => Meaning::Number {
            prim: *prim,
            length: *length,
        },
        TypeKind::Enum { prim, .. } | TypeKind::Set { prim, .. } => Meaning::Code { prim: *prim },
        TypeKind::Composite { .. } => Meaning::Composite,
    }
}

fn size_of_kind(meanings: &BTreeMap<Bytes, Meaning>, types: &[TypeDef], kind: &TypeKind) -> u128
    requires { Holds meanings.now meaning_of_kind types.now }
    ensures { result ≡ size_of_kind types.now kind.now }
{
    match kind {
        TypeKind::Number { prim, length, .. } => simple_size(Meaning::Number {
            prim: *prim,
            length: *length,
        }),
        TypeKind::Enum { prim, .. } | TypeKind::Set { prim, .. } => size(*prim) as u128,
        TypeKind::Composite { members } => members_end(meanings, types, members.as_slice()),
    }
}

fn members_end(
    meanings: &BTreeMap<Bytes, Meaning>,
    types: &[TypeDef],
    members: &[MemberDef],
) -> u128
    requires { Holds meanings.now meaning_of_kind types.now }
    ensures { result ≡ members_end types.now 0 members.now }
{
    let mut end = 0u128;
    for member in members {
        end = member_end(meanings, types, end, member);
    }
    end
}

fn member_end(
    meanings: &BTreeMap<Bytes, Meaning>,
    _types: &[TypeDef],
    end: u128,
    member: &MemberDef,
) -> u128
    requires { Holds meanings.now meaning_of_kind _types.now }
    ensures { result ≡ member_end _types.now end member.now }
{
    let size = simple_size(look_up(meanings, &member.type_name));
    plus(offset_of(end, member.offset), taken(member.presence, size))
}

/// The bytes of a number, an enum or a set.
pub fn simple_size(meaning: Meaning) -> u128
    ensures { result ≡ simple_size meaning }
{
    match meaning {
        Meaning::Unknown | Meaning::Composite => 0,
        Meaning::Number { prim, length } => size(prim) as u128 * length.max(1) as u128,
        Meaning::Code { prim } => size(prim) as u128,
    }
}

/// A sum that ends at the greatest number of 128 bits.
pub fn plus(a: u128, b: u128) -> u128
    ensures { result ≡ plus a b }
{
    a.saturating_add(b)
}

/// A constant takes no bytes.
pub fn taken(presence: Presence, size: u128) -> u128
    ensures { result ≡ taken presence size }
{
    match presence {
        Presence::Required | Presence::Optional => size,
        Presence::Constant => 0,
    }
}

/// Where something stands: at the stated offset, or at the end of what stands before it.
pub fn offset_of(end: u128, stated: Option<i128>) -> u128
    ensures { result ≡ offset_of end stated }
{
    match stated {
        None => end,
        Some(z) if z < 0 => 0,
        Some(z) => z as u128,
    }
}
