//! What the names of a schema's types stand for, and the parts of its composites.

ghost use Rattle.std.specs.Prelude.{◌≡◌, ◌+◌, ◌++◌, Some, IfOk, OnOk, slice_get};
ghost use Rattle.sbe_schema.specs.Indexed.{Indexes};
ghost use Rattle.sbe_layout.specs.Plans.{resolved_kind, resolved, members_of};
ghost use Rattle.sbe_layout.specs.Parts.{part_of, parts_of, parts_of_types};
ghost use Rattle.sbe_layout.specs.Context.{Resolves, Knows, resolved_in};

use crate::items::ItemKind;
use crate::parts::{Part, Parts};
use sbe_prim::find_primitive;
use sbe_schema::{Index, MemberDef, Presence, Schema, TypeDef, TypeKind, offset_of};
use sbe_value::Bytes;
use std::alloc::{AllocError, Global};
use std::collections::BTreeMap;

/// What a name stands for.
#[derive(Clone, Copy)]
pub enum Resolved {
    /// The type of an item.
    Simple(ItemKind),
    /// The members of the composite at a place among the types.
    Members(u64),
}

/// The types of a schema.
#[derive(Drop)]
pub struct Types<'a> {
    /// Their meanings and sizes.
    pub index: Index<'a>,
    /// What their names stand for.
    pub names: BTreeMap<Bytes, Resolved>,
    /// The parts of each, in order.
    pub parts: Vec<Parts>,
}

impl<'a> Types<'a> {
    /// The types of a schema.
    pub fn new(alloc: Global, schema: &'a Schema) -> Result<Types<'a>, AllocError>
        ensures schema { IfOk result (λ types. types.index.schema.now ≡ schema.now) }
        ensures whole { IfOk result Knows }
    {
        let index = Index::new(alloc, schema)?;
        let names = names_of(alloc, index.schema.types.as_slice())?;
        let parts = parts_of_types(alloc, &index, &names)?;
        Ok(Types {
            index,
            names,
            parts,
        })
    }

    /// What a name stands for, if anything.
    pub fn resolve(&self, name: &Bytes) -> Option<Resolved>
        requires { Knows self.now }
        ensures { result ≡ resolved self.now.index.schema.now.types name.now }
    {
        look_up(&self.names, name)
    }

    /// The parts of the composite at a place, if one is there.
    pub fn parts_at(&self, at: u64) -> &[Part]
        requires { Knows self.now }
        ensures { result.now
            ≡ parts_of self.now.index.schema.now.types 0 (members_of (slice_get self.now.index.schema.now.types at)) }
    {
        match self.parts.get(at as usize) {
            None => &[],
            Some(parts) => parts.as_slice(),
        }
    }
}

// What a name stands for by the map of the names.
fn look_up(names: &BTreeMap<Bytes, Resolved>, name: &Bytes) -> Option<Resolved>
    ensures { result ≡ resolved_in names.now name.now }
{
    match find_primitive(name.as_slice()) {
        Some(prim) => Some(Resolved::Simple(ItemKind::Number {
            prim,
            length: 1,
            null: None,
            min: None,
            max: None,
        })),
        None => names.get(name).copied(),
    }
}

// The parts of each type, in order: each member is resolved here, and nowhere else.
fn parts_of_types(
    alloc: Global,
    index: &Index<'_>,
    names: &BTreeMap<Bytes, Resolved>,
) -> Result<Vec<Parts>, AllocError>
    requires indexed { Indexes index.now }
    requires resolves { Resolves names.now 0 index.now.schema.now.types }
    ensures { IfOk result (λ lists. lists.items
        ≡ parts_of_types index.now.schema.now.types index.now.schema.now.types) }
{
    let mut lists = Vec::new(alloc);
    for t in index.schema.types.as_slice() {
        let parts = parts_of(alloc, index, names, members_of(t))?;
        lists.push(Parts::from(parts))?;
    }
    Ok(lists)
}

// The parts of the members of a composite.
fn parts_of(
    alloc: Global,
    index: &Index<'_>,
    names: &BTreeMap<Bytes, Resolved>,
    members: &[MemberDef],
) -> Result<Vec<Part>, AllocError>
    requires indexed { Indexes index.now }
    requires resolves { Resolves names.now 0 index.now.schema.now.types }
    ensures { IfOk result (λ parts. parts.items ≡ parts_of index.now.schema.now.types 0 members.now) }
{
    let mut parts = Vec::new(alloc);
    let mut end = 0u128;
    for m in members {
        add_part(alloc, index, names, end, m, &mut parts)?;
        end = index.member_end(end, m);
    }
    Ok(parts)
}

// Adds the part of a member, the member before ending at `end`.
fn add_part(
    alloc: Global,
    index: &Index<'_>,
    names: &BTreeMap<Bytes, Resolved>,
    end: u128,
    m: &MemberDef,
    parts: &mut Vec<Part>,
) -> Result<(), AllocError>
    requires indexed { Indexes index.now }
    requires resolves { Resolves names.now 0 index.now.schema.now.types }
    ensures { OnOk result (parts.new.items
        ≡ parts.old.items ++ part_of index.now.schema.now.types end m.now (resolved index.now.schema.now.types m.now.type_name)) }
{
    let Some(Resolved::Simple(kind)) = look_up(names, &m.type_name) else {
        return Ok(());
    };
    if matches!(m.presence, Presence::Constant) {
        return Ok(());
    }
    let name = m.name.copy(alloc)?;
    parts.push(Part {
        name,
        place: offset_of(end, m.offset),
        size: index.size(&m.type_name),
        presence: m.presence,
        kind,
    })?;
    Ok(())
}

fn members_of(t: &TypeDef) -> &[MemberDef]
    ensures { result.now ≡ members_of (Some t.now) }
{
    match &t.kind {
        TypeKind::Composite { members } => members.as_slice(),
        _ => &[],
    }
}

// From the last type to the first, so that the first of a name stays.
fn names_of(alloc: Global, types: &[TypeDef]) -> Result<BTreeMap<Bytes, Resolved>, AllocError>
    ensures { IfOk result (λ map. Resolves map 0 types.now) }
{
    let mut map = BTreeMap::new(alloc);
    let mut i = types.len();
    while i > 0 {
        i -= 1;
        let t = &types[i];
        map.insert(t.name.copy(alloc)?, resolved_kind(i as u64, &t.kind))?;
    }
    Ok(map)
}

fn resolved_kind(at: u64, kind: &TypeKind) -> Resolved
    ensures { result ≡ resolved_kind at kind.now }
{
    match kind {
        TypeKind::Number {
            prim,
            length,
            null,
            min,
            max,
        } => Resolved::Simple(ItemKind::Number {
            prim: *prim,
            length: *length,
            null: *null,
            min: *min,
            max: *max,
        }),
        TypeKind::Enum { prim, .. } => Resolved::Simple(ItemKind::Enum { prim: *prim, at }),
        TypeKind::Set { prim, .. } => Resolved::Simple(ItemKind::Set { prim: *prim, at }),
        TypeKind::Composite { .. } => Resolved::Members(at),
    }
}
