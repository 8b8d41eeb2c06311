//! The walk over the tables of a schema: types before messages, a table before what lies in it.

ghost use Rattle.std.specs.Prelude.{◌≡◌, [], pos, OnOk};
ghost use Rattle.std.specs.FinSet as set;
ghost use Rattle.sbe_schema.specs.Indexed.{Indexes};
ghost use Rattle.sbe_schema.specs.Search.{folded};
ghost use Rattle.schema_types.specs.Views.{groups_of};
ghost use Rattle.sbe_schema.specs.Walk.{walk_values, walk_bits, walk_members, walk_kind, walk_type, walk_types, walk_fields, walk_data, walk_groups, walk_group, walk_block, walk_message, walk_messages, names_of_fields, names_of_groups, ids_of_fields, ids_of_data, ids_of_groups, ids_of_block, lowest_since, lower};

use crate::fault::{PathStep, TableArray};
use crate::index::Index;
use crate::parent::Parent;
use crate::rules::{
    rule_of_bit, rule_of_data, rule_of_field, rule_of_group, rule_of_member, rule_of_message,
    rule_of_type, rule_of_value,
};
use crate::sets::{NameSet, NumberSet};
use crate::state::{State, note};
use crate::{
    BitDef, DataDef, FieldDef, GroupDef, MemberDef, MessageDef, TypeDef, TypeKind, ValueDef,
};
use sbe_prim::Primitive;
use std::alloc::AllocError;

/// Walks over the fields of a block, and adds their names and ids to those before them.
pub fn walk_fields(
    index: &Index<'_>,
    state: &mut State,
    names: &mut NameSet,
    since: i128,
    fields: &[FieldDef],
) -> Result<(), AllocError>
    requires { Indexes index.now }
    ensures fault { OnOk result (state.new.fault
        ≡ folded index.now.schema.now state.old.fault (walk_fields index.now.schema.now.types state.old.parent_path.items names.old state.old.ids since 0 0 fields.now)) }
    ensures names { OnOk result (names.new ≡ names_of_fields names.old fields.now) }
    ensures ids { OnOk result (state.new.ids ≡ ids_of_fields state.old.ids fields.now) }
    ensures parent_path { OnOk result (state.new.parent_path.items ≡ state.old.parent_path.items) }
{
    let mut least_since = since;
    let mut end = 0u128;
    for (at, f) in fields.iter().enumerate() {
        let rule = rule_of_field(index, names, &state.ids, least_since, end, f);
        let path_step = PathStep {
            array: TableArray::Fields,
            at: at as u64,
        };
        note(state, rule, path_step)?;
        names.insert(state.alloc, &f.name)?;
        state.ids.insert(i128::from(f.id))?;
        least_since = least_since.max(f.since);
        end = index.field_end(end, f);
    }
    Ok(())
}

/// Walks over the data of a block.
pub fn walk_data(
    index: &Index<'_>,
    state: &mut State,
    names: &mut NameSet,
    parent: &Parent,
    vars: &[DataDef],
) -> Result<(), AllocError>
    ensures fault { OnOk result (state.new.fault
        ≡ folded index.now.schema.now state.old.fault (walk_data state.old.parent_path.items parent.now names.old state.old.ids parent.now.since 0 vars.now)) }
    ensures ids { OnOk result (state.new.ids ≡ ids_of_data state.old.ids vars.now) }
    ensures parent_path { OnOk result (state.new.parent_path.items ≡ state.old.parent_path.items) }
{
    let mut least_since = parent.since;
    for (at, d) in vars.iter().enumerate() {
        let rule = rule_of_data(index, names, &state.ids, parent, least_since, d);
        let path_step = PathStep {
            array: TableArray::Data,
            at: at as u64,
        };
        note(state, rule, path_step)?;
        names.insert(state.alloc, &d.name)?;
        state.ids.insert(i128::from(d.id))?;
        least_since = least_since.max(d.since);
    }
    Ok(())
}

/// Walks over the elements of a block: its fields, then its groups, then its data.
#[cycle(blocks)]
#[tactic(auto, using(crate::proofs::Fold::folded_append))]
pub fn walk_block(
    index: &Index<'_>,
    state: &mut State,
    parent: &Parent,
    fields: &[FieldDef],
    groups: &[GroupDef],
    vars: &[DataDef],
) -> Result<(), AllocError>
    requires { Indexes index.now }
    ensures fault { OnOk result (state.new.fault
        ≡ folded index.now.schema.now state.old.fault (walk_block index.now.schema.now.types state.old.parent_path.items parent.now state.old.ids fields.now (groups_of groups.now) vars.now)) }
    ensures ids { OnOk result (state.new.ids ≡ ids_of_block state.old.ids fields.now (groups_of groups.now) vars.now) }
    ensures parent_path { OnOk result (state.new.parent_path.items ≡ state.old.parent_path.items) }
{
    let mut names = NameSet::new(state.alloc);
    walk_fields(index, state, &mut names, parent.since, fields)?;
    walk_groups(index, state, &mut names, parent, groups)?;
    walk_data(index, state, &mut names, parent, vars)?;
    Ok(())
}

/// Walks over the groups of a block and all that lies in them.
#[cycle(blocks)]
pub fn walk_groups(
    index: &Index<'_>,
    state: &mut State,
    names: &mut NameSet,
    parent: &Parent,
    groups: &[GroupDef],
) -> Result<(), AllocError>
    requires { Indexes index.now }
    ensures fault { OnOk result (state.new.fault
        ≡ folded index.now.schema.now state.old.fault (walk_groups index.now.schema.now.types state.old.parent_path.items parent.now names.old state.old.ids parent.now.since 0 (groups_of groups.now))) }
    ensures names { OnOk result (names.new ≡ names_of_groups names.old (groups_of groups.now)) }
    ensures ids { OnOk result (state.new.ids ≡ ids_of_groups state.old.ids (groups_of groups.now)) }
    ensures parent_path { OnOk result (state.new.parent_path.items ≡ state.old.parent_path.items) }
{
    let mut least_since = parent.since;
    for (at, g) in groups.iter().enumerate() {
        let path_step = PathStep {
            array: TableArray::Groups,
            at: at as u64,
        };
        walk_group(index, state, names, parent, least_since, path_step, g)?;
        least_since = least_since.max(g.since);
    }
    Ok(())
}

// Walks over one group and the elements of its entries.
#[cycle(blocks)]
fn walk_group(
    index: &Index<'_>,
    state: &mut State,
    names: &mut NameSet,
    parent: &Parent,
    least_since: i128,
    path_step: PathStep,
    g: &GroupDef,
) -> Result<(), AllocError>
    requires index { Indexes index.now }
    requires array { path_step.array ≡ TableArray.Groups }
    ensures fault { OnOk result (state.new.fault
        ≡ folded index.now.schema.now state.old.fault (walk_group index.now.schema.now.types state.old.parent_path.items parent.now names.old state.old.ids least_since path_step.at g.now)) }
    ensures names { OnOk result (names.new ≡ set.insert names.old g.now.name) }
    ensures ids { OnOk result (state.new.ids ≡ ids_of_block (set.insert state.old.ids (pos g.now.id)) g.now.fields g.now.groups g.now.vars) }
    ensures parent_path { OnOk result (state.new.parent_path.items ≡ state.old.parent_path.items) }
{
    let rule = rule_of_group(index, names, &state.ids, parent, least_since, g);
    note(state, rule, path_step)?;
    names.insert(state.alloc, &g.name)?;
    state.ids.insert(i128::from(g.id))?;
    state.parent_path.push(path_step)?;
    let entry = Parent {
        depth: (parent.depth.min(3)) + 1,
        since: g.since,
        lowest: None,
    };
    walk_block(
        index,
        state,
        &entry,
        g.fields.as_slice(),
        g.groups.as_slice(),
        g.vars.as_slice(),
    )?;
    let _path_step = state.parent_path.pop();
    Ok(())
}

// The lowest since of a block's data.
fn lowest_since(vars: &[DataDef]) -> Option<i128>
    ensures { result ≡ lowest_since vars.now }
{
    let mut lowest = None;
    let mut i = vars.len();
    while i > 0 {
        i -= 1;
        let since = vars[i].since;
        lowest = Some(lower(since, lowest));
    }
    lowest
}

fn lower(since: i128, other: Option<i128>) -> i128
    ensures { result ≡ lower since other }
{
    match other {
        None => since,
        Some(other) => since.min(other),
    }
}

/// Walks over the messages of a schema and all that lies in them.
pub fn walk_messages(
    index: &Index<'_>,
    state: &mut State,
    messages: &[MessageDef],
) -> Result<(), AllocError>
    requires index { Indexes index.now }
    requires top { state.old.parent_path.items ≡ [] }
    ensures { OnOk result (state.new.fault
        ≡ folded index.now.schema.now state.old.fault (walk_messages index.now.schema.now.types set.empty set.empty 0 messages.now)) }
{
    let mut names = NameSet::new(state.alloc);
    let mut ids = NumberSet::new(state.alloc);
    for (at, m) in messages.iter().enumerate() {
        let path_step = PathStep {
            array: TableArray::Messages,
            at: at as u64,
        };
        walk_message(index, state, &mut names, &mut ids, path_step, m)?;
    }
    Ok(())
}

// Walks over a message and its elements.
fn walk_message(
    index: &Index<'_>,
    state: &mut State,
    names: &mut NameSet,
    ids: &mut NumberSet,
    path_step: PathStep,
    m: &MessageDef,
) -> Result<(), AllocError>
    requires index { Indexes index.now }
    requires array { path_step.array ≡ TableArray.Messages }
    requires top { state.old.parent_path.items ≡ [] }
    ensures fault { OnOk result (state.new.fault
        ≡ folded index.now.schema.now state.old.fault (walk_message index.now.schema.now.types names.old ids.old path_step.at m.now)) }
    ensures names { OnOk result (names.new ≡ set.insert names.old m.now.name) }
    ensures ids { OnOk result (ids.new ≡ set.insert ids.old (pos m.now.id)) }
    ensures parent_path { OnOk result (state.new.parent_path.items ≡ []) }
{
    let rule = rule_of_message(index, names, ids, m);
    note(state, rule, path_step)?;
    names.insert(state.alloc, &m.name)?;
    ids.insert(i128::from(m.id))?;
    state.ids = NumberSet::new(state.alloc);
    state.parent_path.push(path_step)?;
    let root = Parent {
        depth: 0,
        since: m.since,
        lowest: lowest_since(m.vars.as_slice()),
    };
    walk_block(
        index,
        state,
        &root,
        m.fields.as_slice(),
        m.groups.as_slice(),
        m.vars.as_slice(),
    )?;
    let _path_step = state.parent_path.pop();
    Ok(())
}

/// Walks over the types of a schema and all that lies in them.
pub fn walk_types(index: &Index<'_>, state: &mut State, types: &[TypeDef]) -> Result<(), AllocError>
    requires index { Indexes index.now }
    requires top { state.old.parent_path.items ≡ [] }
    ensures fault { OnOk result (state.new.fault
        ≡ folded index.now.schema.now state.old.fault (walk_types index.now.schema.now.types set.empty 0 types.now)) }
    ensures parent_path { OnOk result (state.new.parent_path.items ≡ []) }
{
    let mut names = NameSet::new(state.alloc);
    for (at, t) in types.iter().enumerate() {
        let path_step = PathStep {
            array: TableArray::Types,
            at: at as u64,
        };
        walk_type(index, state, &mut names, path_step, t)?;
    }
    Ok(())
}

// Walks over a type and what lies in it.
fn walk_type(
    index: &Index<'_>,
    state: &mut State,
    names: &mut NameSet,
    path_step: PathStep,
    t: &TypeDef,
) -> Result<(), AllocError>
    requires index { Indexes index.now }
    requires array { path_step.array ≡ TableArray.Types }
    requires top { state.old.parent_path.items ≡ [] }
    ensures fault { OnOk result (state.new.fault
        ≡ folded index.now.schema.now state.old.fault (walk_type index.now.schema.now.types names.old path_step.at t.now)) }
    ensures names { OnOk result (names.new ≡ set.insert names.old t.now.name) }
    ensures parent_path { OnOk result (state.new.parent_path.items ≡ []) }
{
    let rule = rule_of_type(index.schema, names, t);
    note(state, rule, path_step)?;
    names.insert(state.alloc, &t.name)?;
    state.parent_path.push(path_step)?;
    walk_kind(index, state, &t.kind)?;
    let _path_step = state.parent_path.pop();
    Ok(())
}

// Walks over what lies in a type.
fn walk_kind(index: &Index<'_>, state: &mut State, kind: &TypeKind) -> Result<(), AllocError>
    requires { Indexes index.now }
    ensures fault { OnOk result (state.new.fault
        ≡ folded index.now.schema.now state.old.fault (walk_kind index.now.schema.now.types state.old.parent_path.items kind.now)) }
    ensures parent_path { OnOk result (state.new.parent_path.items ≡ state.old.parent_path.items) }
{
    match kind {
        TypeKind::Number { .. } => Ok(()),
        TypeKind::Enum { prim, values } => walk_values(index, state, *prim, values.as_slice()),
        TypeKind::Set { prim, bits } => walk_bits(index, state, *prim, bits.as_slice()),
        TypeKind::Composite { members } => walk_members(index, state, members.as_slice()),
    }
}

// Walks over the values of an enum.
fn walk_values(
    index: &Index<'_>,
    state: &mut State,
    prim: Primitive,
    values: &[ValueDef],
) -> Result<(), AllocError>
    ensures fault { OnOk result (state.new.fault
        ≡ folded index.now.schema.now state.old.fault (walk_values state.old.parent_path.items prim set.empty set.empty 0 values.now)) }
    ensures parent_path { OnOk result (state.new.parent_path.items ≡ state.old.parent_path.items) }
{
    let mut names = NameSet::new(state.alloc);
    let mut numbers = NumberSet::new(state.alloc);
    for (at, v) in values.iter().enumerate() {
        let rule = rule_of_value(index.schema, &names, &numbers, prim, v);
        let path_step = PathStep {
            array: TableArray::Values,
            at: at as u64,
        };
        note(state, rule, path_step)?;
        names.insert(state.alloc, &v.name)?;
        numbers.insert(v.value)?;
    }
    Ok(())
}

// Walks over the bits of a set.
fn walk_bits(
    index: &Index<'_>,
    state: &mut State,
    prim: Primitive,
    bits: &[BitDef],
) -> Result<(), AllocError>
    ensures fault { OnOk result (state.new.fault
        ≡ folded index.now.schema.now state.old.fault (walk_bits state.old.parent_path.items prim set.empty set.empty 0 bits.now)) }
    ensures parent_path { OnOk result (state.new.parent_path.items ≡ state.old.parent_path.items) }
{
    let mut names = NameSet::new(state.alloc);
    let mut numbers = NumberSet::new(state.alloc);
    for (at, b) in bits.iter().enumerate() {
        let rule = rule_of_bit(index.schema, &names, &numbers, prim, b);
        let path_step = PathStep {
            array: TableArray::Bits,
            at: at as u64,
        };
        note(state, rule, path_step)?;
        names.insert(state.alloc, &b.name)?;
        numbers.insert(i128::from(b.bit))?;
    }
    Ok(())
}

// Walks over the members of a composite.
fn walk_members(
    index: &Index<'_>,
    state: &mut State,
    members: &[MemberDef],
) -> Result<(), AllocError>
    requires { Indexes index.now }
    ensures fault { OnOk result (state.new.fault
        ≡ folded index.now.schema.now state.old.fault (walk_members index.now.schema.now.types state.old.parent_path.items set.empty 0 0 members.now)) }
    ensures parent_path { OnOk result (state.new.parent_path.items ≡ state.old.parent_path.items) }
{
    let mut names = NameSet::new(state.alloc);
    let mut end = 0u128;
    for (at, m) in members.iter().enumerate() {
        let rule = rule_of_member(index, &names, end, m);
        let path_step = PathStep {
            array: TableArray::Members,
            at: at as u64,
        };
        note(state, rule, path_step)?;
        names.insert(state.alloc, &m.name)?;
        end = index.member_end(end, m);
    }
    Ok(())
}
