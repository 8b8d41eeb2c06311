//! Whether one schema is a later version of another, and where they differ first.

ghost use Rattle.std.specs.Prelude.{◌≡◌, ◌+◌, ◌<◌, ◌^◌, Some, [], length, IfOk, OnOk, IfErr};
ghost use Rattle.schema_types.specs.Views.{groups_of, head_of};
ghost use Rattle.sbe_skew.specs.Extends.{Extends, Explains, difference_of, first_difference, first_other, other_messages, other_parts, other_groups, other_fields, other_data, or_else, under, same_field, same_head, same_template, same_datum};

use crate::fault::SkewFault;
use crate::projecting::project_schema;
use crate::same_types::is_same_type;
use sbe_schema::{
    Checked, DataDef, FieldDef, GroupDef, MessageDef, Schema, TableArray, TypeDef, array_key,
};
use sbe_value::{Bytes, Path, Step};
use std::alloc::{AllocError, Global};

/// Whether `new` is a later version of the schema `old`, or the same: their id and byte order agree, the version of
/// `old` is at most that of `new`, and the projection of `new` to it has the elements of `old`, stated block lengths
/// aside and types by what they stand for. A refusal tells the place of the first difference: the whole where id or
/// byte order differ; else the first element of `old`, or else of the projection, that the other has not in its place.
/// Where the version of `old` is the greater, the two themselves are compared.
pub fn extends(alloc: Global, new: &Checked, old: &Checked) -> Result<(), SkewFault>
    ensures ok { OnOk result (Extends new.now.schema old.now.schema) }
    ensures cause { IfErr result (Explains new.now.schema old.now.schema) }
{
    match find_difference(alloc, &new.schema, &old.schema) {
        Err(_) => Err(SkewFault::Memory),
        Ok(None) => Ok(()),
        Ok(Some(path)) => Err(SkewFault::Differs { path }),
    }
}

fn find_difference(alloc: Global, new: &Schema, old: &Schema) -> Result<Option<Path>, AllocError>
    ensures { IfOk result (λ path. path ≡ difference_of new.now old.now) }
{
    if new.id != old.id || new.order != old.order {
        return Ok(Some(Path::new(alloc)));
    }
    if old.version <= new.version {
        let projection = project_schema(alloc, new, old.version)?;
        first_difference(alloc, old, &projection)
    } else {
        match first_difference(alloc, old, new)? {
            Some(path) => Ok(Some(path)),
            None => Ok(Some(Path::new(alloc))),
        }
    }
}

fn first_difference(alloc: Global, a: &Schema, b: &Schema) -> Result<Option<Path>, AllocError>
    ensures { IfOk result (λ path. path ≡ first_difference a.now b.now) }
{
    match first_other(alloc, a, b)? {
        Some(path) => Ok(Some(path)),
        None => first_other(alloc, b, a),
    }
}

fn first_other(alloc: Global, a: &Schema, b: &Schema) -> Result<Option<Path>, AllocError>
    ensures { IfOk result (λ path. path ≡ first_other a.now b.now) }
{
    let types = Both {
        own: a.types.as_slice(),
        others: b.types.as_slice(),
    };
    other_messages(
        alloc,
        &types,
        0,
        a.messages.as_slice(),
        b.messages.as_slice(),
    )
}

/// The types of two schemas.
#[derive(Clone, Copy)]
struct Both<'a> {
    /// Those of the first.
    own: &'a [TypeDef],
    /// Those of the second.
    others: &'a [TypeDef],
}

// A place in a list, and a path behind it.
fn path_under(alloc: Global, part: TableArray, at: u64, path: Path) -> Result<Path, AllocError>
    ensures { IfOk result (λ whole. whole ≡ under part at path) }
{
    let key = Bytes::from_slice(alloc, array_key(part))?;
    let mut steps: Vec<Step> = path.into();
    steps.insert(0, Step::At(at))?;
    steps.insert(0, Step::Key(key))?;
    Ok(Path::from(steps))
}

// A place in a list.
fn path_at(alloc: Global, part: TableArray, at: u64) -> Result<Option<Path>, AllocError>
    ensures { IfOk result (λ path. path ≡ Some (under part at [])) }
{
    Ok(Some(path_under(alloc, part, at, Path::new(alloc))?))
}

fn other_messages(
    alloc: Global,
    types: &Both<'_>,
    at: u64,
    messages: &[MessageDef],
    others: &[MessageDef],
) -> Result<Option<Path>, AllocError>
    requires { at + length messages.now < 2 ^ 64 }
    ensures { IfOk result (λ path. path ≡ other_messages types.now.own.now types.now.others.now at messages.now others.now) }
{
    match (messages, others) {
        ([m, messages @ ..], [n, others @ ..]) => {
            if !is_same_template(m, n) {
                return path_at(alloc, TableArray::Messages, at);
            }
            match other_parts(alloc, types, m, n)? {
                Some(path) => Ok(Some(path_under(alloc, TableArray::Messages, at, path)?)),
                None => other_messages(alloc, types, at + 1, messages, others),
            }
        }
        ([_m, _messages @ ..], []) => path_at(alloc, TableArray::Messages, at),
        ([], _) => Ok(None),
    }
}

fn is_same_template(m: &MessageDef, n: &MessageDef) -> bool
    ensures { result ≡ same_template m.now n.now }
{
    m.name == n.name && m.id == n.id && m.since == n.since
}

fn other_parts(
    alloc: Global,
    types: &Both<'_>,
    m: &MessageDef,
    n: &MessageDef,
) -> Result<Option<Path>, AllocError>
    ensures { IfOk result (λ path. path ≡ other_parts types.now.own.now types.now.others.now m.now n.now) }
{
    let fields = other_fields(alloc, types, 0, m.fields.as_slice(), n.fields.as_slice())?;
    if let Some(path) = fields {
        return Ok(Some(path));
    }
    let groups = other_groups(alloc, types, 0, m.groups.as_slice(), n.groups.as_slice())?;
    if let Some(path) = groups {
        return Ok(Some(path));
    }
    other_data(alloc, 0, m.vars.as_slice(), n.vars.as_slice())
}

#[cycle(groups)]
fn other_groups(
    alloc: Global,
    types: &Both<'_>,
    at: u64,
    groups: &[GroupDef],
    others: &[GroupDef],
) -> Result<Option<Path>, AllocError>
    requires { at + length groups.now < 2 ^ 64 }
    ensures { IfOk result (λ path. path ≡ other_groups types.now.own.now types.now.others.now at (groups_of groups.now) (groups_of others.now)) }
{
    match (groups, others) {
        ([g, groups @ ..], [h, others @ ..]) => {
            if !is_same_head(g, h) {
                return path_at(alloc, TableArray::Groups, at);
            }
            match other_parts_of_group(alloc, types, g, h)? {
                Some(path) => Ok(Some(path_under(alloc, TableArray::Groups, at, path)?)),
                None => other_groups(alloc, types, at + 1, groups, others),
            }
        }
        ([_g, _groups @ ..], []) => path_at(alloc, TableArray::Groups, at),
        ([], _) => Ok(None),
    }
}

fn is_same_head(g: &GroupDef, h: &GroupDef) -> bool
    ensures { result ≡ same_head (head_of g.now) (head_of h.now) }
{
    g.name == h.name
        && g.id == h.id
        && g.block_prim == h.block_prim
        && g.count_prim == h.count_prim
        && g.since == h.since
}

#[cycle(groups)]
fn other_parts_of_group(
    alloc: Global,
    types: &Both<'_>,
    g: &GroupDef,
    h: &GroupDef,
) -> Result<Option<Path>, AllocError>
    ensures { IfOk result (λ path. path
        ≡ or_else (other_fields types.now.own.now types.now.others.now 0 g.now.fields h.now.fields)
        (or_else (other_groups types.now.own.now types.now.others.now 0 g.now.groups h.now.groups) (other_data 0 g.now.vars h.now.vars))) }
{
    let fields = other_fields(alloc, types, 0, g.fields.as_slice(), h.fields.as_slice())?;
    if let Some(path) = fields {
        return Ok(Some(path));
    }
    let groups = other_groups(alloc, types, 0, g.groups.as_slice(), h.groups.as_slice())?;
    if let Some(path) = groups {
        return Ok(Some(path));
    }
    other_data(alloc, 0, g.vars.as_slice(), h.vars.as_slice())
}

fn other_fields(
    alloc: Global,
    types: &Both<'_>,
    at: u64,
    fields: &[FieldDef],
    others: &[FieldDef],
) -> Result<Option<Path>, AllocError>
    requires { at + length fields.now < 2 ^ 64 }
    ensures { IfOk result (λ path. path ≡ other_fields types.now.own.now types.now.others.now at fields.now others.now) }
{
    match (fields, others) {
        ([f, fields @ ..], [g, others @ ..]) => {
            if is_same_field(types, f, g) {
                other_fields(alloc, types, at + 1, fields, others)
            } else {
                path_at(alloc, TableArray::Fields, at)
            }
        }
        ([_f, _fields @ ..], []) => path_at(alloc, TableArray::Fields, at),
        ([], _) => Ok(None),
    }
}

fn is_same_field(types: &Both<'_>, f: &FieldDef, g: &FieldDef) -> bool
    ensures { result ≡ same_field types.now.own.now types.now.others.now f.now g.now }
{
    f.name == g.name
        && f.id == g.id
        && f.presence == g.presence
        && f.value == g.value
        && f.offset == g.offset
        && f.since == g.since
        && is_same_type(types.own, types.others, &f.type_name, &g.type_name)
}

fn other_data(
    alloc: Global,
    at: u64,
    vars: &[DataDef],
    others: &[DataDef],
) -> Result<Option<Path>, AllocError>
    requires { at + length vars.now < 2 ^ 64 }
    ensures { IfOk result (λ path. path ≡ other_data at vars.now others.now) }
{
    match (vars, others) {
        ([d, vars @ ..], [e, others @ ..]) => {
            if *d == *e {
                other_data(alloc, at + 1, vars, others)
            } else {
                path_at(alloc, TableArray::Data, at)
            }
        }
        ([_d, _vars @ ..], []) => path_at(alloc, TableArray::Data, at),
        ([], _) => Ok(None),
    }
}
