//! Whether the names of types in two schemas stand for the same.

ghost use Rattle.std.specs.Prelude.{◌≡◌, Some};
ghost use Rattle.std.specs.Option.{option_copied, option_map};
ghost use Rattle.std.specs.Cmp.Lexicographic.{pointwise};
ghost use Rattle.sbe_prim.specs.Names.{primitive_named};
ghost use Rattle.sbe_schema.specs.Meanings.{type_named};
ghost use Rattle.sbe_skew.specs.SameTypes.{plain as plain_kind, kind_named, same_kind, same_kinds, same_member, same_type};

use sbe_prim::find_primitive;
use sbe_schema::{MemberDef, TypeDef, TypeKind};
use sbe_value::Bytes;

/// Whether two names, each of its own schema, stand for the same type.
pub fn is_same_type(types: &[TypeDef], others: &[TypeDef], a: &Bytes, b: &Bytes) -> bool
    ensures { result ≡ same_type types.now others.now a.now b.now }
{
    let plain_a = plain_named(a);
    let plain_b = plain_named(b);
    let kind_a = kind_or(&plain_a, types, a);
    let kind_b = kind_or(&plain_b, others, b);
    match (kind_a, kind_b) {
        (Some(kind_a), Some(kind_b)) => are_same(types, others, kind_a, kind_b),
        (Some(_), None) | (None, Some(_)) => false,
        (None, None) => true,
    }
}

// The kind of the primitive of a name.
fn plain_named(name: &Bytes) -> Option<TypeKind>
    ensures { result ≡ option_map plain_kind (primitive_named name.now) }
{
    match find_primitive(name.as_slice()) {
        None => None,
        Some(prim) => Some(TypeKind::Number {
            prim,
            length: 1,
            null: None,
            min: None,
            max: None,
        }),
    }
}

// The kind that a name stands for.
fn kind_or<'a>(
    plain: &'a Option<TypeKind>,
    types: &'a [TypeDef],
    name: &Bytes,
) -> Option<&'a TypeKind>
    requires { plain.now ≡ option_map plain_kind (primitive_named name.now) }
    ensures { option_copied result ≡ kind_named types.now name.now }
{
    match plain {
        Some(kind) => Some(kind),
        None => find_type(types, name),
    }
}

// The kind of the first type of a name.
fn find_type<'a>(types: &'a [TypeDef], name: &Bytes) -> Option<&'a TypeKind>
    ensures { option_copied result ≡ type_named name.now types.now }
{
    for t in types {
        if t.name == *name {
            return Some(&t.kind);
        }
    }
    None
}

fn are_same(types: &[TypeDef], others: &[TypeDef], a: &TypeKind, b: &TypeKind) -> bool
    ensures { result ≡ same_kinds types.now others.now (Some a.now) (Some b.now) }
{
    match a {
        TypeKind::Composite { members } => match b {
            TypeKind::Composite {
                members: other_members,
            } => are_same_members(types, others, members.as_slice(), other_members.as_slice()),
            TypeKind::Number { .. } | TypeKind::Enum { .. } | TypeKind::Set { .. } => false,
        },
        TypeKind::Number { .. } | TypeKind::Enum { .. } | TypeKind::Set { .. } => *a == *b,
    }
}

fn are_same_members(
    types: &[TypeDef],
    others: &[TypeDef],
    members: &[MemberDef],
    other_members: &[MemberDef],
) -> bool
    ensures { result ≡ pointwise (same_member types.now others.now) members.now other_members.now }
{
    match (members, other_members) {
        ([m, members @ ..], [n, other_members @ ..]) => {
            is_same_member(types, others, m, n)
                && are_same_members(types, others, members, other_members)
        }
        ([], []) => true,
        ([_m, _members @ ..], []) => false,
        ([], [_n, _others @ ..]) => false,
    }
}

// Members have types of one kind and none of members.
fn is_same_member(types: &[TypeDef], others: &[TypeDef], m: &MemberDef, n: &MemberDef) -> bool
    ensures { result ≡ same_member types.now others.now m.now n.now }
{
    m.name == n.name
        && m.offset == n.offset
        && m.presence == n.presence
        && m.value == n.value
        && is_same_kind(types, others, &m.type_name, &n.type_name)
}

fn is_same_kind(types: &[TypeDef], others: &[TypeDef], a: &Bytes, b: &Bytes) -> bool
    ensures { result ≡ same_kind (kind_named types.now a.now) (kind_named others.now b.now) }
{
    let plain_a = plain_named(a);
    let plain_b = plain_named(b);
    let kind_a = kind_or(&plain_a, types, a);
    let kind_b = kind_or(&plain_b, others, b);
    match (kind_a, kind_b) {
        (Some(kind_a), Some(kind_b)) => *kind_a == *kind_b,
        (Some(_), None) | (None, Some(_)) => false,
        (None, None) => true,
    }
}
