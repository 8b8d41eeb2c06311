//! The tests by which a table is found to break a rule.

ghost use Rattle.std.specs.Prelude.{◌≡◌};
ghost use Rattle.sbe_schema.specs.Layout.{is_below};
ghost use Rattle.sbe_schema.specs.Kinds.{is_dimension, is_bad_enum_kind, is_bad_set_kind};
ghost use Rattle.sbe_schema.specs.Versions.{is_lower, is_out_of_turn, is_not_with_group};
ghost use Rattle.sbe_schema.specs.Limits.{is_above, is_unheld, is_large_kind, is_text, is_unfit, is_bad_value};

use crate::parent::Parent;
use crate::{Constant, Meaning, Presence, TypeKind};
use sbe_prim::{Primitive, can_hold};

/// Whether a number is stated and lies below an end.
pub fn is_below(stated: Option<i128>, end: u128) -> bool
    ensures { result ≡ is_below stated end }
{
    match stated {
        None => false,
        Some(z) => z < 0 || (z as u128) < end,
    }
}

/// Whether a number is stated and lies above a limit.
pub fn is_above(stated: Option<i128>, limit: u16) -> bool
    ensures { result ≡ is_above stated limit }
{
    match stated {
        None => false,
        Some(z) => z > i128::from(limit),
    }
}

/// Whether a number is stated that the primitive does not hold.
pub fn is_unheld(prim: Primitive, stated: Option<i128>) -> bool
    ensures { result ≡ is_unheld prim stated }
{
    match stated {
        None => false,
        Some(z) => !can_hold(prim, z),
    }
}

/// Whether a dimension may be of this primitive.
pub fn is_dimension(prim: Primitive) -> bool
    ensures { result ≡ is_dimension prim }
{
    matches!(prim, Primitive::UInt8 | Primitive::UInt16)
}

/// Whether a type is an enum of another primitive than char, uint8 and uint16, or one without values.
pub fn is_bad_enum_kind(kind: &TypeKind) -> bool
    ensures { result ≡ is_bad_enum_kind kind.now }
{
    match kind {
        TypeKind::Enum { prim, values } => {
            let fits = matches!(prim, Primitive::Char | Primitive::UInt8 | Primitive::UInt16);
            !fits || values.as_slice().is_empty()
        }
        _ => false,
    }
}

/// Whether a type is a set of a primitive that is no unsigned integer.
pub fn is_bad_set_kind(kind: &TypeKind) -> bool
    ensures { result ≡ is_bad_set_kind kind.now }
{
    match kind {
        TypeKind::Set { prim, .. } => !matches!(
            prim,
            Primitive::UInt8 | Primitive::UInt16 | Primitive::UInt32 | Primitive::UInt64
        ),
        _ => false,
    }
}

/// Whether a type is an array of another primitive than char and uint8, or states a number that its primitive does not hold.
pub fn is_large_kind(kind: &TypeKind) -> bool
    ensures { result ≡ is_large_kind kind.now }
{
    match kind {
        TypeKind::Number {
            prim,
            length,
            null,
            min,
            max,
        } => {
            let may_repeat = matches!(prim, Primitive::Char | Primitive::UInt8);
            (*length > 1 && !may_repeat)
                || is_unheld(*prim, *null)
                || is_unheld(*prim, *min)
                || is_unheld(*prim, *max)
        }
        _ => false,
    }
}

/// Whether a constant is one that its type does not hold.
pub fn is_unfit(meaning: Meaning, value: &Constant) -> bool
    ensures { result ≡ is_unfit meaning value.now }
{
    match (meaning, value) {
        (Meaning::Unknown, _) => false,
        (Meaning::Number { prim, length }, Constant::Num(z)) => {
            is_text(prim, length) || !can_hold(prim, *z)
        }
        (Meaning::Number { prim, length }, Constant::Text(text)) => {
            !is_text(prim, length) || text.len() > length as usize
        }
        (Meaning::Code { prim }, Constant::Num(z)) => !can_hold(prim, *z),
        (Meaning::Composite, Constant::Num(_)) => false,
        (Meaning::Code { .. } | Meaning::Composite, Constant::Text(_)) => true,
    }
}

fn is_text(prim: Primitive, length: u16) -> bool
    ensures { result ≡ is_text prim length }
{
    matches!(prim, Primitive::Char) && length > 1
}

/// Whether a constant has no fitting value, or something else has a value.
pub fn is_bad_value(meaning: Meaning, presence: Presence, value: &Option<Constant>) -> bool
    ensures { result ≡ is_bad_value meaning presence value.now }
{
    match (presence, value) {
        (Presence::Constant, None) => true,
        (Presence::Constant, Some(value)) => is_unfit(meaning, value),
        (Presence::Required | Presence::Optional, None) => false,
        (Presence::Required | Presence::Optional, Some(_)) => true,
    }
}

/// Whether a since lies above the schema's version, or below that of what stands before.
pub fn is_out_of_turn(version: u16, least_since: i128, since: i128) -> bool
    ensures { result ≡ is_out_of_turn version least_since since }
{
    since > i128::from(version) || since < least_since
}

/// Whether something has a lower since.
pub fn is_lower(lowest: Option<i128>, since: i128) -> bool
    ensures { result ≡ is_lower lowest since }
{
    match lowest {
        None => false,
        Some(lowest) => lowest < since,
    }
}

/// Whether an element of an entry did not come with its group.
pub fn is_not_with_group(parent: &Parent, since: i128) -> bool
    ensures { result ≡ is_not_with_group parent.now since }
{
    parent.depth > 0 && since != parent.since
}
