//! The least rule that a table breaks, for each kind of table.

ghost use Rattle.std.specs.Prelude.{◌≡◌};
ghost use Rattle.std.specs.FinSet as set;
ghost use Rattle.sbe_schema.specs.Indexed.{Indexes};
ghost use Rattle.sbe_schema.specs.Places.{whole, type_table, value_table, bit_table, member_table, message_table, field_table, group_table, data_table};
ghost use Rattle.sbe_schema.specs.Search.{rule_of};
ghost use Rattle.schema_types.specs.Views.{head_of, groups_of};
ghost use Rattle.sbe_schema.specs.Limits.{count_of_groups, blocks_of_groups, is_large_message};
ghost use Rattle.sbe_schema.specs.Kinds.{is_unfit_dimension};

use crate::conditions::{
    is_above, is_bad_enum_kind, is_bad_set_kind, is_bad_value, is_below, is_dimension,
    is_large_kind, is_lower, is_not_with_group, is_out_of_turn,
};
use crate::index::{Index, plus};
use crate::parent::Parent;
use crate::sets::{NameSet, NumberSet};
use crate::{
    BitDef, DataDef, FieldDef, GroupDef, Meaning, MemberDef, MessageDef, Schema, SchemaKind,
    TypeDef, ValueDef,
};
use sbe_prim::{Primitive, find_primitive, greatest, least, size};

// The greatest end of a field, length of a block, and length of all blocks of a message, in bytes.
const MOST_BYTES: u16 = 16_384;

// The greatest numbers of types, of messages, and of elements of a message.
const MOST_TYPES: usize = 1_024;

const MOST_MESSAGES: usize = 256;

const MOST_ELEMENTS: u128 = 1_024;

/// The rule that the schema as a whole breaks.
#[tactic(auto, unfolding(crate::specs::Search::rule_of))]
pub fn rule_of_whole(schema: &Schema) -> Option<SchemaKind>
    ensures { result ≡ rule_of schema.now set.empty set.empty whole }
{
    let types = schema.types.as_slice().len();
    if types > MOST_TYPES || schema.messages.as_slice().len() > MOST_MESSAGES {
        return Some(SchemaKind::OverLimit);
    }
    None
}

/// The least rule that a type breaks.
#[tactic(auto, unfolding(crate::specs::Search::rule_of))]
pub fn rule_of_type(schema: &Schema, names: &NameSet, t: &TypeDef) -> Option<SchemaKind>
    ensures { result ≡ rule_of schema.now names.now set.empty (type_table t.now) }
{
    if names.contains(&t.name) || find_primitive(t.name.as_slice()).is_some() {
        return Some(SchemaKind::DuplicateName);
    }
    if is_bad_enum_kind(&t.kind) {
        return Some(SchemaKind::BadEnum);
    }
    if is_bad_set_kind(&t.kind) {
        return Some(SchemaKind::BadSet);
    }
    if is_large_kind(&t.kind) {
        return Some(SchemaKind::OverLimit);
    }
    None
}

/// The least rule that a value of an enum breaks.
#[tactic(auto, unfolding(crate::specs::Search::rule_of))]
pub fn rule_of_value(
    schema: &Schema,
    names: &NameSet,
    numbers: &NumberSet,
    prim: Primitive,
    v: &ValueDef,
) -> Option<SchemaKind>
    ensures { result ≡ rule_of schema.now names.now numbers.now (value_table prim v.now) }
{
    if names.contains(&v.name) {
        return Some(SchemaKind::DuplicateName);
    }
    if numbers.contains(v.value) || v.value < least(prim) || v.value > greatest(prim) {
        return Some(SchemaKind::BadEnum);
    }
    let _schema = schema;
    None
}

/// The least rule that a bit of a set breaks.
#[tactic(auto, unfolding(crate::specs::Search::rule_of))]
pub fn rule_of_bit(
    schema: &Schema,
    names: &NameSet,
    numbers: &NumberSet,
    prim: Primitive,
    b: &BitDef,
) -> Option<SchemaKind>
    ensures { result ≡ rule_of schema.now names.now numbers.now (bit_table prim b.now) }
{
    if names.contains(&b.name) {
        return Some(SchemaKind::DuplicateName);
    }
    if numbers.contains(i128::from(b.bit)) || b.bit as usize >= 8 * size(prim) {
        return Some(SchemaKind::BadSet);
    }
    let _schema = schema;
    None
}

/// The least rule that a member of a composite breaks.
#[tactic(auto, unfolding(crate::specs::Search::rule_of))]
pub fn rule_of_member(
    index: &Index<'_>,
    names: &NameSet,
    end: u128,
    m: &MemberDef,
) -> Option<SchemaKind>
    requires { Indexes index.now }
    ensures { result ≡ rule_of index.now.schema.now names.now set.empty (member_table end m.now) }
{
    if names.contains(&m.name) {
        return Some(SchemaKind::DuplicateName);
    }
    let meaning = index.meaning(&m.type_name);
    if matches!(meaning, Meaning::Unknown | Meaning::Composite) {
        return Some(SchemaKind::UnknownType);
    }
    if is_below(m.offset, end) {
        return Some(SchemaKind::BadOffset);
    }
    if is_bad_value(meaning, m.presence, &m.value) {
        return Some(SchemaKind::OverLimit);
    }
    None
}

/// The least rule that a message breaks.
#[tactic(auto, unfolding(crate::specs::Search::rule_of))]
pub fn rule_of_message(
    index: &Index<'_>,
    names: &NameSet,
    ids: &NumberSet,
    m: &MessageDef,
) -> Option<SchemaKind>
    requires { Indexes index.now }
    ensures { result ≡ rule_of index.now.schema.now names.now ids.now (message_table m.now) }
{
    if names.contains(&m.name) {
        return Some(SchemaKind::DuplicateName);
    }
    if ids.contains(i128::from(m.id)) {
        return Some(SchemaKind::DuplicateId);
    }
    if is_below(m.block_length, index.fields_end(m.fields.as_slice())) {
        return Some(SchemaKind::ShortLength);
    }
    if m.since > i128::from(index.schema.version) {
        return Some(SchemaKind::IllegalExtension);
    }
    if is_above(m.block_length, MOST_BYTES) || is_large_message(index, m) {
        return Some(SchemaKind::OverLimit);
    }
    None
}

/// The least rule that a field breaks.
#[tactic(auto, unfolding(crate::specs::Search::rule_of))]
pub fn rule_of_field(
    index: &Index<'_>,
    names: &NameSet,
    ids: &NumberSet,
    least_since: i128,
    end: u128,
    f: &FieldDef,
) -> Option<SchemaKind>
    requires { Indexes index.now }
    ensures { result ≡ rule_of index.now.schema.now names.now ids.now (field_table least_since end f.now) }
{
    if names.contains(&f.name) {
        return Some(SchemaKind::DuplicateName);
    }
    if ids.contains(i128::from(f.id)) {
        return Some(SchemaKind::DuplicateId);
    }
    let meaning = index.meaning(&f.type_name);
    if matches!(meaning, Meaning::Unknown) {
        return Some(SchemaKind::UnknownType);
    }
    if is_below(f.offset, end) || index.field_end(end, f) > u128::from(MOST_BYTES) {
        return Some(SchemaKind::BadOffset);
    }
    if is_out_of_turn(index.schema.version, least_since, f.since) {
        return Some(SchemaKind::IllegalExtension);
    }
    if is_bad_value(meaning, f.presence, &f.value) {
        return Some(SchemaKind::OverLimit);
    }
    None
}

/// The least rule that a group breaks.
#[tactic(auto, unfolding(crate::specs::Search::rule_of))]
pub fn rule_of_group(
    index: &Index<'_>,
    names: &NameSet,
    ids: &NumberSet,
    parent: &Parent,
    least_since: i128,
    g: &GroupDef,
) -> Option<SchemaKind>
    requires { Indexes index.now }
    ensures { result ≡ rule_of index.now.schema.now names.now ids.now (group_table parent.now least_since (head_of g.now)) }
{
    if names.contains(&g.name) {
        return Some(SchemaKind::DuplicateName);
    }
    if ids.contains(i128::from(g.id)) {
        return Some(SchemaKind::DuplicateId);
    }
    if is_below(g.block_length, index.fields_end(g.fields.as_slice())) {
        return Some(SchemaKind::ShortLength);
    }
    if is_bad_dimension(index, g) {
        return Some(SchemaKind::BadDimension);
    }
    if is_out_of_turn(index.schema.version, least_since, g.since)
        || is_lower(parent.lowest, g.since)
        || is_not_with_group(parent, g.since)
    {
        return Some(SchemaKind::IllegalExtension);
    }
    if is_above(g.block_length, MOST_BYTES) || parent.depth > 3 {
        return Some(SchemaKind::OverLimit);
    }
    None
}

// Whether a group's dimension is not two of uint8 and uint16, or cannot hold the block length.
fn is_bad_dimension(index: &Index<'_>, g: &GroupDef) -> bool
    requires { Indexes index.now }
    ensures { result ≡ is_unfit_dimension index.now.schema.now.types (head_of g.now) }
{
    let length = index.block_length(g.block_length, g.fields.as_slice());
    let most = greatest(g.block_prim);
    !(is_dimension(g.block_prim) && is_dimension(g.count_prim))
        || most < 0
        || (most as u128) < length
}

/// The least rule that a data field breaks.
#[tactic(auto, unfolding(crate::specs::Search::rule_of))]
pub fn rule_of_data(
    index: &Index<'_>,
    names: &NameSet,
    ids: &NumberSet,
    parent: &Parent,
    least_since: i128,
    d: &DataDef,
) -> Option<SchemaKind>
    ensures { result ≡ rule_of index.now.schema.now names.now ids.now (data_table parent.now least_since d.now) }
{
    if names.contains(&d.name) {
        return Some(SchemaKind::DuplicateName);
    }
    if ids.contains(i128::from(d.id)) {
        return Some(SchemaKind::DuplicateId);
    }
    if !is_dimension(d.length) && !matches!(d.length, Primitive::UInt32) {
        return Some(SchemaKind::BadData);
    }
    if is_out_of_turn(index.schema.version, least_since, d.since)
        || is_not_with_group(parent, d.since)
    {
        return Some(SchemaKind::IllegalExtension);
    }
    None
}

// Whether a message has too many elements, or its blocks are too long together.
fn is_large_message(index: &Index<'_>, m: &MessageDef) -> bool
    requires { Indexes index.now }
    ensures { result ≡ is_large_message index.now.schema.now.types m.now }
{
    let root = plus(
        m.fields.as_slice().len() as u128,
        m.vars.as_slice().len() as u128,
    );
    let elements = plus(root, count_of_groups(m.groups.as_slice()));
    let block = index.block_length(m.block_length, m.fields.as_slice());
    let bytes = plus(block, blocks_of_groups(index, m.groups.as_slice()));
    elements > MOST_ELEMENTS || bytes > u128::from(MOST_BYTES)
}

// How many elements lie in groups at every depth.
fn count_of_groups(groups: &[GroupDef]) -> u128
    ensures { result ≡ count_of_groups (groups_of groups.now) }
{
    let mut count = 0u128;
    let mut i = groups.len();
    while i > 0 {
        i -= 1;
        let g = &groups[i];
        let own = plus(
            g.fields.as_slice().len() as u128,
            g.vars.as_slice().len() as u128,
        );
        let inner = plus(1, count_of_groups(g.groups.as_slice()));
        count = plus(plus(own, inner), count);
    }
    count
}

// The block lengths of groups at every depth, each once.
fn blocks_of_groups(index: &Index<'_>, groups: &[GroupDef]) -> u128
    requires { Indexes index.now }
    ensures { result ≡ blocks_of_groups index.now.schema.now.types (groups_of groups.now) }
{
    let mut bytes = 0u128;
    let mut i = groups.len();
    while i > 0 {
        i -= 1;
        let g = &groups[i];
        let own = index.block_length(g.block_length, g.fields.as_slice());
        let inner = blocks_of_groups(index, g.groups.as_slice());
        bytes = plus(plus(own, inner), bytes);
    }
    bytes
}
