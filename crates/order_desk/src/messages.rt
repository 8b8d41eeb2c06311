//! The messages of the order schema, with their fields and groups.

ghost use Rattle.std.specs.Prelude.{◌≡◌, [], ◌∷◌, ◌++◌, IfOk, OnOk};
ghost use Rattle.schema_types.specs.declared.types.Presence.TheVariants.{Required};
ghost use Rattle.schema_types.specs.Groups.{no_groups};
ghost use Rattle.schema_types.specs.Views.{head_of};
ghost use Rattle.order_desk.specs.Schema.{field_def, field, group_head, message_def, first_order_fields, first_party_fields, order_fields, party_fields, tags, parties, order_groups, new_order, cancel_fields, cancel, report_fields, report};

use sbe_prim::Primitive;
use sbe_schema::{
    DataDefs, FieldDef, FieldDefs, GroupDef, GroupDefs, MessageDef, MessageDefs, Presence,
};
use sbe_value::Bytes;
use std::alloc::{AllocError, Global};

/// The three messages of a version, in order.
pub fn order_messages(alloc: Global, version: u16) -> Result<MessageDefs, AllocError>
    ensures { IfOk result (λ messages. messages ≡ new_order version ∷ cancel ∷ report ∷ []) }
{
    let mut messages = MessageDefs::new(alloc);
    messages.push(new_order(alloc, version)?)?;
    messages.push(cancel(alloc)?)?;
    messages.push(report(alloc)?)?;
    Ok(messages)
}

fn new_order(alloc: Global, version: u16) -> Result<MessageDef, AllocError>
    ensures { IfOk result (λ m. m ≡ new_order version) }
{
    let fields = order_fields(alloc, version)?;
    let groups = order_groups(alloc, version)?;
    message_def(alloc, 1, b"NewOrder", fields, groups)
}

fn cancel(alloc: Global) -> Result<MessageDef, AllocError>
    ensures { IfOk result (λ m. m ≡ cancel) }
{
    let mut fields = FieldDefs::new(alloc);
    push_field(alloc, &mut fields, 1, b"cl_id", b"uint64")?;
    push_field(alloc, &mut fields, 2, b"orig", b"uint64")?;
    message_def(
        alloc,
        2,
        b"Cancel",
        fields,
        GroupDefs::from(Vec::new(alloc)),
    )
}

fn report(alloc: Global) -> Result<MessageDef, AllocError>
    ensures { IfOk result (λ m. m ≡ report) }
{
    let fields = report_fields(alloc)?;
    message_def(
        alloc,
        3,
        b"Report",
        fields,
        GroupDefs::from(Vec::new(alloc)),
    )
}

// A message that every order schema has.
fn message_def(
    alloc: Global,
    id: u16,
    name: &[u8],
    fields: FieldDefs,
    groups: GroupDefs,
) -> Result<MessageDef, AllocError>
    ensures { IfOk result (λ m. m ≡ message_def id name.now fields groups) }
{
    let name = Bytes::from_slice(alloc, name)?;
    Ok(MessageDef {
        name,
        id,
        since: 0,
        block_length: None,
        fields,
        groups,
        vars: DataDefs::new(alloc),
    })
}

// ---- fields

// A field of a type that came with a version, behind others.
fn push_field_since(
    alloc: Global,
    fields: &mut FieldDefs,
    id: u16,
    name: &[u8],
    type_name: &[u8],
    presence: Presence,
    since: u16,
) -> Result<(), AllocError>
    ensures { OnOk result (fields.new ≡ fields.old ++ field_def id name.now type_name.now presence since ∷ []) }
{
    let name = Bytes::from_slice(alloc, name)?;
    let type_name = Bytes::from_slice(alloc, type_name)?;
    fields.push(FieldDef {
        name,
        id,
        type_name,
        presence,
        value: None,
        offset: None,
        since: since as i128,
    })
}

// A field that every order schema has, behind others.
fn push_field(
    alloc: Global,
    fields: &mut FieldDefs,
    id: u16,
    name: &[u8],
    type_name: &[u8],
) -> Result<(), AllocError>
    ensures { OnOk result (fields.new ≡ fields.old ++ field id name.now type_name.now ∷ []) }
{
    push_field_since(alloc, fields, id, name, type_name, Presence::Required, 0)
}

fn first_order_fields(alloc: Global) -> Result<FieldDefs, AllocError>
    ensures { IfOk result (λ fields. fields ≡ first_order_fields) }
{
    let mut fields = FieldDefs::new(alloc);
    push_field(alloc, &mut fields, 1, b"cl_id", b"uint64")?;
    push_field(alloc, &mut fields, 2, b"side", b"Side")?;
    push_field(alloc, &mut fields, 3, b"symbol", b"Symbol")?;
    push_field(alloc, &mut fields, 4, b"quantity", b"uint32")?;
    push_field(alloc, &mut fields, 5, b"price", b"Price")?;
    Ok(fields)
}

// With the account that version 2 adds; it may be left open.
fn order_fields(alloc: Global, version: u16) -> Result<FieldDefs, AllocError>
    ensures { IfOk result (λ fields. fields ≡ order_fields version) }
{
    let mut fields = first_order_fields(alloc)?;
    if version >= 2 {
        let presence = Presence::Optional;
        push_field_since(alloc, &mut fields, 6, b"account", b"uint32", presence, 2)?;
    }
    Ok(fields)
}

fn report_fields(alloc: Global) -> Result<FieldDefs, AllocError>
    ensures { IfOk result (λ fields. fields ≡ report_fields) }
{
    let mut fields = FieldDefs::new(alloc);
    push_field(alloc, &mut fields, 1, b"cl_id", b"uint64")?;
    push_field(alloc, &mut fields, 2, b"kind", b"Kind")?;
    push_field(alloc, &mut fields, 3, b"code", b"uint8")?;
    push_field(alloc, &mut fields, 4, b"desk", b"uint8")?;
    push_field(alloc, &mut fields, 5, b"quantity", b"uint32")?;
    push_field(alloc, &mut fields, 6, b"price", b"Price")?;
    Ok(fields)
}

// ---- groups

// The fields of a party, with the desk that version 2 adds.
fn party_fields(alloc: Global, version: u16) -> Result<FieldDefs, AllocError>
    ensures { IfOk result (λ fields. fields ≡ party_fields version) }
{
    let mut fields = FieldDefs::new(alloc);
    push_field(alloc, &mut fields, 11, b"role", b"uint8")?;
    push_field(alloc, &mut fields, 12, b"party", b"uint32")?;
    if version >= 2 {
        let presence = Presence::Required;
        push_field_since(alloc, &mut fields, 13, b"desk", b"uint16", presence, 2)?;
    }
    Ok(fields)
}

fn group_def(
    alloc: Global,
    id: u16,
    name: &[u8],
    since: u16,
    fields: FieldDefs,
) -> Result<GroupDef, AllocError>
    ensures head { IfOk result (λ g. head_of g ≡ group_head id name.now since fields) }
    ensures alone { IfOk result (λ g. g.groups ≡ no_groups) }
{
    let name = Bytes::from_slice(alloc, name)?;
    Ok(GroupDef {
        name,
        id,
        block_prim: Primitive::UInt16,
        count_prim: Primitive::UInt16,
        since: since as i128,
        block_length: None,
        fields,
        groups: GroupDefs::from(Vec::new(alloc)),
        vars: DataDefs::new(alloc),
    })
}

fn parties(alloc: Global, version: u16) -> Result<GroupDef, AllocError>
    ensures head { IfOk result (λ g. head_of g ≡ parties version) }
    ensures alone { IfOk result (λ g. g.groups ≡ no_groups) }
{
    let fields = party_fields(alloc, version)?;
    group_def(alloc, 10, b"parties", 0, fields)
}

fn tags(alloc: Global) -> Result<GroupDef, AllocError>
    ensures head { IfOk result (λ g. head_of g ≡ tags) }
    ensures alone { IfOk result (λ g. g.groups ≡ no_groups) }
{
    let mut fields = FieldDefs::new(alloc);
    let presence = Presence::Required;
    push_field_since(alloc, &mut fields, 15, b"tag", b"uint16", presence, 2)?;
    group_def(alloc, 14, b"tags", 2, fields)
}

// The parties of an order, and the tags that version 2 adds.
fn order_groups(alloc: Global, version: u16) -> Result<GroupDefs, AllocError>
    ensures { IfOk result (λ groups. groups ≡ order_groups version) }
{
    let mut groups = Vec::new(alloc);
    groups.push(parties(alloc, version)?)?;
    if version >= 2 {
        groups.push(tags(alloc)?)?;
    }
    Ok(GroupDefs::from(groups))
}
