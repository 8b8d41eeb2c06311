//! Laying out the messages of a checked schema.

ghost use Rattle.std.specs.Prelude.{◌≡◌, ◌++◌, ◌∷◌, IfOk, OnOk, IsTrue};
ghost use Rattle.std.specs.List.{Contains};
ghost use Rattle.sbe_schema.specs.Checked.{is_checked};
ghost use Rattle.schema_types.specs.Views.{groups_of, head_of as schema_head_of};
ghost use Rattle.sbe_layout.specs.Views.{plans_of, head_of};
ghost use Rattle.sbe_layout.specs.Trees.{plan};
ghost use Rattle.sbe_layout.specs.Context.{Knows};
ghost use Rattle.sbe_layout.specs.Plans.{plan_of, message_plan, block_plan, groups_plan, group_head, items_of_fields, items_of_field, marks_of, data_of, listings_of};
ghost use Rattle.sbe_layout.specs.Parts.{items_of_parts};
ghost use Rattle.sbe_layout.specs.Legal.{IsLegalMessage, LegalPlan};

use crate::blocks::{BlockPlan, GroupPlan, GroupPlans};
use crate::items::{DataPlan, DataPlans, ItemPlan, ItemPlans, Mark, Marks};
use crate::listings::listings_of;
use crate::messages::MessagePlans;
use crate::parts::Part;
use crate::plan::{MessagePlan, Plan};
use crate::resolve::{Resolved, Types};
use sbe_schema::{
    Checked, DataDef, FieldDef, GroupDef, MessageDef, Presence, Schema, offset_of, plus,
};
use sbe_value::Bytes;
use std::alloc::{AllocError, Global};

/// Lays out the messages of a checked schema: offsets, sizes, since marks and block lengths.
#[tactic(auto, using(crate::proofs::Legality::legal_plan))]
pub fn lay_out(alloc: Global, schema: &Checked) -> Result<Plan, AllocError>
    ensures plan { IfOk result (λ plan. plan ≡ plan_of schema.now.schema) }
    ensures legal { IfOk result LegalPlan }
{
    let plan = lay_out_all(alloc, &schema.schema)?;
    Ok(plan)
}

fn lay_out_all(alloc: Global, schema: &Schema) -> Result<Plan, AllocError>
    ensures { IfOk result (λ plan. plan ≡ plan_of schema.now) }
{
    let types = Types::new(alloc, schema)?;
    let mut messages = Vec::new(alloc);
    for m in schema.messages.as_slice() {
        messages.push(lay_out_message(alloc, &types, m)?)?;
    }
    let listings = listings_of(alloc, schema.types.as_slice())?;
    let messages = MessagePlans::new(alloc, messages)?;
    Ok(Plan {
        id: schema.id,
        version: schema.version,
        order: schema.order,
        listings,
        messages,
    })
}

/// Lays out one message by the types of its schema, as `lay_out` does each of them. So a schema can be laid out
/// with no more memory than its greatest message takes.
pub fn lay_out_message(
    alloc: Global,
    types: &Types<'_>,
    m: &MessageDef,
) -> Result<MessagePlan, AllocError>
    requires known { Knows types.now }
    ensures plan { IfOk result (λ plan. plan ≡ message_plan types.now.index.schema.now.types m.now) }
    ensures legal { IsTrue (is_checked types.now.index.schema.now) → Contains types.now.index.schema.now.messages m.now
        → IfOk result (IsLegalMessage types.now.index.schema.now.version (listings_of types.now.index.schema.now.types)) }
{
    let plan = message_plan(alloc, types, m)?;
    Ok(plan)
}

fn message_plan(alloc: Global, types: &Types<'_>, m: &MessageDef) -> Result<MessagePlan, AllocError>
    requires { Knows types.now }
    ensures { IfOk result (λ plan. plan ≡ message_plan types.now.index.schema.now.types m.now) }
{
    let name = m.name.copy(alloc)?;
    let root = block_plan(
        alloc,
        types,
        m.block_length,
        m.fields.as_slice(),
        m.groups.as_slice(),
        m.vars.as_slice(),
    )?;
    Ok(MessagePlan {
        name,
        template: m.id,
        since: m.since,
        root,
    })
}

#[cycle(blocks)]
fn block_plan(
    alloc: Global,
    types: &Types<'_>,
    stated: Option<i128>,
    fields: &[FieldDef],
    groups: &[GroupDef],
    vars: &[DataDef],
) -> Result<BlockPlan, AllocError>
    requires { Knows types.now }
    ensures { IfOk result (λ plan. plan
        ≡ block_plan types.now.index.schema.now.types stated fields.now (groups_of groups.now) vars.now) }
{
    let block_length = types.index.block_length(stated, fields);
    let items = items_plan(alloc, types, fields)?;
    let marks = marks_plan(alloc, types, fields)?;
    let plans = groups_plan(alloc, types, groups)?;
    let data = data_plan(alloc, vars)?;
    Ok(BlockPlan {
        block_length,
        items: ItemPlans::from(items),
        marks: Marks::from(marks),
        groups: GroupPlans::from(plans),
        vars: DataPlans::from(data),
    })
}

#[cycle(blocks)]
fn groups_plan(
    alloc: Global,
    types: &Types<'_>,
    groups: &[GroupDef],
) -> Result<Vec<GroupPlan>, AllocError>
    requires { Knows types.now }
    ensures { IfOk result (λ plans. plans_of plans.items
        ≡ groups_plan types.now.index.schema.now.types (groups_of groups.now)) }
{
    let mut plans = Vec::new(alloc);
    for g in groups {
        plans.push(group_plan(alloc, types, g)?)?;
    }
    Ok(plans)
}

#[cycle(blocks)]
fn group_plan(alloc: Global, types: &Types<'_>, g: &GroupDef) -> Result<GroupPlan, AllocError>
    requires { Knows types.now }
    ensures head { IfOk result (λ plan. head_of plan
        ≡ group_head types.now.index.schema.now.types (schema_head_of g.now)) }
    ensures groups { IfOk result (λ plan. plan.block.groups
        ≡ groups_plan types.now.index.schema.now.types g.now.groups) }
{
    let name = g.name.copy(alloc)?;
    let block = block_plan(
        alloc,
        types,
        g.block_length,
        g.fields.as_slice(),
        g.groups.as_slice(),
        g.vars.as_slice(),
    )?;
    Ok(GroupPlan {
        name,
        since: g.since,
        block_prim: g.block_prim,
        count_prim: g.count_prim,
        block,
    })
}

fn items_plan(
    alloc: Global,
    types: &Types<'_>,
    fields: &[FieldDef],
) -> Result<Vec<ItemPlan>, AllocError>
    requires { Knows types.now }
    ensures { IfOk result (λ items. items.items ≡ items_of_fields types.now.index.schema.now.types 0 fields.now) }
{
    let mut items = Vec::new(alloc);
    let mut end = 0u128;
    for f in fields {
        add_field(alloc, types, end, f, &mut items)?;
        end = types.index.field_end(end, f);
    }
    Ok(items)
}

fn marks_plan(
    alloc: Global,
    types: &Types<'_>,
    fields: &[FieldDef],
) -> Result<Vec<Mark>, AllocError>
    requires { Knows types.now }
    ensures { IfOk result (λ marks. marks.items ≡ marks_of types.now.index.schema.now.types 0 fields.now) }
{
    let mut marks = Vec::new(alloc);
    let mut end = 0u128;
    for f in fields {
        end = types.index.field_end(end, f);
        marks.push(Mark {
            since: f.since,
            end,
        })?;
    }
    Ok(marks)
}

fn data_plan(alloc: Global, vars: &[DataDef]) -> Result<Vec<DataPlan>, AllocError>
    ensures { IfOk result (λ plans. plans.items ≡ data_of vars.now) }
{
    let mut plans = Vec::new(alloc);
    for d in vars {
        let name = d.name.copy(alloc)?;
        plans.push(DataPlan {
            name,
            since: d.since,
            length: d.length,
        })?;
    }
    Ok(plans)
}

// Adds the items of a field, the field before ending at `end`.
#[tactic(auto, using(crate::proofs::Composites::items_by_parts))]
fn add_field(
    alloc: Global,
    types: &Types<'_>,
    end: u128,
    f: &FieldDef,
    items: &mut Vec<ItemPlan>,
) -> Result<(), AllocError>
    requires { Knows types.now }
    ensures { OnOk result (items.new.items
        ≡ items.old.items ++ items_of_field types.now.index.schema.now.types end f.now) }
{
    if matches!(f.presence, Presence::Constant) {
        return Ok(());
    }
    let start = offset_of(end, f.offset);
    match types.resolve(&f.type_name) {
        None => Ok(()),
        Some(Resolved::Members(at)) => add_parts(alloc, f, start, types.parts_at(at), items),
        Some(Resolved::Simple(kind)) => {
            let name = f.name.copy(alloc)?;
            items.push(ItemPlan {
                name,
                offset: start,
                size: types.index.size(&f.type_name),
                since: f.since,
                presence: f.presence,
                kind,
            })?;
            Ok(())
        }
    }
}

// Adds the items of the parts of a field that begins at `start`.
fn add_parts(
    alloc: Global,
    f: &FieldDef,
    start: u128,
    parts: &[Part],
    items: &mut Vec<ItemPlan>,
) -> Result<(), AllocError>
    ensures { OnOk result (items.new.items
        ≡ items.old.items ++ items_of_parts f.now.name f.now.since start parts.now) }
{
    for part in parts {
        let name = joined(alloc, &f.name, &part.name)?;
        items.push(ItemPlan {
            name,
            offset: plus(start, part.place),
            size: part.size,
            since: f.since,
            presence: part.presence,
            kind: part.kind,
        })?;
    }
    Ok(())
}

// The name of a member of a field, as `field.member`.
fn joined(alloc: Global, field: &Bytes, member: &Bytes) -> Result<Bytes, AllocError>
    ensures { IfOk result (λ name. name ≡ field.now ++ 46 ∷ member.now) }
{
    let mut name = field.copy(alloc)?;
    name.push(b'.')?;
    name.extend_from_slice(member.as_slice())?;
    Ok(name)
}
