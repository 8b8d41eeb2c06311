//! The projection of a schema to an older version of it.

ghost use Rattle.std.specs.Prelude.{◌≡◌, ◌++◌, IfOk, OnOk};
ghost use Rattle.schema_types.specs.Views.{groups_of};
ghost use Rattle.sbe_skew.specs.Projected.{projected, projected_fields, projected_data, projected_groups, projected_group, projected_message, projected_messages, list_of_defs};

use crate::restricting::is_in;
use lists::Element;
use sbe_schema::{
    Checked, DataDef, DataDefs, FieldDef, FieldDefs, GroupDef, GroupDefs, MessageDef, MessageDefs,
    Schema,
};
use std::alloc::{AllocError, Global};

/// The schema as it was at an older version: its messages, fields, groups and data that came with a version of at
/// most `version`, without the stated block lengths. It is checked too, by the law `older_is_checked`.
#[tactic(auto, using(crate::proofs::KeptChecked::projection_checked))]
pub fn project(alloc: Global, schema: &Checked, version: u16) -> Result<Checked, AllocError>
    ensures exact { IfOk result (λ older. older.schema ≡ projected version schema.now.schema) }
{
    let schema = project_schema(alloc, &schema.schema, version)?;
    Ok(Checked { schema })
}

/// The projection of any schema.
pub fn project_schema(alloc: Global, schema: &Schema, version: u16) -> Result<Schema, AllocError>
    ensures { IfOk result (λ older. older ≡ projected version schema.now) }
{
    let types = schema.types.copy(alloc)?;
    let mut messages = Vec::new(alloc);
    for m in schema.messages.as_slice() {
        if is_in(version, m.since) {
            messages.push(project_message(alloc, m, version)?)?;
        }
    }
    Ok(Schema {
        id: schema.id,
        version,
        order: schema.order,
        types,
        messages: MessageDefs::from(messages),
    })
}

fn project_message(alloc: Global, m: &MessageDef, version: u16) -> Result<MessageDef, AllocError>
    ensures { IfOk result (λ older. older ≡ projected_message version m.now) }
{
    let name = m.name.copy(alloc)?;
    let fields = project_fields(alloc, version, m.fields.as_slice())?;
    let groups = project_groups(alloc, version, &m.groups)?;
    let vars = project_data(alloc, version, m.vars.as_slice())?;
    Ok(MessageDef {
        name,
        id: m.id,
        since: m.since,
        block_length: None,
        fields: FieldDefs::from(fields),
        groups,
        vars: DataDefs::from(vars),
    })
}

#[cycle(groups)]
#[tactic(auto, using(crate::proofs::Rows::defs_back))]
fn project_groups(alloc: Global, version: u16, groups: &GroupDefs) -> Result<GroupDefs, AllocError>
    ensures { IfOk result (λ older. older ≡ projected_groups version groups.now) }
{
    let mut older = Vec::new(alloc);
    add_groups(alloc, version, groups.as_slice(), &mut older)?;
    Ok(GroupDefs::from(older))
}

// Adds the groups of the older version.
#[cycle(groups)]
fn add_groups(
    alloc: Global,
    version: u16,
    groups: &[GroupDef],
    older: &mut Vec<GroupDef>,
) -> Result<(), AllocError>
    ensures { OnOk result (older.new.items ≡ older.old.items ++ list_of_defs (projected_groups version (groups_of groups.now))) }
{
    match groups {
        [group, groups @ ..] => {
            if is_in(version, group.since) {
                older.push(project_group(alloc, version, group)?)?;
            }
            add_groups(alloc, version, groups, older)
        }
        [] => Ok(()),
    }
}

#[cycle(groups)]
fn project_group(alloc: Global, version: u16, g: &GroupDef) -> Result<GroupDef, AllocError>
    ensures { IfOk result (λ older. older ≡ projected_group version g.now) }
{
    let name = g.name.copy(alloc)?;
    let fields = project_fields(alloc, version, g.fields.as_slice())?;
    let groups = project_groups(alloc, version, &g.groups)?;
    let vars = project_data(alloc, version, g.vars.as_slice())?;
    Ok(GroupDef {
        name,
        id: g.id,
        block_prim: g.block_prim,
        count_prim: g.count_prim,
        since: g.since,
        block_length: None,
        fields: FieldDefs::from(fields),
        groups,
        vars: DataDefs::from(vars),
    })
}

fn project_fields(
    alloc: Global,
    version: u16,
    fields: &[FieldDef],
) -> Result<Vec<FieldDef>, AllocError>
    ensures { IfOk result (λ older. older.items ≡ projected_fields version fields.now) }
{
    let mut older = Vec::new(alloc);
    for f in fields {
        if is_in(version, f.since) {
            older.push(f.copy(alloc)?)?;
        }
    }
    Ok(older)
}

fn project_data(alloc: Global, version: u16, vars: &[DataDef]) -> Result<Vec<DataDef>, AllocError>
    ensures { IfOk result (λ older. older.items ≡ projected_data version vars.now) }
{
    let mut older = Vec::new(alloc);
    for d in vars {
        if is_in(version, d.since) {
            older.push(d.copy(alloc)?)?;
        }
    }
    Ok(older)
}
