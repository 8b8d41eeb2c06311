//! The groups of a block: a list of tables in which each group holds its own groups.

ghost use Rattle.std.specs.Prelude.{◌≡◌, codes};
ghost use Rattle.sbe_value.specs.declared.path.Step.TheVariants.{At};
ghost use Rattle.schema_types.specs.Groups.{no_groups};
ghost use Rattle.toml.specs.View.{view, items_view};
ghost use Rattle.toml_walk.specs.Reading.{Reads, under};
ghost use Rattle.toml_walk.specs.Keys.{get_or_default};
ghost use Rattle.schema_toml.specs.Messages.{ReadsGroup, group_by_keys, group_of, groups_of, inside_of, start_of};

use crate::messages::{Data, Fields, GREATEST_ID, Parent, read_own};
use crate::words::Primitives;
use sbe_prim::Primitive;
use sbe_schema::{DataDefs, FieldDefs, GroupDef, GroupDefs};
use sbe_value::{Bytes, Path, Step};
use std::alloc::Global;
use toml::Value;
use toml_walk::{
    Names, Numbers, TomlFault, deepened, deny_unknown_keys, get_or_default, list_or_empty,
    natural_at, optional, required, under_key,
};

/// The groups at their key in a table, none where the key is absent.
#[cycle(groups)]
#[tactic(auto, using(crate::proofs::Nested::get_depth))]
pub fn groups_or_none(alloc: Global, parent: Parent, keys: &Value) -> Result<GroupDefs, TomlFault>
    ensures { Reads result (get_or_default (codes "groups") no_groups (groups_of parent.since) (view keys.now)) }
{
    match keys.get("groups") {
        Some(value) => under_key(alloc, "groups", read_groups(alloc, parent, value)),
        None => Ok(GroupDefs::from(Vec::new(alloc))),
    }
}

#[cycle(groups)]
#[tactic(auto, using(crate::proofs::Nested::array_depth, crate::proofs::Nested::item_depth, crate::proofs::Nested::one_more, crate::proofs::Nested::none_left))]
fn read_groups(alloc: Global, parent: Parent, value: &Value) -> Result<GroupDefs, TomlFault>
    ensures { Reads result (groups_of parent.since (view value.now)) }
{
    let Some(values) = value.as_array() else {
        return Err(TomlFault::WrongKind(Path::new(alloc)));
    };
    let mut groups = Vec::with_capacity(alloc, values.len())?;
    for value in values {
        let group = read_group_at(alloc, parent, groups.len() as u64, value)?;
        if groups.push(group).is_err() {
            return Err(TomlFault::Memory);
        }
    }
    Ok(GroupDefs::from(groups))
}

/// A group at a place of a list, its fault with the path from the list.
#[cycle(groups)]
fn read_group_at(
    alloc: Global,
    parent: Parent,
    at: u64,
    value: &Value,
) -> Result<GroupDef, TomlFault>
    ensures { ReadsGroup result (under (At at) (group_of parent.since (view value.now))) }
{
    match read_group(alloc, parent, value) {
        Ok(group) => Ok(group),
        Err(fault) => Err(deepened(Step::At(at), fault)),
    }
}

/// A group by its keys.
#[cycle(groups)]
#[tactic(auto, unfolding(crate::specs::Messages::group_by_keys))]
fn read_group(alloc: Global, parent: Parent, keys: &Value) -> Result<GroupDef, TomlFault>
    ensures { ReadsGroup result (group_by_keys parent.since (view keys.now)) }
{
    if !keys.is_table() {
        return Err(TomlFault::WrongKind(Path::new(alloc)));
    }
    let start = read_start(alloc, parent, keys)?;
    let Inside {
        fields,
        groups,
        vars,
    } = read_inside(alloc, start.own, keys)?;
    let Start {
        name,
        id,
        block_prim,
        count_prim,
        own,
        block_length,
    } = start;
    Ok(GroupDef {
        name,
        id,
        block_prim,
        count_prim,
        since: own.since,
        block_length,
        fields,
        groups,
        vars,
    })
}

/// What a group says of itself before what lies in it.
#[derive(Drop)]
pub struct Start {
    name: Bytes,
    id: u16,
    block_prim: Primitive,
    count_prim: Primitive,
    own: Parent,
    block_length: Option<i128>,
}

/// What lies in a group.
#[derive(Drop)]
pub struct Inside {
    fields: FieldDefs,
    groups: GroupDefs,
    vars: DataDefs,
}

fn read_start(alloc: Global, parent: Parent, keys: &Value) -> Result<Start, TomlFault>
    ensures { Reads result (start_of parent.since (view keys.now)) }
{
    let name = required::<Names>(alloc, (), keys, "name")?;
    let id = natural_at(alloc, keys, "id", 0, GREATEST_ID)?;
    let block_prim = get_or_default::<Primitives>(
        alloc,
        (),
        keys,
        "block_prim",
        Primitive::UInt16,
    )?;
    let count_prim = get_or_default::<Primitives>(
        alloc,
        (),
        keys,
        "count_prim",
        Primitive::UInt16,
    )?;
    let own = read_own(alloc, parent.since, keys)?;
    let block_length = optional::<Numbers>(alloc, (), keys, "block_length")?;
    Ok(Start {
        name,
        id: id as u16,
        block_prim,
        count_prim,
        own,
        block_length,
    })
}

/// What lies in a group of this version.
#[cycle(groups)]
fn read_inside(alloc: Global, parent: Parent, keys: &Value) -> Result<Inside, TomlFault>
    ensures { Reads result (inside_of (get_or_default (codes "groups") no_groups (groups_of parent.since) (view keys.now)) parent.since (view keys.now)) }
{
    let fields = list_or_empty::<Fields>(alloc, parent, keys, "fields")?;
    let groups = groups_or_none(alloc, parent, keys)?;
    let vars = list_or_empty::<Data>(alloc, parent, keys, "data")?;
    deny_unknown_keys(
        alloc,
        keys,
        &[
            "name",
            "id",
            "block_prim",
            "count_prim",
            "since",
            "block_length",
            "fields",
            "groups",
            "data",
        ],
    )?;
    Ok(Inside {
        fields: FieldDefs::from(fields),
        groups,
        vars: DataDefs::from(vars),
    })
}
