//! The repeating groups of a message (SBE 1.0, repeating groups).

ghost use Rattle.std.specs.Prelude.{◌≡◌, IfOk};
ghost use Rattle.schema_types.specs.Views.{head_of, groups_of};
ghost use Rattle.schema_types.specs.Equal.{head_eq};
ghost use Rattle.schema_types.specs.TreeEqual.{tree_eq};

use crate::messages::{DataDefs, FieldDefs};
use sbe_prim::Primitive;
use sbe_value::Bytes;
use std::alloc::{AllocError, Global};
use std::marker::Model;

/// A repeating group.
#[cycle(groups)]
#[derive(Drop)]
pub struct GroupDef {
    /// Its name.
    pub name: Bytes,
    /// Its id, one of its message.
    pub id: u16,
    /// The primitive of an entry's block length.
    pub block_prim: Primitive,
    /// The primitive of the number of entries.
    pub count_prim: Primitive,
    /// The version that it came with.
    pub since: i128,
    /// The stated length of an entry's block in bytes.
    pub block_length: Option<i128>,
    /// The fields of an entry.
    pub fields: FieldDefs,
    /// The groups of an entry.
    pub groups: GroupDefs,
    /// The variable-length data of an entry.
    pub vars: DataDefs,
}

/// The groups of a block, in order.
#[cycle(groups)]
#[derive(Drop)]
pub struct GroupDefs {
    inner: Vec<GroupDef>,
}

impl Model for GroupDefs {
    ghost use Rattle.schema_types.specs.Groups.{GroupTree, coded_tree, weight_of};

    ghost Value = { GroupTree };

    ghost coded = { coded_tree };

    ghost use Rattle.schema_types.specs.Views.{groups_of};

    ghost view = { λ a. groups_of a.inner.items };

    ghost size = { weight_of };

    ghost use Rattle.schema_types.specs.Falls.{groups_fall};

    ghost size_decreases = { λ a h. groups_fall a.inner.items };
}

impl From<Vec<GroupDef>> for GroupDefs {
    ghost from_gives = { λ v g. g ≡ groups_of v.items };

    fn from(inner: Vec<GroupDef>) -> GroupDefs {
        GroupDefs { inner }
    }
}

impl From<GroupDefs> for Vec<GroupDef> {
    ghost from_gives = { λ g v. groups_of v.items ≡ g };

    fn from(groups: GroupDefs) -> Vec<GroupDef> {
        let GroupDefs { inner } = groups;
        inner
    }
}

impl GroupDefs {
    /// The groups, as a slice.
    pub fn as_slice(&self) -> &[GroupDef]
        ensures { groups_of result.now ≡ self.now }
    {
        self.inner.as_slice()
    }

    /// Equal groups of their own.
    #[cycle(copying)]
    pub fn copy(&self, alloc: Global) -> Result<GroupDefs, AllocError>
        ensures { IfOk result (λ g. g ≡ self.now) }
    {
        let mut inner = Vec::with_capacity(alloc, self.inner.len())?;
        for group in self.inner.as_slice() {
            inner.push(group.copy(alloc)?)?;
        }
        Ok(GroupDefs { inner })
    }
}

impl GroupDef {
    /// An equal group of its own.
    #[cycle(copying)]
    pub fn copy(&self, alloc: Global) -> Result<GroupDef, AllocError>
        ensures { IfOk result (λ g. g ≡ self.now) }
    {
        let name = self.name.copy(alloc)?;
        let fields = self.fields.copy(alloc)?;
        let groups = self.groups.copy(alloc)?;
        let vars = self.vars.copy(alloc)?;
        Ok(GroupDef {
            name,
            id: self.id,
            block_prim: self.block_prim,
            count_prim: self.count_prim,
            since: self.since,
            block_length: self.block_length,
            fields,
            groups,
            vars,
        })
    }
}

// Whether two groups agree, the groups of their entries aside.
fn have_equal_heads(a: &GroupDef, b: &GroupDef) -> bool
    ensures { result ≡ head_eq (head_of a.now) (head_of b.now) }
{
    a.name == b.name
        && a.id == b.id
        && a.block_prim == b.block_prim
        && a.count_prim == b.count_prim
        && a.since == b.since
        && a.block_length == b.block_length
        && a.fields == b.fields
        && a.vars == b.vars
}

impl PartialEq for GroupDef {
    ghost use Rattle.lists.specs.Exact.{partial_equivalence};
    ghost use Rattle.schema_types.specs.TreeEqual.{group_eq, group_exact};

    ghost eq = { group_eq };

    ghost laws = { partial_equivalence group_eq group_exact };

    #[cycle(comparing)]
    fn eq(&self, other: &GroupDef) -> bool {
        have_equal_heads(self, other) && self.groups == other.groups
    }
}

impl PartialEq for GroupDefs {
    ghost use Rattle.lists.specs.Exact.{partial_equivalence};
    ghost use Rattle.schema_types.specs.TreeEqual.{tree_eq, tree_exact};

    ghost eq = { tree_eq };

    ghost laws = { partial_equivalence tree_eq tree_exact };

    #[cycle(comparing)]
    fn eq(&self, other: &GroupDefs) -> bool {
        are_same_groups(self.inner.as_slice(), other.inner.as_slice())
    }
}

#[cycle(comparing)]
fn are_same_groups(a: &[GroupDef], b: &[GroupDef]) -> bool
    ensures { result ≡ tree_eq (groups_of a.now) (groups_of b.now) }
{
    if a.len() != b.len() {
        return false;
    }
    for i in 0..a.len() {
        let same = a[i] == b[i];
        if !same {
            return false;
        }
    }
    true
}
