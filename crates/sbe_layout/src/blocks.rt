//! What a plan says of a block and of its groups.

ghost use Rattle.std.specs.Prelude.{◌≡◌};
ghost use Rattle.sbe_layout.specs.Views.{plans_of};

use crate::items::{DataPlans, ItemPlans, Marks};
use sbe_prim::Primitive;
use sbe_value::Bytes;
use std::marker::Model;

/// A block.
#[cycle(blocks)]
#[derive(Drop)]
pub struct BlockPlan {
    /// Its length in bytes.
    pub block_length: u128,
    /// Its items: the fields that are no constants, and the members of those that are composites.
    pub items: ItemPlans,
    /// The ends of its fields, constants too.
    pub marks: Marks,
    /// Its groups.
    pub groups: GroupPlans,
    /// Its variable-length data.
    pub vars: DataPlans,
}

/// A group of a block.
#[cycle(blocks)]
#[derive(Drop)]
pub struct GroupPlan {
    /// Its name.
    pub name: Bytes,
    /// The version that it came with.
    pub since: i128,
    /// The primitive of an entry's block length.
    pub block_prim: Primitive,
    /// The primitive of the number of entries.
    pub count_prim: Primitive,
    /// The block of an entry.
    pub block: BlockPlan,
}

/// The groups of a block, in schema order.
#[cycle(blocks)]
#[derive(Drop)]
pub struct GroupPlans {
    inner: Vec<GroupPlan>,
}

impl Model for GroupPlans {
    ghost use Rattle.sbe_layout.specs.Trees.{PlanTree, coded_tree, weight_of};

    ghost Value = { PlanTree };

    ghost coded = { coded_tree };

    ghost use Rattle.sbe_layout.specs.Views.{plans_of};

    ghost view = { λ a. plans_of a.inner.items };

    ghost size = { weight_of };

    ghost use Rattle.sbe_layout.specs.Falls.{plans_fall};

    ghost size_decreases = { λ a h. plans_fall a.inner.items };
}

impl From<Vec<GroupPlan>> for GroupPlans {
    ghost from_gives = { λ v g. g ≡ plans_of v.items };

    fn from(inner: Vec<GroupPlan>) -> GroupPlans {
        GroupPlans { inner }
    }
}

impl From<GroupPlans> for Vec<GroupPlan> {
    ghost from_gives = { λ g v. plans_of v.items ≡ g };

    fn from(plans: GroupPlans) -> Vec<GroupPlan> {
        let GroupPlans { inner } = plans;
        inner
    }
}

impl GroupPlans {
    /// The groups, as a slice.
    pub fn as_slice(&self) -> &[GroupPlan]
        ensures { plans_of result.now ≡ self.now }
    {
        self.inner.as_slice()
    }
}
