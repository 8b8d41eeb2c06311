//! The tree of a message: a root block with groups, whose entries are blocks.

ghost use Rattle.std.specs.Prelude.{◌≡◌, ◌↔◌, IsTrue, IfOk, length};
ghost use Rattle.sbe_value.specs.Trees.{no_groups, no_blocks, count_of_groups, count_of_blocks};
ghost use Rattle.sbe_value.specs.Views.{groups_of, blocks_of};
ghost use Rattle.sbe_value.specs.Equal.{group_eq, groups_eq, block_eq, blocks_eq};

use crate::{Datums, Items};
use std::alloc::{AllocError, Global};
use std::marker::Model;

/// A block of fields with its repeating groups and its variable-length data,
/// each list in schema order (SBE 1.0, message body).
#[cycle(tree)]
#[derive(Drop)]
pub struct Block {
    /// The values of the fields.
    pub items: Items,
    /// The repeating groups.
    pub groups: Groups,
    /// The variable-length data.
    pub vars: Datums,
}

/// A repeating group of a block.
#[cycle(tree)]
#[derive(Drop)]
pub enum Group {
    /// The message's version does not have it.
    Absent,
    /// Its entries.
    Entries(Blocks),
}

/// The groups of a block in schema order.
#[cycle(tree)]
#[derive(Drop)]
pub struct Groups {
    inner: Vec<Group>,
}

/// The entries of a group in order.
#[cycle(tree)]
#[derive(Drop)]
pub struct Blocks {
    inner: Vec<Block>,
}

impl Model for Groups {
    ghost use Rattle.sbe_value.specs.Trees.{GroupList, coded_groups, weight_of_groups};

    ghost Value = { GroupList };

    ghost coded = { coded_groups };

    ghost use Rattle.sbe_value.specs.Views.{groups_of};

    ghost view = { λ a. groups_of a.inner.items };

    ghost size = { weight_of_groups };

    ghost use Rattle.sbe_value.specs.Falls.{groups_fall};

    ghost size_decreases = { λ a h. groups_fall a.inner.items };
}

impl Model for Blocks {
    ghost use Rattle.sbe_value.specs.Trees.{BlockList, coded_blocks, weight_of_blocks};

    ghost Value = { BlockList };

    ghost coded = { coded_blocks };

    ghost use Rattle.sbe_value.specs.Views.{blocks_of};

    ghost view = { λ a. blocks_of a.inner.items };

    ghost size = { weight_of_blocks };

    ghost use Rattle.sbe_value.specs.Falls.{blocks_fall};

    ghost size_decreases = { λ a h. blocks_fall a.inner.items };
}

impl From<Vec<Group>> for Groups {
    ghost from_gives = { λ v g. g ≡ groups_of v.items };

    fn from(inner: Vec<Group>) -> Groups {
        Groups { inner }
    }
}

impl From<Groups> for Vec<Group> {
    ghost from_gives = { λ g v. groups_of v.items ≡ g };

    fn from(groups: Groups) -> Vec<Group> {
        let Groups { inner } = groups;
        inner
    }
}

impl From<Vec<Block>> for Blocks {
    ghost from_gives = { λ v b. b ≡ blocks_of v.items };

    fn from(inner: Vec<Block>) -> Blocks {
        Blocks { inner }
    }
}

impl From<Blocks> for Vec<Block> {
    ghost from_gives = { λ b v. blocks_of v.items ≡ b };

    fn from(blocks: Blocks) -> Vec<Block> {
        let Blocks { inner } = blocks;
        inner
    }
}

impl Groups {
    /// No groups; it takes no memory.
    pub fn new(alloc: Global) -> Groups
        ensures { result ≡ no_groups }
    {
        Groups {
            inner: Vec::new(alloc),
        }
    }

    /// The number of groups.
    pub fn len(&self) -> usize
        ensures { result ≡ count_of_groups self.now }
    {
        self.inner.len()
    }

    /// Whether there are none.
    pub fn is_empty(&self) -> bool
        ensures { IsTrue result ↔ (self.now ≡ no_groups) }
    {
        self.inner.is_empty()
    }

    /// The groups in order.
    pub fn as_slice(&self) -> &[Group]
        ensures { groups_of result.now ≡ self.now }
    {
        self.inner.as_slice()
    }

    /// Equal groups of their own.
    #[cycle(copying)]
    pub fn copy(&self, alloc: Global) -> Result<Groups, AllocError>
        ensures { IfOk result (λ g. g ≡ self.now) }
    {
        let mut inner = Vec::with_capacity(alloc, self.inner.len())?;
        for group in self.inner.as_slice() {
            inner.push(group.copy(alloc)?)?;
        }
        Ok(Groups { inner })
    }
}

impl Blocks {
    /// No entries; it takes no memory.
    pub fn new(alloc: Global) -> Blocks
        ensures { result ≡ no_blocks }
    {
        Blocks {
            inner: Vec::new(alloc),
        }
    }

    /// The number of entries.
    pub fn len(&self) -> usize
        ensures { result ≡ count_of_blocks self.now }
    {
        self.inner.len()
    }

    /// Whether there are none.
    pub fn is_empty(&self) -> bool
        ensures { IsTrue result ↔ (self.now ≡ no_blocks) }
    {
        self.inner.is_empty()
    }

    /// The entries in order.
    pub fn as_slice(&self) -> &[Block]
        ensures { blocks_of result.now ≡ self.now }
    {
        self.inner.as_slice()
    }

    /// Equal entries of their own.
    #[cycle(copying)]
    pub fn copy(&self, alloc: Global) -> Result<Blocks, AllocError>
        ensures { IfOk result (λ b. b ≡ self.now) }
    {
        let mut inner = Vec::with_capacity(alloc, self.inner.len())?;
        for block in self.inner.as_slice() {
            inner.push(block.copy(alloc)?)?;
        }
        Ok(Blocks { inner })
    }
}

impl Group {
    /// An equal group of its own.
    #[cycle(copying)]
    pub fn copy(&self, alloc: Global) -> Result<Group, AllocError>
        ensures { IfOk result (λ g. g ≡ self.now) }
    {
        match self {
            Group::Absent => Ok(Group::Absent),
            Group::Entries(blocks) => Ok(Group::Entries(blocks.copy(alloc)?)),
        }
    }
}

impl Block {
    /// An equal block of its own.
    #[cycle(copying)]
    pub fn copy(&self, alloc: Global) -> Result<Block, AllocError>
        ensures { IfOk result (λ b. b ≡ self.now) }
    {
        let items = self.items.copy(alloc)?;
        let groups = self.groups.copy(alloc)?;
        let vars = self.vars.copy(alloc)?;
        Ok(Block {
            items,
            groups,
            vars,
        })
    }
}

impl PartialEq for Group {
    ghost use Rattle.std.specs.Prelude.{◌≡◌, ◌↔◌, IsTrue};
    ghost use Rattle.sbe_value.specs.Equal.{group_eq};
    ghost use Rattle.lists.specs.Exact.{partial_equivalence};
    ghost use Rattle.sbe_value.specs.TreeLaws.{group_exact};

    ghost eq = { group_eq };

    ghost laws = { partial_equivalence group_eq group_exact };

    #[cycle(comparing)]
    fn eq(&self, other: &Group) -> bool
        ensures exact { IsTrue result ↔ (self.now ≡ other.now) }
        ensures computed { result ≡ group_eq self.now other.now }
    {
        match (self, other) {
            (Group::Absent, Group::Absent) => true,
            (Group::Entries(a), Group::Entries(b)) => *a == *b,
            _ => false,
        }
    }
}

impl PartialEq for Groups {
    ghost use Rattle.std.specs.Prelude.{◌≡◌, ◌↔◌, IsTrue};
    ghost use Rattle.sbe_value.specs.Equal.{groups_eq};
    ghost use Rattle.lists.specs.Exact.{partial_equivalence};
    ghost use Rattle.sbe_value.specs.TreeLaws.{groups_exact};

    ghost eq = { groups_eq };

    ghost laws = { partial_equivalence groups_eq groups_exact };

    #[cycle(comparing)]
    fn eq(&self, other: &Groups) -> bool
        ensures exact { IsTrue result ↔ (self.now ≡ other.now) }
        ensures computed { result ≡ groups_eq self.now other.now }
    {
        are_same_groups(self.inner.as_slice(), other.inner.as_slice())
    }
}

#[cycle(comparing)]
fn are_same_groups(a: &[Group], b: &[Group]) -> bool
    ensures { result ≡ groups_eq (groups_of a.now) (groups_of b.now) }
{
    if a.len() != b.len() {
        return false;
    }
    for i in 0..a.len() {
        let same = a[i] == b[i];
        if !same {
            return false;
        }
    }
    true
}

impl PartialEq for Block {
    ghost use Rattle.std.specs.Prelude.{◌≡◌, ◌↔◌, IsTrue};
    ghost use Rattle.sbe_value.specs.Equal.{block_eq};
    ghost use Rattle.lists.specs.Exact.{partial_equivalence};
    ghost use Rattle.sbe_value.specs.TreeLaws.{block_exact};

    ghost eq = { block_eq };

    ghost laws = { partial_equivalence block_eq block_exact };

    #[cycle(comparing)]
    fn eq(&self, other: &Block) -> bool
        ensures exact { IsTrue result ↔ (self.now ≡ other.now) }
        ensures computed { result ≡ block_eq self.now other.now }
    {
        self.items == other.items && self.vars == other.vars && self.groups == other.groups
    }
}

impl PartialEq for Blocks {
    ghost use Rattle.std.specs.Prelude.{◌≡◌, ◌↔◌, IsTrue};
    ghost use Rattle.sbe_value.specs.Equal.{blocks_eq};
    ghost use Rattle.lists.specs.Exact.{partial_equivalence};
    ghost use Rattle.sbe_value.specs.TreeLaws.{blocks_exact};

    ghost eq = { blocks_eq };

    ghost laws = { partial_equivalence blocks_eq blocks_exact };

    #[cycle(comparing)]
    fn eq(&self, other: &Blocks) -> bool
        ensures exact { IsTrue result ↔ (self.now ≡ other.now) }
        ensures computed { result ≡ blocks_eq self.now other.now }
    {
        are_same_blocks(self.inner.as_slice(), other.inner.as_slice())
    }
}

#[cycle(comparing)]
fn are_same_blocks(a: &[Block], b: &[Block]) -> bool
    ensures { result ≡ blocks_eq (blocks_of a.now) (blocks_of b.now) }
{
    if a.len() != b.len() {
        return false;
    }
    for i in 0..a.len() {
        let same = a[i] == b[i];
        if !same {
            return false;
        }
    }
    true
}
