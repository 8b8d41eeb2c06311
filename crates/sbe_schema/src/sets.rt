//! Sets of the names and of the numbers that stand before a table.

ghost use Rattle.std.specs.Prelude.{◌≡◌, OnOk};
ghost use Rattle.std.specs.FinSet as set;

use sbe_value::Bytes;
use std::alloc::{AllocError, Global};
use std::collections::BTreeSet;
use std::marker::Model;

/// A set of names.
#[derive(Drop)]
pub struct NameSet {
    inner: BTreeSet<Bytes>,
}

impl Model for NameSet {
    ghost use Rattle.std.specs.FinSet as set;
    ghost use Rattle.std.specs.Coded.{coded_list, coded_ℕ};
    ghost use Rattle.sbe_schema.specs.Names.{Names};

    ghost Value = { Names };

    ghost coded = { set.code (coded_list coded_ℕ) };

    ghost view = { λ s. set.from_list s.inner.keys };
}

impl NameSet {
    /// The empty set.
    pub fn new(alloc: Global) -> NameSet
        ensures { result ≡ set.empty }
    {
        NameSet {
            inner: BTreeSet::new(alloc),
        }
    }

    /// Whether a name is in the set.
    pub fn contains(&self, name: &Bytes) -> bool
        ensures { result ≡ set.contains self.now name.now }
    {
        self.inner.contains(name)
    }

    /// Puts a name into the set.
    pub fn insert(&mut self, alloc: Global, name: &Bytes) -> Result<(), AllocError>
        ensures { OnOk result (self.new ≡ set.insert self.old name.now) }
    {
        self.inner.insert(name.copy(alloc)?)?;
        Ok(())
    }
}

/// A set of numbers.
#[derive(Drop)]
pub struct NumberSet {
    inner: BTreeSet<i128>,
}

impl Model for NumberSet {
    ghost use Rattle.std.specs.FinSet as set;
    ghost use Rattle.std.specs.Coded.{coded_ℤ};
    ghost use Rattle.sbe_schema.specs.Names.{Numbers};

    ghost Value = { Numbers };

    ghost coded = { set.code coded_ℤ };

    ghost view = { λ s. set.from_list s.inner.keys };
}

impl NumberSet {
    /// The empty set.
    pub fn new(alloc: Global) -> NumberSet
        ensures { result ≡ set.empty }
    {
        NumberSet {
            inner: BTreeSet::new(alloc),
        }
    }

    /// Whether a number is in the set.
    pub fn contains(&self, number: i128) -> bool
        ensures { result ≡ set.contains self.now number }
    {
        self.inner.contains(&number)
    }

    /// Puts a number into the set.
    pub fn insert(&mut self, number: i128) -> Result<(), AllocError>
        ensures { OnOk result (self.new ≡ set.insert self.old number) }
    {
        self.inner.insert(number)?;
        Ok(())
    }
}
