//! One list type for the public types of the repository: a `Vec` that contracts
//! see as the list of its elements. It stands on nothing but std.
#![tactic(auto)]

ghost use Rattle.std.specs.Prelude.{◌≡◌, ◌↔◌, [], ◌∷◌, ◌++◌, length, IsTrue, IfOk, OnOk, OnErr};
ghost use Rattle.std.specs.Cmp.Lexicographic.{pointwise};
ghost use Rattle.lists.specs.Exact.{Exact};

use std::alloc::{AllocError, Global};
use std::cmp::Ordering;
use std::marker::Model;

/// A type whose values can be copied, and whose test of equality is exact.
pub trait Element: PartialEq + Drop {
    /// An equal value of its own.
    fn copy(&self, alloc: Global) -> Result<Self, AllocError>
        ensures { IfOk result (λ value. value ≡ self.now) };

    /// Equal values of their own, in order.
    fn copy_all(alloc: Global, elements: &[Self]) -> Result<Vec<Self>, AllocError>
        ensures { IfOk result (λ values. values.items ≡ elements.now) }
    {
        let mut copies = Vec::with_capacity(alloc, elements.len())?;
        for element in elements {
            copies.push(element.copy(alloc)?)?;
        }
        Ok(copies)
    }

    ghost exact: { Exact Self.eq };
}

/// Whether two values are equal.
pub fn are_equal<T: Element>(a: &T, b: &T) -> bool
    ensures { IsTrue result ↔ (a.now ≡ b.now) }
{
    *a == *b
}

/// A list of elements in order.
#[derive(Debug, Drop)]
pub struct List<T> {
    inner: Vec<T>,
}

impl<T> Model for List<T> {
    ghost use Rattle.std.specs.Prelude.{List};

    ghost Value = { List T };

    ghost view = { λ l. l.inner.items };
}

impl<T> From<Vec<T>> for List<T> {
    ghost from_gives = { λ v l. l ≡ v.items };

    fn from(inner: Vec<T>) -> List<T> {
        List { inner }
    }
}

impl<T> From<List<T>> for Vec<T> {
    ghost from_gives = { λ l v. v.items ≡ l };

    fn from(list: List<T>) -> Vec<T> {
        let List { inner } = list;
        inner
    }
}

impl<T> List<T> {
    /// The empty list; it takes no memory until something is added.
    pub fn new(alloc: Global) -> List<T>
        ensures { result ≡ [] }
    {
        List {
            inner: Vec::new(alloc),
        }
    }

    /// The list of these elements.
    pub fn from_slice(alloc: Global, elements: &[T]) -> Result<List<T>, AllocError>
    where
        T: Copy,
        ensures { IfOk result (λ l. l ≡ elements.now) }
    {
        let inner = Vec::from_slice(alloc, elements)?;
        Ok(List { inner })
    }

    /// The number of elements.
    pub fn len(&self) -> usize
        ensures { result ≡ length self.now }
    {
        self.inner.len()
    }

    /// Whether there are none.
    pub fn is_empty(&self) -> bool
        ensures { IsTrue result ↔ (self.now ≡ []) }
    {
        self.inner.is_empty()
    }

    /// The elements in order.
    pub fn as_slice(&self) -> &[T]
        ensures { result.now ≡ self.now }
    {
        self.inner.as_slice()
    }

    /// Adds one at the end; an error changes nothing.
    pub fn push(&mut self, element: T) -> Result<(), AllocError>
    where
        T: Drop,
        ensures ok { OnOk result (self.new ≡ self.old ++ element ∷ []) }
        ensures err { OnErr result (self.new ≡ self.old) }
    {
        self.inner.push(element)?;
        Ok(())
    }

    /// Adds elements at the end; an error changes nothing.
    pub fn extend_from_slice(&mut self, elements: &[T]) -> Result<(), AllocError>
    where
        T: Copy,
        ensures ok { OnOk result (self.new ≡ self.old ++ elements.now) }
        ensures err { OnErr result (self.new ≡ self.old) }
    {
        self.inner.extend_from_slice(elements)
    }
}

impl<T: Element> List<T> {
    /// An equal list of its own.
    pub fn copy(&self, alloc: Global) -> Result<List<T>, AllocError>
        ensures { IfOk result (λ l. l ≡ self.now) }
    {
        let inner = T::copy_all(alloc, self.inner.as_slice())?;
        Ok(List { inner })
    }
}

impl<T: Element> Element for List<T> {
    ghost use Rattle.std.specs.Cmp.Lexicographic.{pointwise_decides};

    fn copy(&self, alloc: Global) -> Result<List<T>, AllocError> {
        List::copy(self, alloc)
    }

    ghost exact = { pointwise_decides T.exact };
}

impl Element for u8 {
    ghost use Rattle.std.proofs.lemmas.Bool.Decides.{Decides-eqb};

    fn copy(&self, _alloc: Global) -> Result<u8, AllocError> {
        Ok(*self)
    }

    fn copy_all(alloc: Global, elements: &[u8]) -> Result<Vec<u8>, AllocError>
        ensures { IfOk result (λ values. values.items ≡ elements.now) }
    {
        Vec::from_slice(alloc, elements)
    }

    ghost exact = { Decides-eqb };
}

impl<T: Element> PartialEq for List<T> {
    ghost use Rattle.std.specs.Cmp.Lexicographic.{lists_per};

    ghost eq = { pointwise T.eq };

    ghost laws = { lists_per T.PartialEq.laws };

    fn eq(&self, other: &List<T>) -> bool
        ensures exact { IsTrue result ↔ (self.now ≡ other.now) }
        ensures computed { result ≡ pointwise T.eq self.now other.now }
    {
        self.inner.as_slice() == other.inner.as_slice()
    }
}

impl<T: Element + Eq> Eq for List<T> {
    ghost use Rattle.std.specs.Cmp.Lexicographic.{lists_equiv};

    ghost laws = { lists_equiv T.Eq.laws };
}

impl<T: Element + Ord> PartialOrd for List<T> {
    ghost use Rattle.std.specs.Prelude.{refl};
    ghost use Rattle.std.specs.Cmp.{partial_order_from_agreeing_total};
    ghost use Rattle.std.specs.Cmp.Lexicographic.{slice_cmp, lists_total, lists_ties};
    ghost use Rattle.std.specs.Ordering.{as_partial_cmp};

    ghost partial_cmp = { as_partial_cmp (slice_cmp T.cmp) };

    ghost laws = { partial_order_from_agreeing_total (slice_cmp T.cmp) (lists_total T.total) (λ x y. refl) (lists_ties T.cmp T.matches_eq) };

    fn partial_cmp(&self, other: &List<T>) -> Option<Ordering> {
        Some(self.cmp(other))
    }
}

impl<T: Element + Ord> Ord for List<T> {
    ghost use Rattle.std.specs.Prelude.{refl};
    ghost use Rattle.std.specs.Cmp.Lexicographic.{slice_cmp, lists_total, lists_ties};

    ghost cmp = { slice_cmp T.cmp };

    ghost total = { lists_total T.total };

    ghost matches_partial_cmp = { λ x y. refl };

    ghost matches_eq = { lists_ties T.cmp T.matches_eq };

    fn cmp(&self, other: &List<T>) -> Ordering {
        self.inner.cmp(&other.inner)
    }
}
