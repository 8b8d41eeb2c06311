//! A run of numbers: distances from the first of them, in two bytes and then in four, and whole numbers from the first on that does
//! not stand near it.

ghost use Rattle.std.specs.Prelude.{◌≡◌, ◌<◌, ◌≤◌, ◌^◌, ◌+◌, ◌-◌, [], ◌∷◌, ◌++◌, length, take, slice_index, IfOk, IfSome, OnOk};
ghost use Rattle.std.specs.Vec.{vec_len, vec_capacity};

use crate::segment::SEGMENT;
use std::alloc::{AllocError, Global};

/// A number from here on is never the one that distances are from, so that no sum passes 64 bits.
const HALF: u64 = 1 << 63;

/// Numbers in order. Where each is at or past the first one, by less than 2^32, there are none in `far`; by less than 2^16, none in
/// `near`. Neither holds more than a segment.
#[derive(Drop)]
pub struct Run {
    base: u64,
    close: Vec<u16>,
    near: Vec<u32>,
    far: Vec<u64>,
    ghost low: { base < 2 ^ 63 },
    ghost few_close: { vec_len close ≤ 4080 },
    ghost few_near: { vec_len near ≤ 4080 },
}

impl Run {
    ghost use Rattle.jr_places.specs.Listed.{listed, HasRoom};

    /// No numbers, and room for so many that stand close to each other.
    pub fn with_capacity(alloc: Global, most: usize) -> Result<Run, AllocError>
        ensures none { IfOk result (λ run. listed run ≡ []) }
    {
        Ok(Run {
            base: 0,
            close: Vec::with_capacity(alloc, most)?,
            near: Vec::new(alloc),
            far: Vec::new(alloc),
        })
    }

    /// No numbers.
    pub fn new(alloc: Global) -> Run
        ensures none { listed result ≡ [] }
    {
        Run {
            base: 0,
            close: Vec::new(alloc),
            near: Vec::new(alloc),
            far: Vec::new(alloc),
        }
    }

    /// How many numbers there are.
    pub fn len(&self) -> usize
        ensures count { result ≡ length (listed self.now) }
    {
        self.close.len() + self.near.len() + self.far.len()
    }

    /// The number at a place, from 0 on.
    pub fn get(&self, i: usize) -> u64
        requires within { i < length (listed self.now) }
        ensures value { result ≡ slice_index (listed self.now) i }
    {
        if i < self.close.len() {
            return self.base + u64::from(self.close[i]);
        }
        let behind = i - self.close.len();
        if behind < self.near.len() {
            self.base + u64::from(self.near[behind])
        } else {
            self.far[behind - self.near.len()]
        }
    }

    /// Makes room for one more number, close, near or neither; an error changes no number.
    pub fn reserve(&mut self) -> Result<(), AllocError>
        ensures same { listed self.new ≡ listed self.old }
        ensures room { OnOk result (HasRoom self.new) }
    {
        let rest = SEGMENT.saturating_sub(self.len());
        grow(&mut self.close, rest)?;
        grow(&mut self.near, rest)?;
        grow(&mut self.far, rest)
    }

    /// Adds a number behind the others, for which there is room.
    pub fn push_reserved(&mut self, n: u64)
        requires room { HasRoom self.old }
        ensures numbers { listed self.new ≡ listed self.old ++ n ∷ [] }
    {
        if self.close.is_empty() && self.near.is_empty() && n < HALF {
            self.base = n;
        }
        match short_distance(self.base, n) {
            Some(d) if self.near.is_empty() && self.far.is_empty() && self.close.len() < SEGMENT =>
                self.close.push_reserved(d),
            _ => self.push_behind(n),
        }
    }

    /// Adds a number behind those that stand close, for which there is room.
    fn push_behind(&mut self, n: u64)
        requires room { HasRoom self.old }
        ensures numbers { listed self.new ≡ listed self.old ++ n ∷ [] }
    {
        match distance(self.base, n) {
            Some(d) if self.far.is_empty() && self.near.len() < SEGMENT => {
                self.near.push_reserved(d);
            }
            _ => self.far.push_reserved(n),
        }
    }

    /// Drops the last number.
    pub fn pop(&mut self)
        requires some { 0 < length (listed self.old) }
        ensures front { listed self.new ≡ take (length (listed self.old) - 1) (listed self.old) }
    {
        if !self.far.is_empty() {
            let _ = self.far.pop();
        } else if !self.near.is_empty() {
            let _ = self.near.pop();
        } else {
            let _ = self.close.pop();
        }
    }
}

/// How far a number stands past another, where that is less than 2^32.
fn distance(from: u64, n: u64) -> Option<u32>
    ensures sum { IfSome result (λ d. from + d ≡ n) }
{
    u32::try_from(n.checked_sub(from)?).ok()
}

/// How far a number stands past another, where that is less than 2^16.
fn short_distance(from: u64, n: u64) -> Option<u16>
    ensures sum { IfSome result (λ d. from + d ≡ n) }
{
    u16::try_from(n.checked_sub(from)?).ok()
}

/// Makes room for one more number: a few where there is none yet, and for those of the rest of a segment where there are some, so that they
/// are copied once.
fn grow<T>(numbers: &mut Vec<T>, rest: usize) -> Result<(), AllocError>
    ensures same { numbers.new.items ≡ numbers.old.items }
    ensures room { OnOk result (vec_len numbers.new < vec_capacity numbers.new) }
{
    if numbers.is_empty() {
        return numbers.reserve(1);
    }
    if numbers.len() == numbers.capacity() {
        return numbers.reserve_exact(rest.max(1));
    }
    Ok(())
}
