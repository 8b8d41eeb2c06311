//! Numbers in segments, so that to add one copies none. Contracts see them as a list.

ghost use Rattle.std.specs.Prelude.{◌≡◌, ◌<◌, ◌≤◌, ◌^◌, ◌+◌, ◌-◌, [], ◌∷◌, ◌++◌, length, take, slice_index, OnOk, OnErr};
ghost use Rattle.jr_places.specs.Listed.{listed};
ghost use Rattle.jr_places.specs.Segmented.{joined};

use crate::run::Run;
use crate::segment::{SEGMENT, Segment};
use std::alloc::{AllocError, Global};
use std::mem;

/// The numbers for which a new segment has room as it begins, which it leaves for that of all where more stand close: no fewer than records of
/// 60 bytes have places within 2^16 bytes, so that places of records never take the rest in vain.
const BEGUN: usize = 1100;

/// More numbers than these are refused as want of memory.
const MOST: usize = 1 << 40;

/// Numbers in order, in segments.
#[derive(Drop)]
pub struct Segments {
    alloc: Global,
    full: Vec<Segment>,
    last: Run,
    count: usize,
    ghost room: { length (listed last) ≤ 4080 },
    ghost counted: { count ≡ length (joined full.items (listed last)) },
    ghost few: { count ≤ 2 ^ 40 },
}

impl Segments {
    ghost use Rattle.jr_places.specs.Numbers.{numbers_of, HasRoomForOne};

    /// No numbers.
    pub fn new(alloc: Global) -> Segments
        ensures none { numbers_of result ≡ [] }
    {
        Segments {
            alloc,
            full: Vec::new(alloc),
            last: Run::new(alloc),
            count: 0,
        }
    }

    /// How many numbers there are.
    pub fn len(&self) -> usize
        ensures count { result ≡ length (numbers_of self.now) }
        ensures few { result ≤ 2 ^ 40 }
    {
        self.count
    }

    /// The number at a place, from 0 on.
    pub fn get(&self, i: usize) -> u64
        requires within { i < length (numbers_of self.now) }
        ensures value { result ≡ slice_index (numbers_of self.now) i }
    {
        let segment = i / SEGMENT;
        if segment < self.full.len() {
            self.full[segment].numbers.get(i % SEGMENT)
        } else {
            self.last.get(i - SEGMENT * self.full.len())
        }
    }

    /// Adds a number behind the others; an error changes nothing.
    pub fn push(&mut self, n: u64) -> Result<(), AllocError>
        ensures ok { OnOk result (numbers_of self.new ≡ numbers_of self.old ++ n ∷ []) }
        ensures err { OnErr result (numbers_of self.new ≡ numbers_of self.old) }
    {
        self.reserve()?;
        self.push_reserved(n);
        Ok(())
    }

    /// Makes room for one more number; an error changes no number.
    pub fn reserve(&mut self) -> Result<(), AllocError>
        ensures same { numbers_of self.new ≡ numbers_of self.old }
        ensures room { OnOk result (HasRoomForOne self.new) }
    {
        if self.count >= MOST {
            return Err(AllocError);
        }
        self.begin_segment()?;
        self.last.reserve()
    }

    /// Adds a number behind the others, for which there is room.
    pub fn push_reserved(&mut self, n: u64)
        requires room { HasRoomForOne self.old }
        ensures numbers { numbers_of self.new ≡ numbers_of self.old ++ n ∷ [] }
    {
        self.last.push_reserved(n);
        self.count += 1;
    }

    /// Begins a new segment where the last one is full.
    fn begin_segment(&mut self) -> Result<(), AllocError>
        ensures same { numbers_of self.new ≡ numbers_of self.old }
        ensures count { self.new.count ≡ self.old.count }
        ensures room { OnOk result (length (listed self.new.last) < 4080) }
    {
        if self.last.len() < SEGMENT {
            return Ok(());
        }
        self.full.reserve(1)?;
        let next = Run::with_capacity(self.alloc, BEGUN)?;
        let numbers = mem::replace(&mut self.last, next);
        self.full.push_reserved(Segment { numbers });
        Ok(())
    }

    /// Keeps the first `count` numbers, or all where there are fewer.
    pub fn shorten(&mut self, count: usize)
        ensures front { numbers_of self.new ≡ take count (numbers_of self.old) }
    {
        'shortening: while self.len() > count {
            self.pop();
        }
    }

    /// Drops the last number.
    fn pop(&mut self)
        requires some { 0 < length (numbers_of self.old) }
        ensures front { numbers_of self.new ≡ take (length (numbers_of self.old) - 1) (numbers_of self.old) }
        ensures count { self.new.count + 1 ≡ self.old.count }
    {
        self.reopen_segment();
        self.last.pop();
        self.count -= 1;
    }

    /// Takes the last full segment back where there is nothing behind it.
    fn reopen_segment(&mut self)
        ensures same { numbers_of self.new ≡ numbers_of self.old }
        ensures count { self.new.count ≡ self.old.count }
        ensures some { 0 < length (numbers_of self.old) → 0 < length (listed self.new.last) }
    {
        if self.last.len() == 0 {
            if let Some(segment) = self.full.pop() {
                let Segment { numbers } = segment;
                self.last = numbers;
            }
        }
    }
}
