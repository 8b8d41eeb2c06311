//! A disk in memory: it tells its content exactly, fails at the calls that it is told to, and can be stopped.

ghost use Rattle.std.specs.Prelude.{◌≡◌, ℕ, [], ◌+◌, ◌-◌, ◌^◌, ◌<◌, ◌≤◌, ◌++◌, ◌||◌, ◌*◌, nat_lt, min, max, Some, IsTrue, IfOk, IfSome, IsErr, OnOk, OnErr, is_ok, is_some, length, not, take, drop, replicate, true, false, None, vec_capacity};
ghost use Rattle.std.specs.Option.{option_map};
ghost use Rattle.gw_outside.specs.Disk.{Follows, IsAllLeft, LeavesSame, ReadsAt, Torn, written};
ghost use Rattle.gw_outside.specs.Faults.{HasCause};
ghost use Rattle.gw_fakes.specs.Disks.{IsSound, image_of, is_left, is_still, marked, none_pending, pending_from, spoiled};

use crate::calls::Calls;
use crate::meter::Meter;
use gw_outside::{Disk, Failed};
use std::alloc::{AllocError, Global};

/// The greatest length of a disk, in bytes: 2^40.
const LIMIT: usize = 1 << 40;

/// What stands in the place of a byte that was pending at a stop.
const NOISE: u8 = 0xA5;

/// What a stop makes of the writes that no sync followed.
#[derive(Clone, Copy, Debug)]
pub enum Pick {
    /// None of them stands: the content of the last sync.
    Old,
    /// All of them stand: the content that a read gave.
    Kept,
    /// Each byte that they reached is 0xA5.
    Noise,
}

/// A disk in memory of a fixed room.
#[derive(Drop)]
pub struct MemDisk {
    content: Vec<u8>,
    synced: Vec<u8>,
    /// Of the places from `low` on, as far as writes since the last sync reach, whether one of them reached it.
    pending: Vec<bool>,
    low: usize,
    room: usize,
    meter: Meter,
    ghost sound: { IsSound content.items synced.items (pending_from low pending.items (length synced.items)) low (low + length pending.items) room },
    ghost begun: { low ≤ length synced.items },
    ghost content_room: { room ≤ vec_capacity content },
    ghost synced_room: { room ≤ vec_capacity synced },
    ghost pending_room: { room ≤ vec_capacity pending },
}

// Writes over what stands at the place and past the end.
fn put(content: &mut Vec<u8>, at: usize, bytes: &[u8])
    requires place { at ≤ length content.old.items }
    requires room { at + length bytes.now ≤ vec_capacity content.old }
    ensures items { content.new.items ≡ written at bytes.now content.old.items }
    ensures room { vec_capacity content.old ≤ vec_capacity content.new }
{
    let end = at + bytes.len();
    let len = content.len().max(end);
    if content.resize(len, 0).is_err() {
        unreachable!()
    }
    content[at..end].copy_from_slice(bytes);
}

// Puts so many places without a pending write in front of the others.
fn open_front(pending: &mut Vec<bool>, count: usize)
    requires room { count + length pending.old.items ≤ vec_capacity pending.old }
    ensures items { pending.new.items ≡ replicate count false ++ pending.old.items }
    ensures room { vec_capacity pending.old ≤ vec_capacity pending.new }
{
    if pending.resize(pending.len() + count, false).is_err() {
        unreachable!()
    }
    pending.rotate_right(count);
}

// Has what is said of pending writes begin at the place, where it begins behind it or is nothing, and answers where it begins.
fn reach(pending: &mut Vec<bool>, low: usize, at: usize) -> usize
    requires room { low + length pending.old.items ≤ vec_capacity pending.old }
    ensures before { result ≤ at }
    ensures same { (len : ℕ) → low ≤ len → at ≤ length (pending_from low pending.old.items len) → pending_from result pending.new.items len ≡ pending_from low pending.old.items len }
    ensures within { (len : ℕ) → low ≤ len → at ≤ length (pending_from low pending.old.items len) → result ≤ len }
    ensures end { result + length pending.new.items ≤ max at (low + length pending.old.items) }
    ensures room { vec_capacity pending.old ≤ vec_capacity pending.new }
{
    if pending.is_empty() {
        return at;
    }
    if low <= at {
        return low;
    }
    open_front(pending, low - at);
    at
}

// Says of `count` places from the one at `at` on that a write is pending.
fn set(pending: &mut Vec<bool>, at: usize, count: usize)
    requires place { at ≤ length pending.old.items }
    requires room { at + count ≤ vec_capacity pending.old }
    ensures items { pending.new.items ≡ marked at count pending.old.items }
    ensures room { vec_capacity pending.old ≤ vec_capacity pending.new }
{
    let end = at + count;
    let len = pending.len().max(end);
    if pending.resize(len, true).is_err() {
        unreachable!()
    }
    pending[at..end].fill(true);
}

// Says of `count` places of the disk from `at` on that a write is pending, and answers where what is said begins.
fn mark(pending: &mut Vec<bool>, low: usize, at: usize, count: usize) -> usize
    requires room { low + length pending.old.items ≤ vec_capacity pending.old }
    requires end { at + count ≤ vec_capacity pending.old }
    ensures items { (len : ℕ) → low ≤ len → at ≤ length (pending_from low pending.old.items len) → pending_from result pending.new.items len ≡ marked at count (pending_from low pending.old.items len) }
    ensures within { (len : ℕ) → low ≤ len → at ≤ length (pending_from low pending.old.items len) → result ≤ len }
    ensures room { vec_capacity pending.old ≤ vec_capacity pending.new }
{
    let low = reach(pending, low, at);
    let start = at - low;
    let len = pending.len().max(start);
    if pending.resize(len, false).is_err() {
        unreachable!()
    }
    set(pending, start, count);
    low
}

// Puts other bytes in the place of all.
fn renew(content: &mut Vec<u8>, bytes: &[u8])
    requires room { length bytes.now ≤ vec_capacity content.old }
    ensures items { content.new.items ≡ bytes.now }
    ensures room { vec_capacity content.old ≤ vec_capacity content.new }
{
    content.clear();
    if content.extend_from_slice(bytes).is_err() {
        unreachable!()
    }
}

// Puts noise in each place where a write is pending.
fn spoil(content: &mut [u8], pending: &[bool])
    requires within { length content.old ≤ length pending.now }
    ensures items { content.new ≡ spoiled content.old pending.now }
{
    for place in 0..content.len() {
        if pending[place] {
            content[place] = NOISE;
        }
    }
}

// Puts noise behind the content, up to `len` bytes.
fn fill_up(content: &mut Vec<u8>, len: usize)
    requires grows { length content.old.items ≤ len }
    requires room { len ≤ vec_capacity content.old }
    ensures items { content.new.items ≡ content.old.items ++ replicate (len - length content.old.items) 165 }
    ensures room { vec_capacity content.old ≤ vec_capacity content.new }
{
    if content.resize(len, NOISE).is_err() {
        unreachable!()
    }
}

// Says of all places of a disk whether a write is pending, where `len` bytes of it were synced and `pending` begins at `low`.
fn spread(pending: &mut Vec<bool>, low: usize, len: usize)
    requires room { low + length pending.old.items ≤ vec_capacity pending.old }
    requires synced { len ≤ vec_capacity pending.old }
    requires within { low ≤ len }
    ensures items { pending.new.items ≡ pending_from low pending.old.items len }
    ensures room { vec_capacity pending.old ≤ vec_capacity pending.new }
{
    open_front(pending, low);
    let len = pending.len().max(len);
    if pending.resize(len, false).is_err() {
        unreachable!()
    }
}

// Puts what a stop leaves in the place of the content.
fn leave(content: &mut Vec<u8>, synced: &[u8], pending: &[bool], pick: Pick)
    requires covered { length synced.now ≤ length pending.now }
    requires room { length pending.now ≤ vec_capacity content.old }
    ensures items { content.new.items ≡ image_of pick content.old.items synced.now pending.now }
    ensures room { vec_capacity content.old ≤ vec_capacity content.new }
{
    match pick {
        Pick::Old => renew(content, synced),
        Pick::Kept => (),
        Pick::Noise => {
            renew(content, synced);
            spoil(content, pending);
            fill_up(content, pending.len());
        }
    }
}

// Copies what was pending, and what grew.
fn settle(content: &[u8], synced: &mut Vec<u8>, low: usize, high: usize)
    requires room { length content.now ≤ vec_capacity synced.old }
    requires grown { length synced.old.items ≤ length content.now }
    requires below { take (min low (length synced.old.items)) content.now ≡ take (min low (length synced.old.items)) synced.old.items }
    requires above { drop (min high (length synced.old.items)) content.now ≡ drop (min high (length synced.old.items)) synced.old.items ++ drop (length synced.old.items) content.now }
    ensures items { synced.new.items ≡ content.now }
    ensures room { vec_capacity synced.old ≤ vec_capacity synced.new }
{
    let (_, grown) = content.split_at(synced.len());
    let end = high.min(synced.len());
    let start = low.min(end);
    let (_, behind) = content.split_at(start);
    let (changed, _) = behind.split_at(end - start);
    put(synced, start, changed);
    if synced.extend_from_slice(grown).is_err() {
        unreachable!()
    }
}

impl MemDisk {
    ghost use Rattle.gw_fakes.specs.Disks.{empty_disk, fused, placed, stopped};
    ghost use Rattle.gw_fakes.specs.MemDisks.{state_of};

    /// An empty disk of `room` bytes, 2^40 at most, whose calls in `fail` fail.
    ///
    /// # Errors
    /// Want of memory for the room.
    pub fn new(alloc: Global, room: usize, fail: Calls) -> Result<MemDisk, AllocError>
        ensures fresh { IfOk result (λ d. state_of d ≡ empty_disk (min room (2 ^ 40)) fail) }
    {
        let room = room.min(LIMIT);
        Ok(MemDisk {
            content: Vec::with_capacity(alloc, room)?,
            synced: Vec::with_capacity(alloc, room)?,
            pending: Vec::with_capacity(alloc, room)?,
            low: 0,
            room,
            meter: Meter::new(fail),
        })
    }

    /// An empty disk of `room` bytes, 2^40 at most, where only want of room fails.
    ///
    /// # Errors
    /// Want of memory for the room.
    pub fn without_faults(alloc: Global, room: usize) -> Result<MemDisk, AllocError>
        ensures fresh { IfOk result (λ d. state_of d ≡ empty_disk (min room (2 ^ 40)) []) }
    {
        MemDisk::new(alloc, room, Calls::from(Vec::new(alloc)))
    }

    /// What a read gives. It counts as no call.
    pub fn content(&self) -> &[u8]
        ensures value { result.now ≡ (state_of self.now).content }
    {
        self.content.as_slice()
    }

    /// Lets `calls` more calls pass; every later one fails and changes nothing.
    pub fn fuse(&mut self, calls: u64)
        ensures after { state_of self.new ≡ fused calls (state_of self.old) }
    {
        self.meter.fuse = Some(calls);
    }

    /// The disk after a stop: all of it as `pick` says, with nothing pending and no fuse. The counts of calls and faults go
    /// on.
    pub fn stop(self, pick: Pick) -> MemDisk
        ensures after { state_of result ≡ stopped pick (state_of self) }
        ensures image { IsTrue (is_left (state_of self).synced (state_of self).pending (state_of result).content) }
    {
        let MemDisk {
            mut content,
            mut synced,
            mut pending,
            low,
            room,
            mut meter,
        } = self;
        let high = low + pending.len();
        spread(&mut pending, low, synced.len());
        leave(&mut content, &synced, &pending, pick);
        settle(&content, &mut synced, low, high);
        pending.clear();
        meter.fuse = None;
        MemDisk {
            content,
            synced,
            pending,
            low: 0,
            room,
            meter,
        }
    }

    // Writes within the room. Where it does not stand, the range is pending and the content as it was.
    fn write_within(&mut self, at: usize, bytes: &[u8], stands: bool)
        requires place { at ≤ length self.old.content.items }
        requires room { at + length bytes.now ≤ self.old.room }
        ensures after { state_of self.new ≡ placed (state_of self.old) at bytes.now stands }
        ensures torn { Follows (Torn at (length bytes.now)) (λ image. IsTrue (is_left self.old.synced.items (state_of self.old).pending image)) (λ image. IsTrue (is_left self.new.synced.items (state_of self.new).pending image)) }
    {
        self.low = mark(&mut self.pending, self.low, at, bytes.len());
        if stands {
            put(&mut self.content, at, bytes);
        }
    }
}

impl Disk for MemDisk {
    ghost use Rattle.gw_fakes.specs.DiskLaws.{left-limited, none_told, told_left};
    ghost use Rattle.gw_fakes.specs.Disks.{after_sync, after_write, met, refuses_call, refuses_write};
    ghost use Rattle.gw_fakes.specs.MemDisks.{state_of};

    ghost told = { λ d. Some d.content.items };

    ghost may_leave = { λ d image. IsTrue (is_left d.synced.items (state_of d).pending image) };

    ghost faults = { λ d. d.meter.faults };

    ghost told_is_left = { λ d content is. told_left _ _ content _ d.sound.left is };

    ghost untold = { λ d content is _. none_told _ is };

    ghost limited = { λ d image left. left-limited _ _ _ _ _ _ image d.sound left };

    fn length(&mut self) -> Result<u64, Failed>
        ensures within { IfOk result (λ n. n ≤ 2 ^ 40) }
        ensures value { IfOk result (λ n. IfSome (Some self.old.content.items) (λ content. n ≡ length content)) }
        ensures content { Some self.new.content.items ≡ Some self.old.content.items }
        ensures images { LeavesSame (λ image. IsTrue (is_left self.old.synced.items (state_of self.old).pending image)) (λ image. IsTrue (is_left self.new.synced.items (state_of self.new).pending image)) }
        ensures cause { HasCause self.old.meter.faults self.new.meter.faults result }

        // Exactly the calls past the fuse and those that are to fail do.
        ensures fails { is_ok result ≡ not (refuses_call self.old.meter) }
        ensures after { state_of self.new ≡ record (state_of self.old) { meter = met self.old.meter } }
    {
        self.meter.meet()?;
        Ok(self.content.len() as u64)
    }

    fn read_at(&mut self, at: u64, into: &mut [u8]) -> Result<usize, Failed>
        ensures count { IfOk result (λ n. n ≤ length into.new) }
        ensures bytes { IfOk result (λ n. IfSome (Some self.old.content.items) (λ content. ReadsAt content at into.new n)) }
        ensures content { Some self.new.content.items ≡ Some self.old.content.items }
        ensures images { LeavesSame (λ image. IsTrue (is_left self.old.synced.items (state_of self.old).pending image)) (λ image. IsTrue (is_left self.new.synced.items (state_of self.new).pending image)) }
        ensures cause { HasCause self.old.meter.faults self.new.meter.faults result }
        ensures fails { is_ok result ≡ not (refuses_call self.old.meter) }
        ensures after { state_of self.new ≡ record (state_of self.old) { meter = met self.old.meter } }
    {
        self.meter.meet()?;
        let start = at.min(self.content.len() as u64) as usize;
        let (_, rest) = self.content.as_slice().split_at(start);
        let count = rest.len().min(into.len());
        let (next, _) = rest.split_at(count);
        into[..count].copy_from_slice(next);
        Ok(count)
    }

    fn write_at(&mut self, at: u64, bytes: &[u8]) -> Result<(), Failed>
        requires { at ≤ length self.old.content.items }
        ensures content { OnOk result (Some self.new.content.items ≡ option_map (written at bytes.now) (Some self.old.content.items)) }
        ensures tells { is_some (Some self.new.content.items) ≡ is_some (Some self.old.content.items) }
        ensures images { Follows (Torn at (length bytes.now)) (λ image. IsTrue (is_left self.old.synced.items (state_of self.old).pending image)) (λ image. IsTrue (is_left self.new.synced.items (state_of self.new).pending image)) }
        ensures limit { 2 ^ 40 < at + length bytes.now → IsErr result }
        ensures limit_content { 2 ^ 40 < at + length bytes.now → Some self.new.content.items ≡ Some self.old.content.items }
        ensures limit_images { 2 ^ 40 < at + length bytes.now → LeavesSame (λ image. IsTrue (is_left self.old.synced.items (state_of self.old).pending image)) (λ image. IsTrue (is_left self.new.synced.items (state_of self.new).pending image)) }
        ensures cause { HasCause self.old.meter.faults self.new.meter.faults result }

        // Exactly the calls past the fuse, those past the room and those that are to fail do.
        ensures fails { is_ok result ≡ not (refuses_write (state_of self.old) at (length bytes.now)) }
        ensures after { state_of self.new ≡ after_write (state_of self.old) at bytes.now }
    {
        let blown = self.meter.is_blown();
        let fails = self.meter.count();
        let at = at as usize;
        if blown || self.room - at < bytes.len() {
            return Err(self.meter.fault());
        }
        self.write_within(at, bytes, !fails);
        if fails {
            return Err(self.meter.fault());
        }
        Ok(())
    }

    fn sync(&mut self) -> Result<(), Failed>
        ensures content { Some self.new.content.items ≡ Some self.old.content.items }
        ensures settled { OnOk result (IsAllLeft (Some self.old.content.items) (λ image. IsTrue (is_left self.new.synced.items (state_of self.new).pending image))) }
        ensures images { OnErr result (LeavesSame (λ image. IsTrue (is_left self.old.synced.items (state_of self.old).pending image)) (λ image. IsTrue (is_left self.new.synced.items (state_of self.new).pending image))) }
        ensures cause { HasCause self.old.meter.faults self.new.meter.faults result }
        ensures fails { is_ok result ≡ not (refuses_call self.old.meter) }
        ensures after { state_of self.new ≡ after_sync (state_of self.old) }
    {
        self.meter.meet()?;
        settle(
            &self.content,
            &mut self.synced,
            self.low,
            self.low + self.pending.len(),
        );
        self.pending.clear();
        self.low = 0;
        Ok(())
    }
}
