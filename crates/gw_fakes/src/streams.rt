//! A source and a sink in memory: they tell their content exactly, and fail at the calls that they are told to.

ghost use Rattle.std.specs.Prelude.{◌≡◌, ◌<◌, ◌≤◌, ◌-◌, [], ◌++◌, length, min, take, is_ok, not, Some, IfOk, OnOk};
ghost use Rattle.std.specs.Io.KnownBytes.{ReadConsumes, WriteAppends};
ghost use Rattle.gw_outside.specs.Faults.{HasCause};
ghost use Rattle.gw_fakes.specs.InMemory.{fails_next, pulled, pushed, refuses};

use crate::calls::Calls;
use gw_outside::{Bytes, Failed, Sink, Source};
use std::alloc::{AllocError, Global};
use std::marker::Model;

/// A source over bytes in memory.
#[derive(Drop)]
pub struct MemSource {
    bytes: Bytes,
    at: usize,
    piece: usize,
    fail: Calls,
    calls: u64,
    faults: u64,
}

impl Model for MemSource {
    ghost use Rattle.std.specs.Prelude.{◌≤◌, ◌<◌, length, drop};
    ghost use Rattle.gw_fakes.specs.InMemory.{Input};

    ghost Value = { Input };

    ghost view = { λ s. record { left = drop s.at s.bytes; piece = s.piece; fail = s.fail; calls = s.calls; faults = s.faults } };

    ghost invariant = { λ s. (s.at ≤ length s.bytes) × (0 < s.piece) };
}

impl MemSource {
    /// A source of `bytes`, at most `piece` of them a pull, whose calls in `fail` fail.
    pub fn new(bytes: Bytes, piece: usize, fail: Calls) -> MemSource
        requires { 0 < piece }
        ensures bytes { result.left ≡ bytes }
        ensures piece { result.piece ≡ piece }
        ensures fail { result.fail ≡ fail }
        ensures fresh { (result.calls ≡ 0) × (result.faults ≡ 0) }
    {
        MemSource {
            bytes,
            at: 0,
            piece,
            fail,
            calls: 0,
            faults: 0,
        }
    }

    /// A source of `bytes`, at most `piece` of them a pull, that never fails.
    pub fn without_faults(alloc: Global, bytes: Bytes, piece: usize) -> MemSource
        requires { 0 < piece }
        ensures bytes { result.left ≡ bytes }
        ensures piece { result.piece ≡ piece }
        ensures fail { result.fail ≡ [] }
        ensures fresh { (result.calls ≡ 0) × (result.faults ≡ 0) }
    {
        MemSource::new(bytes, piece, Calls::from(Vec::new(alloc)))
    }
}

impl Source for MemSource {
    ghost left = { λ s. Some s.left };

    ghost faults = { λ s. s.faults };

    fn pull(&mut self, into: &mut [u8]) -> Result<usize, Failed>
        requires { 0 < length into.old }
        ensures count { IfOk result (λ n. n ≤ length into.new) }
        ensures bytes { ReadConsumes (Some self.old.left) (Some self.new.left) result into.new }
        ensures cause { HasCause self.old.faults self.new.faults result }

        // Exactly the calls that are to fail do, and every other gives all that fits.
        ensures fails { is_ok result ≡ not (fails_next self.old.fail self.old.calls) }
        ensures after { self.new ≡ pulled self.old (length into.old) }
        ensures given { IfOk result (λ n. take n into.new ≡ take (min self.old.piece (length into.old)) self.old.left) }
    {
        self.calls = self.calls.saturating_add(1);
        if self.fail.contains(self.calls) {
            self.faults = self.faults.saturating_add(1);
            return Err(Failed);
        }
        let (_, rest) = self.bytes.as_slice().split_at(self.at);
        let count = self.piece.min(into.len()).min(rest.len());
        let (next, _) = rest.split_at(count);
        into[..count].copy_from_slice(next);
        self.at += count;
        Ok(count)
    }
}

/// A sink into memory of a fixed room.
#[derive(Drop)]
pub struct MemSink {
    taken: Vec<u8>,
    room: usize,
    fail: Calls,
    calls: u64,
    faults: u64,
}

impl Model for MemSink {
    ghost use Rattle.std.specs.Prelude.{◌≤◌, length, vec_capacity};
    ghost use Rattle.gw_fakes.specs.InMemory.{Output};

    ghost Value = { Output };

    ghost view = { λ k. record { taken = k.taken.items; room = k.room; fail = k.fail; calls = k.calls; faults = k.faults } };

    ghost invariant = { λ k. (length k.taken.items ≤ k.room) × (k.room ≤ vec_capacity k.taken) };
}

impl MemSink {
    /// An empty sink of `room` bytes, whose calls in `fail` fail.
    ///
    /// # Errors
    /// Want of memory for the room.
    pub fn new(alloc: Global, room: usize, fail: Calls) -> Result<MemSink, AllocError>
        ensures empty { IfOk result (λ k. k.taken ≡ []) }
        ensures room { IfOk result (λ k. k.room ≡ room) }
        ensures fail { IfOk result (λ k. k.fail ≡ fail) }
        ensures fresh { IfOk result (λ k. (k.calls ≡ 0) × (k.faults ≡ 0)) }
    {
        Ok(MemSink {
            taken: Vec::with_capacity(alloc, room)?,
            room,
            fail,
            calls: 0,
            faults: 0,
        })
    }

    /// An empty sink of `room` bytes, where only want of room fails.
    ///
    /// # Errors
    /// Want of memory for the room.
    pub fn without_faults(alloc: Global, room: usize) -> Result<MemSink, AllocError>
        ensures empty { IfOk result (λ k. k.taken ≡ []) }
        ensures room { IfOk result (λ k. k.room ≡ room) }
        ensures fail { IfOk result (λ k. k.fail ≡ []) }
        ensures fresh { IfOk result (λ k. (k.calls ≡ 0) × (k.faults ≡ 0)) }
    {
        MemSink::new(alloc, room, Calls::from(Vec::new(alloc)))
    }

    /// What the sink has taken.
    pub fn taken(&self) -> &[u8]
        ensures value { result.now ≡ self.now.taken }
    {
        self.taken.as_slice()
    }
}

impl Sink for MemSink {
    ghost taken = { λ k. Some k.taken };

    ghost faults = { λ k. k.faults };

    fn push(&mut self, bytes: &[u8]) -> Result<usize, Failed>
        ensures count { IfOk result (λ n. n ≤ length bytes.now) }
        ensures some { 0 < length bytes.now → IfOk result (λ n. 0 < n) }
        ensures bytes { WriteAppends (Some self.old.taken) (Some self.new.taken) result bytes.now }
        ensures cause { HasCause self.old.faults self.new.faults result }

        // Exactly the calls that are to fail and those past the room do, and every other takes all.
        ensures fails { is_ok result ≡ not (refuses self.old (length bytes.now)) }
        ensures after { self.new ≡ pushed self.old bytes.now }
        ensures whole { IfOk result (λ n. n ≡ length bytes.now) }
    {
        self.calls = self.calls.saturating_add(1);
        if self.fail.contains(self.calls) || self.room - self.taken.len() < bytes.len() {
            self.faults = self.faults.saturating_add(1);
            return Err(Failed);
        }
        match self.taken.extend_from_slice(bytes) {
            Ok(()) => Ok(bytes.len()),
            Err(_) => unreachable!(),
        }
    }
}
