//! A sink in memory that appends.

ghost use Rattle.std.specs.Prelude.{◌≡◌, ◌<◌, ◌≤◌, ◌-◌, ◌^◌, ◌++◌, true, false, length, min, take, is_ok, not, Some, IfOk, IfSome, IfNone, OnOk, OnErr};
ghost use Rattle.std.specs.Option.{ForSome, option_map};
ghost use Rattle.std.specs.Io.KnownBytes.{WriteAppends};
ghost use Rattle.gw_outside.specs.Disk.{ReadsAt};
ghost use Rattle.gw_outside.specs.Faults.{HasCause};
ghost use Rattle.gw_fakes.specs.InMemory.{fails_next, pushed, refuses};
ghost use Rattle.gw_appended_fakes.specs.Appended.{met, cut_to};

use gw_appended::Appended;
use gw_fakes::Calls;
use gw_outside::{Failed, Sink};
use std::alloc::{AllocError, Global};
use std::marker::Model;

/// A sink into memory of a fixed room, which held something at first.
#[derive(Drop)]
pub struct MemAppended {
    content: Vec<u8>,
    room: usize,
    fail: Calls,
    calls: u64,
    faults: u64,
}

impl Model for MemAppended {
    ghost use Rattle.std.specs.Prelude.{◌≤◌, ◌^◌, length, vec_capacity};
    ghost use Rattle.gw_fakes.specs.InMemory.{Output};

    ghost Value = { Output };

    ghost view = { λ k. record { taken = k.content.items; room = k.room; fail = k.fail; calls = k.calls; faults = k.faults } };

    ghost invariant = { λ k. (length k.content.items ≤ k.room) × (k.room ≤ vec_capacity k.content) × (k.room ≤ 2 ^ 40) };
}

impl MemAppended {
    /// A sink of `room` bytes that holds these, whose calls in `fail` fail.
    ///
    /// # Errors
    /// Want of memory for the room.
    pub fn new(
        alloc: Global,
        held: &[u8],
        room: usize,
        fail: Calls,
    ) -> Result<MemAppended, AllocError>
        requires fits { length held.now ≤ room }
        requires limit { room ≤ 2 ^ 40 }
        ensures held { IfOk result (λ k. k.taken ≡ held.now) }
        ensures room { IfOk result (λ k. k.room ≡ room) }
        ensures fail { IfOk result (λ k. k.fail ≡ fail) }
        ensures fresh { IfOk result (λ k. (k.calls ≡ 0) × (k.faults ≡ 0)) }
    {
        let mut content = Vec::with_capacity(alloc, room)?;
        content.extend_from_slice(held)?;
        Ok(MemAppended {
            content,
            room,
            fail,
            calls: 0,
            faults: 0,
        })
    }

    /// What it holds. It counts as no call.
    pub fn content(&self) -> &[u8]
        ensures value { result.now ≡ self.now.taken }
    {
        self.content.as_slice()
    }

    /// Counts a call, and fails where it is one of those that are to.
    fn meet(&mut self) -> Result<(), Failed>
        ensures fails { is_ok result ≡ not (fails_next self.old.fail self.old.calls) }
        ensures after { self.new ≡ met self.old }
        ensures cause { HasCause self.old.faults self.new.faults result }
    {
        self.calls = self.calls.saturating_add(1);
        if self.fail.contains(self.calls) {
            self.faults = self.faults.saturating_add(1);
            return Err(Failed);
        }
        Ok(())
    }
}

impl Sink for MemAppended {
    ghost taken = { λ k. Some k.taken };

    ghost faults = { λ k. k.faults };

    fn push(&mut self, bytes: &[u8]) -> Result<usize, Failed>
        ensures count { IfOk result (λ n. n ≤ length bytes.now) }
        ensures some { 0 < length bytes.now → IfOk result (λ n. 0 < n) }
        ensures bytes { WriteAppends (Some self.old.taken) (Some self.new.taken) result bytes.now }
        ensures cause { HasCause self.old.faults self.new.faults result }

        // Exactly the calls that are to fail and those past the room do, and every other takes all.
        ensures fails { is_ok result ≡ not (refuses self.old (length bytes.now)) }
        ensures after { self.new ≡ pushed self.old bytes.now }
        ensures whole { IfOk result (λ n. n ≡ length bytes.now) }
    {
        self.calls = self.calls.saturating_add(1);
        if self.fail.contains(self.calls) || self.room - self.content.len() < bytes.len() {
            self.faults = self.faults.saturating_add(1);
            return Err(Failed);
        }
        match self.content.extend_from_slice(bytes) {
            Ok(()) => Ok(bytes.len()),
            Err(_) => unreachable!(),
        }
    }
}

impl Appended for MemAppended {
    ghost keeps = { true };

    fn length(&mut self) -> Result<Option<u64>, Failed>
        ensures within { IfOk result (λ size. IfSome size (λ n. n ≤ 2 ^ 40)) }
        ensures value { IfOk result (λ size. IfSome size (λ n. IfSome (Some self.old.taken) (λ content. n ≡ length content))) }
        ensures kept { IfOk result (λ size. IfNone size (true ≡ false)) }
        ensures content { Some self.new.taken ≡ Some self.old.taken }
        ensures cause { HasCause self.old.faults self.new.faults result }

        // Exactly the calls that are to fail do.
        ensures fails { is_ok result ≡ not (fails_next self.old.fail self.old.calls) }
        ensures after { self.new ≡ met self.old }
        ensures exact { IfOk result (λ size. size ≡ Some (length self.old.taken)) }
    {
        self.meet()?;
        Ok(Some(self.content.len() as u64))
    }

    fn read_at(&mut self, at: u64, into: &mut [u8]) -> Result<usize, Failed>
        ensures count { IfOk result (λ n. n ≤ length into.new) }
        ensures bytes { IfOk result (λ n. IfSome (Some self.old.taken) (λ content. ReadsAt content at into.new n)) }
        ensures content { Some self.new.taken ≡ Some self.old.taken }
        ensures cause { HasCause self.old.faults self.new.faults result }
        ensures fails { is_ok result ≡ not (fails_next self.old.fail self.old.calls) }
        ensures after { self.new ≡ met self.old }
    {
        self.meet()?;
        let start = at.min(self.content.len() as u64) as usize;
        let (_, rest) = self.content.as_slice().split_at(start);
        let count = rest.len().min(into.len());
        let (next, _) = rest.split_at(count);
        into[..count].copy_from_slice(next);
        Ok(count)
    }

    fn cut(&mut self, size: u64) -> Result<(), Failed>
        requires within { ForSome (Some self.old.taken) (λ content. size ≤ length content) }
        ensures content { OnOk result (Some self.new.taken ≡ option_map (take size) (Some self.old.taken)) }
        ensures err { OnErr result (Some self.new.taken ≡ Some self.old.taken) }
        ensures cause { HasCause self.old.faults self.new.faults result }
        ensures fails { is_ok result ≡ not (fails_next self.old.fail self.old.calls) }
        ensures after { self.new ≡ cut_to self.old size }
    {
        self.meet()?;
        self.content.truncate(size as usize);
        Ok(())
    }
}
