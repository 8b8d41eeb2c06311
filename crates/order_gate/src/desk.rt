//! One desk: it sends its reports by its own pass, behind those that the outbox has already.
ghost use Rattle.std.specs.Prelude.{◌≡◌, ◌-◌, ◌<◌, ◌≤◌, [], drop, length, All, OnOk, Ok};
ghost use Rattle.std.specs.List.{AllByRecursion};
ghost use Rattle.fixp_msgs.specs.Payload.{IsApplication};
ghost use Rattle.order_gate.specs.Reported.{Reported, Finishing};

use gate_senders::{Gate, Kept};
use gate_staff::Door;
use gate_turn::Pass;
use jr_boxes::{CloseFault, SubmitFault};
use jr_dated::Journal;
use sbe_value::Bytes;
use std::sync::Wait;

/// The most reports that a desk sends in one piece.
const PIECE: usize = 64;

/// A desk.
#[derive(Drop)]
pub struct Desk<J: Journal> {
    /// Its number, from 1 on.
    pub number: u16,
    /// The pass of its sender, while it is not lent.
    pub pass: Option<Pass<Kept<J>>>,
    /// How many of the reports that come next the outbox has already.
    pub owed: u64,
    /// How many entries of its own the outbox has.
    pub made: u64,
    /// The refusal that it met in the last call, or None.
    pub refused: Option<SubmitFault>,
}

impl<J: Journal> Desk<J> {
    ghost use Rattle.gate_staff.specs.Business.{lock_of};
    ghost use Rattle.order_gate.specs.Desks.{known_of, IsSeated, IsManned, IsReady};

    /// How many of so many reports that come next go in one piece: those that the door lets in. It waits at the door for the first of them alone.
    fn next_piece<G: Door, R: Wait>(&self, most: usize, door: &G, rt: &R) -> usize
        requires some { 0 < most }
        ensures some { 0 < result }
        ensures within { result ≤ most }
    {
        // A desk has no answer for being turned away, so its door only makes it wait.
        let _ = door.before(self.number, self.made.saturating_add(1), rt);
        for count in 1..most {
            let next = self.made.saturating_add(count as u64 + 1);
            if !door.with_it(self.number, next, rt) {
                return count;
            }
        }
        most
    }

    /// Sends reports in one piece, under one commit: all of them, or those before the first for which there is no room.
    ///
    /// # Errors
    /// Those of `submit_all`; `Memory` also where no numbers are left to count its entries by.
    fn send_piece<R: Wait>(
        &mut self,
        gate: &Gate<J>,
        reports: &[Bytes],
        rt: &R,
    ) -> Result<(), SubmitFault>
        requires ready { IsReady gate.now self.old }
        requires some { 0 < length reports.now }
        requires few { length reports.now ≤ 64 }
        requires applications { AllByRecursion IsApplication reports.now }
        ensures ready { IsReady gate.now self.new }
        ensures number { self.new.number ≡ self.old.number }
        ensures owed { self.new.owed ≡ self.old.owed }
        ensures reported { Reported (known_of self.old) (known_of self.new) reports.now result }
    {
        let Some(_) = self.made.checked_add(reports.len() as u64) else {
            return Err(SubmitFault::Memory);
        };
        let Some(pass) = &mut self.pass else {
            unreachable!()
        };
        let submission = gate.submit_all(pass, reports, rt);
        self.made += submission.count;
        match submission.refused {
            None => Ok(()),
            Some(fault) => Err(fault),
        }
    }

    /// Sends the reports that come next, piece by piece. None of them is owed.
    ///
    /// # Errors
    /// Those of `send_piece`.
    fn send_rest<G: Door, R: Wait>(
        &mut self,
        gate: &Gate<J>,
        reports: &[Bytes],
        door: &G,
        rt: &R,
    ) -> Result<(), SubmitFault>
        requires ready { IsReady gate.now self.old }
        requires applications { All IsApplication reports.now }
        ensures ready { IsReady gate.now self.new }
        ensures number { self.new.number ≡ self.old.number }
        ensures owed { self.new.owed ≡ self.old.owed }
        ensures reported { Reported (known_of self.old) (known_of self.new) reports.now result }
    {
        let mut sent = 0;
        'pieces: while sent < reports.len() {
            let (_, rest) = reports.split_at(sent);
            let count = self.next_piece(rest.len().min(PIECE), door, rt);
            let (piece, _) = rest.split_at(count);
            if let Err(fault) = self.send_piece(gate, piece, rt) {
                return Err(fault);
            }
            sent += count;
        }
        Ok(())
    }

    /// Sends the reports that come next, piece by piece, at most 64 in each: those that it owes are counted, since the outbox has them already.
    ///
    /// # Errors
    /// Those of `submit_all`; `Memory` also where no numbers are left to count its entries by.
    pub fn send_all<G: Door, R: Wait>(
        &mut self,
        gate: &Gate<J>,
        reports: &[Bytes],
        door: &G,
        rt: &R,
    ) -> Result<(), SubmitFault>
        requires ready { IsReady gate.now self.old }
        requires applications { All IsApplication reports.now }
        ensures ready { IsReady gate.now self.new }
        ensures number { self.new.number ≡ self.old.number }
        ensures reported { Reported (known_of self.old) (known_of self.new) (drop self.old.owed reports.now) result }
        ensures owed { OnOk result (self.new.owed ≡ self.old.owed - length reports.now) }
    {
        let count = reports.len() as u64;
        if self.owed >= count {
            self.owed -= count;
            return Ok(());
        }
        let (_, rest) = reports.split_at(self.owed as usize);
        self.owed = 0;
        self.send_rest(gate, rest, door, rt)
    }

    /// Adds the Finish; where it stands already there is nothing to add.
    ///
    /// # Errors
    /// Those of the gate's `finish` but `Closed`.
    pub fn finish<R: Wait>(&mut self, gate: &Gate<J>, rt: &R) -> Result<(), SubmitFault>
        requires ready { IsReady gate.now self.old }
        ensures ready { IsReady gate.now self.new }
        ensures same { (self.new.number ≡ self.old.number) × (self.new.owed ≡ self.old.owed) × (self.new.made ≡ self.old.made) }
        ensures finished { Finishing (known_of self.old) (known_of self.new) result }
    {
        let Some(pass) = &mut self.pass else {
            unreachable!()
        };
        match gate.finish(pass, rt) {
            Ok(()) => Ok(()),
            Err(CloseFault::Closed) => Ok(()),
            Err(CloseFault::Broken) => Err(SubmitFault::Broken),
            Err(CloseFault::Memory) => Err(SubmitFault::Memory),
            Err(CloseFault::Fault) => Err(SubmitFault::Fault),
        }
    }

    /// Counts the entries that the outbox has of it: they are owed.
    pub fn count<R: Wait>(&mut self, gate: &Gate<J>, rt: &R)
        requires seated { IsSeated (lock_of gate.now) self.old }
        ensures manned { IsManned (lock_of gate.now) self.new }
        ensures number { self.new.number ≡ self.old.number }
        ensures owed { self.new.owed ≡ self.new.made }
        ensures counted { Reported (known_of self.old) (known_of self.new) [] (Ok tt) }
    {
        let Some(pass) = &mut self.pass else {
            unreachable!()
        };
        let made = gate.mine(pass, rt);
        self.made = made;
        self.owed = made;
    }
}
