//! A desk's share of the messages: dealt out into its line, answered from there, and all reports on it sent.
ghost use Rattle.std.specs.Prelude.{◌≡◌, ◌==◌, ◌+◌, ◌-◌, ◌<◌, ◌≤◌, true, false, [], ◌++◌, drop, flat_map, length, slice_get, option_to_list, Some, None, IfOk, OnOk, IfSome, IfNone};
ghost use Rattle.crossbeam_queue.specs.Passes.{view, IsPassOf};
ghost use Rattle.gate_turn.specs.Rule.{In};
ghost use Rattle.gate_senders.specs.Gate.{senders_of};
ghost use Rattle.gate_staff.specs.Business.{lock_of};
ghost use Rattle.order_desk.specs.Schema.{IsOrderPlan};
ghost use Rattle.order_desk.specs.Plans.{answers, desk_at};
ghost use Rattle.order_gate.specs.Line.{log};
ghost use Rattle.order_gate.specs.Places.{places, at_places};
ghost use Rattle.order_gate.specs.Reported.{Reported};
ghost use Rattle.order_gate.specs.Desks.{answer_of, due};

use crate::call::Call;
use crate::desk::Desk;
use crate::line::{End, Ends, Line, Passed, deal, next};
use gate_senders::Gate;
use gate_staff::Door;
use jr_boxes::SubmitFault;
use jr_dated::Journal;
use order_desk::answers_are_application;
use sbe_value::{Bytes, Payloads};
use std::alloc::{AllocError, Global};
use std::sync::Wait;

/// Whether the message at a place goes to a desk.
fn is_for(call: &Call<'_>, number: u16, place: u64) -> bool
    requires some { 0 < call.now.desks }
    requires most { place < 512 }
    ensures { result ≡ (desk_at call.now.desks (call.now.turn + 1 + place) == number) }
{
    (u64::from(call.turn) + place) % u64::from(call.desks) + 1 == u64::from(number)
}

/// The places of the messages that go to a desk.
fn places_of(alloc: Global, call: &Call<'_>, number: u16) -> Result<Vec<u64>, AllocError>
    requires some { 0 < call.now.desks }
    requires most { length call.now.payloads.now ≤ 512 }
    ensures { IfOk result (λ list. list.items ≡ places call.now.desks number (call.now.turn + 1) 0 (length call.now.payloads.now)) }
{
    let mut list = Vec::new(alloc);
    for place in 0..call.payloads.len() as u64 {
        if is_for(call, number, place) {
            list.push(place)?;
        }
    }
    Ok(list)
}

/// The refusal of an answer.
fn kept(answer: Result<(), SubmitFault>) -> Option<SubmitFault>
    ensures { answer_of result ≡ answer }
{
    match answer {
        Ok(()) => None,
        Err(fault) => Some(fault),
    }
}

/// The message at a place; there is none behind the last.
#[tactic(auto, using(crate::proofs::Shares::get_read, crate::proofs::Shares::get_past))]
fn payload_at(payloads: &Payloads, place: u64) -> Option<&[u8]>
    ensures some { IfSome result (λ p. slice_get payloads.now place ≡ Some p.now) }
    ensures none { IfNone result (slice_get payloads.now place ≡ None) }
{
    let payloads = payloads.as_slice();
    if place < payloads.len() as u64 {
        Some(payloads[place as usize].as_slice())
    } else {
        None
    }
}

/// Adds the reports of a desk on the message at a place; there is none behind the last.
fn add_reports(
    alloc: Global,
    call: &Call<'_>,
    number: u16,
    place: u64,
    reports: &mut Vec<Bytes>,
) -> Result<(), AllocError>
    requires plan { IsOrderPlan call.now.plan.now }
    requires desk { In 16 number }
    ensures added { OnOk result (reports.new.items ≡ reports.old.items
        ++ flat_map (answers call.now.plan.now number call.now.reference) (option_to_list (slice_get call.now.payloads.now place))) }
{
    let Some(payload) = payload_at(call.payloads, place) else {
        return Ok(());
    };
    let list = order_desk::answers(alloc, call.plan, number, call.reference, payload)?;
    let mut list = Vec::from(list);
    reports.append(&mut list)
}

/// The reports of a desk on so many messages, at the places that come through the line.
fn reports_of_line<R: Wait>(
    alloc: Global,
    call: &Call<'_>,
    number: u16,
    line: &Line,
    end: &mut End,
    count: usize,
    rt: &R,
) -> Result<Vec<Bytes>, AllocError>
    requires plan { IsOrderPlan call.now.plan.now }
    requires desk { In 16 number }
    requires own { IsPassOf line.now end.old }
    requires begins { view end.old ≡ log false true [] [] }
    ensures own { IsPassOf line.now end.new }
    ensures popped { view end.new ≡ log false true [] (view end.new).popped }
    ensures count { IfOk result (λ list. length (view end.new).popped ≡ count) }
    ensures reports { IfOk result (λ list. list.items
        ≡ flat_map (answers call.now.plan.now number call.now.reference) (at_places call.now.payloads.now (view end.new).popped)) }
{
    let mut reports = Vec::new(alloc);
    for _ in 0..count {
        let place = next(rt, line, end);
        add_reports(alloc, call, number, place, &mut reports)?;
    }
    Ok(reports)
}

/// Deals places out into the line, and takes the messages as they come through: the reports of a desk on them.
fn reports_of_dealt<R: Wait>(
    alloc: Global,
    call: &Call<'_>,
    number: u16,
    line: &Line,
    writer: &mut End,
    reader: &mut End,
    places: &[u64],
    rt: &R,
) -> Result<Vec<Bytes>, AllocError>
    requires plan { IsOrderPlan call.now.plan.now }
    requires desk { In 16 number }
    requires writer { IsPassOf line.now writer.old × (view writer.old ≡ log true false [] []) }
    requires reader { IsPassOf line.now reader.old × (view reader.old ≡ log false true [] []) }
    ensures dealt { IsPassOf line.now writer.new × (view writer.new ≡ log true false places.now []) }
    ensures popped { IsPassOf line.now reader.new × (view reader.new ≡ log false true [] (view reader.new).popped) }
    ensures count { IfOk result (λ list. length (view reader.new).popped ≡ length places.now) }
    ensures reports { IfOk result (λ list. list.items
        ≡ flat_map (answers call.now.plan.now number call.now.reference) (at_places call.now.payloads.now (view reader.new).popped)) }
{
    deal(rt, line, writer, places);
    reports_of_line(alloc, call, number, line, reader, places.len(), rt)
}

/// The reports of a desk on its share of the messages. The line is as long as the share, so that who deals it out never waits.
fn reports_due<R: Wait>(
    alloc: Global,
    call: &Call<'_>,
    number: u16,
    rt: &R,
) -> Result<Vec<Bytes>, AllocError>
    requires plan { IsOrderPlan call.now.plan.now }
    requires desk { In 16 number }
    requires some { 0 < call.now.desks }
    requires most { length call.now.payloads.now ≤ 512 }
    ensures { IfOk result (λ list. list.items ≡ due call.now.plan.now call.now.reference call.now.desks call.now.turn call.now.payloads.now number) }
{
    let places = places_of(alloc, call, number)?;
    let (queue, mut writer) = Line::ruled(alloc, places.len().max(1))?;
    let line = &queue;
    let mut reader = line.another::<Ends>(&mut writer);
    let reports = reports_of_dealt(
        alloc,
        call,
        number,
        line,
        &mut writer,
        &mut reader,
        places.as_slice(),
        rt,
    );
    line.absorb::<Ends>(&mut writer, reader);
    line.learn_as::<Passed>(&mut writer);
    reports
}

impl<J: Journal> Desk<J> {
    ghost use Rattle.order_gate.specs.Desks.{known_of, IsReady, Ran};

    /// Answers its share of the messages: all reports on it are gathered, and then sent.
    fn answer_places<G: Door, R: Wait>(
        &mut self,
        alloc: Global,
        gate: &Gate<J>,
        call: &Call<'_>,
        door: &G,
        rt: &R,
    ) -> Result<(), SubmitFault>
        requires plan { IsOrderPlan call.now.plan.now }
        requires some { 0 < call.now.desks }
        requires most { length call.now.payloads.now ≤ 512 }
        requires ready { IsReady gate.now self.old }
        ensures ready { IsReady gate.now self.new }
        ensures number { self.new.number ≡ self.old.number }
        ensures reported { Reported (known_of self.old) (known_of self.new) (drop self.old.owed (due call.now.plan.now call.now.reference call.now.desks call.now.turn call.now.payloads.now self.old.number)) result }
        ensures owed { OnOk result (self.new.owed ≡ self.old.owed - length (due call.now.plan.now call.now.reference call.now.desks call.now.turn call.now.payloads.now self.old.number)) }
    {
        answers_are_application();
        let Ok(reports) = reports_due(alloc, call, self.number, rt) else {
            return Err(SubmitFault::Memory);
        };
        self.send_all(gate, reports.as_slice(), door, rt)
    }

    /// Answers its share of the messages, and keeps the refusal that it met.
    pub(crate) fn answer_share<G: Door, R: Wait>(
        &mut self,
        alloc: Global,
        gate: &Gate<J>,
        call: &Call<'_>,
        door: &G,
        rt: &R,
    )
        requires plan { IsOrderPlan call.now.plan.now }
        requires some { 0 < call.now.desks }
        requires most { length call.now.payloads.now ≤ 512 }
        requires ready { IsReady gate.now self.old }
        ensures ran { Ran (lock_of gate.now) (senders_of gate.now) (due call.now.plan.now call.now.reference call.now.desks call.now.turn call.now.payloads.now self.old.number) self.old self.new }
    {
        let answer = self.answer_places(alloc, gate, call, door, rt);
        self.refused = kept(answer);
    }
}
