//! Runs of a business at a gate: of desks, or of a book.
ghost use Rattle.std.specs.Prelude.{◌≡◌, ℕ, ◌+◌, ◌<◌, ◌≤◌, false, length, IfSome};
ghost use denote.Param.Send.{IsSend};
ghost use Rattle.jr_kept.specs.Outbox.{is_broken};
ghost use Rattle.gw_fakes.specs.contracts.disk.MemDisk as disk;
ghost use Rattle.gw_fakes.specs.contracts.disk.MemDiskDisk.TheImpl as on_disk;
ghost use Rattle.jr_segments.specs.contracts.journal.SegJournal as journal;
ghost use Rattle.jr_segments.specs.contracts.journal.SegJournalJournal.TheImpl as of_journal;
ghost use Rattle.order_gate.specs.contracts.desk.Desk as desk;
ghost use Rattle.order_gate.specs.contracts.form.Form as form;
ghost use Rattle.order_book.specs.contracts.book.Book as book;
ghost use Rattle.gate_turn.specs.Rule.{In};
ghost use Rattle.gate_turn.specs.Listed.{known_at};
ghost use Rattle.gate_senders.specs.Gate.{senders_of};
ghost use Rattle.gate_staff.specs.Business.{lock_of, HasThese};
ghost use Rattle.order_desk.specs.Schema.{IsVersion};

use crate::desks::boxes::Log;
use gate_senders::{Gate, Kept};
use gate_staff::{Business, Door, give_connection, take_connection};
use gate_turn::Passes;
use jr_kept::{Inbox, Outbox};
use order_book::Book;
use order_book_gate::BookDesk;
use order_gate::{Desk, Desks, Form, Terms};
use sbe_value::Payloads;
use std::alloc::Global;
use std::sync::Wait;
use std::thread::Threads;

/// Who answers.
#[derive(Clone, Copy)]
pub enum By {
    /// Desks, on the terms of the case.
    Desks,
    /// A book of the version of these terms, as their one sender.
    Book,
}

/// What is asked, and of whom.
#[derive(Clone, Copy)]
pub struct Asked<'a> {
    pub by: By,
    pub terms: Terms,
    pub payloads: &'a Payloads,
}

/// Has a business take its place behind an inbox, and answer messages that come then; and says whether it answered all.
fn answers<B: Business<Log> + Send, R: Threads + Wait + Sync>(
    alloc: Global,
    business: &mut B,
    inbox: &mut Inbox<Log>,
    payloads: &Payloads,
    gate: &Gate<Log>,
    rt: &R,
) -> bool
    requires own { B.has business.old (lock_of gate.now) }
    requires few { B.count business.old ≤ senders_of gate.now }
    requires most { length payloads.now ≤ 512 }
    ensures own { B.has business.new (lock_of gate.now) }
    ensures count { B.count business.new ≡ B.count business.old }
    ensures made { (n : ℕ) → In (B.count business.old) n → (B.part business.new n).made ≡ (B.part business.old n).made }
{
    if inbox.broken() {
        return false;
    }
    match business.resume(alloc, inbox, gate, rt) {
        Ok(()) => business.on_applied(payloads, false, gate, rt).is_ok(),
        Err(_fault) => false,
    }
}

/// A life of a business: it answers, and gives its passes back; and whether it answered all.
fn live<B: Business<Log, Held = Kept<Log>> + Send, R: Threads + Wait + Sync>(
    alloc: Global,
    business: B,
    inbox: &mut Inbox<Log>,
    payloads: &Payloads,
    gate: &Gate<Log>,
    rt: &R,
) -> (Passes<Kept<Log>>, bool)
    requires own { B.has business (lock_of gate.now) }
    requires few { B.count business ≤ senders_of gate.now }
    requires most { length payloads.now ≤ 512 }
    ensures these { HasThese (lock_of gate.now) result.0 (B.count business) }
    ensures made { (n : ℕ) → In (B.count business) n → (known_at result.0 n).made ≡ (B.part business n).made }
{
    let mut business = business;
    let whole = answers(alloc, &mut business, inbox, payloads, gate, rt);
    (business.end(), whole)
}

/// Says of a type that its values may go to another thread. Said of each part apart, since all of a desk is too much for one search.
fn sends<T: Send>()
    ensures { IsSend T.row }
{}

/// The form of orders may go to another thread.
fn form_sends()
    ensures { IsSend form.the_row }
{
    sends::<Form>();
}

/// An order book may go to another thread.
fn book_sends()
    ensures { IsSend book.the_row }
{
    sends::<Book>();
}

/// One desk may go to another thread.
fn desk_sends()
    ensures { IsSend (desk.the_row (journal.the_row disk.the_row on_disk.ghosts) (of_journal.ghosts disk.the_row on_disk.ghosts on_disk.dict)) }
{
    sends::<Desk<Log>>();
}

/// A life of desks that take these passes.
fn live_desks<D: Door + Send + Copy + Drop, R: Threads + Wait + Sync>(
    alloc: Global,
    gate: &Gate<Log>,
    passes: Passes<Kept<Log>>,
    inbox: &mut Inbox<Log>,
    asked: Asked<'_>,
    door: D,
    rt: &R,
) -> (Passes<Kept<Log>>, bool)
    requires version { IsVersion asked.terms.version }
    requires few { asked.terms.desks ≤ 16 }
    requires senders { asked.terms.desks ≤ senders_of gate.now }
    requires most { length asked.payloads.now ≤ 512 }
    requires these { HasThese (lock_of gate.now) passes asked.terms.desks }
    ensures these { HasThese (lock_of gate.now) result.0 asked.entry.terms.desks }
    ensures made { (n : ℕ) → In asked.entry.terms.desks n → (known_at result.0 n).made ≡ (known_at passes n).made }
{
    form_sends();
    desk_sends();
    match Desks::new(alloc, passes, asked.terms, door) {
        Ok(desks) => live(alloc, desks, inbox, asked.payloads, gate, rt),
        Err(passes) => (passes, false),
    }
}

/// A life of a book of a version that takes the pass of number 1.
fn live_book<R: Threads + Wait + Sync>(
    alloc: Global,
    gate: &Gate<Log>,
    passes: Passes<Kept<Log>>,
    inbox: &mut Inbox<Log>,
    version: u16,
    payloads: &Payloads,
    rt: &R,
) -> (Passes<Kept<Log>>, bool)
    requires version { IsVersion version }
    requires senders { 1 ≤ senders_of gate.now }
    requires most { length payloads.now ≤ 512 }
    requires these { HasThese (lock_of gate.now) passes 1 }
    ensures these { HasThese (lock_of gate.now) result.0 1 }
    ensures made { (n : ℕ) → In 1 n → (known_at result.0 n).made ≡ (known_at passes n).made }
{
    form_sends();
    desk_sends();
    book_sends();
    match BookDesk::new(alloc, passes, version) {
        Ok(book) => live(alloc, book, inbox, payloads, gate, rt),
        Err(passes) => (passes, false),
    }
}

/// A life of those who are asked. A book has one pass, and does nothing with more.
fn live_asked<D: Door + Send + Copy + Drop, R: Threads + Wait + Sync>(
    alloc: Global,
    gate: &Gate<Log>,
    passes: Passes<Kept<Log>>,
    inbox: &mut Inbox<Log>,
    asked: Asked<'_>,
    door: D,
    rt: &R,
) -> (Passes<Kept<Log>>, bool)
    requires version { IsVersion asked.terms.version }
    requires few { asked.terms.desks ≤ 16 }
    requires senders { asked.terms.desks ≤ senders_of gate.now }
    requires most { length asked.payloads.now ≤ 512 }
    requires these { HasThese (lock_of gate.now) passes asked.terms.desks }
    ensures these { HasThese (lock_of gate.now) result.0 asked.entry.terms.desks }
    ensures made { (n : ℕ) → In asked.entry.terms.desks n → (known_at result.0 n).made ≡ (known_at passes n).made }
{
    match asked.by {
        By::Desks => live_desks(alloc, gate, passes, inbox, asked, door, rt),
        By::Book => {
            if asked.terms.desks != 1 {
                return (passes, false);
            }
            live_book(
                alloc,
                gate,
                passes,
                inbox,
                asked.terms.version,
                asked.payloads,
                rt,
            )
        }
    }
}

/// The outbox that is left where those who are asked take their place behind an inbox and what this outbox has of them, and answer the
/// messages that come then; None where they do not answer all.
pub fn left<D: Door + Send + Copy + Drop, R: Threads + Wait + Sync>(
    alloc: Global,
    outbox: Outbox<Log>,
    inbox: &mut Inbox<Log>,
    asked: Asked<'_>,
    door: D,
    rt: &R,
) -> Option<Outbox<Log>>
    requires sound { is_broken outbox ≡ false }
    requires version { IsVersion asked.terms.version }
    requires few { asked.terms.desks ≤ 16 }
    requires most { length asked.payloads.now ≤ 512 }
{
    let desks = asked.terms.desks;
    let Ok((gate, mut passes)) = Gate::new(alloc, outbox, desks) else {
        return None;
    };
    let pass = take_connection(&gate, &mut passes, desks);
    let (mut passes, whole) = live_asked(alloc, &gate, passes, inbox, asked, door, rt);
    give_connection(&gate, &mut passes, desks, pass);
    let outbox = gate.close(passes);
    whole.then_some(outbox)
}
