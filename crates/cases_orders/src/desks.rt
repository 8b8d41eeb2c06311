//! Cases of desks and of a book at a gate: reads `desks.txt`, and prints what the outbox has once they have answered. A case is
//! KIND VERSION DESKS REFERENCE: the payloads of the messages, in hexadecimal, with a comma between two; behind the word `book` it is
//! KIND VERSION, and a book answers, as sender 1. Another line stands as it is. `all` has the messages come in one call, and shows the
//! reports of each sender; at `again` the inbox has them, and desks or a book take their place behind each beginning of what `all` left;
//! and at `meet` desk 1 sends nothing before desk 2 has come.
ghost use Rattle.std.specs.Prelude.{◌≡◌, ◌≤◌, false, length};
ghost use Rattle.jr_kept.specs.Outbox.{is_broken};
ghost use Rattle.order_desk.specs.Schema.{IsVersion};

mod boxes;
mod doors;
mod runs;

use crate::desks::boxes::{Log, add_reports, applied, copied, empty};
use crate::desks::doors::{At, Meeting};
use crate::desks::runs::{Asked, By, left};
use cases_words::{bytes, halves, number};
use gate_staff::{Door, OpenDoor};
use jr_kept::{Inbox, Outbox};
use order_gate::Terms;
use sbe_value::{Bytes, Payloads};
use std::alloc::{AllocError, Global};
use std::rt::Files;
use std::sync::Wait;
use std::thread::Threads;
use std::{fs, io};

/// The payloads that a text spells.
fn payloads_of(alloc: Global, words: &str) -> Result<Payloads, AllocError> {
    let mut payloads = Payloads::new(alloc);
    for word in words.split(", ") {
        payloads.push(Bytes::from(bytes(alloc, word)?))?;
    }
    Ok(payloads)
}

/// The version of a word: 1, or 2.
fn version_of(word: &str) -> u16
    ensures { IsVersion result }
{
    if word == "2" {
        return 2;
    }
    1
}

/// The terms of these words: a version, how many desks, and a reference price.
fn terms_of(words: &str) -> Terms
    ensures version { IsVersion result.version }
    ensures few { result.desks ≤ 16 }
{
    let (version, rest) = halves(words);
    let (desks, reference) = halves(rest);
    Terms {
        desks: number(desks).clamp(1, 16) as u16,
        version: version_of(version),
        reference: number(reference).min(1_000_000_000) as i64,
    }
}

/// Who answers a case, and the rest of its words.
fn by_of(head: &str) -> (By, &str) {
    match head.strip_prefix("book ") {
        Some(rest) => (By::Book, rest),
        None => (By::Desks, head),
    }
}

/// Adds how many reports an outbox has, and how many of them are of the first three desks.
fn add_totals(outbox: &Outbox<Log>, told: &mut String) -> Result<(), AllocError> {
    let (front, first, second, third) = (
        outbox.front(),
        outbox.mine(1),
        outbox.mine(2),
        outbox.mine(3),
    );
    write!(told, "{front} reports: {first} {second} {third}\n")
}

/// The outbox that is left where messages come in one call, behind none; None where they are not all answered.
fn left_of_all<D: Door + Send + Copy + Drop, R: Threads + Wait + Sync>(
    alloc: Global,
    asked: Asked<'_>,
    door: D,
    rt: &R,
) -> Option<Outbox<Log>>
    requires version { IsVersion asked.terms.version }
    requires few { asked.terms.desks ≤ 16 }
    requires most { length asked.payloads.now ≤ 512 }
{
    let outbox = empty(alloc)?;
    let mut inbox = applied(alloc, &Payloads::new(alloc))?;
    left(alloc, outbox, &mut inbox, asked, door, rt)
}

/// The reports of each desk in an outbox, in words.
fn reports_in(alloc: Global, outbox: &mut Outbox<Log>, desks: u16) -> Result<String, AllocError> {
    let mut told = String::new(alloc);
    for desk in 0..desks {
        add_reports(alloc, outbox, desk + 1, &mut told)?;
    }
    Ok(told)
}

/// Whether those who take their place behind this inbox and the first so many reports of an outbox leave what that has.
fn goes_on<R: Threads + Wait + Sync>(
    alloc: Global,
    whole: &mut Outbox<Log>,
    count: u64,
    inbox: &mut Inbox<Log>,
    asked: Asked<'_>,
    rt: &R,
) -> Result<bool, AllocError>
    requires version { IsVersion asked.terms.version }
    requires few { asked.terms.desks ≤ 16 }
    requires most { length asked.payloads.now ≤ 512 }
{
    let Some(outbox) = copied(alloc, whole, count) else {
        return Ok(false);
    };
    let Some(mut outbox) = left(alloc, outbox, inbox, asked, OpenDoor, rt) else {
        return Ok(false);
    };
    let all = reports_in(alloc, whole, asked.terms.desks)?;
    let now = reports_in(alloc, &mut outbox, asked.terms.desks)?;
    Ok(outbox.front() == whole.front() && now.as_str() == all.as_str())
}

/// Adds at how many beginnings of an outbox, of which the last is the whole, those who take their place there leave just that.
fn add_again<R: Threads + Wait + Sync>(
    alloc: Global,
    mut whole: Outbox<Log>,
    asked: Asked<'_>,
    rt: &R,
    told: &mut String,
) -> Result<(), AllocError>
    requires version { IsVersion asked.terms.version }
    requires few { asked.terms.desks ≤ 16 }
{
    let Some(mut inbox) = applied(alloc, asked.payloads) else {
        return told.push_str("not applied\n");
    };
    // nothing comes behind what the inbox has
    let none = Payloads::new(alloc);
    let asked = Asked {
        by: asked.by,
        terms: asked.terms,
        payloads: &none,
    };
    let beginnings = whole.front().saturating_add(1);
    let mut same = 0u64;
    for count in 0..beginnings {
        if goes_on(alloc, &mut whole, count, &mut inbox, asked, rt)? {
            same = same.saturating_add(1);
        }
    }
    write!(
        told,
        "{same} of {beginnings} beginnings go on to the same\n"
    )
}

/// Adds what becomes of desks of which the first waits for the second.
fn add_meeting<R: Threads + Wait + Sync>(
    alloc: Global,
    asked: Asked<'_>,
    rt: &R,
    told: &mut String,
) -> Result<(), AllocError>
    requires version { IsVersion asked.terms.version }
    requires few { asked.terms.desks ≤ 16 }
    requires most { length asked.payloads.now ≤ 512 }
{
    let door = Meeting::new();
    let Some(outbox) = left_of_all(alloc, asked, At { meeting: &door }, rt) else {
        return told.push_str("not answered\n");
    };
    let (met, front) = (door.met(), outbox.front());
    write!(told, "desk 1 met desk 2: {met}, {front} reports\n")
}

/// Adds what a case shows.
fn add_case<R: Threads + Wait + Sync>(
    alloc: Global,
    kind: &str,
    asked: Asked<'_>,
    rt: &R,
    told: &mut String,
) -> Result<(), AllocError>
    requires version { IsVersion asked.terms.version }
    requires few { asked.terms.desks ≤ 16 }
    requires most { length asked.payloads.now ≤ 512 }
{
    if kind == "meet" {
        return add_meeting(alloc, asked, rt, told);
    }
    let Some(mut outbox) = left_of_all(alloc, asked, OpenDoor, rt) else {
        return told.push_str("not answered\n");
    };
    if kind == "again" {
        return add_again(alloc, outbox, asked, rt, told);
    }
    add_totals(&outbox, told)?;
    told.push_str(reports_in(alloc, &mut outbox, asked.terms.desks)?.as_str())
}

/// Prints what the section shows.
pub fn print<R: Files + Print + AllocGlobal + Threads + Wait + Sync>(rt: &R) -> io::Result<()> {
    let text = fs::read_to_string(rt, "desks.txt")?;
    for line in text.lines() {
        rt.println(line)?;
        let Some((head, words)) = line.split_once(": ") else {
            continue;
        };
        if line.starts_with("#") {
            continue;
        }
        let (by, head) = by_of(head);
        let (kind, terms) = halves(head);
        let payloads = payloads_of(rt.alloc(), words)?;
        let mut told = String::new(rt.alloc());
        if payloads.len() <= 512 {
            let asked = Asked {
                by,
                terms: terms_of(terms),
                payloads: &payloads,
            };
            add_case(rt.alloc(), kind, asked, rt, &mut told)?;
        }
        rt.print(told)?;
    }
    Ok(())
}
