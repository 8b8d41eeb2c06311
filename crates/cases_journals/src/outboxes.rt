//! Calls of outboxes.

ghost use Rattle.std.specs.Prelude.{◌≡◌, false};
ghost use Rattle.jr_record.specs.Records.{IsSender};

use crate::records::{message_of, template_of};
use cases_words::{halves, number};
use fixp_msgs::is_application;
use jr_dated::{Journal, Limits};
use jr_kept::Outbox;
use std::alloc::{AllocError, Global};

/// One of two senders.
fn sender(word: &str) -> u16
    ensures sender { IsSender result }
{
    if word == "2" { 2 } else { 1 }
}

/// A message, `SENDER TEMPLATE`.
fn accept<J: Journal>(
    outbox: &mut Outbox<J>,
    words: &str,
    told: &mut String,
) -> Result<(), AllocError> {
    let (by, template) = halves(words);
    let payload = message_of(template);
    if !is_application(&payload) {
        return told.push_str(" no message");
    }
    let answer = outbox.accept(sender(by), &payload);
    write!(told, " {answer:?}")
}

/// The entry of this number, with its template.
fn read<J: Journal>(
    outbox: &mut Outbox<J>,
    number: u64,
    told: &mut String,
) -> Result<(), AllocError> {
    if number == 0 || number > outbox.front() {
        return told.push_str(" none");
    }
    match outbox.stable(number) {
        Ok(entry) => {
            let (number, template) = (entry.number(), template_of(entry.payload()));
            write!(told, " {number} of template {template}")
        }
        Err(fault) => write!(told, " {fault:?}"),
    }
}

/// What an outbox tells of itself.
fn tell<J: Journal>(outbox: &Outbox<J>, call: &str, told: &mut String) -> Result<(), AllocError> {
    match halves(call) {
        ("front", _) => write!(told, " {}", outbox.front()),
        ("mine", by) => write!(told, " {}", outbox.mine(sender(by))),
        ("closed", _) => write!(told, " {}", outbox.closed()),
        ("broken", _) => write!(told, " {}", outbox.broken()),
        ("bytes", _) => write!(told, " {}", outbox.bytes()),
        _ => told.push_str(" no call"),
    }
}

/// Makes a call, and adds what it gave.
fn add_call<J: Journal>(
    outbox: &mut Outbox<J>,
    call: &str,
    told: &mut String,
) -> Result<(), AllocError> {
    match halves(call) {
        ("accept", words) => accept(outbox, words, told),
        ("stable", word) => read(outbox, number(word), told),
        ("close", _) => {
            let answer = outbox.close();
            write!(told, " {answer:?}")
        }
        _ => tell(outbox, call, told),
    }
}

fn add_calls<J: Journal>(
    outbox: &mut Outbox<J>,
    calls: &str,
    told: &mut String,
) -> Result<(), AllocError> {
    write!(told, " -> Ok({})", outbox.front())?;
    for call in calls.split(", ") {
        if !call.is_empty() {
            write!(told, ", {call} ->")?;
            add_call(outbox, call, told)?;
        }
    }
    Ok(())
}

/// Opens the outbox on a journal, with how many entries it has, and makes the calls.
pub fn play<J: Journal + Drop>(
    alloc: Global,
    journal: J,
    limits: Limits,
    calls: &str,
    told: &mut String,
) -> Result<J, AllocError>
    requires sound { J.is_broken journal ≡ false }
    requires limited { J.limits journal ≡ limits }
{
    match Outbox::open(alloc, journal, limits) {
        Ok(mut outbox) => {
            add_calls(&mut outbox, calls, told)?;
            Ok(outbox.into_journal())
        }
        Err((journal, fault)) => {
            write!(told, " -> Err({fault:?})")?;
            Ok(journal)
        }
    }
}
