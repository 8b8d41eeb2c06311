//! Calls of inboxes.

ghost use Rattle.std.specs.Prelude.{◌≡◌, false};

use crate::records::{message_of, template_of};
use cases_words::{halves, number};
use fixp_msgs::{Flow, is_application};
use gw_outside::Bytes;
use jr_dated::{Journal, Limits};
use jr_kept::Inbox;
use std::alloc::{AllocError, Global};

/// The peer's flow in a word.
fn flow_of(word: &str) -> Flow {
    match word {
        "recoverable" => Flow::Recoverable,
        "idempotent" => Flow::Idempotent,
        _ => Flow::Unsequenced,
    }
}

/// The next message, of this template, where its number is within the limit.
fn apply<J: Journal>(
    alloc: Global,
    inbox: &mut Inbox<J>,
    template: &str,
    told: &mut String,
) -> Result<(), AllocError> {
    let payload = Bytes::from_slice(alloc, &message_of(template))?;
    let next = inbox.next();
    if next > inbox.limits().entries || !is_application(payload.as_slice()) {
        return told.push_str(" none");
    }
    match inbox.apply(next, payload) {
        Ok(_payload) => told.push_str(" Ok"),
        Err(fault) => write!(told, " {fault:?}"),
    }
}

/// Two numbers that are jumped over, where the flow may jump and the limit is not passed.
fn skip_two<J: Journal>(inbox: &mut Inbox<J>, told: &mut String) -> Result<(), AllocError> {
    let from = inbox.next();
    if from >= inbox.limits().entries || !matches!(inbox.flow(), Flow::Idempotent) {
        return told.push_str(" none");
    }
    let answer = inbox.skip(from, 2);
    write!(told, " {answer:?}")
}

/// The mark that the session is negotiated, where it does not stand yet.
fn negotiated<J: Journal>(inbox: &mut Inbox<J>, told: &mut String) -> Result<(), AllocError> {
    if inbox.is_negotiated() {
        return told.push_str(" none");
    }
    let answer = inbox.negotiated();
    write!(told, " {answer:?}")
}

/// The peer's last number, where it does not stand yet.
fn peer_finished<J: Journal>(
    inbox: &mut Inbox<J>,
    last: u64,
    told: &mut String,
) -> Result<(), AllocError> {
    if inbox.peer_last().is_some() {
        return told.push_str(" none");
    }
    let answer = inbox.peer_finished(last);
    write!(told, " {answer:?}")
}

/// The template of the last message that was applied.
fn last<J: Journal>(inbox: &mut Inbox<J>, told: &mut String) -> Result<(), AllocError> {
    let count = inbox.count();
    if count == 0 {
        return told.push_str(" none");
    }
    match inbox.payload(count) {
        Ok(payload) => {
            let template = template_of(payload.as_slice());
            write!(told, " of template {template}")
        }
        Err(fault) => write!(told, " {fault:?}"),
    }
}

/// What an inbox tells of itself.
fn tell<J: Journal>(inbox: &Inbox<J>, call: &str, told: &mut String) -> Result<(), AllocError> {
    match call {
        "next" => write!(told, " {}", inbox.next()),
        "is-negotiated" => write!(told, " {}", inbox.is_negotiated()),
        "peer-last" => {
            let last = inbox.peer_last();
            write!(told, " {last:?}")
        }
        "count" => write!(told, " {}", inbox.count()),
        "bytes" => write!(told, " {}", inbox.bytes()),
        _ => told.push_str(" no call"),
    }
}

/// Makes a call, and adds what it gave; `none` where it may not be made.
fn add_call<J: Journal>(
    alloc: Global,
    inbox: &mut Inbox<J>,
    call: &str,
    told: &mut String,
) -> Result<(), AllocError> {
    match halves(call) {
        ("apply", template) => apply(alloc, inbox, template, told),
        ("skip-two", _) => skip_two(inbox, told),
        ("negotiated", _) => negotiated(inbox, told),
        ("peer-finished", last) => peer_finished(inbox, number(last), told),
        ("last", _) => last(inbox, told),
        _ => tell(inbox, call, told),
    }
}

fn add_calls<J: Journal>(
    alloc: Global,
    inbox: &mut Inbox<J>,
    calls: &str,
    told: &mut String,
) -> Result<(), AllocError> {
    write!(told, " -> Ok({})", inbox.next())?;
    for call in calls.split(", ") {
        if !call.is_empty() {
            write!(told, ", {call} ->")?;
            add_call(alloc, inbox, call, told)?;
        }
    }
    Ok(())
}

/// Opens the inbox of a flow on a journal, `FLOW CALL, CALL, ..`, with the number that it waits for, and makes the calls.
pub fn play<J: Journal + Drop>(
    alloc: Global,
    journal: J,
    limits: Limits,
    words: &str,
    told: &mut String,
) -> Result<J, AllocError>
    requires sound { J.is_broken journal ≡ false }
    requires limited { J.limits journal ≡ limits }
{
    let (flow, calls) = halves(words);
    write!(told, " {flow}")?;
    match Inbox::open(alloc, journal, limits, flow_of(flow)) {
        Ok(mut inbox) => {
            add_calls(alloc, &mut inbox, calls, told)?;
            Ok(inbox.into_journal())
        }
        Err((journal, fault)) => {
            write!(told, " -> Err({fault:?})")?;
            Ok(journal)
        }
    }
}
