//! One end of a session, told of frames and of other events one after another: what it does at each.

ghost use Rattle.std.specs.Prelude.{◌≤◌, length};

use cases_made::{ToldEnd, flow_of, role_of};
use cases_words::{Named, digits, halves, number, parted};
use fixp_end::{Act, EndState};
use jr_kept::Stable;
use sbe_prim::Order;
use sofh_frame::{FirstFrame, next};
use std::alloc::{AllocError, Global};

/// The moment of the first connection's beginning, in milliseconds.
const BEGINNING: u64 = 5;

/// The place of every frame in the connection's bytes.
const PLACE: u64 = 7;

/// What is recorded of a session: `NEGOTIATED NEXT SENT`, of which the numbers are the inbox's next one and how many entries were
/// sent.
fn recorded_of(words: &str) -> EndState
    ensures first { 1 ≤ result.inbox_next }
    ensures few { result.inbox_next ≤ 1000000 }
    ensures sent { result.sent ≤ 1000000 }
{
    let (negotiated, rest) = halves(words);
    let (inbox, sent) = halves(rest);
    EndState {
        negotiated: negotiated == "negotiated",
        inbox_next: number(inbox).clamp(1, 1_000_000),
        peer_last: None,
        sent: number(sent).min(1_000_000),
        finish: None,
    }
}

/// An end in its first connection: `SIDE OWN PEER NEGOTIATED NEXT SENT`, of which two are the flow that it sends and the one that it
/// receives; nothing for a word that is not there. A side may have a version, as in `acceptor=1`.
fn driven_of(alloc: Global, words: &str) -> Result<ToldEnd, AllocError> {
    let (side, rest) = halves(words);
    let (side, version) = parted(side, "=");
    let (own, rest) = halves(rest);
    let (peer, recorded) = halves(rest);
    let recorded = recorded_of(recorded);
    ToldEnd::new(
        alloc,
        role_of(side),
        flow_of(own),
        flow_of(peer),
        recorded,
        BEGINNING,
        number(version).min(1) as u16,
    )
}

/// Adds what an end does at a message, in words.
fn push_heard(
    line: &mut String,
    driven: &mut ToldEnd,
    order: Order,
    message: &[u8],
) -> Result<(), AllocError>
    requires header { 8 ≤ length message.now }
    requires most { length message.now ≤ 16384 }
{
    match driven.act(order, message, PLACE)? {
        Some((act, before)) => push_act(line, act, before),
        None => line.push_str("not heard"),
    }
}

/// Adds what an end does at a frame or at bytes that are none, in words.
fn push_bytes(line: &mut String, driven: &mut ToldEnd, bytes: &[u8]) -> Result<(), AllocError> {
    match next(bytes) {
        FirstFrame::Frame { order, message, .. } if (8..=16384).contains(&message.len()) => {
            push_heard(line, driven, order, message)
        }
        _ => {
            driven.refuse(PLACE);
            line.push_str("refused")
        }
    }
}

/// Calls an end.
fn call_end(driven: &mut ToldEnd, entries: &[Stable], call: Call) {
    match call {
        Call::Begin => driven.begin(),
        Call::Tick(moment) => driven.tick(moment),
        Call::Turn => driven.turn_done(),
        Call::Closed(last) => driven.closed(last),
        Call::Live => driven.send_live(entries),
        Call::Again => driven.send_again(entries),
        Call::LinkEnd => driven.cut(),
    }
}

/// Adds the bytes that an end has written, behind a mark, its phase and its ending, and the link takes the bytes.
fn push_taken(
    alloc: Global,
    line: &mut String,
    driven: &mut ToldEnd,
    mark: &str,
) -> Result<(), AllocError> {
    let written = digits(alloc, driven.out())?;
    driven.take();
    let (phase, ending) = (driven.phase(), driven.ending());
    write!(line, "{mark}[{written}], {phase:?}, {ending:?}")
}

/// Adds an act, and for a record how many bytes were written before it.
fn push_act(line: &mut String, act: Act, before: usize) -> Result<(), AllocError> {
    if act.is_record() {
        write!(line, "{act:?} after {before} bytes")
    } else {
        write!(line, "{act:?}")
    }
}

/// A call on an end.
#[derive(Clone, Copy)]
enum Call {
    Begin,
    Tick(u64),
    Turn,
    Closed(u64),
    Live,
    Again,
    LinkEnd,
}

/// The call that an event is, if it is one.
fn call_of(event: &str) -> Option<Call> {
    let (call, given) = parted(event, "=");
    match call {
        "begin" => Some(Call::Begin),
        "tick" => Some(Call::Tick(number(given))),
        "turn" => Some(Call::Turn),
        "closed" => Some(Call::Closed(number(given))),
        "live" => Some(Call::Live),
        "again" => Some(Call::Again),
        "link-end" => Some(Call::LinkEnd),
        _ => None,
    }
}

/// Adds the held message that the inbox of an end awaits, and it is applied.
fn push_held(alloc: Global, line: &mut String, driven: &mut ToldEnd) -> Result<(), AllocError> {
    match driven.held() {
        Some((number, payload)) => {
            let payload = digits(alloc, payload)?;
            write!(line, "applied {number} {payload}")?;
        }
        None => line.push_str("none")?,
    }
    driven.held_done();
    Ok(())
}

/// What an end is told from: frames by name, and the entries that it may send.
#[derive(Clone, Copy)]
pub struct Sources<'a> {
    pub named: Named<'a>,
    pub entries: &'a [Stable],
}

/// Adds what an end does at an event: a call, a held message that is applied, or a frame by name.
fn push_event(
    alloc: Global,
    line: &mut String,
    driven: &mut ToldEnd,
    sources: Sources<'_>,
    event: &str,
) -> Result<(), AllocError> {
    if event == "held" {
        return push_held(alloc, line, driven);
    }
    if let Some(call) = call_of(event) {
        call_end(driven, sources.entries, call);
        return line.push_str("told");
    }
    let bytes = sources.named.bytes(alloc, event)?;
    push_bytes(line, driven, bytes.as_slice())
}

/// Adds what an end does at an event: at the last of them where it comes more than once, as in `256*application`.
fn push_last(
    alloc: Global,
    line: &mut String,
    driven: &mut ToldEnd,
    sources: Sources<'_>,
    event: &str,
) -> Result<(), AllocError> {
    let (times, event) = event.split_once("*").unwrap_or(("1", event));
    for _ in 1..number(times) {
        let mut unsaid = String::new(alloc);
        push_event(alloc, &mut unsaid, driven, sources, event)?;
    }
    push_event(alloc, line, driven, sources, event)
}

/// Adds the line of an event.
fn push_event_line(
    alloc: Global,
    line: &mut String,
    driven: &mut ToldEnd,
    sources: Sources<'_>,
    event: &str,
) -> Result<(), AllocError> {
    write!(line, "\n  {event}: ")?;
    push_last(alloc, line, driven, sources, event)?;
    push_taken(alloc, line, driven, ", ")
}

/// Adds what an end is at first, and the lines of events.
fn push_events(
    alloc: Global,
    line: &mut String,
    driven: &mut ToldEnd,
    sources: Sources<'_>,
    events: &str,
) -> Result<(), AllocError> {
    push_taken(alloc, line, driven, ": ")?;
    for event in events.split(" ") {
        push_event_line(alloc, line, driven, sources, event)?;
    }
    Ok(())
}

/// Adds what an end does in a session that begins with it.
fn push_session(
    alloc: Global,
    line: &mut String,
    sources: Sources<'_>,
    kind: &str,
    events: &str,
) -> Result<(), AllocError> {
    let mut driven = driven_of(alloc, kind)?;
    push_events(alloc, line, &mut driven, sources, events)
}

/// Adds what an end does at each event, a line each: `SIDE OWN PEER NEGOTIATED NEXT SENT, EVENT EVENT ..`.
pub fn push_end(
    alloc: Global,
    line: &mut String,
    sources: Sources<'_>,
    words: &str,
) -> Result<(), AllocError> {
    let (kind, events) = parted(words, ", ");
    line.push_str(kind)?;
    push_session(alloc, line, sources, kind, events)
}
