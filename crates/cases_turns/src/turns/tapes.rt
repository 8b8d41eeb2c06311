//! Hostile tapes: the bytes that an honest peer sends in a whole connection, with one byte changed. The file of tapes tells of each
//! byte what has to come of it, and the tapes are made and judged here.

ghost use Rattle.std.specs.Prelude.{◌≡◌};

use cases_made::{Disks, DrivenEnd, Setup, Standing, fresh_disks, records};
use cases_words::{bytes, halves};
use fixp_end::{Ending, Flow, Role, Violation};
use gw_fakes::MemDisk;
use gw_link_fakes::MemTape;
use gw_outside::{Bytes, Disk};
use jr_record::Record;
use std::alloc::{AllocError, Global};
use std::sync::Wait;

/// The room of a disk, in bytes.
const DISK: usize = 1024;

/// More turns than a connection over a tape takes.
const TURNS: u64 = 40;

/// What each byte is changed by, once each.
const CHANGES: [u8; 3] = [0x01, 0x10, 0x80];

/// The message that the peer sends, and which this end has in its outbox too.
const MESSAGE: [u8; 10] = [0xEB, 0x50, 0, 0, 8, 0, 0x64, 0, 1, 0];

/// What has to come of a change of a byte.
#[derive(Clone, Copy, PartialEq, Eq)]
enum Verdict {
    /// The same as without it: both finishes are exchanged.
    Same,
    /// Both finishes are exchanged, and the message is delivered as it was changed.
    Payload,
    /// A violation: the bytes of this frame are none.
    Bad,
    /// The violation of this number in the table.
    Breaks(u64),
    /// Any violation.
    Violation,
    /// Anything but that both finishes are exchanged.
    Unfinished,
    /// What the new length of the frame says.
    Length,
    /// What the new template says.
    Template,
    /// What can come of it depends on the bytes behind.
    Any,
    /// The connection waits for the frame's bytes until the link's end.
    Waits,
}

/// A byte of a tape.
#[derive(Clone, Copy)]
struct Place {
    verdict: Verdict,
    /// Where its frame begins in the tape.
    start: usize,
    /// Whether the peer's message stands before its frame.
    behind: bool,
}

/// The bytes of a tape, and what is said of each.
#[derive(Drop)]
pub struct Tape {
    role: Role,
    bytes: Vec<u8>,
    places: Vec<Place>,
}

/// What came of a tape: how the connection ended, and the inbox.
#[derive(Drop)]
struct Came {
    ending: Option<Ending>,
    inbox: Vec<Record>,
}

/// The payloads that an inbox has.
#[derive(Clone, Copy)]
enum Applied<'a> {
    Nothing,
    One(&'a [u8]),
    More,
}

/// The verdict that a word tells.
fn told(word: &str) -> Verdict {
    match word {
        "same" => Verdict::Same,
        "payload" => Verdict::Payload,
        "bad" => Verdict::Bad,
        "violation" => Verdict::Violation,
        "unfinished" => Verdict::Unfinished,
        "length" => Verdict::Length,
        "template" => Verdict::Template,
        number => Verdict::Breaks(cases_words::number(number)),
    }
}

impl Tape {
    /// Whether the peer's message stands in it.
    fn has_payload(&self) -> bool {
        self.places
            .as_slice()
            .iter()
            .any(|place| place.verdict == Verdict::Payload)
    }

    /// Adds bytes of which the same is said.
    fn add_bytes(&mut self, bytes: &[u8], place: Place) -> Result<(), AllocError> {
        for _ in 0..bytes.len() {
            self.places.push(place)?;
        }
        self.bytes.extend_from_slice(bytes)
    }

    /// Adds the bytes of a frame that a word tells: them in hexadecimal, and what comes of them.
    fn add_word(
        &mut self,
        alloc: Global,
        word: &str,
        start: usize,
        behind: bool,
    ) -> Result<(), AllocError> {
        let (digits, said) = word.split_once(":").unwrap_or((word, ""));
        let verdict = told(said);
        let part = bytes(alloc, digits)?;
        self.add_bytes(
            part.as_slice(),
            Place {
                verdict,
                start,
                behind,
            },
        )
    }

    /// Adds the frame that the words of a line tell.
    fn add_frame(&mut self, alloc: Global, words: &str) -> Result<(), AllocError> {
        let start = self.bytes.len();
        let behind = self.has_payload();
        for word in words.split_whitespace() {
            self.add_word(alloc, word, start, behind)?;
        }
        Ok(())
    }

    /// Adds the frames of the lines that begin with this word.
    fn add_frames(&mut self, alloc: Global, name: &str, lines: &str) -> Result<(), AllocError> {
        for line in lines.lines() {
            let (word, words) = halves(line);
            if word == name {
                self.add_frame(alloc, words)?;
            }
        }
        Ok(())
    }
}

/// The tape of the lines that begin with this word, each of which tells a frame.
///
/// # Errors
/// Want of memory.
pub fn read_tape(alloc: Global, role: Role, name: &str, lines: &str) -> Result<Tape, AllocError> {
    let mut tape = Tape {
        role,
        bytes: Vec::new(alloc),
        places: Vec::new(alloc),
    };
    tape.add_frames(alloc, name, lines)?;
    Ok(tape)
}

/// The number of two bytes in the bytes of a tape.
fn number_at(bytes: &[u8], at: usize) -> u64 {
    match bytes.split_at_checked(at) {
        Some((_, [low, high, ..])) => u64::from(*low) + 256 * u64::from(*high),
        _ => 0,
    }
}

/// The length of the frame that begins at a place of a tape.
fn size_at(bytes: &[u8], at: usize) -> u64 {
    match bytes.split_at_checked(at) {
        Some((_, [a, b, c, d, ..])) => u64::from(u32::from_be_bytes([*a, *b, *c, *d])),
        _ => 0,
    }
}

/// What a changed length says of a frame that begins with these bytes and had `size` of them.
fn by_length(frame: &[u8], size: u64) -> Verdict {
    let length = size_at(frame, 0);
    if !(14..=16390).contains(&length) || length < size {
        Verdict::Bad
    } else if length > frame.len() as u64 {
        Verdict::Waits
    } else {
        // The frame takes bytes of the next one, which is none then.
        Verdict::Any
    }
}

/// What a changed template says of a frame that begins with these bytes.
fn by_template(frame: &[u8]) -> Verdict {
    match number_at(frame, 8) {
        1..=16 => Verdict::Any,
        _ => Verdict::Breaks(2),
    }
}

/// The number of a violation in the table.
fn number_of(violation: Violation) -> u64 {
    match violation {
        Violation::BadFrame { .. } => 1,
        Violation::UnknownTemplate { .. } => 2,
        Violation::NotInPhase { .. } => 3,
        Violation::OtherSession { .. } => 4,
        Violation::WentBack { .. } => 5,
        Violation::MissingNext { .. } => 6,
        Violation::NumberTooLarge { .. } => 7,
        Violation::BadRetransmission { .. } => 8,
        Violation::AfterFinish { .. } => 9,
        Violation::FlowNone { .. } => 10,
        Violation::Silent { .. } => 11,
        Violation::HandshakeLate { .. } => 12,
    }
}

/// Whether a connection may have ended so.
fn ends_so(verdict: Verdict, start: usize, ending: Ending) -> bool {
    match (verdict, ending) {
        (Verdict::Same | Verdict::Payload, ending) => matches!(&ending, Ending::Finished),
        (Verdict::Bad, Ending::Violation(Violation::BadFrame { at })) => at == start as u64,
        (Verdict::Waits, ending) => matches!(&ending, Ending::LinkEnded),
        (Verdict::Violation, ending) => matches!(&ending, Ending::Violation(_)),
        (Verdict::Breaks(number), Ending::Violation(violation)) => number_of(violation) == number,
        (Verdict::Bad | Verdict::Breaks(_), _) => false,
        (Verdict::Unfinished, ending) => !matches!(&ending, Ending::Finished),
        (Verdict::Any | Verdict::Length | Verdict::Template, _) => true,
    }
}

/// Whether a payload is the message that was sent in a frame.
fn is_sent(frame: &[u8], payload: &[u8]) -> bool {
    match frame.split_at_checked(4) {
        Some((_, sent)) => sent.split_at_checked(10).map(|parts| parts.0) == Some(payload),
        None => false,
    }
}

/// Whether an inbox may hold these payloads: the peer's message, where its frame came before the byte that was changed or the session
/// went on without fault, and nothing else. Where the change is in the message, it holds what stands in the tape.
fn holds_so(verdict: Verdict, behind: bool, frame: &[u8], applied: Applied<'_>) -> bool {
    match (verdict, applied) {
        (Verdict::Any | Verdict::Unfinished | Verdict::Length | Verdict::Template, _) => true,
        (Verdict::Payload, Applied::One(payload)) => is_sent(frame, payload),
        (Verdict::Same | Verdict::Violation | Verdict::Breaks(_), Applied::One(payload)) => {
            payload == &MESSAGE[..]
        }
        (Verdict::Bad | Verdict::Waits, Applied::One(payload)) => {
            behind && payload == &MESSAGE[..]
        }
        (
            Verdict::Violation | Verdict::Breaks(_) | Verdict::Bad | Verdict::Waits,
            Applied::Nothing,
        ) => !behind,
        _ => false,
    }
}

/// What an end is made with that hears a tape.
fn setup(role: Role) -> Setup
    ensures senders { result.senders ≡ 1 }
{
    Setup {
        role,
        session: [0x11; 16],
        own_flow: Flow::Recoverable,
        peer_flow: Flow::Recoverable,
        senders: 1,
    }
}

/// The journals of an end which has its message in the outbox, and the mark behind it; none where memory runs out.
fn begun<R: Wait>(alloc: Global, role: Role, rt: &R) -> Option<Disks> {
    let mut end = DrivenEnd::open(alloc, setup(role), fresh_disks(alloc, DISK)?)?;
    let submitted = end.submit(1, &MESSAGE, rt) && end.finish(rt);
    let disks = end.close();
    submitted.then_some(disks)
}

/// A disk with the same content.
pub fn copied(alloc: Global, disk: &MemDisk) -> Option<MemDisk> {
    let mut copy = MemDisk::without_faults(alloc, DISK).ok()?;
    copy.write_at(0, disk.content()).ok()?;
    Some(copy)
}

/// Disks with the same content.
pub fn both_copied(alloc: Global, disks: &Disks) -> Option<Disks> {
    Some(Disks {
        outbox: copied(alloc, &disks.outbox)?,
        inbox: copied(alloc, &disks.inbox)?,
    })
}

/// The payloads of the records of an inbox.
fn payloads(records: &[Record]) -> Applied<'_> {
    let mut applied = Applied::Nothing;
    for record in records {
        if let Record::Apply { payload, .. } = record {
            applied = match applied {
                Applied::Nothing => Applied::One(payload.as_slice()),
                _ => Applied::More,
            };
        }
    }
    applied
}

/// A link that gives these bytes; none where memory runs out.
fn link_over(alloc: Global, bytes: &[u8]) -> Option<MemTape> {
    let given = Bytes::from_slice(alloc, bytes).ok()?;
    MemTape::without_faults(alloc, given, 4096).ok()
}

/// An end of this role whose journals stand so; none where memory runs out.
fn end_over(alloc: Global, role: Role, begun: &Disks) -> Option<DrivenEnd> {
    DrivenEnd::open(alloc, setup(role), both_copied(alloc, begun)?)
}

/// An end's connection over a link, until it has ended.
fn connect<R: Wait>(end: &mut DrivenEnd, link: &mut MemTape, rt: &R) {
    end.begin();
    for _ in 0..TURNS {
        if end.standing() == Standing::Open {
            end.turn(link, 0, rt);
        }
    }
}

/// What came of an end; none where a journal of it does not open again.
fn came_of(alloc: Global, end: DrivenEnd) -> Option<Came> {
    let ending = end.ending();
    let Disks { outbox, inbox } = end.close();
    let _ = records(alloc, outbox)?;
    let inbox = records(alloc, inbox)?;
    Some(Came { ending, inbox })
}

/// What comes of an end of this role, whose journals stand so, and which hears these bytes; none where a journal of it does not open
/// again, or memory runs out.
fn heard<R: Wait>(alloc: Global, role: Role, begun: &Disks, bytes: &[u8], rt: &R) -> Option<Came> {
    let mut link = link_over(alloc, bytes)?;
    let mut end = end_over(alloc, role, begun)?;
    connect(&mut end, &mut link, rt);
    came_of(alloc, end)
}

/// Whether what came of a tape whose byte at a place was changed is what has to come of it.
fn is_right(place: Place, size: u64, bytes: &[u8], came: &Came) -> bool {
    let (_, frame) = bytes.split_at_checked(place.start).unwrap_or((bytes, &[]));
    let verdict = match place.verdict {
        Verdict::Length => by_length(frame, size),
        Verdict::Template => by_template(frame),
        said => said,
    };
    match came.ending {
        Some(ending) => {
            ends_so(verdict, place.start, ending)
                && holds_so(
                    verdict,
                    place.behind,
                    frame,
                    payloads(came.inbox.as_slice()),
                )
        }
        None => false,
    }
}

/// Whether an end that hears a tape whose byte at a place was changed does what it has to.
fn hears_right<R: Wait>(
    alloc: Global,
    tape: &Tape,
    begun: &Disks,
    place: Place,
    size: u64,
    rt: &R,
) -> bool {
    let bytes = tape.bytes.as_slice();
    match heard(alloc, tape.role, begun, bytes, rt) {
        Some(came) => is_right(place, size, bytes, &came),
        None => false,
    }
}

/// Whether anything else comes of a tape whose byte at a place is changed than has to.
fn is_wrong<R: Wait>(
    alloc: Global,
    tape: &mut Tape,
    begun: &Disks,
    at: usize,
    change: u8,
    rt: &R,
) -> bool {
    if at >= tape.bytes.len() || at >= tape.places.len() {
        return true;
    }
    let place = tape.places[at];
    let size = size_at(tape.bytes.as_slice(), place.start);
    tape.bytes[at] ^= change;
    let right = hears_right(alloc, tape, begun, place, size, rt);
    tape.bytes[at] ^= change;
    !right
}

/// Of how many changes of a byte anything else comes than has to.
fn count_wrong<R: Wait>(alloc: Global, tape: &mut Tape, begun: &Disks, at: usize, rt: &R) -> u64 {
    let mut wrong = 0u64;
    for change in CHANGES {
        if is_wrong(alloc, tape, begun, at, change, rt) {
            wrong = wrong.saturating_add(1);
        }
    }
    wrong
}

/// Of how many changes of the bytes of a tape another thing comes than has to, and the first byte of those.
#[derive(Clone, Copy)]
struct Wrong {
    count: u64,
    first: Option<usize>,
}

/// All changes of a tape; none where memory runs out.
fn all_wrong<R: Wait>(alloc: Global, tape: &mut Tape, rt: &R) -> Option<Wrong> {
    let begun = begun(alloc, tape.role, rt)?;
    let mut wrong = Wrong {
        count: 0,
        first: None,
    };
    for at in 0..tape.bytes.len() {
        let here = count_wrong(alloc, tape, &begun, at, rt);
        if here > 0 {
            wrong.count = wrong.count.saturating_add(here);
            wrong.first = wrong.first.or(Some(at));
        }
    }
    Some(wrong)
}

/// Adds how many bytes were changed, each in three ways, and of how many tapes another thing came than has to; the first of those.
///
/// # Errors
/// Want of memory for the words.
pub fn push_heard<R: Wait>(
    alloc: Global,
    line: &mut String,
    tape: &mut Tape,
    rt: &R,
) -> Result<(), AllocError> {
    let Some(
        Wrong {
            count: wrong,
            first,
        },
    ) = all_wrong(alloc, tape, rt)
    else {
        return line.push_str("want of memory");
    };
    let count = tape.bytes.len();
    write!(line, "{count} bytes changed in three ways, {wrong} wrong")?;
    match first {
        Some(at) => write!(line, ", the first at byte {at}"),
        None => Ok(()),
    }
}
