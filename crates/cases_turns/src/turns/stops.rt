//! Stops of one end of a session, at each call of the disk of its inbox or its outbox, and at a limit of its inbox. All messages of the
//! peer come to it in one turn, so their records are one batch. Behind the stop it goes on from what its disks have then; what it told in
//! both lives, and both inboxes, are judged by plain lists.

ghost use Rattle.std.specs.Prelude.{◌≡◌};

use crate::turns::session::message;
use crate::turns::tapes::{both_copied, copied};
use cases_made::{Disks, DrivenEnd, Setup, Standing, fresh_disks, records};
use conn_turns::NewsItem;
use fixp_end::{Ending, Flow, Role};
use gw_fakes::{MemDisk, Pick};
use gw_link_fakes::Pipe;
use jr_record::Record;
use std::alloc::{AllocError, Global};
use std::sync::Wait;

/// The room of a disk, in bytes.
const DISK: usize = 1024;

/// The room of the pipe each way, in bytes: more than a turn writes.
const ROOM: usize = 2048;

/// More rounds of turns than a session takes here.
const ROUNDS: u64 = 16;

/// More calls than a disk takes here.
const CALLS: u64 = 60;

/// How many messages the end that is stopped has itself.
const OWN: u8 = 1;

/// The bytes of an inbox with the negotiation, and not those of one more message.
const NEGOTIATED: u64 = 46;

/// The bytes of a message in it.
const MESSAGE: u64 = 32;

/// What stops an end.
#[derive(Clone, Copy)]
enum Stop {
    /// The disk of its inbox, which leaves so much.
    Inbox(Pick),
    /// The disk of its outbox, which is only read.
    Outbox,
    /// Its inbox has room for all messages but the last.
    Full,
}

/// Sessions in which an end of this role is stopped, to which so many messages come.
#[derive(Clone, Copy)]
struct Kind {
    role: Role,
    count: u8,
    stop: Stop,
}

/// The journals of both ends before their first connection, the one that is stopped first.
#[derive(Drop)]
struct Begun {
    near: Disks,
    far: Disks,
}

/// What came of a session.
#[derive(Clone, Copy)]
enum Came {
    /// The end that was to be stopped did not open.
    Unopened,
    /// Nothing stopped it.
    Whole,
    /// It was stopped, and so many messages stood then and were told.
    Held { stands: u64, told: u64 },
    /// Something is wrong.
    Wrong(&'static str),
}

/// Both ends, the one that is stopped first.
struct Ends {
    role: Role,
    near: DrivenEnd,
    far: DrivenEnd,
}

/// What an end is made with.
fn setup(role: Role) -> Setup
    ensures senders { result.senders ≡ 1 }
{
    Setup {
        role,
        session: [0x5A; 16],
        own_flow: Flow::Recoverable,
        peer_flow: Flow::Recoverable,
        senders: 1,
    }
}

/// The role of its peer.
fn other(role: Role) -> Role {
    match role {
        Role::Initiator => Role::Acceptor,
        Role::Acceptor => Role::Initiator,
    }
}

/// The journals of an end which has so many messages in the outbox, and the mark behind them; none where memory runs out.
fn first_journals<R: Wait>(alloc: Global, role: Role, count: u8, rt: &R) -> Option<Disks> {
    let mut end = DrivenEnd::open(alloc, setup(role), fresh_disks(alloc, DISK)?)?;
    let mut is_done = true;
    for place in 0..count {
        is_done = end.submit(1, &message(1, place), rt) && is_done;
    }
    is_done = end.finish(rt) && is_done;
    let disks = end.close();
    is_done.then_some(disks)
}

/// Adds the numbers of the messages that were delivered.
fn add_told(told: &mut Vec<u64>, news: &[NewsItem]) -> Result<(), AllocError> {
    for item in news {
        if let NewsItem::Delivered { number, .. } = item {
            told.push(*number)?;
        }
    }
    Ok(())
}

/// The numbers of the messages that an inbox has, 0 where one is not what was sent under its number; none where it does not open.
fn applied(alloc: Global, inbox: MemDisk) -> Option<Vec<u64>> {
    let records = records(alloc, inbox)?;
    let mut numbers = Vec::new(alloc);
    for record in records.as_slice() {
        if let Record::Apply { number, payload } = record {
            let place = number.saturating_sub(1).min(255) as u8;
            let is_sent = payload.as_slice() == &message(1, place)[..];
            numbers.push(if is_sent { *number } else { 0 }).ok()?;
        }
    }
    Some(numbers)
}

/// The same of the inbox of an end.
fn inbox_of(alloc: Global, disks: Disks) -> Option<Vec<u64>> {
    let Disks { outbox: _, inbox } = disks;
    applied(alloc, inbox)
}

/// Whether these are the numbers behind `front`, up to `last`, in order.
fn are_behind(numbers: &[u64], front: u64, last: u64) -> bool {
    let mut next = front;
    for number in numbers {
        next = next.saturating_add(1);
        if *number != next {
            return false;
        }
    }
    next == last
}

/// What a stop leaves of the disks.
fn left(disks: Disks, stop: Stop) -> Disks {
    let Disks { outbox, inbox } = disks;
    let pick = match stop {
        Stop::Inbox(pick) => pick,
        Stop::Outbox | Stop::Full => Pick::Kept,
    };
    Disks {
        outbox: outbox.stop(pick),
        inbox: inbox.stop(pick),
    }
}

impl Ends {
    /// A turn of the end that is stopped, if its connection goes on; what it told is added.
    fn turn_near<R: Wait>(
        &mut self,
        pipe: &mut Pipe,
        told: &mut Vec<u64>,
        rt: &R,
    ) -> Result<(), AllocError> {
        if self.near.standing() != Standing::Open {
            return Ok(());
        }
        match self.role {
            Role::Initiator => self.near.turn(&mut pipe.left(), 1, rt),
            Role::Acceptor => self.near.turn(&mut pipe.right(), 1, rt),
        }
        add_told(told, self.near.news())
    }

    /// A turn of its peer.
    fn turn_far<R: Wait>(&mut self, pipe: &mut Pipe, rt: &R) {
        match self.role {
            Role::Initiator => self.far.turn(&mut pipe.right(), 1, rt),
            Role::Acceptor => self.far.turn(&mut pipe.left(), 1, rt),
        }
    }

    /// A connection, as far as it goes. Adds the numbers that the end told which is stopped.
    fn connect<R: Wait>(
        &mut self,
        alloc: Global,
        told: &mut Vec<u64>,
        rt: &R,
    ) -> Result<(), AllocError> {
        let mut pipe = Pipe::new(alloc, ROOM)?;
        self.near.begin();
        self.far.begin();
        for _ in 0..ROUNDS {
            self.turn_far(&mut pipe, rt);
            self.turn_near(&mut pipe, told, rt)?;
        }
        self.far.cut();
        Ok(())
    }

    /// Whether the last connection ended with both finishes, at both ends.
    fn has_finished(&self) -> bool {
        matches!(self.near.ending(), Some(Ending::Finished))
            && matches!(self.far.ending(), Some(Ending::Finished))
    }

    /// The journals of both.
    fn close(self) -> (Disks, Disks) {
        let Ends { role: _, near, far } = self;
        (near.close(), far.close())
    }

    /// The end that was stopped goes on from what its disks have, beside what stood in its inbox; none where a journal does not open.
    fn renewed(self, alloc: Global, stop: Stop) -> Option<(Ends, Vec<u64>)> {
        let Ends { role, near, far } = self;
        let disks = left(near.close(), stop);
        match reopened(alloc, role, disks) {
            Some((near, stood)) => Some((Ends { role, near, far }, stood)),
            None => {
                let _ = far.close();
                None
            }
        }
    }
}

/// An end over these disks, beside the numbers of the messages that its inbox has; none where a journal does not open.
fn reopened(alloc: Global, role: Role, disks: Disks) -> Option<(DrivenEnd, Vec<u64>)> {
    let stood = applied(alloc, copied(alloc, &disks.inbox)?)?;
    let near = DrivenEnd::open(alloc, setup(role), disks)?;
    Some((near, stood))
}

/// What is wrong with a session behind a stop, if anything is: what stood of so many messages, what was told before the stop and what behind
/// it, and what both inboxes have at the end.
fn fault(
    count: u8,
    stood: &[u64],
    first: &[u64],
    second: &[u64],
    near: &[u64],
    far: &[u64],
) -> Option<&'static str> {
    let last = u64::from(count);
    let stands = stood.len() as u64;
    let told = first.len() as u64;
    if !are_behind(stood, 0, stands) || !are_behind(first, 0, told) {
        return Some("numbers out of order");
    }
    if told > stands {
        return Some("told what does not stand");
    }
    if !are_behind(second, stands, last) {
        return Some("told otherwise than stood");
    }
    if !are_behind(near, 0, last) || !are_behind(far, 0, u64::from(OWN)) {
        return Some("an inbox has not each message once");
    }
    None
}

/// What came of a session whose end was stopped and went on, and told this before it was.
fn went_on<R: Wait>(
    alloc: Global,
    kind: Kind,
    ends: Ends,
    first: &[u64],
    rt: &R,
) -> Result<Came, AllocError> {
    let Some((mut ends, stood)) = ends.renewed(alloc, kind.stop) else {
        return Ok(Came::Wrong("a journal that does not open"));
    };
    let mut second = Vec::new(alloc);
    let went = ends.connect(alloc, &mut second, rt);
    let has_finished = ends.has_finished();
    let (near, far) = ends.close();
    went?;
    let (Some(near), Some(far)) = (inbox_of(alloc, near), inbox_of(alloc, far)) else {
        return Ok(Came::Wrong("an inbox that does not open"));
    };
    if !has_finished {
        return Ok(Came::Wrong("no finish"));
    }
    let (stands, told) = (stood.len() as u64, first.len() as u64);
    Ok(
        match fault(
            kind.count,
            stood.as_slice(),
            first,
            second.as_slice(),
            near.as_slice(),
            far.as_slice(),
        ) {
            Some(what) => Came::Wrong(what),
            None => Came::Held { stands, told },
        },
    )
}

/// The end that is to be stopped behind so many calls; none where it does not open.
fn near_end(alloc: Global, kind: Kind, disks: Disks, calls: u64) -> Option<DrivenEnd> {
    let Disks {
        mut outbox,
        mut inbox,
    } = disks;
    match kind.stop {
        Stop::Inbox(_) => inbox.fuse(calls),
        Stop::Outbox => outbox.fuse(calls),
        Stop::Full => {
            let bytes = NEGOTIATED + MESSAGE * u64::from(kind.count).saturating_sub(1);
            let disks = Disks { outbox, inbox };
            return DrivenEnd::open_within(alloc, setup(kind.role), disks, bytes);
        }
    }
    DrivenEnd::open(alloc, setup(kind.role), Disks { outbox, inbox })
}

/// Both ends, of which the near one is to be stopped behind so many calls; none where it does not open, or memory runs out.
fn ends_of(alloc: Global, kind: Kind, begun: &Begun, calls: u64) -> Option<Ends> {
    let near_disks = both_copied(alloc, &begun.near)?;
    let far_disks = both_copied(alloc, &begun.far)?;
    let near = near_end(alloc, kind, near_disks, calls)?;
    match DrivenEnd::open(alloc, setup(other(kind.role)), far_disks) {
        Some(far) => Some(Ends {
            role: kind.role,
            near,
            far,
        }),
        None => {
            let _ = near.close();
            None
        }
    }
}

/// What comes of a session whose end is to be stopped behind so many calls.
fn stopped<R: Wait>(
    alloc: Global,
    kind: Kind,
    begun: &Begun,
    calls: u64,
    rt: &R,
) -> Result<Came, AllocError> {
    let Some(mut ends) = ends_of(alloc, kind, begun, calls) else {
        return Ok(Came::Unopened);
    };
    let mut first = Vec::new(alloc);
    let went = ends.connect(alloc, &mut first, rt);
    if went.is_err() || ends.near.standing() != Standing::GivenUp {
        let _ = ends.close();
        went?;
        return Ok(Came::Whole);
    }
    went_on(alloc, kind, ends, first.as_slice(), rt)
}

/// Adds at how many calls an end of this kind was stopped and all held, or what was wrong at the first with which something was. A stop
/// leaves all messages or none, since they are one batch.
fn push_stops<R: Wait>(
    alloc: Global,
    line: &mut String,
    kind: Kind,
    begun: &Begun,
    rt: &R,
) -> Result<(), AllocError> {
    let mut held = 0u64;
    for calls in 0..CALLS {
        match stopped(alloc, kind, begun, calls, rt)? {
            Came::Unopened => {}
            Came::Held { stands, .. } if stands == 0 || stands == u64::from(kind.count) => {
                held = held.saturating_add(1);
            }
            Came::Held { .. } => return write!(line, " a part of a batch at call {calls}"),
            Came::Whole => return write!(line, " {held} hold"),
            Came::Wrong(what) => return write!(line, " {what} at call {calls}"),
        }
    }
    line.push_str(" more calls than that")
}

/// Adds what comes of an end whose inbox is full before the last message.
fn push_full<R: Wait>(
    alloc: Global,
    line: &mut String,
    kind: Kind,
    begun: &Begun,
    rt: &R,
) -> Result<(), AllocError> {
    match stopped(alloc, kind, begun, 0, rt)? {
        Came::Unopened => line.push_str(" unopened"),
        Came::Whole => line.push_str(" whole"),
        Came::Held { stands, told } => write!(line, " {stands} stand, {told} told"),
        Came::Wrong(what) => write!(line, " {what}"),
    }
}

/// The journals of both ends, of which that of this role is to be stopped, and so many messages come to it; none where memory runs out.
fn both_begun<R: Wait>(alloc: Global, role: Role, count: u8, rt: &R) -> Option<Begun> {
    Some(Begun {
        near: first_journals(alloc, role, OWN, rt)?,
        far: first_journals(alloc, other(role), count, rt)?,
    })
}

/// Adds what comes of an end that is stopped at a call of its inbox, which leaves each of what a stop may leave.
fn push_picks<R: Wait>(
    alloc: Global,
    line: &mut String,
    role: Role,
    count: u8,
    begun: &Begun,
    rt: &R,
) -> Result<(), AllocError> {
    for pick in [Pick::Old, Pick::Kept, Pick::Noise] {
        let stop = Stop::Inbox(pick);
        write!(line, " {pick:?}")?;
        push_stops(alloc, line, Kind { role, count, stop }, begun, rt)?;
    }
    Ok(())
}

/// Adds what comes of an end whose journals stand so, wherever it is stopped.
fn push_all<R: Wait>(
    alloc: Global,
    line: &mut String,
    role: Role,
    count: u8,
    begun: &Begun,
    rt: &R,
) -> Result<(), AllocError> {
    push_picks(alloc, line, role, count, begun, rt)?;
    line.push_str(", of its outbox")?;
    let stop = Stop::Outbox;
    push_stops(alloc, line, Kind { role, count, stop }, begun, rt)?;
    line.push_str(", full before the last message")?;
    let stop = Stop::Full;
    push_full(alloc, line, Kind { role, count, stop }, begun, rt)
}

/// Adds what comes of an end of this role, to which so many messages come, wherever it is stopped.
///
/// # Errors
/// Want of memory.
pub fn push_stopped<R: Wait>(
    alloc: Global,
    line: &mut String,
    role: Role,
    count: u8,
    rt: &R,
) -> Result<(), AllocError> {
    write!(
        line,
        "{role:?} with {count} messages in a turn: stopped at a call of its inbox"
    )?;
    match both_begun(alloc, role, count, rt) {
        Some(begun) => push_all(alloc, line, role, count, &begun, rt),
        None => line.push_str(" no journals"),
    }
}
