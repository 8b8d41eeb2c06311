//! Two sessions over one transport: at each side of a pipe a router of frames, and over its links an end of each session, turn by turn.
//! Each end sends messages of its own. The transport is cut twice, and goes on with new routers over a new pipe. The inboxes are read again,
//! and have the messages of their own peers and no others.

use cases_made::{Disks, DrivenEnd, Setup, Standing, fresh_disks, records};
use fixp_end::{Flow, Role};
use fixp_mux::Mux;
use gw_link_fakes::{MemLink, Pipe};
use jr_record::Record;
use std::alloc::Global;
use std::io;
use std::sync::Wait;

/// The identifiers of the sessions.
const SESSIONS: [[u8; 16]; 2] = [[0x5A; 16], [0xA5; 16]];

/// The room of a disk, in bytes.
const DISK: usize = 1 << 14;

/// The room of the pipe each way, in bytes: less than two ends write in a turn, so that frames wait on both sides of it.
const ROOM: usize = 100;

/// Behind how many rounds each connection of the transport is cut, one behind another. The sessions have ended long before the last.
const ROUNDS: [u64; 3] = [6, 9, 1000];

/// What an end sends: so many messages, by whose template it is known.
#[derive(Clone, Copy)]
struct Sends {
    template: u8,
    count: u8,
}

/// What the initiators send, that of the first session first.
const INITIATORS: [Sends; 2] = [
    Sends {
        template: 1,
        count: 12,
    },
    Sends {
        template: 2,
        count: 5,
    },
];

/// What the acceptors send.
const ACCEPTORS: [Sends; 2] = [
    Sends {
        template: 3,
        count: 8,
    },
    Sends {
        template: 4,
        count: 9,
    },
];

/// A message of 8 bytes behind its encoding type: its template tells whose it is, its version its place.
const fn message(template: u8, place: u8) -> [u8; 10] {
    [0xEB, 0x50, 0, 0, template, 0, 0x64, 0, place, 0]
}

/// A new end; none where memory runs out.
fn open_end(alloc: Global, role: Role, session: [u8; 16]) -> Option<DrivenEnd> {
    let setup = Setup {
        role,
        session,
        own_flow: Flow::Recoverable,
        peer_flow: Flow::Recoverable,
        senders: 1,
    };
    DrivenEnd::open(alloc, setup, fresh_disks(alloc, DISK)?)
}

/// An end is to send its messages, and that nothing more comes.
fn submit_all<R: Wait>(end: &mut DrivenEnd, sends: Sends, rt: &R) {
    for place in 0..sends.count {
        end.submit(1, &message(sends.template, place), rt);
    }
    end.finish(rt);
}

/// A turn of an end over the link of the session at a place, if there is one.
fn turn_end<R: Wait>(end: &mut DrivenEnd, mux: &mut Mux, place: usize, rt: &R) {
    if place < mux.len() {
        end.turn(&mut mux.link(place), 1, rt);
    }
}

/// One side of the pipe: a router, and an end of each session.
struct Side {
    mux: Mux,
    first: DrivenEnd,
    second: DrivenEnd,
}

impl Side {
    /// A new side; none where memory runs out.
    fn open(alloc: Global, role: Role) -> Option<Side> {
        let mux = Mux::new(alloc, &SESSIONS).ok()?;
        let [one, other] = SESSIONS;
        let first = open_end(alloc, role, one)?;
        match open_end(alloc, role, other) {
            Some(second) => Some(Side { mux, first, second }),
            None => {
                let _ = first.close();
                None
            }
        }
    }

    /// What both ends are to send.
    fn submit<R: Wait>(&mut self, sends: [Sends; 2], rt: &R) {
        let [one, other] = sends;
        submit_all(&mut self.first, one, rt);
        submit_all(&mut self.second, other, rt);
    }

    /// Both ends begin over a new router, and answers whether there was memory for it.
    fn begin(&mut self, alloc: Global) -> bool {
        let Ok(mux) = Mux::new(alloc, &SESSIONS) else {
            return false;
        };
        self.mux = mux;
        self.first.begin();
        self.second.begin();
        true
    }

    /// The transport is cut.
    fn cut(&mut self) {
        self.first.cut();
        self.second.cut();
    }

    /// A turn of both ends, and a pump.
    fn turn<R: Wait>(&mut self, mut link: MemLink<'_>, rt: &R) {
        turn_end(&mut self.first, &mut self.mux, 0, rt);
        turn_end(&mut self.second, &mut self.mux, 1, rt);
        if !self.mux.has_ended() {
            let _ = self.mux.pump(&mut link, 0);
        }
    }

    /// Whether the connections of both ends are over.
    fn is_over(&self) -> bool {
        self.first.standing() == Standing::Over && self.second.standing() == Standing::Over
    }

    /// The journals of the first session's end and of the second's.
    fn close(self) -> (Disks, Disks) {
        let Side {
            mux: _,
            first,
            second,
        } = self;
        (first.close(), second.close())
    }
}

/// How many messages an inbox has, where they are the peer's in order from the first on; none where one is another's.
fn applied(alloc: Global, disks: Disks, peer: Sends) -> Option<u8> {
    let Disks { outbox: _, inbox } = disks;
    let mut count: u8 = 0;
    for record in &records(alloc, inbox)? {
        if let Record::Apply { number, payload } = record {
            if *number != u64::from(count).saturating_add(1)
                || payload.as_slice() != &message(peer.template, count)[..]
            {
                return None;
            }
            count = count.saturating_add(1);
        }
    }
    Some(count)
}

/// One connection of the transport, of so many rounds at most; then it is cut. Answers whether there was memory for it.
fn connect_once<R: Wait>(
    alloc: Global,
    left: &mut Side,
    right: &mut Side,
    rounds: u64,
    rt: &R,
) -> bool {
    let Ok(mut pipe) = Pipe::new(alloc, ROOM) else {
        return false;
    };
    if !left.begin(alloc) || !right.begin(alloc) {
        return false;
    }
    for _ in 0..rounds {
        left.turn(pipe.left(), rt);
        right.turn(pipe.right(), rt);
        if left.is_over() && right.is_over() {
            break;
        }
    }
    left.cut();
    right.cut();
    true
}

/// Both sessions from their beginning to their end. Answers the journals of the initiators and of the acceptors; none where memory runs
/// out.
fn connect<R: Wait>(alloc: Global, rt: &R) -> Option<((Disks, Disks), (Disks, Disks))> {
    let mut left = Side::open(alloc, Role::Initiator)?;
    let Some(mut right) = Side::open(alloc, Role::Acceptor) else {
        let _ = left.close();
        return None;
    };
    left.submit(INITIATORS, rt);
    right.submit(ACCEPTORS, rt);
    let mut goes_on = true;
    for rounds in ROUNDS {
        goes_on = goes_on && connect_once(alloc, &mut left, &mut right, rounds, rt);
    }
    Some((left.close(), right.close()))
}

/// Prints how many messages came to an end.
fn print_come<R: Print + AllocGlobal>(rt: &R, end: &str, come: Option<u8>) -> io::Result<()> {
    match come {
        Some(count) => println!(rt;
            "{end} has {count} of its peer's messages, in order, and no others"
        ),
        None => println!(rt; "{end} has a message that is not its peer's next one"),
    }
}

/// Prints what came to each end.
pub fn print<R: Print + AllocGlobal + Wait>(rt: &R) -> io::Result<()> {
    let alloc = rt.alloc();
    let Some(((one, other), (first, second))) = connect(alloc, rt) else {
        return println!(rt; "no memory");
    };
    let [from_one, from_other] = INITIATORS;
    let [from_first, from_second] = ACCEPTORS;
    print_come(rt, "acceptor 1", applied(alloc, first, from_one))?;
    print_come(rt, "initiator 1", applied(alloc, one, from_first))?;
    print_come(rt, "acceptor 2", applied(alloc, second, from_other))?;
    print_come(rt, "initiator 2", applied(alloc, other, from_second))
}
