//! The door of `accept`: who is let in, as CONFIG has it, which is read for that before the session reads it.

ghost use Rattle.std.specs.Prelude.{◌≡◌, ◌≤◌, false, length};

use cmd_config::{Purpose, Role, read_configuration};
use conn_keys::{Keys, Knowing};
use gw_links::{Dialer, Next};
use gw_outside::{Bytes, Failed, Source};
use gw_porch::{PortGuests, PortLink};
use gw_real::Named;
use gw_sockets::SocketWaker;
use gw_watch::{Approach, Approaches};
use say_live::Teller;
use say_session::{SaysWhy, push_dial};
use schema_toml::TEXT_LIMIT;
use session_files::Session;
use std::alloc::{AllocError, Global};
use std::fs::File;
use std::net::{Net, TcpListener, TcpStream};
use std::rt::Files;
use std::sync::atomic::AtomicBool;
use std::time::Clock;

/// How many bytes are read ahead at once.
const PIECE: usize = 4096;

/// A source that can be read ahead: what came then is given again, and then what comes behind it.
#[derive(Drop)]
pub struct Ahead<S> {
    inner: S,
    text: Vec<u8>,
    /// How many bytes of the text were given.
    given: usize,
    /// Whether its end was met as it was read ahead: it is not asked again then, since a FIFO may have another writer meanwhile.
    is_over: bool,
}

impl<S> Ahead<S> {
    /// This source, of which nothing is read yet.
    pub fn new(alloc: Global, inner: S) -> Ahead<S> {
        Ahead {
            inner,
            text: Vec::new(alloc),
            given: 0,
            is_over: false,
        }
    }

    /// What was read ahead.
    pub fn text(&self) -> &[u8] {
        self.text.as_slice()
    }

    /// The source inside.
    pub fn into_inner(self) -> S {
        let Ahead {
            inner,
            text: _,
            given: _,
            is_over: _,
        } = self;
        inner
    }
}

impl<S: Source> Ahead<S> {
    /// Reads a piece ahead, and answers whether more may come.
    fn read_piece(&mut self) -> bool {
        let mut piece = [0; PIECE];
        // What is read has to be kept.
        if self.text.reserve(PIECE).is_err() {
            return false;
        }
        match self.inner.pull(&mut piece) {
            Ok(0) => {
                self.is_over = true;
                false
            }
            Err(_) => false,
            Ok(count) => self.text.extend_from_slice(&piece[..count]).is_ok(),
        }
    }

    /// Reads ahead until nothing comes, it fails, memory runs out, or more came than a configuration may have.
    pub fn read(&mut self) {
        for _ in 0..=TEXT_LIMIT {
            if self.text.len() > TEXT_LIMIT || !self.read_piece() {
                return;
            }
        }
    }
}

/// Copies from the front of `from` to that of `into`, as far as both reach, and tells how many bytes.
fn copy_front(into: &mut [u8], from: &[u8]) -> usize
    ensures count { result ≤ length into.new }
{
    let count = into.len().min(from.len());
    into[..count].copy_from_slice(&from[..count]);
    count
}

impl<S: Source> Source for Ahead<S> {
    ghost use Rattle.std.specs.Prelude.{None};

    ghost left = { λ s. None };

    ghost faults = { λ s. S.faults s.inner };

    fn pull(&mut self, into: &mut [u8]) -> Result<usize, Failed> {
        let given = self.given.min(self.text.len());
        let (_, left) = self.text.as_slice().split_at(given);
        if left.is_empty() {
            if self.is_over {
                return Ok(0);
            }
            return self.inner.pull(into);
        }
        let count = copy_front(into, left);
        self.given = given.saturating_add(count);
        Ok(count)
    }
}

/// The keys of a session and its own heartbeat interval in milliseconds: once for its guests and once for its dialer.
#[derive(Drop)]
struct Door {
    guests: Keys,
    dialer: Keys,
    own: u32,
}

/// The door that this text of CONFIG has, if it is one's.
fn door_of(alloc: Global, text: &[u8]) -> Option<Door> {
    let configuration = read_configuration(alloc, Purpose::Live(Role::Acceptor), text).ok()?;
    let link = configuration.link;
    let (session, own) = (link.session, link.keepalive);
    let credentials = link.credentials.copy(alloc).ok()?;
    Some(Door {
        guests: Keys {
            session,
            credentials,
        },
        dialer: Keys {
            session,
            credentials: link.credentials,
        },
        own,
    })
}

/// A door through which nobody comes.
fn shut(alloc: Global) -> Door {
    Door {
        guests: Keys {
            session: [0; 16],
            credentials: Bytes::new(alloc),
        },
        dialer: Keys {
            session: [0; 16],
            credentials: Bytes::new(alloc),
        },
        own: 0,
    }
}

/// The dialer of `accept`, which hands on who gives the session's keys. Its type names one lifetime: the borrow checker covers no call with a type of several
/// beside a `Session`, in which is a `'static`.
#[derive(Drop)]
pub struct DoorDialer<'a, R> {
    inner: Knowing<PortGuests<'a, R, Teller<'a, R>>>,
}

impl<
    'a,
    R: Net<Listener = TcpListener, Stream = TcpStream> + Clock + Eprint + Files<File = File>,
> Dialer for DoorDialer<'a, R> {
    type Link = PortLink<'a, R, Teller<'a, R>>;

    type Waker = SocketWaker;

    ghost use Rattle.std.specs.Prelude.{None};

    ghost told = { λ d. None };

    ghost lent = { λ d. d.inner.guests.is_lent };

    ghost faults = { λ d. d.inner.guests.faults };

    fn next(&mut self, stop: &AtomicBool) -> Result<Next<Self::Link>, Failed> {
        self.inner.next(stop)
    }

    fn waker(&self) -> SocketWaker {
        self.inner.waker()
    }

    fn back(&mut self, link: Self::Link) {
        self.inner.back(link);
    }
}

impl<
    R: Net<Listener = TcpListener, Stream = TcpStream> + Clock + Eprint + Files<File = File>,
> Approaches for DoorDialer<'_, R> {
    fn approach(&mut self) -> Approach {
        self.inner.approach()
    }
}

impl<R> SaysWhy for DoorDialer<'_, R> {
    fn push_why(&self, line: &mut String, name: Named<'_>) -> Result<bool, AllocError> {
        let Some(reason) = self.inner.guests().reason() else {
            return Ok(false);
        };
        push_dial(line, name, reason)?;
        Ok(true)
    }
}

/// The dialer of `accept`, by this text of CONFIG. Where it is none, which the session finds itself, nobody is let in.
pub fn dialer_of<
    'a,
    R: Net<Listener = TcpListener, Stream = TcpStream> + Clock + Eprint + Files<File = File>,
>(
    rt: &'a R,
    alloc: Global,
    ear: &'a Teller<'a, R>,
    session: Session<'a>,
    config: &[u8],
) -> DoorDialer<'a, R>
    ensures { result.inner.guests.is_lent ≡ false }
{
    let (door, most) = match door_of(alloc, config) {
        Some(door) => (door, u64::from(session.most)),
        None => (shut(alloc), 0),
    };
    let Door {
        guests,
        dialer,
        own,
    } = door;
    let guests = PortGuests::new(rt, alloc, ear, session.address, guests, own);
    DoorDialer {
        inner: Knowing::new(guests, dialer, most),
    }
}
