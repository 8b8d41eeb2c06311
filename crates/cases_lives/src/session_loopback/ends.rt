//! One end of a session: its devices, and what it leaves.

ghost use Rattle.std.specs.Prelude.{◌≡◌, false};

use cases_made::{Disks, fresh_disks, records};
use cmd_base::Status;
use cmd_session::{Role, SessionOutside, run_session};
use conn_keys::{Keys, Knowing};
use gw_fakes::{MemDisk, MemSink, MemSource};
use gw_links::{Clock as LinkClock, Dialer};
use gw_outside::{Bytes, Disk, Sink, Source};
use gw_porch::PortGuests;
use gw_sockets::{ConnectDialer, MachineClock};
use gw_watch::NoEar;
use jr_record::Record;
use std::alloc::{AllocError, Global};
use std::net::{Net, TcpListener, TcpStream};
use std::sync::Wait;
use std::thread::Threads;
use std::time::Clock;

/// Where both ends meet.
const ADDRESS: &str = "127.0.0.1:45617";

/// How many connections there may be.
const MOST: u64 = 5;

/// The room of a disk and of OUT, in bytes.
const ROOM: usize = 1 << 16;

/// How many bytes a source gives at once.
const PIECE: usize = 4096;

/// The heartbeat interval of both ends, in milliseconds.
const INTERVAL: u32 = 1000;

/// The session of both ends.
const SESSION: [u8; 16] = [
    0x00, 0x11, 0x22, 0x33, 0x44, 0x55, 0x66, 0x77, 0x88, 0x99, 0xaa, 0xbb, 0xcc, 0xdd, 0xee, 0xff,
];

/// The configuration of both ends.
const CONFIG: &[u8] = b"session = \"00112233-4455-6677-8899-aabbccddeeff\"
keepalive = 1000
client_flow = \"recoverable\"
server_flow = \"recoverable\"
senders = 2
";

/// What an end leaves: its status, and the records of its journals.
#[derive(Drop)]
pub struct Ended {
    pub status: u8,
    pub outbox: Vec<Record>,
    pub inbox: Vec<Record>,
}

/// The streams of an end.
#[derive(Drop)]
struct Streams {
    config: MemSource,
    input: MemSource,
    out: MemSink,
}

/// The devices of an end but for its dialer and its clock.
struct Devices {
    streams: Streams,
    disks: Disks,
}

/// Adds a message to the plan of a sender, of which no two are equal.
fn push_plan(text: &mut String, sender: u8, number: u8) -> Result<(), AllocError> {
    writeln!(
        text,
        "{sender} eb500000010064000100{sender:02x}{number:02x}"
    )
}

/// Adds the plans of two senders: 100 messages each.
fn push_plans(text: &mut String) -> Result<(), AllocError> {
    for number in 0..100u8 {
        push_plan(text, 1, number)?;
        push_plan(text, 2, number)?;
    }
    Ok(())
}

/// A source of the plans.
fn input(alloc: Global) -> Option<MemSource> {
    let mut text = String::new(alloc);
    match push_plans(&mut text) {
        Ok(()) => Some(source(alloc, text.into_bytes())),
        Err(_) => None,
    }
}

/// A source of the configuration.
fn config(alloc: Global) -> Option<MemSource> {
    match Vec::from_slice(alloc, CONFIG) {
        Ok(text) => Some(source(alloc, text)),
        Err(_) => None,
    }
}

/// A source of these bytes.
fn source(alloc: Global, bytes: Vec<u8>) -> MemSource {
    MemSource::without_faults(alloc, Bytes::from(bytes), PIECE)
}

/// The streams of an end that begins.
fn fresh_streams(alloc: Global) -> Option<Streams> {
    let config = config(alloc)?;
    let input = input(alloc)?;
    let out = MemSink::without_faults(alloc, ROOM).ok()?;
    Some(Streams { config, input, out })
}

/// The devices of an end that begins.
fn fresh_devices(alloc: Global) -> Option<Devices> {
    let streams = fresh_streams(alloc)?;
    let disks = fresh_disks(alloc, ROOM)?;
    Some(Devices { streams, disks })
}

/// Runs a session over devices of any kind. Its caller needs no more of what `run_session` promises than that they come back.
fn run_over<R: Threads + Wait + Sync, S: Source, K: Sink, D: Disk + Send, N: Dialer, C: LinkClock>(
    rt: &R,
    alloc: Global,
    role: Role,
    outside: SessionOutside<S, K, D, N, C>,
) -> (Status, SessionOutside<S, K, D, N, C>)
    requires { N.lent outside.dialer ≡ false }
{
    run_session(rt, alloc, role, outside)
}

/// The disks of devices, which are closed.
fn closed<N: Drop, R>(
    outside: SessionOutside<MemSource, MemSink, MemDisk, N, MachineClock<'_, R>>,
) -> Disks {
    let SessionOutside {
        config: _,
        input: _,
        out: _,
        out_disk,
        in_disk,
        dialer: _,
        clock: _,
    } = outside;
    Disks {
        outbox: out_disk,
        inbox: in_disk,
    }
}

/// Runs an end of this role over this dialer and these devices: the number of its status, and what stands on its disks.
fn run_devices<N: Dialer + Drop, R: Threads + Wait + Sync + Clock>(
    rt: &R,
    alloc: Global,
    role: Role,
    dialer: N,
    devices: Devices,
) -> (u8, Disks)
    requires { N.lent dialer ≡ false }
{
    let Devices { streams, disks } = devices;
    let Streams { config, input, out } = streams;
    let Disks { outbox, inbox } = disks;
    let outside = SessionOutside {
        config,
        input,
        out,
        out_disk: outbox,
        in_disk: inbox,
        dialer,
        clock: MachineClock::new(rt),
    };
    let (status, outside) = run_over(rt, alloc, role, outside);
    (status.code(), closed(outside))
}

/// What an end leaves whose status has this number, and whose journals stand on these disks.
fn left_by(alloc: Global, status: u8, disks: Disks) -> Option<Ended> {
    let Disks { outbox, inbox } = disks;
    let outbox = records(alloc, outbox)?;
    let inbox = records(alloc, inbox)?;
    Some(Ended {
        status,
        outbox,
        inbox,
    })
}

/// Runs an end of this role over this dialer.
fn run_end<N: Dialer + Drop, R: Threads + Wait + Sync + Clock>(
    rt: &R,
    alloc: Global,
    role: Role,
    dialer: N,
) -> Option<Ended>
    requires { N.lent dialer ≡ false }
{
    let devices = fresh_devices(alloc)?;
    let (status, disks) = run_devices(rt, alloc, role, dialer, devices);
    left_by(alloc, status, disks)
}

/// The keys of the session, which has no credentials.
fn keys(alloc: Global) -> Keys {
    Keys {
        session: SESSION,
        credentials: Bytes::new(alloc),
    }
}

/// Runs `accept`.
pub fn acceptor<R: Threads + Wait + Sync + Net<Listener = TcpListener, Stream = TcpStream> + Clock>(
    rt: &R,
    alloc: Global,
) -> Option<Ended> {
    let ear = NoEar;
    let guests = PortGuests::new(rt, alloc, &ear, ADDRESS, keys(alloc), INTERVAL);
    let dialer = Knowing::new(guests, keys(alloc), MOST);
    run_end(rt, alloc, Role::Acceptor, dialer)
}

/// Runs `connect`.
pub fn initiator<
    R: Threads + Wait + Sync + Net<Listener = TcpListener, Stream = TcpStream> + Clock,
>(rt: &R, alloc: Global) -> Option<Ended> {
    let dialer = ConnectDialer::new(rt, alloc, ADDRESS, MOST);
    run_end(rt, alloc, Role::Initiator, dialer)
}
