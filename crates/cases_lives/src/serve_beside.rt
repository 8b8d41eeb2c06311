//! A life in which the first call of the dialer waits for the first write of a sender, and that for the dialer: both see each
//! other only where the senders run beside the connections. What it has to print stands in `stdout`.

mod devices;
mod meeting;

ghost use Rattle.std.specs.Prelude.{◌≡◌, false};

use cases_made::formatted;
use cmd_base::Status;
use cmd_session::{Role, SessionOutside, run_session};
use devices::{MetDialer, MetDisk};
use gw_fakes::{MemSink, MemSource};
use gw_link_fakes::{MemClock, MemDialer};
use gw_links::{Clock, Dialer};
use gw_outside::{Bytes, Disk, Sink, Source};
use meeting::Meeting;
use std::alloc::Global;
use std::io;
use std::sync::Wait;
use std::thread::Threads;

/// The room of a disk and of OUT, in bytes.
const ROOM: usize = 4096;

/// The configuration of the end.
const CONFIG: &[u8] = b"session = \"00112233-4455-6677-8899-aabbccddeeff\"
keepalive = 1000
client_flow = \"recoverable\"
server_flow = \"recoverable\"
senders = 1
";

/// The one message of the one sender.
const PLAN: &[u8] = b"1 eb500000080064000100\n";

/// A source of these bytes.
fn source(alloc: Global, bytes: &[u8]) -> Option<MemSource> {
    let bytes = Bytes::from_slice(alloc, bytes).ok()?;
    Some(MemSource::without_faults(alloc, bytes, ROOM))
}

/// The status of a life over these devices.
fn status_of<
    S: Source + Drop,
    K: Sink + Drop,
    D: Disk + Send + Drop,
    N: Dialer + Drop,
    C: Clock + Drop,
    R: Threads + Wait + Sync,
>(rt: &R, alloc: Global, outside: SessionOutside<S, K, D, N, C>) -> Status
    requires { N.lent outside.dialer ≡ false }
{
    let (status, outside) = run_session(rt, alloc, Role::Initiator, outside);
    let SessionOutside {
        config: _,
        input: _,
        out: _,
        out_disk: _,
        in_disk: _,
        dialer: _,
        clock: _,
    } = outside;
    status
}

/// The status of a life without a connection, whose first call of the dialer and whose sender's first write meet.
fn live<R: Threads + Wait + Sync>(rt: &R, alloc: Global, meeting: &Meeting) -> Option<u8> {
    let outside = SessionOutside {
        config: source(alloc, CONFIG)?,
        input: source(alloc, PLAN)?,
        out: MemSink::without_faults(alloc, ROOM).ok()?,
        out_disk: MetDisk::new(formatted(alloc, ROOM)?, Some(meeting)),
        in_disk: MetDisk::new(formatted(alloc, ROOM)?, None),
        dialer: MetDialer::new(MemDialer::without_faults(alloc, Vec::new(alloc)), meeting),
        clock: MemClock::new(0),
    };
    Some(status_of(rt, alloc, outside).code())
}

/// Prints what the section shows.
pub fn print<R: Print + Threads + Wait + Sync + AllocGlobal>(rt: &R) -> io::Result<()> {
    let meeting = Meeting::new();
    let status = live(rt, rt.alloc(), &meeting);
    let (dialer, sender) = meeting.met();
    println!(rt;
        "the dialer met the sender: {dialer}, the sender met the dialer: {sender}, status {status:?}"
    )
}
