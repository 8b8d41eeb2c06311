//! A session over a socket and over the files that its words name: `accept` as the acceptor, `connect` as the initiator. `main`
//! makes the disks of the journals: that their files may go from thread to thread is known of its own runtime alone.

ghost use Rattle.std.specs.Prelude.{◌≡◌, false};

use crate::door::{Ahead, dialer_of};
use cmd_files::Report;
use cmd_run::Status;
use cmd_session::{Role, SessionOutside, run_session};
use gw_links::{Clock as LinkClock, Dialer};
use gw_outside::{Disk, Sink, Source};
use gw_real::{FileSink, FileSource, Named};
use gw_sockets::{ConnectDialer, MachineClock};
use gw_watch::{Approaches, HasPeer, Pauses, WatchedDialer, WatchedSink, WatchedSource};
use say_live::Teller;
use say_session::{Said, SaysWhy, line_of};
use schema_toml::TEXT_LIMIT;
use session_files::{Outlook, Session, out_of};
use std::alloc::Global;
use std::fs::File;
use std::io::{self, Printer};
use std::net::{Net, TcpListener, TcpStream};
use std::rt::Files;
use std::sync::Wait;
use std::thread::Threads;
use std::time::Clock;

/// A file that is read, watched by this teller; of CONFIG a door may have read ahead.
pub type Read<'a, 't, R> = Ahead<WatchedSource<'t, R, FileSource<'a, R, File>, Teller<'a, R>>>;

/// The devices of a session over files, watched by this teller.
pub type Devices<'a, 't, R, D, N> = SessionOutside<
    Read<'a, 't, R>,
    WatchedSink<'t, FileSink<'a, R, File, Printer<'a, R>>, Teller<'a, R>>,
    D,
    WatchedDialer<'t, R, N, Teller<'a, R>>,
    MachineClock<'a, R>,
>;

/// The disks of a session's journals, and the files that OUT must not be the same as.
pub struct SessionFiles<'a, D> {
    pub out_disk: D,
    pub in_disk: D,
    pub others: &'a [Named<'a>],
}

/// The devices of a session over this dialer and these files, watched by this teller.
fn devices<'a, 't, R: Clock + Files<File = File> + Print + AllocGlobal, D, N>(
    rt: &'a R,
    session: Session<'a>,
    files: SessionFiles<'a, D>,
    config: Read<'a, 't, R>,
    dialer: N,
    teller: &'t Teller<'a, R>,
) -> Devices<'a, 't, R, D, N>
    ensures { result.dialer.inner ≡ dialer }
{
    let alloc = rt.alloc();
    let SessionFiles {
        out_disk,
        in_disk,
        others,
    } = files;
    let input = FileSource::new(rt, alloc, session.input.read_path(), 0);
    SessionOutside {
        config,
        input: Ahead::new(alloc, WatchedSource::new(rt, input, teller)),
        out: WatchedSink::new(out_of(rt, session.out, others), teller),
        out_disk,
        in_disk,
        dialer: WatchedDialer::new(rt, alloc, dialer, teller, pauses_of(session.role)),
        clock: MachineClock::new(rt),
    }
}

/// CONFIG, watched by this teller.
pub fn config_of<'a, 't, R: Files<File = File> + AllocGlobal>(
    rt: &'a R,
    session: Session<'a>,
    teller: &'t Teller<'a, R>,
) -> Read<'a, 't, R> {
    let alloc = rt.alloc();
    let config = FileSource::new(rt, alloc, session.config.path, TEXT_LIMIT + 1);
    Ahead::new(alloc, WatchedSource::new(rt, config, teller))
}

/// Whether an end pauses behind connections that came to nothing: one that makes them. One that listens would make those wait
/// who come next.
pub fn pauses_of(role: Role) -> Pauses {
    match role {
        Role::Initiator => Pauses::Longer,
        Role::Acceptor => Pauses::Never,
    }
}

/// Runs a session over devices of any kind. Its caller needs no more of what `run_session` promises than that they come back.
fn run_over<R: Threads + Wait + Sync, S: Source, K: Sink, D: Disk + Send, N: Dialer, C: LinkClock>(
    rt: &R,
    alloc: Global,
    role: Role,
    outside: SessionOutside<S, K, D, N, C>,
) -> (Status, SessionOutside<S, K, D, N, C>)
    requires { N.lent outside.dialer ≡ false }
{
    run_session(rt, alloc, role, outside)
}

/// What running again can bring, looked for in the journals where it is said of this status.
pub fn outlook_of<R: Clock + Eprint + Files<File = File>>(
    status: &Status,
    teller: &Teller<'_, R>,
) -> Outlook {
    match status {
        Status::DialFault | Status::Unfinished { .. } => teller.outlook(),
        _ => Outlook::Open,
    }
}

/// The report of a session that ended so. It closes the devices.
fn report_of<
    R: Clock + Eprint + Files<File = File> + Print + AllocGlobal,
    D: Disk + Drop + SaysWhy,
    N: Drop + SaysWhy,
>(
    rt: &R,
    session: Session<'_>,
    status: Status,
    outside: Devices<'_, '_, R, D, N>,
    teller: &Teller<'_, R>,
) -> Report {
    let SessionOutside {
        config,
        input,
        out,
        out_disk,
        in_disk,
        dialer,
        clock: _,
    } = outside;
    let mut said = Said {
        config: config.into_inner().into_inner(),
        input: input.into_inner().into_inner(),
        out: out.into_inner(),
        out_disk,
        in_disk,
        dialer: dialer.into_inner(),
    };
    teller.close();
    let outlook = outlook_of(&status, teller);
    let line = line_of(rt, rt.alloc(), session, &status, &mut said, outlook);
    Report::told(status, line)
}

/// Runs a session over this dialer and these files. The devices are closed when it returns, before anything is printed on
/// standard output: where that is closed, a file may stand in its place.
fn run_with<
    'a,
    't,
    R: Threads + Wait + Sync + Clock + Files<File = File> + Print + Eprint + AllocGlobal,
    D: Disk + Send + Drop + SaysWhy,
    N: Approaches + Drop + SaysWhy,
>(
    rt: &'a R,
    session: Session<'a>,
    files: SessionFiles<'a, D>,
    config: Read<'a, 't, R>,
    dialer: N,
    teller: &'t Teller<'a, R>,
) -> Report
where
    N::Link: HasPeer,
    requires { N.lent dialer ≡ false }
{
    let devices = devices(rt, session, files, config, dialer, teller);
    let (status, devices) = run_over(rt, rt.alloc(), session.role, devices);
    report_of(rt, session, status, devices, teller)
}

/// What stands at the number of a standard stream that is closed, while it is held.
pub fn hold_stream<R: Files<File = File>>(rt: &R) -> io::Result<File> {
    File::open(rt, "/dev/null")
}

/// Runs a session over a socket, over the files that its words name, and over these disks of its journals. A listener is bound
/// once CONFIG, the journals and INPUT are accepted. A quiet one says no more on standard error than what is wrong.
pub fn run_over_sockets<
    'a,
    R: Threads
        + Wait
        + Sync
        + Net<Listener = TcpListener, Stream = TcpStream>
        + Clock
        + Files<File = File>
        + Print
        + Eprint
        + AllocGlobal,
    D: Disk + Send + Drop + SaysWhy,
>(rt: &'a R, session: Session<'a>, files: SessionFiles<'a, D>, is_quiet: bool) -> Report {
    let (alloc, most) = (rt.alloc(), u64::from(session.most));
    let teller = Teller::new(rt, alloc, session, is_quiet);
    // What a dialer waits with would take the number of a standard stream that is closed, and OUT would then be told to it.
    let held = (hold_stream(rt), hold_stream(rt), hold_stream(rt));
    let mut config = config_of(rt, session, &teller);
    match session.role {
        Role::Initiator => {
            let dialer = ConnectDialer::new(rt, alloc, session.address, most);
            drop(held);
            run_with(rt, session, files, config, dialer, &teller)
        }
        Role::Acceptor => {
            config.read();
            let dialer = dialer_of(rt, alloc, &teller, session, config.text());
            drop(held);
            run_with(rt, session, files, config, dialer, &teller)
        }
    }
}
