//! A session over a socket that is fed: INPUT is read as it comes, and ACCEPTED is told what became of its lines. `main` makes what goes from thread to
//! thread: the disks of the journals, INPUT and ACCEPTED.

ghost use Rattle.std.specs.Prelude.{◌≡◌, false, None};

use crate::door::dialer_of;
use crate::sessions::{Read, SessionFiles, config_of, hold_stream, outlook_of, pauses_of};
use cmd_feed::{FeedOutside, Role, run_feeding};
use cmd_files::Report;
use cmd_run::Status;
use gw_appended::Appended;
use gw_appended_files::AppendedFile;
use gw_links::{Clock as LinkClock, Dialer};
use gw_outside::{Disk, Failed, Sink, Source};
use gw_real::{FileSink, Named};
use gw_sockets::{ConnectDialer, MachineClock};
use gw_watch::{Approaches, HasPeer, WatchedDialer, WatchedSink};
use say_live::Teller;
use say_session::{FedSaid, SaysWhy, fed_line_of};
use session_files::{Session, out_of};
use std::alloc::{AllocError, Global};
use std::fs::File;
use std::io::{self, Printer};
use std::net::{Net, TcpListener, TcpStream};
use std::rt::Files;
use std::sync::Wait;
use std::sync::atomic::AtomicBool;
use std::thread::Threads;
use std::time::Clock;

/// The devices of a session over files that is fed, watched by this teller but for INPUT and ACCEPTED.
pub type FedDevices<'a, 't, R, I, A, D, N> = FeedOutside<
    Read<'a, 't, R>,
    I,
    WatchedSink<'t, AppendedFile<'a, R, Printer<'a, R>>, Teller<'a, R>>,
    A,
    D,
    WatchedDialer<'t, R, N, Teller<'a, R>>,
    MachineClock<'a, R>,
>;

/// What a session is fed by, and what is told of that.
pub struct Feeds<'a, I, A> {
    pub input: I,
    pub accepted: A,
    /// Whether nobody asks for INPUT any more.
    pub over: &'a AtomicBool,
}

/// The device for ACCEPTED. Its type names one lifetime: the borrow checker covers no call with a type of several beside a `Session`, in which is a `'static`.
#[derive(Drop)]
pub struct AcceptedFile<'a, R> {
    inner: FileSink<'a, R, File, Printer<'a, R>>,
}

impl<'a, R: Print> AcceptedFile<'a, R> {
    /// The file of a name, which must be none of the others; `-` is standard output.
    pub fn new(rt: &'a R, name: Named<'a>, others: &'a [Named<'a>]) -> AcceptedFile<'a, R> {
        AcceptedFile {
            inner: out_of(rt, name, others),
        }
    }
}

impl<R: Files<File = File> + Print> Sink for AcceptedFile<'_, R> {
    ghost taken = { λ k. None };

    ghost faults = { λ k. k.inner.faults };

    fn push(&mut self, bytes: &[u8]) -> Result<usize, Failed> {
        self.inner.push(bytes)
    }
}

impl<R> SaysWhy for AcceptedFile<'_, R> {
    fn push_why(&self, line: &mut String, name: Named<'_>) -> Result<bool, AllocError> {
        self.inner.push_why(line, name)
    }
}

/// The device for OUT, which keeps what earlier runs told; `-` is standard output.
fn kept_out_of<'a, R: Print>(
    rt: &'a R,
    out: Named<'a>,
    others: &'a [Named<'a>],
) -> AppendedFile<'a, R, Printer<'a, R>> {
    if out.is_standard() {
        return AppendedFile::printing(rt, io::writer(rt), others);
    }
    AppendedFile::new(rt, out, others)
}

/// The devices of a session over this dialer and these files, watched by this teller.
fn devices<'a, 't, R: Clock + Files<File = File> + Print + AllocGlobal, I, A, D, N>(
    rt: &'a R,
    session: Session<'a>,
    files: SessionFiles<'a, D>,
    config: Read<'a, 't, R>,
    input: I,
    accepted: A,
    dialer: N,
    teller: &'t Teller<'a, R>,
) -> FedDevices<'a, 't, R, I, A, D, N>
    ensures { result.dialer.inner ≡ dialer }
{
    let alloc = rt.alloc();
    let SessionFiles {
        out_disk,
        in_disk,
        others,
    } = files;
    FeedOutside {
        config,
        input,
        out: WatchedSink::new(kept_out_of(rt, session.out, others), teller),
        accepted,
        out_disk,
        in_disk,
        dialer: WatchedDialer::new(rt, alloc, dialer, teller, pauses_of(session.role)),
        clock: MachineClock::new(rt),
    }
}

/// Runs a session over devices of any kind. Its caller needs no more of what `run_feeding` promises than that they come back.
fn run_over<
    R: Threads + Wait + Sync,
    S: Source,
    I: Source + Send,
    K: Appended,
    A: Sink + Send,
    D: Disk + Send,
    N: Dialer,
    C: LinkClock,
>(
    rt: &R,
    alloc: Global,
    role: Role,
    outside: FeedOutside<S, I, K, A, D, N, C>,
    over: &AtomicBool,
) -> (Status, FeedOutside<S, I, K, A, D, N, C>)
    requires { N.lent outside.dialer ≡ false }
{
    run_feeding(rt, alloc, role, outside, over)
}

/// The report of a session that ended so. It closes the devices.
fn report_of<
    R: Clock + Eprint + Files<File = File> + Print + AllocGlobal,
    I: Drop + SaysWhy,
    A: Drop + SaysWhy,
    D: Disk + Drop + SaysWhy,
    N: Drop + SaysWhy,
>(
    rt: &R,
    session: Session<'_>,
    status: Status,
    outside: FedDevices<'_, '_, R, I, A, D, N>,
    teller: &Teller<'_, R>,
) -> Report {
    let FeedOutside {
        config,
        input,
        out,
        accepted,
        out_disk,
        in_disk,
        dialer,
        clock: _,
    } = outside;
    let mut said = FedSaid {
        config: config.into_inner().into_inner(),
        input,
        out: out.into_inner(),
        accepted,
        out_disk,
        in_disk,
        dialer: dialer.into_inner(),
    };
    teller.close();
    let outlook = outlook_of(&status, teller);
    let line = fed_line_of(rt, rt.alloc(), session, &status, &mut said, outlook);
    Report::told(status, line)
}

/// Runs a session over this dialer and these files. The devices are closed when it returns, before anything is printed on standard output.
fn run_with<
    'a,
    't,
    R: Threads + Wait + Sync + Clock + Files<File = File> + Print + Eprint + AllocGlobal,
    I: Source + Send + Drop + SaysWhy,
    A: Sink + Send + Drop + SaysWhy,
    D: Disk + Send + Drop + SaysWhy,
    N: Approaches + Drop + SaysWhy,
>(
    rt: &'a R,
    session: Session<'a>,
    files: SessionFiles<'a, D>,
    feeds: Feeds<'_, I, A>,
    config: Read<'a, 't, R>,
    dialer: N,
    teller: &'t Teller<'a, R>,
) -> Report
where
    N::Link: HasPeer,
    requires { N.lent dialer ≡ false }
{
    let Feeds {
        input,
        accepted,
        over,
    } = feeds;
    let devices = devices(rt, session, files, config, input, accepted, dialer, teller);
    let (status, devices) = run_over(rt, rt.alloc(), session.role, devices, over);
    report_of(rt, session, status, devices, teller)
}

/// Runs a session that is fed over a socket, over the files that its words name, and over these disks of its journals. A listener is bound once CONFIG and
/// the journals are accepted and OUT and ACCEPTED are begun. A quiet one says no more on standard error than what is wrong.
pub fn feed_over_sockets<
    'a,
    R: Threads
        + Wait
        + Sync
        + Net<Listener = TcpListener, Stream = TcpStream>
        + Clock
        + Files<File = File>
        + Print
        + Eprint
        + AllocGlobal,
    I: Source + Send + Drop + SaysWhy,
    A: Sink + Send + Drop + SaysWhy,
    D: Disk + Send + Drop + SaysWhy,
>(
    rt: &'a R,
    session: Session<'a>,
    files: SessionFiles<'a, D>,
    feeds: Feeds<'_, I, A>,
    is_quiet: bool,
) -> Report {
    let (alloc, most) = (rt.alloc(), u64::from(session.most));
    let teller = Teller::new(rt, alloc, session, is_quiet);
    // What a dialer waits with would take the number of a standard stream that is closed, and OUT would then be told to it.
    let held = (hold_stream(rt), hold_stream(rt), hold_stream(rt));
    let mut config = config_of(rt, session, &teller);
    match session.role {
        Role::Initiator => {
            let dialer = ConnectDialer::new(rt, alloc, session.address, most);
            drop(held);
            run_with(rt, session, files, feeds, config, dialer, &teller)
        }
        Role::Acceptor => {
            config.read();
            let dialer = dialer_of(rt, alloc, &teller, session, config.text());
            drop(held);
            run_with(rt, session, files, feeds, config, dialer, &teller)
        }
    }
}
