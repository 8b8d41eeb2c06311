//! A guest: a connection of whoever came, until it is known whose it is.

ghost use Rattle.std.specs.Prelude.{◌≤◌, length, IfOk, IfSome};

use crate::claim::{Claim, claim_of};
use conn_keys::{Keys, LOOKED_AT, Reject, Verdict, judge};
use mio::net::TcpStream;
use std::io::{self, ErrorKind, Read, Write};
use std::net::{Shutdown, SocketAddr};

/// How long a guest has for its first frame from its acceptance on, and one that gives the keys to be let in, in milliseconds.
pub(crate) const PATIENCE: u64 = 5_000;

/// How long a guest that was answered has to end the connection, in milliseconds.
const FAREWELL: u64 = 1_000;

/// How often it is read at once from a guest that was answered.
const READS: u64 = 16;

/// The size of a reject's frame, in bytes.
const REJECT: usize = 41;

/// How far a guest is.
#[derive(Clone, Copy)]
enum Stage {
    /// Nothing came yet.
    Silent,
    /// Some bytes came, and no whole frame.
    Half,
    /// It was answered at this moment, in milliseconds, and is shut for writing.
    Answered(u64),
}

/// What was found at a guest.
#[derive(Clone, Copy)]
pub(crate) enum Found {
    /// It stays.
    Nothing,
    /// It gives the keys, and asks for this.
    Keys(Claim),
    /// It asks without the keys.
    Rejected(Reject),
    /// It is to be closed without a word.
    Stranger,
    /// It was answered before, and its connection is over.
    Over,
}

/// A connection of which nothing was taken.
#[derive(Drop)]
pub(crate) struct Guest {
    pub stream: TcpStream,
    pub peer: SocketAddr,
    /// The moment of its acceptance, in milliseconds.
    since: u64,
    stage: Stage,
}

/// Copies what waits into the front of `into`, again where a signal came between, and answers how many bytes; `None` where nothing waits yet.
pub(crate) fn peek_now(stream: &TcpStream, into: &mut [u8]) -> io::Result<Option<usize>>
    ensures count { IfOk result (λ found. IfSome found (λ n. n ≤ length into.new)) }
{
    for _ in 0..u64::MAX {
        match stream.peek(into) {
            Ok(count) => return Ok(Some(count)),
            Err(error) if error.kind() == ErrorKind::WouldBlock => return Ok(None),
            Err(error) if error.kind() == ErrorKind::Interrupted => {}
            Err(error) => return Err(error),
        }
    }
    Ok(None)
}

/// What bytes are that came first; `own` is the own heartbeat interval in milliseconds.
fn found_in(keys: &Keys, own: u32, front: &[u8]) -> Found {
    match judge(keys, front) {
        Verdict::Wait => Found::Nothing,
        Verdict::Serve => match claim_of(front, own) {
            Some(claim) => Found::Keys(claim),
            None => Found::Stranger,
        },
        Verdict::Reject(reject) => Found::Rejected(reject),
        Verdict::Close => Found::Stranger,
    }
}

impl Guest {
    /// A guest that was accepted at this moment.
    pub(crate) fn new(stream: TcpStream, peer: SocketAddr, now: u64) -> Guest {
        Guest {
            stream,
            peer,
            since: now,
            stage: Stage::Silent,
        }
    }

    /// Whether its time is up.
    pub(crate) fn is_late(&self, now: u64) -> bool {
        let (since, patience) = match self.stage {
            Stage::Silent | Stage::Half => (self.since, PATIENCE),
            Stage::Answered(since) => (since, FAREWELL),
        };
        now.saturating_sub(since) >= patience
    }

    /// Whether it is to be looked at also where no event tells of it: behind a look that leaves bytes none is promised.
    pub(crate) fn is_half(&self) -> bool {
        !matches!(self.stage, Stage::Silent)
    }

    /// Whether it was answered.
    pub(crate) fn is_answered(&self) -> bool {
        matches!(self.stage, Stage::Answered(_))
    }

    /// Looks at it, and takes nothing of it but behind an answer.
    pub(crate) fn look(&mut self, keys: &Keys, own: u32) -> Found {
        if self.is_answered() {
            return self.read_on();
        }
        let mut front = [0; LOOKED_AT];
        match peek_now(&self.stream, &mut front) {
            Ok(None) => Found::Nothing,
            Ok(Some(0)) | Err(_) => Found::Stranger,
            Ok(Some(count)) => {
                self.stage = Stage::Half;
                found_in(keys, own, front.split_at(count).0)
            }
        }
    }

    /// Reads what a guest still says that was answered, and drops it: where bytes stay unread as its connection is closed, the system drops the answer.
    pub(crate) fn read_on(&mut self) -> Found {
        let mut piece = [0; LOOKED_AT];
        for _ in 0..READS {
            match self.stream.read(&mut piece) {
                Ok(0) => return Found::Over,
                Ok(_) => {}
                Err(error) if error.kind() == ErrorKind::WouldBlock => return Found::Nothing,
                Err(error) if error.kind() == ErrorKind::Interrupted => {}
                Err(_) => return Found::Over,
            }
        }
        Found::Nothing
    }

    /// Answers it, and shuts its connection for writing.
    pub(crate) fn answer(&mut self, reject: Reject, now: u64) {
        let mut frame = [0; REJECT];
        let count = reject.write(&mut frame);
        // A socket to which nothing was written has room for it; where it has not, the guest is closed without a word.
        let _ = self.stream.write(frame.split_at(count).0);
        let _ = self.stream.shutdown(Shutdown::Write);
        self.stage = Stage::Answered(now);
    }
}
