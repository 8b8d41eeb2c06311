//! The runs of a session with its connections cut at every place: two for each frame that a connection carries.

use crate::machines::COUNT;
use crate::machines::judge::Moment;
use crate::machines::line::Passage;
use crate::machines::session::Session;
use fixp_end::Flow;
use jr_kept::Stable;
use std::alloc::{AllocError, Global};

/// More places than a connection has.
const ALL: u64 = 400;

/// What one run showed.
#[derive(Clone, Copy)]
struct Run {
    /// Whether the last connection that was to be cut was cut before it ended by itself.
    cut: bool,
    /// How many frames the last connection carried.
    carried: u64,
    /// How many of them asked for a retransmission.
    requests: u64,
}

/// What all runs of sessions with two flows showed.
#[derive(Drop)]
struct Runs<'a> {
    alloc: Global,
    initiator: Flow,
    acceptor: Flow,
    entries: &'a [Stable],
    /// How many messages an end sends live in a turn, at most.
    pace: u64,
    /// The versions of the initiator and of the acceptor.
    versions: [u16; 2],
    /// At how many places a second connection is cut too, at most.
    most: u64,
    /// How many frames a connection carries that is not cut.
    frames: u64,
    /// At how many places the first connection alone was cut.
    places: u64,
    /// How often a retransmission was asked for behind those.
    requests: u64,
    /// At how many places a second connection was cut too.
    second_places: u64,
    /// The places of the first cuts behind which something was wrong, of the first connection and of the second, and what.
    fault: Option<(Option<u64>, Option<u64>, &'static str)>,
}

impl<'a> Runs<'a> {
    /// No runs yet.
    fn none(
        alloc: Global,
        initiator: Flow,
        acceptor: Flow,
        entries: &'a [Stable],
        pace: u64,
        versions: [u16; 2],
        most: u64,
    ) -> Runs<'a> {
        Runs {
            alloc,
            initiator,
            acceptor,
            entries,
            pace,
            versions,
            most,
            frames: 0,
            places: 0,
            requests: 0,
            second_places: 0,
            fault: None,
        }
    }

    /// Keeps what is wrong after a connection, where nothing was before.
    fn judge(&mut self, session: &Session, cuts: &[u64], moment: Moment) {
        if self.fault.is_some() {
            return;
        }
        if let Some(what) = session.fault(self.entries, moment) {
            let first = cuts.first().copied();
            let second = cuts.get(1).copied();
            self.fault = Some((first, second, what));
        }
    }

    /// Runs a session whose first connections are cut at these places, and one more that is not.
    fn run(&mut self, cuts: &[u64]) -> Result<Run, AllocError> {
        let mut session = Session::new(
            self.alloc,
            self.initiator,
            self.acceptor,
            self.pace,
            self.versions,
        )?;
        let mut cut = false;
        for place in cuts {
            cut = !session.connect(self.entries, &mut Passage::cut_at(*place))?;
            self.judge(&session, cuts, Moment::Cut);
        }
        let mut whole = Passage::whole();
        session.connect(self.entries, &mut whole)?;
        self.judge(&session, cuts, Moment::Last);
        Ok(Run {
            cut,
            carried: whole.carried,
            requests: whole.requests,
        })
    }

    /// Runs all sessions with a first cut at this place: without a second one, and with one at each place of the next connection.
    fn run_behind(&mut self, first: u64) -> Result<(), AllocError> {
        let single = self.run(&[first])?;
        self.places = self.places.saturating_add(1);
        self.requests = self.requests.saturating_add(single.requests);
        for second in 0..self.most {
            if !self.run(&[first, second])?.cut {
                return Ok(());
            }
            self.second_places = self.second_places.saturating_add(1);
        }
        Ok(())
    }

    /// Runs all sessions.
    fn run_all(&mut self) -> Result<(), AllocError> {
        self.frames = self.run(&[])?.carried;
        for first in 0..self.frames.saturating_mul(2) {
            self.run_behind(first)?;
        }
        Ok(())
    }

    /// Adds the flows of both ends.
    fn push_flows(&self, line: &mut String) -> Result<(), AllocError> {
        let (initiator, acceptor) = (self.initiator, self.acceptor);
        write!(line, "{initiator:?} and {acceptor:?}")
    }

    /// Adds what one cut showed.
    fn push_single(&self, line: &mut String) -> Result<(), AllocError> {
        let (frames, places, requests) = (self.frames, self.places, self.requests);
        write!(
            line,
            ": {frames} frames, one cut at {places} places with {requests} requests behind"
        )
    }

    /// Adds whether all held.
    fn push_verdict(&self, line: &mut String) -> Result<(), AllocError> {
        match self.fault {
            Some((first, second, what)) => {
                write!(
                    line,
                    ", {what} where the cuts are at {first:?} and {second:?}"
                )
            }
            None => line.push_str(", holds"),
        }
    }
}

/// Adds what the sessions with these flows show whose ends send all their messages in one turn: how many frames a connection carries
/// that is not cut, at how many places one was cut and how many retransmissions were asked for behind that, and at how many
/// places two were cut.
pub fn push_at_once(
    alloc: Global,
    line: &mut String,
    initiator: Flow,
    acceptor: Flow,
    entries: &[Stable],
) -> Result<(), AllocError> {
    let mut runs = Runs::none(alloc, initiator, acceptor, entries, COUNT, [0, 0], ALL);
    runs.run_all()?;
    let second_places = runs.second_places;
    runs.push_flows(line)?;
    runs.push_single(line)?;
    write!(line, ", two cuts at {second_places} places")?;
    runs.push_verdict(line)
}

/// The same where each end sends three messages in a turn, at most: without the numbers that depend on what is under way at
/// the cuts.
pub fn push_by_threes(
    alloc: Global,
    line: &mut String,
    initiator: Flow,
    acceptor: Flow,
    entries: &[Stable],
) -> Result<(), AllocError> {
    let mut runs = Runs::none(alloc, initiator, acceptor, entries, 3, [0, 0], ALL);
    runs.run_all()?;
    let (frames, places) = (runs.frames, runs.places);
    runs.push_flows(line)?;
    write!(
        line,
        " by threes: {frames} frames, one cut at {places} places and two cuts"
    )?;
    runs.push_verdict(line)
}

/// The same where the ends are of these versions, of which one at least is 1. A second connection is cut too where both flows are
/// recoverable.
pub fn push_by_versions(
    alloc: Global,
    line: &mut String,
    initiator: Flow,
    acceptor: Flow,
    entries: &[Stable],
    versions: [u16; 2],
) -> Result<(), AllocError> {
    let (most, twice) = match (initiator, acceptor) {
        (Flow::Recoverable, Flow::Recoverable) => (ALL, " and two cuts"),
        _ => (0, ""),
    };
    let mut runs = Runs::none(alloc, initiator, acceptor, entries, COUNT, versions, most);
    runs.run_all()?;
    let [first, second] = versions;
    runs.push_flows(line)?;
    write!(line, " of versions {first} and {second}")?;
    runs.push_single(line)?;
    line.push_str(twice)?;
    runs.push_verdict(line)
}
