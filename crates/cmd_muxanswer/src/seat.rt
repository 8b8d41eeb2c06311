//! One session of the transport: frames are handed to it one by one, and what it makes of them is written behind the session's name.

ghost use Rattle.std.specs.Prelude.{◌≡◌, ◌+◌, ◌<◌, ◌≤◌, [], length, None, IsSome, IfOk, OnOk};
ghost use Rattle.cmd_config.specs.Settings.{IsInRange};
ghost use Rattle.cmd_answer.specs.Answer.{first_stage};
ghost use Rattle.cmd_answer.specs.Progress.{IsReady};
ghost use Rattle.cmd_muxanswer.specs.Progress.{AnswersAt, IsUsable, Sits, TakesOne};

use crate::lines::{push_text, push_violation};
use crate::sessions::MOST_SESSIONS;
use crate::wire::Written;
use cmd_answer::{answer_frame, open_end};
use cmd_config::Settings;
use fixp_end::End;
use sofh_frame::Order;
use std::alloc::{AllocError, Global};

/// The size of a framing header in bytes (Simple Open Framing Header).
const HEADER: u64 = 6;

/// The acceptor of one session.
#[derive(Drop)]
pub(crate) struct Seat {
    /// The session. Between two frames nothing that it wrote is left in it.
    pub(crate) end: End,
    /// The place of its next frame among its own, in bytes, or that of the frame that ended its connection.
    pub(crate) at: u64,
}

impl Seat {
    /// A session to which no frame came yet.
    ///
    /// # Errors
    /// Want of memory.
    pub(crate) fn open(alloc: Global, settings: Settings) -> Result<Seat, AllocError>
        requires { IsInRange settings }
        ensures sits { IfOk result (λ seat. Sits settings first_stage seat) }
        ensures usable { IfOk result IsUsable }
    {
        Ok(Seat {
            end: open_end(alloc, settings)?,
            at: 0,
        })
    }

    /// Hands it a frame, and adds the frame's line.
    fn take(&mut self, line: &mut Vec<u8>, order: Order, message: &[u8]) -> Result<(), AllocError>
        requires least { 8 ≤ length message.now }
        requires most { length message.now ≤ 16384 }
        requires ready { IsReady self.old.end }
        requires unsent { self.old.end.unsent ≡ [] }
        ensures { OnOk result (TakesOne self.old self.new line.old.items line.new.items (record { order = order; message = message.now })) }
    {
        self.end.reserve()?;
        answer_frame(&mut self.end, line, order, message, self.at)?;
        if self.end.ending().is_none() {
            self.at = self.at.saturating_add(HEADER + message.len() as u64);
        }
        Ok(())
    }

    /// Lets go what it wrote.
    fn empty(&mut self)
        ensures { self.new ≡ record self.old { end = record self.old.end { unsent = [] } } }
    {
        let count = self.end.out().len();
        self.end.taken(count);
    }

    /// Answers a frame, and writes its replies and its lines. Where its connection has ended, it is released: the frame is dropped.
    ///
    /// # Errors
    /// Want of memory; nothing is to be used again.
    pub(crate) fn answer(
        &mut self,
        written: &mut Written,
        place: usize,
        order: Order,
        message: &[u8],
    ) -> Result<(), AllocError>
        requires place { place < MOST_SESSIONS }
        requires least { 8 ≤ length message.now }
        requires most { length message.now ≤ 16384 }
        requires usable { IsUsable self.old }
        ensures over { IsSome self.old.end.ending → (self.new ≡ self.old) × (written.new ≡ written.old) }
        ensures going { self.old.end.ending ≡ None → OnOk result (AnswersAt place self.old self.new written.old written.new (record { order = order; message = message.now })) }
    {
        if self.end.ending().is_some() {
            return Ok(());
        }
        let number = place as u64 + 1;
        written.line.clear();
        self.take(&mut written.line, order, message)?;
        push_text(&mut written.lines, number, written.line.as_slice())?;
        push_violation(&mut written.lines, number, self.end.ending())?;
        written
            .wire
            .push(place, &self.end.config().session, self.end.out())?;
        self.empty();
        Ok(())
    }
}
