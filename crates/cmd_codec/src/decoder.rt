//! The frames of a stream, decoded one after another as far as they are there.

ghost use Rattle.std.specs.Prelude.{◌≡◌, ◌≤◌, length, drop};
ghost use Rattle.sbe_layout.specs.Legal.{LegalPlan};
ghost use Rattle.cmd_codec.specs.Decoded.{next_number, next_place};
ghost use Rattle.cmd_codec.specs.Decoding.{Takes, TakesAll};

use crate::print::{Page, Placed, print_frame};
use crate::shown::Shown;
use cmd_base::{Bad, Status};
use sbe_layout::Plan;
use sofh_frame::{FirstFrame, Framer};
use std::alloc::{AllocError, Global};

/// The bytes of the input that are not decoded yet, and the lines that are not pushed yet.
#[derive(Drop)]
pub struct Decoder {
    /// The bytes read and not decoded.
    pub framer: Framer,
    /// The lines not pushed.
    pub lines: Vec<u8>,
    /// Room for those of one message.
    pub page: Page,
    /// The number of the next frame, from 1.
    pub number: u64,
    /// The place of the next frame in the input, in bytes from 0.
    pub place: u64,
}

impl Decoder {
    ghost use Rattle.std.specs.Prelude.{[], IfOk};
    ghost use Rattle.cmd_codec.specs.Decoding.{IsNew};

    /// A decoder that has read nothing.
    pub fn new(alloc: Global) -> Result<Decoder, AllocError>
        ensures { IfOk result IsNew }
    {
        Ok(Decoder {
            framer: Framer::new(alloc)?,
            lines: Vec::new(alloc),
            page: Page::new(alloc),
            number: 1,
            place: 0,
        })
    }

    // Decodes the frame at the front of the bytes held; false where there is less than a frame.
    fn take_frame(&mut self, alloc: Global, shown: Shown, plan: &Plan) -> Result<bool, Status>
        requires { LegalPlan plan.now }
        ensures { Takes shown plan.now self.old self.new result }
    {
        match self.framer.peek() {
            FirstFrame::Frame {
                order,
                message,
                size,
            } => {
                let frame = Placed {
                    number: self.number,
                    place: self.place,
                    order,
                    message,
                };
                match print_frame(alloc, shown, plan, frame, &mut self.page, &mut self.lines) {
                    Ok(()) => {
                        self.pass(size);
                        Ok(true)
                    }
                    Err(status) => Err(status),
                }
            }
            FirstFrame::Rest => Ok(false),
            FirstFrame::BadLength(_) => Err(Status::Message(Bad::Frame { at: self.place })),
            FirstFrame::BadEncoding(_) => Err(Status::Message(Bad::Frame { at: self.place })),
        }
    }

    // Goes on behind a frame of this size.
    fn pass(&mut self, size: usize)
        requires { size ≤ length self.old.framer.held }
        ensures held { self.new.framer.held ≡ drop size self.old.framer.held }
        ensures lines { self.new.lines.items ≡ self.old.lines.items }
        ensures number { self.new.number ≡ next_number self.old.number }
        ensures place { self.new.place ≡ next_place self.old.place size }
    {
        self.framer.drop_front(size);
        self.number = self.number.saturating_add(1);
        self.place = self.place.saturating_add(size as u64);
    }

    /// Decodes the frames that are held, as far as they go.
    ///
    /// # Errors
    /// `Message` with what is wrong with a frame, behind the lines of those before it; and `Memory`.
    pub fn take_frames(&mut self, alloc: Global, shown: Shown, plan: &Plan) -> Result<(), Status>
        requires { LegalPlan plan.now }
        ensures { TakesAll shown plan.now self.old self.new result }
    {
        while self.take_frame(alloc, shown, plan)? {}
        Ok(())
    }
}
