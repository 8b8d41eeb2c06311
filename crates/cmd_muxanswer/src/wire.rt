//! What was written and is not pushed yet: the frames of the sessions for WIRE, each behind a Context where another session wrote before,
//! and the lines for OUT.

ghost use Rattle.std.specs.Prelude.{◌≡◌, [], None, IfOk, OnOk};
ghost use Rattle.cmd_muxanswer.specs.Progress.{Writes};

use fixp_mux::context_bytes;
use std::alloc::{AllocError, Global};

/// How many bytes there is room for from the beginning.
const ROOM: usize = 65_536;

/// Frames for WIRE.
#[derive(Drop)]
pub(crate) struct Wire {
    pub(crate) bytes: Vec<u8>,
    /// The place of the session that wrote last.
    pub(crate) writing: Option<usize>,
}

/// What was written and is not pushed yet.
#[derive(Drop)]
pub(crate) struct Written {
    pub(crate) wire: Wire,
    /// Lines of all sessions.
    pub(crate) lines: Vec<u8>,
    /// The line of one frame, without its session's number.
    pub(crate) line: Vec<u8>,
}

impl Wire {
    /// Writes what the session at a place, with this identifier, replied to a frame; nothing where it did not reply.
    ///
    /// # Errors
    /// Want of memory.
    pub(crate) fn push(
        &mut self,
        place: usize,
        id: &[u8; 16],
        replies: &[u8],
    ) -> Result<(), AllocError>
        ensures { OnOk result (Writes self.old self.new place id.now replies.now) }
    {
        if replies.is_empty() {
            return Ok(());
        }
        if self.writing != Some(place) {
            self.bytes.extend_from_slice(&context_bytes(id))?;
            self.writing = Some(place);
        }
        self.bytes.extend_from_slice(replies)
    }
}

impl Written {
    /// Nothing yet.
    ///
    /// # Errors
    /// Want of memory.
    pub(crate) fn new(alloc: Global) -> Result<Written, AllocError>
        ensures writing { IfOk result (λ w. w.wire.writing ≡ None) }
        ensures bytes { IfOk result (λ w. w.wire.bytes.items ≡ []) }
        ensures lines { IfOk result (λ w. w.lines.items ≡ []) }
    {
        Ok(Written {
            wire: Wire {
                bytes: Vec::with_capacity(alloc, ROOM)?,
                writing: None,
            },
            lines: Vec::with_capacity(alloc, ROOM)?,
            line: Vec::new(alloc),
        })
    }
}
