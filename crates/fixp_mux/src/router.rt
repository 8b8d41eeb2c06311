//! What a router has: its sessions, the bytes of the transport that are not given out yet, and those that it has not taken yet.

ghost use Rattle.std.specs.Prelude.{◌<◌, ◌^◌};

use crate::held::Held;
use crate::sessions::Sessions;
use sofh_frame::Framer;

/// Sessions over one transport, but for the mark of its end.
#[derive(Drop)]
pub(crate) struct Router {
    pub(crate) sessions: Sessions,
    pub(crate) framer: Framer,
    pub(crate) unsent: Held,
    /// How many bytes were given out.
    pub(crate) at: u64,
    /// Whether the link has given its end.
    pub(crate) is_over: bool,
    ghost counted: { at < 2 ^ 64 },
}
