//! Who is told what a watch sees.

use fixp_msgs::SessionMsg;
use std::net::SocketAddr;

/// What a watch sees.
#[derive(Clone, Copy)]
pub enum Heard<'a> {
    /// OUT is begun: CONFIG, both journals and INPUT are accepted, and nothing is added to a journal yet.
    Begun,
    /// An address is listened at from now on.
    Listens,
    /// The dialer begins to connect.
    Connects,
    /// The dialer failed.
    InVain,
    /// A connection is there, with its peer, where that is known.
    Connected {
        peer: Option<SocketAddr>,
    },
    /// The last connection is over.
    Over,
    /// A session message came in.
    Came(SessionMsg<'a>),
    /// A session message went out.
    Went(SessionMsg<'a>),
    /// An application message came in.
    MessageCame,
    /// An application message went out, at least its header.
    MessageWent,
    /// What goes out over this connection is not followed any more, for want of memory.
    WentUnseen,
    /// A line went to OUT: its first 64 bytes.
    Line(&'a [u8]),
    /// INPUT is long in being read.
    Reads,
    /// A guest was rejected that asked for the session without its credentials, or for another session, which is told then.
    Refused {
        peer: SocketAddr,
        asked: Option<[u8; 16]>,
        /// How many others were rejected, or closed without a word, since that was told last.
        others: u64,
    },
    /// So many others were rejected, or closed without a word.
    TurnedAway {
        others: u64,
    },
    /// A guest gives the keys of the session, and waits behind another connection.
    Waits {
        peer: SocketAddr,
        behind: SocketAddr,
    },
    /// A guest takes over from a connection that was silent for so many milliseconds.
    TakesOver {
        peer: SocketAddr,
        from: SocketAddr,
        silent: u64,
    },
}

/// Who hears nothing.
#[derive(Clone, Copy, Drop)]
pub struct NoEar;

impl Ear for NoEar {
    fn hear(&self, _heard: Heard<'_>) {}
}

/// Who is told what watches see, one after another. A watch goes on whatever its ear does.
pub trait Ear {
    /// Takes what a watch sees.
    fn hear(&self, heard: Heard<'_>);
}
