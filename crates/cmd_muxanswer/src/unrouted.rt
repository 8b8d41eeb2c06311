//! Why a frame of an input can be given to no session.

ghost use Rattle.std.specs.Prelude.{◌≡◌};

/// Why a frame can be given to no session.
#[derive(Clone, Copy, Debug, PartialEq, Eq)]
pub enum Unrouted {
    /// No Context came before it.
    NoContext,
    /// It is a Context, and names a session that CONFIG has not.
    OtherSession,
    /// It is no frame, or a Context that is too short or not whole.
    BadFrame,
}

impl Unrouted {
    ghost use Rattle.cmd_muxanswer.specs.Promise.{number_of};

    /// Its number, 1 to 3.
    pub fn number(self) -> u8
        ensures { result ≡ number_of self }
    {
        match self {
            Unrouted::NoContext => 1,
            Unrouted::OtherSession => 2,
            Unrouted::BadFrame => 3,
        }
    }
}
