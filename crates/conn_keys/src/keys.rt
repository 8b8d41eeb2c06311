//! The keys of a session, and their comparison.

ghost use Rattle.std.specs.Prelude.{◌≡◌, IfOk, get_or};
ghost use Rattle.std.specs.Str.{bytes_eq};
ghost use Rattle.conn_keys.specs.Verdicts.{are_given};

use fixp_shake::EndConfig;
use sbe_value::Bytes;
use std::alloc::{AllocError, Global};

/// What the client of a session gives as it opens a connection.
#[derive(Drop)]
pub struct Keys {
    /// The 16 bytes of the session's UUID.
    pub session: [u8; 16],
    /// The credentials, equal at both ends.
    pub credentials: Bytes,
}

/// The byte at this place, or 0 behind the end.
fn byte_at(bytes: &[u8], place: usize) -> u8
    ensures { result ≡ get_or bytes.now place 0 }
{
    if place < bytes.len() { bytes[place] } else { 0 }
}

/// Whether these are the same bytes. It looks at each byte of the longer, whatever it found before: how long it takes tells their lengths, and nothing of
/// where they differ.
fn are_same(a: &[u8], b: &[u8]) -> bool
    ensures { result ≡ bytes_eq a.now b.now }
{
    let mut same = a.len() == b.len();
    for place in 0..a.len().max(b.len()) {
        same &= byte_at(a, place) == byte_at(b, place);
    }
    same
}

impl Keys {
    /// The keys that this configuration has.
    ///
    /// # Errors
    /// Want of memory for the credentials.
    pub fn of(alloc: Global, config: &EndConfig) -> Result<Keys, AllocError>
        ensures session { IfOk result (λ k. k.session ≡ config.now.session) }
        ensures credentials { IfOk result (λ k. k.credentials ≡ config.now.credentials) }
    {
        Ok(Keys {
            session: config.session,
            credentials: config.credentials.copy(alloc)?,
        })
    }

    /// Whether these credentials are the session's, in a time that tells nothing of where they differ.
    pub(crate) fn has_credentials(&self, credentials: &[u8]) -> bool
        ensures { result ≡ bytes_eq credentials.now self.now.credentials }
    {
        are_same(credentials, self.credentials.as_slice())
    }
}
