//! The addresses of a command line.

ghost use Rattle.std.specs.Prelude.{IfOk, IfErr};
ghost use Rattle.std.specs.declared.net.socket_addr.SocketAddrV4.{SocketAddrV4};
ghost use Rattle.text_words.specs.Words.{IsAddress};

use std::net::SocketAddrV4;
use thiserror::Error;

/// A text is no address.
#[derive(Clone, Copy, Debug, Error)]
#[error("is no address of the form A.B.C.D:PORT, as 127.0.0.1:45617")]
pub struct AddressFault;

/// The address that a text spells as `A.B.C.D:PORT`.
///
/// # Errors
/// `AddressFault` exactly where it spells none.
pub fn parse_address(text: &str) -> Result<SocketAddrV4, AddressFault>
    ensures found { IfOk result (λ a. IsAddress text.now a) }
    ensures fault { IfErr result (λ _. (a : SocketAddrV4) → IsAddress text.now a → ⊥) }
{
    match text_words::parse_address(text.as_bytes()) {
        Some(address) => Ok(address),
        None => Err(AddressFault),
    }
}
