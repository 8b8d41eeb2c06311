//! Addresses, and numbers from 1 to 65,535.

ghost use Rattle.std.specs.Prelude.{◌≡◌, ℕ, IfSome, IfNone};
ghost use Rattle.std.specs.declared.net.socket_addr.SocketAddrV4.{SocketAddrV4};
ghost use Rattle.text_words.specs.Words.{IsAddress, IsPositive};

use crate::decimal::{halves, number};
use std::net::{Ipv4Addr, SocketAddrV4};

/// The number from 1 to 65,535 that a word is in decimal: how many connections there may be, or a port.
pub fn positive(text: &[u8]) -> Option<u16>
    ensures found { IfSome result (λ n. IsPositive text.now n) }
    ensures none { IfNone result ((n : ℕ) → IsPositive text.now n → ⊥) }
{
    match number(text) {
        Some(count) if count >= 1 && count < 65_536 => Some(count as u16),
        _ => None,
    }
}

/// The address that a word spells as `A.B.C.D:PORT`.
pub fn parse_address(text: &[u8]) -> Option<SocketAddrV4>
    ensures found { IfSome result (λ a. IsAddress text.now a) }
    ensures none { IfNone result ((a : SocketAddrV4) → IsAddress text.now a → ⊥) }
{
    let Some((host, port)) = halves(text, b':') else {
        return None;
    };
    let Ok(address) = Ipv4Addr::parse_ascii(host) else {
        return None;
    };
    match positive(port) {
        Some(port) => Some(SocketAddrV4::new(address, port)),
        None => None,
    }
}
