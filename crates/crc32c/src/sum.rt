//! The sum of bytes, eight at a time over eight tables, and the last ones one at a time.

ghost use Rattle.std.specs.Prelude.{◌≡◌, ◌<◌, ℕ, ◌++◌, List, length};
ghost use Rattle.std.specs.List.{fold};
ghost use Rattle.crc32c.specs.Sums.{crc_of, crc_from, with_byte};

use crate::table::steps_on;

/// The CRC-32C of bytes (RFC 3720, section 12.1).
pub fn crc32c(bytes: &[u8]) -> u32
    ensures value { result ≡ crc_of bytes.now }
{
    update(0, bytes)
}

/// The CRC-32C of the bytes of which `sum` is the CRC-32C, and of `bytes` behind them. That of no bytes is 0.
pub fn update(sum: u32, bytes: &[u8]) -> u32
    ensures value { result ≡ crc_from sum bytes.now }
    ensures goes_on { (front : List ℕ) → sum ≡ crc_of front → result ≡ crc_of (front ++ bytes.now) }
{
    let (register, rest) = take_eights(!sum, bytes);
    !take_last(register, rest)
}

/// Takes in bytes as long as there are eight. The register behind them, and what is left.
fn take_eights(register: u32, bytes: &[u8]) -> (u32, &[u8])
    ensures value { fold with_byte result.0 result.1.now ≡ fold with_byte register bytes.now }
{
    let mut register = register;
    let mut rest = bytes;
    while rest.len() >= 8 {
        let (eight, behind) = rest.split_at(8);
        register = take_eight(register, eight);
        rest = behind;
    }
    (register, rest)
}

/// The register behind eight bytes. Steps are linear, so what each byte makes of it is looked up alone, the first four with the
/// register's own.
fn take_eight(register: u32, bytes: &[u8]) -> u32
    requires eight { length bytes.now ≡ 8 }
    ensures value { result ≡ fold with_byte register bytes.now }
{
    let own = register.to_le_bytes();
    steps_on(own[0] ^ bytes[0], 7)
        ^ steps_on(own[1] ^ bytes[1], 6)
        ^ steps_on(own[2] ^ bytes[2], 5)
        ^ steps_on(own[3] ^ bytes[3], 4)
        ^ steps_on(bytes[4], 3)
        ^ steps_on(bytes[5], 2)
        ^ steps_on(bytes[6], 1)
        ^ steps_on(bytes[7], 0)
}

/// The register behind some bytes, taken in one at a time.
fn take_last(register: u32, bytes: &[u8]) -> u32
    ensures value { result ≡ fold with_byte register bytes.now }
{
    let mut register = register;
    for byte in bytes {
        register = take_in(register, *byte);
    }
    register
}

/// The register behind one more byte.
fn take_in(register: u32, byte: u8) -> u32
    ensures value { result ≡ with_byte register byte }
{
    let low = (register ^ u32::from(byte)) & 0xFF;
    (register >> 8) ^ steps_on(low as u8, 0)
}
