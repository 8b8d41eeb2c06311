//! Reading a title.

ghost use Rattle.std.specs.Prelude.{◌≡◌, ◌↔◌, ◌+◌, ◌<◌, ◌≤◌, ◌^◌, length, take, drop, IsTrue, IfSome, IfNone};
ghost use Rattle.std.specs.Int.{w16, w32, w64};
ghost use Rattle.fixp_msgs.specs.Flow.{flow_code};
ghost use Rattle.crc32c.specs.Sums.{crc_of};
ghost use Rattle.jr_title.specs.Titles.{magic, which_code, role_code};
ghost use Rattle.jr_title.specs.Reading.{HasZeros, IsDesks, IsFieldsReading, IsOneOf, IsReading, IsReference, IsVersion, IsWhoReading, number};

use crate::faults::{Field, TitleFault};
use crate::title::{Binding, Orders, Title, Which, WhoSends};
use crate::writing::{FRONT, MAGIC, SIZE};
use crc32c::crc32c;
use fixp_msgs::Flow;
use fixp_shake::Role;

/// The title at the front of `bytes`.
///
/// # Errors
/// Why they begin with none: the first cause of `TitleFault` that is so.
pub fn read_title(bytes: &[u8]) -> Result<Title, TitleFault>
    ensures exact { IsReading bytes.now result }
{
    if !begins_with_magic(bytes) {
        return Err(TitleFault::Magic);
    }
    if bytes.len() < SIZE {
        return Err(TitleFault::Short);
    }
    if !has_sum(bytes) {
        return Err(TitleFault::Sum);
    }
    match read_fields(bytes) {
        Ok(title) => Ok(title),
        Err(field) => Err(TitleFault::Range { field }),
    }
}

/// Whether the bytes begin with the magic of format 3.
fn begins_with_magic(bytes: &[u8]) -> bool
    ensures value { IsTrue result ↔ (take 8 bytes.now ≡ magic) }
{
    match bytes.split_first_chunk::<8>() {
        Some((front, _)) => *front == MAGIC,
        None => false,
    }
}

/// Whether the last four of the first 64 bytes are the sum of those before them.
fn has_sum(bytes: &[u8]) -> bool
    requires long { 64 ≤ length bytes.now }
    ensures value { IsTrue result ↔ (number w32 60 bytes.now ≡ crc_of (take 60 bytes.now)) }
    ensures small { crc_of (take 60 bytes.now) < 2 ^ 32 }
{
    let (front, _) = bytes.split_at(FRONT);
    u32_at(bytes, FRONT) == crc32c(front)
}

/// What the fields say, or the first of them that is out of its range.
fn read_fields(bytes: &[u8]) -> Result<Title, Field>
    requires long { 64 ≤ length bytes.now }
    ensures exact { IsFieldsReading bytes.now result }
{
    let Some(which) = which_of(bytes[8]) else {
        return Err(Field::Which);
    };
    let Some(role) = role_of(bytes[9]) else {
        return Err(Field::Role);
    };
    let Some(client_flow) = flow_of(bytes[10]) else {
        return Err(Field::ClientFlow);
    };
    let Some(server_flow) = flow_of(bytes[11]) else {
        return Err(Field::ServerFlow);
    };
    let who_sends = match read_who(bytes) {
        Ok(who_sends) => who_sends,
        Err(field) => return Err(field),
    };
    if !has_zeros(bytes) {
        return Err(Field::Zeros);
    }
    let binding = Binding {
        which,
        role,
        session: session_of(bytes),
        client_flow,
        server_flow,
        who_sends,
    };
    let pair = u64_at(bytes, 40);
    Ok(Title { binding, pair })
}

/// Who sends, or the first field of it that is out of its range.
fn read_who(bytes: &[u8]) -> Result<WhoSends, Field>
    requires long { 64 ≤ length bytes.now }
    ensures exact { IsWhoReading bytes.now result }
{
    let code = bytes[12];
    if code > 2 {
        return Err(Field::WhoSends);
    }
    let desks = bytes[13];
    if !is_desks(code, desks) {
        return Err(Field::Desks);
    }
    let version = u16_at(bytes, 14);
    if !is_version(code, version) {
        return Err(Field::OrderVersion);
    }
    let reference = u64_at(bytes, 32);
    if !is_reference(code, reference) {
        return Err(Field::Reference);
    }
    let orders = Orders { version, reference };
    Ok(match code {
        0 => WhoSends::Senders,
        1 => WhoSends::Desks { desks, orders },
        _ => WhoSends::Book { orders },
    })
}

/// Whether there may be so many desks.
fn is_desks(code: u8, desks: u8) -> bool
    ensures value { IsTrue result ↔ IsDesks code desks }
{
    match code {
        0 => desks == 0,
        1 => desks >= 1 && desks <= 16,
        _ => code > 2 || desks == 1,
    }
}

/// Whether their orders may be of this version.
fn is_version(code: u8, version: u16) -> bool
    ensures value { IsTrue result ↔ IsVersion code version }
{
    if code == 0 {
        version == 0
    } else {
        version >= 1 && version <= 2
    }
}

/// Whether they may answer at this reference price.
fn is_reference(code: u8, reference: u64) -> bool
    ensures value { IsTrue result ↔ IsReference code reference }
{
    if code == 0 {
        reference == 0
    } else {
        reference >= 1 && reference <= 1_000_000_000_000_000
    }
}

/// The journal of a code.
fn which_of(code: u8) -> Option<Which>
    ensures found { IfSome result (λ w. which_code w ≡ code) }
    ensures none { IfNone result (IsOneOf 1 2 code → ⊥) }
{
    match code {
        1 => Some(Which::Outbox),
        2 => Some(Which::Inbox),
        _ => None,
    }
}

/// The role of a code.
fn role_of(code: u8) -> Option<Role>
    ensures found { IfSome result (λ r. role_code r ≡ code) }
    ensures none { IfNone result (IsOneOf 1 2 code → ⊥) }
{
    match code {
        1 => Some(Role::Initiator),
        2 => Some(Role::Acceptor),
        _ => None,
    }
}

/// The flow of a code.
fn flow_of(code: u8) -> Option<Flow>
    ensures found { IfSome result (λ f. flow_code f ≡ code) }
    ensures none { IfNone result (IsOneOf 1 4 code → ⊥) }
{
    match code {
        1 => Some(Flow::Recoverable),
        2 => Some(Flow::Idempotent),
        3 => Some(Flow::Unsequenced),
        4 => Some(Flow::None),
        _ => None,
    }
}

/// Whether the twelve bytes at 48 are zeros.
fn has_zeros(bytes: &[u8]) -> bool
    requires long { 64 ≤ length bytes.now }
    ensures value { IsTrue result ↔ HasZeros bytes.now }
{
    &bytes[48..FRONT] == [0; 12].as_slice()
}

/// The session's identifier.
fn session_of(bytes: &[u8]) -> [u8; 16]
    requires long { 64 ≤ length bytes.now }
    ensures value { result ≡ take 16 (drop 16 bytes.now) }
{
    let mut session = [0; 16];
    session.copy_from_slice(&bytes[16..32]);
    session
}

/// The number in two bytes.
fn u16_at(bytes: &[u8], at: usize) -> u16
    requires { at + 2 ≤ length bytes.now }
    ensures value { result ≡ number w16 at bytes.now }
{
    u16::from_le_bytes([bytes[at], bytes[at + 1]])
}

/// The number in four bytes.
fn u32_at(bytes: &[u8], at: usize) -> u32
    requires { at + 4 ≤ length bytes.now }
    ensures value { result ≡ number w32 at bytes.now }
{
    u32::from_le_bytes([bytes[at], bytes[at + 1], bytes[at + 2], bytes[at + 3]])
}

/// The number in eight bytes.
fn u64_at(bytes: &[u8], at: usize) -> u64
    requires { at + 8 ≤ length bytes.now }
    ensures value { result ≡ number w64 at bytes.now }
{
    u64::from_le_bytes([
        bytes[at],
        bytes[at + 1],
        bytes[at + 2],
        bytes[at + 3],
        bytes[at + 4],
        bytes[at + 5],
        bytes[at + 6],
        bytes[at + 7],
    ])
}
