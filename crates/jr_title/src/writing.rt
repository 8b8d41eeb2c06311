//! Writing a title.

ghost use Rattle.std.specs.Prelude.{◌≡◌, ℕ, ◌+◌, ◌≤◌, ◌++◌, length, take, drop};
ghost use Rattle.jr_title.specs.Titles.{image_of, codes_of, which_code, role_code, who_code, desks_of, version_of, reference_of};

use crate::title::{Title, Which, WhoSends};
use crc32c::crc32c;
use fixp_shake::Role;

/// The magic of format 3.
pub(crate) const MAGIC: [u8; 8] = *b"FIXPJRN3";

/// The bytes of a title.
pub(crate) const SIZE: usize = 64;

/// Those before its sum.
pub(crate) const FRONT: usize = 60;

/// The 64 bytes of a title.
pub fn write_title(title: &Title) -> [u8; 64]
    ensures image { result ≡ image_of title.now }
{
    let who = title.binding.who_sends;
    let mut out = [0; SIZE];
    let at_8 = put(&mut out, 0, &MAGIC);
    let at_14 = put(&mut out, at_8, &codes(title));
    let at_16 = put(&mut out, at_14, &version(who).to_le_bytes());
    let at_32 = put(&mut out, at_16, &title.binding.session);
    let at_40 = put(&mut out, at_32, &reference(who).to_le_bytes());
    let at_48 = put(&mut out, at_40, &title.pair.to_le_bytes());
    let at_60 = put(&mut out, at_48, &[0; 12]);
    let sum = crc32c(&out[..FRONT]);
    put(&mut out, at_60, &sum.to_le_bytes());
    out
}

/// The fields of one byte each.
fn codes(title: &Title) -> [u8; 6]
    ensures value { result ≡ codes_of title.now }
{
    let binding = &title.binding;
    [
        which_code(binding.which),
        role_code(binding.role),
        binding.client_flow.code(),
        binding.server_flow.code(),
        who_code(binding.who_sends),
        desks(binding.who_sends),
    ]
}

/// Puts the bytes at a place of `out`, and answers the place behind them.
fn put(out: &mut [u8], at: usize, bytes: &[u8]) -> usize
    requires { at + length bytes.now ≤ length out.old }
    ensures end { result ≡ at + length bytes.now }
    ensures front { take result out.new ≡ take at out.old ++ bytes.now }
{
    let end = at + bytes.len();
    out[at..end].copy_from_slice(bytes);
    end
}

fn which_code(which: Which) -> u8
    ensures { result ≡ which_code which }
{
    match which {
        Which::Outbox => 1,
        Which::Inbox => 2,
    }
}

pub(crate) fn role_code(role: Role) -> u8
    ensures { result ≡ role_code role }
{
    match role {
        Role::Initiator => 1,
        Role::Acceptor => 2,
    }
}

fn who_code(who: WhoSends) -> u8
    ensures { result ≡ who_code who }
{
    match who {
        WhoSends::Senders => 0,
        WhoSends::Desks { .. } => 1,
        WhoSends::Book { .. } => 2,
    }
}

/// How many desks there are.
fn desks(who: WhoSends) -> u8
    ensures { result ≡ desks_of who }
{
    match who {
        WhoSends::Senders => 0,
        WhoSends::Desks { desks, .. } => desks,
        WhoSends::Book { .. } => 1,
    }
}

/// The version of the order schema; 0 without desks.
fn version(who: WhoSends) -> u16
    ensures { result ≡ version_of who }
{
    match who {
        WhoSends::Senders => 0,
        WhoSends::Desks { orders, .. } | WhoSends::Book { orders } => orders.version,
    }
}

/// The mantissa of the reference price; 0 without desks.
fn reference(who: WhoSends) -> u64
    ensures { result ≡ reference_of who }
{
    match who {
        WhoSends::Senders => 0,
        WhoSends::Desks { orders, .. } | WhoSends::Book { orders } => orders.reference,
    }
}
