//! What the senders send: orders, each of its sender and its number.

ghost use Rattle.std.specs.Prelude.{◌≡◌, ◌++◌, ◌≤◌, ◌<◌, ◌^◌, IfOk, OnOk};
ghost use Rattle.fixp_msgs.specs.Payload.{IsApplication};
ghost use Rattle.gw_rehearse.specs.Payloads.{account_of, front_of, head_of, message_of, parties_of, root_of, terms_of};

use sbe_value::Bytes;
use std::alloc::{AllocError, Global};

/// Adds the encoding type, and the header of an order of a version: block length, template 1, schema 100 and the version.
fn push_head(bytes: &mut Bytes, version: u8) -> Result<(), AllocError>
    ensures { OnOk result (bytes.new ≡ bytes.old ++ head_of version) }
{
    let block: u8 = if version >= 2 { 33 } else { 29 };
    bytes.extend_from_slice(&[0xeb, 0x50, block, 0, 1, 0, 100, 0, version, 0])
}

/// Adds the identifier, the side and the symbol of an order.
fn push_front(bytes: &mut Bytes, sender: u16, number: u64) -> Result<(), AllocError>
    requires sender { sender ≤ 16 }
    requires number { number < 2 ^ 32 }
    ensures { OnOk result (bytes.new ≡ bytes.old ++ front_of sender number) }
{
    let id = u64::from(sender) * (1 << 32) + number;
    let side = 2 - (number % 2) as u8;
    let digit = 48 + (sender % 10) as u8;
    bytes.extend_from_slice(&id.to_le_bytes())?;
    bytes.extend_from_slice(&[side, 83, 89, 77, digit, 0, 0, 0, 0])
}

/// Adds the quantity and the price of an order.
fn push_terms(bytes: &mut Bytes, sender: u16, number: u64) -> Result<(), AllocError>
    requires sender { sender ≤ 16 }
    requires number { number < 2 ^ 32 }
    ensures { OnOk result (bytes.new ≡ bytes.old ++ terms_of sender number) }
{
    let quantity = 1 + (number % 1000) as u32;
    let price = 1_000_000 + 100 * u64::from(sender) + number % 50;
    bytes.extend_from_slice(&quantity.to_le_bytes())?;
    bytes.extend_from_slice(&price.to_le_bytes())
}

/// Adds the account of an order, where its version has one.
fn push_account(bytes: &mut Bytes, version: u8, sender: u16) -> Result<(), AllocError>
    requires sender { sender ≤ 16 }
    ensures { OnOk result (bytes.new ≡ bytes.old ++ account_of version sender) }
{
    if version >= 2 {
        bytes.extend_from_slice(&u32::from(sender).to_le_bytes())
    } else {
        Ok(())
    }
}

/// Adds the fields of an order.
fn push_root(bytes: &mut Bytes, version: u8, sender: u16, number: u64) -> Result<(), AllocError>
    requires sender { sender ≤ 16 }
    requires number { number < 2 ^ 32 }
    ensures { OnOk result (bytes.new ≡ bytes.old ++ root_of version sender number) }
{
    push_front(bytes, sender, number)?;
    push_terms(bytes, sender, number)?;
    push_account(bytes, version, sender)
}

/// Adds the parties of an order: one, of role 1.
fn push_parties(bytes: &mut Bytes, version: u8, sender: u16, number: u64) -> Result<(), AllocError>
    requires sender { sender ≤ 16 }
    requires number { number < 2 ^ 32 }
    ensures { OnOk result (bytes.new ≡ bytes.old ++ parties_of version sender number) }
{
    let block: u8 = if version >= 2 { 7 } else { 5 };
    bytes.extend_from_slice(&[block, 0, 1, 0, 1])?;
    bytes.extend_from_slice(&u32::from(sender).to_le_bytes())?;
    if version >= 2 {
        bytes.extend_from_slice(&((number % 1000) as u16).to_le_bytes())?;
        bytes.extend_from_slice(&[2, 0, 0, 0])?;
    }
    Ok(())
}

/// The bytes of the order of a number of a sender.
fn spelled(alloc: Global, version: u8, sender: u16, number: u64) -> Result<Bytes, AllocError>
    requires sender { sender ≤ 16 }
    requires number { number < 2 ^ 32 }
    ensures { IfOk result (λ bytes. bytes ≡ message_of version sender number) }
{
    let mut message = Bytes::new(alloc);
    push_head(&mut message, version)?;
    push_root(&mut message, version, sender, number)?;
    push_parties(&mut message, version, sender, number)?;
    Ok(message)
}

/// The order of a number of a sender, both from 1 on, by a version of the order schema, 1 or 2.
///
/// # Errors
/// Want of memory.
pub(crate) fn message_of(
    alloc: Global,
    version: u8,
    sender: u16,
    number: u64,
) -> Result<Bytes, AllocError>
    requires sender { sender ≤ 16 }
    requires number { number < 2 ^ 32 }
    ensures value { IfOk result (λ bytes. bytes ≡ message_of version sender number) }
    ensures application { IfOk result (λ bytes. IsApplication bytes) }
{
    spelled(alloc, version, sender, number)
}
