//! The bytes of a record: how many they are, and how they are written.

ghost use Rattle.std.specs.Prelude.{◌≡◌, ◌+◌, ◌≤◌, ◌<◌, ◌^◌, [], ◌∷◌, ◌++◌, length, vec_len, vec_capacity, OnOk, OnErr};
ghost use Rattle.std.specs.Int.{w32, to_le_bytes};
ghost use Rattle.jr_record.specs.Records.{IsRecord, spelled, kind_of, body_of};
ghost use Rattle.jr_record.specs.Images.{record_size as size_of};

use crate::record::Record;
use gw_outside::Bytes;
use std::alloc::{AllocError, Global};
use std::mem;

/// The bytes of the kind and of the length in front of a record's body.
const FRONT: u64 = 5;

/// The number of bytes that a record takes in a journal, its gate among them.
pub fn record_size(r: &Record) -> u64
    requires legal { IsRecord r.now }
    ensures size { result ≡ size_of r.now }
    ensures least { 6 ≤ result }
    ensures most { result ≤ 16402 }
{
    1 + FRONT + body_size(r)
}

/// Writes a record behind the bytes of `out`. Memory for all of it is taken first, where `out` lacks it.
///
/// # Errors
/// Want of memory; `out` is as it was.
pub fn write_record(alloc: Global, r: &Record, out: &mut Bytes) -> Result<(), AllocError>
    requires legal { IsRecord r.now }
    ensures ok { OnOk result (out.new ≡ out.old ++ spelled r.now) }
    ensures err { OnErr result (out.new ≡ out.old) }
{
    let mut bytes = Vec::from(mem::replace(out, Bytes::new(alloc)));
    let written = match bytes.reserve((FRONT + body_size(r)) as usize) {
        Ok(()) => {
            put_record(r, &mut bytes);
            Ok(())
        }
        Err(full) => Err(full),
    };
    *out = Bytes::from(bytes);
    written
}

/// Writes a record behind bytes that have room for it.
fn put_record(r: &Record, out: &mut Vec<u8>)
    requires legal { IsRecord r.now }
    requires room { vec_len out.old + length (spelled r.now) ≤ vec_capacity out.old }
    ensures items { out.new.items ≡ out.old.items ++ spelled r.now }
{
    out.push_reserved(kind(r));
    put(out, &(body_size(r) as u32).to_le_bytes());
    put_body(r, out);
}

/// Writes a record's body behind bytes that have room for it.
fn put_body(r: &Record, out: &mut Vec<u8>)
    requires room { vec_len out.old + length (body_of r.now) ≤ vec_capacity out.old }
    ensures items { out.new.items ≡ out.old.items ++ body_of r.now }
{
    match r {
        Record::Entry { sender, k, payload } => {
            put(out, &sender.to_le_bytes());
            put(out, &k.to_le_bytes());
            put(out, payload.as_slice());
        }
        Record::Apply { number, payload } => {
            put(out, &number.to_le_bytes());
            put(out, payload.as_slice());
        }
        Record::Skip { from, count } => {
            put(out, &from.to_le_bytes());
            put(out, &count.to_le_bytes());
        }
        Record::Negotiated | Record::Finish => {}
        Record::PeerFinished { last } => put(out, &last.to_le_bytes()),
    }
}

/// Writes more bytes behind some that have room for them.
fn put(out: &mut Vec<u8>, more: &[u8])
    requires room { vec_len out.old + length more.now ≤ vec_capacity out.old }
    ensures items { out.new.items ≡ out.old.items ++ more.now }
    ensures len { vec_len out.new ≡ vec_len out.old + length more.now }
    ensures room { vec_capacity out.old ≤ vec_capacity out.new }
{
    if out.extend_from_slice(more).is_err() {
        unreachable!()
    }
}

/// The first byte of a record.
fn kind(r: &Record) -> u8
    ensures kind { result ≡ kind_of r.now }
{
    match r {
        Record::Entry { .. } => 1,
        Record::Apply { .. } => 2,
        Record::Skip { .. } => 3,
        Record::Negotiated => 4,
        Record::PeerFinished { .. } => 5,
        Record::Finish => 6,
    }
}

/// The number of bytes of a record's body.
fn body_size(r: &Record) -> u64
    requires legal { IsRecord r.now }
    ensures size { result ≡ length (body_of r.now) }
    ensures most { result ≤ 16396 }
{
    match r {
        Record::Entry { payload, .. } => 10 + payload.len() as u64,
        Record::Apply { payload, .. } => 8 + payload.len() as u64,
        Record::Skip { .. } => 16,
        Record::Negotiated | Record::Finish => 0,
        Record::PeerFinished { .. } => 8,
    }
}
