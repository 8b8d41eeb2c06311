//! Reading the records of a journal, once from front to back.

ghost use Rattle.std.specs.Prelude.{◌≡◌, ◌≢◌, ℕ, ◌+◌, ◌<◌, ◌≤◌, ◌^◌, List, [], ◌∷◌, ◌++◌, length, take, nat_eq, IfOk, IfErr, OnOk, OnErr};
ghost use Rattle.std.specs.Option.{ForSome};
ghost use Rattle.std.specs.List.{AllByRecursion};
ghost use Rattle.gw_outside.specs.Disk.{IsAllLeft, LeavesSame};
ghost use Rattle.gw_outside.specs.Faults.{HasRisen};
ghost use Rattle.jr_record.specs.Records.{IsRecord};
ghost use Rattle.jr_record.specs.Images.{IsJournal, header, journal_size};
ghost use Rattle.jr_record.specs.declared.faults.OpenFault.TheVariants.{Fault};
ghost use Rattle.jr_log.specs.Opening.{Refuses, LacksHeader, IsFront, Takes, Stops, IsRead};

use gw_outside::Disk;
use jr_record::{OpenFault, Record, read_record, record_bounds, record_size};
use std::alloc::{AllocError, Global};

/// A gate: a record stands behind it.
const GATE: u8 = 1;

/// The bytes that are read at a time.
const PIECE: usize = 65_536;

/// The bytes that a disk has at most.
const MOST: u64 = 1 << 40;

/// The bytes that a record takes at most, with its gate.
const LONGEST: usize = 16_402;

/// The first bytes of a journal.
const HEADER: [u8; 16] = *b"FIXPJRN1\0\0\0\0\0\0\0\0";

/// What stands where a gate or the closed byte is awaited.
#[derive(Drop)]
enum Front {
    Closed,
    Damaged,
    Found(Record),
}

/// Why no more records were taken.
#[derive(Clone, Copy)]
enum Stop {
    Closed,
    Damaged,
    Short,
}

/// The records of a journal, and its size in bytes.
#[derive(Drop)]
pub struct Found {
    pub records: Vec<Record>,
    pub size: u64,
}

/// What stands at the front of `bytes`.
fn read_front(alloc: Global, bytes: &[u8]) -> Result<Front, AllocError>
    ensures exact { IfOk result (IsFront bytes.now) }
{
    let Some((first, behind)) = bytes.split_first() else {
        return Ok(Front::Damaged);
    };
    if *first != GATE {
        return Ok(Front::Closed);
    }
    match read_record(alloc, behind)? {
        Some(r) => Ok(Front::Found(r)),
        None => Ok(Front::Damaged),
    }
}

/// Takes the records at the front of `held`, as far as they are whole; `more` bytes may follow. Gives what is left.
fn take_records<'a>(
    alloc: Global,
    held: &'a [u8],
    more: bool,
    records: &mut Vec<Record>,
) -> Result<(&'a [u8], Stop), AllocError>
    ensures takes { IfOk result (λ p. Takes held.now records.old.items records.new.items p.0.now) }
    ensures stops { IfOk result (λ p. Stops p.0.now more p.1) }
{
    // A record that begins in this many bytes ends in them.
    record_bounds();
    let mut rest = held;
    'taking: while !more || rest.len() >= LONGEST {
        match read_front(alloc, rest)? {
            Front::Closed => return Ok((rest, Stop::Closed)),
            Front::Damaged => return Ok((rest, Stop::Damaged)),
            Front::Found(r) => {
                let (_, behind) = rest.split_at(record_size(&r) as usize);
                records.push(r)?;
                rest = behind;
            }
        }
    }
    Ok((rest, Stop::Short))
}

/// Syncs the disk and reads the journal that it holds.
///
/// # Errors
/// `Fault` where a call of the disk failed; `NotFormatted` and `Damaged` as the content is; `Memory`.
pub fn read_journal<D: Disk>(alloc: Global, disk: &mut D) -> Result<Found, OpenFault>
    ensures list { IfOk result (λ found. ForSome (D.told disk.old) (λ content. IsJournal content found.records.items)) }
    ensures legal { IfOk result (λ found. AllByRecursion IsRecord found.records.items) }
    ensures size { IfOk result (λ found. found.size ≡ journal_size found.records.items) }
    ensures bound { IfOk result (λ found. found.size ≤ 2 ^ 41) }
    ensures refused { IfErr result (λ fault. ForSome (D.told disk.old) (Refuses fault)) }
    ensures cause { IfErr result (λ fault. fault ≡ Fault → HasRisen (D.faults disk.old) (D.faults disk.new)) }
    ensures content { D.told disk.new ≡ D.told disk.old }
    ensures settled { OnOk result (IsAllLeft (D.told disk.old) (D.may_leave disk.new)) }
    ensures images { (image : List ℕ) → D.may_leave disk.new image → D.may_leave disk.old image }
    ensures quiet { OnOk result (D.faults disk.new ≡ D.faults disk.old) }
    ensures never_falls { D.faults disk.old ≤ D.faults disk.new }
{
    disk.sync()?;
    let mut piece = new_piece(alloc)?;
    read_pieces(alloc, disk, piece.as_mut_slice())
}

/// Reads the journal that the disk holds, in pieces of the length of `piece`.
fn read_pieces<D: Disk>(alloc: Global, disk: &mut D, piece: &mut [u8]) -> Result<Found, OpenFault>
    requires piece { length piece.old ≡ 65536 }
    ensures list { IfOk result (λ found. ForSome (D.told disk.old) (λ content. IsJournal content found.records.items)) }
    ensures legal { IfOk result (λ found. AllByRecursion IsRecord found.records.items) }
    ensures size { IfOk result (λ found. found.size ≡ journal_size found.records.items) }
    ensures bound { IfOk result (λ found. found.size ≤ 2 ^ 41) }
    ensures refused { IfErr result (λ fault. ForSome (D.told disk.old) (Refuses fault)) }
    ensures cause { IfErr result (λ fault. fault ≡ Fault → HasRisen (D.faults disk.old) (D.faults disk.new)) }
    ensures content { D.told disk.new ≡ D.told disk.old }
    ensures images { LeavesSame (D.may_leave disk.old) (D.may_leave disk.new) }
    ensures quiet { OnOk result (D.faults disk.new ≡ D.faults disk.old) }
    ensures never_falls { D.faults disk.old ≤ D.faults disk.new }
{
    let read = disk.read_at(0, piece)?;
    let held = behind_header(alloc, piece, read)?;
    scan(alloc, disk, piece, held, read)
}

/// Room for a piece.
fn new_piece(alloc: Global) -> Result<Vec<u8>, AllocError>
    ensures size { IfOk result (λ piece. length piece.items ≡ 65536) }
{
    vec![in alloc; 0; PIECE]
}

/// What stands behind the header in the first `read` bytes of the first piece.
///
/// # Errors
/// `NotFormatted` where the header does not stand there; `Memory`.
fn behind_header(alloc: Global, piece: &[u8], read: usize) -> Result<Vec<u8>, OpenFault>
    requires within { read ≤ length piece.now }
    ensures ok { IfOk result (λ held. take read piece.now ≡ header ++ held.items) }
    ensures err { IfErr result (LacksHeader (take read piece.now)) }
{
    let (first, _) = piece.split_at(read);
    match first.split_first_chunk::<16>() {
        Some((front, behind)) if *front == HEADER => Ok(behind.to_vec(alloc)?),
        _ => Err(OpenFault::NotFormatted),
    }
}

/// Reads the records behind the header, of which `read` bytes and the header among them were read and `held` are left.
fn scan<D: Disk>(
    alloc: Global,
    disk: &mut D,
    piece: &mut [u8],
    held: Vec<u8>,
    read: usize,
) -> Result<Found, OpenFault>
    requires piece { length piece.old ≡ 65536 }
    requires content { IsRead (D.told disk.old) [] held.items read (nat_eq read 65536) }
    ensures list { IfOk result (λ found. ForSome (D.told disk.old) (λ content. IsJournal content found.records.items)) }
    ensures legal { IfOk result (λ found. AllByRecursion IsRecord found.records.items) }
    ensures size { IfOk result (λ found. found.size ≡ journal_size found.records.items) }
    ensures bound { IfOk result (λ found. found.size ≤ 2 ^ 41) }
    ensures refused { IfErr result (λ fault. ForSome (D.told disk.old) (Refuses fault)) }
    ensures cause { IfErr result (λ fault. fault ≡ Fault → HasRisen (D.faults disk.old) (D.faults disk.new)) }
    ensures content { D.told disk.new ≡ D.told disk.old }
    ensures images { LeavesSame (D.may_leave disk.old) (D.may_leave disk.new) }
    ensures quiet { OnOk result (D.faults disk.new ≡ D.faults disk.old) }
    ensures never_falls { D.faults disk.old ≤ D.faults disk.new }
{
    let mut held = held;
    let mut at = read as u64;
    let mut more = read == PIECE;
    let mut records = Vec::new(alloc);
    'pieces: loop {
        let (rest, stop) = take_records(alloc, held.as_slice(), more, &mut records)?;
        let place = at - rest.len() as u64;
        match stop {
            Stop::Closed => {
                return Ok(Found {
                    records,
                    size: place + 1,
                });
            }
            Stop::Damaged => return Err(OpenFault::Damaged { at: place }),
            Stop::Short => {}
        }
        let mut next = rest.to_vec(alloc)?;
        let count = disk.read_at(at, piece)?;
        let (bytes, _) = piece.split_at(count);
        next.extend_from_slice(bytes)?;
        held = next;
        at += count as u64;
        more = count == PIECE && at < MOST;
    }
}
