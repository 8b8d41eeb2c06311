//! Reading the records of a journal of either format, once from front to back.

ghost use Rattle.std.specs.Prelude.{◌≡◌, ◌≢◌, ℕ, ◌+◌, ◌-◌, ◌<◌, ◌≤◌, ◌^◌, max, List, [], ◌∷◌, ◌++◌, length, take, nat_eq, IfOk, IfErr, OnOk, OnErr};
ghost use Rattle.std.specs.Option.{ForSome};
ghost use Rattle.gw_outside.specs.Disk.{IsAllLeft, LeavesSame};
ghost use Rattle.gw_outside.specs.Faults.{HasRisen};
ghost use Rattle.jr_record.specs.declared.faults.OpenFault.TheVariants.{Fault};
ghost use Rattle.jr_record.specs.Records.{IsRecord};
ghost use Rattle.jr_dated.specs.Formats.{header_of, size_in};
ghost use Rattle.jr_places.specs.Numbers.{numbers_of};
ghost use Rattle.jr_segments.specs.Opening.{Refuses, LacksHeader, IsFront, Takes, Stops, IsRead, IsFound};

use crate::behind::GATE;
use crate::index::Index;
use gw_outside::Disk;
use jr_dated::Format;
use jr_record::{OpenFault, Record};
use std::alloc::{AllocError, Global};

/// The bytes that are read at a time.
const PIECE: usize = 65_536;

/// The bytes that a disk has at most.
const MOST: u64 = 1 << 40;

/// The bytes that a record takes at most, with its gate.
const LONGEST: usize = 16_410;

/// What stands where a gate or the closed byte is awaited.
#[derive(Drop)]
enum Front {
    Closed,
    Damaged,
    Found(Record, u64),
}

/// Why no more records were taken.
#[derive(Clone, Copy)]
enum Stop {
    Closed,
    Damaged,
    Short,
}

/// Where the records of a journal stand, and its size in bytes.
#[derive(Drop)]
pub struct Found {
    pub index: Index,
    pub size: u64,
}

/// What stands at the front of `bytes`.
fn read_front(alloc: Global, format: Format, bytes: &[u8]) -> Result<Front, AllocError>
    ensures exact { IfOk result (IsFront format bytes.now) }
{
    let Some((first, behind)) = bytes.split_first() else {
        return Ok(Front::Damaged);
    };
    if *first != GATE {
        return Ok(Front::Closed);
    }
    match format.read_record(alloc, behind)? {
        Some((r, moment)) => Ok(Front::Found(r, moment)),
        None => Ok(Front::Damaged),
    }
}

/// Takes the records at the front of `held`, which ends at the place `end`, as far as they are whole, and notes them; `more`
/// bytes may follow. Gives what is left.
fn take_records<'a>(
    alloc: Global,
    format: Format,
    held: &'a [u8],
    end: u64,
    more: bool,
    index: &mut Index,
) -> Result<(&'a [u8], Stop), AllocError>
    requires place { length held.now ≤ end }
    requires within { end ≤ 2 ^ 41 }
    ensures takes { IfOk result (λ p. Takes format held.now (end - length held.now) index.old index.new p.0.now) }
    ensures stops { IfOk result (λ p. Stops format p.0.now more p.1) }
{
    let mut rest = held;
    let mut place = end - held.len() as u64;
    'taking: while !more || rest.len() >= LONGEST {
        match read_front(alloc, format, rest)? {
            Front::Closed => return Ok((rest, Stop::Closed)),
            Front::Damaged => return Ok((rest, Stop::Damaged)),
            Front::Found(r, moment) => {
                let size = note(format, index, place, r, moment)?;
                let (_, behind) = rest.split_at(size as usize);
                place += size;
                rest = behind;
            }
        }
    }
    Ok((rest, Stop::Short))
}

/// Notes a record that was found, and gives how many bytes it takes, its gate among them.
fn note(
    format: Format,
    index: &mut Index,
    place: u64,
    r: Record,
    moment: u64,
) -> Result<u64, AllocError>
    requires legal { IsRecord r }
    ensures size { IfOk result (λ size. size ≡ size_in format r) }
    ensures places { OnOk result (numbers_of index.new.places ≡ numbers_of index.old.places ++ place ∷ []) }
    ensures moment { OnOk result (index.new.moment ≡ max index.old.moment moment) }
{
    index.note(place, moment)?;
    Ok(format.record_size(&r))
}

/// Syncs the disk and reads the journal of this format that it holds.
///
/// # Errors
/// `Fault` where a call of the disk failed; `NotFormatted` and `Damaged` as the content is; `Memory`.
pub fn read_journal<D: Disk>(
    alloc: Global,
    format: Format,
    disk: &mut D,
) -> Result<Found, OpenFault>
    ensures found { IfOk result (IsFound format (D.told disk.old)) }
    ensures refused { IfErr result (λ fault. ForSome (D.told disk.old) (Refuses format fault)) }
    ensures cause { IfErr result (λ fault. fault ≡ Fault → HasRisen (D.faults disk.old) (D.faults disk.new)) }
    ensures content { D.told disk.new ≡ D.told disk.old }
    ensures settled { OnOk result (IsAllLeft (D.told disk.old) (D.may_leave disk.new)) }
    ensures images { (image : List ℕ) → D.may_leave disk.new image → D.may_leave disk.old image }
    ensures quiet { OnOk result (D.faults disk.new ≡ D.faults disk.old) }
    ensures never_falls { D.faults disk.old ≤ D.faults disk.new }
{
    disk.sync()?;
    let mut piece = new_piece(alloc)?;
    read_pieces(alloc, format, disk, piece.as_mut_slice())
}

/// Reads the journal that the disk holds, in pieces of the length of `piece`.
fn read_pieces<D: Disk>(
    alloc: Global,
    format: Format,
    disk: &mut D,
    piece: &mut [u8],
) -> Result<Found, OpenFault>
    requires piece { length piece.old ≡ 65536 }
    ensures found { IfOk result (IsFound format (D.told disk.old)) }
    ensures refused { IfErr result (λ fault. ForSome (D.told disk.old) (Refuses format fault)) }
    ensures cause { IfErr result (λ fault. fault ≡ Fault → HasRisen (D.faults disk.old) (D.faults disk.new)) }
    ensures content { D.told disk.new ≡ D.told disk.old }
    ensures images { LeavesSame (D.may_leave disk.old) (D.may_leave disk.new) }
    ensures quiet { OnOk result (D.faults disk.new ≡ D.faults disk.old) }
    ensures never_falls { D.faults disk.old ≤ D.faults disk.new }
{
    let read = disk.read_at(0, piece)?;
    let held = behind_header(alloc, format, piece, read)?;
    let index = Index::new(alloc);
    scan(alloc, format, disk, piece, held, read, index)
}

/// Room for a piece.
fn new_piece(alloc: Global) -> Result<Vec<u8>, AllocError>
    ensures size { IfOk result (λ piece. length piece.items ≡ 65536) }
{
    vec![in alloc; 0; PIECE]
}

/// What stands behind the header in the first `read` bytes of the first piece.
///
/// # Errors
/// `NotFormatted` where the header does not stand there; `Memory`.
fn behind_header(
    alloc: Global,
    format: Format,
    piece: &[u8],
    read: usize,
) -> Result<Vec<u8>, OpenFault>
    requires within { read ≤ length piece.now }
    ensures ok { IfOk result (λ held. take read piece.now ≡ header_of format ++ held.items) }
    ensures err { IfErr result (LacksHeader format (take read piece.now)) }
{
    let header = format.header();
    let (first, _) = piece.split_at(read);
    let Some((front, behind)) = first.split_first_chunk::<16>() else {
        return Err(OpenFault::NotFormatted);
    };
    if *front == header {
        Ok(behind.to_vec(alloc)?)
    } else {
        Err(OpenFault::NotFormatted)
    }
}

/// Reads the records behind the header, of which `read` bytes and the header among them were read and `held` are left.
fn scan<D: Disk>(
    alloc: Global,
    format: Format,
    disk: &mut D,
    piece: &mut [u8],
    held: Vec<u8>,
    read: usize,
    index: Index,
) -> Result<Found, OpenFault>
    requires piece { length piece.old ≡ 65536 }
    requires content { IsRead format (D.told disk.old) index held.items read (nat_eq read 65536) }
    ensures found { IfOk result (IsFound format (D.told disk.old)) }
    ensures refused { IfErr result (λ fault. ForSome (D.told disk.old) (Refuses format fault)) }
    ensures cause { IfErr result (λ fault. fault ≡ Fault → HasRisen (D.faults disk.old) (D.faults disk.new)) }
    ensures content { D.told disk.new ≡ D.told disk.old }
    ensures images { LeavesSame (D.may_leave disk.old) (D.may_leave disk.new) }
    ensures quiet { OnOk result (D.faults disk.new ≡ D.faults disk.old) }
    ensures never_falls { D.faults disk.old ≤ D.faults disk.new }
{
    let mut held = held;
    let mut at = read as u64;
    let mut more = read == PIECE;
    let mut index = index;
    'pieces: loop {
        let (rest, stop) = take_records(alloc, format, held.as_slice(), at, more, &mut index)?;
        let place = at - rest.len() as u64;
        match stop {
            Stop::Closed => {
                return Ok(Found {
                    index,
                    size: place + 1,
                });
            }
            Stop::Damaged => return Err(OpenFault::Damaged { at: place }),
            Stop::Short => {}
        }
        let mut next = rest.to_vec(alloc)?;
        let count = disk.read_at(at, piece)?;
        let (bytes, _) = piece.split_at(count);
        next.extend_from_slice(bytes)?;
        held = next;
        at += count as u64;
        more = count == PIECE && at < MOST;
    }
}
