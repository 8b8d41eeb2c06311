//! A file that is read backwards, a piece at a time.

ghost use Rattle.std.specs.Prelude.{◌≡◌, ℕ, ◌+◌, ◌-◌, ◌<◌, ◌≤◌, ◌^◌, List, length, take, drop, None, IfOk, OnOk, IsErrOf, slice_index};
ghost use Rattle.std.specs.Option.{ForSome};
ghost use Rattle.gw_outside.specs.Faults.{HasRisen};
ghost use Rattle.conn_tail.specs.Places.{IsLine, StandsAt};

use crate::fault::TailFault;
use gw_appended::Appended;
use std::alloc::Global;

/// How many bytes are read at once.
pub(crate) const PIECE: usize = 65_536;

/// Where the first bytes of a piece stand in the file, and how many of them.
#[derive(Clone, Copy)]
pub(crate) struct Part {
    pub(crate) at: u64,
    pub(crate) size: usize,
}

/// Reads a piece that has the byte at this place, as far back as a piece goes.
fn load<A: Appended>(out: &mut A, piece: &mut [u8], place: u64) -> Result<Part, TailFault>
    requires piece { length piece.old ≡ 65536 }
    requires small { place < 2 ^ 40 }
    requires place { ForSome (A.taken out.old) (λ content. place < length content) }
    ensures before { IfOk result (λ part. part.at ≡ place + 1 - 65536) }
    ensures behind { IfOk result (λ part. place < part.at + part.size) }
    ensures most { IfOk result (λ part. part.size ≤ 65536) }
    ensures stands { IfOk result (λ part. ForSome (A.taken out.old) (λ content. StandsAt content piece.new part.at part.size)) }
    ensures content { A.taken out.new ≡ A.taken out.old }
    ensures counted { A.faults out.old ≤ A.faults out.new }
    ensures fault { IsErrOf result TailFault.Device → HasRisen (A.faults out.old) (A.faults out.new) }
    ensures short { IsErrOf result TailFault.Short → A.taken out.old ≡ None }
{
    let at = (place + 1).saturating_sub(PIECE as u64);
    let size = out.read_at(at, piece)?;
    if at + (size as u64) <= place {
        return Err(TailFault::Short);
    }
    Ok(Part { at, size })
}

/// Has the byte at a place stand in the piece.
fn bring<A: Appended>(
    out: &mut A,
    piece: &mut [u8],
    part: &mut Part,
    place: u64,
) -> Result<(), TailFault>
    requires piece { length piece.old ≡ 65536 }
    requires most { part.old.size ≤ 65536 }
    requires small { place < 2 ^ 40 }
    requires place { ForSome (A.taken out.old) (λ content. place < length content) }
    requires stands { ForSome (A.taken out.old) (λ content. StandsAt content piece.old part.old.at part.old.size) }
    ensures before { OnOk result (part.new.at ≤ place) }
    ensures behind { OnOk result (place < part.new.at + part.new.size) }
    ensures most { OnOk result (part.new.size ≤ 65536) }
    ensures stands { OnOk result (ForSome (A.taken out.old) (λ content. StandsAt content piece.new part.new.at part.new.size)) }
    ensures content { A.taken out.new ≡ A.taken out.old }
    ensures counted { A.faults out.old ≤ A.faults out.new }
    ensures fault { IsErrOf result TailFault.Device → HasRisen (A.faults out.old) (A.faults out.new) }
    ensures short { IsErrOf result TailFault.Short → A.taken out.old ≡ None }
{
    if place >= part.at && place - part.at < part.size as u64 {
        return Ok(());
    }
    *part = load(out, piece, place)?;
    Ok(())
}

/// The byte at a place, from the piece where it stands there.
fn byte_at<A: Appended>(
    out: &mut A,
    piece: &mut [u8],
    part: &mut Part,
    place: u64,
) -> Result<u8, TailFault>
    requires piece { length piece.old ≡ 65536 }
    requires most { part.old.size ≤ 65536 }
    requires small { place < 2 ^ 40 }
    requires place { ForSome (A.taken out.old) (λ content. place < length content) }
    requires stands { ForSome (A.taken out.old) (λ content. StandsAt content piece.old part.old.at part.old.size) }
    ensures byte { IfOk result (λ byte. ForSome (A.taken out.old) (λ content. byte ≡ slice_index content place)) }
    ensures stands { OnOk result (ForSome (A.taken out.old) (λ content. StandsAt content piece.new part.new.at part.new.size)) }
    ensures most { OnOk result (part.new.size ≤ 65536) }
    ensures content { A.taken out.new ≡ A.taken out.old }
    ensures counted { A.faults out.old ≤ A.faults out.new }
    ensures fault { IsErrOf result TailFault.Device → HasRisen (A.faults out.old) (A.faults out.new) }
    ensures short { IsErrOf result TailFault.Short → A.taken out.old ≡ None }
{
    bring(out, piece, part, place)?;
    Ok(piece[(place - part.at) as usize])
}

/// Where the line begins that ends before this place.
pub(crate) fn line_start<A: Appended>(
    out: &mut A,
    piece: &mut [u8],
    part: &mut Part,
    end: u64,
) -> Result<u64, TailFault>
    requires piece { length piece.old ≡ 65536 }
    requires most { part.old.size ≤ 65536 }
    requires small { end ≤ 2 ^ 40 }
    requires within { ForSome (A.taken out.old) (λ content. end ≤ length content) }
    requires stands { ForSome (A.taken out.old) (λ content. StandsAt content piece.old part.old.at part.old.size) }
    ensures start { IfOk result (λ start. ForSome (A.taken out.old) (λ content. IsLine content start end)) }
    ensures before { IfOk result (λ start. start ≤ end) }
    ensures stands { OnOk result (ForSome (A.taken out.old) (λ content. StandsAt content piece.new part.new.at part.new.size)) }
    ensures most { OnOk result (part.new.size ≤ 65536) }
    ensures content { A.taken out.new ≡ A.taken out.old }
    ensures counted { A.faults out.old ≤ A.faults out.new }
    ensures fault { IsErrOf result TailFault.Device → HasRisen (A.faults out.old) (A.faults out.new) }
    ensures short { IsErrOf result TailFault.Short → A.taken out.old ≡ None }
{
    let mut start = end;
    while start > 0 {
        if byte_at(out, piece, part, start - 1)? == b'\n' {
            return Ok(start);
        }
        start -= 1;
    }
    Ok(0)
}

/// Has the bytes from a place to another, and the byte there, stand in the piece. They are no more than half a piece.
pub(crate) fn hold<A: Appended>(
    out: &mut A,
    piece: &mut [u8],
    part: &mut Part,
    start: u64,
    end: u64,
) -> Result<(), TailFault>
    requires piece { length piece.old ≡ 65536 }
    requires most { part.old.size ≤ 65536 }
    requires order { start ≤ end }
    requires short { end - start ≤ 32801 }
    requires small { end < 2 ^ 40 }
    requires within { ForSome (A.taken out.old) (λ content. end < length content) }
    requires stands { ForSome (A.taken out.old) (λ content. StandsAt content piece.old part.old.at part.old.size) }
    ensures before { OnOk result (part.new.at ≤ start) }
    ensures behind { OnOk result (end < part.new.at + part.new.size) }
    ensures most { OnOk result (part.new.size ≤ 65536) }
    ensures stands { OnOk result (ForSome (A.taken out.old) (λ content. StandsAt content piece.new part.new.at part.new.size)) }
    ensures content { A.taken out.new ≡ A.taken out.old }
    ensures counted { A.faults out.old ≤ A.faults out.new }
    ensures fault { IsErrOf result TailFault.Device → HasRisen (A.faults out.old) (A.faults out.new) }
    ensures short { IsErrOf result TailFault.Short → A.taken out.old ≡ None }
{
    if start >= part.at && end - part.at < part.size as u64 {
        return Ok(());
    }
    *part = load(out, piece, end)?;
    Ok(())
}
