//! The end of a file of lines about a session.

ghost use Rattle.std.specs.Prelude.{◌≡◌, ℕ, ◌+◌, ◌-◌, ◌<◌, ◌≤◌, ◌^◌, List, false, length, take, None, IfOk, IfSome, IfNone, OnOk, OnErr, IsErrOf};
ghost use Rattle.std.specs.Option.{ForSome, option_map};
ghost use Rattle.std.specs.List.{slice_range};
ghost use Rattle.gw_outside.specs.Faults.{HasRisen};
ghost use Rattle.conn_tail.specs.Tails.{HasTail, IsDeliver, TellsLast, TellsNothing};
ghost use Rattle.conn_tail.specs.Places.{BeginsLine, StandsAt};

use crate::fault::TailFault;
use crate::line::number_of;
use crate::piece::{PIECE, Part, hold, line_start};
use gw_appended::Appended;
use std::alloc::{AllocError, Global};

/// The most bytes of a line that tells of an applied message, without its line feed: the word, a number of twenty digits, and
/// a payload of 16,386 bytes in hexadecimal.
const LONGEST_LINE: u64 = 32_801;

/// The end of a file of lines.
#[derive(Clone, Copy, Debug)]
pub struct Tail {
    /// How many bytes its whole lines have, all together: what stands behind them is no whole line.
    pub whole: u64,
    /// The number of the message of which the last line tells that tells of an applied one.
    pub last: Option<u64>,
}

/// Room for so many bytes.
fn room(alloc: Global, size: usize) -> Result<Vec<u8>, AllocError>
    ensures size { IfOk result (λ bytes. length bytes.items ≡ size) }
{
    vec![in alloc; 0; size]
}

/// The number of the message that was applied, where the line between two places tells of one. The line feed stands at the second.
fn number_at<A: Appended>(
    alloc: Global,
    out: &mut A,
    piece: &mut [u8],
    part: &mut Part,
    start: u64,
    end: u64,
) -> Result<Option<u64>, TailFault>
    requires piece { length piece.old ≡ 65536 }
    requires most { part.old.size ≤ 65536 }
    requires order { start ≤ end }
    requires small { end < 2 ^ 40 }
    requires within { ForSome (A.taken out.old) (λ content. end < length content) }
    requires stands { ForSome (A.taken out.old) (λ content. StandsAt content piece.old part.old.at part.old.size) }
    ensures found { IfOk result (λ o. IfSome o (λ number. ForSome (A.taken out.old) (λ content. IsDeliver (slice_range content start end) number))) }
    ensures none { IfOk result (λ o. IfNone o (ForSome (A.taken out.old) (λ content. TellsNothing (slice_range content start end)))) }
    ensures most { OnOk result (part.new.size ≤ 65536) }
    ensures stands { OnOk result (ForSome (A.taken out.old) (λ content. StandsAt content piece.new part.new.at part.new.size)) }
    ensures content { A.taken out.new ≡ A.taken out.old }
    ensures counted { A.faults out.old ≤ A.faults out.new }
    ensures fault { IsErrOf result TailFault.Device → HasRisen (A.faults out.old) (A.faults out.new) }
    ensures short { IsErrOf result TailFault.Short → A.taken out.old ≡ None }
{
    if end - start > LONGEST_LINE {
        return Ok(None);
    }
    hold(out, piece, part, start, end)?;
    let from = (start - part.at) as usize;
    let to = (end - part.at) as usize;
    Ok(number_of(alloc, &piece[from..to])?)
}

/// The number of the message of which the last whole line tells that tells of an applied one.
fn last_number<A: Appended>(
    alloc: Global,
    out: &mut A,
    piece: &mut [u8],
    part: &mut Part,
    whole: u64,
) -> Result<Option<u64>, TailFault>
    requires piece { length piece.old ≡ 65536 }
    requires most { part.old.size ≤ 65536 }
    requires small { whole ≤ 2 ^ 40 }
    requires begins { ForSome (A.taken out.old) (λ content. BeginsLine content whole) }
    requires stands { ForSome (A.taken out.old) (λ content. StandsAt content piece.old part.old.at part.old.size) }
    ensures last { IfOk result (λ last. ForSome (A.taken out.old) (λ content. TellsLast (take whole content) last)) }
    ensures content { A.taken out.new ≡ A.taken out.old }
    ensures counted { A.faults out.old ≤ A.faults out.new }
    ensures fault { IsErrOf result TailFault.Device → HasRisen (A.faults out.old) (A.faults out.new) }
    ensures short { IsErrOf result TailFault.Short → A.taken out.old ≡ None }
{
    let mut end = whole;
    while end > 0 {
        let start = line_start(out, piece, part, end - 1)?;
        if let Some(number) = number_at(alloc, out, piece, part, start, end - 1)? {
            return Ok(Some(number));
        }
        end = start;
    }
    Ok(None)
}

/// The end of a file of lines of so many bytes, read backwards a piece at a time, as far as the last line that tells of an applied message.
fn tail_of<A: Appended>(alloc: Global, out: &mut A, size: u64) -> Result<Tail, TailFault>
    requires small { size ≤ 2 ^ 40 }
    requires size { ForSome (A.taken out.old) (λ content. size ≡ length content) }
    ensures tail { IfOk result (λ tail. ForSome (A.taken out.old) (λ content. HasTail content tail.whole tail.last)) }
    ensures content { A.taken out.new ≡ A.taken out.old }
    ensures counted { A.faults out.old ≤ A.faults out.new }
    ensures fault { IsErrOf result TailFault.Device → HasRisen (A.faults out.old) (A.faults out.new) }
    ensures short { IsErrOf result TailFault.Short → A.taken out.old ≡ None }
{
    let mut piece = room(alloc, PIECE)?;
    let mut part = Part { at: 0, size: 0 };
    let whole = line_start(out, piece.as_mut_slice(), &mut part, size)?;
    let last = last_number(alloc, out, piece.as_mut_slice(), &mut part, whole)?;
    Ok(Tail { whole, last })
}

/// The end of a file of lines; None where it keeps nothing.
///
/// # Errors
/// `Device` where the device failed, `Short` where the file ended before its length, and `Memory`.
pub fn read_tail<A: Appended>(alloc: Global, out: &mut A) -> Result<Option<Tail>, TailFault>
    ensures tail { IfOk result (λ o. IfSome o (λ tail. ForSome (A.taken out.old) (λ content. HasTail content tail.whole tail.last))) }
    ensures kept { IfOk result (λ o. IfNone o (A.keeps ≡ false)) }
    ensures content { A.taken out.new ≡ A.taken out.old }
    ensures counted { A.faults out.old ≤ A.faults out.new }
    ensures fault { IsErrOf result TailFault.Device → HasRisen (A.faults out.old) (A.faults out.new) }
    ensures short { IsErrOf result TailFault.Short → A.taken out.old ≡ None }
{
    match out.length()? {
        Some(size) => Ok(Some(tail_of(alloc, out, size)?)),
        None => Ok(None),
    }
}

/// Has a file of lines end with its last whole line: what stands behind that is taken away. Answers the end that it had; None where it keeps nothing.
///
/// # Errors
/// Those of `read_tail`: it holds what it held.
pub fn cut_tail<A: Appended>(alloc: Global, out: &mut A) -> Result<Option<Tail>, TailFault>
    ensures tail { IfOk result (λ o. IfSome o (λ tail. ForSome (A.taken out.old) (λ content. HasTail content tail.whole tail.last))) }
    ensures kept { IfOk result (λ o. IfNone o (A.keeps ≡ false)) }
    ensures cut { IfOk result (λ o. IfSome o (λ tail. A.taken out.new ≡ option_map (take tail.whole) (A.taken out.old))) }
    ensures none { IfOk result (λ o. IfNone o (A.taken out.new ≡ A.taken out.old)) }
    ensures err { OnErr result (A.taken out.new ≡ A.taken out.old) }
    ensures counted { A.faults out.old ≤ A.faults out.new }
    ensures fault { IsErrOf result TailFault.Device → HasRisen (A.faults out.old) (A.faults out.new) }
    ensures short { IsErrOf result TailFault.Short → A.taken out.old ≡ None }
{
    let Some(tail) = read_tail(alloc, out)? else {
        return Ok(None);
    };
    out.cut(tail.whole)?;
    Ok(Some(tail))
}
