//! The lines of ACCEPTED for a piece, and those of how many messages each sender has.

ghost use Rattle.std.specs.Prelude.{◌≡◌, ◌+◌, ◌-◌, ◌<◌, ◌≤◌, ◌^◌, ◌++◌, length, IfOk, OnOk};
ghost use Rattle.conn_feed.specs.Words.{counts_text};
ghost use Rattle.conn_feed.specs.Fed.{dones_of};
ghost use Rattle.conn_feed.specs.Course.{accepted_text, refused_text, rest_text, piece_text};

use crate::end::why_of;
use conn_accepted::{Why, push_accepted_line, push_has_line, push_refused_line};
use gate_senders::Submission;
use gate_staff::Sender;
use jr_boxes::SubmitFault;
use jr_dated::Journal;
use plan_feed::Piece;
use std::alloc::{AllocError, Global};

/// Adds the lines for so many messages that were accepted, behind so many of all and of their sender's own.
fn push_accepted(
    text: &mut Vec<u8>,
    number: u64,
    sender: u16,
    own: u64,
    count: u64,
) -> Result<(), AllocError>
    requires number { number + count < 2 ^ 64 }
    requires own { own + count < 2 ^ 64 }
    ensures added { OnOk result (text.new.items ≡ text.old.items ++ accepted_text number sender own count) }
{
    for done in 0..count {
        push_accepted_line(text, number + done + 1, sender, own + done + 1)?;
    }
    Ok(())
}

/// Adds the lines for so many lines that were refused alike, from this one on.
fn push_refused(
    text: &mut Vec<u8>,
    senders: u16,
    line: u64,
    why: Why,
    count: u64,
) -> Result<(), AllocError>
    ensures added { OnOk result (text.new.items ≡ text.old.items ++ refused_text senders line why count) }
{
    for done in 0..count {
        push_refused_line(text, senders, line.saturating_add(done), why)?;
    }
    Ok(())
}

/// Adds the lines for so many messages that were not accepted.
fn push_rest(
    text: &mut Vec<u8>,
    senders: u16,
    line: u64,
    refused: Option<SubmitFault>,
    count: u64,
) -> Result<(), AllocError>
    ensures added { OnOk result (text.new.items ≡ text.old.items ++ rest_text senders line refused count) }
{
    match refused {
        None => Ok(()),
        Some(fault) => push_refused(text, senders, line, why_of(fault), count),
    }
}

/// The lines for a piece of so many messages, behind so many of their sender's own, the first of which a line of this number gives.
pub(crate) fn piece_text(
    alloc: Global,
    senders: u16,
    line: u64,
    own: u64,
    piece: &Piece,
    submission: Submission,
) -> Result<Vec<u8>, AllocError>
    requires number { submission.count ≤ submission.number }
    requires own { own + submission.count < 2 ^ 64 }
    requires within { submission.count ≤ length piece.now.payloads }
    ensures text { IfOk result (λ text. text.items ≡ piece_text senders line own piece.now submission) }
{
    let Submission {
        number,
        count,
        refused,
    } = submission;
    let mut text = Vec::new(alloc);
    push_accepted(&mut text, number - count, piece.sender(), own, count)?;
    let rest = piece.payloads().len() as u64 - count;
    let behind = line.saturating_add(count);
    push_rest(&mut text, senders, behind, refused, rest)?;
    Ok(text)
}

/// Adds the lines of how many messages each sender counts, from sender 1 on.
pub(crate) fn push_counts<J: Journal>(
    text: &mut Vec<u8>,
    senders: &[Sender<J>],
) -> Result<(), AllocError>
    requires few { length senders.now ≤ 16 }
    ensures added { OnOk result (text.new.items ≡ text.old.items ++ counts_text 1 (dones_of senders.now)) }
{
    for place in 0..senders.len() {
        push_has_line(text, place as u16 + 1, senders[place].done)?;
    }
    Ok(())
}
