//! The delivery of datagrams: each is opened again, and given to the receiver call by call. Lines are pushed in pieces.

ghost use Rattle.std.specs.Prelude.{◌≡◌, ◌++◌, ◌≤◌, [], codes, IsSome, IsErrOf, OnOk, OnErr, Some};
ghost use Rattle.std.specs.List.{flat_map};
ghost use Rattle.std.specs.Io.KnownBytes.{Appends};
ghost use Rattle.fixp_datagram.specs.declared.receiver.Start.TheVariants as starts;
ghost use Rattle.fixp_datagram.specs.Datagrams.{Contents};
ghost use Rattle.fixp_datagram.specs.Packing.{cut};
ghost use Rattle.fixp_datagram.specs.Delivering.{told_all, counted_all, reports_behind, received_behind, received};
ghost use Rattle.gw_outside.specs.Faults.{HasCause, HasRisen, TakesFront};
ghost use Rattle.cmd_datagram.specs.Script.{IsScript};
ghost use Rattle.cmd_datagram.specs.Lines.{report_line, number_line, lines_at};
ghost use Rattle.cmd_datagram.specs.Delivered.{IsPacked, ArePacked, WritesFront, WritesMore, delivered_lines, payloads_of};

use crate::lines::{push_ask, push_numbered, push_range, push_seen};
use crate::script::Script;
use fixp_datagram::{Datagram, DgReceiver, Start, open_datagram};
use gw_outside::{Failed, Sink, push_all};
use sbe_value::Payloads;
use std::alloc::{AllocError, Global};

/// The greatest number that a message may have: the greatest that a receiver may be told.
const MOST: u64 = u64::MAX - 1;

/// How many bytes of lines are pushed at once, at least, but for the last.
const PIECE: usize = 65_536;

/// Why not all lines were given.
#[derive(Clone, Copy, Debug)]
pub(crate) enum GiveFault {
    /// The output failed.
    Output,
    /// Want of memory.
    Memory,
}

/// Adds the lines of a datagram's messages, whose start was taken.
fn push_messages(
    lines: &mut Vec<u8>,
    receiver: &mut DgReceiver,
    datagram: Datagram<'_>,
) -> Result<(), AllocError>
    requires begun { IsSome receiver.old.counting }
    ensures lines { OnOk result (lines.new.items ≡ lines.old.items ++ flat_map report_line (told_all receiver.old datagram.entry.payloads)) }
    ensures after { OnOk result (receiver.new ≡ counted_all receiver.old datagram.entry.payloads) }
{
    let mut datagram = datagram;
    while let Some(_payload) = datagram.next() {
        push_seen(lines, receiver.on_app())?;
    }
    Ok(())
}

/// Adds the lines of a datagram, behind the answer to its first number.
fn push_behind(
    lines: &mut Vec<u8>,
    receiver: &mut DgReceiver,
    start: Start,
    datagram: Datagram<'_>,
) -> Result<(), AllocError>
    requires begun { (start ≡ starts.TooLarge → ⊥) → IsSome receiver.old.counting }
    ensures lines { OnOk result (lines.new.items ≡ lines.old.items ++ flat_map report_line (reports_behind start receiver.old datagram.entry.payloads)) }
    ensures after { OnOk result (receiver.new ≡ received_behind start receiver.old datagram.entry.payloads) }
{
    match start {
        Start::Plain => push_messages(lines, receiver, datagram),
        Start::Missing(range) => {
            push_range(lines, b"missing ", range)?;
            push_messages(lines, receiver, datagram)
        }
        Start::TooLarge => Ok(()),
    }
}

/// Delivers a datagram, and adds its lines.
fn deliver(lines: &mut Vec<u8>, receiver: &mut DgReceiver, bytes: &[u8]) -> Result<(), AllocError>
    requires packed { (d : Contents) × IsPacked bytes.now d }
    ensures lines { (d : Contents) → IsPacked bytes.now d → OnOk result (lines.new.items ≡ lines.old.items ++ lines_at receiver.old (Some d)) }
    ensures after { (d : Contents) → IsPacked bytes.now d → OnOk result (receiver.new ≡ received receiver.old d) }
{
    let datagram = match open_datagram(bytes) {
        Ok(datagram) => datagram,
        Err(_) => unreachable!(),
    };
    let start = receiver.on_start(datagram.first());
    push_behind(lines, receiver, start, datagram)?;
    push_ask(lines, receiver.ask())
}

/// Pushes the lines that are held.
fn push_held<K: Sink>(out: &mut K, lines: &mut Vec<u8>) -> Result<(), Failed>
    ensures ok { OnOk result (Appends (K.taken out.old) (K.taken out.new) lines.old.items) }
    ensures emptied { OnOk result (lines.new.items ≡ []) }
    ensures err { OnErr result (TakesFront (K.taken out.old) (K.taken out.new) lines.old.items) }
    ensures cause { HasCause (K.faults out.old) (K.faults out.new) result }
{
    push_all(out, lines.as_slice())?;
    lines.clear();
    Ok(())
}

/// Delivers a datagram, and pushes what is held where that is enough for a piece.
fn give<K: Sink>(
    out: &mut K,
    lines: &mut Vec<u8>,
    receiver: &mut DgReceiver,
    bytes: &[u8],
) -> Result<(), GiveFault>
    requires packed { (d : Contents) × IsPacked bytes.now d }
    ensures ok { (d : Contents) → IsPacked bytes.now d
        → OnOk result (WritesMore (K.taken out.old) (K.taken out.new) lines.old.items lines.new.items (lines_at receiver.old (Some d))) }
    ensures err { (d : Contents) → IsPacked bytes.now d
        → OnErr result (WritesFront (K.taken out.old) (K.taken out.new) lines.old.items (lines_at receiver.old (Some d))) }
    ensures after { (d : Contents) → IsPacked bytes.now d → OnOk result (receiver.new ≡ received receiver.old d) }
    ensures counted { K.faults out.old ≤ K.faults out.new }
    ensures cause { IsErrOf result GiveFault.Output → HasRisen (K.faults out.old) (K.faults out.new) }
{
    let Ok(()) = deliver(lines, receiver, bytes) else {
        return Err(GiveFault::Memory);
    };
    if lines.len() < PIECE {
        return Ok(());
    }
    match push_held(out, lines) {
        Ok(()) => Ok(()),
        Err(Failed) => Err(GiveFault::Output),
    }
}

/// Adds the number that is waited for at the end, and pushes all that is held.
fn give_next<K: Sink>(out: &mut K, lines: &mut Vec<u8>, next: u64) -> Result<(), GiveFault>
    ensures ok { OnOk result (WritesMore (K.taken out.old) (K.taken out.new) lines.old.items [] (number_line (codes "next ") next)) }
    ensures err { OnErr result (WritesFront (K.taken out.old) (K.taken out.new) lines.old.items (number_line (codes "next ") next)) }
    ensures counted { K.faults out.old ≤ K.faults out.new }
    ensures cause { IsErrOf result GiveFault.Output → HasRisen (K.faults out.old) (K.faults out.new) }
{
    let Ok(()) = push_numbered(lines, b"next ", next) else {
        return Err(GiveFault::Memory);
    };
    match push_held(out, lines) {
        Ok(()) => Ok(()),
        Err(Failed) => Err(GiveFault::Output),
    }
}

/// Delivers the listed datagrams, and gives their lines, and at the end the number that the receiver waits for.
///
/// # Errors
/// `Output` where the output failed, and `Memory`: a front of the lines was given.
pub(crate) fn give_all<K: Sink>(
    alloc: Global,
    script: &Script,
    datagrams: &Payloads,
    out: &mut K,
) -> Result<(), GiveFault>
    requires legal { IsScript script.now }
    requires packed { ArePacked datagrams.now (cut script.now.per (payloads_of script.now.messages)) }
    ensures ok { OnOk result (Appends (K.taken out.old) (K.taken out.new) (delivered_lines script.now)) }
    ensures err { OnErr result (TakesFront (K.taken out.old) (K.taken out.new) (delivered_lines script.now)) }
    ensures counted { K.faults out.old ≤ K.faults out.new }
    ensures cause { IsErrOf result GiveFault.Output → HasRisen (K.faults out.old) (K.faults out.new) }
{
    let mut receiver = DgReceiver::new(script.flow, 1, MOST);
    let mut lines = Vec::new(alloc);
    for number in script.deliver.as_slice() {
        let bytes = &datagrams.as_slice()[(*number - 1) as usize];
        give(out, &mut lines, &mut receiver, bytes.as_slice())?;
    }
    give_next(out, &mut lines, receiver.next())
}
