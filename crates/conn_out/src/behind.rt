//! The messages of an inbox behind a number, told line by line.

ghost use Rattle.std.specs.Prelude.{◌≡◌, ◌≤◌, ◌++◌, ℕ, false, List, [], drop, IfOk, IfErr, OnOk, OnErr, Err, IsErrOf, IsTrue, IsFalse, All, ◌<◌};
ghost use Rattle.std.specs.Io.KnownBytes.{Appends};
ghost use Rattle.gw_outside.specs.Faults.{HasRisen, TakesFront};
ghost use Rattle.session_model.specs.Inbox.{Numbered};
ghost use Rattle.jr_dated.specs.Dated.{Dated};
ghost use Rattle.jr_dated.specs.Journals.{Unchanged};
ghost use Rattle.conn_lines.specs.Lines.{deliver_line};
ghost use Rattle.conn_out.specs.Messages.{deliver_lines, messages_of, messages_in, TellsUpTo, IsPlaceBehind};
ghost use Rattle.conn_out.specs.Telling.{Written};
ghost use Rattle.conn_out.specs.declared.fault.OutFault.TheVariants as faults;

use crate::fault::{OutFault, no_record};
use conn_lines::push_deliver_line;
use gw_outside::{Failed, Sink, push_all};
use jr_dated::Journal;
use jr_record::Record;
use std::alloc::Global;

/// How many bytes of lines are pushed at once, at least, but for the last.
const PIECE: usize = 65_536;

/// The bytes of the longest line, at most.
const LONGEST: usize = 33_000;

/// Whether a record tells that a message was applied whose number is this one or a lower one.
fn is_up_to(record: &Record, last: u64) -> bool
    ensures tells { IsTrue result → TellsUpTo record.now last }
    ensures none { IsFalse result → All (λ m. last < m.number) (messages_of record.now) }
{
    match record {
        Record::Apply { number, .. } => *number <= last,
        _ => false,
    }
}

/// The place of the first record behind the message of this number, from 0 on; it is looked for from the last record on.
pub(crate) fn place_behind<J: Journal>(journal: &mut J, last: u64) -> Result<u64, OutFault>
    requires sound { J.is_broken journal.old ≡ false }
    ensures within { IfOk result (λ at. at ≤ J.count journal.old) }
    ensures behind { IfOk result (λ at. (h : List Dated) → J.is_told journal.old → J.stands journal.old h → IsPlaceBehind h at last) }
    ensures sound { OnOk result (J.is_broken journal.new ≡ false) }
    ensures told { J.is_told journal.old → J.is_told journal.new }
    ensures unchanged { Unchanged J.stands J.leaves journal.old journal.new }
    ensures sizes { (J.count journal.new ≡ J.count journal.old) × (J.size journal.new ≡ J.size journal.old) }
    ensures same { (J.moment journal.new ≡ J.moment journal.old) × (J.limits journal.new ≡ J.limits journal.old) }
    ensures counted { J.faults journal.old ≤ J.faults journal.new }
    ensures journal { IsErrOf result faults.Journal → HasRisen (J.faults journal.old) (J.faults journal.new) }
    ensures output { IsErrOf result faults.Output → ⊥ }
    ensures short { IsErrOf result faults.Short → ⊥ }
    ensures changed { (at : ℕ) → result ≡ Err (faults.Changed at) → J.is_told journal.old → ⊥ }
{
    let mut at = journal.len();
    while at > 0 {
        let r = match journal.read(at - 1) {
            Ok((r, _moment)) => r,
            Err(fault) => return Err(no_record(fault)),
        };
        if is_up_to(&r, last) {
            return Ok(at);
        }
        at -= 1;
    }
    Ok(0)
}

/// Adds the line of a message, and pushes what is held where that is enough for a piece.
fn tell_message<K: Sink>(
    out: &mut K,
    lines: &mut Vec<u8>,
    number: u64,
    payload: &[u8],
) -> Result<(), OutFault>
    ensures ok { OnOk result ((base : _) (text : List ℕ) → Written base (K.taken out.old) lines.old.items text
        → Written base (K.taken out.new) lines.new.items (text ++ deliver_line number payload.now)) }
    ensures err { OnErr result ((base : _) (text : List ℕ) → Written base (K.taken out.old) lines.old.items text
        → TakesFront base (K.taken out.new) (text ++ deliver_line number payload.now)) }
    ensures counted { K.faults out.old ≤ K.faults out.new }
    ensures output { IsErrOf result faults.Output → HasRisen (K.faults out.old) (K.faults out.new) }
    ensures journal { IsErrOf result faults.Journal → ⊥ }
    ensures short { IsErrOf result faults.Short → ⊥ }
    ensures changed { (at : ℕ) → result ≡ Err (faults.Changed at) → ⊥ }
{
    let Ok(()) = push_deliver_line(lines, number, payload) else {
        return Err(OutFault::Memory);
    };
    if lines.len() < PIECE {
        return Ok(());
    }
    tell_held(out, lines)
}

/// Adds the line of the message that a record tells to be applied, if it tells of one.
fn tell_record<K: Sink>(out: &mut K, lines: &mut Vec<u8>, record: &Record) -> Result<(), OutFault>
    ensures ok { OnOk result ((base : _) (seen : List Numbered) → Written base (K.taken out.old) lines.old.items (deliver_lines seen)
        → Written base (K.taken out.new) lines.new.items (deliver_lines (seen ++ messages_of record.now))) }
    ensures err { OnErr result ((base : _) (seen : List Numbered) → Written base (K.taken out.old) lines.old.items (deliver_lines seen)
        → TakesFront base (K.taken out.new) (deliver_lines (seen ++ messages_of record.now))) }
    ensures counted { K.faults out.old ≤ K.faults out.new }
    ensures output { IsErrOf result faults.Output → HasRisen (K.faults out.old) (K.faults out.new) }
    ensures journal { IsErrOf result faults.Journal → ⊥ }
    ensures short { IsErrOf result faults.Short → ⊥ }
    ensures changed { (at : ℕ) → result ≡ Err (faults.Changed at) → ⊥ }
{
    match record {
        Record::Apply { number, payload } => tell_message(out, lines, *number, payload.as_slice()),
        _ => Ok(()),
    }
}

/// Pushes the lines that are held.
fn tell_held<K: Sink>(out: &mut K, lines: &mut Vec<u8>) -> Result<(), OutFault>
    ensures ok { OnOk result (Appends (K.taken out.old) (K.taken out.new) lines.old.items) }
    ensures emptied { OnOk result (lines.new.items ≡ []) }
    ensures err { OnErr result (TakesFront (K.taken out.old) (K.taken out.new) lines.old.items) }
    ensures which { IfErr result (λ fault. fault ≡ faults.Output) }
    ensures counted { K.faults out.old ≤ K.faults out.new }
    ensures output { OnErr result (HasRisen (K.faults out.old) (K.faults out.new)) }
{
    match push_all(out, lines.as_slice()) {
        Ok(()) => {
            lines.clear();
            Ok(())
        }
        Err(Failed) => Err(OutFault::Output),
    }
}

/// Room for the lines of a piece.
fn room(alloc: Global) -> Result<Vec<u8>, OutFault>
    ensures empty { IfOk result (λ lines. lines.items ≡ []) }
    ensures which { IfErr result (λ fault. fault ≡ faults.Memory) }
{
    match Vec::with_capacity(alloc, PIECE + LONGEST) {
        Ok(lines) => Ok(lines),
        Err(_) => Err(OutFault::Memory),
    }
}

/// Tells of the messages that the records from a place on tell to be applied, each once and in order.
pub(crate) fn tell_from<J: Journal, K: Sink>(
    alloc: Global,
    journal: &mut J,
    from: u64,
    out: &mut K,
) -> Result<(), OutFault>
    requires sound { J.is_broken journal.old ≡ false }
    requires within { from ≤ J.count journal.old }
    ensures ok { OnOk result ((h : List Dated) → J.is_told journal.old → J.stands journal.old h
        → Appends (K.taken out.old) (K.taken out.new) (deliver_lines (messages_in (drop from h)))) }
    ensures err { OnErr result ((h : List Dated) → J.is_told journal.old → J.stands journal.old h
        → TakesFront (K.taken out.old) (K.taken out.new) (deliver_lines (messages_in (drop from h)))) }
    ensures sound { OnOk result (J.is_broken journal.new ≡ false) }
    ensures told { J.is_told journal.old → J.is_told journal.new }
    ensures unchanged { Unchanged J.stands J.leaves journal.old journal.new }
    ensures sizes { (J.count journal.new ≡ J.count journal.old) × (J.size journal.new ≡ J.size journal.old) }
    ensures same { (J.moment journal.new ≡ J.moment journal.old) × (J.limits journal.new ≡ J.limits journal.old) }
    ensures counted { (K.faults out.old ≤ K.faults out.new) × (J.faults journal.old ≤ J.faults journal.new) }
    ensures output { IsErrOf result faults.Output → HasRisen (K.faults out.old) (K.faults out.new) }
    ensures journal { IsErrOf result faults.Journal → HasRisen (J.faults journal.old) (J.faults journal.new) }
    ensures short { IsErrOf result faults.Short → ⊥ }
    ensures changed { (at : ℕ) → result ≡ Err (faults.Changed at) → J.is_told journal.old → ⊥ }
{
    let mut lines = room(alloc)?;
    let count = journal.len();
    for at in from..count {
        let r = match journal.read(at) {
            Ok((r, _moment)) => r,
            Err(fault) => return Err(no_record(fault)),
        };
        tell_record(out, &mut lines, &r)?;
    }
    tell_held(out, &mut lines)
}
