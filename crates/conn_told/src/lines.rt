//! The lines of a source, told one after another: what a piece of it says is pushed before the next is read.

ghost use Rattle.std.specs.Prelude.{◌≡◌, ◌≢◌, ◌≤◌, ℕ, List, [], Ok, Option, IfErr, OnOk, OnErr, IsErrOf};
ghost use Rattle.std.specs.Io.KnownBytes.{Appends, IsAtEnd};
ghost use Rattle.gw_outside.specs.Faults.{HasCause, HasRisen, TakesFront};
ghost use Rattle.text_words.specs.Lines.{lines_in};
ghost use Rattle.sbe_layout.specs.Legal.{LegalPlan};
ghost use Rattle.conn_told.specs.Told.{GaveOf};
ghost use Rattle.conn_told.specs.Progress.{AfterRound, HasSaid, KeepsTo, Pushes, Reads, StandsSo, Stops, StopsLast, Streams};

use crate::end::{Stop, ToldEnd};
use crate::line::add_found;
use gw_lines::LineReader;
use gw_outside::{Failed, Sink, Source, push_all};
use sbe_layout::Plan;
use std::alloc::Global;
use std::sync::Wait;

/// Adds what the lines say that were read.
fn add_read(
    alloc: Global,
    plan: &Plan,
    reader: &mut LineReader,
    text: &mut Vec<u8>,
) -> Result<(), Stop>
    requires { LegalPlan plan.now }
    ensures waiting { OnOk result (reader.new.waiting ≡ []) }
    ensures goes { OnOk result ((pushed read : List ℕ) → Reads read reader.old (HasSaid plan.now pushed text.old.items)
        → Reads read reader.new (HasSaid plan.now pushed text.new.items)) }
    ensures stops { IfErr result (λ stop. (read : List ℕ) → Stops plan.now text.old.items text.new.items reader.old reader.new read stop) }
{
    while let Some(found) = reader.next() {
        if let Err(stop) = add_found(alloc, plan, found, reader.line(), text) {
            return Err(stop);
        }
    }
    Ok(())
}

/// Adds what stands behind the last line feed, as the last line of a source that is at its end.
fn add_last(
    alloc: Global,
    plan: &Plan,
    reader: &mut LineReader,
    text: &mut Vec<u8>,
) -> Result<(), Stop>
    requires legal { LegalPlan plan.now }
    requires waiting { reader.old.waiting ≡ [] }
    ensures goes { OnOk result ((pushed read : List ℕ) → Reads read reader.old (HasSaid plan.now pushed text.old.items)
        → HasSaid plan.now pushed text.new.items (lines_in read)) }
    ensures stops { IfErr result (λ stop. (read : List ℕ) → StopsLast plan.now text.old.items text.new.items reader.old reader.new.number read stop) }
{
    match reader.last() {
        Some(found) => add_found(alloc, plan, found, reader.line(), text),
        None => Ok(()),
    }
}

/// Pushes the text that waits.
fn push_text<K: Sink>(text: &mut Vec<u8>, out: &mut K) -> Result<(), Failed>
    ensures ok { OnOk result (Appends (K.taken out.old) (K.taken out.new) text.old.items) }
    ensures err { OnErr result (TakesFront (K.taken out.old) (K.taken out.new) text.old.items) }
    ensures emptied { OnOk result (text.new.items ≡ []) }
    ensures cause { HasCause (K.faults out.old) (K.faults out.new) result }
{
    push_all(out, text.as_slice())?;
    text.clear();
    Ok(())
}

/// Pushes the text that waits behind some lines, the last of which has this number, and answers how these ended.
fn push_told<K: Sink>(
    added: Result<(), Stop>,
    line: u64,
    text: &mut Vec<u8>,
    out: &mut K,
) -> Result<(), ToldEnd>
    ensures pushes { Pushes (K.taken out.old) (K.taken out.new) text.old.items line added result }
    ensures emptied { OnOk result (text.new.items ≡ []) }
    ensures counted { K.faults out.old ≤ K.faults out.new }
    ensures own { IfErr result (λ end. end ≢ ToldEnd.Input) }
    ensures cause { IsErrOf result ToldEnd.Output → HasRisen (K.faults out.old) (K.faults out.new) }
{
    match added {
        Ok(()) => match push_text(text, out) {
            Ok(()) => Ok(()),
            Err(_) => Err(ToldEnd::Output),
        },
        Err(Stop::Wrong(wrong)) => match push_text(text, out) {
            Ok(()) => Err(ToldEnd::Refused { line, wrong }),
            Err(_) => Err(ToldEnd::Output),
        },
        Err(Stop::Memory) => Err(ToldEnd::Memory),
    }
}

/// Reads a piece of the source, and tells the lines that it ends. Answers whether there may be more.
fn round<S: Source, K: Sink>(
    alloc: Global,
    plan: &Plan,
    reader: &mut LineReader,
    text: &mut Vec<u8>,
    input: &mut S,
    out: &mut K,
) -> Result<bool, ToldEnd>
    requires legal { LegalPlan plan.now }
    requires waiting { reader.old.waiting ≡ [] }
    requires empty { text.old.items ≡ [] }
    ensures waiting { OnOk result (reader.new.waiting ≡ []) }
    ensures empty { OnOk result (text.new.items ≡ []) }
    ensures after { (before : Streams) → StandsSo plan.now before (record { input = S.left input.old; out = K.taken out.old }) reader.old
        → AfterRound plan.now before (record { input = S.left input.new; out = K.taken out.new }) reader.new result }
    ensures input_counted { S.faults input.old ≤ S.faults input.new }
    ensures out_counted { K.faults out.old ≤ K.faults out.new }
    ensures input_cause { IsErrOf result ToldEnd.Input → HasRisen (S.faults input.old) (S.faults input.new) }
    ensures out_cause { IsErrOf result ToldEnd.Output → HasRisen (K.faults out.old) (K.faults out.new) }
{
    let Ok(count) = reader.read(input) else {
        return Err(ToldEnd::Input);
    };
    let added = add_read(alloc, plan, reader, text);
    match push_told(added, reader.number(), text, out) {
        Ok(()) => Ok(count > 0),
        Err(end) => Err(end),
    }
}

/// Tells the last line of a source that is at its end.
fn finish<K: Sink>(
    alloc: Global,
    plan: &Plan,
    reader: &mut LineReader,
    text: &mut Vec<u8>,
    out: &mut K,
) -> ToldEnd
    requires legal { LegalPlan plan.now }
    requires waiting { reader.old.waiting ≡ [] }
    requires empty { text.old.items ≡ [] }
    ensures promise { (before : Streams) (input : Option (List ℕ)) → StandsSo plan.now before (record { input = input; out = K.taken out.old }) reader.old → IsAtEnd input
        → KeepsTo plan.now before (record { input = input; out = K.taken out.new }) result }
    ensures counted { K.faults out.old ≤ K.faults out.new }
    ensures own { result ≢ ToldEnd.Input }
    ensures cause { result ≡ ToldEnd.Output → HasRisen (K.faults out.old) (K.faults out.new) }
{
    let added = add_last(alloc, plan, reader, text);
    match push_told(added, reader.number(), text, out) {
        Ok(()) => ToldEnd::Done,
        Err(end) => end,
    }
}

/// Tells the lines of a source, by the plan of a schema: the text of each message of which a line tells is pushed, up to the end of the
/// source or the first line that is refused. Lines of what a peer did not apply, of connections and of the end of a run say nothing. What
/// a read gives is told before more is asked for.
pub fn tell_lines<R: Wait, S: Source, K: Sink>(
    rt: &R,
    alloc: Global,
    plan: &Plan,
    input: &mut S,
    out: &mut K,
) -> ToldEnd
    requires { LegalPlan plan.now }
    ensures told { GaveOf plan.now (S.left input.old) (K.taken out.old) (K.taken out.new) result }
    ensures input_counted { S.faults input.old ≤ S.faults input.new }
    ensures out_counted { K.faults out.old ≤ K.faults out.new }
    ensures input_cause { result ≡ ToldEnd.Input → HasRisen (S.faults input.old) (S.faults input.new) }
    ensures out_cause { result ≡ ToldEnd.Output → HasRisen (K.faults out.old) (K.faults out.new) }
{
    let Ok(mut reader) = LineReader::new(alloc) else {
        return ToldEnd::Memory;
    };
    let mut text = Vec::new(alloc);
    for _ in rt.forever() {
        match round(alloc, plan, &mut reader, &mut text, input, out) {
            Ok(true) => {}
            Ok(false) => return finish(alloc, plan, &mut reader, &mut text, out),
            Err(end) => return end,
        }
    }
    unreachable!()
}
