//! A text of messages, read as it comes: the lines of what a piece of it ends are pushed before the next is read.

ghost use Rattle.std.specs.Prelude.{◌≡◌, ◌≢◌, ◌≤◌, ℕ, List, [], Ok, Option, IfErr, OnOk, OnErr, IsErrOf};
ghost use Rattle.std.specs.Io.KnownBytes.{Appends, IsAtEnd};
ghost use Rattle.gw_outside.specs.Faults.{HasCause, HasRisen, TakesFront};
ghost use Rattle.text_words.specs.Lines.{lines_in};
ghost use Rattle.jr_record.specs.Records.{IsSender};
ghost use Rattle.plan_lines.specs.Planned.{GaveOf};
ghost use Rattle.plan_lines.specs.Progress.{AfterRound, IsAll, KeepsTo, Pushes, Reads, Stands, StandsSo, Stops, StopsLast, Streams};

use crate::end::{PlanEnd, Stop};
use crate::form::Form;
use crate::place::Place;
use gw_lines::LineReader;
use gw_outside::{Failed, Sink, Source, push_all};
use sbe_from_text::Rooms;
use sbe_layout::Plan;
use std::alloc::Global;
use std::sync::Wait;

/// Takes the lines that were read.
fn take_read(
    alloc: Global,
    plan: &Plan,
    reader: &mut LineReader,
    rooms: &mut Rooms,
    place: &mut Place,
) -> Result<(), Stop>
    requires { IsSender place.old.sender }
    ensures sender { OnOk result (IsSender place.new.sender) }
    ensures form { place.new.form ≡ place.old.form }
    ensures waiting { OnOk result (reader.new.waiting ≡ []) }
    ensures goes { OnOk result ((pushed read : List ℕ) → Reads read reader.old (Stands plan.now pushed place.old) → Reads read reader.new (Stands plan.now pushed place.new)) }
    ensures stops { IfErr result (λ stop. (read : List ℕ) → Stops plan.now place.old place.new reader.old reader.new read stop) }
{
    while let Some(found) = reader.next() {
        if let Err(stop) = place.take_found(alloc, plan, rooms, reader, found) {
            return Err(stop);
        }
    }
    Ok(())
}

/// Takes what stands behind the last line feed, as the last line of a text that is at its end.
fn take_rest(
    alloc: Global,
    plan: &Plan,
    reader: &mut LineReader,
    rooms: &mut Rooms,
    place: &mut Place,
) -> Result<(), Stop>
    requires sender { IsSender place.old.sender }
    requires waiting { reader.old.waiting ≡ [] }
    ensures sender { OnOk result (IsSender place.new.sender) }
    ensures form { place.new.form ≡ place.old.form }
    ensures stands { OnOk result ((pushed read : List ℕ) → Reads read reader.old (Stands plan.now pushed place.old) → Stands plan.now pushed place.new (lines_in read)) }
    ensures stops { IfErr result (λ stop. (read : List ℕ) → StopsLast plan.now place.old place.new reader.old read stop) }
{
    match reader.last() {
        Some(found) => place.take_found(alloc, plan, rooms, reader, found),
        None => Ok(()),
    }
}

/// Takes the last line of a text that is at its end, and the message that ends there.
fn take_last(
    alloc: Global,
    plan: &Plan,
    reader: &mut LineReader,
    rooms: &mut Rooms,
    place: &mut Place,
) -> Result<(), Stop>
    requires sender { IsSender place.old.sender }
    requires waiting { reader.old.waiting ≡ [] }
    ensures form { place.new.form ≡ place.old.form }
    ensures goes { OnOk result ((pushed read : List ℕ) → Reads read reader.old (Stands plan.now pushed place.old) → IsAll plan.now pushed place.new (lines_in read)) }
    ensures stops { IfErr result (λ stop. (read : List ℕ) → StopsLast plan.now place.old place.new reader.old read stop) }
{
    match take_rest(alloc, plan, reader, rooms, place) {
        Ok(()) => place.take_end(alloc, plan),
        Err(stop) => Err(stop),
    }
}

/// Pushes the lines that wait.
fn push_lines<K: Sink>(lines: &mut Vec<u8>, out: &mut K) -> Result<(), Failed>
    ensures ok { OnOk result (Appends (K.taken out.old) (K.taken out.new) lines.old.items) }
    ensures err { OnErr result (TakesFront (K.taken out.old) (K.taken out.new) lines.old.items) }
    ensures emptied { OnOk result (lines.new.items ≡ []) }
    ensures cause { HasCause (K.faults out.old) (K.faults out.new) result }
{
    push_all(out, lines.as_slice())?;
    lines.clear();
    Ok(())
}

/// Pushes the lines that wait behind what was taken, and answers how that ended.
fn push_taken<K: Sink>(
    taken: Result<(), Stop>,
    lines: &mut Vec<u8>,
    out: &mut K,
) -> Result<(), PlanEnd>
    ensures pushes { Pushes (K.taken out.old) (K.taken out.new) lines.old.items taken result }
    ensures emptied { OnOk result (lines.new.items ≡ []) }
    ensures counted { K.faults out.old ≤ K.faults out.new }
    ensures own { IfErr result (λ end. end ≢ PlanEnd.Input) }
    ensures cause { IsErrOf result PlanEnd.Output → HasRisen (K.faults out.old) (K.faults out.new) }
{
    match taken {
        Ok(()) => match push_lines(lines, out) {
            Ok(()) => Ok(()),
            Err(_) => Err(PlanEnd::Output),
        },
        Err(Stop::Wrong { line, wrong }) => match push_lines(lines, out) {
            Ok(()) => Err(PlanEnd::Refused { line, wrong }),
            Err(_) => Err(PlanEnd::Output),
        },
        Err(Stop::Memory) => Err(PlanEnd::Memory),
    }
}

/// Reads a piece of the text, and pushes the lines of the messages that it ends. Answers whether there may be more.
fn round<S: Source, K: Sink>(
    alloc: Global,
    plan: &Plan,
    reader: &mut LineReader,
    rooms: &mut Rooms,
    place: &mut Place,
    input: &mut S,
    out: &mut K,
) -> Result<bool, PlanEnd>
    requires sender { IsSender place.old.sender }
    requires waiting { reader.old.waiting ≡ [] }
    requires empty { place.old.lines.items ≡ [] }
    ensures sender { OnOk result (IsSender place.new.sender) }
    ensures waiting { OnOk result (reader.new.waiting ≡ []) }
    ensures empty { OnOk result (place.new.lines.items ≡ []) }
    ensures form { place.new.form ≡ place.old.form }
    ensures after { (before : Streams) → StandsSo plan.now before (record { input = S.left input.old; out = K.taken out.old }) reader.old place.old
        → AfterRound plan.now place.old.form before (record { input = S.left input.new; out = K.taken out.new }) reader.new place.new result }
    ensures input_counted { S.faults input.old ≤ S.faults input.new }
    ensures out_counted { K.faults out.old ≤ K.faults out.new }
    ensures input_cause { IsErrOf result PlanEnd.Input → HasRisen (S.faults input.old) (S.faults input.new) }
    ensures out_cause { IsErrOf result PlanEnd.Output → HasRisen (K.faults out.old) (K.faults out.new) }
{
    let Ok(count) = reader.read(input) else {
        return Err(PlanEnd::Input);
    };
    let taken = take_read(alloc, plan, reader, rooms, place);
    match push_taken(taken, &mut place.lines, out) {
        Ok(()) => Ok(count > 0),
        Err(end) => Err(end),
    }
}

/// Takes the last line of a text that is at its end.
fn finish<K: Sink>(
    alloc: Global,
    plan: &Plan,
    reader: &mut LineReader,
    rooms: &mut Rooms,
    place: &mut Place,
    out: &mut K,
) -> PlanEnd
    requires sender { IsSender place.old.sender }
    requires waiting { reader.old.waiting ≡ [] }
    requires empty { place.old.lines.items ≡ [] }
    ensures promise { (before : Streams) (input : Option (List ℕ)) → StandsSo plan.now before (record { input = input; out = K.taken out.old }) reader.old place.old → IsAtEnd input
        → KeepsTo plan.now place.old.form before (record { input = input; out = K.taken out.new }) result }
    ensures counted { K.faults out.old ≤ K.faults out.new }
    ensures own { result ≢ PlanEnd.Input }
    ensures cause { result ≡ PlanEnd.Output → HasRisen (K.faults out.old) (K.faults out.new) }
{
    let taken = take_last(alloc, plan, reader, rooms, place);
    match push_taken(taken, &mut place.lines, out) {
        Ok(()) => PlanEnd::Done,
        Err(end) => end,
    }
}

/// Reads a text of messages, by the plan of a schema, and pushes the line of each in this form: up to the end of the source or the first line
/// that is refused. What a read ends is pushed before more is asked for.
pub fn plan_messages<R: Wait, S: Source, K: Sink>(
    rt: &R,
    alloc: Global,
    plan: &Plan,
    form: Form,
    input: &mut S,
    out: &mut K,
) -> PlanEnd
    ensures gave { GaveOf plan.now form (S.left input.old) (K.taken out.old) (K.taken out.new) result }
    ensures input_counted { S.faults input.old ≤ S.faults input.new }
    ensures out_counted { K.faults out.old ≤ K.faults out.new }
    ensures input_cause { result ≡ PlanEnd.Input → HasRisen (S.faults input.old) (S.faults input.new) }
    ensures out_cause { result ≡ PlanEnd.Output → HasRisen (K.faults out.old) (K.faults out.new) }
{
    let Ok(mut reader) = LineReader::new(alloc) else {
        return PlanEnd::Memory;
    };
    let mut rooms = Rooms::new(alloc);
    let mut place = Place::new(alloc, form);
    for _ in rt.forever() {
        match round(alloc, plan, &mut reader, &mut rooms, &mut place, input, out) {
            Ok(true) => {}
            Ok(false) => {
                return finish(alloc, plan, &mut reader, &mut rooms, &mut place, out);
            }
            Err(end) => return end,
        }
    }
    unreachable!()
}
