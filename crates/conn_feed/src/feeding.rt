//! A feeding: INPUT is read a piece at a time until it ends, and what was read is fed before more is asked for.

ghost use Rattle.std.specs.Prelude.{◌≡◌, ◌≢◌, ℕ, ◌≤◌, List, [], length, IfOk, IfErr, OnOk, IsErrOf, IsFalse};
ghost use Rattle.std.specs.Io.KnownBytes.{IsAtEnd};
ghost use Rattle.gw_outside.specs.Faults.{HasRisen};
ghost use Rattle.text_words.specs.Lines.{lines_in};
ghost use Rattle.gw_lines.specs.Reading.{HasGiven};
ghost use Rattle.conn_feed.specs.declared.end.FeedEnd.TheVariants as ends;

use crate::end::FeedEnd;
use crate::feeder::Feeder;
use gate_senders::Gate;
use gate_staff::Door;
use gw_lines::LineReader;
use gw_outside::{Sink, Source};
use jr_dated::Journal;
use std::sync::Wait;
use std::sync::atomic::{AtomicBool, Ordering};

impl<J: Journal, K: Sink> Feeder<J, K> {
    ghost use Rattle.conn_feed.specs.Fed.{AtSeats};
    ghost use Rattle.conn_feed.specs.Ends.{Feeding};
    ghost use Rattle.conn_feed.specs.Course.{IsSound, point_of, EndedSo, StandsSo, Reads, ReadsOn};

    /// Takes the lines that were read.
    fn take_read<D: Door, R: Wait>(
        &mut self,
        reader: &mut LineReader,
        gate: &Gate<J>,
        door: &D,
        rt: &R,
    ) -> Result<(), FeedEnd>
        requires sound { IsSound gate.now self.old }
        ensures sound { IsSound gate.now self.new }
        ensures long { length self.new.senders.items ≡ length self.old.senders.items }
        ensures waiting { OnOk result (reader.new.waiting ≡ []) }
        ensures goes { OnOk result ((start : _) (read : List ℕ) → Reads read reader.old (StandsSo K.taken start self.old) → Reads read reader.new (StandsSo K.taken start self.new)) }
        ensures over { IfErr result (λ end. (start : _) (read : List ℕ) → Reads read reader.old (StandsSo K.taken start self.old)
            → Reads read reader.new (λ lines. EndedSo K.taken start self.new lines end)) }
        ensures unended { IfErr result (λ end. end ≢ ends.Ended) }
        ensures own { IfErr result (λ end. end ≢ ends.Input) }
        ensures risen { IsErrOf result ends.Accepted → HasRisen (K.faults self.old.accepted) (K.faults self.new.accepted) }
        ensures counted { K.faults self.old.accepted ≤ K.faults self.new.accepted }
    {
        while let Some(found) = reader.next() {
            if let Err(end) = self.take(found, reader.line(), reader.number(), gate, door, rt) {
                return Err(end);
            }
        }
        self.flush(gate, door, rt)
    }

    /// Reads INPUT once, and takes the lines that this gave. Answers whether there may be more.
    fn round<S: Source, D: Door, R: Wait>(
        &mut self,
        reader: &mut LineReader,
        gate: &Gate<J>,
        input: &mut S,
        door: &D,
        rt: &R,
    ) -> Result<bool, FeedEnd>
        requires sound { IsSound gate.now self.old }
        requires waiting { reader.old.waiting ≡ [] }
        ensures sound { IsSound gate.now self.new }
        ensures long { length self.new.senders.items ≡ length self.old.senders.items }
        ensures waiting { OnOk result (reader.new.waiting ≡ []) }
        ensures end { IfOk result (λ more. IsFalse more → IsAtEnd (S.left input.new)) }
        ensures goes { OnOk result ((start : _) (read : List ℕ) → Reads read reader.old (StandsSo K.taken start self.old)
            → ReadsOn (S.left input.old) (S.left input.new) read reader.new (StandsSo K.taken start self.new)) }
        ensures over { IfErr result (λ end. (start : _) (read : List ℕ) → Reads read reader.old (StandsSo K.taken start self.old)
            → ReadsOn (S.left input.old) (S.left input.new) read reader.new (λ lines. EndedSo K.taken start self.new lines end)) }
        ensures unended { IfErr result (λ end. end ≢ ends.Ended) }
        ensures risen { IsErrOf result ends.Accepted → HasRisen (K.faults self.old.accepted) (K.faults self.new.accepted) }
        ensures counted { K.faults self.old.accepted ≤ K.faults self.new.accepted }
        ensures input_risen { IsErrOf result ends.Input → HasRisen (S.faults input.old) (S.faults input.new) }
        ensures input_counted { S.faults input.old ≤ S.faults input.new }
    {
        let Ok(count) = reader.read(input) else {
            return Err(FeedEnd::Input);
        };
        match self.take_read(reader, gate, door, rt) {
            Ok(()) => Ok(count > 0),
            Err(end) => Err(end),
        }
    }

    /// Takes what stands behind the last line feed, as the last line of an INPUT that is at its end. It may wait in the piece.
    fn take_last<D: Door, R: Wait>(
        &mut self,
        reader: &mut LineReader,
        gate: &Gate<J>,
        door: &D,
        rt: &R,
    ) -> Result<(), FeedEnd>
        requires sound { IsSound gate.now self.old }
        requires waiting { reader.old.waiting ≡ [] }
        ensures sound { IsSound gate.now self.new }
        ensures long { length self.new.senders.items ≡ length self.old.senders.items }
        ensures goes { OnOk result ((start : _) (read : List ℕ) → Reads read reader.old (StandsSo K.taken start self.old) → StandsSo K.taken start self.new (lines_in read)) }
        ensures over { IfErr result (λ end. (start : _) (read : List ℕ) → Reads read reader.old (StandsSo K.taken start self.old) → EndedSo K.taken start self.new (lines_in read) end) }
        ensures unended { IfErr result (λ end. end ≢ ends.Ended) }
        ensures own { IfErr result (λ end. end ≢ ends.Input) }
        ensures risen { IsErrOf result ends.Accepted → HasRisen (K.faults self.old.accepted) (K.faults self.new.accepted) }
        ensures counted { K.faults self.old.accepted ≤ K.faults self.new.accepted }
    {
        match reader.last() {
            Some(found) => self.take(found, reader.line(), reader.number(), gate, door, rt),
            None => Ok(()),
        }
    }

    /// Takes what stands behind the last line feed, as the last line of an INPUT that is at its end, and submits what waits.
    fn last<D: Door, R: Wait>(
        &mut self,
        reader: &mut LineReader,
        gate: &Gate<J>,
        door: &D,
        rt: &R,
    ) -> Result<(), FeedEnd>
        requires sound { IsSound gate.now self.old }
        requires waiting { reader.old.waiting ≡ [] }
        ensures sound { IsSound gate.now self.new }
        ensures long { length self.new.senders.items ≡ length self.old.senders.items }
        ensures empty { OnOk result (self.new.piece.payloads ≡ []) }
        ensures goes { OnOk result ((start : _) (read : List ℕ) → Reads read reader.old (StandsSo K.taken start self.old) → StandsSo K.taken start self.new (lines_in read)) }
        ensures over { IfErr result (λ end. (start : _) (read : List ℕ) → Reads read reader.old (StandsSo K.taken start self.old) → EndedSo K.taken start self.new (lines_in read) end) }
        ensures unended { IfErr result (λ end. end ≢ ends.Ended) }
        ensures own { IfErr result (λ end. end ≢ ends.Input) }
        ensures risen { IsErrOf result ends.Accepted → HasRisen (K.faults self.old.accepted) (K.faults self.new.accepted) }
        ensures counted { K.faults self.old.accepted ≤ K.faults self.new.accepted }
    {
        match self.take_last(reader, gate, door, rt) {
            Ok(()) => self.flush(gate, door, rt),
            Err(end) => Err(end),
        }
    }

    /// Reads and feeds until INPUT is at its end, and each of its lines is answered.
    fn feed_from<S: Source, D: Door, R: Wait>(
        &mut self,
        mut reader: LineReader,
        gate: &Gate<J>,
        input: &mut S,
        door: &D,
        stop: &AtomicBool,
        rt: &R,
    ) -> Result<(), FeedEnd>
        requires sound { IsSound gate.now self.old }
        requires empty { self.old.piece.payloads ≡ [] }
        requires fresh { HasGiven [] [] reader }
        requires waiting { reader.waiting ≡ [] }
        ensures sound { IsSound gate.now self.new }
        ensures long { length self.new.senders.items ≡ length self.old.senders.items }
        ensures whole { OnOk result (Feeding (point_of K.taken self.old) (point_of K.taken self.new) (S.left input.old) (S.left input.new) ends.Ended) }
        ensures over { IfErr result (Feeding (point_of K.taken self.old) (point_of K.taken self.new) (S.left input.old) (S.left input.new)) }
        ensures unended { IfErr result (λ end. end ≢ ends.Ended) }
        ensures risen { IsErrOf result ends.Accepted → HasRisen (K.faults self.old.accepted) (K.faults self.new.accepted) }
        ensures counted { K.faults self.old.accepted ≤ K.faults self.new.accepted }
        ensures input_risen { IsErrOf result ends.Input → HasRisen (S.faults input.old) (S.faults input.new) }
        ensures input_counted { S.faults input.old ≤ S.faults input.new }
    {
        for _ in rt.forever() {
            let more = match self.round(&mut reader, gate, input, door, rt) {
                Ok(more) => more,
                Err(end) => return Err(end),
            };
            if stop.load(Ordering::SeqCst) {
                return Err(FeedEnd::Stopped);
            }
            if !more {
                return self.last(&mut reader, gate, door, rt);
            }
        }
        unreachable!()
    }

    /// Feeds the lines of INPUT to the senders until INPUT is at its end, or something else ends it, and answers what did. What a read gives is
    /// submitted, and told on ACCEPTED, before more is asked for; whether it is to stop is looked at behind each read, and asked of the door
    /// before each message.
    pub fn feed<S: Source, D: Door, R: Wait>(
        &mut self,
        gate: &Gate<J>,
        input: &mut S,
        door: &D,
        stop: &AtomicBool,
        rt: &R,
    ) -> FeedEnd
        requires seats { AtSeats gate.now self.old.senders.items }
        ensures seats { AtSeats gate.now self.new.senders.items }
        ensures long { length self.new.senders.items ≡ length self.old.senders.items }
        ensures fed { Feeding (point_of K.taken self.old) (point_of K.taken self.new) (S.left input.old) (S.left input.new) result }
        ensures accepted { result ≡ ends.Accepted → HasRisen (K.faults self.old.accepted) (K.faults self.new.accepted) }
        ensures accepted_counted { K.faults self.old.accepted ≤ K.faults self.new.accepted }
        ensures input { result ≡ ends.Input → HasRisen (S.faults input.old) (S.faults input.new) }
        ensures input_counted { S.faults input.old ≤ S.faults input.new }
    {
        self.begin();
        let Ok(reader) = LineReader::new(self.alloc()) else {
            return FeedEnd::Memory;
        };
        match self.feed_from(reader, gate, input, door, stop, rt) {
            Ok(()) => FeedEnd::Ended,
            Err(end) => end,
        }
    }
}
