//! The feeder: it holds the senders of a gate, gathers what lines give them into pieces, and tells what came of each line.

ghost use Rattle.std.specs.Prelude.{◌≡◌, ◌≢◌, ◌⊎◌, ℕ, ◌+◌, ◌-◌, ◌<◌, ◌≤◌, ◌^◌, List, [], ◌∷◌, ◌++◌, min, length, slice_index_or, vec_len, IfOk, IfErr, OnOk, OnErr, IsErrOf, All};
ghost use Rattle.std.specs.Io.KnownBytes.{Appends};
ghost use Rattle.gw_outside.specs.Faults.{HasRisen, TakesFront};
ghost use Rattle.fixp_msgs.specs.Payload.{IsApplication};
ghost use Rattle.gate_turn.specs.Rule.{In};
ghost use Rattle.gate_staff.specs.Runs.{CountedEach};
ghost use Rattle.gate_staff.specs.Seats.{Seated};
ghost use Rattle.gate_staff.specs.declared.sender.Sender.{Sender};
ghost use Rattle.gw_lines.specs.Lines.{IsTold};
ghost use Rattle.plan_feed.specs.Pieces.{Takes};
ghost use Rattle.plan_text.specs.Plans.{Gives};
ghost use Rattle.conn_feed.specs.Words.{refused, IsWhy, IsClear};
ghost use Rattle.conn_feed.specs.declared.end.FeedEnd.TheVariants as ends;

use crate::end::{FeedEnd, ended_by};
use crate::text::{piece_text, push_counts};
use conn_accepted::{Why, push_refused_line};
use gate_senders::{Gate, Submission};
use gate_staff::{Door, Sender, count_done};
use gw_lines::Found;
use gw_outside::{Sink, push_all};
use jr_dated::Journal;
use plan_feed::{Fed, Piece, read_line};
use sbe_value::Bytes;
use std::alloc::Global;
use std::sync::Wait;

/// The most messages that a sender may have for a piece more to be counted.
const MOST_OWN: u64 = u64::MAX - 64;

/// Feeds lines to senders. It holds the senders, one for each number from 1 on, and ACCEPTED.
#[derive(Drop)]
pub struct Feeder<J: Journal, K> {
    alloc: Global,
    pub(crate) senders: Vec<Sender<J>>,
    accepted: K,
    /// The messages that wait to be submitted.
    piece: Piece,
    /// The number of the line that gives the first of them.
    number: u64,
}

/// Tells a door of a piece of which so many messages were accepted.
fn tell_door<D: Door>(door: &D, count: u64) {
    if count > 0 {
        door.accepted();
    }
}

impl<J: Journal, K: Sink> Feeder<J, K> {
    ghost use Rattle.conn_feed.specs.Words.{counts_text};
    ghost use Rattle.conn_feed.specs.Fed.{AtSeats, IsCounted, parts_of, counts_of};
    ghost use Rattle.conn_feed.specs.Course.{Went, IsSound, Told, piece_text, count_of, GoesOn, EndsSo, GoesOnAt, EndsAt};

    /// A feeder of the senders that were seated at a gate, that tells ACCEPTED. What the outbox has of each is counted as done.
    pub fn new<R: Wait>(
        alloc: Global,
        gate: &Gate<J>,
        mut senders: Vec<Sender<J>>,
        accepted: K,
        rt: &R,
    ) -> Feeder<J, K>
        requires few { vec_len senders ≤ 16 }
        requires seated { Seated gate.now senders.items (vec_len senders + 1) }
        ensures seats { AtSeats gate.now result.senders.items }
        ensures count { vec_len result.senders ≡ vec_len senders }
        ensures each { CountedEach gate.now senders.items result.senders.items }
        ensures accepted { result.accepted ≡ accepted }
    {
        count_done(gate, &mut senders, rt);
        Feeder {
            alloc,
            senders,
            accepted,
            piece: Piece::new(alloc),
            number: 0,
        }
    }

    /// The senders, and ACCEPTED.
    pub fn into_parts(self) -> (Vec<Sender<J>>, K)
        ensures senders { result.0 ≡ self.senders }
        ensures accepted { result.1 ≡ self.accepted }
    {
        (self.senders, self.accepted)
    }

    /// Tells ACCEPTED how many messages each sender has, from sender 1 on.
    ///
    /// # Errors
    /// `Accepted` where ACCEPTED failed, `Memory` where there was not enough: it has taken a front of the lines.
    pub fn tell_counts(&mut self) -> Result<(), FeedEnd>
        requires few { length self.old.senders.items ≤ 16 }
        requires counted { All IsCounted self.old.senders.items }
        ensures told { Told (K.taken self.old.accepted) (K.taken self.new.accepted) (counts_text 1 (counts_of (parts_of self.old.senders.items))) result }
        ensures risen { IsErrOf result ends.Accepted → HasRisen (K.faults self.old.accepted) (K.faults self.new.accepted) }
        ensures counted { K.faults self.old.accepted ≤ K.faults self.new.accepted }
        ensures senders { self.new.senders ≡ self.old.senders }
    {
        let mut text = Vec::new(self.alloc);
        let Ok(()) = push_counts(&mut text, self.senders.as_slice()) else {
            return Err(FeedEnd::Memory);
        };
        self.tell(text.as_slice())
    }

    /// What memory is taken of.
    pub(crate) fn alloc(&self) -> Global {
        self.alloc
    }

    /// Has no message wait.
    pub(crate) fn begin(&mut self)
        ensures empty { self.new.piece.payloads ≡ [] }
        ensures senders { self.new.senders ≡ self.old.senders }
        ensures accepted { self.new.accepted ≡ self.old.accepted }
    {
        self.piece.clear(self.alloc);
    }

    /// How many messages the sender of the piece has.
    fn own(&self) -> u64
        requires sender { In (length self.now.senders.items) self.now.piece.sender }
        ensures own { (d : Sender _ _) → result ≡ (slice_index_or self.now.senders.items (self.now.piece.sender - 1) d).done }
    {
        self.senders[self.piece.sender() as usize - 1].done
    }

    /// Submits the piece by the pass of its sender, which has so many messages.
    fn submit<D: Door, R: Wait>(&mut self, own: u64, gate: &Gate<J>, door: &D, rt: &R) -> Submission
        requires seats { AtSeats gate.now self.old.senders.items }
        requires sender { In (length self.old.senders.items) self.old.piece.sender }
        requires own { (d : Sender _ _) → own ≡ (slice_index_or self.old.senders.items (self.old.piece.sender - 1) d).done }
        requires few { own + 64 < 2 ^ 64 }
        ensures seats { AtSeats gate.now self.new.senders.items }
        ensures went { Went self.old.senders.items self.new.senders.items self.old.piece result }
        ensures within { result.count ≤ length self.old.piece.payloads }
        ensures few { length self.old.piece.payloads ≤ 64 }
        ensures number { result.count ≤ result.number }
        ensures piece { self.new.piece ≡ self.old.piece }
        ensures line { self.new.number ≡ self.old.number }
        ensures accepted { self.new.accepted ≡ self.old.accepted }
    {
        let seat = &mut self.senders[self.piece.sender() as usize - 1];
        let submission = gate.submit_all(&mut seat.pass, self.piece.payloads(), rt);
        seat.done = own + submission.count;
        tell_door(door, submission.count);
        submission
    }

    /// Tells ACCEPTED some lines.
    fn tell(&mut self, text: &[u8]) -> Result<(), FeedEnd>
        ensures ok { OnOk result (Appends (K.taken self.old.accepted) (K.taken self.new.accepted) text.now) }
        ensures err { OnErr result (TakesFront (K.taken self.old.accepted) (K.taken self.new.accepted) text.now) }
        ensures which { IfErr result (λ end. end ≡ ends.Accepted) }
        ensures risen { OnErr result (HasRisen (K.faults self.old.accepted) (K.faults self.new.accepted)) }
        ensures counted { K.faults self.old.accepted ≤ K.faults self.new.accepted }
        ensures senders { self.new.senders ≡ self.old.senders }
        ensures piece { self.new.piece ≡ self.old.piece }
        ensures number { self.new.number ≡ self.old.number }
    {
        match push_all(&mut self.accepted, text) {
            Ok(()) => Ok(()),
            Err(_) => Err(FeedEnd::Accepted),
        }
    }

    /// Tells ACCEPTED what came of the lines of the piece, whose sender had so many messages before.
    fn tell_piece(&mut self, own: u64, submission: Submission) -> Result<(), FeedEnd>
        requires few { length self.old.senders.items ≤ 16 }
        requires number { submission.count ≤ submission.number }
        requires own { own + submission.count < 2 ^ 64 }
        requires within { submission.count ≤ length self.old.piece.payloads }
        ensures told { Told (K.taken self.old.accepted) (K.taken self.new.accepted)
            (piece_text (length self.old.senders.items) self.old.number own self.old.piece submission) result }
        ensures unended { IfErr result (λ end. end ≢ ends.Ended) }
        ensures own { IfErr result (λ end. end ≢ ends.Input) }
        ensures risen { IsErrOf result ends.Accepted → HasRisen (K.faults self.old.accepted) (K.faults self.new.accepted) }
        ensures counted { K.faults self.old.accepted ≤ K.faults self.new.accepted }
        ensures senders { self.new.senders ≡ self.old.senders }
        ensures piece { self.new.piece ≡ self.old.piece }
    {
        let senders = self.senders.len() as u16;
        let Ok(text) = piece_text(
            self.alloc,
            senders,
            self.number,
            own,
            &self.piece,
            submission,
        ) else {
            return Err(FeedEnd::Memory);
        };
        self.tell(text.as_slice())
    }

    /// Submits the piece, and tells what came of its lines.
    fn send<D: Door, R: Wait>(&mut self, gate: &Gate<J>, door: &D, rt: &R) -> Result<(), FeedEnd>
        requires sound { IsSound gate.now self.old }
        requires some { self.old.piece.payloads ≢ [] }
        ensures sound { IsSound gate.now self.new }
        ensures long { length self.new.senders.items ≡ length self.old.senders.items }
        ensures empty { OnOk result (self.new.piece.payloads ≡ []) }
        ensures goes { OnOk result (GoesOn K.taken self.old self.new) }
        ensures over { IfErr result (EndsSo K.taken self.old self.new) }
        ensures unended { IfErr result (λ end. end ≢ ends.Ended) }
        ensures own { IfErr result (λ end. end ≢ ends.Input) }
        ensures risen { IsErrOf result ends.Accepted → HasRisen (K.faults self.old.accepted) (K.faults self.new.accepted) }
        ensures counted { K.faults self.old.accepted ≤ K.faults self.new.accepted }
    {
        let own = self.own();
        if own > MOST_OWN {
            return Err(FeedEnd::Memory);
        }
        let submission = self.submit(own, gate, door, rt);
        let told = self.tell_piece(own, submission);
        self.piece.clear(self.alloc);
        ended_by(submission.refused, told)
    }

    /// Submits the piece, if it has messages.
    pub(crate) fn flush<D: Door, R: Wait>(
        &mut self,
        gate: &Gate<J>,
        door: &D,
        rt: &R,
    ) -> Result<(), FeedEnd>
        requires sound { IsSound gate.now self.old }
        ensures sound { IsSound gate.now self.new }
        ensures long { length self.new.senders.items ≡ length self.old.senders.items }
        ensures empty { OnOk result (self.new.piece.payloads ≡ []) }
        ensures goes { OnOk result (GoesOn K.taken self.old self.new) }
        ensures over { IfErr result (EndsSo K.taken self.old self.new) }
        ensures unended { IfErr result (λ end. end ≢ ends.Ended) }
        ensures own { IfErr result (λ end. end ≢ ends.Input) }
        ensures risen { IsErrOf result ends.Accepted → HasRisen (K.faults self.old.accepted) (K.faults self.new.accepted) }
        ensures counted { K.faults self.old.accepted ≤ K.faults self.new.accepted }
    {
        if self.piece.is_empty() {
            return Ok(());
        }
        self.send(gate, door, rt)
    }

    /// Tells that the line of this number was refused.
    fn refuse(&mut self, number: u64, why: Why) -> Result<(), FeedEnd>
        requires few { length self.old.senders.items ≤ 16 }
        requires empty { self.old.piece.payloads ≡ [] }
        requires clear { IsClear (refused why) }
        ensures senders { self.new.senders ≡ self.old.senders }
        ensures piece { self.new.piece ≡ self.old.piece }
        ensures goes { OnOk result ((line : List ℕ) → IsWhy (length self.old.senders.items) line why → GoesOnAt K.taken number self.old self.new line) }
        ensures over { IfErr result (λ end. (line : List ℕ) → IsWhy (length self.old.senders.items) line why → EndsAt K.taken number self.old self.new line end) }
        ensures unended { IfErr result (λ end. end ≢ ends.Ended) }
        ensures own { IfErr result (λ end. end ≢ ends.Input) }
        ensures risen { IsErrOf result ends.Accepted → HasRisen (K.faults self.old.accepted) (K.faults self.new.accepted) }
        ensures counted { K.faults self.old.accepted ≤ K.faults self.new.accepted }
    {
        let senders = self.senders.len() as u16;
        let mut text = Vec::new(self.alloc);
        let Ok(()) = push_refused_line(&mut text, senders, number, why) else {
            return Err(FeedEnd::Memory);
        };
        self.tell(text.as_slice())
    }

    /// The number that the next message of this sender has among its own.
    fn next_of(&self, sender: u16) -> u64
        requires there { In (length self.now.senders.items) sender }
    {
        let waiting = if self.piece.sender() == sender {
            self.piece.payloads().len() as u64
        } else {
            0
        };
        let done = self.senders[sender as usize - 1].done;
        done.saturating_add(waiting).saturating_add(1)
    }

    /// Submits the piece where a message cannot go with it, and has the door let the message in.
    fn let_in<D: Door, R: Wait>(
        &mut self,
        sender: u16,
        size: usize,
        gate: &Gate<J>,
        door: &D,
        rt: &R,
    ) -> Result<(), FeedEnd>
        requires sound { IsSound gate.now self.old }
        requires there { In (length self.old.senders.items) sender }
        ensures sound { IsSound gate.now self.new }
        ensures long { length self.new.senders.items ≡ length self.old.senders.items }
        ensures takes { OnOk result (Takes self.new.piece sender size) }
        ensures goes { OnOk result (GoesOn K.taken self.old self.new) }
        ensures over { IfErr result (EndsSo K.taken self.old self.new) }
        ensures unended { IfErr result (λ end. end ≢ ends.Ended) }
        ensures own { IfErr result (λ end. end ≢ ends.Input) }
        ensures risen { IsErrOf result ends.Accepted → HasRisen (K.faults self.old.accepted) (K.faults self.new.accepted) }
        ensures counted { K.faults self.old.accepted ≤ K.faults self.new.accepted }
    {
        if !self.piece.is_empty()
            && self.piece.takes(sender, size)
            && door.with_it(sender, self.next_of(sender), rt)
        {
            return Ok(());
        }
        self.flush(gate, door, rt)?;
        if door.before(sender, self.next_of(sender), rt) {
            Ok(())
        } else {
            Err(FeedEnd::Stopped)
        }
    }

    /// Has the payload that the line of this number gives wait with those of the piece.
    fn hold(&mut self, number: u64, sender: u16, payload: Bytes) -> Result<(), FeedEnd>
        requires takes { Takes self.old.piece sender (length payload) }
        requires application { IsApplication payload }
        ensures senders { self.new.senders ≡ self.old.senders }
        ensures accepted { self.new.accepted ≡ self.old.accepted }
        ensures sender { self.new.piece ≡ self.old.piece ⊎ (self.new.piece.sender ≡ sender) }
        ensures added { OnOk result (self.new.piece ≡ record { sender = sender; payloads = self.old.piece.payloads ++ payload ∷ [] }) }
        ensures fresh { self.old.piece.payloads ≡ [] → self.new.number ≡ number }
        ensures kept { self.old.piece.payloads ≢ [] → self.new.number ≡ self.old.number }
        ensures which { IfErr result (λ end. end ≡ ends.Memory) }
    {
        self.number_first(number);
        match self.piece.add(sender, payload) {
            Ok(()) => Ok(()),
            Err(_) => Err(FeedEnd::Memory),
        }
    }

    /// Remembers that the line of this number gives the first message of the piece, where it has none.
    fn number_first(&mut self, number: u64)
        ensures fresh { self.old.piece.payloads ≡ [] → self.new.number ≡ number }
        ensures kept { self.old.piece.payloads ≢ [] → self.new.number ≡ self.old.number }
        ensures senders { self.new.senders ≡ self.old.senders }
        ensures accepted { self.new.accepted ≡ self.old.accepted }
        ensures piece { self.new.piece ≡ self.old.piece }
    {
        if self.piece.is_empty() {
            self.number = number;
        }
    }

    /// Adds the payload that the line of this number gives to a sender.
    fn add<D: Door, R: Wait>(
        &mut self,
        number: u64,
        sender: u16,
        payload: Bytes,
        gate: &Gate<J>,
        door: &D,
        rt: &R,
    ) -> Result<(), FeedEnd>
        requires sound { IsSound gate.now self.old }
        requires there { In (length self.old.senders.items) sender }
        requires application { IsApplication payload }
        ensures sound { IsSound gate.now self.new }
        ensures long { length self.new.senders.items ≡ length self.old.senders.items }
        ensures goes { OnOk result ((line : List ℕ) → Gives (length self.old.senders.items) line (record { sender = sender; payload = payload })
            → GoesOnAt K.taken number self.old self.new line) }
        ensures over { IfErr result (λ end. (line : List ℕ) → EndsAt K.taken number self.old self.new line end) }
        ensures unended { IfErr result (λ end. end ≢ ends.Ended) }
        ensures own { IfErr result (λ end. end ≢ ends.Input) }
        ensures risen { IsErrOf result ends.Accepted → HasRisen (K.faults self.old.accepted) (K.faults self.new.accepted) }
        ensures counted { K.faults self.old.accepted ≤ K.faults self.new.accepted }
    {
        match self.let_in(sender, payload.len(), gate, door, rt) {
            Ok(()) => self.hold(number, sender, payload),
            Err(end) => Err(end),
        }
    }

    /// Submits the piece, and tells that the line of this number, which comes behind it, was refused.
    fn pass_over<D: Door, R: Wait>(
        &mut self,
        number: u64,
        why: Why,
        gate: &Gate<J>,
        door: &D,
        rt: &R,
    ) -> Result<(), FeedEnd>
        requires sound { IsSound gate.now self.old }
        requires clear { IsClear (refused why) }
        ensures sound { IsSound gate.now self.new }
        ensures long { length self.new.senders.items ≡ length self.old.senders.items }
        ensures goes { OnOk result ((line : List ℕ) → IsWhy (length self.old.senders.items) line why → GoesOnAt K.taken number self.old self.new line) }
        ensures over { IfErr result (λ end. (line : List ℕ) → IsWhy (length self.old.senders.items) line why → EndsAt K.taken number self.old self.new line end) }
        ensures unended { IfErr result (λ end. end ≢ ends.Ended) }
        ensures own { IfErr result (λ end. end ≢ ends.Input) }
        ensures risen { IsErrOf result ends.Accepted → HasRisen (K.faults self.old.accepted) (K.faults self.new.accepted) }
        ensures counted { K.faults self.old.accepted ≤ K.faults self.new.accepted }
    {
        match self.flush(gate, door, rt) {
            Ok(()) => self.refuse(number, why),
            Err(end) => Err(end),
        }
    }

    /// Takes the line of this number, which is no longer than one that gives a payload.
    fn take_whole<D: Door, R: Wait>(
        &mut self,
        line: &[u8],
        number: u64,
        gate: &Gate<J>,
        door: &D,
        rt: &R,
    ) -> Result<(), FeedEnd>
        requires sound { IsSound gate.now self.old }
        ensures sound { IsSound gate.now self.new }
        ensures long { length self.new.senders.items ≡ length self.old.senders.items }
        ensures goes { OnOk result (GoesOnAt K.taken number self.old self.new line.now) }
        ensures over { IfErr result (EndsAt K.taken number self.old self.new line.now) }
        ensures unended { IfErr result (λ end. end ≢ ends.Ended) }
        ensures own { IfErr result (λ end. end ≢ ends.Input) }
        ensures risen { IsErrOf result ends.Accepted → HasRisen (K.faults self.old.accepted) (K.faults self.new.accepted) }
        ensures counted { K.faults self.old.accepted ≤ K.faults self.new.accepted }
    {
        let senders = self.senders.len() as u16;
        match read_line(self.alloc, senders, line) {
            Ok(Fed::Payload { sender, payload }) => {
                self.add(number, sender, payload, gate, door, rt)
            }
            Ok(Fed::Wrong(wrong)) => self.pass_over(number, Why::Wrong(wrong), gate, door, rt),
            Err(_) => Err(FeedEnd::Memory),
        }
    }

    /// Takes the line of this number, of which this was found: adds what it gives, or tells why it was refused.
    pub(crate) fn take<D: Door, R: Wait>(
        &mut self,
        found: Found,
        line: &[u8],
        number: u64,
        gate: &Gate<J>,
        door: &D,
        rt: &R,
    ) -> Result<(), FeedEnd>
        requires sound { IsSound gate.now self.old }
        ensures sound { IsSound gate.now self.new }
        ensures long { length self.new.senders.items ≡ length self.old.senders.items }
        ensures goes { OnOk result ((says raw : List ℕ) → IsTold found line.now says raw → length raw ≤ length says + 1 → GoesOnAt K.taken number self.old self.new says) }
        ensures over { IfErr result (λ end. (says raw : List ℕ) → IsTold found line.now says raw → length raw ≤ length says + 1 → EndsAt K.taken number self.old self.new says end) }
        ensures unended { IfErr result (λ end. end ≢ ends.Ended) }
        ensures own { IfErr result (λ end. end ≢ ends.Input) }
        ensures risen { IsErrOf result ends.Accepted → HasRisen (K.faults self.old.accepted) (K.faults self.new.accepted) }
        ensures counted { K.faults self.old.accepted ≤ K.faults self.new.accepted }
    {
        match found {
            Found::Whole => self.take_whole(line, number, gate, door, rt),
            Found::TooLong => self.pass_over(number, Why::TooLong, gate, door, rt),
        }
    }
}
