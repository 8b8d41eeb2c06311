//! The whole input, piece by piece: the lines of a piece are pushed before the next is read.

ghost use Rattle.std.specs.Prelude.{◌≡◌, ◌≤◌, ◌⊎◌, ℕ, true, false, Ok, Option, List, [], IfErr, IsErrOf, OnOk, OnErr};
ghost use Rattle.std.specs.Io.KnownBytes.{Appends, Consumes, IsAtEnd, Keeps};
ghost use Rattle.gw_outside.specs.Faults.{HasCause, HasRisen, TakesFront};
ghost use Rattle.sbe_layout.specs.Legal.{LegalPlan};
ghost use Rattle.sbe_layout.specs.declared.plan.Plan.{Plan};
ghost use Rattle.cmd_codec.specs.declared.shown.Shown.{Shown};
ghost use Rattle.cmd_codec.specs.Decoded.{status_at};
ghost use Rattle.cmd_codec.specs.Decodes.{Streams, Stands, IsIdle, AfterRound, KeepsPromise, IsDecodeEnd, as_round};
ghost use Rattle.cmd_base.specs.Order.{HasGiven};
ghost use Rattle.sofh_frame.specs.Framing.{rest, first_of};

use crate::decoder::Decoder;
use crate::shown::Shown;
use cmd_base::{Bad, Status, begin};
use gw_outside::{Failed, Sink, Source, push_all};
use sbe_layout::Plan;
use std::alloc::Global;
use std::sync::Wait;

impl Decoder {
    // Pushes the lines of the last piece.
    fn push<K: Sink>(&mut self, out: &mut K) -> Result<(), Failed>
        ensures ok { OnOk result (Appends (K.taken out.old) (K.taken out.new) self.old.lines.items) }
        ensures err { OnErr result (TakesFront (K.taken out.old) (K.taken out.new) self.old.lines.items) }
        ensures emptied { OnOk result (self.new.lines.items ≡ []) }
        ensures framer { self.new.framer ≡ self.old.framer }
        ensures number { self.new.number ≡ self.old.number }
        ensures place { self.new.place ≡ self.old.place }
        ensures cause { HasCause (K.faults out.old) (K.faults out.new) result }
    {
        push_all(out, self.lines.as_slice())?;
        self.lines.clear();
        Ok(())
    }

    // The input has ended: behind a frame, or inside one.
    fn finish(&self) -> Result<bool, Status>
        requires { IsIdle self.now }
        ensures { result ≡ as_round (status_at self.now.place self.now.framer.held (first_of self.now.framer.held)) }
    {
        if self.framer.is_empty() {
            Ok(false)
        } else {
            Err(Status::Message(Bad::Cut { at: self.place }))
        }
    }

    // Reads a piece of the input behind the bytes that are held; false at its end.
    fn read<S: Source>(&mut self, input: &mut S) -> Result<bool, Failed>
        requires waits { first_of self.old.framer.held ≡ rest }
        ensures more { result ≡ Ok true → (shown : Shown) (plan : Plan) (before : Streams) (out : Option (List ℕ)) →
            Stands shown plan before (record { input = S.left input.old; out = out }) self.old → Stands shown plan before (record { input = S.left input.new; out = out }) self.new }
        ensures given { result ≡ Ok true → HasGiven (S.left input.old) (S.left input.new) }
        ensures nothing { result ≡ Ok false → Consumes (S.left input.old) (S.left input.new) [] }
        ensures end { result ≡ Ok false → IsAtEnd (S.left input.new) }
        ensures held { result ≡ Ok false → self.new.framer.held ≡ self.old.framer.held }
        ensures lines { self.new.lines ≡ self.old.lines }
        ensures place { self.new.place ≡ self.old.place }
        ensures failed { OnErr result (Keeps (S.left input.old) (S.left input.new)) }
        ensures cause { HasCause (S.faults input.old) (S.faults input.new) result }
    {
        let Ok(count) = input.pull(self.framer.room()) else {
            return Err(Failed);
        };
        if count == 0 {
            return Ok(false);
        }
        self.framer.filled(count);
        Ok(true)
    }

    // Decodes the frames that are held, as far as they go, and pushes their lines.
    fn print_held<K: Sink>(
        &mut self,
        alloc: Global,
        shown: Shown,
        plan: &Plan,
        out: &mut K,
    ) -> Result<(), Status>
        requires { LegalPlan plan.now }
        ensures idle { OnOk result (IsIdle self.new) }
        ensures stands { OnOk result ((before : Streams) (input : Option (List ℕ)) →
            Stands shown plan.now before (record { input = input; out = K.taken out.old }) self.old → Stands shown plan.now before (record { input = input; out = K.taken out.new }) self.new) }
        ensures promise { IfErr result (λ status. (before : Streams) (input : Option (List ℕ)) →
            Stands shown plan.now before (record { input = input; out = K.taken out.old }) self.old → KeepsPromise shown plan.now before (record { input = input; out = K.taken out.new }) status) }
        ensures counted { K.faults out.old ≤ K.faults out.new }
        ensures ends { IfErr result IsDecodeEnd }
        ensures read_nothing { IsErrOf result Status.InputFault → ⊥ }
        ensures cause { IfErr result (λ status. status ≡ Status.OutputFault → HasRisen (K.faults out.old) (K.faults out.new)) }
    {
        match self.take_frames(alloc, shown, plan) {
            Ok(()) => {
                let Ok(()) = self.push(out) else {
                    return Err(Status::OutputFault);
                };
                Ok(())
            }
            Err(Status::Message(wrong)) => {
                let Ok(()) = self.push(out) else {
                    return Err(Status::OutputFault);
                };
                Err(Status::Message(wrong))
            }
            Err(_) => Err(Status::Memory),
        }
    }

    // Prints the messages of the frames that are held, and reads a piece of the input. `Ok(false)` is the end.
    fn round<S: Source, K: Sink>(
        &mut self,
        alloc: Global,
        shown: Shown,
        plan: &Plan,
        input: &mut S,
        out: &mut K,
    ) -> Result<bool, Status>
        requires { LegalPlan plan.now }
        ensures after { (before : Streams) →
            Stands shown plan.now before (record { input = S.left input.old; out = K.taken out.old }) self.old →
            AfterRound shown plan.now before (record { input = S.left input.new; out = K.taken out.new }) self.new result }
        ensures consumed { (bytes : List ℕ) × Consumes (S.left input.old) (S.left input.new) bytes }
        ensures input_counted { S.faults input.old ≤ S.faults input.new }
        ensures out_counted { K.faults out.old ≤ K.faults out.new }
        ensures ends { IfErr result IsDecodeEnd }
        ensures input_cause { IfErr result (λ status. status ≡ Status.InputFault → HasRisen (S.faults input.old) (S.faults input.new)) }
        ensures out_cause { IfErr result (λ status. status ≡ Status.OutputFault → HasRisen (K.faults out.old) (K.faults out.new)) }
    {
        self.print_held(alloc, shown, plan, out)?;
        match self.read(input) {
            Ok(true) => Ok(true),
            Ok(false) => self.finish(),
            Err(_) => Err(Status::InputFault),
        }
    }
}

/// Prints the messages of the frames in the input, by the plan of a schema and as values are to be shown, up to the first fault. The output is begun once a
/// piece of the input was read: where that fails, it is left as it is.
pub fn print_frames<R: Wait, S: Source, K: Sink>(
    rt: &R,
    alloc: Global,
    shown: Shown,
    plan: &Plan,
    input: &mut S,
    out: &mut K,
) -> Status
    requires { LegalPlan plan.now }
    ensures promise { KeepsPromise shown plan.now
        (record { input = S.left input.old; out = K.taken out.old })
        (record { input = S.left input.new; out = K.taken out.new }) result }
    ensures spared { result ≡ Status.InputFault → (out.new ≡ out.old) ⊎ HasGiven (S.left input.old) (S.left input.new) }
    ensures ends { IsDecodeEnd result }
    ensures input_counted { S.faults input.old ≤ S.faults input.new }
    ensures out_counted { K.faults out.old ≤ K.faults out.new }
    ensures input_cause { result ≡ Status.InputFault → HasRisen (S.faults input.old) (S.faults input.new) }
    ensures out_cause { result ≡ Status.OutputFault → HasRisen (K.faults out.old) (K.faults out.new) }
{
    let Ok(mut decoder) = Decoder::new(alloc) else {
        return Status::Memory;
    };
    let Ok(more) = decoder.read(input) else {
        return Status::InputFault;
    };
    let Ok(()) = begin(out) else {
        return Status::OutputFault;
    };
    if !more {
        return Status::Done;
    }
    for _ in rt.forever() {
        match decoder.round(alloc, shown, plan, input, out) {
            Ok(true) => {}
            Ok(false) => return Status::Done,
            Err(status) => return status,
        }
    }
    unreachable!()
}
