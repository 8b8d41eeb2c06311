//! The whole text, read before anything is written.

ghost use Rattle.std.specs.Prelude.{◌≡◌, ◌+◌, ◌-◌, ◌≤◌, length};
ghost use Rattle.text_words.specs.Lines.{lines_in};
ghost use Rattle.cmd_codec.specs.Encoding.{TellsLine};
ghost use Rattle.gw_outside.specs.Faults.{HasRisen};
ghost use Rattle.cmd_codec.specs.Encodes.{IsEncodeEnd, KeepsPromise, LeavesWire};

use crate::writing::{make_frames, write_all};
use cmd_base::{Bad, INPUT_LIMIT, Status, TextFault, begin, read_text};
use gw_outside::{Sink, Source};
use sbe_layout::Plan;
use sbe_text::{Refusal, TextError, refused_line};
use std::alloc::Global;

// What is wrong with a text at whose refused line this is left of it.
fn refused(text: &[u8], left: &[u8]) -> Status
    ensures { TellsLine (length (lines_in text.now) - length (lines_in left.now) + 1) result }
{
    match refused_line(text, left) {
        TextError::Line(line) => Status::Message(Bad::Line { line }),
        TextError::Memory => Status::Memory,
    }
}

/// Writes the frames of the messages that the text of the input spells, by the plan of a schema. The text is read whole
/// before the output is begun: where it cannot be read, or a line of it is refused, the output is left as it is.
#[tactic(auto, using(crate::proofs::Fronts::wrote, crate::proofs::Fronts::line_refused, crate::proofs::Fronts::too_long, crate::proofs::Fronts::unread, crate::proofs::Fronts::unmade))]
pub fn write_frames<S: Source, K: Sink>(
    alloc: Global,
    plan: &Plan,
    input: &mut S,
    wire: &mut K,
) -> Status
    ensures promise { KeepsPromise plan.now (S.left input.old) (K.taken wire.old) (K.taken wire.new) result }
    ensures spared { LeavesWire result → wire.new ≡ wire.old }
    ensures ends { IsEncodeEnd result }
    ensures input_counted { S.faults input.old ≤ S.faults input.new }
    ensures wire_counted { K.faults wire.old ≤ K.faults wire.new }
    ensures input_cause { result ≡ Status.InputFault → HasRisen (S.faults input.old) (S.faults input.new) }
    ensures wire_cause { result ≡ Status.OutputFault → HasRisen (K.faults wire.old) (K.faults wire.new) }
{
    let text = match read_text(alloc, input, INPUT_LIMIT) {
        Ok(text) => text,
        Err(TextFault::Source) => return Status::InputFault,
        Err(TextFault::Memory) => return Status::Memory,
    };
    if text.len() > INPUT_LIMIT {
        return Status::Message(Bad::TooLong);
    }
    let mut frames = Vec::new(alloc);
    let place = match make_frames(alloc, plan, text.as_slice(), &mut frames) {
        Ok(place) => place,
        Err(Refusal::At(left)) => return refused(text.as_slice(), left),
        Err(Refusal::Memory) => return Status::Memory,
    };
    let Ok(()) = begin(wire) else {
        return Status::OutputFault;
    };
    write_all(alloc, plan, text.as_slice(), place, &mut frames, wire)
}
