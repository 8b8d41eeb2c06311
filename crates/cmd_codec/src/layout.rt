//! The layout of a schema, message by message.

ghost use Rattle.std.specs.Prelude.{◌≡◌, ◌≤◌, IfOk};
ghost use Rattle.gw_outside.specs.Faults.{HasRisen};
ghost use Rattle.sbe_layout.specs.Context.{Knows};
ghost use Rattle.sbe_layout.specs.Plans.{message_plan, message_plans};
ghost use Rattle.layout_text.specs.Lines.{lines_of_message, lines_of_messages};
ghost use Rattle.cmd_codec.specs.Layouts.{GaveLines, IsPrintEnd};

use cmd_base::{Status, begin};
use gw_outside::{Sink, push_all};
use layout_text::message_lines;
use sbe_layout::{Types, lay_out_message};
use sbe_schema::{Checked, MessageDef};
use sbe_value::Lines;
use std::alloc::{AllocError, Global};

/// Prints the layout of the messages of a schema. Each is laid out and printed before the next, so that no more memory
/// is needed than the greatest of them takes.
#[tactic(auto, using(crate::proofs::Printing::printed_more, crate::proofs::Printing::printed_front, crate::proofs::Printing::printed_so_far, crate::proofs::Printing::printed_all))]
pub fn print_layout<K: Sink>(alloc: Global, schema: &Checked, out: &mut K) -> Status
    ensures lines { GaveLines (lines_of_messages (message_plans schema.now.schema.types schema.now.schema.messages)) (K.taken out.old) (K.taken out.new) result }
    ensures ends { IsPrintEnd result }
    ensures counted { K.faults out.old ≤ K.faults out.new }
    ensures cause { result ≡ Status.OutputFault → HasRisen (K.faults out.old) (K.faults out.new) }
{
    let Ok(()) = begin(out) else {
        return Status::OutputFault;
    };
    let Ok(types) = Types::new(alloc, &schema.schema) else {
        return Status::Memory;
    };
    for message in schema.schema.messages.as_slice() {
        let Ok(lines) = layout_lines(alloc, &types, message) else {
            return Status::Memory;
        };
        let Ok(()) = push_all(out, lines.as_slice()) else {
            return Status::OutputFault;
        };
    }
    Status::Done
}

// The lines of the layout of a message.
fn layout_lines(alloc: Global, types: &Types<'_>, message: &MessageDef) -> Result<Lines, AllocError>
    requires known { Knows types.now }
    ensures { IfOk result (λ lines. lines ≡ lines_of_message (message_plan types.now.index.schema.now.types message.now)) }
{
    let plan = lay_out_message(alloc, types, message)?;
    message_lines(alloc, &plan)
}
