//! The lines that `answer` writes.

ghost use Rattle.std.specs.Prelude.{◌≡◌, ◌≤◌, ◌^◌, ◌++◌, length, OnOk};
ghost use Rattle.cmd_answer.specs.Lines.{line_of};

use conn_lines::push_frame_line;
use fixp_replies::Act;
use sofh_frame::Order;
use std::alloc::AllocError;

/// Adds the line of a frame with this act, if it has one.
pub fn push_line(
    lines: &mut Vec<u8>,
    act: Act,
    order: Order,
    message: &[u8],
) -> Result<(), AllocError>
    requires { length message.now ≤ 2 ^ 20 }
    ensures { OnOk result (lines.new.items ≡ lines.old.items ++ line_of act (record { order = order; message = message.now })) }
{
    match act {
        Act::Apply { number } => push_frame_line(lines, number, order, message),
        _ => Ok(()),
    }
}
