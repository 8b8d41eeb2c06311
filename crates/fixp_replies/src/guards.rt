//! What is looked at before a message's own rows: its session, and whether its phase awaits it.

ghost use Rattle.std.specs.Prelude.{◌≡◌, true, false};
ghost use Rattle.fixp_replies.specs.Facts.{around_of};
ghost use Rattle.fixp_replies.specs.Replies.{misplaced};

use crate::facts::{Around, Facts};
use crate::standing::is_own;
use fixp_shake::Violation;

/// The rule that a message with this session breaks, if it is another session's, or is not awaited in the phase.
pub fn out_of_place(
    around: &Around<'_>,
    facts: &Facts,
    template: u16,
    session_id: &[u8; 16],
    awaited: bool,
) -> Option<Violation>
    ensures { result ≡ misplaced (around_of around.now) facts.now template session_id.now awaited }
{
    if !is_own(around, session_id) {
        return Some(Violation::OtherSession { template });
    }
    if !awaited {
        let phase = facts.connection.phase;
        return Some(Violation::NotInPhase { template, phase });
    }
    None
}
