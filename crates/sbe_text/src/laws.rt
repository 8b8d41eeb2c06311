//! That what is written reads back: a law of the definitions.

ghost use Rattle.std.specs.Prelude.{◌≡◌, IsTrue, Ok};
ghost use Rattle.sbe_layout.specs.declared.plan.Plan.{Plan};
ghost use Rattle.sbe_value.specs.declared.message.Message.{Message};
ghost use Rattle.sbe_grammar.specs.Fits.{Fits};
ghost use Rattle.sbe_text.specs.Held.{is_message, HasWords};
ghost use Rattle.sbe_text.specs.Reading.{message_of_text};
ghost use Rattle.sbe_text.specs.Written.{lines_of_message};

/// The lines of a message spell that message, where it fits the plan and the plan's names have no line ends and tell its
/// messages apart.
pub fn printed_reads_back()
    ensures law { (schema : Plan) (m : Message) → Fits schema m → HasWords schema → IsTrue (is_message m) → message_of_text schema (lines_of_message schema m) ≡ Ok m }
{}
