//! That a strict text spells what it spells in the strict form: a law of the definitions.

ghost use Rattle.std.specs.Prelude.{ℕ, List};
ghost use Rattle.sbe_value.specs.declared.message.Message.{Message};
ghost use Rattle.sbe_layout.specs.declared.plan.Plan.{Plan};
ghost use Rattle.text_words.specs.Lines.{lines_in};
ghost use Rattle.cmd_codec.specs.Encoded.{AreSpelled, AreStrict};

/// A text of messages in the strict form spells these messages.
pub fn strict_is_spelled()
    ensures law { (plan : Plan) (text : List ℕ) (messages : List Message) → AreStrict plan (lines_in text) messages → AreSpelled plan text messages }
{}
