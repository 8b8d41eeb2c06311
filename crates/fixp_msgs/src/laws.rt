//! The laws of the session messages: facts about the definitions alone, each on a function without a body.

ghost use Rattle.fixp_msgs.specs.Laws.{AtMostOneMessage, SpelledIsFound, WrittenIsSpelled, WrittenIsWhole};

/// At most one message is spelled by given bytes.
pub fn one_message()
    ensures { AtMostOneMessage }
{}

/// The message that bytes spell is the one that `message_in` finds, and it finds none where none is spelled.
pub fn spelled_is_found()
    ensures { SpelledIsFound }
{}

/// What is written is spelled, whatever follows it.
pub fn written_is_spelled()
    ensures { WrittenIsSpelled }
{}

/// The frame that is written is whole, holds the message, and is that of a session message.
pub fn written_is_whole()
    ensures { WrittenIsWhole }
{}
