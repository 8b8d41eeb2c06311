//! Messages whose numbers fit their fields, read and written.

ghost use Rattle.connection_laws.specs.LegalLaws.{SpelledFits, WrittenIsLegal};

/// The numbers of a session message that bytes spell fit their fields.
pub fn spelled_fits()
    ensures law { SpelledFits }
{}

/// All that a machine in range writes on a connection is legal, over any calls that may come, and it stays in range.
pub fn written_is_legal()
    ensures law { WrittenIsLegal }
{}
