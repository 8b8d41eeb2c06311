//! The session messages of FIXP 1.1 by the grammar of messages of Simple Binary Encoding 1.0: bytes spell a session message
//! exactly where they spell its tree of values by the plan of the session's schema, at any version of that schema from 1 on; a
//! reader of version 0 finds what that version has of it.
//! Each function has an empty body: its clause is a law.

ghost use Rattle.session_grammar.specs.Laws.{SpelledAlike, EveryTree, ShortAlike, OlderReads};

/// Bytes spell a session message exactly where they spell its tree by the session's schema.
pub fn spelled_alike()
    ensures law { SpelledAlike }
{}

/// Each tree that bytes spell by the session's schema is that of a session message, which they spell too.
pub fn every_tree()
    ensures law { EveryTree }
{}

/// Bytes spell no session message exactly where they spell no tree by the session's schema.
pub fn short_alike()
    ensures law { ShortAlike }
{}

/// A reader of version 0 finds of a session message what that version has of it.
pub fn older_reads()
    ensures law { OlderReads }
{}
