//! Laws of the answer over several sessions, which hold of the definitions alone.
//! Each function has an empty body; its clause is a statement about the definitions that `run_muxanswer` meets.

ghost use Rattle.cmd_muxanswer.specs.Laws.{ContextsAreNeeded, EachIsItsOwn, OneMuxAnswer};

/// Each session's part of WIRE and its lines are those of its own `answer` over its own frames, whatever the others did.
pub fn each_is_its_own()
    ensures law { EachIsItsOwn }
{}

/// On WIRE every frame stands behind a Context of its session, and a Context stands exactly where another session wrote before.
pub fn contexts_are_needed()
    ensures law { ContextsAreNeeded }
{}

/// The answer to an input is one: whatever bytes the input holds, no two answers meet the definition.
pub fn one_mux_answer()
    ensures law { OneMuxAnswer }
{}
