//! A law of the definition of the answer.

ghost use Rattle.cmd_answer.specs.Answer.{OneAnswer};

/// The answer to an input is one: whatever bytes the input holds, no two answers meet the definition.
pub fn one_answer()
    ensures { OneAnswer }
{}
