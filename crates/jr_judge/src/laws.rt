//! A law of what is found of a journal of a box.

ghost use Rattle.jr_judge.specs.Judged.{OneVerdict};

/// Of a content at most one is found: the records of the box that it is a journal of, or the one cause why it is none.
pub fn one_verdict_of_box()
    ensures { OneVerdict }
{}
