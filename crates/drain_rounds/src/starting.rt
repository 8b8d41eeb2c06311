//! Two ends at the beginning of a connection: the premises of the laws on rounds can be met.

ghost use Rattle.drain_rounds.specs.Starting.{BeginsShow};

/// Two ends that know no more of each other than was sent are, as they begin a connection, where rounds begin.
pub fn begins_show()
    ensures law { BeginsShow }
{}
